//! The nodes of an actor's declarations.
ghost use Rattle.std.specs.Prelude.{◌≡◌, ◌+◌, IfOk, suc};
ghost use Rattle.abstract_tree.specs.TreeView.{declaration_form};
ghost use Rattle.desugaring.specs.Programs as programs;
ghost use Rattle.judged_parts.specs.Parts.{See};
ghost use Rattle.kernel_counts.specs.Counting.{Counts};
ghost use Rattle.kernel_roles.specs.Roles.{list_seen};

use abstract_tree::{Declaration, DeclarationForm};
use kernel_counts::count_declaration;
use kernel_roles::{Role, actor_role};
use mo_num::Memory;
use value_scopes::Note;

/// One more. There are never so many nodes that their number is none of 32 bits.
fn one_more(counted: u32) -> Result<u32, Memory>
    ensures { IfOk result (λ more. more ≡ counted + 1) }
{
    match counted.checked_add(1) {
        Some(more) => Ok(more),
        None => Err(Memory),
    }
}

/// Adds the nodes of a declaration, without those of parameters and bodies.
fn count_one(form: &DeclarationForm<Note>, counted: u32) -> Result<u32, Memory>
    ensures { (see : See) → IfOk result (Counts (suc (programs.own_nodes (declaration_form see form.now))) counted) }
{
    let counted = one_more(counted)?;
    match actor_role(form) {
        Role::Method(_, _, _, _, _) => Ok(counted),
        Role::System(_, _) => Ok(counted),
        Role::Stable(_) => count_declaration(form, counted),
        Role::Function => Ok(counted),
        Role::Other => count_declaration(form, counted),
    }
}

/// The nodes of an actor's declarations, without those of the parameters and bodies of its functions.
pub fn own_nodes(fields: &[Declaration<Note>]) -> Result<u32, Memory>
    ensures { (see : See) → IfOk result (λ nodes. nodes ≡ programs.own_nodes_of (list_seen see fields.now)) }
{
    let mut nodes = 0;
    for one in fields {
        let more = count_one(one.form.get(), nodes)?;
        nodes = more;
    }
    Ok(nodes)
}
