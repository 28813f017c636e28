//! The types of a program with its definitions.
ghost use Rattle.std.specs.Prelude.{◌≡◌, [], List, IfOk};
ghost use Rattle.type_terms.specs.declared.form.Form.{Form};
ghost use Rattle.typing_rules.specs.Gathered.{gathered};
ghost use Rattle.type_definitions.specs.Definitions.{rules_in};
ghost use Rattle.type_definitions.specs.Tables.{Later};
ghost use Rattle.met_types.specs.States.{Kept, Stands};
ghost use Rattle.abstract_tree.specs.TreeView.{plain_program};

use crate::found::Found;
use crate::walk::find_block;
use abstract_tree::Program;
use met_types::Types;
use mo_num::Memory;
use std::alloc::Global;
use type_scopes::TypeScope;
use type_terms::Terms;

/// Types without definitions.
fn no_definitions(alloc: Global) -> Result<Types, Memory>
    ensures { IfOk result Kept }
{
    let found = Found::new(alloc);
    let definitions = found.into_definitions(alloc)?;
    let terms = Terms::new(alloc);
    Types::new(alloc, terms, definitions)
}

/// The types of a program with its definitions and the bounds of its type parameters, wherever they stand: Motoko language manual,
/// sections "Type declarations", "Class declaration" and "Type parameters". None is met yet. It recurses as deep as the program.
pub fn gathered(alloc: Global, program: &Program<u32>) -> Result<Types, Memory>
    ensures kept { IfOk result Kept }
    ensures met { IfOk result (λ made. made.reached ≡ []) }
    ensures stands { IfOk result (Stands []) }
    ensures gathered { IfOk result (λ made. (later : List Form) → Later made.forms later → rules_in later made.listed ≡ gathered (plain_program program.now)) }
{
    let mut scope = TypeScope::new(alloc);
    let mut types = no_definitions(alloc)?;
    let mut found = Found::new(alloc);
    find_block(
        &mut scope,
        &mut types,
        &mut found,
        usize::MAX,
        program.fields.as_slice(),
    )?;
    let terms = types.into_terms();
    let definitions = found.into_definitions(alloc)?;
    match Types::new(alloc, terms, definitions) {
        Ok(made) => Ok(made),
        Err(memory) => Err(memory),
    }
}
