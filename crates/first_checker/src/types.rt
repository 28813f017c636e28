//! What is known of the types of a program before it is judged.
ghost use Rattle.std.specs.Prelude.{◌≡◌, [], List, IfOk};
ghost use Rattle.type_terms.specs.declared.form.Form.{Form};
ghost use Rattle.typing_rules.specs.Gathered.{gathered};
ghost use Rattle.type_definitions.specs.Definitions.{rules_in};
ghost use Rattle.type_definitions.specs.Tables.{Later};
ghost use Rattle.met_types.specs.States.{Stands};
ghost use Rattle.abstract_tree.specs.TreeView.{plain_program};
ghost use Rattle.judging.specs.Parts.{Known};

use abstract_tree::Program;
use gathered_types::gathered;
use judging::Checker;
use mo_num::Memory;
use shareable_types::Sharing;
use std::alloc::Global;

/// What is known of the types of a program before it is judged: its definitions and the bounds of its type parameters, wherever they
/// stand, and which types may be sent and compared as far as these tell (Motoko language manual, sections "Type declarations",
/// "Shared types"). No type is met yet. It recurses as deep as the program.
pub fn first_checker(alloc: Global, program: &Program<u32>) -> Result<Checker, Memory>
    ensures known { IfOk result Known }
    ensures stands { IfOk result (λ made. Stands [] made.types) }
    ensures gathered { IfOk result (λ made. (later : List Form) → Later made.types.forms later → rules_in later made.types.listed ≡ gathered (plain_program program.now)) }
{
    let types = gathered(alloc, program)?;
    let messages = Sharing::of_messages(&types)?;
    let equality = Sharing::of_equality(&types)?;
    Ok(Checker {
        types,
        messages,
        equality,
    })
}
