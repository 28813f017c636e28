//! The fields of a program.
ghost use Rattle.std.specs.Prelude.{◌≡◌, [], List, OnOk};
ghost use Rattle.type_terms.specs.declared.form.Form.{Form};
ghost use Rattle.typing_rules.specs.Gathered.{gathered};
ghost use Rattle.type_definitions.specs.Definitions.{rules_in};
ghost use Rattle.type_definitions.specs.Tables.{Later};
ghost use Rattle.met_types.specs.States.{Kept, Stands};
ghost use Rattle.abstract_tree.specs.TreeView.{plain_program};
ghost use Rattle.judging.specs.Answers.{Answers};
ghost use Rattle.judging.specs.Parts.{Known, Sound};
ghost use Rattle.list_judging.specs.Lists.{list_in, list_reached};
ghost use Rattle.program_fields.specs.Fields.{FieldsCome, all_fields, first_site, in_program, listed_fields, whatever};

use crate::basics::{meets_basics, meets_own};
use abstract_tree::{Declaration, Program};
use first_scopes::{first_place, first_scopes};
use judging::{Checker, Site};
use list_judging::MadeList;
use mo_syntax::Items;
use tree_judging::judge_list;
use type_judgements::Refusal;
use value_scopes::{Around, Note, Scopes};

/// Where the fields of a program stand. What is false of the program as a whole is so at its first token.
fn first_site() -> Site
    ensures { result ≡ first_site }
{
    Site {
        at: 0,
        place: first_place(),
        around: Around::Other,
        wanted: None,
    }
}

/// The list of the fields. Before it the types that every program has are met.
fn judge_listed(
    checker: &mut Checker,
    scopes: &mut Scopes,
    fields: &[Declaration<u32>],
) -> Result<MadeList, Refusal>
    requires { Sound checker.old scopes.old }
    ensures { Answers list_in list_reached (listed_fields fields.now) scopes.old checker.old scopes.new checker.new result }
{
    meets_basics(checker)?;
    judge_list(checker, scopes, first_site(), false, fields)
}

/// The fields. Behind them the type of an actor that has a name is met.
fn judge_all(
    checker: &mut Checker,
    scopes: &mut Scopes,
    program: &Program<u32>,
) -> Result<Items<Declaration<Note>>, Refusal>
    requires { Sound checker.old scopes.old }
    ensures { Answers (in_program program.now) whatever (all_fields program.now) scopes.old checker.old scopes.new checker.new result }
{
    let MadeList {
        kind: _kind,
        declarations,
    } = judge_listed(checker, scopes, program.fields.as_slice())?;
    meets_own(checker, scopes, &program.name)?;
    Ok(declarations)
}

/// The fields of a program, by what is known of its types: Motoko language manual, sections "Programs", "Actors".
pub fn judge_fields(
    checker: &mut Checker,
    program: &Program<u32>,
) -> Result<Items<Declaration<Note>>, Refusal>
    requires known { Known checker.old }
    requires stands { Stands [] checker.old.types }
    requires gathered { (later : List Form) → Later checker.old.types.forms later → rules_in later checker.old.types.listed ≡ gathered (plain_program program.now) }
    ensures come { FieldsCome program.now checker.new.types result }
    ensures kept { OnOk result (Kept checker.new.types) }
{
    let mut scopes = first_scopes(checker, program)?;
    let judged = judge_all(checker, &mut scopes, program);
    // In the table no term is twice, and each is made of terms before it.
    let _terms = checker.types.terms().len();
    judged
}
