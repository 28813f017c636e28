//! The types that are written in expressions.
ghost use Rattle.std.specs.Prelude.{IfOk, OnOk};
ghost use Rattle.type_definitions.specs.Tables.{Within};
ghost use Rattle.met_types.specs.States.{IsReached};
ghost use Rattle.abstract_types.specs.TypeView.{annotation, type_node};
ghost use Rattle.judging.specs.declared.site.Site.{Site};
ghost use Rattle.judging.specs.Answers.{Answers};
ghost use Rattle.judging.specs.Parts.{Ready, Sound};
ghost use Rattle.judging.specs.Views.{term_in};
ghost use Rattle.scope_judging.specs.Rules.{kind_within, reads, reads_or, reads_or_unit};

use abstract_types::TypeNode;
use judging::Checker;
use mo_num::Sequence;
use type_judgements::Refusal;
use type_terms::{Form, TermId};
use value_scopes::Scopes;

/// The type that is written, where it is as it has to be; it is met: Motoko language manual, section "Types".
pub fn reads(checker: &mut Checker, scopes: &Scopes, written: &TypeNode) -> Result<TermId, Refusal>
    requires { Sound checker.old scopes.now }
    ensures answer { Answers term_in IsReached (reads (type_node written.now)) scopes.now checker.old scopes.now checker.new result }
    ensures ready { (x : Site) → Ready checker.old scopes.now x → OnOk result (Ready checker.new scopes.now x) }
{
    proper_types::reads(
        &scopes.types,
        &mut checker.types,
        &mut checker.messages,
        written,
    )
}

/// The type that is written, or else another, which is as it was.
pub fn reads_or(
    checker: &mut Checker,
    scopes: &Scopes,
    written: &Option<TypeNode>,
    other: TermId,
) -> Result<TermId, Refusal>
    requires sound { Sound checker.old scopes.now }
    requires within { Within checker.old.types.forms other }
    ensures reached { IsReached checker.old.types other → IfOk result (IsReached checker.new.types) }
    ensures answer { Answers term_in kind_within (reads_or (annotation written.now) other) scopes.now checker.old scopes.now checker.new result }
    ensures ready { (x : Site) → Ready checker.old scopes.now x → OnOk result (Ready checker.new scopes.now x) }
{
    match written {
        Some(written) => reads(checker, scopes, written),
        None => Ok(other),
    }
}

/// The type that is written, or else (), which need not be met then.
pub fn reads_or_unit(
    checker: &mut Checker,
    scopes: &Scopes,
    written: &Option<TypeNode>,
) -> Result<TermId, Refusal>
    requires { Sound checker.old scopes.now }
    ensures answer { Answers term_in kind_within (reads_or_unit (annotation written.now)) scopes.now checker.old scopes.now checker.new result }
    ensures ready { (x : Site) → Ready checker.old scopes.now x → OnOk result (Ready checker.new scopes.now x) }
{
    let nothing = Sequence::new(checker.types.terms().allocator());
    let unit = checker.types.intern(Form::Tuple(nothing))?;
    reads_or(checker, scopes, written, unit)
}
