//! The types of functions with type parameters at type arguments.
ghost use Rattle.std.specs.Prelude.{◌≡◌, length, map, OnOk};
ghost use Rattle.mo_types.specs.Sub.{Each};
ghost use Rattle.type_definitions.specs.Tables.{Within};
ghost use Rattle.met_types.specs.States.{IsReached, Kept};
ghost use Rattle.abstract_types.specs.TypeView.{type_node};
ghost use Rattle.value_scopes.specs.declared.scopes.Scopes.{Scopes as Names};
ghost use Rattle.judging.specs.declared.site.Site.{Site};
ghost use Rattle.judging.specs.Answers.{Answers};
ghost use Rattle.judging.specs.Parts.{Ready, Sound};
ghost use Rattle.judging.specs.Views.{term_in};
ghost use Rattle.scope_judging.specs.Rules.{kind_within};
ghost use Rattle.instance_rules.specs.Instances.{all_reached, at_arguments, instance, reads_each, terms_in};

use crate::bounds::{numbers, put_bounds, put_with};
use abstract_types::TypeNode;
use judging::Checker;
use mo_num::Sequence;
use type_definitions::Arguments;
use type_judgements::Refusal;
use type_steps::{meets_each, needs_each_below};
use type_terms::TermId;
use typing_rules::Condition;
use value_scopes::{Bound, Scopes};

/// The types that are written, in their order, where they are as they have to be; each is met.
fn reads_each(
    checker: &mut Checker,
    scopes: &Scopes,
    written: &[TypeNode],
) -> Result<Sequence<TermId>, Refusal>
    requires { Sound checker.old scopes.now }
    ensures { Answers terms_in all_reached (reads_each (map type_node written.now)) scopes.now checker.old scopes.now checker.new result }
{
    proper_types::reads_each(
        &scopes.types,
        &mut checker.types,
        &mut checker.messages,
        written,
    )
}

/// The type at these arguments, each of which is below its bound.
fn at_arguments(
    checker: &mut Checker,
    at: u32,
    bound: &Bound,
    arguments: &[TermId],
) -> Result<TermId, Refusal>
    requires kept { Kept checker.old.types }
    requires within { Within checker.old.types.forms bound.now.kind }
    requires reached { Each (IsReached checker.old.types) arguments.now }
    requires number { length arguments.now ≡ length bound.now.generics }
    ensures { (c : Names) → Sound checker.old c → Answers term_in kind_within (at_arguments at bound.now arguments.now) c checker.old c checker.new result }
{
    let generics = bound.generics.as_slice();
    let parameters = numbers(checker.types.terms().allocator(), generics)?;
    let put = Arguments {
        parameters: &parameters,
        arguments,
        others_stay: true,
    };
    let bounds = put_bounds(&mut checker.types, &put, generics)?;
    let highs = bounds.as_slice();
    meets_each(checker, highs)?;
    needs_each_below(checker, Condition::Bound, at, arguments, highs)?;
    Ok(put_with(&mut checker.types, &put, bound.kind)?)
}

/// The same at arguments that were read: they are as many as were counted where they are written.
fn at_read(
    checker: &mut Checker,
    at: u32,
    bound: &Bound,
    arguments: &[TermId],
) -> Result<TermId, Refusal>
    requires kept { Kept checker.old.types }
    requires within { Within checker.old.types.forms bound.now.kind }
    requires reached { Each (IsReached checker.old.types) arguments.now }
    ensures { (c : Names) → Sound checker.old c → Answers term_in kind_within (at_arguments at bound.now arguments.now) c checker.old c checker.new result }
{
    let as_many = arguments.len() == bound.generics.len();
    if as_many {
        at_arguments(checker, at, bound, arguments)
    } else {
        Err(Refusal::Memory)
    }
}

/// The type of a function with type parameters at all its type arguments: Motoko language manual, sections "Function calls" and "Type
/// parameters". There are as many as parameters, and each is below its bound, in which the arguments stand in the place of the parameters.
/// `False` names the first condition that is false.
pub fn instance(
    checker: &mut Checker,
    scopes: &Scopes,
    at: u32,
    bound: &Bound,
    written: &[TypeNode],
) -> Result<TermId, Refusal>
    requires sound { Sound checker.old scopes.now }
    requires within { Within checker.old.types.forms bound.now.kind }
    ensures answer { Answers term_in kind_within (instance at bound.now (map type_node written.now)) scopes.now checker.old scopes.now checker.new result }
    ensures ready { (x : Site) → Ready checker.old scopes.now x → OnOk result (Ready checker.new scopes.now x) }
{
    let as_many = written.len() == bound.generics.len();
    if as_many {
        let arguments = reads_each(checker, scopes, written)?;
        at_read(checker, at, bound, arguments.as_slice())
    } else {
        Err(Refusal::False(at, Condition::TypeArguments))
    }
}
