//! What is written at parameters and results.
ghost use Rattle.std.specs.Prelude.{◌≡◌, IfOk, IfSome, map};
ghost use Rattle.mo_types.specs.Sub.{Each};
ghost use Rattle.typing_rules.specs.TypeScopes.{names_of, places_of};
ghost use Rattle.type_definitions.specs.Tables.{Within};
ghost use Rattle.met_types.specs.States.{IsReached};
ghost use Rattle.abstract_types.specs.PatternView.{plain};
ghost use Rattle.abstract_types.specs.TypeView.{annotation, parameter};
ghost use Rattle.type_scopes.specs.Scopes.{seen};
ghost use Rattle.proper_types.specs.Passing.{Judges, Ready};
ghost use Rattle.proper_types.specs.Rules.{as_term, as_terms};
ghost use Rattle.signatures.specs.Rules.{async_result, kind_of, parameter_types, result_of};

use abstract_types::{Pattern, TypeNode, TypeParameter};
use declared_types::annotation;
use met_types::Types;
use mo_num::{Memory, Sequence};
use proper_types::reads;
use shareable_types::Sharing;
use std::alloc::Global;
use type_judgements::Refusal;
use type_scopes::TypeScope;
use type_terms::TermId;
use typing_rules::Condition;
use written_kinds::unit;
use written_types::awaited;

/// The type of a parameter: the one that is written, or else the one that is wanted.
pub(crate) fn kind_of(
    scope: &TypeScope,
    types: &mut Types,
    sharing: &mut Sharing,
    pattern: &Pattern<u32>,
    wanted: Option<TermId>,
) -> Result<TermId, Refusal>
    requires ready { Ready types.old sharing.old }
    requires reached { IfSome wanted (IsReached types.old) }
    ensures reached { IfOk result (IsReached types.new) }
    ensures judged { Judges (kind_of (seen scope.now) (plain pattern.now) wanted) types.old types.new sharing.new as_term result }
{
    match annotation(pattern) {
        Some(written) => reads(scope, types, sharing, written),
        None => match wanted {
            Some(kind) => Ok(kind),
            None => Err(Refusal::False(pattern.note, Condition::NeedsType)),
        },
    }
}

/// The types of parameters, each of which is written.
pub(crate) fn parameter_types(
    scope: &TypeScope,
    types: &mut Types,
    sharing: &mut Sharing,
    patterns: &[Pattern<u32>],
) -> Result<Sequence<TermId>, Refusal>
    requires { Ready types.old sharing.old }
    ensures reached { IfOk result (Each (IsReached types.new)) }
    ensures judged { Judges (parameter_types (seen scope.now) (map plain patterns.now)) types.old types.new sharing.new as_terms result }
{
    let mut made = Sequence::new(types.terms().allocator());
    for pattern in patterns {
        made.push(kind_of(scope, types, sharing, pattern, None)?)?;
    }
    Ok(made)
}

/// The type of a result: the one that is written, or else ().
pub(crate) fn result_of(
    scope: &TypeScope,
    types: &mut Types,
    sharing: &mut Sharing,
    of: &Option<TypeNode>,
) -> Result<TermId, Refusal>
    requires { Ready types.old sharing.old }
    ensures within { IfOk result (Within types.new.forms) }
    ensures judged { Judges (result_of (seen scope.now) (annotation of.now)) types.old types.new sharing.new as_term result }
{
    match of {
        Some(written) => reads(scope, types, sharing, written),
        None => Ok(unit(types)?),
    }
}

/// The `A` of a public function's result `async A`.
pub(crate) fn async_result(
    scope: &TypeScope,
    types: &mut Types,
    sharing: &mut Sharing,
    at: u32,
    of: &Option<TypeNode>,
) -> Result<TermId, Refusal>
    requires ready { Ready types.old sharing.old }
    ensures reached { IfOk result (IsReached types.new) }
    ensures judged { Judges (async_result (seen scope.now) at (annotation of.now)) types.old types.new sharing.new as_term result }
{
    match of {
        Some(written) => match awaited(written) {
            Some(promised) => reads(scope, types, sharing, promised),
            None => Err(Refusal::False(at, Condition::NotShared)),
        },
        None => Err(Refusal::False(at, Condition::NotShared)),
    }
}

/// The numbers of the tokens that are the names of type parameters.
pub(crate) fn places_of(alloc: Global, generics: &[TypeParameter]) -> Result<Sequence<u32>, Memory>
    ensures { IfOk result (λ made. made ≡ places_of (names_of (map parameter generics.now))) }
{
    let mut made = Sequence::new(alloc);
    for one in generics {
        made.push(one.name.at)?;
    }
    Ok(made)
}
