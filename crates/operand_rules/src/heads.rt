//! On which types operators stand, by their heads.
ghost use Rattle.std.specs.Prelude.{◌≡◌, IfSome};
ghost use Rattle.typing_rules.specs.Literals as literals;
ghost use Rattle.typing_rules.specs.Operators as rules;
ghost use Rattle.met_types.specs.States.{IsReached, Kept};
ghost use Rattle.judging.specs.Heads.{HeadHas, WantedHas};
ghost use Rattle.judging.specs.Parts.{Wanting};
ghost use Rattle.operand_rules.specs.Families.{family_in};
ghost use Rattle.operand_rules.specs.Heads.{HeadIs, ordered_at};
ghost use Rattle.operand_rules.specs.Literals.{seen_written};

use crate::families::{Family, negated, signed, standing};
use crate::literals::Written;
use judging::{Checker, Site, is_blob, number_of};
use met_types::Types;
use mo_num::Kind;
use mo_types::Node;
use type_terms::TermId;

/// The kind of numbers that a type is, where the operators of the family stand on it.
pub fn number_with(types: &Types, family: Family, id: TermId) -> Option<Kind>
    requires kept { Kept types.now }
    requires reached { IsReached types.now id }
    ensures { HeadHas (rules.number_with (family_in family)) types.now id (λ later. result) }
{
    match number_of(types, id) {
        Some(kind) => standing(family, kind),
        None => None,
    }
}

/// The kind of numbers that `-` gives on a type, where it stands on it.
pub fn negated_of(types: &Types, id: TermId) -> Option<Kind>
    requires kept { Kept types.now }
    requires reached { IsReached types.now id }
    ensures { HeadHas rules.negated_of types.now id (λ later. result) }
{
    match number_of(types, id) {
        Some(kind) => negated(kind),
        None => None,
    }
}

/// The kind of numbers that a type is, where it is signed.
fn signed_of(types: &Types, id: TermId) -> Option<Kind>
    requires kept { Kept types.now }
    requires reached { IsReached types.now id }
    ensures { HeadHas rules.signed_of types.now id (λ later. result) }
{
    match number_of(types, id) {
        Some(kind) => signed(kind),
        None => None,
    }
}

fn is_ordered_at(node: &Node) -> bool
    ensures { result ≡ ordered_at node.now }
{
    match node {
        Node::Number(_) | Node::Char | Node::Text => true,
        _ => false,
    }
}

/// Whether values of a type are ordered: Motoko language manual, section "Relational operators".
pub fn is_ordered(types: &Types, id: TermId) -> bool
    requires kept { Kept types.now }
    requires reached { IsReached types.now id }
    ensures { HeadIs rules.is_ordered types.now id result }
{
    match types.node(id) {
        Some(node) => is_ordered_at(node),
        None => false,
    }
}

/// Whether a literal may have a type instead of its own.
pub(crate) fn may_have(types: &Types, written: &Written<'_>, id: TermId) -> bool
    requires kept { Kept types.now }
    requires reached { IsReached types.now id }
    ensures { HeadIs (literals.may_have (seen_written written.now)) types.now id result }
{
    match written {
        Written::Number(_, _) => number_of(types, id).is_some(),
        Written::Text(_) => is_blob(types, id),
    }
}

/// The type that is wanted, where it is one of numbers on which the operators of the family stand, and their kind.
pub fn wanted_with(site: &Site, checker: &Checker, family: Family) -> Option<(TermId, Kind)>
    requires { Wanting checker.now site.now }
    ensures is { WantedHas (rules.number_with (family_in family)) checker.now.types site.now.wanted (λ later kind. kind) result }
    ensures reached { IfSome result (λ q. IsReached checker.now.types q.0) }
{
    match site.wanted {
        Some(wanted) => match number_with(&checker.types, family, wanted) {
            Some(kind) => Some((wanted, kind)),
            None => None,
        },
        None => None,
    }
}

/// The type that is wanted, where it is one of signed numbers, and their kind.
pub fn wanted_signed(site: &Site, checker: &Checker) -> Option<(TermId, Kind)>
    requires { Wanting checker.now site.now }
    ensures is { WantedHas rules.signed_of checker.now.types site.now.wanted (λ later kind. kind) result }
    ensures reached { IfSome result (λ q. IsReached checker.now.types q.0) }
{
    match site.wanted {
        Some(wanted) => match signed_of(&checker.types, wanted) {
            Some(kind) => Some((wanted, kind)),
            None => None,
        },
        None => None,
    }
}
