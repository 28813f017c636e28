//! The first of the rules that are broken.
ghost use Rattle.std.specs.Prelude.{◌≡◌, [], true, false};
ghost use Rattle.mo_names.specs.Bound.{Comes, rank};
ghost use Rattle.mo_names.specs.Order.{Among};
ghost use Rattle.mo_names.specs.ProgramNames.{breach_in};
ghost use Rattle.mo_order.specs.Breaches.{FirstOf, FoundOrEarly};
ghost use Rattle.mo_order.specs.Least.{OneOf};

use mo_scopes::{Breach, Finding, Rule};
use mo_syntax::Place;

/// Where the rule stands in the order of rules.
fn rank(rule: Rule) -> u8
    ensures { result ≡ rank rule }
{
    match rule {
        Rule::Unknown => 0,
        Rule::Twice => 1,
        Rule::UsedBeforeDefined => 2,
        Rule::LabelClash => 3,
        Rule::Reserved => 4,
    }
}

/// Whether the breach comes before the other, by its place and then by its rule.
fn comes(a: Breach, b: Breach) -> bool
    ensures first { result ≡ true → Comes a b }
    ensures second { result ≡ false → Comes b a }
{
    a.place.start < b.place.start
        || (a.place.start == b.place.start && rank(a.rule) <= rank(b.rule))
}

/// Of two breaches the one that comes first.
fn first_of(first: Option<Breach>, b: Breach) -> Option<Breach>
    ensures { FirstOf (OneOf first (λ other. other ≡ b)) result }
{
    match first {
        Some(a) if comes(a, b) => first,
        _ => Some(b),
    }
}

/// Of this breach and what is found here the one that comes first.
fn first_with(first: Option<Breach>, finding: Finding) -> Option<Breach>
    ensures { FirstOf (OneOf first (λ b. Among b (breach_in finding))) result }
{
    match finding {
        Finding::Meaning(_) => first,
        Finding::Breach(breach) => first_of(first, breach),
    }
}

/// The breach that a value is used here before it is defined.
fn breach_of_order(early: Option<Place>) -> Option<Breach>
    ensures { FirstOf (FoundOrEarly [] early) result }
{
    match early {
        None => None,
        Some(place) => Some(Breach {
            rule: Rule::UsedBeforeDefined,
            place,
        }),
    }
}

/// Of the breaches that were found, and the one that a value is used at a place before it is defined, the first.
pub(crate) fn first_breach(found: &[Finding], early: Option<Place>) -> Option<Breach>
    ensures { FirstOf (FoundOrEarly found.now early) result }
{
    let mut first = breach_of_order(early);
    for finding in found {
        first = first_with(first, *finding);
    }
    first
}
