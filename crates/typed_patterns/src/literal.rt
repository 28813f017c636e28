//! Literals in patterns.
ghost use Rattle.std.specs.Prelude.{◌≡◌, ℕ, false};
ghost use Rattle.std.specs.Str.{is_utf8};
ghost use Rattle.mo_types.specs.declared.node.TypeId.{TypeId};
ghost use Rattle.mo_subtype.specs.Renamed.{on_node};
ghost use Rattle.mo_values.specs.Parts.{is_in_range};
ghost use Rattle.typing_rules.specs.AbstractSyntax as syntax;
ghost use Rattle.typing_rules.specs.Patterns.{LiteralStands};
ghost use Rattle.typing_rules.specs.Patterns as rules;
ghost use Rattle.typing_rules.specs.Spans.{literal_of};
ghost use Rattle.typing_rules.specs.Terms.{Term};
ghost use Rattle.typed_patterns.specs.Faults.{by_fault, fault_of};

use mo_num::Kind;
use mo_syntax::Literal;
use mo_types::Node;
use std::str;
use typing_rules::Condition;

/// Whether the number is one of the kind.
fn in_range(kind: Kind, number: i128) -> bool
    ensures { result ≡ is_in_range kind number }
{
    kind.least() <= number && number <= kind.greatest()
}

/// The number of a literal, with its sign.
fn signed(minus: bool, number: u64) -> i128
    ensures { result ≡ rules.signed minus number }
{
    if minus {
        -(number as i128)
    } else {
        number as i128
    }
}

/// Whether the bytes are those of a text.
fn is_text(bytes: &[u8]) -> bool
    ensures { result ≡ is_utf8 bytes.now }
{
    str::from_utf8(bytes).is_ok()
}

/// The condition that is false of a number on a type with this head: that its type has numbers, and this one.
fn number_fault(head: &Node, minus: bool, number: u64) -> Option<Condition>
    ensures { (f : TypeId → Term) (at : ℕ) → LiteralStands at minus (syntax.Number number) (on_node f head.now) ≡ by_fault at result }
{
    match head.number_of() {
        Some(kind) => {
            if in_range(kind, signed(minus, number)) {
                None
            } else {
                Some(Condition::LiteralRange)
            }
        }
        None => Some(Condition::PatternType),
    }
}

/// The same of a text, which is one of Blob, or if it is UTF-8 one of Text.
fn text_fault(head: &Node, bytes: &[u8]) -> Option<Condition>
    ensures { (f : TypeId → Term) (at : ℕ) → LiteralStands at false (syntax.Text bytes.now) (on_node f head.now) ≡ by_fault at result }
{
    if head.is_blob() {
        None
    } else if !head.is_text() {
        Some(Condition::PatternType)
    } else if is_text(bytes) {
        None
    } else {
        Some(Condition::Mismatch)
    }
}

/// That of another literal, which has no sign.
fn plain_fault(minus: bool, holds: bool) -> Option<Condition>
    ensures { result ≡ fault_of minus holds }
{
    if !minus && holds {
        None
    } else {
        Some(Condition::PatternType)
    }
}

/// The condition that is false of a literal, with `-` before it or not, on a type with this head: Motoko language manual, sections
/// "Patterns" and "Literals".
pub(crate) fn literal_fault(head: &Node, minus: bool, literal: &Literal) -> Option<Condition>
    ensures { (f : TypeId → Term) (at : ℕ) → LiteralStands at minus (literal_of literal.now) (on_node f head.now) ≡ by_fault at result }
{
    match literal {
        Literal::Number(number) => number_fault(head, minus, *number),
        Literal::Character(_) => plain_fault(minus, head.is_char()),
        Literal::Text(text) => {
            if minus {
                Some(Condition::PatternType)
            } else {
                text_fault(head, text.as_slice())
            }
        }
        Literal::True => plain_fault(minus, head.is_bool()),
        Literal::False => plain_fault(minus, head.is_bool()),
        Literal::Null => plain_fault(minus, head.is_null() || head.opt_of().is_some()),
    }
}
