//! Literals that are operands (Motoko language manual, sections "Literals" and "Text").
ghost use Rattle.std.specs.Prelude.{◌≡◌, [], neg_ℤ, option_map, pos};
ghost use Rattle.std.specs.Str.{is_utf8};
ghost use Rattle.mo_num.specs.declared.kind.Kind.TheVariants as kinds;
ghost use Rattle.mo_values.specs.Parts.{is_in_range};
ghost use Rattle.type_terms.specs.Layouts.{parts};
ghost use Rattle.typing_rules.specs.Literals as rules;
ghost use Rattle.typing_rules.specs.Spans.{literal_of};
ghost use Rattle.typing_rules.specs.Terms.{Term};
ghost use Rattle.type_definitions.specs.Meanings.{term_of};
ghost use Rattle.abstract_tree.specs.TreeView.{plain};
ghost use Rattle.operand_rules.specs.Literals.{literal_in, number_in, seen_written};

use abstract_tree::Expression;
use expression_shapes::{Shape, shape_of};
use mo_num::Kind;
use mo_syntax::Literal;
use std::str;
use type_terms::{Form, TermId};

/// A literal that is an operand: a number, with its sign and the kind that it gives, or the bytes of a text.
#[derive(Clone, Copy)]
pub enum Written<'a> {
    Number(Kind, i128),
    Text(&'a [u8]),
}

/// The number that a literal is.
fn number_in(literal: &Literal) -> Option<u64>
    ensures { result ≡ number_in (literal_of literal.now) }
{
    match literal {
        Literal::Number(number) => Some(*number),
        Literal::Character(_) => None,
        Literal::Text(_) => None,
        Literal::True => None,
        Literal::False => None,
        Literal::Null => None,
    }
}

/// The number, where an expression is one without a sign.
pub fn plain_number(expression: &Expression<u32>) -> Option<u64>
    ensures { result ≡ rules.plain_number (plain expression.now) }
{
    match shape_of(expression) {
        Shape::Constant(literal) => number_in(literal),
        Shape::Name(_) => None,
        Shape::Member(_, _) => None,
        Shape::Negative(_) => None,
        Shape::ActorReference(_) => None,
        Shape::Other => None,
    }
}

/// A number without a sign, as a signed one.
fn positive(number: u64) -> i128
    ensures { result ≡ pos number }
{
    number as i128
}

/// The negative of a number.
fn negative(number: u64) -> i128
    ensures { result ≡ neg_ℤ (pos number) }
{
    -(number as i128)
}

/// The operand that a literal without a sign is.
fn literal_in(literal: &Literal) -> Option<Written<'_>>
    ensures { option_map seen_written result ≡ literal_in (literal_of literal.now) }
{
    match literal {
        Literal::Number(number) => Some(Written::Number(Kind::Nat, positive(*number))),
        Literal::Character(_) => None,
        Literal::Text(text) => Some(Written::Text(text.as_slice())),
        Literal::True => None,
        Literal::False => None,
        Literal::Null => None,
    }
}

/// The operand that `-` before this is, where it is a number.
fn negative_in(of: &Expression<u32>) -> Option<Written<'_>>
    ensures { option_map seen_written result ≡ option_map (λ n. rules.WrittenNumber kinds.Int (neg_ℤ (pos n))) (rules.plain_number (plain of.now)) }
{
    match plain_number(of) {
        Some(number) => Some(Written::Number(Kind::Int, negative(number))),
        None => None,
    }
}

/// The literal, where an expression is one: a number, which may have a sign, or a text.
pub(crate) fn written_as(expression: &Expression<u32>) -> Option<Written<'_>>
    ensures { option_map seen_written result ≡ rules.written (plain expression.now) }
{
    match shape_of(expression) {
        Shape::Constant(literal) => literal_in(literal),
        Shape::Name(_) => None,
        Shape::Member(_, _) => None,
        Shape::Negative(of) => negative_in(of),
        Shape::ActorReference(_) => None,
        Shape::Other => None,
    }
}

/// Whether a kind has a number.
fn in_range(kind: Kind, number: i128) -> bool
    ensures { result ≡ is_in_range kind number }
{
    kind.least() <= number && number <= kind.greatest()
}

fn is_text(bytes: &[u8]) -> bool
    ensures { result ≡ is_utf8 bytes.now }
{
    str::from_utf8(bytes).is_ok()
}

/// Whether a literal has the type that it gives.
pub(crate) fn has_own(written: &Written<'_>) -> bool
    ensures { result ≡ rules.has_own (seen_written written.now) }
{
    match written {
        Written::Number(kind, number) => in_range(*kind, *number),
        Written::Text(bytes) => is_text(bytes),
    }
}

/// The form of the type that a literal gives.
pub(crate) fn own_form(written: &Written<'_>) -> Form
    ensures own { (at : TermId → Term) → term_of at result ≡ rules.own_type (seen_written written.now) }
    ensures plain { parts result ≡ [] }
{
    match written {
        Written::Number(kind, _) => Form::Number(*kind),
        Written::Text(_) => Form::Text,
    }
}
