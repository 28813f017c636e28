//! What stands between two tokens.
ghost use Rattle.std.specs.Prelude.{◌≡◌};
ghost use Rattle.mo_syntax.specs.Lexed.{text_of};
ghost use Rattle.mo_unparse.specs.Spelling as spec;

use mo_syntax::{Mark, TokenKind, Word};

/// A token, as far as what is written directly behind it depends on it.
#[derive(Clone, Copy)]
pub enum Last {
    /// The mark `#` of a tag. Its identifier has to follow directly.
    Tag,
    /// An identifier, a literal or a closing bracket. An angle bracket may follow directly.
    Operand,
    /// Any other token, or none.
    Other,
}

/// What is written directly behind this token depends on this.
pub fn last_of(kind: &TokenKind) -> Last
    ensures { result ≡ spec.last_of kind.now }
{
    match kind {
        TokenKind::Identifier(_)
        | TokenKind::Number(_)
        | TokenKind::Character(_)
        | TokenKind::Text(_)
        | TokenKind::Reserved(Word::True | Word::False | Word::Null)
        | TokenKind::Mark(
            Mark::ParenClose | Mark::BracketClose | Mark::BraceClose | Mark::AngleClose,
        ) => Last::Operand,
        TokenKind::Mark(Mark::Tag) => Last::Tag,
        TokenKind::Reserved(_) | TokenKind::Mark(_) => Last::Other,
    }
}

fn is_angle(kind: &TokenKind) -> bool
    ensures { result ≡ spec.is_angle kind.now }
{
    matches!(kind, TokenKind::Mark(Mark::AngleOpen | Mark::AngleClose))
}

/// What stands in front of a token. `<` and `>` with blanks on both sides would be comparisons, so a comment stands between
/// the blank and an angle bracket.
pub fn gap(last: Last, kind: &TokenKind) -> &'static [u8]
    ensures { result.now ≡ text_of (spec.gap last (spec.is_angle kind.now)) }
{
    gap_text(last, is_angle(kind))
}

fn gap_text(last: Last, angle: bool) -> &'static [u8]
    ensures { result.now ≡ text_of (spec.gap last angle) }
{
    match (last, angle) {
        (Last::Tag, _) | (Last::Operand, true) => b"",
        (Last::Operand | Last::Other, false) => b" ",
        (Last::Other, true) => b" /**/",
    }
}
