//! What a token does to the room that a tree may take.
ghost use Rattle.std.specs.Prelude.{◌≡◌, ◌≤◌};
ghost use Rattle.mo_depth.specs.Stack as spec;

use mo_syntax::{Mark, TokenKind, Word};

/// What a token does to the room that a tree may take.
#[derive(Clone, Copy)]
pub enum Effect {
    /// It opens a bracket that this mark closes.
    Opens(Mark),
    /// It is a closing mark.
    Closes(Mark),
    /// It is a `;` or `,`.
    Separates,
    /// A construct begins that takes so much room.
    Begins(u32),
    /// It goes on with an operand.
    GoesOn,
    /// It takes no room.
    Nothing,
}

fn effect_of_word(word: Word) -> Effect
    ensures value { result ≡ spec.effect_of_word word }
    ensures small { spec.IsSmall result }
{
    match word {
        Word::True | Word::False | Word::Null => Effect::Nothing,
        Word::And | Word::Or => Effect::Begins(1),
        _ => Effect::Begins(2),
    }
}

/// What an operand takes that goes on with a bracket which this mark closes: a call or an index may.
pub(crate) fn room_behind(mark: Mark) -> u32
    ensures value { result ≡ spec.room_behind mark }
    ensures small { result ≤ 1 }
{
    match mark {
        Mark::ParenClose | Mark::BracketClose => 1,
        _ => 0,
    }
}

fn room_of_mark(mark: Mark) -> u32
    ensures value { result ≡ spec.room_of_mark mark }
    ensures small { result ≤ 2 }
{
    match mark {
        Mark::Plus
        | Mark::Star
        | Mark::Slash
        | Mark::Percent
        | Mark::Power
        | Mark::PlusWrap
        | Mark::MinusWrap
        | Mark::StarWrap
        | Mark::Concat
        | Mark::Equal
        | Mark::NotEqual
        | Mark::Less
        | Mark::Greater
        | Mark::LessEqual
        | Mark::GreaterEqual
        | Mark::EqualSign
        | Mark::Colon => 1,
        _ => 2,
    }
}

fn effect_of_mark(mark: Mark) -> Effect
    ensures value { result ≡ spec.effect_of_mark mark }
    ensures small { spec.IsSmall result }
{
    match mark {
        Mark::ParenOpen => Effect::Opens(Mark::ParenClose),
        Mark::BracketOpen => Effect::Opens(Mark::BracketClose),
        Mark::BraceOpen => Effect::Opens(Mark::BraceClose),
        Mark::AngleOpen => Effect::Opens(Mark::AngleClose),
        Mark::ParenClose | Mark::BracketClose | Mark::BraceClose | Mark::AngleClose =>
            Effect::Closes(mark),
        Mark::Semicolon | Mark::Comma => Effect::Separates,
        Mark::Dot | Mark::Bang => Effect::GoesOn,
        Mark::Underscore => Effect::Nothing,
        _ => Effect::Begins(room_of_mark(mark)),
    }
}

/// What the token does.
pub(crate) fn effect_of(kind: &TokenKind) -> Effect
    ensures value { result ≡ spec.effect_of kind.now }
    ensures small { spec.IsSmall result }
{
    match kind {
        TokenKind::Mark(mark) => effect_of_mark(*mark),
        TokenKind::Reserved(word) => effect_of_word(*word),
        _ => Effect::Nothing,
    }
}

/// Whether the token stands directly inside no `< >`, so that each `<` before it was never closed.
pub(crate) fn ends_angles(kind: &TokenKind) -> bool
    ensures { result ≡ spec.ends_angles kind.now }
{
    match kind {
        TokenKind::Mark(
            Mark::Semicolon | Mark::ParenClose | Mark::BracketClose | Mark::BraceClose,
        ) => true,
        _ => false,
    }
}
