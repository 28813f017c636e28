//! Tokens.
ghost use Rattle.std.specs.Prelude.{◌≡◌};
ghost use Rattle.mo_syntax.specs.Tokens.{before_of, placed};

use crate::before::Before;
use crate::mark::Mark;
use crate::name::Name;
use crate::place::Place;
use crate::text::Text;
use crate::word::Word;
use mo_num::Sequence;

/// What a token is and what it carries. A literal is its value, so the many spellings of one number or text are one kind.
#[derive(Drop)]
pub enum TokenKind {
    /// A name that is no reserved word: ASCII letters, digits and `_`.
    Identifier(Name),
    /// A reserved word. `true`, `false` and `null` are literals.
    Reserved(Word),
    /// A decimal or hexadecimal number, below 2^64.
    Number(u64),
    /// A character, as its Unicode scalar value.
    Character(u32),
    /// A text, as the bytes that it stands for.
    Text(Text),
    /// An operator or mark.
    Mark(Mark),
}

/// A token and the bytes of the source that it is: those from `start` on and below `end`, counted from 0.
#[derive(Drop)]
pub struct Token {
    pub kind: TokenKind,
    pub start: u32,
    pub end: u32,
}

/// A list of tokens.
pub type Tokens = Sequence<Token>;

/// A list of tokens without their places, but for those of names and texts.
pub type Kinds = Sequence<TokenKind>;

impl TokenKind {
    /// What stands directly before the place at which a token of this kind ends.
    pub fn before(&self) -> Before
        ensures { result ≡ before_of self.now }
    {
        match self {
            TokenKind::Identifier(_)
            | TokenKind::Number(_)
            | TokenKind::Character(_)
            | TokenKind::Text(_)
            | TokenKind::Reserved(Word::True | Word::False | Word::Null)
            | TokenKind::Mark(
                Mark::ParenClose | Mark::BracketClose | Mark::BraceClose | Mark::AngleClose,
            ) => Before::Operand,
            TokenKind::Reserved(_) | TokenKind::Mark(_) => Before::Other,
        }
    }

    /// The kind of a token that stands there: a name or text has its place.
    pub fn placed(self, place: Place) -> TokenKind
        ensures { result ≡ placed place self }
    {
        match self {
            TokenKind::Identifier(name) => TokenKind::Identifier(name.placed(place)),
            TokenKind::Text(text) => TokenKind::Text(text.placed(place)),
            kind => kind,
        }
    }
}
