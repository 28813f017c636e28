//! Names and reserved words.
ghost use Rattle.std.specs.Prelude.{◌≡◌, true};
ghost use Rattle.std.specs.List.{list_all, find};
ghost use Rattle.std.specs.Str.{bytes_eq};
ghost use Rattle.mo_syntax.specs.Characters.{is_name_byte};
ghost use Rattle.mo_syntax.specs.Words.{word_of, word_text};
ghost use Rattle.mo_syntax.specs.Lexed as lexed;
ghost use Rattle.mo_lexer.specs.Names.{words_from};

use crate::class::{Class, is_name_start};
use mo_syntax::Word;

/// The reserved word with this text.
pub fn reserved_word(text: &[u8]) -> Option<Word>
    ensures { result ≡ word_of text.now }
{
    match text {
        [] => None,
        [first, ..] => find_word(words_from(*first), text),
    }
}

// The reserved words that begin with the byte, in their order.
#[tactic(auto, unfolding(crate::specs::Names::words_from, mo_syntax::specs::Words::reserved_words))]
fn words_from(first: u8) -> &'static [Word]
    ensures { result.now ≡ words_from first }
{
    match first {
        b'a' => &[
            Word::Actor,
            Word::And,
            Word::Assert,
            Word::Async,
            Word::Await,
        ],
        b'b' => &[Word::Break],
        b'c' => &[
            Word::Case,
            Word::Catch,
            Word::Class,
            Word::Continue,
            Word::Composite,
        ],
        b'd' => &[Word::Debug, Word::Do, Word::DebugShow],
        b'e' => &[Word::Else],
        b'f' => &[
            Word::False,
            Word::For,
            Word::Func,
            Word::Finally,
            Word::Flexible,
            Word::FromCandid,
        ],
        b'i' => &[Word::If, Word::Ignore, Word::Import, Word::In],
        b'l' => &[Word::Label, Word::Let, Word::Loop],
        b'm' => &[Word::Module],
        b'n' => &[Word::Not, Word::Null],
        b'o' => &[Word::Object, Word::Or],
        b'p' => &[Word::Private, Word::Public, Word::Persistent],
        b'q' => &[Word::Query],
        b'r' => &[Word::Return],
        b's' => &[Word::Shared, Word::Stable, Word::Switch, Word::System],
        b't' => &[
            Word::Throw,
            Word::True,
            Word::Try,
            Word::TypeWord,
            Word::ToCandid,
            Word::Transient,
        ],
        b'v' => &[Word::Var],
        b'w' => &[Word::While, Word::With],
        _ => &[],
    }
}

// The first of the words with this text.
fn find_word(words: &[Word], text: &[u8]) -> Option<Word>
    ensures { result ≡ find (λ word. bytes_eq (word_text word) text.now) words.now }
{
    for word in words {
        if word.text() == text {
            return Some(*word);
        }
    }
    None
}

/// Whether the name that the text begins with is an identifier.
pub fn begins_identifier(text: &[u8]) -> bool
    ensures { result ≡ lexed.begins_identifier text.now }
{
    let len = Class::Name.run_len(text);
    is_identifier(&text[..len])
}

// Whether a text of letters, digits and `_` is an identifier.
fn is_identifier(name: &[u8]) -> bool
    requires { list_all is_name_byte name.now ≡ true }
    ensures { result ≡ lexed.is_identifier name.now }
{
    match name {
        [] => false,
        [first, ..] => is_name_start(*first)
            && name != b"_".as_slice()
            && reserved_word(name).is_none(),
    }
}
