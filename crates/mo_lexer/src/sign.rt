//! Operators and marks.
ghost use Rattle.std.specs.Prelude.{◌≡◌, ◌≤◌, length, IfSome};
ghost use Rattle.mo_lexer.specs.Marks as spec;
ghost use Rattle.mo_syntax.specs.Lexed as lexed;
ghost use Rattle.mo_syntax.specs.Words.{mark_text};

use crate::class::is_blank;
use crate::name::begins_identifier;
use mo_syntax::{Before, Mark};

/// The longest mark at the front of a text, without what stands beside it.
pub fn mark_at(text: &[u8]) -> Option<Mark>
    ensures value { result ≡ spec.mark_at text.now }
    ensures within { IfSome result (λ mark. length (mark_text mark) ≤ length text.now) }
{
    match text {
        [] => None,
        [byte, rest @ ..] => {
            let mark = first_mark(*byte)?;
            Some(longest_mark(mark, rest))
        }
    }
}

// The longest mark that the mark and the text behind it make.
fn longest_mark(mark: Mark, rest: &[u8]) -> Mark
    ensures { result ≡ spec.longest_mark mark rest.now }
{
    let mut longest = mark;
    for byte in rest {
        match longer_mark(longest, *byte) {
            Some(longer) => longest = longer,
            None => return longest,
        }
    }
    longest
}

fn first_mark(byte: u8) -> Option<Mark>
    ensures { result ≡ spec.first_mark byte }
{
    match byte {
        b'+' => Some(Mark::Plus),
        b'-' => Some(Mark::Minus),
        b'*' => Some(Mark::Star),
        b'/' => Some(Mark::Slash),
        b'%' => Some(Mark::Percent),
        b'#' => Some(Mark::Concat),
        b'<' => Some(Mark::Less),
        b'>' => Some(Mark::Greater),
        b'=' => Some(Mark::EqualSign),
        b':' => Some(Mark::Colon),
        b';' => Some(Mark::Semicolon),
        b',' => Some(Mark::Comma),
        b'.' => Some(Mark::Dot),
        b'?' => Some(Mark::Question),
        b'!' => Some(Mark::Bang),
        b'(' => Some(Mark::ParenOpen),
        b')' => Some(Mark::ParenClose),
        b'[' => Some(Mark::BracketOpen),
        b']' => Some(Mark::BracketClose),
        b'{' => Some(Mark::BraceOpen),
        b'}' => Some(Mark::BraceClose),
        _ => None,
    }
}

// The mark that is the mark and one more byte.
fn longer_mark(mark: Mark, byte: u8) -> Option<Mark>
    ensures { result ≡ spec.longer_mark mark byte }
{
    match byte {
        b'=' => with_equal(mark),
        b'%' => with_percent(mark),
        b'*' => match mark {
            Mark::Star => Some(Mark::Power),
            _ => None,
        },
        b'>' => match mark {
            Mark::Minus => Some(Mark::Arrow),
            _ => None,
        },
        b':' => match mark {
            Mark::Less => Some(Mark::Subtype),
            _ => None,
        },
        _ => None,
    }
}

fn with_equal(mark: Mark) -> Option<Mark>
    ensures { result ≡ spec.with_equal mark }
{
    match mark {
        Mark::EqualSign => Some(Mark::Equal),
        Mark::Bang => Some(Mark::NotEqual),
        Mark::Less => Some(Mark::LessEqual),
        Mark::Greater => Some(Mark::GreaterEqual),
        Mark::Colon => Some(Mark::Assign),
        Mark::Plus => Some(Mark::PlusAssign),
        Mark::Minus => Some(Mark::MinusAssign),
        Mark::Star => Some(Mark::StarAssign),
        Mark::Slash => Some(Mark::SlashAssign),
        Mark::Percent => Some(Mark::PercentAssign),
        Mark::Power => Some(Mark::PowerAssign),
        Mark::Concat => Some(Mark::ConcatAssign),
        Mark::PlusWrap => Some(Mark::PlusWrapAssign),
        Mark::MinusWrap => Some(Mark::MinusWrapAssign),
        Mark::StarWrap => Some(Mark::StarWrapAssign),
        _ => None,
    }
}

fn with_percent(mark: Mark) -> Option<Mark>
    ensures { result ≡ spec.with_percent mark }
{
    match mark {
        Mark::Plus => Some(Mark::PlusWrap),
        Mark::Minus => Some(Mark::MinusWrap),
        Mark::Star => Some(Mark::StarWrap),
        _ => None,
    }
}

/// Which mark it is, by what stands before and behind it.
pub fn in_context(before: Before, mark: Mark, rest: &[u8]) -> Mark
    ensures { result ≡ spec.in_context before mark rest.now }
{
    match mark {
        Mark::Less if !is_between_blanks(before, rest) => Mark::AngleOpen,
        Mark::Greater if !is_between_blanks(before, rest) => Mark::AngleClose,
        Mark::Concat if is_tag(before, rest) => Mark::Tag,
        _ => mark,
    }
}

fn is_between_blanks(before: Before, rest: &[u8]) -> bool
    ensures { result ≡ lexed.is_between_blanks before rest.now }
{
    match (before, rest) {
        (Before::Blank, [byte, ..]) => is_blank(*byte),
        _ => false,
    }
}

fn is_tag(before: Before, rest: &[u8]) -> bool
    ensures { result ≡ lexed.is_tag before rest.now }
{
    match before {
        Before::Operand => false,
        Before::Blank | Before::Other => begins_identifier(rest),
    }
}
