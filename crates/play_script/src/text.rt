//! The lines of a transcript.
ghost use Rattle.std.specs.Prelude.{◌≡◌, ◌++◌, ◌∷◌, [], List, ℕ, OnOk, IfOk};
ghost use Rattle.play_script.specs.Items.{ItemText, line_end, trap_words};
ghost use Rattle.play_script.specs.Numbers.{IsDecimal, bytes_text};

use crate::number::{put_bytes, put_decimal};
use crate::{Item, Word};
use mo_num::{Bytes, Memory};
use std::alloc::Global;

/// The item's line, with its newline.
pub fn item_text(alloc: Global, item: &Item) -> Result<Bytes, Memory>
    ensures { IfOk result (ItemText item.now) }
{
    let mut line = Bytes::new(alloc);
    put_item(alloc, item, &mut line)?;
    line.push(b'\n')?;
    Ok(line)
}

// Writes the line but for its newline. After an error some of it may stand.
fn put_item(alloc: Global, item: &Item, line: &mut Bytes) -> Result<(), Memory>
    requires { line.old ≡ [] }
    ensures { OnOk result (ItemText item.now (line.new ++ 10 ∷ [])) }
{
    match item {
        Item::Installed => line.extend(b"installed"),
        Item::Upgraded => line.extend(b"upgraded"),
        Item::Ignored => line.extend(b"ignored"),
        Item::Print(bytes) => {
            line.extend(b"print")?;
            put_bytes_word(alloc, bytes.as_slice(), line)
        }
        Item::Call {
            number,
            callee,
            method,
            bytes,
        } => {
            line.extend(b"call")?;
            put_number_word(*number, line)?;
            put_bytes_word(alloc, callee.bytes(), line)?;
            put_word(method.as_slice(), line)?;
            put_bytes_word(alloc, bytes.as_slice(), line)
        }
        Item::Replied { number, bytes } => {
            line.extend(b"replied")?;
            put_number_word(*number, line)?;
            put_bytes_word(alloc, bytes.as_slice(), line)
        }
        Item::Rejected { number, code, text } => {
            line.extend(b"rejected")?;
            put_number_word(*number, line)?;
            put_number_word(*code as u64, line)?;
            put_bytes_word(alloc, text.as_slice(), line)
        }
        Item::Trapped(word) => {
            line.extend(b"trapped")?;
            put_trap(alloc, word, line)
        }
    }
}

fn put_trap(alloc: Global, word: &Word, line: &mut Bytes) -> Result<(), Memory>
    ensures { OnOk result (line.new ++ 10 ∷ [] ≡ line.old ++ line_end (trap_words word.now)) }
{
    match word {
        Word::Steps => put_word(b"steps", line),
        Word::Stack => put_word(b"stack", line),
        Word::Heap => put_word(b"heap", line),
        Word::Unreachable => put_word(b"unreachable", line),
        Word::Bounds => put_word(b"bounds", line),
        Word::Divide => put_word(b"divide", line),
        Word::Overflow => put_word(b"overflow", line),
        Word::Indirect => put_word(b"indirect", line),
        Word::Text(text) => {
            put_word(b"text", line)?;
            put_bytes_word(alloc, text.as_slice(), line)
        }
    }
}

// A space, and then the word.
fn put_word(word: &[u8], line: &mut Bytes) -> Result<(), Memory>
    ensures { OnOk result (line.new ≡ line.old ++ 32 ∷ word.now) }
{
    line.push(b' ')?;
    line.extend(word)
}

fn put_bytes_word(alloc: Global, bytes: &[u8], line: &mut Bytes) -> Result<(), Memory>
    ensures { OnOk result (line.new ≡ line.old ++ 32 ∷ bytes_text bytes.now) }
{
    line.push(b' ')?;
    put_bytes(alloc, bytes, line)
}

fn put_number_word(value: u64, line: &mut Bytes) -> Result<(), Memory>
    ensures { OnOk result ((digits : List ℕ) × IsDecimal digits value × (line.new ≡ line.old ++ 32 ∷ digits)) }
{
    line.push(b' ')?;
    put_decimal(value, line)
}
