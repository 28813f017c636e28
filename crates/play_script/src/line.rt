//! One line of a script.
ghost use Rattle.std.specs.Prelude.{◌≡◌, ◌↔◌, ◌≤◌, ◌<◌, ◌^◌, ◌∷◌, [], ℕ, List, IsTrue, IfSome, IfNone, OnOk, OnErr, length};
ghost use Rattle.std.specs.Option.{option_copied};
ghost use Rattle.play_script.specs.Words.{words_behind, IsNumber};
ghost use Rattle.play_script.specs.Scripts.{IsMethod, IsSkipped, Spells, call_verb};
ghost use Rattle.play_script.specs.Told.{IsSaid, NamesNone, Said, Told};

use crate::Event;
use crate::event::MESSAGE_LIMIT;
use crate::reading::{read_bytes, read_number};
use crate::verb::{Verb, read_verb};
use crate::words::{one_word, split_word, three_words, two_words};
use mo_num::{Bytes, Memory, principal_of};
use std::alloc::Global;
use std::str;

/// How a line offends.
#[derive(Clone, Copy, Debug, PartialEq, Eq)]
pub(crate) enum LineFault {
    Bad,
    TooLong,
    NoModule,
    NotInstalled,
    Memory,
}

impl From<Memory> for LineFault {
    ghost use Rattle.std.specs.Prelude.{◌≡◌};
    ghost use Rattle.play_script.specs.declared.line.LineFault.TheVariants as faults;

    ghost from_gives = { λ _ fault. fault ≡ faults.Memory };

    fn from(_: Memory) -> Self {
        LineFault::Memory
    }
}

/// The event of the line, where events have come before or not.
pub(crate) fn read_event(
    alloc: Global,
    line: &[u8],
    begun: bool,
    modules: u32,
) -> Result<Event, LineFault>
    ensures { Told (λ event. Spells event line.now) modules begun result }
{
    let (first, rest) = split_word(line);
    match read_verb(first) {
        Some(verb) => read_behind(alloc, verb, rest, begun, modules),
        None => Err(LineFault::Bad),
    }
}

// The event with this verb, from the words behind it.
fn read_behind(
    alloc: Global,
    verb: Verb,
    rest: Option<&[u8]>,
    begun: bool,
    modules: u32,
) -> Result<Event, LineFault>
    ensures { Told (IsSaid verb (words_behind (option_copied rest.entry))) modules begun result }
{
    match verb {
        Verb::Install => read_install(rest, begun, modules),
        Verb::Upgrade => read_upgrade(rest, begun, modules),
        Verb::Call => admitted(read_call(alloc, rest, false), begun),
        Verb::Query => admitted(read_call(alloc, rest, true), begun),
        Verb::Reply => admitted(read_reply(alloc, rest), begun),
        Verb::Reject => admitted(read_reject(alloc, rest), begun),
    }
}

fn read_install(rest: Option<&[u8]>, begun: bool, modules: u32) -> Result<Event, LineFault>
    ensures { Told (IsSaid Verb.Install (words_behind (option_copied rest.entry))) modules begun result }
{
    match one_number(rest) {
        None => Err(LineFault::Bad),
        Some(_) if begun => Err(LineFault::Bad),
        Some(number) if number >= u64::from(modules) => Err(LineFault::NoModule),
        Some(number) => Ok(Event::Install(number as u32)),
    }
}

fn read_upgrade(rest: Option<&[u8]>, begun: bool, modules: u32) -> Result<Event, LineFault>
    ensures { Told (IsSaid Verb.Upgrade (words_behind (option_copied rest.entry))) modules begun result }
{
    match one_number(rest) {
        None => Err(LineFault::Bad),
        Some(number) if number >= u64::from(modules) => Err(LineFault::NoModule),
        Some(_) if !begun => Err(LineFault::NotInstalled),
        Some(number) => Ok(Event::Upgrade(number as u32)),
    }
}

// The number, where there is just one word, and it is one.
fn one_number(rest: Option<&[u8]>) -> Option<u64>
    ensures found { IfSome result (λ n. (w : List ℕ) × (words_behind (option_copied rest.entry) ≡ w ∷ []) × IsNumber w n) }
    ensures none { IfNone result ((w : List ℕ) → (n : ℕ) → words_behind (option_copied rest.entry) ≡ w ∷ [] → IsNumber w n → ⊥) }
{
    read_number(one_word(rest)?)
}

// An event that names no module, if its message is not too long and an install came before.
fn admitted(read: Result<Event, LineFault>, begun: bool) -> Result<Event, LineFault>
    ensures { (modules : ℕ) → (v : Verb) → (words : List (List ℕ)) → NamesNone v → Said v words read → Told (IsSaid v words) modules begun result }
{
    match read {
        Err(fault) => Err(fault),
        Ok(event) if event.message_len() > MESSAGE_LIMIT => Err(LineFault::TooLong),
        Ok(_) if !begun => Err(LineFault::NotInstalled),
        Ok(event) => Ok(event),
    }
}

fn read_call(alloc: Global, rest: Option<&[u8]>, query: bool) -> Result<Event, LineFault>
    ensures { Said (call_verb query) (words_behind (option_copied rest.entry)) result }
{
    let Some((method, caller, bytes)) = three_words(rest) else {
        return Err(LineFault::Bad);
    };
    if !is_method(method) {
        return Err(LineFault::Bad);
    }
    let Some(caller) = read_bytes(alloc, caller)? else {
        return Err(LineFault::Bad);
    };
    let Some(caller) = principal_of(alloc, caller.as_slice()) else {
        return Err(LineFault::Bad);
    };
    let Some(bytes) = read_bytes(alloc, bytes)? else {
        return Err(LineFault::Bad);
    };
    Ok(Event::Call {
        query,
        method: Bytes::from_slice(alloc, method)?,
        caller,
        bytes,
    })
}

fn read_reply(alloc: Global, rest: Option<&[u8]>) -> Result<Event, LineFault>
    ensures { Said Verb.Reply (words_behind (option_copied rest.entry)) result }
{
    let Some((number, bytes)) = two_words(rest) else {
        return Err(LineFault::Bad);
    };
    let Some(number) = read_number(number) else {
        return Err(LineFault::Bad);
    };
    let Some(bytes) = read_bytes(alloc, bytes)? else {
        return Err(LineFault::Bad);
    };
    Ok(Event::Reply { number, bytes })
}

fn read_reject(alloc: Global, rest: Option<&[u8]>) -> Result<Event, LineFault>
    ensures { Said Verb.Reject (words_behind (option_copied rest.entry)) result }
{
    let Some((number, code, text)) = three_words(rest) else {
        return Err(LineFault::Bad);
    };
    let Some(number) = read_number(number) else {
        return Err(LineFault::Bad);
    };
    let Some(code) = read_code(code) else {
        return Err(LineFault::Bad);
    };
    let Some(text) = read_bytes(alloc, text)? else {
        return Err(LineFault::Bad);
    };
    if str::from_utf8(text.as_slice()).is_err() {
        return Err(LineFault::Bad);
    }
    Ok(Event::Reject { number, code, text })
}

// The code of a rejection: 1 to 4,294,967,295.
fn read_code(word: &[u8]) -> Option<u32>
    ensures found { IfSome result (λ n. IsNumber word.now n × (1 ≤ n)) }
    ensures none { IfNone result ((n : ℕ) → IsNumber word.now n → 1 ≤ n → n < 2 ^ 32 → ⊥) }
{
    match read_number(word) {
        Some(number) if number >= 1 && number <= u64::from(u32::MAX) => Some(number as u32),
        _ => None,
    }
}

fn is_method(word: &[u8]) -> bool
    ensures { IsTrue result ↔ IsMethod word.now }
{
    !word.is_empty() && word.iter().all(|byte| 33 <= *byte && *byte <= 126)
}

/// Whether the line is empty or begins with `#`.
pub(crate) fn is_skipped(line: &[u8]) -> bool
    ensures { IsTrue result ↔ IsSkipped line.now }
{
    match line {
        [] => true,
        [first, ..] => *first == b'#',
    }
}
