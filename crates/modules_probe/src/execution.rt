//! Scripts that are played under limits of any size.
ghost use Rattle.std.specs.Prelude.{◌↔◌, All, IsTrue};
ghost use Rattle.play_script.specs.Events.{IsFit};

use crate::number::{number_of, short_number_of};
use crate::validity::{Judged, judge};
use mo_num::{Bytes, Sequence};
use mo_play::play;
use outer::MemSink;
use play_script::{Event, Events, events_suit, read_script};
use probe_base::Stop;
use std::alloc::{AllocError, Global};
use wasm_instance::Limits;
use wasm_valid::Valid;

/// The most pages that a memory may have.
const MOST_PAGES: u32 = 65_536;

// The limits that the word lists: steps, stack words and pages, with a space between.
fn limits_of(words: &[u8]) -> Result<Limits, Stop> {
    let (steps, rest) = first_word(words);
    let (stack, pages) = first_word(rest);
    Ok(Limits {
        steps: number_of(steps)?,
        pages: short_number_of(pages)?,
        stack: short_number_of(stack)?,
    })
}

// What stands before the first space, and behind it.
fn first_word(words: &[u8]) -> (&[u8], &[u8]) {
    match words.iter().position(|byte| *byte == b' ') {
        Some(place) => (&words[..place], &words[place + 1..]),
        None => (words, &[]),
    }
}

fn are_fit(events: &[Event]) -> bool
    ensures { IsTrue result ↔ All IsFit events.now }
{
    events.iter().all(|event| event.is_fit())
}

fn modules_of(alloc: Global, files: &[Bytes]) -> Result<Sequence<Valid>, Stop> {
    let mut modules = Sequence::new(alloc);
    for file in files {
        match judge(alloc, file.as_slice())? {
            Judged::Valid(valid) => modules.push(valid)?,
            Judged::Fault(_) => return Err(Stop::Usage),
        }
    }
    Ok(modules)
}

fn events_of(alloc: Global, script: &[u8], count: usize) -> Result<Events, Stop> {
    let Ok(count) = u32::try_from(count) else {
        return Err(Stop::Usage);
    };
    read_script(alloc, script, count).map_err(|_| Stop::Usage)
}

/// The transcript of the script, under limits of steps, stack words and pages, as `STEPS STACK PAGES` in one word.
pub(crate) fn play_under(
    alloc: Global,
    limits: &[u8],
    script: &[u8],
    files: &[Bytes],
) -> Result<String, Stop> {
    let limits = limits_of(limits)?;
    let modules = modules_of(alloc, files)?;
    let events = events_of(alloc, script, files.len())?;
    transcript(alloc, limits, modules.as_slice(), events.as_slice())
}

fn transcript(
    alloc: Global,
    limits: Limits,
    modules: &[Valid],
    events: &[Event],
) -> Result<String, Stop> {
    let are_few = limits.pages <= MOST_PAGES && events.len() <= 1 << 53;
    if !are_few || !are_fit(events) || !events_suit(events, modules.len()) {
        return Err(Stop::Usage);
    }
    let mut out = MemSink::new(alloc, Sequence::new(alloc));
    play(alloc, modules, limits, events, &mut out)?;
    Ok(text_of(alloc, out.bytes())?)
}

fn text_of(alloc: Global, bytes: &[u8]) -> Result<String, AllocError> {
    String::from_utf8_lossy(alloc, bytes)
}
