//! Commands.
ghost use Rattle.std.specs.Prelude.{◌≡◌, ◌≢◌, ◌↔◌, ◌∷◌, [], List, ℕ, All, IsTrue, IfSome, IfNone, map, string_bytes, codes};
ghost use Rattle.mo_words.specs.declared.options.Options.{Options};
ghost use Rattle.mo_words.specs.declared.command.Verb.{Verb};
ghost use Rattle.mo_words.specs.Commands.{verb_word};
ghost use Rattle.mo_words.specs.Commands.{IsOptionWord, IsFirstFile, AreFiles, IsBuild, IsCheck, IsReplay, IsNoForm, Spells};

use crate::options::{Options, read_options};
use crate::split::{split_one, split_two};

/// The most modules or sources of one command.
const MOST_FILES: usize = 16;

/// A script, and the files that its numbers speak of.
#[derive(Clone, Copy)]
pub struct Replay<'a> {
    pub options: Options,
    /// The script's file.
    pub script: &'a str,
    /// The files of modules or sources, 1 to 16.
    pub files: &'a [String],
}

/// What a command line asks for.
#[derive(Clone, Copy)]
pub enum Command<'a> {
    /// `build SRC OUT`
    Build { source: &'a str, out: &'a str },
    /// `check SRC`
    Check { source: &'a str },
    /// `play [options] SCRIPT MODULE..`
    Play(Replay<'a>),
    /// `run [options] SCRIPT SRC..`
    Run(Replay<'a>),
}

/// The first word of a command.
#[derive(Clone, Copy, Debug, PartialEq, Eq)]
pub(crate) enum Verb {
    Build,
    Check,
    Play,
    Run,
}

fn verb_of(name: &str) -> Option<Verb>
    ensures found { IfSome result (λ verb. name.now ≡ verb_word verb) }
    ensures none { IfNone result ((verb : Verb) → name.now ≡ verb_word verb → ⊥) }
{
    if name == "build" {
        Some(Verb::Build)
    } else if name == "check" {
        Some(Verb::Check)
    } else if name == "play" {
        Some(Verb::Play)
    } else if name == "run" {
        Some(Verb::Run)
    } else {
        None
    }
}

// Whether the word begins as an option does.
fn is_option_word(word: &str) -> bool
    ensures { IsTrue result ↔ IsOptionWord word.now }
{
    match word.as_bytes() {
        [b'-', b'-', ..] => true,
        _ => false,
    }
}

// Whether the word may stand as the first file.
fn is_first_file(word: &str) -> bool
    ensures { IsTrue result ↔ IsFirstFile word.now }
{
    !word.is_empty() && !is_option_word(word)
}

fn are_named(files: &[String]) -> bool
    ensures { IsTrue result ↔ All (λ file. string_bytes file ≢ []) files.now }
{
    files.iter().all(|file| !file.as_str().is_empty())
}

fn are_files(files: &[String]) -> bool
    ensures { IsTrue result ↔ AreFiles (map string_bytes files.now) }
{
    if files.is_empty() || files.len() > MOST_FILES {
        return false;
    }
    are_named(files)
}

// The words behind `build`.
fn read_build(words: &[String]) -> Option<(&str, &str)>
    ensures found { IfSome result (λ f. IsBuild (codes "build" ∷ map string_bytes words.now) f.0.now f.1.now) }
    ensures none { IfNone result ((source out : List ℕ) → IsBuild (codes "build" ∷ map string_bytes words.now) source out → ⊥) }
{
    let Some((source, out, rest)) = split_two(words) else {
        return None;
    };
    if rest.is_empty() && is_first_file(source) && !out.is_empty() {
        Some((source, out))
    } else {
        None
    }
}

// The word behind `check`.
fn read_check(words: &[String]) -> Option<&str>
    ensures found { IfSome result (λ source. IsCheck (codes "check" ∷ map string_bytes words.now) source.now) }
    ensures none { IfNone result ((source : List ℕ) → IsCheck (codes "check" ∷ map string_bytes words.now) source → ⊥) }
{
    let Some((source, rest)) = split_one(words) else {
        return None;
    };
    if rest.is_empty() && is_first_file(source) {
        Some(source)
    } else {
        None
    }
}

// The words behind `play` or `run`.
fn read_replay(words: &[String]) -> Option<Replay<'_>>
    ensures found { IfSome result (λ r. IsReplay (map string_bytes words.now) r.options r.script.now (map string_bytes r.files.now)) }
    ensures none { IfNone result ((o : Options) → (script : List ℕ) → (files : List (List ℕ)) → IsReplay (map string_bytes words.now) o script files → ⊥) }
{
    let Some((options, rest)) = read_options(words) else {
        return None;
    };
    let Some((script, files)) = split_one(rest) else {
        return None;
    };
    if !is_first_file(script) {
        return None;
    }
    if !are_files(files) {
        return None;
    }
    Some(Replay {
        options,
        script,
        files,
    })
}

/// The command that the words are, if they are one of the forms.
pub fn read_words(words: &[String]) -> Option<Command<'_>>
    ensures found { IfSome result (λ command. Spells (map string_bytes words.now) command) }
    ensures none { IfNone result (IsNoForm (map string_bytes words.now)) }
{
    let Some((name, rest)) = split_one(words) else {
        return None;
    };
    match verb_of(name) {
        Some(Verb::Build) => match read_build(rest) {
            Some((source, out)) => Some(Command::Build { source, out }),
            None => None,
        },
        Some(Verb::Check) => match read_check(rest) {
            Some(source) => Some(Command::Check { source }),
            None => None,
        },
        Some(Verb::Play) => match read_replay(rest) {
            Some(replay) => Some(Command::Play(replay)),
            None => None,
        },
        Some(Verb::Run) => match read_replay(rest) {
            Some(replay) => Some(Command::Run(replay)),
            None => None,
        },
        None => None,
    }
}
