//! Options: how much each execution may use.
ghost use Rattle.std.specs.Prelude.{◌≡◌, ◌↔◌, [], ◌∷◌, ◌<◌, ◌^◌, List, ℕ, IsTrue, IfSome, IfNone, Some, None, length, map, string_bytes};
ghost use Rattle.mo_words.specs.declared.options.Setting.{Setting};
ghost use Rattle.mo_words.specs.declared.options.Options.{Options};
ghost use Rattle.mo_words.specs.Options.{option_word, number_of, IsInRange};
ghost use Rattle.mo_words.specs.Reading.{Begins, IsFree, added, chosen, Leads, Leaves, Completes, nothing_given};

use crate::split::split_two;
use play_script::read_number;

/// How much each execution may use.
#[derive(Clone, Copy, Debug, PartialEq, Eq)]
pub struct Options {
    /// Instructions: 10,000 to 1,000,000,000,000, if not set 100,000,000.
    pub steps: u64,
    /// Pages of memory, and of stable memory: 1 to 8,192, if not set 1,024.
    pub pages: u32,
    /// Words of stack: 8,192 to 16,777,216, if not set 4,194,304.
    pub stack: u32,
}

/// An option with its number.
#[derive(Clone, Copy, Debug, PartialEq, Eq)]
pub(crate) enum Setting {
    Steps(u64),
    Pages(u32),
    Stack(u32),
}

/// What the options set so far.
#[derive(Clone, Copy, Debug, PartialEq, Eq)]
pub(crate) struct Given {
    pub(crate) steps: Option<u64>,
    pub(crate) pages: Option<u32>,
    pub(crate) stack: Option<u32>,
}

// A number of steps.
fn steps(number: u64) -> Option<Setting>
    ensures found { IfSome result (λ s. (s ≡ Setting.Steps number) × IsInRange s) }
    ensures none { IfNone result (IsInRange (Setting.Steps number) → ⊥) }
{
    if 10_000 <= number && number <= 1_000_000_000_000 {
        Some(Setting::Steps(number))
    } else {
        None
    }
}

// A number of pages.
fn pages(number: u64) -> Option<Setting>
    ensures found { IfSome result (λ s. (s ≡ Setting.Pages number) × IsInRange s) }
    ensures none { IfNone result (IsInRange (Setting.Pages number) → ⊥) }
{
    if 1 <= number && number <= 8_192 {
        Some(Setting::Pages(number as u32))
    } else {
        None
    }
}

// A number of stack words.
fn stack(number: u64) -> Option<Setting>
    ensures found { IfSome result (λ s. (s ≡ Setting.Stack number) × IsInRange s) }
    ensures none { IfNone result (IsInRange (Setting.Stack number) → ⊥) }
{
    if 8_192 <= number && number <= 16_777_216 {
        Some(Setting::Stack(number as u32))
    } else {
        None
    }
}

// The option of this name with this number, if both are right.
fn setting_of(name: &str, number: u64) -> Option<Setting>
    ensures found { IfSome result (λ s. (name.now ≡ option_word s) × (number_of s ≡ number) × IsInRange s) }
    ensures none { IfNone result ((s : Setting) → name.now ≡ option_word s → number_of s ≡ number → IsInRange s → ⊥) }
{
    if name == "--steps" {
        steps(number)
    } else if name == "--pages" {
        pages(number)
    } else if name == "--stack" {
        stack(number)
    } else {
        None
    }
}

// The option that the words begin with, and those behind it.
fn read_setting(words: &[String]) -> Option<(Setting, &[String])>
    ensures found { IfSome result (λ f. Begins f.0 (map string_bytes words.now) (map string_bytes f.1.now)) }
    ensures none { IfNone result ((s : Setting) → (rest : List (List ℕ)) → Begins s (map string_bytes words.now) rest → ⊥) }
    ensures shorter { IfSome result (λ f. length f.1.now < length words.now) }
{
    let Some((name, digits, rest)) = split_two(words) else {
        return None;
    };
    let Some(number) = read_number(digits.as_bytes()) else {
        return None;
    };
    match setting_of(name, number) {
        Some(setting) => Some((setting, rest)),
        None => None,
    }
}

impl Given {
    // Whether the option was not given yet.
    fn is_free(self, setting: Setting) -> bool
        ensures { IsTrue result ↔ IsFree self setting }
    {
        match setting {
            Setting::Steps(_) => self.steps.is_none(),
            Setting::Pages(_) => self.pages.is_none(),
            Setting::Stack(_) => self.stack.is_none(),
        }
    }

    // What is given with this option.
    fn with(self, setting: Setting) -> Given
        ensures { result ≡ added self setting }
    {
        let mut more = self;
        match setting {
            Setting::Steps(number) => more.steps = Some(number),
            Setting::Pages(number) => more.pages = Some(number),
            Setting::Stack(number) => more.stack = Some(number),
        }
        more
    }

    // What was given, and else what an option is without a number.
    fn options(self) -> Options
        ensures { result ≡ chosen self [] }
    {
        Options {
            steps: self.steps.unwrap_or(100_000_000),
            pages: self.pages.unwrap_or(1_024),
            stack: self.stack.unwrap_or(4_194_304),
        }
    }
}

/// The options that the words begin with, and the words behind them; or none where an option is given twice.
pub(crate) fn read_options(words: &[String]) -> Option<(Options, &[String])>
    ensures found { IfSome result (λ f. Leaves f.0 (map string_bytes words.now) (map string_bytes f.1.now)) }
    ensures none { IfNone result ((o : Options) → (script : List ℕ) → (files : List (List ℕ)) → Completes nothing_given (map string_bytes words.now) o script files → ⊥) }
{
    let mut given = Given {
        steps: None,
        pages: None,
        stack: None,
    };
    let mut rest = words;
    while let Some((setting, others)) = read_setting(rest) {
        if !given.is_free(setting) {
            return None;
        }
        given = given.with(setting);
        rest = others;
    }
    Some((given.options(), rest))
}
