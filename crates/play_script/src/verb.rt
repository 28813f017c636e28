//! The first words of events.
ghost use Rattle.std.specs.Prelude.{◌≡◌, IfSome, IfNone};
ghost use Rattle.play_script.specs.Scripts.{word_of};

/// What an event's line begins with.
#[derive(Clone, Copy, Debug, PartialEq, Eq)]
pub(crate) enum Verb {
    Install,
    Call,
    Query,
    Reply,
    Reject,
    Upgrade,
}

/// The verb that the word is.
pub(crate) fn read_verb(word: &[u8]) -> Option<Verb>
    ensures found { IfSome result (λ verb. word.now ≡ word_of verb) }
    ensures none { IfNone result ((verb : Verb) → word.now ≡ word_of verb → ⊥) }
{
    match word {
        b"install" => Some(Verb::Install),
        b"call" => Some(Verb::Call),
        b"query" => Some(Verb::Query),
        b"reply" => Some(Verb::Reply),
        b"reject" => Some(Verb::Reject),
        b"upgrade" => Some(Verb::Upgrade),
        _ => None,
    }
}
