//! What a canister or an actor is given.
ghost use Rattle.std.specs.Prelude.{◌≡◌, ◌↔◌, IsTrue};

use mo_num::{Bytes, Principal, Sequence};
use std::str;

/// The most bytes of an argument, of a reply or of a reject's text: 2 MiB.
pub(crate) const MESSAGE_LIMIT: usize = 2_097_152;

/// One event of a script.
#[derive(Drop)]
pub enum Event {
    /// Installs the module with this number, counted from 0.
    Install(u32),
    /// An incoming call of an update method or of a query method.
    Call {
        query: bool,
        method: Bytes,
        caller: Principal,
        bytes: Bytes,
    },
    /// The reply to the outgoing call with this number, counted from 0.
    Reply {
        number: u64,
        bytes: Bytes,
    },
    /// The rejection of the outgoing call with this number.
    Reject {
        number: u64,
        code: u32,
        text: Bytes,
    },
    /// Puts the module with this number in the place of the present one.
    Upgrade(u32),
}

/// The events of a script, in order.
pub type Events = Sequence<Event>;

impl Event {
    ghost use Rattle.play_script.specs.Events.{IsFit, NamesModuleBelow, IsNoInstall, message_length};

    /// Whether the event may be given at all: its bytes or its reject's text are at most 2,097,152 bytes long, and a
    /// reject's text is UTF-8.
    pub fn is_fit(&self) -> bool
        ensures { IsTrue result ↔ IsFit self.now }
    {
        match self {
            Event::Install(_) | Event::Upgrade(_) => true,
            Event::Call { bytes, .. } | Event::Reply { bytes, .. } => bytes.len() <= MESSAGE_LIMIT,
            Event::Reject { text, .. } => {
                text.len() <= MESSAGE_LIMIT && str::from_utf8(text.as_slice()).is_ok()
            }
        }
    }

    /// How many bytes its message has.
    pub(crate) fn message_len(&self) -> usize
        ensures { result ≡ message_length self.now }
    {
        match self {
            Event::Install(_) | Event::Upgrade(_) => 0,
            Event::Call { bytes, .. } | Event::Reply { bytes, .. } => bytes.len(),
            Event::Reject { text, .. } => text.len(),
        }
    }

    /// Whether the module that the event names, if it names one, is among so many.
    pub(crate) fn names_module_below(&self, count: usize) -> bool
        ensures { IsTrue result ↔ NamesModuleBelow count self.now }
    {
        match self {
            Event::Install(number) | Event::Upgrade(number) => (*number as usize) < count,
            Event::Call { .. } | Event::Reply { .. } | Event::Reject { .. } => true,
        }
    }

    pub(crate) fn is_no_install(&self) -> bool
        ensures { IsTrue result ↔ IsNoInstall self.now }
    {
        !matches!(self, Event::Install(_))
    }
}
