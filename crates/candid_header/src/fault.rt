//! Why bytes are no message of the types that are asked for.
ghost use Rattle.std.specs.Prelude.{◌≡◌};
ghost use Rattle.exact_reading.specs.declared.stop.Stop.TheVariants as stop;

use thiserror::Error;

/// What the bytes show, at the first place in reading order that breaks a rule.
#[derive(Clone, Copy, Debug, PartialEq, Eq, Error)]
pub enum Fault {
    /// The first bytes are not `DIDL`.
    #[error("the first bytes are not DIDL")]
    NotDidl,
    /// The table or the type of an argument is not well formed.
    #[error("the table of types is not well formed")]
    BadTable,
    /// The bytes end.
    #[error("the bytes end before the message does")]
    Short,
    /// Bytes remain.
    #[error("bytes remain behind the last value")]
    Trailing,
    /// The types differ from the declared ones, or there are more or fewer.
    #[error("the types of the message are not the declared ones")]
    NotSubtype,
    /// No value of its type stands there.
    #[error("the bytes spell no value of the declared type")]
    BadValue,
    /// A nat or an int is out of its range, or longer than ten bytes.
    #[error("a number is out of its range, or longer than ten bytes")]
    NumberLimit,
    /// A vector has more than 10,000 items that have no bytes.
    #[error("a vector has more than 10000 items without bytes")]
    TooManyEmpty,
}

/// Why reading stopped.
pub type Stop = exact_reading::Stop<Fault>;

impl From<Fault> for Stop {
    ghost from_gives = { λ f e. e ≡ stop.Fault f };

    fn from(fault: Fault) -> Stop {
        Stop::Fault(fault)
    }
}
