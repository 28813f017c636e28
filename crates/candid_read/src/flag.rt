//! Bytes that are 0 or 1.
ghost use Rattle.exact_reading.specs.Reading.{Tells};
ghost use Rattle.candid_header.specs.Reading.{first};
ghost use Rattle.candid_read.specs.Parts.{flag_by, option_by, one_by};

use candid_header::Fault;
use mo_types::Datum;

/// A `bool`.
pub fn read_flag(bytes: &[u8]) -> Result<(Datum, &[u8]), Fault>
    ensures { Tells (λ x. (x.0, x.1.now)) result (first flag_by bytes.now) }
{
    match bytes {
        [] => Err(Fault::Short),
        [0, rest @ ..] => Ok((Datum::Flag(false), rest)),
        [1, rest @ ..] => Ok((Datum::Flag(true), rest)),
        [_, ..] => Err(Fault::BadValue),
    }
}

/// Whether an option has a value.
pub fn read_option(bytes: &[u8]) -> Result<(Datum, &[u8]), Fault>
    ensures { Tells (λ x. (x.0, x.1.now)) result (first option_by bytes.now) }
{
    match bytes {
        [] => Err(Fault::Short),
        [0, rest @ ..] => Ok((Datum::Null, rest)),
        [1, rest @ ..] => Ok((Datum::Present, rest)),
        [_, ..] => Err(Fault::BadValue),
    }
}

/// The flag of a reference that can be seen.
pub fn read_one(bytes: &[u8]) -> Result<(u8, &[u8]), Fault>
    ensures { Tells (λ x. (x.0, x.1.now)) result (first one_by bytes.now) }
{
    match bytes {
        [] => Err(Fault::Short),
        [0, ..] => Err(Fault::BadValue),
        [1, rest @ ..] => Ok((1, rest)),
        [_, ..] => Err(Fault::BadValue),
    }
}
