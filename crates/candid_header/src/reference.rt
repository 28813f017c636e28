//! References to types.
ghost use Rattle.std.specs.Prelude.{◌≡◌};
ghost use Rattle.exact_reading.specs.Reading.{Tells, Gives};
ghost use Rattle.candid_header.specs.Table.{number_of, number_at, ref_at};

use crate::fault::Fault;
use crate::number::read_s33;
use mo_types::{Plain, TableRef};

/// The entry with this number, of a table of so many.
fn entry_number(entries: u32, number: i64) -> Result<u32, Fault>
    ensures { Tells (λ x. x) result (number_of entries number) }
{
    if number < 0 || number >= entries as i64 {
        return Err(Fault::BadTable);
    }
    Ok(number as u32)
}

#[tactic(auto, unfolding(crate::specs::Table::number_at))]
fn read_number(entries: u32, bytes: &[u8]) -> Result<(TableRef, &[u8]), Fault>
    ensures { Tells (λ x. (x.0, x.1.now)) result (number_at entries bytes.now) }
{
    let (number, rest) = read_s33(bytes)?;
    let number = entry_number(entries, number)?;
    Ok((TableRef::At(number), rest))
}

/// A type by its code, or by its number in a table of so many entries.
#[tactic(auto, unfolding(crate::specs::Table::ref_at))]
pub fn read_ref(entries: u32, bytes: &[u8]) -> Result<(TableRef, &[u8]), Fault>
    ensures { Tells (λ x. (x.0, x.1.now)) result (ref_at entries bytes.now) }
{
    let Some(code) = bytes.first() else {
        return Err(Fault::Short);
    };
    match Plain::from_code(*code) {
        Some(plain) => {
            let (_, rest) = bytes.split_at(1);
            Ok((TableRef::Plainly(plain), rest))
        }
        None => read_number(entries, bytes),
    }
}
