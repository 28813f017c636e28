//! Literals as parts of values.
ghost use Rattle.std.specs.Prelude.{◌≡◌, IfOk};
ghost use Rattle.typed_tree.specs.PatternView.{literal_part};

use mo_num::{Bytes, Memory};
use mo_types::Datum;
use std::alloc::Global;
use typed_tree::Literal;

/// The outermost part of a literal's value.
pub(crate) fn part_of(alloc: Global, literal: &Literal) -> Result<Datum, Memory>
    ensures { IfOk result (λ part. part ≡ literal_part literal.now) }
{
    match literal {
        Literal::Unit => Ok(Datum::Record(0)),
        Literal::Null => Ok(Datum::Null),
        Literal::Flag(flag) => Ok(Datum::Flag(*flag)),
        Literal::Number(number) => Ok(Datum::Number(*number)),
        Literal::Character(code) => Ok(Datum::Char(*code)),
        Literal::Text(text) => Ok(Datum::Text(Bytes::from_slice(alloc, text.as_slice())?)),
        Literal::Blob(blob) => Ok(Datum::Blob(Bytes::from_slice(alloc, blob.as_slice())?)),
        Literal::Actor(own) => Ok(Datum::Actor(own.copy())),
    }
}
