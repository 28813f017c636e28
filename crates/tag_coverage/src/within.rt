//! What is missed within a tag or an option, as missed of the whole.
ghost use Rattle.std.specs.Prelude.{◌≡◌, IfOk};
ghost use Rattle.mo_types.specs.declared.datum.Datum.TheVariants as part;
ghost use Rattle.pattern_coverage.specs.Cover as cover;
ghost use Rattle.pattern_coverage.specs.Known.{Is};
ghost use Rattle.mo_coverage.specs.Covering.{cover_in};
ghost use Rattle.tag_coverage.specs.Within.{in_option, under_tag};

use mo_coverage::{Cover, Shape};
use mo_num::{Bytes, Memory};
use mo_types::Datum;
use std::alloc::Global;

/// What is missed under a tag.
#[tactic(auto, unfolding(mo_coverage::specs::Shapes::known))]
pub(crate) fn under_tag(alloc: Global, label: &[u8], inside: Cover) -> Result<Cover, Memory>
    ensures { IfOk result (λ told. cover_in told ≡ under_tag label.now (cover_in inside)) }
{
    match inside {
        Cover::Whole => Ok(Cover::Whole),
        Cover::Misses(shape) => {
            let label = Bytes::from_slice(alloc, label)?;
            Ok(Cover::Misses(Shape::Under(label, Box::new(alloc, shape)?)))
        }
    }
}

/// What is missed of the values that options hold.
#[tactic(auto, unfolding(mo_coverage::specs::Shapes::known))]
pub(crate) fn in_option(alloc: Global, inside: Cover) -> Result<Cover, Memory>
    ensures { IfOk result (λ told. cover_in told ≡ in_option (cover_in inside)) }
{
    match inside {
        Cover::Whole => Ok(Cover::Whole),
        Cover::Misses(shape) => Ok(Cover::Misses(Shape::Holds(Box::new(alloc, shape)?))),
    }
}

/// The missed value is `null`.
#[tactic(auto, unfolding(mo_coverage::specs::Shapes::known))]
pub(crate) fn null_missed() -> Cover
    ensures { cover_in result ≡ cover.Misses (Is part.Null) }
{
    Cover::Misses(Shape::Is(Datum::Null))
}
