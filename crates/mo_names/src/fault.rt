//! Why the names of a program are refused.
ghost use Rattle.std.specs.Prelude.{◌≡◌};
ghost use Rattle.mo_names.specs.Bound.{fault_of};

use mo_num::Memory;
use mo_scopes::{Breach, Rule};
use mo_syntax::Place;
use thiserror::Error;

/// Why the names of a program are refused, and where: the condition of this name is false at the name, or the path of an
/// import, that stands there.
#[derive(Clone, Copy, Debug, PartialEq, Eq, Error)]
pub enum NameFault {
    /// A name has no meaning where it is used, or a path names no module.
    #[error("the name or path at byte {start} has no meaning", start = .0.start)]
    Unknown(Place),
    /// A name is bound twice in one list, pattern or type.
    #[error("the name at byte {start} is bound twice", start = .0.start)]
    Twice(Place),
    /// A value is used before it is defined.
    #[error("the value at byte {start} is used before it is defined", start = .0.start)]
    UsedBeforeDefined(Place),
    /// Two labels of one object, variant or actor, or two stable variables, have equal numbers in Candid.
    #[error("the label at byte {start} has the number of another", start = .0.start)]
    LabelClash(Place),
    /// An identifier begins with `__`, or a label is `_`, digits and `_`.
    #[error("the name at byte {start} is reserved", start = .0.start)]
    Reserved(Place),
    #[error("there was no memory")]
    Memory,
}

impl From<Memory> for NameFault {
    ghost use Rattle.mo_names.specs.declared.fault.NameFault.TheVariants as fault;

    ghost from_gives = { λ _ made. made ≡ fault.Memory };

    fn from(_: Memory) -> Self {
        NameFault::Memory
    }
}

impl NameFault {
    /// The fault that a breach is.
    pub fn from_breach(breach: Breach) -> NameFault
        ensures { result ≡ fault_of breach }
    {
        let place = breach.place;
        match breach.rule {
            Rule::Unknown => NameFault::Unknown(place),
            Rule::Twice => NameFault::Twice(place),
            Rule::UsedBeforeDefined => NameFault::UsedBeforeDefined(place),
            Rule::LabelClash => NameFault::LabelClash(place),
            Rule::Reserved => NameFault::Reserved(place),
        }
    }
}
