//! Which types' values may be sent, or compared.
ghost use Rattle.std.specs.Prelude.{◌≡◌, true, false, IfOk, OnOk};
ghost use Rattle.type_definitions.specs.Tables.{Within};
ghost use Rattle.met_types.specs.States.{Kept};
ghost use Rattle.shareable_types.specs.Answers.{IsAnswer, Stands};

use crate::forms::know;
use crate::needs::Needs;
use crate::rounds::{all_cover, nothing_needed, round};
use met_types::Types;
use mo_num::Memory;
use type_terms::TermId;

/// Which types' values may be sent to other actors, or which may be compared by `==`: Motoko language manual, sections
/// "Shareability" and "Equality". The terms of a table are judged once each, as they are asked for.
pub struct Sharing {
    any: bool,
    needed: Vec<Needs>,
    known: Vec<Needs>,
}

// Written here, so that it is proved here, and not again in each crate that lets one go.
impl Drop for Sharing {
    fn drop(self) {
        let Sharing {
            any: _any,
            needed: _needed,
            known: _known,
        } = self;
    }
}

/// What is known where rounds over the definitions add nothing more to what is needed.
fn settle(any: bool, types: &Types) -> Result<Sharing, Memory>
    requires { Kept types.now }
    ensures { IfOk result (λ made. (made.any ≡ any) × Stands types.now made) }
{
    let terms = types.terms();
    let definitions = types.definitions();
    let alloc = terms.allocator();
    let mut needed = nothing_needed(alloc, definitions.types().len())?;
    for _turn in 0..u64::MAX {
        let next = round(any, terms, definitions, types.outcomes(), needed.as_slice())?;
        if all_cover(needed.as_slice(), next.as_slice()) {
            return Ok(Sharing {
                any,
                needed,
                known: Vec::new(alloc),
            });
        }
        needed = next;
    }
    Err(Memory)
}

impl Sharing {
    /// Which types' values may be sent to other actors, and kept over upgrades, as far as a program's definitions tell. Takes
    /// as many rounds over all terms as definitions follow each other.
    pub fn of_messages(types: &Types) -> Result<Sharing, Memory>
        requires { Kept types.now }
        ensures { IfOk result (λ made. (made.any ≡ true) × Stands types.now made) }
    {
        settle(true, types)
    }

    /// Which types' values may be compared, in as many rounds.
    pub fn of_equality(types: &Types) -> Result<Sharing, Memory>
        requires { Kept types.now }
        ensures { IfOk result (λ made. (made.any ≡ false) × Stands types.now made) }
    {
        settle(false, types)
    }

    /// Whether the values of a type may be sent, or compared.
    pub fn is_so(&mut self, types: &Types, id: TermId) -> Result<bool, Memory>
        requires kept { Kept types.now }
        requires stands { Stands types.now self.old }
        requires within { Within types.now.forms id }
        ensures same { OnOk result (self.new.any ≡ self.old.any) }
        ensures stands { OnOk result (Stands types.now self.new) }
        ensures answer { IfOk result (IsAnswer self.old.any types.now id) }
    {
        let number = id.index() as usize;
        know(
            &mut self.known,
            self.any,
            types.terms(),
            types.definitions(),
            self.needed.as_slice(),
            number + 1,
        )?;
        Ok(self.known[number].is_nothing())
    }
}
