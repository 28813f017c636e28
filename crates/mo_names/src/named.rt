//! The meanings of the names that a program uses.
ghost use Rattle.std.specs.Prelude.{◌≡◌, ◌++◌, [], IfOk, OnOk};
ghost use Rattle.mo_names.specs.ProgramNames.{meanings, meaning_in};

use mo_num::{Memory, Sequence};
use mo_scopes::{Finding, Meaning};
use std::alloc::Global;
use std::marker::Model;

/// What the uses of names in a program mean, in the order of the source, which contracts see as their list.
#[derive(Drop)]
pub struct Named {
    meanings: Sequence<Meaning>,
}

impl Model for Named {
    ghost use Rattle.std.specs.Prelude.{List};
    ghost use Rattle.mo_scopes.specs.declared.meaning.Meaning.{Meaning};

    ghost Value = { List Meaning };

    ghost view = { λ n. n.meanings };
}

/// Adds the meaning that is found, where it is one.
fn note(list: &mut Sequence<Meaning>, finding: Finding) -> Result<(), Memory>
    ensures { OnOk result (list.new ≡ list.old ++ meaning_in finding) }
{
    match finding {
        Finding::Meaning(meaning) => list.push(meaning),
        Finding::Breach(_) => Ok(()),
    }
}

impl Named {
    /// The meanings among what was found.
    pub fn new(alloc: Global, found: &[Finding]) -> Result<Named, Memory>
        ensures { IfOk result (λ made. made ≡ meanings found.now) }
    {
        let mut list = Sequence::new(alloc);
        for finding in found {
            note(&mut list, *finding)?;
        }
        Ok(Named { meanings: list })
    }

    /// The meanings in the order of the uses.
    pub fn as_slice(&self) -> &[Meaning]
        ensures { result.now ≡ self.now }
    {
        self.meanings.as_slice()
    }
}
