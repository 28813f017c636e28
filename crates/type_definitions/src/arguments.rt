//! What is put in the place of type parameters.
ghost use Rattle.std.specs.Prelude.{◌≡◌};
ghost use Rattle.mo_types.specs.Heads.{map_option};
ghost use Rattle.type_definitions.specs.Putting.{argument_at};

use crate::Numbers;
use type_terms::TermId;

/// Type parameters with their arguments. Contracts see what is put in the place of each parameter.
#[derive(Clone, Copy)]
pub struct Arguments<'a> {
    pub parameters: &'a Numbers,
    pub arguments: &'a [TermId],
    /// Whether a parameter without an argument stays. Else it becomes `None`.
    pub others_stay: bool,
}

impl<'a> Arguments<'a> {
    /// The argument of a parameter.
    pub fn find(&self, parameter: u32) -> Option<TermId>
        ensures { result ≡ argument_at self.now.parameters.now self.now.arguments.now parameter }
    {
        match self.parameters.find(parameter) {
            Some(place) => self.arguments.get(place).copied(),
            None => None,
        }
    }
}
