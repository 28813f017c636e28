//! The type that is wanted, by its head.
ghost use Rattle.std.specs.Prelude.{IfOk, IfSome, map, option_map};
ghost use Rattle.mo_types.specs.Heads as node_heads;
ghost use Rattle.mo_types.specs.Sub.{Each};
ghost use Rattle.typing_rules.specs.Literals.{blob_of};
ghost use Rattle.type_definitions.specs.Meanings.{term};
ghost use Rattle.met_types.specs.States.{IsReached};
ghost use Rattle.judging.specs.Heads.{WantedHas};
ghost use Rattle.judging.specs.Parts.{Wanting};

use crate::checker::Checker;
use crate::heads::{is_blob, number_of, option_part, tuple_parts};
use crate::site::Site;
use mo_num::{Kind, Memory};
use type_terms::TermId;

impl Site {
    /// The type that is wanted, where it is one of numbers, and their kind.
    pub fn wanted_number(&self, checker: &Checker) -> Option<(TermId, Kind)>
        requires { Wanting checker.now self.now }
        ensures is { WantedHas node_heads.number_of checker.now.types self.now.wanted (λ later kind. kind) result }
        ensures reached { IfSome result (λ q. IsReached checker.now.types q.0) }
    {
        match self.wanted {
            Some(wanted) => match number_of(&checker.types, wanted) {
                Some(kind) => Some((wanted, kind)),
                None => None,
            },
            None => None,
        }
    }

    /// The type that is wanted, where it is that of blobs.
    pub fn wanted_blob(&self, checker: &Checker) -> Option<TermId>
        requires { Wanting checker.now self.now }
        ensures is { WantedHas blob_of checker.now.types self.now.wanted (λ later blob. blob) (option_map (λ id. (id, tt)) result) }
        ensures reached { IfSome result (IsReached checker.now.types) }
    {
        match self.wanted {
            Some(wanted) => {
                if is_blob(&checker.types, wanted) {
                    Some(wanted)
                } else {
                    None
                }
            }
            None => None,
        }
    }

    /// The type that is wanted, where it is `?A`, and A.
    pub fn wanted_option(&self, checker: &Checker) -> Option<(TermId, TermId)>
        requires { Wanting checker.now self.now }
        ensures is { WantedHas node_heads.opt_of checker.now.types self.now.wanted term result }
        ensures reached { IfSome result (λ q. IsReached checker.now.types q.0) }
        ensures part { IfSome result (λ q. IsReached checker.now.types q.1) }
    {
        match self.wanted {
            Some(wanted) => match option_part(&checker.types, wanted) {
                Some(part) => Some((wanted, part)),
                None => None,
            },
            None => None,
        }
    }

    /// The type that is wanted, where it is one of tuples, and those of their parts.
    pub fn wanted_tuple(&self, checker: &Checker) -> Result<Option<(TermId, Vec<TermId>)>, Memory>
        requires { Wanting checker.now self.now }
        ensures is { IfOk result (λ found. WantedHas node_heads.tuple_of checker.now.types self.now.wanted (λ later parts. map (term later) parts.items) found) }
        ensures reached { IfOk result (λ found. IfSome found (λ q. IsReached checker.now.types q.0)) }
        ensures parts { IfOk result (λ found. IfSome found (λ q. Each (IsReached checker.now.types) q.1.items)) }
    {
        match self.wanted {
            Some(wanted) => match tuple_parts(&checker.types, wanted)? {
                Some(parts) => Ok(Some((wanted, parts))),
                None => Ok(None),
            },
            None => Ok(None),
        }
    }
}
