//! The type that is wanted, where it is one of arrays or of variants.
ghost use Rattle.std.specs.Prelude.{IfOk, IfSome, option_map};
ghost use Rattle.mo_types.specs.Heads as node_heads;
ghost use Rattle.type_definitions.specs.Meanings.{term};
ghost use Rattle.met_types.specs.States.{IsReached};
ghost use Rattle.judging.specs.Heads.{WantedHas};
ghost use Rattle.judging.specs.Parts.{Wanting};
ghost use Rattle.data_parts.specs.Tags.{tag_of};

use crate::heads::{array_part, mutable_array_part, tag_part};
use judging::{Checker, Site};
use mo_num::Memory;
use type_terms::TermId;

/// The type that is wanted, where it is `[A]`, and A.
pub fn wanted_array(site: &Site, checker: &Checker) -> Option<(TermId, TermId)>
    requires { Wanting checker.now site.now }
    ensures is { WantedHas node_heads.array_of checker.now.types site.now.wanted term result }
    ensures reached { IfSome result (λ q. IsReached checker.now.types q.0) }
    ensures part { IfSome result (λ q. IsReached checker.now.types q.1) }
{
    match site.wanted {
        Some(wanted) => match array_part(&checker.types, wanted) {
            Some(part) => Some((wanted, part)),
            None => None,
        },
        None => None,
    }
}

/// The type that is wanted, where it is `[var A]`, and A.
pub fn wanted_mutable_array(site: &Site, checker: &Checker) -> Option<(TermId, TermId)>
    requires { Wanting checker.now site.now }
    ensures is { WantedHas node_heads.mut_array_of checker.now.types site.now.wanted term result }
    ensures reached { IfSome result (λ q. IsReached checker.now.types q.0) }
    ensures part { IfSome result (λ q. IsReached checker.now.types q.1) }
{
    match site.wanted {
        Some(wanted) => match mutable_array_part(&checker.types, wanted) {
            Some(part) => Some((wanted, part)),
            None => None,
        },
        None => None,
    }
}

/// The type that is wanted, where it is one of variants, and the type of this tag, which may be none of it.
pub fn wanted_tag(
    site: &Site,
    checker: &Checker,
    name: &[u8],
) -> Result<Option<(TermId, Option<TermId>)>, Memory>
    requires { Wanting checker.now site.now }
    ensures is { IfOk result (λ found. WantedHas (tag_of name.now) checker.now.types site.now.wanted (λ later part. option_map (term later) part) found) }
    ensures reached { IfOk result (λ found. IfSome found (λ q. IsReached checker.now.types q.0)) }
    ensures part { IfOk result (λ found. IfSome found (λ q. IfSome q.1 (IsReached checker.now.types))) }
{
    match site.wanted {
        Some(wanted) => match tag_part(&checker.types, wanted, name)? {
            Some(part) => Ok(Some((wanted, part))),
            None => Ok(None),
        },
        None => Ok(None),
    }
}
