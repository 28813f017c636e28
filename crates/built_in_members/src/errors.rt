//! The type of the codes of errors.
ghost use Rattle.std.specs.Prelude.{◌≡◌, IfOk};
ghost use Rattle.typing_rules.specs.Members as rules;
ghost use Rattle.met_types.specs.States.{Kept};
ghost use Rattle.built_in_members.specs.Codes.{code_tags};
ghost use Rattle.built_in_members.specs.Written.{Writes};

use crate::writing::{field, object, plain, write};
use met_types::Types;
use mo_num::{Kind, Memory, Sequence};
use mo_types::Field;
use std::alloc::Global;
use type_terms::{Form, TermId};

/// The tags of the codes of errors, where these are the types of their values.
fn code_tags(
    alloc: Global,
    unit: TermId,
    number: TermId,
    refusal: TermId,
) -> Result<Sequence<Field<TermId>>, Memory>
    ensures { IfOk result (λ made. made ≡ code_tags unit number refusal) }
{
    let mut made = Sequence::new(alloc);
    made.push(field(alloc, b"system_fatal", unit)?)?;
    made.push(field(alloc, b"system_transient", unit)?)?;
    made.push(field(alloc, b"destination_invalid", unit)?)?;
    made.push(field(alloc, b"canister_reject", unit)?)?;
    made.push(field(alloc, b"canister_error", unit)?)?;
    made.push(field(alloc, b"future", number)?)?;
    made.push(field(alloc, b"call_error", refusal)?)?;
    Ok(made)
}

/// The type of the codes of errors: Motoko base library, module Error.
#[tactic(auto, unfolding(type_terms::specs::Layouts::layout))]
pub(crate) fn error_code(types: &mut Types) -> Result<TermId, Memory>
    requires { Kept types.old }
    ensures { IfOk result (λ id. Writes types.old rules.error_code id types.new) }
{
    let empty = Sequence::new(types.terms().allocator());
    let unit = plain(types, Form::Tuple(empty))?;
    let number = plain(types, Form::Number(Kind::Nat32))?;
    let refusal = object(types, b"err_code", number)?;
    let tags = code_tags(types.terms().allocator(), unit, number, refusal)?;
    write(types, Form::Variant(tags))
}
