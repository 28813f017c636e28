//! The signature of the stable variables.
ghost use Rattle.std.specs.Prelude.{◌≡◌, IfOk, map};
ghost use Rattle.typed_tree.specs.StableSignature.{field, signature};

use crate::program::{Program, StableVariable};
use mo_num::{Bytes, Memory, Sequence};
use mo_types::TypeId;
use std::alloc::Global;

/// A stable variable in a stable signature: Motoko language manual, section "Stable type signatures".
#[derive(Drop)]
pub struct StableField {
    pub name: Bytes,
    /// A type of the program's graph.
    pub of_type: TypeId,
}

/// The names and types of the stable variables of an actor, in source order.
#[derive(Drop)]
pub struct StableSig {
    pub fields: Sequence<StableField>,
}

/// The name and type of a stable variable.
fn field_of(alloc: Global, variable: &StableVariable) -> Result<StableField, Memory>
    ensures { IfOk result (λ made. made ≡ field variable.now) }
{
    Ok(StableField {
        name: Bytes::from_slice(alloc, variable.name.as_slice())?,
        of_type: variable.of_type,
    })
}

/// Those of each, in their order.
fn fields_of(alloc: Global, variables: &[StableVariable]) -> Result<Vec<StableField>, Memory>
    ensures { IfOk result (λ made. made.items ≡ map field variables.now) }
{
    let mut made = Vec::with_capacity(alloc, variables.len())?;
    for variable in variables {
        made.push(field_of(alloc, variable)?)?;
    }
    Ok(made)
}

/// The names and types of a program's stable variables, in source order.
pub fn stable_sig(alloc: Global, program: &Program) -> Result<StableSig, Memory>
    ensures { IfOk result (λ made. made.fields ≡ signature program.now) }
{
    let fields = fields_of(alloc, program.stable.as_slice())?;
    Ok(StableSig {
        fields: Sequence::from_vec(fields),
    })
}
