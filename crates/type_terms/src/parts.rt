//! The parts of a form, and a form with others in their place.
ghost use Rattle.std.specs.Prelude.{◌≡◌, ◌++◌, ◌<◌, length, map, take, drop, IfOk, OnOk, [], ◌∷◌};
ghost use Rattle.type_terms.specs.Layouts.{parts};
ghost use Rattle.type_terms.specs.Parted.{fields_with, with_parts};

use crate::form::copy_parts;
use crate::{Form, TermId};
use mo_num::{Bytes, Memory, Sequence};
use mo_types::Field;
use std::alloc::Global;

/// Adds the parts of fields.
fn push_fields(out: &mut Vec<TermId>, fields: &[Field<TermId>]) -> Result<(), Memory>
    ensures { OnOk result (out.new.items ≡ out.old.items ++ map (λ f. f.part) fields.now) }
{
    for field in fields {
        out.push(field.part)?;
    }
    Ok(())
}

/// A field with another part.
fn field_with(alloc: Global, field: &Field<TermId>, part: TermId) -> Result<Field<TermId>, Memory>
    ensures { IfOk result (λ made. made ≡ record { label = field.now.label; mutable = field.now.mutable; part = part }) }
{
    Ok(Field {
        label: Bytes::from_slice(alloc, field.label.as_slice())?,
        mutable: field.mutable,
        part,
    })
}

/// Fields with other parts.
fn fields_with(
    alloc: Global,
    fields: &[Field<TermId>],
    parts: &[TermId],
) -> Result<Sequence<Field<TermId>>, Memory>
    requires { length parts.now ≡ length fields.now }
    ensures { IfOk result (λ made. made ≡ fields_with fields.now parts.now) }
{
    let mut made = Vec::with_capacity(alloc, fields.len())?;
    for i in 0..fields.len() {
        made.push(field_with(alloc, &fields[i], parts[i])?)?;
    }
    Ok(Sequence::from_vec(made))
}

impl Form {
    /// The parts, in their order.
    pub fn parts(&self, alloc: Global) -> Result<Sequence<TermId>, Memory>
        ensures { IfOk result (λ made. made ≡ parts self.now) }
    {
        let laid = self.laid();
        let mut made = Vec::from_slice(alloc, laid.first())?;
        made.extend_from_slice(laid.second())?;
        push_fields(&mut made, laid.fields())?;
        Ok(Sequence::from_vec(made))
    }

    /// The form with as many other parts.
    #[tactic(auto, unfolding(crate::specs::Layouts::layout))]
    pub fn with_parts(&self, alloc: Global, others: &[TermId]) -> Result<Form, Memory>
        requires { length others.now ≡ length (parts self.now) }
        ensures { IfOk result (λ made. made ≡ with_parts self.now others.now) }
    {
        Ok(match self {
            Form::Optional(_) => Form::Optional(others[0]),
            Form::Array(_) => Form::Array(others[0]),
            Form::MutableArray(_) => Form::MutableArray(others[0]),
            Form::Tuple(_) => Form::Tuple(copy_parts(alloc, others)?),
            Form::Object(fields) => Form::Object(fields_with(alloc, fields.as_slice(), others)?),
            Form::Actor(methods) => Form::Actor(fields_with(alloc, methods.as_slice(), others)?),
            Form::Variant(tags) => Form::Variant(fields_with(alloc, tags.as_slice(), others)?),
            Form::Function(parameters, _) => {
                let n = parameters.len();
                Form::Function(copy_parts(alloc, &others[..n])?, others[n])
            }
            Form::Shared(sort, parameters, _) => {
                let n = parameters.len();
                Form::Shared(*sort, copy_parts(alloc, &others[..n])?, others[n])
            }
            Form::Async(_) => Form::Async(others[0]),
            Form::Use(at, _) => Form::Use(*at, copy_parts(alloc, others)?),
            _ => self.copy(alloc)?,
        })
    }
}
