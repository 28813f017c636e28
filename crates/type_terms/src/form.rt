//! The forms of terms.
ghost use Rattle.std.specs.Prelude.{◌≡◌, IfOk};

use mo_num::{Bytes, Kind, Memory, Sequence};
use mo_types::{Field, Sort};
use std::alloc::Global;

/// A term of a table, by its number there.
#[derive(Clone, Copy, Debug, PartialEq, Eq, Hash)]
pub struct TermId {
    pub(crate) index: u32,
}

impl TermId {
    /// The number. Those of one table are 0, 1, and so on.
    pub fn index(self) -> u32
        ensures { result ≡ self.index }
    {
        self.index
    }
}

/// A type as it is written, with the terms of its parts: Motoko language manual, section "Types". The use of a defined name is
/// a form of its own.
pub enum Form {
    Number(Kind),
    Boolean,
    Character,
    Text,
    Blob,
    Principal,
    Error,
    Null,
    /// The type above all.
    Any,
    /// The type below all, `None`.
    Bottom,
    /// `?A`
    Optional(TermId),
    /// `[A]`
    Array(TermId),
    /// `[var A]`
    MutableArray(TermId),
    /// `(A, .., B)`
    Tuple(Sequence<TermId>),
    Object(Sequence<Field<TermId>>),
    Actor(Sequence<Field<TermId>>),
    Variant(Sequence<Field<TermId>>),
    /// `(A, .., B) -> C`
    Function(Sequence<TermId>, TermId),
    /// `shared (A, .., B) -> async C`
    Shared(Sort, Sequence<TermId>, TermId),
    /// `async A`
    Async(TermId),
    /// A type parameter, by the number of the token that is its name.
    Parameter(u32),
    /// A defined type, by the number of the token that is its name, at the parameters in scope at its definition and then its own.
    Use(u32, Sequence<TermId>),
}

// Written here, so that it is proved here, and not again in each crate that lets a form go.
impl Drop for Form {
    fn drop(self) {
        match self {
            Form::Number(_kind) => {}
            Form::Boolean => {}
            Form::Character => {}
            Form::Text => {}
            Form::Blob => {}
            Form::Principal => {}
            Form::Error => {}
            Form::Null => {}
            Form::Any => {}
            Form::Bottom => {}
            Form::Optional(_part) => {}
            Form::Array(_part) => {}
            Form::MutableArray(_part) => {}
            Form::Tuple(_parts) => {}
            Form::Object(_fields) => {}
            Form::Actor(_methods) => {}
            Form::Variant(_tags) => {}
            Form::Function(_parameters, _part) => {}
            Form::Shared(_sort, _parameters, _part) => {}
            Form::Async(_part) => {}
            Form::Parameter(_at) => {}
            Form::Use(_at, _arguments) => {}
        }
    }
}

/// A copy of the terms.
pub fn copy_parts(alloc: Global, parts: &[TermId]) -> Result<Sequence<TermId>, Memory>
    ensures { IfOk result (λ made. made ≡ parts.now) }
{
    Ok(Sequence::from_vec(Vec::from_slice(alloc, parts)?))
}

/// A copy of a field.
fn copy_field(alloc: Global, field: &Field<TermId>) -> Result<Field<TermId>, Memory>
    ensures { IfOk result (λ made. made ≡ field.now) }
{
    Ok(Field {
        label: Bytes::from_slice(alloc, field.label.as_slice())?,
        mutable: field.mutable,
        part: field.part,
    })
}

/// A copy of the fields.
pub fn copy_fields(
    alloc: Global,
    fields: &[Field<TermId>],
) -> Result<Sequence<Field<TermId>>, Memory>
    ensures { IfOk result (λ made. made ≡ fields.now) }
{
    let mut made = Vec::with_capacity(alloc, fields.len())?;
    for field in fields {
        made.push(copy_field(alloc, field)?)?;
    }
    Ok(Sequence::from_vec(made))
}

impl Form {
    /// A copy of the form.
    pub fn copy(&self, alloc: Global) -> Result<Form, Memory>
        ensures { IfOk result (λ made. made ≡ self.now) }
    {
        Ok(match self {
            Form::Number(kind) => Form::Number(*kind),
            Form::Boolean => Form::Boolean,
            Form::Character => Form::Character,
            Form::Text => Form::Text,
            Form::Blob => Form::Blob,
            Form::Principal => Form::Principal,
            Form::Error => Form::Error,
            Form::Null => Form::Null,
            Form::Any => Form::Any,
            Form::Bottom => Form::Bottom,
            Form::Optional(part) => Form::Optional(*part),
            Form::Array(part) => Form::Array(*part),
            Form::MutableArray(part) => Form::MutableArray(*part),
            Form::Tuple(parts) => Form::Tuple(copy_parts(alloc, parts.as_slice())?),
            Form::Object(fields) => Form::Object(copy_fields(alloc, fields.as_slice())?),
            Form::Actor(methods) => Form::Actor(copy_fields(alloc, methods.as_slice())?),
            Form::Variant(tags) => Form::Variant(copy_fields(alloc, tags.as_slice())?),
            Form::Function(parameters, part) => Form::Function(
                copy_parts(alloc, parameters.as_slice())?,
                *part,
            ),
            Form::Shared(sort, parameters, part) => Form::Shared(
                *sort,
                copy_parts(alloc, parameters.as_slice())?,
                *part,
            ),
            Form::Async(part) => Form::Async(*part),
            Form::Parameter(at) => Form::Parameter(*at),
            Form::Use(at, arguments) => Form::Use(*at, copy_parts(alloc, arguments.as_slice())?),
        })
    }
}
