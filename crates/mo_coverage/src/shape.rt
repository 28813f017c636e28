//! Shapes of values.
ghost use Rattle.std.specs.Prelude.{◌≡◌, IfOk};
ghost use Rattle.mo_coverage.specs.Shapes.{all_known, known};

use crate::leaves::copy_part;
use mo_num::{Bytes, Memory, Sequence};
use mo_types::Datum;
use std::alloc::Global;

/// What is known of a value: Motoko language manual, section "Patterns".
#[derive(Drop)]
pub enum Shape {
    /// Nothing.
    Unknown,
    /// It is this literal.
    Is(Datum),
    /// It is a literal, but none of these.
    IsNot(Sequence<Datum>),
    /// It is an option that holds a value of which this is known.
    Holds(Box<Shape>),
    /// It has this tag, with a value of which this is known.
    Under(Bytes, Box<Shape>),
    /// It has a tag, but none of these.
    NotUnder(Sequence<Bytes>),
    /// It is a tuple, of whose parts this is known.
    Parts(Vec<Shape>),
    /// It is an object, and has fields with these labels, of which this is known.
    Fields(Sequence<Bytes>, Vec<Shape>),
}

/// The same shape again.
#[cycle(copy)]
#[tactic(auto, unfolding(crate::specs::Shapes::known))]
pub(crate) fn copy(alloc: Global, shape: &Shape) -> Result<Shape, Memory>
    ensures { IfOk result (λ made. known made ≡ known shape.now) }
{
    match shape {
        Shape::Unknown => Ok(Shape::Unknown),
        Shape::Is(part) => Ok(Shape::Is(copy_part(alloc, part)?)),
        Shape::IsNot(parts) => Ok(Shape::IsNot(copy_parts(alloc, parts.as_slice())?)),
        Shape::Holds(inside) => {
            let inside = copy(alloc, inside)?;
            Ok(Shape::Holds(Box::new(alloc, inside)?))
        }
        Shape::Under(label, inside) => {
            let inside = copy(alloc, inside)?;
            let label = Bytes::from_slice(alloc, label.as_slice())?;
            Ok(Shape::Under(label, Box::new(alloc, inside)?))
        }
        Shape::NotUnder(labels) => Ok(Shape::NotUnder(copy_labels(alloc, labels.as_slice())?)),
        Shape::Parts(parts) => Ok(Shape::Parts(copy_all(alloc, parts.as_slice())?)),
        Shape::Fields(labels, parts) => {
            let labels = copy_labels(alloc, labels.as_slice())?;
            Ok(Shape::Fields(labels, copy_all(alloc, parts.as_slice())?))
        }
    }
}

/// The same shapes again.
#[cycle(copy)]
#[tactic(auto, unfolding(crate::specs::Shapes::known))]
pub(crate) fn copy_all(alloc: Global, shapes: &[Shape]) -> Result<Vec<Shape>, Memory>
    ensures { IfOk result (λ made. all_known made.items ≡ all_known shapes.now) }
{
    let mut made = Vec::new(alloc);
    for shape in shapes {
        made.push(copy(alloc, shape)?)?;
    }
    Ok(made)
}

fn copy_parts(alloc: Global, parts: &[Datum]) -> Result<Sequence<Datum>, Memory>
    ensures { IfOk result (λ made. made ≡ parts.now) }
{
    let mut made = Sequence::new(alloc);
    for part in parts {
        made.push(copy_part(alloc, part)?)?;
    }
    Ok(made)
}

fn copy_labels(alloc: Global, labels: &[Bytes]) -> Result<Sequence<Bytes>, Memory>
    ensures { IfOk result (λ made. made ≡ labels.now) }
{
    let mut made = Sequence::new(alloc);
    for label in labels {
        made.push(Bytes::from_slice(alloc, label.as_slice())?)?;
    }
    Ok(made)
}
