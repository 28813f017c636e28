//! What the heads of types of objects have.
ghost use Rattle.std.specs.Prelude.{IfOk, IfSome, map, option_map};
ghost use Rattle.mo_types.specs.Heads.{object_of};
ghost use Rattle.mo_types.specs.Sub.{Each};
ghost use Rattle.mo_subtype.specs.Renamed.{on_field};
ghost use Rattle.type_definitions.specs.Meanings.{term};
ghost use Rattle.met_types.specs.States.{IsReached, Kept};
ghost use Rattle.judging.specs.Heads.{HeadHas, WantedHas};
ghost use Rattle.judging.specs.Parts.{Wanting};
ghost use Rattle.object_parts.specs.Found.{FieldFound, FieldsFound};

use judging::{Checker, Site};
use met_types::Types;
use mo_num::{Bytes, Memory};
use mo_types::Field;
use type_terms::TermId;

/// A field of the graph with the term of its type.
fn field_in(types: &Types, field: &Field) -> Result<Field<TermId>, Memory>
    ensures { IfOk result (FieldFound types.now field.now) }
{
    let label = Bytes::from_slice(types.terms().allocator(), field.label.as_slice())?;
    match types.term_at(field.part) {
        Some(part) => Ok(Field {
            label,
            mutable: field.mutable,
            part,
        }),
        None => Err(Memory),
    }
}

/// Fields of the graph with the terms of their types.
fn fields_in(types: &Types, fields: &[Field]) -> Result<Vec<Field<TermId>>, Memory>
    ensures { IfOk result (λ made. FieldsFound types.now fields.now made.items) }
{
    let mut made = Vec::with_capacity(types.terms().allocator(), fields.len())?;
    for field in fields {
        made.push(field_in(types, field)?)?;
    }
    Ok(made)
}

/// The fields of a type of objects.
pub fn object_fields(types: &Types, id: TermId) -> Result<Option<Vec<Field<TermId>>>, Memory>
    requires kept { Kept types.now }
    requires reached { IsReached types.now id }
    ensures is { IfOk result (λ found. HeadHas object_of types.now id (λ later. option_map (λ made. map (on_field (term later)) made.items) found)) }
    ensures reached { IfOk result (λ found. IfSome found (λ made. Each (λ f. IsReached types.now f.part) made.items)) }
{
    match types.node(id) {
        Some(node) => match node.object_of() {
            Some(fields) => Ok(Some(fields_in(types, fields)?)),
            None => Ok(None),
        },
        None => Ok(None),
    }
}

/// The type that is wanted, where it is one of objects, and its fields.
pub fn wanted_object(
    site: &Site,
    checker: &Checker,
) -> Result<Option<(TermId, Vec<Field<TermId>>)>, Memory>
    requires { Wanting checker.now site.now }
    ensures is { IfOk result (λ found. WantedHas object_of checker.now.types site.now.wanted (λ later fields. map (on_field (term later)) fields.items) found) }
    ensures reached { IfOk result (λ found. IfSome found (λ q. IsReached checker.now.types q.0)) }
    ensures parts { IfOk result (λ found. IfSome found (λ q. Each (λ f. IsReached checker.now.types f.part) q.1.items)) }
{
    match site.wanted {
        Some(wanted) => match object_fields(&checker.types, wanted)? {
            Some(fields) => Ok(Some((wanted, fields))),
            None => Ok(None),
        },
        None => Ok(None),
    }
}
