//! The fields of an object.
ghost use Rattle.std.specs.Prelude.{◌≡◌, IfOk, OnOk};
ghost use Rattle.mo_types.specs.Sub.{Each};
ghost use Rattle.met_types.specs.States.{IsReached};
ghost use Rattle.abstract_types.specs.TypeView.{annotation};
ghost use Rattle.judging.specs.Answers.{Answers, Judges};
ghost use Rattle.judging.specs.Parts.{Ready};
ghost use Rattle.object_rules.specs.Values.{made_in, made_reached, with_types};
ghost use Rattle.object_rules.specs.Written.{IsWritten};

use crate::values::{FieldValue, judge_value};
use abstract_tree::{Expression, ObjectField};
use abstract_types::TypeNode;
use judging::{Checker, Judged, Layer, Part};
use mo_num::{Bytes, Memory, Sequence};
use mo_syntax::Items;
use mo_types::Field;
use std::alloc::Global;
use type_copies::{copied_name, copied_type};
use type_judgements::Refusal;
use type_terms::TermId;
use value_scopes::{Note, Scopes};

/// The fields of an object, and those of the type that it has.
pub(crate) struct MadeFields {
    pub(crate) fields: Items<ObjectField<Note>>,
    pub(crate) kinds: Sequence<Field<TermId>>,
}

fn copied_annotation(alloc: Global, written: &Option<TypeNode>) -> Result<Option<TypeNode>, Memory>
    ensures { IfOk result (λ made. annotation made ≡ annotation written.now) }
{
    match written {
        Some(written) => Ok(Some(copied_type(alloc, written)?)),
        None => Ok(None),
    }
}

/// The field with this value.
fn with_value(
    alloc: Global,
    field: &ObjectField<u32>,
    value: Expression<Note>,
) -> Result<ObjectField<Note>, Memory>
    ensures { IfOk result (IsWritten field.now value) }
{
    let name = copied_name(alloc, &field.name)?;
    let annotation = copied_annotation(alloc, &field.annotation)?;
    Ok(ObjectField {
        mutable: field.mutable,
        name,
        annotation,
        value,
    })
}

/// The field of the type of the object, where it has this type.
fn with_kind(alloc: Global, field: &ObjectField<u32>, kind: TermId) -> Result<Field<TermId>, Memory>
    ensures { IfOk result (λ made. made ≡ record { label = field.now.name.bytes; mutable = field.now.mutable; part = kind }) }
{
    Ok(Field {
        label: Bytes::from_slice(alloc, field.name.bytes.as_slice())?,
        mutable: field.mutable,
        part: kind,
    })
}

/// The fields of an object, where these are wanted, and their types.
pub(crate) fn judge_fields<F: Fn(&mut Checker, &mut Scopes, Part<'_>) -> Judged>(
    layer: &Layer<F>,
    checker: &mut Checker,
    scopes: &mut Scopes,
    fields: &[ObjectField<u32>],
    wanted: &[Field<TermId>],
) -> Result<MadeFields, Refusal>
    requires judges { Judges layer.now.depth (F.pre layer.now.judge) (F.post layer.now.judge) }
    requires ready { Ready checker.old scopes.old layer.now.site }
    requires wanted { Each (λ g. IsReached checker.old.types g.part) wanted.now }
    ensures answer { Answers made_in made_reached (with_types layer.now.site.place fields.now wanted.now) scopes.old checker.old scopes.new checker.new result }
    ensures ready { OnOk result (Ready checker.new scopes.new layer.now.site) }
{
    let alloc = checker.types.terms().allocator();
    let mut made = Items::new(alloc);
    let mut kinds = Sequence::new(alloc);
    for i in 0..fields.len() {
        let field = &fields[i];
        let one = judge_value(layer, checker, scopes, field, wanted)?;
        let FieldValue { value, kind } = one;
        let part = with_kind(alloc, field, kind)?;
        let named = with_value(alloc, field, value)?;
        kinds.push(part)?;
        made.push(named)?;
    }
    Ok(MadeFields {
        fields: made,
        kinds,
    })
}
