//! The value of a field.
ghost use Rattle.std.specs.Prelude.{◌≡◌, IfSome, None, OnOk, Some};
ghost use Rattle.mo_types.specs.Sub.{Each, find};
ghost use Rattle.mo_subtype.specs.Renamed.{on_field};
ghost use Rattle.typing_rules.specs.declared.condition.Condition.TheVariants as condition;
ghost use Rattle.typing_rules.specs.Expressions.{field_questions, same};
ghost use Rattle.typing_rules.specs.Judgements.{Fine, NeedsEach};
ghost use Rattle.type_definitions.specs.Meanings.{term};
ghost use Rattle.type_definitions.specs.Tables.{Within};
ghost use Rattle.met_types.specs.States.{IsReached, Kept};
ghost use Rattle.abstract_types.specs.TypeView.{type_node};
ghost use Rattle.abstract_tree.specs.TreeView.{plain};
ghost use Rattle.value_scopes.specs.declared.scopes.Scopes.{Scopes as ScopesValue};
ghost use Rattle.judging.specs.Answers.{Answers, Judges};
ghost use Rattle.judging.specs.Parts.{Ready, Sound};
ghost use Rattle.judging.specs.Views.{judge, no_more, nothing};
ghost use Rattle.object_rules.specs.Values.{fitting_value, own_value, value_among, value_in, value_reached, wanted_value, wants, with_type, written_value};

use abstract_tree::{Expression, ObjectField};
use abstract_types::TypeNode;
use judging::{Checker, Judged, Layer, Part};
use mo_types::Field;
use object_parts::field_named;
use scope_judging::reads;
use type_judgements::{Refusal, needs_below};
use type_terms::TermId;
use typing_rules::Condition;
use value_scopes::{Note, Scopes};

/// A value, and the type of the field that has it.
pub(crate) struct FieldValue {
    pub(crate) value: Expression<Note>,
    pub(crate) kind: TermId,
}

/// Whether both are mutable or none is.
fn is_same(mutable: bool, wanted: bool) -> bool
    ensures { result ≡ same mutable wanted }
{
    if mutable { wanted } else { !wanted }
}

/// The conditions, that a field of this type stands where one of the other is wanted: the type is below the other, and equal to it where
/// the field is mutable.
fn fits_field(
    at: u32,
    mutable: bool,
    checker: &Checker,
    kind: TermId,
    wanted: TermId,
) -> Result<(), Refusal>
    requires kept { Kept checker.now.types }
    requires kind { IsReached checker.now.types kind }
    requires wanted { IsReached checker.now.types wanted }
    ensures { (c : ScopesValue) → Sound checker.now c → Answers nothing no_more (λ v. NeedsEach condition.Mismatch at (field_questions mutable (term v.later kind) (term v.later wanted)) Fine) c checker.now c checker.now result }
{
    let alloc = checker.types.terms().allocator();
    needs_below(alloc, &checker.types, Condition::Mismatch, at, kind, wanted)?;
    if mutable {
        needs_below(alloc, &checker.types, Condition::Mismatch, at, wanted, kind)
    } else {
        Ok(())
    }
}

/// The value of a field whose type is not written, of which this type is wanted, or none.
fn plain_value<F: Fn(&mut Checker, &mut Scopes, Part<'_>) -> Judged>(
    layer: &Layer<F>,
    checker: &mut Checker,
    scopes: &mut Scopes,
    field: &ObjectField<u32>,
    wanted: Option<TermId>,
) -> Result<FieldValue, Refusal>
    requires judges { Judges layer.now.depth (F.pre layer.now.judge) (F.post layer.now.judge) }
    requires ready { Ready checker.old scopes.old layer.now.site }
    requires wanted { IfSome wanted (Within checker.old.types.forms) }
    ensures answer { Answers value_in value_reached (with_type None (judge layer.now.site.place (plain field.now.value) wanted)) scopes.old checker.old scopes.new checker.new result }
    ensures ready { OnOk result (Ready checker.new scopes.new layer.now.site) }
{
    let value = layer.part(checker, scopes, &field.value, wanted)?;
    let kind = value.note.kind;
    Ok(FieldValue { value, kind })
}

/// The value of a field whose type is written. No field of its name is wanted.
fn written_value<F: Fn(&mut Checker, &mut Scopes, Part<'_>) -> Judged>(
    layer: &Layer<F>,
    checker: &mut Checker,
    scopes: &mut Scopes,
    field: &ObjectField<u32>,
    written: &TypeNode,
) -> Result<FieldValue, Refusal>
    requires judges { Judges layer.now.depth (F.pre layer.now.judge) (F.post layer.now.judge) }
    requires ready { Ready checker.old scopes.old layer.now.site }
    ensures answer { Answers value_in value_reached (with_type (Some written.now) (written_value layer.now.site.place field.now (type_node written.now))) scopes.old checker.old scopes.new checker.new result }
    ensures ready { OnOk result (Ready checker.new scopes.new layer.now.site) }
{
    let kind = reads(checker, scopes, written)?;
    let value = layer.part(checker, scopes, &field.value, Some(kind))?;
    Ok(FieldValue { value, kind })
}

/// The value of a field whose type is written, where a field of this type is wanted.
fn fitting_value<F: Fn(&mut Checker, &mut Scopes, Part<'_>) -> Judged>(
    layer: &Layer<F>,
    checker: &mut Checker,
    scopes: &mut Scopes,
    field: &ObjectField<u32>,
    written: &TypeNode,
    wanted: TermId,
) -> Result<FieldValue, Refusal>
    requires judges { Judges layer.now.depth (F.pre layer.now.judge) (F.post layer.now.judge) }
    requires ready { Ready checker.old scopes.old layer.now.site }
    requires wanted { IsReached checker.old.types wanted }
    ensures answer { Answers value_in value_reached (with_type (Some written.now) (λ v. fitting_value layer.now.site.place field.now (type_node written.now) (term v.later wanted) v)) scopes.old checker.old scopes.new checker.new result }
    ensures ready { OnOk result (Ready checker.new scopes.new layer.now.site) }
{
    let kind = reads(checker, scopes, written)?;
    fits_field(field.name.at, field.mutable, checker, kind, wanted)?;
    let value = layer.part(checker, scopes, &field.value, Some(kind))?;
    Ok(FieldValue { value, kind })
}

/// The value of a field, where no field of its name is wanted.
fn own_value<F: Fn(&mut Checker, &mut Scopes, Part<'_>) -> Judged>(
    layer: &Layer<F>,
    checker: &mut Checker,
    scopes: &mut Scopes,
    field: &ObjectField<u32>,
) -> Result<FieldValue, Refusal>
    requires judges { Judges layer.now.depth (F.pre layer.now.judge) (F.post layer.now.judge) }
    requires ready { Ready checker.old scopes.old layer.now.site }
    ensures answer { Answers value_in value_reached (with_type field.now.annotation (own_value layer.now.site.place field.now field.now.annotation)) scopes.old checker.old scopes.new checker.new result }
    ensures ready { OnOk result (Ready checker.new scopes.new layer.now.site) }
{
    match &field.annotation {
        Some(written) => written_value(layer, checker, scopes, field, written),
        None => plain_value(layer, checker, scopes, field, None),
    }
}

/// The value of a field, where this one is wanted.
fn wanted_value<F: Fn(&mut Checker, &mut Scopes, Part<'_>) -> Judged>(
    layer: &Layer<F>,
    checker: &mut Checker,
    scopes: &mut Scopes,
    field: &ObjectField<u32>,
    wanted: &Field<TermId>,
) -> Result<FieldValue, Refusal>
    requires judges { Judges layer.now.depth (F.pre layer.now.judge) (F.post layer.now.judge) }
    requires ready { Ready checker.old scopes.old layer.now.site }
    requires wanted { IsReached checker.old.types wanted.now.part }
    ensures answer { Answers value_in value_reached (with_type field.now.annotation (λ v. wanted_value layer.now.site.place field.now field.now.annotation (on_field (term v.later) wanted.now) v)) scopes.old checker.old scopes.new checker.new result }
    ensures ready { OnOk result (Ready checker.new scopes.new layer.now.site) }
{
    if !is_same(field.mutable, wanted.mutable) {
        return Err(Refusal::False(field.name.at, Condition::Mismatch));
    }
    match &field.annotation {
        Some(written) => fitting_value(layer, checker, scopes, field, written, wanted.part),
        None => plain_value(layer, checker, scopes, field, Some(wanted.part)),
    }
}

/// The value of a field, where these are wanted: its type is the one that is written, or else the value's own.
pub(crate) fn judge_value<F: Fn(&mut Checker, &mut Scopes, Part<'_>) -> Judged>(
    layer: &Layer<F>,
    checker: &mut Checker,
    scopes: &mut Scopes,
    field: &ObjectField<u32>,
    wanted: &[Field<TermId>],
) -> Result<FieldValue, Refusal>
    requires judges { Judges layer.now.depth (F.pre layer.now.judge) (F.post layer.now.judge) }
    requires ready { Ready checker.old scopes.old layer.now.site }
    requires wanted { Each (λ g. IsReached checker.old.types g.part) wanted.now }
    ensures answer { Answers value_in value_reached (with_type field.now.annotation (λ v. value_among layer.now.site.place field.now (find field.now.name.bytes (wants wanted.now v.later)) v)) scopes.old checker.old scopes.new checker.new result }
    ensures ready { OnOk result (Ready checker.new scopes.new layer.now.site) }
{
    match field_named(wanted, field.name.bytes.as_slice()) {
        Some(of) => wanted_value(layer, checker, scopes, field, of),
        None => own_value(layer, checker, scopes, field),
    }
}
