//! A form as a number, a detail and its parts, by which forms are compared and hashed.
ghost use Rattle.std.specs.Prelude.{◌≡◌, [], ◌∷◌, fold};
ghost use Rattle.std.specs.Hash as fed;
ghost use Rattle.std.proofs.Common.{ap};
ghost use Rattle.type_terms.specs.Laid.{seen};
ghost use Rattle.mo_types.specs.Layout.{mix};
ghost use Rattle.type_terms.specs.Layouts.{digest, layout, mix_field, mix_part, same_field, same_fields, same_form, same_parts};
ghost use Rattle.type_terms.specs.Same.{form_decides};
ghost use Rattle.mo_types.specs.Same.{decided_equivalence, decided_partial};

use crate::{Form, TermId};
use mo_types::{Field, kind_number, label_id, sort_number};
use std::hash::{Hash, Hasher};
use std::slice;

/// What a form consists of.
#[derive(Drop)]
pub(crate) struct Laid<'a> {
    form: u8,
    detail: u32,
    first: &'a [TermId],
    second: &'a [TermId],
    fields: &'a [Field<TermId>],
}

impl<'a> Laid<'a> {
    /// The parts that stand first.
    pub(crate) fn first(&self) -> &'a [TermId]
        ensures { result.now ≡ self.now.first.now }
    {
        self.first
    }

    /// Those behind them.
    pub(crate) fn second(&self) -> &'a [TermId]
        ensures { result.now ≡ self.now.second.now }
    {
        self.second
    }

    /// The fields.
    pub(crate) fn fields(&self) -> &'a [Field<TermId>]
        ensures { result.now ≡ self.now.fields.now }
    {
        self.fields
    }
}

fn plain<'a>(form: u8) -> Laid<'a>
    ensures { seen result ≡ record { form = form; detail = 0; first = []; second = []; fields = [] } }
{
    Laid {
        form,
        detail: 0,
        first: &[],
        second: &[],
        fields: &[],
    }
}

fn with_parts<'a>(form: u8, detail: u32, first: &'a [TermId]) -> Laid<'a>
    ensures { seen result ≡ record { form = form; detail = detail; first = first.now; second = []; fields = [] } }
{
    Laid {
        form,
        detail,
        first,
        second: &[],
        fields: &[],
    }
}

fn with_fields<'a>(form: u8, fields: &'a [Field<TermId>]) -> Laid<'a>
    ensures { seen result ≡ record { form = form; detail = 0; first = []; second = []; fields = fields.now } }
{
    Laid {
        form,
        detail: 0,
        first: &[],
        second: &[],
        fields,
    }
}

fn with_result<'a>(form: u8, detail: u32, first: &'a [TermId], result_part: &'a TermId) -> Laid<'a>
    ensures { seen result ≡ record { form = form; detail = detail; first = first.now; second = result_part.now ∷ []; fields = [] } }
{
    Laid {
        form,
        detail,
        first,
        second: slice::from_ref(result_part),
        fields: &[],
    }
}

impl Form {
    #[tactic(auto, unfolding(crate::specs::Layouts::layout))]
    pub(crate) fn laid(&self) -> Laid<'_>
        ensures { seen result ≡ layout self.now }
    {
        match self {
            Form::Number(kind) => with_parts(0, kind_number(*kind), &[]),
            Form::Boolean => plain(1),
            Form::Character => plain(2),
            Form::Text => plain(3),
            Form::Blob => plain(4),
            Form::Principal => plain(5),
            Form::Error => plain(6),
            Form::Null => plain(7),
            Form::Any => plain(8),
            Form::Bottom => plain(9),
            Form::Optional(part) => with_parts(10, 0, slice::from_ref(part)),
            Form::Array(part) => with_parts(11, 0, slice::from_ref(part)),
            Form::MutableArray(part) => with_parts(12, 0, slice::from_ref(part)),
            Form::Tuple(parts) => with_parts(13, 0, parts.as_slice()),
            Form::Object(fields) => with_fields(14, fields.as_slice()),
            Form::Actor(fields) => with_fields(15, fields.as_slice()),
            Form::Variant(fields) => with_fields(16, fields.as_slice()),
            Form::Function(parameters, part) => with_result(17, 0, parameters.as_slice(), part),
            Form::Shared(sort, parameters, part) => with_result(
                18,
                sort_number(*sort),
                parameters.as_slice(),
                part,
            ),
            Form::Async(part) => with_parts(19, 0, slice::from_ref(part)),
            Form::Parameter(at) => with_parts(20, *at, &[]),
            Form::Use(at, arguments) => with_parts(21, *at, arguments.as_slice()),
        }
    }
}

fn parts_equal(a: &[TermId], b: &[TermId]) -> bool
    ensures { result ≡ same_parts a.now b.now }
{
    a == b
}

fn field_equals(a: &Field<TermId>, b: &Field<TermId>) -> bool
    ensures { result ≡ same_field a.now b.now }
{
    a.label.as_slice() == b.label.as_slice() && a.mutable == b.mutable && a.part == b.part
}

fn fields_equal(a: &[Field<TermId>], b: &[Field<TermId>]) -> bool
    ensures { result ≡ same_fields a.now b.now }
{
    if a.len() != b.len() {
        return false;
    }
    for i in 0..a.len() {
        if !field_equals(&a[i], &b[i]) {
            return false;
        }
    }
    true
}

impl PartialEq for Form {
    ghost eq = { same_form };

    ghost laws = { decided_partial form_decides };

    fn eq(&self, other: &Form) -> bool {
        let a = self.laid();
        let b = other.laid();
        a.form == b.form
            && a.detail == b.detail
            && parts_equal(a.first, b.first)
            && parts_equal(a.second, b.second)
            && fields_equal(a.fields, b.fields)
    }
}

impl Eq for Form {
    ghost laws = { decided_equivalence form_decides };
}

fn mix(digest: u32, x: u32) -> u32
    ensures { result ≡ mix digest x }
{
    ((digest as u64 * 31 + x as u64) % 0x1_0000_0000) as u32
}

fn mix_parts(digest: u32, parts: &[TermId]) -> u32
    ensures { result ≡ fold mix_part digest parts.now }
{
    let mut mixed = digest;
    for part in parts {
        mixed = mix(mixed, part.index);
    }
    mixed
}

fn mix_fields(digest: u32, fields: &[Field<TermId>]) -> u32
    ensures { result ≡ fold mix_field digest fields.now }
{
    let mut mixed = digest;
    for field in fields {
        mixed = mix(
            mix(mixed, label_id(field.label.as_slice())),
            field.part.index,
        );
    }
    mixed
}

impl Form {
    #[tactic(auto, unfolding(crate::specs::Layouts::digest))]
    fn digest(&self) -> u32
        ensures { result ≡ digest self.now }
    {
        let laid = self.laid();
        let head = mix(laid.form as u32, laid.detail);
        let parts = mix_parts(mix_parts(head, laid.first), laid.second);
        mix_fields(parts, laid.fields)
    }
}

impl Hash for Form {
    ghost hash_input = { λ f. fed.u32 (digest f) };

    ghost respects_eq = { λ a b h. ap (λ f. fed.u32 (digest f)) ((form_decides a b).0 h) };

    fn hash<H: Hasher>(&self, state: &mut H) {
        state.write_u32(self.digest());
    }
}
