//! Types that are written out as terms.
ghost use Rattle.std.specs.Prelude.{◌≡◌, List, [], length, IfOk};
ghost use Rattle.mo_types.specs.Sub.{Each};
ghost use Rattle.type_terms.specs.Layouts.{parts};
ghost use Rattle.type_terms.specs.Tables.{PartsBelow};
ghost use Rattle.typing_rules.specs.Terms.{Term, NoFields, constant};
ghost use Rattle.typing_rules.specs.Terms as terms;
ghost use Rattle.typing_rules.specs.Members as rules;
ghost use Rattle.type_definitions.specs.Tables.{Within};
ghost use Rattle.met_types.specs.States.{Kept};
ghost use Rattle.built_in_members.specs.Written.{AreWritten, IsTermIn, Writes, Written, plain_field, plain_term};

use met_types::Types;
use mo_num::{Bytes, Memory, Sequence};
use mo_types::Field;
use std::alloc::Global;
use type_terms::{Form, TermId, copy_parts};

/// The term of a form.
pub(crate) fn write(types: &mut Types, form: Form) -> Result<TermId, Memory>
    requires kept { Kept types.old }
    requires below { PartsBelow (length types.old.forms) form }
    ensures { (t : Term) → IsTermIn types.old form t → IfOk result (λ id. Writes types.old t id types.new) }
{
    types.intern(form)
}

/// A type that has no parts.
pub(crate) fn plain(types: &mut Types, form: Form) -> Result<TermId, Memory>
    requires kept { Kept types.old }
    requires plain { parts form ≡ [] }
    ensures { IfOk result (λ id. Writes types.old (plain_term form) id types.new) }
{
    write(types, form)
}

/// `(A, .., B) -> C`
pub(crate) fn function(
    types: &mut Types,
    parameters: &[TermId],
    given: TermId,
) -> Result<TermId, Memory>
    requires kept { Kept types.old }
    requires parameters { Each (Within types.old.forms) parameters.now }
    requires given { Within types.old.forms given }
    ensures { (ps : List Term) (r : Term) → AreWritten types.old parameters.now ps → Written types.old given r → IfOk result (λ id. Writes types.old (rules.function ps r) id types.new) }
{
    let parameters = copy_parts(types.terms().allocator(), parameters)?;
    write(types, Form::Function(parameters, given))
}

/// `[A]`
pub(crate) fn array(types: &mut Types, part: TermId) -> Result<TermId, Memory>
    requires kept { Kept types.old }
    requires part { Within types.old.forms part }
    ensures { (u : Term) → Written types.old part u → IfOk result (λ id. Writes types.old (terms.Array u) id types.new) }
{
    write(types, Form::Array(part))
}

/// `[var A]`
pub(crate) fn mutable_array(types: &mut Types, part: TermId) -> Result<TermId, Memory>
    requires kept { Kept types.old }
    requires part { Within types.old.forms part }
    ensures { (u : Term) → Written types.old part u → IfOk result (λ id. Writes types.old (terms.MutableArray u) id types.new) }
{
    write(types, Form::MutableArray(part))
}

/// `?A`
pub(crate) fn optional(types: &mut Types, part: TermId) -> Result<TermId, Memory>
    requires kept { Kept types.old }
    requires part { Within types.old.forms part }
    ensures { (u : Term) → Written types.old part u → IfOk result (λ id. Writes types.old (terms.Optional u) id types.new) }
{
    write(types, Form::Optional(part))
}

/// A field that is no `var` field, or a tag.
pub(crate) fn field(alloc: Global, label: &[u8], part: TermId) -> Result<Field<TermId>, Memory>
    ensures { IfOk result (λ made. made ≡ plain_field label.now part) }
{
    Ok(Field {
        label: Bytes::from_slice(alloc, label)?,
        mutable: false,
        part,
    })
}

/// `{label : A}`
pub(crate) fn object(types: &mut Types, label: &[u8], part: TermId) -> Result<TermId, Memory>
    requires kept { Kept types.old }
    requires part { Within types.old.forms part }
    ensures { (u : Term) → Written types.old part u → IfOk result (λ id. Writes types.old (terms.Object (constant label.now u NoFields)) id types.new) }
{
    let mut fields = Sequence::new(types.terms().allocator());
    fields.push(field(types.terms().allocator(), label, part)?)?;
    write(types, Form::Object(fields))
}
