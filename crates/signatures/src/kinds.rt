//! The type of contexts.
ghost use Rattle.std.specs.Prelude.{◌≡◌, IfOk};
ghost use Rattle.typing_rules.specs.Signatures.{context_type};
ghost use Rattle.met_types.specs.States.{Kept};
ghost use Rattle.written_types.specs.Written.{Interned, Wrote};
ghost use Rattle.type_terms.specs.declared.form.Form.TheVariants as form;

use met_types::Types;
use mo_num::{Bytes, Memory, Sequence};
use mo_types::Field;
use type_terms::{Form, TermId};
use written_kinds::object;

/// `Principal`
#[tactic(auto, unfolding(type_terms::specs::Layouts::layout))]
fn principal(types: &mut Types) -> Result<TermId, Memory>
    requires { Kept types.old }
    ensures { IfOk result (Interned types.old types.new form.Principal) }
{
    match types.intern(Form::Principal) {
        Ok(id) => Ok(id),
        Err(memory) => Err(memory),
    }
}

/// The type of a call's context, `{ caller : Principal }`.
pub(crate) fn context(types: &mut Types) -> Result<TermId, Memory>
    requires { Kept types.old }
    ensures { IfOk result (Wrote types.old types.new context_type) }
{
    let part = principal(types)?;
    let mut fields = Sequence::new(types.terms().allocator());
    fields.push(Field {
        label: Bytes::from_slice(types.terms().allocator(), b"caller".as_slice())?,
        mutable: false,
        part,
    })?;
    object(types, fields)
}
