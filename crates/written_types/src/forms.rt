//! Forms put among the types of a program.
ghost use Rattle.std.specs.Prelude.{◌≡◌, [], length, IfOk, map};
ghost use Rattle.mo_types.specs.Sub.{Each};
ghost use Rattle.type_terms.specs.Tables.{PartsBelow};
ghost use Rattle.type_definitions.specs.Tables.{Within};
ghost use Rattle.met_types.specs.States.{Kept};
ghost use Rattle.written_types.specs.Written.{Interned};

use met_types::Types;
use mo_num::{Memory, Sequence};
use mo_types::{Field, Sort};
use type_terms::{Form, TermId};

/// The term of a form.
pub(crate) fn intern(types: &mut Types, form: Form) -> Result<TermId, Memory>
    requires kept { Kept types.old }
    requires below { PartsBelow (length types.old.forms) form }
    ensures { IfOk result (Interned types.old types.new form) }
{
    match types.intern(form) {
        Ok(id) => Ok(id),
        Err(memory) => Err(memory),
    }
}

/// `?A`
#[tactic(auto, unfolding(type_terms::specs::Layouts::layout))]
pub(crate) fn optional(types: &mut Types, of: TermId) -> Result<TermId, Memory>
    requires kept { Kept types.old }
    requires within { Within types.old.forms of }
    ensures { IfOk result (Interned types.old types.new (Form.Optional of)) }
{
    intern(types, Form::Optional(of))
}

/// `async A`
#[tactic(auto, unfolding(type_terms::specs::Layouts::layout))]
pub(crate) fn future(types: &mut Types, of: TermId) -> Result<TermId, Memory>
    requires kept { Kept types.old }
    requires within { Within types.old.forms of }
    ensures { IfOk result (Interned types.old types.new (Form.Async of)) }
{
    intern(types, Form::Async(of))
}

/// `[A]`
#[tactic(auto, unfolding(type_terms::specs::Layouts::layout))]
pub(crate) fn array(types: &mut Types, of: TermId) -> Result<TermId, Memory>
    requires kept { Kept types.old }
    requires within { Within types.old.forms of }
    ensures { IfOk result (Interned types.old types.new (Form.Array of)) }
{
    intern(types, Form::Array(of))
}

/// `[var A]`
#[tactic(auto, unfolding(type_terms::specs::Layouts::layout))]
pub(crate) fn mutable_array(types: &mut Types, of: TermId) -> Result<TermId, Memory>
    requires kept { Kept types.old }
    requires within { Within types.old.forms of }
    ensures { IfOk result (Interned types.old types.new (Form.MutableArray of)) }
{
    intern(types, Form::MutableArray(of))
}

/// `(A, .., B)`
pub(crate) fn tuple(types: &mut Types, items: Sequence<TermId>) -> Result<TermId, Memory>
    requires kept { Kept types.old }
    requires within { Each (Within types.old.forms) items }
    ensures { IfOk result (Interned types.old types.new (Form.Tuple items)) }
{
    intern(types, Form::Tuple(items))
}

/// `(A, .., B) -> C`
pub(crate) fn function(
    types: &mut Types,
    parameters: Sequence<TermId>,
    of: TermId,
) -> Result<TermId, Memory>
    requires kept { Kept types.old }
    requires parameters { Each (Within types.old.forms) parameters }
    requires within { Within types.old.forms of }
    ensures { IfOk result (Interned types.old types.new (Form.Function parameters of)) }
{
    intern(types, Form::Function(parameters, of))
}

/// `shared (A, .., B) -> async C`
pub(crate) fn shared(
    types: &mut Types,
    sort: Sort,
    parameters: Sequence<TermId>,
    of: TermId,
) -> Result<TermId, Memory>
    requires kept { Kept types.old }
    requires parameters { Each (Within types.old.forms) parameters }
    requires within { Within types.old.forms of }
    ensures { IfOk result (Interned types.old types.new (Form.Shared sort parameters of)) }
{
    intern(types, Form::Shared(sort, parameters, of))
}

/// The type of objects with these fields.
#[tactic(auto, unfolding(type_terms::specs::Layouts::layout))]
pub(crate) fn object(types: &mut Types, fields: Sequence<Field<TermId>>) -> Result<TermId, Memory>
    requires kept { Kept types.old }
    requires within { Each (Within types.old.forms) (map (λ f. f.part) fields) }
    ensures { IfOk result (Interned types.old types.new (Form.Object fields)) }
{
    intern(types, Form::Object(fields))
}

/// The type of variants with these tags.
#[tactic(auto, unfolding(type_terms::specs::Layouts::layout))]
pub(crate) fn variant(types: &mut Types, tags: Sequence<Field<TermId>>) -> Result<TermId, Memory>
    requires kept { Kept types.old }
    requires within { Each (Within types.old.forms) (map (λ f. f.part) tags) }
    ensures { IfOk result (Interned types.old types.new (Form.Variant tags)) }
{
    intern(types, Form::Variant(tags))
}

/// The type of actors with these methods.
#[tactic(auto, unfolding(type_terms::specs::Layouts::layout))]
pub(crate) fn actor(types: &mut Types, methods: Sequence<Field<TermId>>) -> Result<TermId, Memory>
    requires kept { Kept types.old }
    requires within { Each (Within types.old.forms) (map (λ f. f.part) methods) }
    ensures { IfOk result (Interned types.old types.new (Form.Actor methods)) }
{
    intern(types, Form::Actor(methods))
}
