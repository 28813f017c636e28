//! Types that are made of their parts: Motoko language manual, section "Types".
ghost use Rattle.std.specs.Prelude.{◌≡◌, length, map, IfOk};
ghost use Rattle.mo_types.specs.Sub.{Each};
ghost use Rattle.type_terms.specs.Tables.{PartsBelow};
ghost use Rattle.typing_rules.specs.Terms.{unit, unlisted};
ghost use Rattle.typing_rules.specs.Terms as rules;
ghost use Rattle.type_definitions.specs.Tables.{Within};
ghost use Rattle.met_types.specs.States.{Kept};
ghost use Rattle.written_types.specs.Written.{Interned, Wrote, WroteEach};

use met_types::Types;
use mo_num::{Memory, Sequence};
use mo_types::{Field, Sort};
use type_terms::{Form, TermId};

/// The term of a form.
fn intern(types: &mut Types, form: Form) -> Result<TermId, Memory>
    requires kept { Kept types.old }
    requires below { PartsBelow (length types.old.forms) form }
    ensures { IfOk result (Interned types.old types.new form) }
{
    match types.intern(form) {
        Ok(id) => Ok(id),
        Err(memory) => Err(memory),
    }
}

/// The type above all.
#[tactic(auto, unfolding(type_terms::specs::Layouts::layout))]
pub fn any(types: &mut Types) -> Result<TermId, Memory>
    requires { Kept types.old }
    ensures { IfOk result (Wrote types.old types.new rules.Any) }
{
    intern(types, Form::Any)
}

/// The type below all, `None`.
#[tactic(auto, unfolding(type_terms::specs::Layouts::layout))]
pub fn bottom(types: &mut Types) -> Result<TermId, Memory>
    requires { Kept types.old }
    ensures { IfOk result (Wrote types.old types.new rules.Bottom) }
{
    intern(types, Form::Bottom)
}

/// `()`
#[tactic(auto, unfolding(type_terms::specs::Layouts::layout))]
pub fn unit(types: &mut Types) -> Result<TermId, Memory>
    requires { Kept types.old }
    ensures { IfOk result (Wrote types.old types.new unit) }
{
    let nothing = Sequence::new(types.terms().allocator());
    intern(types, Form::Tuple(nothing))
}

/// `(A, .., B) -> C`
pub fn function(
    types: &mut Types,
    parameters: Sequence<TermId>,
    of: TermId,
) -> Result<TermId, Memory>
    requires kept { Kept types.old }
    requires parameters { Each (Within types.old.forms) parameters }
    requires within { Within types.old.forms of }
    ensures { IfOk result (Interned types.old types.new (Form.Function parameters of)) }
{
    intern(types, Form::Function(parameters, of))
}

/// `shared (A, .., B) -> async C`
pub fn shared(
    types: &mut Types,
    sort: Sort,
    parameters: Sequence<TermId>,
    of: TermId,
) -> Result<TermId, Memory>
    requires kept { Kept types.old }
    requires parameters { Each (Within types.old.forms) parameters }
    requires within { Within types.old.forms of }
    ensures { IfOk result (Interned types.old types.new (Form.Shared sort parameters of)) }
{
    intern(types, Form::Shared(sort, parameters, of))
}

/// The type of objects with these fields.
#[tactic(auto, unfolding(type_terms::specs::Layouts::layout))]
pub fn object(types: &mut Types, fields: Sequence<Field<TermId>>) -> Result<TermId, Memory>
    requires kept { Kept types.old }
    requires within { Each (Within types.old.forms) (map (λ f. f.part) fields) }
    ensures { IfOk result (Interned types.old types.new (Form.Object fields)) }
{
    intern(types, Form::Object(fields))
}

/// The type of actors with these methods.
#[tactic(auto, unfolding(type_terms::specs::Layouts::layout))]
pub fn actor(types: &mut Types, methods: Sequence<Field<TermId>>) -> Result<TermId, Memory>
    requires kept { Kept types.old }
    requires within { Each (Within types.old.forms) (map (λ f. f.part) methods) }
    ensures { IfOk result (Interned types.old types.new (Form.Actor methods)) }
{
    intern(types, Form::Actor(methods))
}

/// A type parameter.
#[tactic(auto, unfolding(type_terms::specs::Layouts::layout))]
fn parameter(types: &mut Types, at: u32) -> Result<TermId, Memory>
    requires { Kept types.old }
    ensures { IfOk result (Wrote types.old types.new (rules.Parameter at)) }
{
    intern(types, Form::Parameter(at))
}

fn parameters(types: &mut Types, places: &[u32]) -> Result<Sequence<TermId>, Memory>
    requires { Kept types.old }
    ensures { IfOk result (WroteEach types.old types.new (map rules.Parameter places.now)) }
{
    let mut made = Sequence::new(types.terms().allocator());
    for at in places {
        made.push(parameter(types, *at)?)?;
    }
    Ok(made)
}

/// The type of the objects of the class whose name is this token, where these are the type parameters in scope.
pub fn class(types: &mut Types, at: u32, places: &[u32]) -> Result<TermId, Memory>
    requires { Kept types.old }
    ensures { IfOk result (Wrote types.old types.new (rules.Use at (unlisted (map rules.Parameter places.now)))) }
{
    let arguments = parameters(types, places)?;
    intern(types, Form::Use(at, arguments))
}
