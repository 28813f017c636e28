//! The uses of names of types.
ghost use Rattle.std.specs.Prelude.{◌≡◌, List, IfOk};
ghost use Rattle.mo_types.specs.Sub.{Each};
ghost use Rattle.typing_rules.specs.TypeScopes.{type_named};
ghost use Rattle.type_definitions.specs.Tables.{Within};
ghost use Rattle.met_types.specs.States.{Kept, State};
ghost use Rattle.type_scopes.specs.Scopes.{seen};
ghost use Rattle.written_types.specs.Written.{Interned, Plain, Used, WithOuter};

use crate::forms::intern;
use met_types::Types;
use mo_num::{Kind, Memory, Sequence};
use mo_scopes::BuiltInType;
use type_scopes::{TypeName, TypeScope, built_in_type};
use type_terms::{Form, TermId};

/// The form of the built-in type of this name. A name that is not declared is built in.
#[tactic(auto, unfolding(type_terms::specs::Layouts::layout))]
fn built_in_form(name: &[u8]) -> Form
    ensures { Plain name.now result }
{
    match built_in_type(name) {
        None => Form::Bottom,
        Some(BuiltInType::Nat) => Form::Number(Kind::Nat),
        Some(BuiltInType::Int) => Form::Number(Kind::Int),
        Some(BuiltInType::Nat8) => Form::Number(Kind::Nat8),
        Some(BuiltInType::Nat16) => Form::Number(Kind::Nat16),
        Some(BuiltInType::Nat32) => Form::Number(Kind::Nat32),
        Some(BuiltInType::Nat64) => Form::Number(Kind::Nat64),
        Some(BuiltInType::Int8) => Form::Number(Kind::Int8),
        Some(BuiltInType::Int16) => Form::Number(Kind::Int16),
        Some(BuiltInType::Int32) => Form::Number(Kind::Int32),
        Some(BuiltInType::Int64) => Form::Number(Kind::Int64),
        Some(BuiltInType::Bool) => Form::Boolean,
        Some(BuiltInType::Char) => Form::Character,
        Some(BuiltInType::Text) => Form::Text,
        Some(BuiltInType::Blob) => Form::Blob,
        Some(BuiltInType::Principal) => Form::Principal,
        Some(BuiltInType::Null) => Form::Null,
        Some(BuiltInType::Any) => Form::Any,
        Some(BuiltInType::None) => Form::Bottom,
        Some(BuiltInType::Error) => Form::Error,
    }
}

/// A type parameter.
#[tactic(auto, unfolding(type_terms::specs::Layouts::layout))]
fn parameter(types: &mut Types, at: u32) -> Result<TermId, Memory>
    requires { Kept types.old }
    ensures { IfOk result (Interned types.old types.new (Form.Parameter at)) }
{
    intern(types, Form::Parameter(at))
}

/// The parameters in scope at a definition, and then the arguments of its use.
fn with_outer(
    types: &mut Types,
    outer: &[u32],
    arguments: &[TermId],
) -> Result<Sequence<TermId>, Memory>
    requires kept { Kept types.old }
    requires within { Each (Within types.old.forms) arguments.now }
    ensures { IfOk result (WithOuter types.old types.new outer.now arguments.now) }
{
    let mut made = Vec::new(types.terms().allocator());
    for at in outer {
        made.push(parameter(types, *at)?)?;
    }
    made.extend_from_slice(arguments)?;
    Ok(Sequence::from_vec(made))
}

/// The built-in type of this name.
fn built_in(types: &mut Types, name: &[u8]) -> Result<TermId, Memory>
    requires { Kept types.old }
    ensures { IfOk result (λ id. (f : Form) × Plain name.now f × Interned types.old types.new f id) }
{
    intern(types, built_in_form(name))
}

/// The use of a definition at the parameters in scope there and then at these arguments.
fn use_of(types: &mut Types, at: u32, outer: &[u32], arguments: &[TermId]) -> Result<TermId, Memory>
    requires kept { Kept types.old }
    requires within { Each (Within types.old.forms) arguments.now }
    ensures { IfOk result (λ id. (ids : List TermId) × (mid : State) × WithOuter types.old mid outer.now arguments.now ids × Interned mid types.new (Form.Use at ids) id) }
{
    let arguments = with_outer(types, outer, arguments)?;
    intern(types, Form::Use(at, arguments))
}

/// The use of a name at these arguments.
pub(crate) fn used(
    scope: &TypeScope,
    types: &mut Types,
    name: &[u8],
    arguments: &[TermId],
) -> Result<TermId, Memory>
    requires kept { Kept types.old }
    requires within { Each (Within types.old.forms) arguments.now }
    ensures { IfOk result (Used types.old types.new name.now (type_named (seen scope.now) name.now) arguments.now) }
{
    match scope.find(name) {
        None => built_in(types, name),
        Some(TypeName::Parameter(at)) => parameter(types, at),
        Some(TypeName::Definition(at, outer, _)) => use_of(types, at, outer, arguments),
    }
}
