//! The types of members of modules of the base library.
ghost use Rattle.std.specs.Prelude.{◌≡◌, ◌∷◌, [], IfOk};
ghost use Rattle.mo_scopes.specs.declared.library.Member.TheVariants as members;
ghost use Rattle.type_terms.specs.Layouts.{parts};
ghost use Rattle.typing_rules.specs.Members as rules;
ghost use Rattle.met_types.specs.States.{Kept};
ghost use Rattle.built_in_members.specs.Written.{Writes, WritesArrays, WritesBound, plain_term};

use crate::errors::error_code;
use crate::writing::{array, function, mutable_array, plain};
use met_types::Types;
use mo_num::{Kind, Memory, Sequence};
use mo_scopes::Member;
use std::alloc::Global;
use type_terms::{Form, TermId};
use value_scopes::Bound;

/// `A -> B` of types that have no parts.
fn plain_function(types: &mut Types, parameter: Form, given: Form) -> Result<TermId, Memory>
    requires kept { Kept types.old }
    requires parameter { parts parameter ≡ [] }
    requires given { parts given ≡ [] }
    ensures { IfOk result (λ id. Writes types.old (rules.function (plain_term parameter ∷ []) (plain_term given)) id types.new) }
{
    let from = plain(types, parameter)?;
    let to = plain(types, given)?;
    function(types, &[from], to)
}

/// `Text -> ()`
#[tactic(auto, unfolding(type_terms::specs::Layouts::layout))]
fn printing(types: &mut Types) -> Result<TermId, Memory>
    requires { Kept types.old }
    ensures { IfOk result (λ id. Writes types.old (rules.member_bound members.DebugPrint).type id types.new) }
{
    let unit = Form::Tuple(Sequence::new(types.terms().allocator()));
    plain_function(types, Form::Text, unit)
}

/// `(actor {}) -> Principal`
#[tactic(auto, unfolding(type_terms::specs::Layouts::layout))]
fn from_actor(types: &mut Types) -> Result<TermId, Memory>
    requires { Kept types.old }
    ensures { IfOk result (λ id. Writes types.old (rules.member_bound members.PrincipalFromActor).type id types.new) }
{
    let any_actor = Form::Actor(Sequence::new(types.terms().allocator()));
    plain_function(types, any_actor, Form::Principal)
}

/// `Error -> {..}`
#[tactic(auto, unfolding(type_terms::specs::Layouts::layout))]
fn coding(types: &mut Types) -> Result<TermId, Memory>
    requires { Kept types.old }
    ensures { IfOk result (λ id. Writes types.old (rules.member_bound members.ErrorCode).type id types.new) }
{
    let code = error_code(types)?;
    let error = plain(types, Form::Error)?;
    function(types, &[error], code)
}

/// A type parameter of a member, and both arrays of it.
#[derive(Clone, Copy)]
struct ArrayKinds {
    element: TermId,
    array: TermId,
    mutable: TermId,
}

#[tactic(auto, unfolding(type_terms::specs::Layouts::layout))]
fn arrays(types: &mut Types) -> Result<ArrayKinds, Memory>
    requires { Kept types.old }
    ensures { IfOk result (λ made. WritesArrays types.old made.element made.array made.mutable types.new) }
{
    let element = plain(types, Form::Parameter(0))?;
    let array = array(types, element)?;
    let mutable = mutable_array(types, element)?;
    Ok(ArrayKinds {
        element,
        array,
        mutable,
    })
}

/// `(Nat, Nat -> T) -> [T]`
#[tactic(auto, unfolding(type_terms::specs::Layouts::layout))]
fn tabulating(types: &mut Types) -> Result<TermId, Memory>
    requires { Kept types.old }
    ensures { IfOk result (λ id. Writes types.old (rules.member_bound members.ArrayTabulate).type id types.new) }
{
    let made = arrays(types)?;
    let nat = plain(types, Form::Number(Kind::Nat))?;
    let step = function(types, &[nat], made.element)?;
    function(types, &[nat, step], made.array)
}

/// `(Nat, T) -> [var T]`
#[tactic(auto, unfolding(type_terms::specs::Layouts::layout))]
fn initializing(types: &mut Types) -> Result<TermId, Memory>
    requires { Kept types.old }
    ensures { IfOk result (λ id. Writes types.old (rules.member_bound members.ArrayInit).type id types.new) }
{
    let made = arrays(types)?;
    let nat = plain(types, Form::Number(Kind::Nat))?;
    function(types, &[nat, made.element], made.mutable)
}

/// `[var T] -> [T]`
fn freezing(types: &mut Types) -> Result<TermId, Memory>
    requires { Kept types.old }
    ensures { IfOk result (λ id. Writes types.old (rules.member_bound members.ArrayFreeze).type id types.new) }
{
    let made = arrays(types)?;
    function(types, &[made.mutable], made.array)
}

/// `[T] -> [var T]`
fn thawing(types: &mut Types) -> Result<TermId, Memory>
    requires { Kept types.old }
    ensures { IfOk result (λ id. Writes types.old (rules.member_bound members.ArrayThaw).type id types.new) }
{
    let made = arrays(types)?;
    function(types, &[made.array], made.mutable)
}

#[tactic(auto, unfolding(type_terms::specs::Layouts::layout))]
fn member_kind(types: &mut Types, member: Member) -> Result<TermId, Memory>
    requires { Kept types.old }
    ensures { IfOk result (λ id. Writes types.old (rules.member_bound member).type id types.new) }
{
    match member {
        Member::DebugPrint => printing(types),
        Member::DebugTrap => plain_function(types, Form::Text, Form::Bottom),
        Member::ErrorReject => plain_function(types, Form::Text, Form::Error),
        Member::ErrorMessage => plain_function(types, Form::Error, Form::Text),
        Member::ErrorCode => coding(types),
        Member::NatToText => plain_function(types, Form::Number(Kind::Nat), Form::Text),
        Member::IntToText => plain_function(types, Form::Number(Kind::Int), Form::Text),
        Member::ArrayTabulate => tabulating(types),
        Member::ArrayInit => initializing(types),
        Member::ArrayFreeze => freezing(types),
        Member::ArrayThaw => thawing(types),
        Member::PrincipalFromActor => from_actor(types),
    }
}

fn one_parameter(alloc: Global) -> Result<Sequence<u32>, Memory>
    ensures { IfOk result (λ made. made ≡ 0 ∷ []) }
{
    let mut made = Sequence::new(alloc);
    made.push(0)?;
    Ok(made)
}

/// The type parameters of a member of a module. Each is known by the number 0, at which no name of a type stands.
fn generics_of(alloc: Global, member: Member) -> Result<Sequence<u32>, Memory>
    ensures { IfOk result (λ made. made ≡ (rules.member_bound member).generics) }
{
    match member {
        Member::ArrayTabulate => one_parameter(alloc),
        Member::ArrayInit => one_parameter(alloc),
        Member::ArrayFreeze => one_parameter(alloc),
        Member::ArrayThaw => one_parameter(alloc),
        Member::DebugPrint => Ok(Sequence::new(alloc)),
        Member::DebugTrap => Ok(Sequence::new(alloc)),
        Member::ErrorReject => Ok(Sequence::new(alloc)),
        Member::ErrorMessage => Ok(Sequence::new(alloc)),
        Member::ErrorCode => Ok(Sequence::new(alloc)),
        Member::NatToText => Ok(Sequence::new(alloc)),
        Member::IntToText => Ok(Sequence::new(alloc)),
        Member::PrincipalFromActor => Ok(Sequence::new(alloc)),
    }
}

/// What a member of a module of the base library stands for: Motoko base library, modules Debug, Error, Nat, Int, Array and Principal.
pub fn member_bound(types: &mut Types, member: Member) -> Result<Bound, Memory>
    requires { Kept types.old }
    ensures bound { IfOk result (λ made. WritesBound types.old member made types.new) }
    ensures generics { IfOk result (λ made. made.generics ≡ (rules.member_bound member).generics) }
{
    let kind = member_kind(types, member)?;
    let generics = generics_of(types.terms().allocator(), member)?;
    Ok(Bound {
        kind,
        mutable: false,
        generics,
    })
}
