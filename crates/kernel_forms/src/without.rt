//! Forms without parts.
ghost use Rattle.std.specs.Prelude.{◌≡◌, IfOk};
ghost use Rattle.typing_rules.specs.AbstractSyntax as syntax;
ghost use Rattle.typing_rules.specs.Spans.{literal_of};
ghost use Rattle.desugaring.specs.Frames.{Frame};
ghost use Rattle.desugaring.specs.Nodes as nodes;
ghost use Rattle.kernel_parts.specs.Views.{form_of};

use kernel_frames::{Frames, Leaving};
use kernel_nodes::{acts, constant as constant_value, leaves, of_names, tagged, unit_value};
use kernel_parts::Written;
use kernel_patterns::kernel_literal;
use kernel_principals::principal;
use kernel_types::KernelTypes;
use mo_scopes::Member;
use mo_syntax::{Items, Literal};
use std::alloc::Global;
use typed_tree::Action;
use value_scopes::Note;

/// A literal: Motoko language manual, section "Literals".
pub fn constant(alloc: Global, types: &KernelTypes, note: Note, literal: &Literal) -> Written
    ensures { (f : Frame) → IfOk result (λ made. made ≡ form_of types.now f note (syntax.Constant (literal_of literal.now))) }
{
    let value = kernel_literal(alloc, types, note.kind, false, literal)?;
    constant_value(alloc, types, note.kind, value)
}

/// A name: Motoko language manual, section "Identifiers".
pub fn name(alloc: Global, types: &KernelTypes, frames: &Frames, note: Note, name: &[u8]) -> Written
    ensures { IfOk result (λ made. made ≡ form_of types.now frames.now note (syntax.Name name.now)) }
{
    let found = frames.find(name);
    of_names(alloc, types, note.kind, found.index, found.is_cell)
}

/// `#x`: Motoko language manual, section "Variants".
pub fn tag(alloc: Global, types: &KernelTypes, note: Note, name: &[u8]) -> Written
    ensures { (f : Frame) → IfOk result (λ made. made ≡ form_of types.now f note (syntax.Tag name.now)) }
{
    let value = unit_value(alloc, types)?;
    tagged(alloc, types, note.kind, name, value)
}

/// `break x`: Motoko language manual, section "Break".
pub fn breaking(
    alloc: Global,
    types: &KernelTypes,
    frames: &Frames,
    note: Note,
    name: &[u8],
) -> Written
    ensures { IfOk result (λ made. made ≡ form_of types.now frames.now note (syntax.Break name.now)) }
{
    let exits = frames.find_exit(Leaving::Label(name));
    let value = unit_value(alloc, types)?;
    leaves(alloc, types, note.kind, exits, value)
}

/// `continue x`: Motoko language manual, section "Continue".
pub fn continuing(
    alloc: Global,
    types: &KernelTypes,
    frames: &Frames,
    note: Note,
    name: &[u8],
) -> Written
    ensures { IfOk result (λ made. made ≡ form_of types.now frames.now note (syntax.Continue name.now)) }
{
    let exits = frames.find_exit(Leaving::Loop(name));
    let value = unit_value(alloc, types)?;
    leaves(alloc, types, note.kind, exits, value)
}

/// `return`: Motoko language manual, section "Return".
pub fn returning(alloc: Global, types: &KernelTypes, frames: &Frames, note: Note) -> Written
    ensures { IfOk result (λ made. made ≡ form_of types.now frames.now note (syntax.Return)) }
{
    let exits = frames.find_exit(Leaving::Function);
    let value = unit_value(alloc, types)?;
    leaves(alloc, types, note.kind, exits, value)
}

/// The built-in function that a member of a module is.
fn built_in(member: Member) -> typed_tree::Member
    ensures { result ≡ nodes.built_in member }
{
    match member {
        Member::DebugPrint => typed_tree::Member::DebugPrint,
        Member::DebugTrap => typed_tree::Member::DebugTrap,
        Member::ErrorReject => typed_tree::Member::ErrorReject,
        Member::ErrorMessage => typed_tree::Member::ErrorMessage,
        Member::ErrorCode => typed_tree::Member::ErrorCode,
        Member::NatToText => typed_tree::Member::NatToText,
        Member::IntToText => typed_tree::Member::IntToText,
        Member::ArrayTabulate => typed_tree::Member::ArrayTabulate,
        Member::ArrayInit => typed_tree::Member::ArrayInit,
        Member::ArrayFreeze => typed_tree::Member::ArrayFreeze,
        Member::ArrayThaw => typed_tree::Member::ArrayThaw,
        Member::PrincipalFromActor => typed_tree::Member::PrincipalFromActor,
    }
}

/// A member of a module of the base library.
pub fn built_in_member(alloc: Global, types: &KernelTypes, note: Note, member: Member) -> Written
    ensures { (f : Frame) → IfOk result (λ made. made ≡ form_of types.now f note (syntax.BuiltIn member)) }
{
    let action = Action::BuiltIn(built_in(member));
    acts(alloc, types, note.kind, action, Items::new(alloc))
}

/// `actor "id"`: Motoko language manual, section "Actor references".
pub fn actor_reference(alloc: Global, types: &KernelTypes, note: Note, text: &[u8]) -> Written
    ensures { (f : Frame) → IfOk result (λ made. made ≡ form_of types.now f note (syntax.ActorReference text.now)) }
{
    let read = principal(alloc, text)?;
    constant_value(alloc, types, note.kind, typed_tree::Literal::Actor(read))
}
