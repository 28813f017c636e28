//! Public functions.
ghost use Rattle.std.specs.Prelude.{◌≡◌, ◌++◌, IfOk, OnOk};
ghost use Rattle.mo_types.specs.Sub.{Each};
ghost use Rattle.abstract_tree.specs.TreeView.{declaration_form};
ghost use Rattle.type_definitions.specs.Meanings.{term};
ghost use Rattle.value_scopes.specs.Values.{noted};
ghost use Rattle.desugaring.specs.Programs as programs;
ghost use Rattle.judged_parts.specs.Parts.{See};
ghost use Rattle.kernel_types.specs.Numbers.{definitions, number};
ghost use Rattle.kernel_parts.specs.Views.{list_in};
ghost use Rattle.kernel_parts.specs.Writing.{Writes};
ghost use Rattle.kernel_roles.specs.Roles.{role_of};
ghost use Rattle.kernel_methods.specs.Shared.{HasShared, IsShared, SharedIn};
ghost use Rattle.kernel_methods.specs.Methods.{context_in, function_in, made_of, method_in, methods_at, nodes_seen};

use crate::bodies::method_body;
use crate::heads::{method_parameters, method_results};
use abstract_tree::{Declaration, DeclarationForm, Expression};
use abstract_types::{Pattern, Signature};
use kernel_counts::{count_context, count_expression, count_patterns};
use kernel_frames::Frames;
use kernel_parts::{Layer, Part, Written};
use kernel_patterns::{kernel_pattern, kernel_patterns};
use kernel_roles::{Role, actor_role};
use kernel_types::KernelTypes;
use mo_num::{Bytes, Memory, Sequence};
use mo_syntax::Items;
use mo_types::Sort;
use std::alloc::Global;
use type_terms::TermId;
use typed_tree::{Function, Method, TypedPattern};
use value_scopes::Note;

fn method_sort(query: bool) -> Sort
    ensures { result ≡ programs.method_sort query }
{
    if query { Sort::Query } else { Sort::Shared }
}

/// The pattern of the context, where there is one.
fn context_pattern(
    alloc: Global,
    types: &KernelTypes,
    context: &Option<Pattern<Note>>,
) -> Result<Option<TypedPattern>, Memory>
    ensures { IfOk result (λ made. made ≡ context_in types.now context.now) }
{
    match context {
        None => Ok(None),
        Some(q) => {
            let made = kernel_pattern(alloc, types, q)?;
            Ok(Some(made))
        }
    }
}

/// The nodes of the context, the parameters and the body, as they are written.
fn method_nodes(
    context: &Option<Pattern<Note>>,
    of: &Signature<Note>,
    body: &Expression<Note>,
) -> Result<u32, Memory>
    ensures { (see : See) → IfOk result (λ nodes. nodes ≡ nodes_seen see context.now of.now body.now) }
{
    let first = count_context(context, 0)?;
    let second = count_patterns(of.parameters.as_slice(), first)?;
    count_expression(body, second)
}

/// What a public function does.
fn method_function<F: Fn(&mut Frames, Part<'_>) -> Written>(
    layer: &Layer<'_, F>,
    frames: &mut Frames,
    query: bool,
    context: &Option<Pattern<Note>>,
    of: &Signature<Note>,
    body: &Expression<Note>,
) -> Result<Function, Memory>
    requires writes { Writes layer.now.depth (F.pre layer.now.write) (F.post layer.now.write) }
    ensures made { IfOk result (λ made. made ≡ function_in layer.now.types.now frames.old query context.now of.now body.now) }
    ensures same { OnOk result (frames.new ≡ frames.old) }
{
    let nodes = method_nodes(context, of, body)?;
    let parameters = kernel_patterns(layer.alloc, layer.types, of.parameters.as_slice())?;
    let made = method_body(layer, frames, context, of.parameters.as_slice(), body)?;
    Ok(Function {
        sort: method_sort(query),
        type_parameters: Sequence::new(layer.alloc),
        nodes,
        parameters,
        body: made,
    })
}

/// A public function from what it does.
fn made_method(
    alloc: Global,
    types: &KernelTypes,
    kind: TermId,
    context: &Option<Pattern<Note>>,
    name: &[u8],
    function: Function,
) -> Result<Method, Memory>
    requires { IsShared (term types.now.forms kind) }
    ensures { IfOk result (λ made. made ≡ made_of types.now kind context.now name.now function) }
{
    let name = Bytes::from_slice(alloc, name)?;
    let context = context_pattern(alloc, types, context)?;
    let parameters = method_parameters(alloc, types, kind)?;
    let results = method_results(alloc, types, kind)?;
    Ok(Method {
        name,
        context,
        parameters,
        results,
        function,
    })
}

/// `public shared query ({caller}) func f(p) : async A { .. }`, where the type of `f` is of this number: Motoko language manual, section "Shared
/// functions".
fn method<F: Fn(&mut Frames, Part<'_>) -> Written>(
    layer: &Layer<'_, F>,
    frames: &mut Frames,
    kind: TermId,
    query: bool,
    context: &Option<Pattern<Note>>,
    name: &[u8],
    of: &Signature<Note>,
    body: &Expression<Note>,
) -> Result<Method, Memory>
    requires writes { Writes layer.now.depth (F.pre layer.now.write) (F.post layer.now.write) }
    requires shared { IsShared (term layer.now.types.now.forms kind) }
    ensures made { IfOk result (λ made. made ≡ method_in layer.now.types.now frames.old kind query context.now name.now of.now body.now) }
    ensures same { OnOk result (frames.new ≡ frames.old) }
{
    let function = method_function(layer, frames, query, context, of, body)?;
    made_method(layer.alloc, layer.types, kind, context, name, function)
}

/// Adds the declaration, if it is a public function.
fn push_method<F: Fn(&mut Frames, Part<'_>) -> Written>(
    layer: &Layer<'_, F>,
    frames: &mut Frames,
    note: Note,
    form: &DeclarationForm<Note>,
    made: &mut Items<Method>,
) -> Result<(), Memory>
    requires writes { Writes layer.now.depth (F.pre layer.now.write) (F.post layer.now.write) }
    requires shared { HasShared (term layer.now.types.now.forms note.kind) (role_of (declaration_form (noted layer.now.types.now.forms) form.now)) }
    ensures made { OnOk result (made.new ≡ made.old ++ methods_at layer.now.types.now frames.old (term layer.now.types.now.forms note.kind) (role_of (declaration_form (noted layer.now.types.now.forms) form.now))) }
    ensures same { OnOk result (frames.new ≡ frames.old) }
{
    match actor_role(form) {
        Role::Method(query, context, name, of, body) => {
            let one = method(
                layer,
                frames,
                note.kind,
                query,
                context,
                name.as_slice(),
                of,
                body,
            )?;
            made.push(one)
        }
        Role::System(_, _) => Ok(()),
        Role::Stable(_) => Ok(()),
        Role::Function => Ok(()),
        Role::Other => Ok(()),
    }
}

/// The public functions, in source order: Motoko language manual, section "Actors". Each has the type of a shared function noted at it.
pub fn methods<F: Fn(&mut Frames, Part<'_>) -> Written>(
    layer: &Layer<'_, F>,
    frames: &mut Frames,
    fields: &[Declaration<Note>],
) -> Result<Items<Method>, Memory>
    requires writes { Writes layer.now.depth (F.pre layer.now.write) (F.post layer.now.write) }
    requires shared { Each (SharedIn layer.now.types.now) fields.now }
    ensures made { IfOk result (λ made. made ≡ programs.methods_of (definitions layer.now.types.now) (number layer.now.types.now) frames.old (list_in layer.now.types.now fields.now)) }
    ensures same { OnOk result (frames.new ≡ frames.old) }
{
    let mut made = Items::new(layer.alloc);
    for one in fields {
        push_method(layer, frames, one.note, one.form.get(), &mut made)?;
    }
    Ok(made)
}
