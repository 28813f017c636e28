//! Functions.
ghost use Rattle.std.specs.Prelude.{◌≡◌, IfOk, OnOk, map};
ghost use Rattle.typing_rules.specs.AbstractSyntax as syntax;
ghost use Rattle.abstract_types.specs.PatternView.{signature};
ghost use Rattle.value_scopes.specs.Values.{noted};
ghost use Rattle.met_types.specs.States.{State};
ghost use Rattle.kernel_parts.specs.Views.{expression_in, form_of};
ghost use Rattle.kernel_parts.specs.Writing.{Writes};
ghost use Rattle.kernel_functions.specs.Functions.{function_in, made_of, nodes_of, parameter_of, unnamed_in};

use abstract_tree::Expression;
use abstract_types::{Signature, TypeParameter};
use kernel_counts::{count_expression, count_patterns};
use kernel_frames::Frames;
use kernel_nodes::alone;
use kernel_parts::{Layer, Part, Written};
use kernel_patterns::kernel_patterns;
use kernel_scopes::function_body;
use kernel_types::KernelTypes;
use mo_num::{Memory, Sequence};
use mo_types::{Sort, TypeId};
use std::alloc::Global;
use typed_tree::{Function, TypedExpression};
use value_scopes::Note;

/// The numbers of the type parameters.
fn type_parameters(
    alloc: Global,
    types: &KernelTypes,
    generics: &[TypeParameter],
) -> Result<Sequence<TypeId>, Memory>
    ensures { IfOk result (λ made. made ≡ map (parameter_of types.now) generics.now) }
{
    let mut made = Sequence::new(alloc);
    for one in generics {
        made.push(types.parameter(one.name.at)?)?;
    }
    Ok(made)
}

/// The nodes of the parameters and the body, as they are written. They are counted once more for each function around.
fn count(of: &Signature<Note>, body: &Expression<Note>) -> Result<u32, Memory>
    ensures { (s : State) → IfOk result (λ nodes. nodes ≡ nodes_of s of.now body.now) }
{
    let parameters = count_patterns(of.parameters.as_slice(), 0)?;
    count_expression(body, parameters)
}

/// A function of this signature that is no shared one, from its nodes and its body.
pub fn made_function(
    alloc: Global,
    types: &KernelTypes,
    of: &Signature<Note>,
    nodes: u32,
    body: TypedExpression,
) -> Result<Function, Memory>
    ensures { IfOk result (λ made. made ≡ made_of types.now of.now nodes body) }
{
    let type_parameters = type_parameters(alloc, types, of.generics.as_slice())?;
    let parameters = kernel_patterns(alloc, types, of.parameters.as_slice())?;
    Ok(Function {
        sort: Sort::Local,
        type_parameters,
        nodes,
        parameters,
        body,
    })
}

/// A function that is no shared one: Motoko language manual, section "Functions".
pub fn function_value<F: Fn(&mut Frames, Part<'_>) -> Written>(
    layer: &Layer<'_, F>,
    frames: &mut Frames,
    of: &Signature<Note>,
    body: &Expression<Note>,
) -> Result<Function, Memory>
    requires writes { Writes layer.now.depth (F.pre layer.now.write) (F.post layer.now.write) }
    ensures made { IfOk result (λ made. made ≡ function_in layer.now.types.now frames.old of.now body.now) }
    ensures same { OnOk result (frames.new ≡ frames.old) }
{
    let nodes = count(of, body)?;
    let made = function_body(layer, frames, of.parameters.as_slice(), body)?;
    made_function(layer.alloc, layer.types, of, nodes, made)
}

/// A function of a group of its own, which no name is found by.
fn unnamed_function<F: Fn(&mut Frames, Part<'_>) -> Written>(
    layer: &Layer<'_, F>,
    frames: &mut Frames,
    of: &Signature<Note>,
    body: &Expression<Note>,
) -> Result<Function, Memory>
    requires writes { Writes layer.now.depth (F.pre layer.now.write) (F.post layer.now.write) }
    ensures made { IfOk result (λ made. made ≡ unnamed_in layer.now.types.now frames.old of.now body.now) }
    ensures same { OnOk result (frames.new ≡ frames.old) }
{
    let mark = frames.mark();
    frames.push_unnamed()?;
    let made = function_value(layer, frames, of, body)?;
    frames.truncate(mark);
    Ok(made)
}

/// `func (p, q) : A { .. }`: Motoko language manual, section "Functions".
pub fn function<F: Fn(&mut Frames, Part<'_>) -> Written>(
    layer: &Layer<'_, F>,
    frames: &mut Frames,
    note: Note,
    of: &Signature<Note>,
    body: &Expression<Note>,
) -> Written
    requires writes { Writes layer.now.depth (F.pre layer.now.write) (F.post layer.now.write) }
    ensures made { IfOk result (λ made. made ≡ form_of layer.now.types.now frames.old note (syntax.Function (signature (noted layer.now.types.now.forms) of.now) (expression_in layer.now.types.now body.now))) }
    ensures same { OnOk result (frames.new ≡ frames.old) }
{
    let made = unnamed_function(layer, frames, of, body)?;
    alone(layer.alloc, layer.types, note.kind, made)
}
