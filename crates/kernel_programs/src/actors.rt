//! Actors, but for their types.
ghost use Rattle.std.specs.Prelude.{◌≡◌, IfOk, List, codes};
ghost use Rattle.mo_types.specs.Graph.{Slot};
ghost use Rattle.mo_types.specs.Sub.{Each};
ghost use Rattle.desugaring.specs.Programs.{methods_of, system_of};
ghost use Rattle.kernel_types.specs.Numbers.{definitions, number};
ghost use Rattle.kernel_parts.specs.Views.{list_in};
ghost use Rattle.kernel_parts.specs.Writing.{Writes, WritesLists};
ghost use Rattle.kernel_methods.specs.Shared.{SharedIn};
ghost use Rattle.kernel_programs.specs.Actors.{desugared_in, typed_by};

use abstract_tree::{Declaration, Program};
use kernel_frames::Frames;
use kernel_methods::{methods, system};
use kernel_outside::{around, own_nodes, push_functions, stable_variables};
use kernel_parts::{Arranged, Layer, ListPart, Lists, Part, Written, WrittenList};
use mo_num::{Memory, Sequence};
use mo_syntax::Items;
use mo_types::TypeGraph;
use std::alloc::Global;
use std::mem;
use typed_tree::{Function, Method, StableVariable, Step};
use value_scopes::Note;

/// The functions behind the declarations of an actor: the public ones, and the system functions before and after an upgrade.
type Functions = (Items<Method>, Option<Function>, Option<Function>);

/// An actor that is written out.
pub(crate) struct Actor {
    nodes: u32,
    declarations: Items<Step>,
    methods: Items<Method>,
    before_upgrade: Option<Function>,
    after_upgrade: Option<Function>,
    stable: Sequence<StableVariable>,
}

impl Drop for Actor {
    fn drop(self) {
        let Actor {
            nodes: _nodes,
            declarations: _declarations,
            methods: _methods,
            before_upgrade: _before_upgrade,
            after_upgrade: _after_upgrade,
            stable: _stable,
        } = self;
    }
}

impl Actor {
    /// The actor with its types. Takes no memory.
    pub(crate) fn with_types(self, types: TypeGraph) -> typed_tree::Program
        ensures { result ≡ typed_by types self }
    {
        let Actor {
            nodes,
            declarations,
            methods,
            before_upgrade,
            after_upgrade,
            stable,
        } = self;
        typed_tree::Program {
            types,
            nodes,
            declarations,
            methods,
            before_upgrade,
            after_upgrade,
            stable,
        }
    }
}

/// The public and system functions, around which this stands.
fn actor_functions<F: Fn(&mut Frames, Part<'_>) -> Written>(
    layer: &Layer<'_, F>,
    frames: &mut Frames,
    fields: &[Declaration<Note>],
) -> Result<Functions, Memory>
    requires writes { Writes layer.now.depth (F.pre layer.now.write) (F.post layer.now.write) }
    requires shared { Each (SharedIn layer.now.types.now) fields.now }
    ensures methods { IfOk result (λ made. made.0 ≡ methods_of (definitions layer.now.types.now) (number layer.now.types.now) frames.old (list_in layer.now.types.now fields.now)) }
    ensures before { IfOk result (λ made. made.1 ≡ system_of (definitions layer.now.types.now) (number layer.now.types.now) frames.old (codes "preupgrade") (list_in layer.now.types.now fields.now)) }
    ensures after { IfOk result (λ made. made.2 ≡ system_of (definitions layer.now.types.now) (number layer.now.types.now) frames.old (codes "postupgrade") (list_in layer.now.types.now fields.now)) }
{
    let methods = methods(layer, frames, fields)?;
    let before_upgrade = system(layer, frames, b"preupgrade".as_slice(), fields)?;
    let after_upgrade = system(layer, frames, b"postupgrade".as_slice(), fields)?;
    Ok((methods, before_upgrade, after_upgrade))
}

/// The steps of a list.
fn steps(alloc: Global, list: Arranged) -> Items<Step>
    ensures { result ≡ list.steps }
{
    let mut list = list;
    mem::replace(&mut list.steps, Items::new(alloc))
}

/// An actor: Motoko language manual, section "Actors". Each public function has the type of a shared function noted at it.
pub(crate) fn written_actor<
    F: Fn(&mut Frames, Part<'_>) -> Written,
    G: Fn(&mut Frames, ListPart<'_>) -> WrittenList,
>(lists: &Lists<'_, F, G>, program: &Program<Note>) -> Result<Actor, Memory>
    requires writes { Writes lists.now.layer.depth (F.pre lists.now.layer.write) (F.post lists.now.layer.write) }
    requires lists { WritesLists lists.now.layer.depth (G.pre lists.now.write_list) (G.post lists.now.write_list) }
    requires shared { Each (SharedIn lists.now.layer.types.now) program.now.fields }
    ensures { IfOk result (λ made. (types : List Slot) → typed_by types made ≡ desugared_in lists.now.layer.types.now types program.now) }
{
    let fields = program.fields.as_slice();
    let nodes = own_nodes(fields)?;
    let mut frames = around(lists.layer.alloc, program)?;
    let list = lists.list(&mut frames, false, fields)?;
    let stable = stable_variables(lists.layer.alloc, lists.layer.types, &frames, fields)?;
    push_functions(&mut frames, fields)?;
    let functions = actor_functions(&lists.layer, &mut frames, fields)?;
    let declarations = steps(lists.layer.alloc, list);
    Ok(Actor {
        nodes,
        declarations,
        methods: functions.0,
        before_upgrade: functions.1,
        after_upgrade: functions.2,
        stable,
    })
}
