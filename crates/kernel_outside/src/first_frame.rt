//! What stands around the declarations of an actor.
ghost use Rattle.std.specs.Prelude.{◌≡◌, ◌∷◌, [], IfOk, OnOk, map};
ghost use Rattle.abstract_tree.specs.TreeView as tree;
ghost use Rattle.desugaring.specs.Frames as frame;
ghost use Rattle.desugaring.specs.Programs as programs;
ghost use Rattle.judged_parts.specs.Parts.{See};

use crate::hiding::push_hidden;
use crate::names::{method_names, stable_names};
use abstract_tree::Program;
use kernel_frames::Frames;
use mo_num::{Bytes, Memory};
use std::alloc::Global;
use value_scopes::Note;

/// Adds what was kept of the stable variables of these names, of which the first is the nearest.
fn push_kept_names(frames: &mut Frames, names: &[Bytes]) -> Result<(), Memory>
    ensures { OnOk result (frames.new ≡ frame.with_entries (map frame.Kept names.now) frames.old) }
{
    let mut left = names.len();
    while left > 0 {
        left -= 1;
        frames.push_kept(names[left].as_slice())?;
    }
    Ok(())
}

/// Adds the actor's own name, which a public function of the name hides.
fn push_own(frames: &mut Frames, methods: &[Bytes], name: &Option<Bytes>) -> Result<(), Memory>
    ensures { OnOk result (frames.new ≡ frame.with_entries (programs.own_entry methods.now name.now ∷ []) frames.old) }
{
    match name {
        None => frames.push_unnamed(),
        Some(name) => push_hidden(frames, methods, name.as_slice()),
    }
}

/// What stands around the declarations of an actor: its own name, those of its public functions, and what was kept of its stable variables.
/// Motoko language manual, sections "Actors" and "Stability".
pub fn around(alloc: Global, program: &Program<Note>) -> Result<Frames, Memory>
    ensures { (see : See) → IfOk result (λ made. made ≡ programs.around (tree.program see program.now)) }
{
    let mut frames = Frames::new(alloc);
    let stable = stable_names(alloc, program.fields.as_slice())?;
    push_kept_names(&mut frames, stable.as_slice())?;
    let methods = method_names(alloc, program.fields.as_slice())?;
    frames.push_names(methods.as_slice())?;
    push_own(&mut frames, methods.as_slice(), &program.name)?;
    Ok(frames)
}
