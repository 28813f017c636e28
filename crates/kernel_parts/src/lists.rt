//! How lists of declarations are written out.
ghost use Rattle.std.specs.Prelude.{◌≡◌, IfOk, OnOk};
ghost use Rattle.kernel_parts.specs.Views.{list_of};
ghost use Rattle.kernel_parts.specs.Writing.{WritesLists};

use crate::layer::Layer;
use abstract_tree::Declaration;
use kernel_frames::Frames;
use kernel_types::KernelTypes;
use mo_num::Memory;
use mo_syntax::Items;
use std::alloc::Global;
use typed_tree::{Step, TypedExpression};
use value_scopes::Note;

/// A list of declarations that is written out, whose last expression is its value or not. It has at most so many levels.
#[derive(Clone, Copy)]
pub struct ListPart<'a> {
    pub alloc: Global,
    pub types: &'a KernelTypes,
    pub depth: usize,
    pub has_value: bool,
    pub declarations: &'a [Declaration<Note>],
}

/// What a list of declarations becomes: its steps, and the value of a last expression.
pub struct Arranged {
    pub steps: Items<Step>,
    pub last: Option<TypedExpression>,
}

// Written here, so that it is proved here, and not again in each crate that lets one go.
impl Drop for Arranged {
    fn drop(self) {
        let Arranged {
            steps: _steps,
            last: _last,
        } = self;
    }
}

/// A list of declarations, written out.
pub type WrittenList = Result<Arranged, Memory>;

/// What a rule is given of the writing out of lists besides that of expressions.
#[derive(Clone, Copy)]
pub struct Lists<'a, F, G> {
    pub layer: Layer<'a, F>,
    pub write_list: G,
}

impl<F, G: Fn(&mut Frames, ListPart<'_>) -> WrittenList> Lists<'_, F, G> {
    /// A list of declarations. What stands around its end is left.
    pub fn list(
        &self,
        frames: &mut Frames,
        has_value: bool,
        declarations: &[Declaration<Note>],
    ) -> WrittenList
        requires writes { WritesLists self.now.layer.depth (G.pre self.now.write_list) (G.post self.now.write_list) }
        ensures steps { IfOk result (λ made. made.steps ≡ (list_of self.now.layer.types.now frames.old has_value declarations.now).steps) }
        ensures last { IfOk result (λ made. made.last ≡ (list_of self.now.layer.types.now frames.old has_value declarations.now).last) }
        ensures frame { OnOk result (frames.new ≡ (list_of self.now.layer.types.now frames.old has_value declarations.now).frame) }
    {
        let part = ListPart {
            alloc: self.layer.alloc,
            types: self.layer.types,
            depth: self.layer.depth,
            has_value,
            declarations,
        };
        (self.write_list)(frames, part)
    }
}
