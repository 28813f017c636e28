//! How the parts of an expression are written out.
ghost use Rattle.std.specs.Prelude.{◌≡◌, IfOk, OnOk, map};
ghost use Rattle.kernel_parts.specs.Views.{tree_of};
ghost use Rattle.kernel_parts.specs.Writing.{Writes};

use abstract_tree::Expression;
use kernel_frames::Frames;
use kernel_types::KernelTypes;
use mo_num::Memory;
use mo_syntax::Items;
use std::alloc::Global;
use typed_tree::TypedExpression;
use value_scopes::Note;

/// An expression that is written out. It has at most so many levels.
#[derive(Clone, Copy)]
pub struct Part<'a> {
    pub alloc: Global,
    pub types: &'a KernelTypes,
    pub depth: usize,
    pub expression: &'a Expression<Note>,
}

/// A typed expression.
pub type Written = Result<TypedExpression, Memory>;

/// What a rule is given: the types of the program, and the writing out of parts.
#[derive(Clone, Copy)]
pub struct Layer<'a, F> {
    pub alloc: Global,
    pub types: &'a KernelTypes,
    pub depth: usize,
    pub write: F,
}

impl<F: Fn(&mut Frames, Part<'_>) -> Written> Layer<'_, F> {
    /// A part. What stands around is as it was, where it is written out.
    pub fn part(&self, frames: &mut Frames, expression: &Expression<Note>) -> Written
        requires writes { Writes self.now.depth (F.pre self.now.write) (F.post self.now.write) }
        ensures made { IfOk result (λ made. made ≡ tree_of self.now.types.now frames.old expression.now) }
        ensures same { OnOk result (frames.new ≡ frames.old) }
    {
        let part = Part {
            alloc: self.alloc,
            types: self.types,
            depth: self.depth,
            expression,
        };
        (self.write)(frames, part)
    }

    /// Two parts.
    pub fn two(
        &self,
        frames: &mut Frames,
        a: &Expression<Note>,
        b: &Expression<Note>,
    ) -> Result<(TypedExpression, TypedExpression), Memory>
        requires writes { Writes self.now.depth (F.pre self.now.write) (F.post self.now.write) }
        ensures first { IfOk result (λ made. made.0 ≡ tree_of self.now.types.now frames.old a.now) }
        ensures second { IfOk result (λ made. made.1 ≡ tree_of self.now.types.now frames.old b.now) }
        ensures same { OnOk result (frames.new ≡ frames.old) }
    {
        let first = self.part(frames, a)?;
        let second = self.part(frames, b)?;
        Ok((first, second))
    }

    /// Three parts.
    pub fn three(
        &self,
        frames: &mut Frames,
        a: &Expression<Note>,
        b: &Expression<Note>,
        c: &Expression<Note>,
    ) -> Result<(TypedExpression, TypedExpression, TypedExpression), Memory>
        requires writes { Writes self.now.depth (F.pre self.now.write) (F.post self.now.write) }
        ensures first { IfOk result (λ made. made.0 ≡ tree_of self.now.types.now frames.old a.now) }
        ensures second { IfOk result (λ made. made.1 ≡ tree_of self.now.types.now frames.old b.now) }
        ensures third { IfOk result (λ made. made.2 ≡ tree_of self.now.types.now frames.old c.now) }
        ensures same { OnOk result (frames.new ≡ frames.old) }
    {
        let (first, second) = self.two(frames, a, b)?;
        let third = self.part(frames, c)?;
        Ok((first, second, third))
    }

    /// Several parts.
    pub fn each(
        &self,
        frames: &mut Frames,
        items: &[Expression<Note>],
    ) -> Result<Items<TypedExpression>, Memory>
        requires writes { Writes self.now.depth (F.pre self.now.write) (F.post self.now.write) }
        ensures made { IfOk result (λ made. made ≡ map (tree_of self.now.types.now frames.old) items.now) }
        ensures same { OnOk result (frames.new ≡ frames.old) }
    {
        let mut made = Items::new(self.alloc);
        for item in items {
            let part = self.part(frames, item)?;
            made.push(part)?;
        }
        Ok(made)
    }
}
