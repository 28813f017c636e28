//! The blocks that are open.
ghost use Rattle.std.specs.Prelude.{◌≡◌, [], ◌∷◌, reverse, slice_get, Some};
ghost use Rattle.wasm_valid.specs.Blocks.{label_by, labels};

use crate::operands::Operands;
use mo_num::Memory;
use std::alloc::Global;
use std::marker::Model;
use wasm_tree::ValueType;

/// What opened a block.
#[derive(Clone, Copy, Debug, PartialEq, Eq)]
pub(crate) enum Opener {
    Block,
    Loop,
    If,
    Else,
}

/// An open block, with the operands below it.
#[derive(Drop)]
pub(crate) struct Opened {
    pub(crate) opener: Opener,
    pub(crate) result: Option<ValueType>,
    pub(crate) below: Operands,
}

/// The open blocks, the innermost first.
#[derive(Drop)]
pub(crate) struct Blocks {
    items: Vec<Opened>,
}

impl Model for Blocks {
    ghost use Rattle.std.specs.Prelude.{reverse, List};
    ghost use Rattle.wasm_valid.specs.declared.blocks.Opened.{Opened};

    ghost Value = { List Opened };

    ghost view = { λ b. reverse b.items.items };
}

impl Blocks {
    ghost use Rattle.std.specs.Prelude.{◌≡◌, [], ◌∷◌, ◌==◌, length, MatchOption, OnOk};

    pub(crate) fn new(alloc: Global) -> Blocks
        ensures { result ≡ [] }
    {
        Blocks {
            items: Vec::new(alloc),
        }
    }

    pub(crate) fn push(&mut self, block: Opened) -> Result<(), Memory>
        ensures { OnOk result (self.new ≡ block ∷ self.old) }
    {
        self.items.push(block)?;
        Ok(())
    }

    pub(crate) fn pop(&mut self) -> Option<Opened>
        ensures { MatchOption result (self.old ≡ []) (λ block. self.old ≡ block ∷ self.new) }
    {
        self.items.pop()
    }

    pub(crate) fn is_empty(&self) -> bool
        ensures { result ≡ (length self.now == 0) }
    {
        self.items.is_empty()
    }

    /// The result that a branch to this label carries, in a body with this result.
    pub(crate) fn label(&self, label: u32, outcome: Option<ValueType>) -> Option<Option<ValueType>>
        ensures { result ≡ slice_get (labels outcome self.now) label }
    {
        label_in(self.items.as_slice(), label, outcome)
    }
}

fn label_in(items: &[Opened], label: u32, outcome: Option<ValueType>) -> Option<Option<ValueType>>
    ensures { result ≡ slice_get (labels outcome (reverse items.now)) label }
{
    let count = items.len();
    let label = label as usize;
    if label < count {
        let block = &items[count - 1 - label];
        Some(label_of(block.opener, block.result))
    } else if label == count {
        Some(outcome)
    } else {
        None
    }
}

fn label_of(opener: Opener, kind: Option<ValueType>) -> Option<ValueType>
    ensures { result ≡ label_by opener kind }
{
    match opener {
        Opener::Loop => None,
        _ => kind,
    }
}
