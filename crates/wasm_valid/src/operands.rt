//! The operands of a block, as far as they are known (WebAssembly Core 1.0, appendix "Validation Algorithm").
ghost use Rattle.std.specs.Prelude.{◌≡◌, [], ◌∷◌, Result, Ok};
ghost use Rattle.wasm_tree.specs.Exec.{same_kind};
ghost use Rattle.wasm_valid.specs.Verdict.{Verdict, need, Sees};

use crate::fault::Fault;
use mo_num::Memory;
use std::alloc::Global;
use std::marker::Model;
use wasm_tree::{Rule, ValueType};

/// What lies below the operands of a block that are known.
#[derive(Clone, Copy, Debug, PartialEq, Eq)]
pub(crate) enum Floor {
    Nothing,
    /// Any operands: an instruction that never goes on stands before.
    Anything,
    /// One operand of a type that is not known, and any operands below it.
    Something,
}

/// The types of the operands that are known, and what lies below them. Nothing that is known ever lies below what is
/// not.
#[derive(Drop)]
pub(crate) struct Operands {
    kinds: Vec<ValueType>,
    floor: Floor,
}

impl Model for Operands {
    ghost use Rattle.std.specs.Prelude.{reverse};
    ghost use Rattle.wasm_valid.specs.Operands.{Stack, On};

    ghost Value = { Stack };

    ghost view = { λ o. On (reverse o.kinds.items) o.floor };
}

pub(crate) fn same(kind: ValueType, other: ValueType) -> bool
    ensures { result ≡ same_kind kind other }
{
    match (kind, other) {
        (ValueType::I32, ValueType::I32) | (ValueType::I64, ValueType::I64) => true,
        _ => false,
    }
}

/// Goes on where the condition holds.
pub(crate) fn require(rule: Rule, holds: bool) -> Result<(), Fault>
    ensures { (rest : Verdict) → Sees result (need rule holds rest) (λ _. rest) }
{
    if holds {
        Ok(())
    } else {
        Err(Fault::Broken(rule))
    }
}

impl Operands {
    ghost use Rattle.std.specs.Prelude.{OnOk};
    ghost use Rattle.wasm_valid.specs.declared.operands.Floor.TheVariants.{Nothing, Anything, Something};
    ghost use Rattle.wasm_valid.specs.Verdict.{Verdict, Sees};
    ghost use Rattle.wasm_valid.specs.Operands.{Stack, On, pop, pop_any, push, change, join, choose, pop_result, push_result, fits};

    /// None at all.
    pub(crate) fn new(alloc: Global) -> Operands
        ensures { result ≡ On [] Nothing }
    {
        Operands {
            kinds: Vec::new(alloc),
            floor: Floor::Nothing,
        }
    }

    /// Any operands.
    pub(crate) fn give_up(&mut self)
        ensures { self.new ≡ On [] Anything }
    {
        self.kinds.clear();
        self.floor = Floor::Anything;
    }

    /// Takes one operand of this kind.
    pub(crate) fn pop(&mut self, kind: ValueType) -> Result<(), Fault>
        ensures { (next : Stack → Verdict) → Sees result (pop kind self.old next) (λ _. next self.new) }
    {
        match self.kinds.pop() {
            Some(top) => require(Rule::Operand, same(top, kind)),
            None => match self.floor {
                Floor::Nothing => Err(Fault::Broken(Rule::Operand)),
                _ => {
                    self.floor = Floor::Anything;
                    Ok(())
                }
            },
        }
    }

    /// Takes one operand of any kind.
    pub(crate) fn pop_any(&mut self) -> Result<(), Fault>
        ensures { (next : Stack → Verdict) → Sees result (pop_any self.old next) (λ _. next self.new) }
    {
        match self.kinds.pop() {
            Some(_) => Ok(()),
            None => match self.floor {
                Floor::Nothing => Err(Fault::Broken(Rule::Operand)),
                _ => {
                    self.floor = Floor::Anything;
                    Ok(())
                }
            },
        }
    }

    /// Puts one on top.
    pub(crate) fn push(&mut self, kind: ValueType) -> Result<(), Memory>
        ensures { OnOk result (self.new ≡ push kind self.old) }
    {
        self.kinds.push(kind)?;
        Ok(())
    }

    /// Takes one operand of this kind, and puts another on top.
    pub(crate) fn change(&mut self, from: ValueType, to: ValueType) -> Result<(), Fault>
        ensures { (next : Stack → Verdict) → Sees result (change from to self.old next) (λ _. next self.new) }
    {
        self.pop(from)?;
        self.push(to)?;
        Ok(())
    }

    /// Takes two operands of one kind, and puts another on top.
    pub(crate) fn join(&mut self, from: ValueType, to: ValueType) -> Result<(), Fault>
        ensures { (next : Stack → Verdict) → Sees result (join from to self.old next) (λ _. next self.new) }
    {
        self.pop(from)?;
        self.change(from, to)?;
        Ok(())
    }

    /// Takes two operands of one kind, and gives one back.
    pub(crate) fn choose(&mut self) -> Result<(), Fault>
        ensures { (next : Stack → Verdict) → Sees result (choose self.old next) (λ _. next self.new) }
    {
        match self.kinds.pop() {
            Some(top) => { self.change(top, top) }
            None => match self.floor {
                Floor::Nothing => Err(Fault::Broken(Rule::Operand)),
                _ => {
                    self.floor = Floor::Something;
                    Ok(())
                }
            },
        }
    }

    /// Takes the result of a block.
    pub(crate) fn pop_result(&mut self, kind: Option<ValueType>) -> Result<(), Fault>
        ensures { (next : Stack → Verdict) → Sees result (pop_result kind self.old next) (λ _. next self.new) }
    {
        match kind {
            None => Ok(()),
            Some(kind) => self.pop(kind),
        }
    }

    /// Puts the result of a block on top.
    pub(crate) fn push_result(&mut self, kind: Option<ValueType>) -> Result<(), Memory>
        ensures { OnOk result (self.new ≡ push_result kind self.old) }
    {
        match kind {
            None => Ok(()),
            Some(kind) => self.push(kind),
        }
    }

    /// Whether the operands may be this result and nothing else.
    pub(crate) fn fits(&self, kind: Option<ValueType>) -> bool
        ensures { result ≡ fits kind self.now }
    {
        match (kind, self.kinds.as_slice()) {
            (None, []) => self.floor != Floor::Something,
            (Some(_), []) => self.floor != Floor::Nothing,
            (Some(kind), [top]) => self.floor != Floor::Something && same(*top, kind),
            _ => false,
        }
    }
}
