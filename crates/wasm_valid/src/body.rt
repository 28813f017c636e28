//! The check of a body.
ghost use Rattle.std.specs.Prelude.{◌≡◌, [], ◌∷◌, List, Option, length, nat_lt, slice_get, reverse, MatchOption, OnOk, Some, None};
ghost use Rattle.wasm_tree.specs.Rules.{load_type, load_align, store_type, store_align, global_of, or_no};
ghost use Rattle.wasm_tree.specs.declared.types.ValueType.{ValueType};
ghost use Rattle.wasm_valid.specs.declared.blocks.Opened.{Opened};
ghost use Rattle.wasm_valid.specs.declared.body.Table.{Table};
ghost use Rattle.wasm_tree.specs.declared.rule.Rule.TheVariants as rule;
ghost use Rattle.wasm_tree.specs.declared.types.FunctionType.{FunctionType};
ghost use Rattle.wasm_tree.specs.declared.op.Plain.TheVariants as plain;
ghost use Rattle.wasm_valid.specs.Verdict.{Verdict, Passes, need, with_found, Sees};
ghost use Rattle.wasm_valid.specs.Operands.{Stack, pop_all, fits};
ghost use Rattle.wasm_valid.specs.Body.{fresh, dead, has_memory, has_table, converted, same_result, agrees, plain_step, may_end, is_if, with_innermost, at_end, at_else, call, call_direct, call_indirect, type_at, code_step, after_target, target_step, table_step, step, at_last, run, open_of, Next};

use crate::blocks::{Blocks, Opened, Opener};
use crate::fault::Fault;
use crate::locals::LocalTypes;
use crate::operands::{Operands, require, same};
use mo_num::Memory;
use std::alloc::Global;
use std::mem;
use wasm_tree::{
    Conversion, FunctionType, GlobalType, LoadKind, MemoryArgument, Module, Op, Plain, Rule,
    StoreKind, ValueType,
};

/// The labels of a `br_table` that are to come besides the last one, and the result of those that came.
#[derive(Clone, Copy, Debug, PartialEq, Eq)]
pub(crate) struct Table {
    pub(crate) owed: u32,
    pub(crate) wanted: Option<Option<ValueType>>,
}

/// What was found, where it is there.
fn found<T>(rule: Rule, item: Option<T>) -> Result<T, Fault>
    ensures { (next : T → Verdict) → Sees result (with_found rule item next) next }
{
    match item {
        None => Err(Fault::Broken(rule)),
        Some(item) => Ok(item),
    }
}

fn load_kind(kind: LoadKind) -> ValueType
    ensures { result ≡ load_type kind }
{
    match kind {
        LoadKind::I32
        | LoadKind::I32From8S
        | LoadKind::I32From8U
        | LoadKind::I32From16S
        | LoadKind::I32From16U => ValueType::I32,
        _ => ValueType::I64,
    }
}

fn store_kind(kind: StoreKind) -> ValueType
    ensures { result ≡ store_type kind }
{
    match kind {
        StoreKind::I32 | StoreKind::I32To8 | StoreKind::I32To16 => ValueType::I32,
        _ => ValueType::I64,
    }
}

/// The greatest alignment of a load.
fn greatest_load_align(kind: LoadKind) -> u32
    ensures { result ≡ load_align kind }
{
    match kind {
        LoadKind::I32From8S | LoadKind::I32From8U | LoadKind::I64From8S | LoadKind::I64From8U => 0,
        LoadKind::I32From16S | LoadKind::I32From16U | LoadKind::I64From16S | LoadKind::I64From16U =>
            1,
        LoadKind::I32 | LoadKind::I64From32S | LoadKind::I64From32U => 2,
        LoadKind::I64 => 3,
    }
}

/// The greatest alignment of a store.
fn greatest_store_align(kind: StoreKind) -> u32
    ensures { result ≡ store_align kind }
{
    match kind {
        StoreKind::I32To8 | StoreKind::I64To8 => 0,
        StoreKind::I32To16 | StoreKind::I64To16 => 1,
        StoreKind::I32 | StoreKind::I64To32 => 2,
        StoreKind::I64 => 3,
    }
}

fn has_memory(within: &Module) -> bool
    ensures { result ≡ has_memory within.now }
{
    0 < within.memories.len()
}

fn has_table(within: &Module) -> bool
    ensures { result ≡ has_table within.now }
{
    0 < within.tables.len()
}

fn global_type(within: &Module, global: u32) -> Option<GlobalType>
    ensures { result ≡ global_of within.now global }
{
    match within.globals.as_slice().get(global as usize) {
        None => None,
        Some(global) => Some(global.kind),
    }
}

fn load(
    within: &Module,
    kind: LoadKind,
    access: MemoryArgument,
    operands: &mut Operands,
) -> Result<(), Fault>
    ensures { (next : Stack → Verdict) → Sees result (plain_step within.now [] (plain.Load kind access) operands.old next) (λ _. next operands.new) }
{
    require(Rule::Index, has_memory(within))?;
    require(Rule::Align, access.align <= greatest_load_align(kind))?;
    operands.change(ValueType::I32, load_kind(kind))?;
    Ok(())
}

fn store(
    within: &Module,
    kind: StoreKind,
    access: MemoryArgument,
    operands: &mut Operands,
) -> Result<(), Fault>
    ensures { (next : Stack → Verdict) → Sees result (plain_step within.now [] (plain.Store kind access) operands.old next) (λ _. next operands.new) }
{
    require(Rule::Index, has_memory(within))?;
    require(Rule::Align, access.align <= greatest_store_align(kind))?;
    operands.pop(store_kind(kind))?;
    operands.pop(ValueType::I32)?;
    Ok(())
}

fn set_global(within: &Module, global: u32, operands: &mut Operands) -> Result<(), Fault>
    ensures { (next : Stack → Verdict) → Sees result (plain_step within.now [] (plain.GlobalSet global) operands.old next) (λ _. next operands.new) }
{
    let global = found(Rule::Index, global_type(within, global))?;
    require(Rule::Mutable, global.mutable)?;
    operands.pop(global.kind)
}

fn convert(conversion: Conversion, operands: &mut Operands) -> Result<(), Fault>
    ensures { (next : Stack → Verdict) → Sees result (converted conversion operands.old next) (λ _. next operands.new) }
{
    match conversion {
        Conversion::Wrap => operands.change(ValueType::I64, ValueType::I32),
        _ => operands.change(ValueType::I32, ValueType::I64),
    }
}

fn plain_step(
    within: &Module,
    locals: &LocalTypes,
    plain: Plain,
    operands: &mut Operands,
) -> Result<(), Fault>
    ensures { (next : Stack → Verdict) → Sees result (plain_step within.now locals.now plain operands.old next) (λ _. next operands.new) }
{
    match plain {
        Plain::Nop => Ok(()),
        Plain::Drop => operands.pop_any(),
        Plain::Select => {
            operands.pop(ValueType::I32)?;
            operands.choose()
        }
        Plain::LocalGet(local) => {
            let kind = found(Rule::Index, locals.get(local))?;
            operands.push(kind)?;
            Ok(())
        }
        Plain::LocalSet(local) => {
            let kind = found(Rule::Index, locals.get(local))?;
            operands.pop(kind)
        }
        Plain::LocalTee(local) => {
            let kind = found(Rule::Index, locals.get(local))?;
            operands.change(kind, kind)
        }
        Plain::GlobalGet(global) => {
            let global = found(Rule::Index, global_type(within, global))?;
            operands.push(global.kind)?;
            Ok(())
        }
        Plain::GlobalSet(global) => set_global(within, global, operands),
        Plain::Load(kind, access) => load(within, kind, access, operands),
        Plain::Store(kind, access) => store(within, kind, access, operands),
        Plain::MemorySize => {
            require(Rule::Index, has_memory(within))?;
            operands.push(ValueType::I32)?;
            Ok(())
        }
        Plain::MemoryGrow => {
            require(Rule::Index, has_memory(within))?;
            operands.change(ValueType::I32, ValueType::I32)
        }
        Plain::I32Const(_) => {
            operands.push(ValueType::I32)?;
            Ok(())
        }
        Plain::I64Const(_) => {
            operands.push(ValueType::I64)?;
            Ok(())
        }
        Plain::EqualsZero(kind) => operands.change(kind, ValueType::I32),
        Plain::Compare(kind, _) => operands.join(kind, ValueType::I32),
        Plain::Unary(kind, _) => operands.change(kind, kind),
        Plain::Binary(kind, _) => operands.join(kind, kind),
        Plain::Convert(conversion) => convert(conversion, operands),
    }
}

/// Takes the parameters of a function, the last one first.
fn pop_params(params: &[ValueType], operands: &mut Operands) -> Result<(), Fault>
    ensures { (next : Stack → Verdict) → Sees result (pop_all (reverse params.now) operands.old next) (λ _. next operands.new) }
{
    for kind in params.iter().rev() {
        operands.pop(*kind)?;
    }
    Ok(())
}

fn call(signature: &FunctionType, operands: &mut Operands) -> Result<(), Fault>
    ensures { (next : Stack → Verdict) → Sees result (call signature.now operands.old next) (λ _. next operands.new) }
{
    pop_params(signature.params.as_slice(), operands)?;
    operands.push_result(signature.results.as_slice().first().copied())?;
    Ok(())
}

/// The type with this index.
pub(crate) fn type_with<'a>(within: &'a Module, index: u32) -> Result<&'a FunctionType, Fault>
    ensures { (next : FunctionType → Verdict) → Sees result (with_found rule.Index (slice_get within.now.types index) next) (λ t. next t.now) }
{
    match within.types.as_slice().get(index as usize) {
        None => Err(Fault::Broken(Rule::Index)),
        Some(signature) => Ok(signature),
    }
}

/// The type of the function with this index, where the types of all have these ones.
pub(crate) fn type_of<'a>(
    within: &'a Module,
    signatures: &[u32],
    function: u32,
) -> Result<&'a FunctionType, Fault>
    ensures { (next : FunctionType → Verdict) → Sees result (with_found rule.Index (type_at within.now signatures.now function) next) (λ t. next t.now) }
{
    match signatures.get(function as usize) {
        None => Err(Fault::Broken(Rule::Index)),
        Some(signature) => type_with(within, *signature),
    }
}

fn call_direct(
    within: &Module,
    signatures: &[u32],
    function: u32,
    operands: &mut Operands,
) -> Result<(), Fault>
    ensures { (next : Stack → Verdict) → Sees result (call_direct within.now signatures.now function operands.old next) (λ _. next operands.new) }
{
    let signature = type_of(within, signatures, function)?;
    call(signature, operands)?;
    Ok(())
}

fn call_indirect(within: &Module, index: u32, operands: &mut Operands) -> Result<(), Fault>
    ensures { (next : Stack → Verdict) → Sees result (call_indirect within.now index operands.old next) (λ _. next operands.new) }
{
    require(Rule::Index, has_table(within))?;
    let signature = type_with(within, index)?;
    operands.pop(ValueType::I32)?;
    call(signature, operands)?;
    Ok(())
}

/// Begins a block over the operands that are there.
fn begin(
    alloc: Global,
    opener: Opener,
    kind: Option<ValueType>,
    blocks: &mut Blocks,
    operands: &mut Operands,
) -> Result<(), Memory>
    ensures { OnOk result ((blocks.new ≡ open_of opener kind operands.old ∷ blocks.old) × (operands.new ≡ fresh)) }
{
    let below = mem::replace(operands, Operands::new(alloc));
    blocks.push(Opened {
        opener,
        result: kind,
        below,
    })
}

/// Whether a block that was opened so, with this result, may end here.
fn may_end(opener: Opener, kind: Option<ValueType>) -> bool
    ensures { result ≡ may_end opener kind }
{
    match (opener, kind) {
        (Opener::If, Some(_)) => false,
        _ => true,
    }
}

fn is_if(opener: Opener) -> bool
    ensures { result ≡ is_if opener }
{
    match opener {
        Opener::If => true,
        _ => false,
    }
}

/// Takes the innermost block.
fn innermost(blocks: &mut Blocks) -> Result<Opened, Fault>
    ensures { (next : Opened → List Opened → Verdict) → Sees result (with_innermost blocks.old next) (λ o. next o blocks.new) }
{
    match blocks.pop() {
        None => Err(Fault::Broken(Rule::Result)),
        Some(block) => Ok(block),
    }
}

fn end(blocks: &mut Blocks, operands: &mut Operands) -> Result<(), Fault>
    ensures { (next : Next) → Sees result (at_end blocks.old operands.old next) (λ _. next None blocks.new operands.new) }
{
    let block = innermost(blocks)?;
    require(Rule::Result, operands.fits(block.result))?;
    require(Rule::Result, may_end(block.opener, block.result))?;
    let kind = block.result;
    *operands = block.below;
    operands.push_result(kind)?;
    Ok(())
}

fn other_side(alloc: Global, blocks: &mut Blocks, operands: &mut Operands) -> Result<(), Fault>
    ensures { (next : Next) → Sees result (at_else blocks.old operands.old next) (λ _. next None blocks.new operands.new) }
{
    let block = innermost(blocks)?;
    require(Rule::Result, is_if(block.opener))?;
    require(Rule::Result, operands.fits(block.result))?;
    *operands = Operands::new(alloc);
    blocks.push(Opened {
        opener: Opener::Else,
        result: block.result,
        below: block.below,
    })?;
    Ok(())
}

/// An instruction in a body with this result, after which no label is owed.
fn code_step(
    alloc: Global,
    within: &Module,
    signatures: &[u32],
    locals: &LocalTypes,
    outcome: Option<ValueType>,
    op: Op,
    blocks: &mut Blocks,
    operands: &mut Operands,
) -> Result<Option<Table>, Fault>
    ensures { (next : Next) → Sees result (code_step within.now signatures.now locals.now outcome op blocks.old operands.old next) (λ table. next table blocks.new operands.new) }
{
    match op {
        Op::Plain(plain) => plain_step(within, locals, plain, operands)?,
        Op::Unreachable => operands.give_up(),
        Op::Block(kind) => begin(alloc, Opener::Block, kind, blocks, operands)?,
        Op::Loop(kind) => begin(alloc, Opener::Loop, kind, blocks, operands)?,
        Op::If(kind) => {
            operands.pop(ValueType::I32)?;
            begin(alloc, Opener::If, kind, blocks, operands)?;
        }
        Op::Else => other_side(alloc, blocks, operands)?,
        Op::End => end(blocks, operands)?,
        Op::Br(label) => {
            let kind = found(Rule::Label, blocks.label(label, outcome))?;
            operands.pop_result(kind)?;
            operands.give_up();
        }
        Op::BrIf(label) => {
            let kind = found(Rule::Label, blocks.label(label, outcome))?;
            operands.pop(ValueType::I32)?;
            operands.pop_result(kind)?;
            operands.push_result(kind)?;
        }
        Op::BrTable(count) => {
            return Ok(Some(Table {
                owed: count,
                wanted: None,
            }));
        }
        Op::Target(_) => return Err(Fault::Broken(Rule::Label)),
        Op::Return => {
            operands.pop_result(outcome)?;
            operands.give_up();
        }
        Op::Call(function) => call_direct(within, signatures, function, operands)?,
        Op::CallIndirect(index) => call_indirect(within, index, operands)?,
    }
    Ok(None)
}

fn same_result(kind: Option<ValueType>, other: Option<ValueType>) -> bool
    ensures { result ≡ same_result kind other }
{
    match (kind, other) {
        (None, None) => true,
        (Some(kind), Some(other)) => same(kind, other),
        _ => false,
    }
}

/// Whether a label's result is that of the labels before it.
fn agrees(wanted: Option<Option<ValueType>>, kind: Option<ValueType>) -> bool
    ensures { result ≡ agrees wanted kind }
{
    match wanted {
        None => true,
        Some(other) => same_result(other, kind),
    }
}

/// What is owed after a label with this result, besides which so many were owed.
fn after_target(
    owed: u32,
    kind: Option<ValueType>,
    operands: &mut Operands,
) -> Result<Option<Table>, Fault>
    ensures { (next : Next) → (blocks : List Opened) → Sees result (after_target owed kind blocks operands.old next) (λ table. next table blocks operands.new) }
{
    if owed > 0 {
        return Ok(Some(Table {
            owed: owed - 1,
            wanted: Some(kind),
        }));
    }
    operands.pop(ValueType::I32)?;
    operands.pop_result(kind)?;
    operands.give_up();
    Ok(None)
}

/// A label of a `br_table`.
fn target_step(
    table: Table,
    label: u32,
    outcome: Option<ValueType>,
    blocks: &Blocks,
    operands: &mut Operands,
) -> Result<Option<Table>, Fault>
    ensures { (next : Next) → Sees result (target_step outcome table label blocks.now operands.old next) (λ table. next table blocks.now operands.new) }
{
    let kind = found(Rule::Label, blocks.label(label, outcome))?;
    require(Rule::Operand, agrees(table.wanted, kind))?;
    let after = after_target(table.owed, kind, operands)?;
    Ok(after)
}

/// What comes where labels are owed.
fn table_step(
    table: Table,
    outcome: Option<ValueType>,
    op: Op,
    blocks: &Blocks,
    operands: &mut Operands,
) -> Result<Option<Table>, Fault>
    ensures { (next : Next) → Sees result (table_step outcome table op blocks.now operands.old next) (λ table. next table blocks.now operands.new) }
{
    match op {
        Op::Target(label) => target_step(table, label, outcome, blocks, operands),
        _ => Err(Fault::Broken(Rule::Label)),
    }
}

/// One instruction, or one label of a `br_table`.
fn step(
    alloc: Global,
    within: &Module,
    signatures: &[u32],
    locals: &LocalTypes,
    outcome: Option<ValueType>,
    table: Option<Table>,
    op: Op,
    blocks: &mut Blocks,
    operands: &mut Operands,
) -> Result<Option<Table>, Fault>
    ensures { (next : Next) → Sees result (step within.now signatures.now locals.now outcome table op blocks.old operands.old next) (λ table. next table blocks.new operands.new) }
{
    match table {
        None => code_step(
            alloc, within, signatures, locals, outcome, op, blocks, operands,
        ),
        Some(table) => table_step(table, outcome, op, blocks, operands),
    }
}

/// The end of a body with this result.
fn at_last(
    table: Option<Table>,
    outcome: Option<ValueType>,
    blocks: &Blocks,
    operands: &Operands,
) -> Result<(), Fault>
    ensures { Sees result (at_last outcome table blocks.now operands.now) (λ _. Passes) }
{
    match table {
        Some(_) => Err(Fault::Broken(Rule::Label)),
        None => {
            require(Rule::Result, blocks.is_empty())?;
            require(Rule::Result, operands.fits(outcome))?;
            Ok(())
        }
    }
}

/// The check of a whole body.
pub(crate) fn run(
    alloc: Global,
    within: &Module,
    signatures: &[u32],
    locals: &LocalTypes,
    outcome: Option<ValueType>,
    ops: &[Op],
) -> Result<(), Fault>
    ensures { Sees result (run within.now signatures.now locals.now outcome ops.now None [] fresh) (λ _. Passes) }
{
    let mut blocks = Blocks::new(alloc);
    let mut operands = Operands::new(alloc);
    let mut table = None;
    for op in ops {
        table = step(
            alloc,
            within,
            signatures,
            locals,
            outcome,
            table,
            *op,
            &mut blocks,
            &mut operands,
        )?;
    }
    at_last(table, outcome, &blocks, &operands)?;
    Ok(())
}
