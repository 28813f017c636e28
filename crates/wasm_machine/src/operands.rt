//! The operands of an activation: the cells of a slice below a height, of which the topmost one is last.
ghost use Rattle.std.specs.Prelude.{◌≡◌, ◌+◌, ◌-◌, ◌<◌, ◌≤◌, ◌∷◌, length, min, nat_eq, cond, slice_index, slice_get, ℕ, Some};
ghost use Rattle.wasm_tree.specs.declared.types.ValueType.TheVariants.{I32};
ghost use Rattle.wasm_tree.specs.Numeric.{low};
ghost use Rattle.wasm_steps.specs.Moves.{slide, ReadyLabel};
ghost use Rattle.wasm_steps.specs.declared.step.Label.{Label};
ghost use Rattle.wasm_steps.specs.declared.step.Step.TheVariants.{Entry};
ghost use Rattle.wasm_machine.specs.Operands.{tops};

use wasm_steps::{Label, Step};

/// The bits of an i32, of a number of 64.
#[inline(always)]
pub fn low32(value: u64) -> u64
    ensures { result ≡ low I32 value }
{
    value % 0x1_0000_0000
}

/// Whether the bits of an i32 are 0.
#[inline(always)]
pub fn is_zero(value: u64) -> bool
    ensures { result ≡ nat_eq (low I32 value) 0 }
{
    low32(value) == 0
}

/// The second where the bits of the condition are 0, else the first.
#[inline(always)]
pub fn select(condition: u64, first: u64, second: u64) -> u64
    ensures { result ≡ cond (nat_eq (low I32 condition) 0) second first }
{
    if is_zero(condition) { second } else { first }
}

/// The topmost operand.
#[inline(always)]
pub fn top(stack: &[u64], held: usize) -> u64
    requires some { 1 ≤ held }
    requires within { held ≤ length stack.now }
    ensures { result ≡ slice_index stack.now (held - 1) }
{
    stack[held - 1]
}

/// The operand below the topmost one.
#[inline(always)]
pub fn second(stack: &[u64], held: usize) -> u64
    requires some { 2 ≤ held }
    requires within { held ≤ length stack.now }
    ensures { result ≡ slice_index stack.now (held - 2) }
{
    stack[held - 2]
}

/// The operand below these two.
#[inline(always)]
pub fn third(stack: &[u64], held: usize) -> u64
    requires some { 3 ≤ held }
    requires within { held ≤ length stack.now }
    ensures { result ≡ slice_index stack.now (held - 3) }
{
    stack[held - 3]
}

/// Puts an operand on top of so many; then there is one more.
#[inline(always)]
#[tactic(auto, using(crate::proofs::Tops::tops_put))]
pub fn put(stack: &mut [u64], held: usize, value: u64) -> usize
    requires { held < length stack.old }
    ensures next { result ≡ held + 1 }
    ensures tops { tops stack.new (held + 1) ≡ value ∷ tops stack.old held }
{
    stack[held] = value;
    held + 1
}

/// Cuts the operands to a height, and keeps one or none on top.
#[inline(always)]
pub fn cut(stack: &mut [u64], held: usize, height: usize, keep: usize) -> usize
    requires held { height + keep ≤ held }
    requires within { held ≤ length stack.old }
    requires few { keep ≤ 1 }
    ensures next { result ≡ height + keep }
    ensures tops { tops stack.new (height + keep) ≡ slide keep height (tops stack.old held) }
{
    if keep == 0 {
        return height;
    }
    let value = stack[held - 1];
    stack[height] = value;
    height + 1
}

/// The label of an entry.
#[inline(always)]
fn label_of(step: Step) -> Label
    requires { (x : Label) × (step ≡ Entry x) }
    ensures { step ≡ Entry result }
{
    match step {
        Step::Entry(label) => label,
        _ => unreachable!(),
    }
}

/// The label that a `br_table` at this place takes for an operand.
#[inline(always)]
pub fn table_label(steps: &[Step], place: usize, count: u32, operand: u64) -> Label
    requires entries { (i : ℕ) → i ≤ count → (x : Label) × (slice_get steps.now (place + 1 + i) ≡ Some (Entry x)) }
    requires place { place < length steps.now }
    ensures { slice_get steps.now (place + 1 + min (low I32 operand) count) ≡ Some (Entry result) }
{
    let index = low32(operand).min(u64::from(count));
    label_of(steps[place + 1 + index as usize])
}
