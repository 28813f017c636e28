//! The types of a header in their order.
ghost use Rattle.std.specs.Prelude.{◌≡◌, ◌++◌, ◌∷◌, ◌<◌, [], IfOk, OnOk, map, reverse, length, slice_get, Some, IsTrue, IsFalse, nat_eq, false};
ghost use Rattle.std.specs.List.{list_any};
ghost use Rattle.mo_types.specs.Header.{IsSimple, parts_of};
ghost use Rattle.mo_types.specs.declared.wire.Plain.TheVariants as plain;
ghost use Rattle.mo_types.specs.declared.wire.Wire.TheVariants.{Simple};
ghost use Rattle.candid_write.specs.Classes.{AreClasses, class_at};
ghost use Rattle.candid_write.specs.Order.{IsReady, Steps, Visited};

use crate::classes::classes_of;
use crate::signature::class_at;
use candid_types::Shapes;
use indexmap::IndexSet;
use mo_num::Memory;
use mo_types::{Entry, Method, Wire};
use std::alloc::Global;

/// Types with their classes, and those that a header has, in order.
#[derive(Drop)]
pub(crate) struct Table {
    pub shapes: Shapes,
    pub classes: Vec<usize>,
    /// The types of the header.
    pub order: Vec<usize>,
    /// Their classes, in the same order.
    pub seen: IndexSet<usize>,
}

fn entry_parts(alloc: Global, entries: &[Entry<usize>]) -> Result<Vec<usize>, Memory>
    ensures { IfOk result (λ made. made.items ≡ map (λ e. e.part) entries.now) }
{
    let mut made = Vec::with_capacity(alloc, entries.len())?;
    for entry in entries {
        made.push(entry.part)?;
    }
    Ok(made)
}

fn method_parts(alloc: Global, methods: &[Method<usize>]) -> Result<Vec<usize>, Memory>
    ensures { IfOk result (λ made. made.items ≡ map (λ m. m.part) methods.now) }
{
    let mut made = Vec::with_capacity(alloc, methods.len())?;
    for method in methods {
        made.push(method.part)?;
    }
    Ok(made)
}

fn function_parts(
    alloc: Global,
    parameters: &[usize],
    results: &[usize],
) -> Result<Vec<usize>, Memory>
    ensures { IfOk result (λ made. made.items ≡ parameters.now ++ results.now) }
{
    let mut made = Vec::from_slice(alloc, parameters)?;
    made.extend_from_slice(results)?;
    Ok(made)
}

/// The parts of a type, in order.
pub(crate) fn parts_of(alloc: Global, head: &Wire<usize>) -> Result<Vec<usize>, Memory>
    ensures { IfOk result (λ made. made.items ≡ parts_of head.now) }
{
    Ok(match head {
        Wire::Simple(_) => Vec::new(alloc),
        Wire::Opt(part) | Wire::Vec(part) => Vec::from_slice(alloc, &[*part])?,
        Wire::Record(entries) | Wire::Variant(entries) => entry_parts(alloc, entries.as_slice())?,
        Wire::Func(parameters, results, _) => {
            function_parts(alloc, parameters.as_slice(), results.as_slice())?
        }
        Wire::Service(methods) => method_parts(alloc, methods.as_slice())?,
    })
}

fn reversed(alloc: Global, types: &[usize]) -> Result<Vec<usize>, Memory>
    ensures { IfOk result (λ made. made.items ≡ reverse types.now) }
{
    let mut made = Vec::from_slice(alloc, types)?;
    made.as_mut_slice().reverse();
    Ok(made)
}

/// Puts types on a stack, the first one at the top.
#[tactic(auto, using(crate::proofs::VisitLemmas::stacked))]
pub(crate) fn put_types(alloc: Global, types: &[usize], todo: &mut Vec<usize>) -> Result<(), Memory>
    ensures { OnOk result (reverse todo.new.items ≡ types.now ++ reverse todo.old.items) }
{
    let back = reversed(alloc, types)?;
    todo.extend_from_slice(back.as_slice())?;
    Ok(())
}

/// Whether the type has no parts.
fn is_simple(head: &Wire<usize>) -> bool
    ensures yes { IsTrue result → IsSimple head.now }
    ensures no { IsFalse result → IsSimple head.now → ⊥ }
{
    match head {
        Wire::Simple(_) => true,
        _ => false,
    }
}

/// Puts a type at the end of the order.
fn add(number: usize, class: usize, table: &mut Table) -> Result<(), Memory>
    requires { list_any (nat_eq class) table.old.seen.keys ≡ false }
    ensures shapes { table.new.shapes ≡ table.old.shapes }
    ensures classes { table.new.classes ≡ table.old.classes }
    ensures order { OnOk result (table.new.order.items ≡ table.old.order.items ++ number ∷ []) }
    ensures seen { OnOk result (table.new.seen.keys ≡ table.old.seen.keys ++ class ∷ []) }
{
    table.seen.insert(class)?;
    table.order.push(number)?;
    Ok(())
}

/// Visits one type: it is put at the end of the order, and its parts on the stack, where it has parts and no type that
/// is equal to it was visited.
fn step(
    alloc: Global,
    number: usize,
    table: &mut Table,
    todo: &mut Vec<usize>,
) -> Result<(), Memory>
    requires { IsReady table.old }
    ensures { OnOk result (Steps number table.old table.new todo.old.items todo.new.items) }
{
    let head = match table.shapes.get(number) {
        Some(head) => head,
        None => return Ok(()),
    };
    if is_simple(head) {
        return Ok(());
    }
    let parts = parts_of(alloc, head)?;
    let class = class_at(table.classes.as_slice(), number);
    if table.seen.contains(&class) {
        return Ok(());
    }
    add(number, class, table)?;
    put_types(alloc, parts.as_slice(), todo)
}

/// The types that a header of these types has, in the order of first visit: a type before its parts, each once up to
/// equality.
pub(crate) fn visit(alloc: Global, shapes: Shapes, roots: &[usize]) -> Result<Table, Memory>
    requires { slice_get shapes 0 ≡ Some (Simple plain.Empty) }
    ensures { IfOk result (λ table. Visited shapes roots.now table) }
{
    let classes = classes_of(alloc, &shapes)?;
    let mut table = Table {
        shapes,
        classes,
        order: Vec::new(alloc),
        seen: IndexSet::new(alloc),
    };
    let mut todo = Vec::new(alloc);
    put_types(alloc, roots, &mut todo)?;
    while let Some(number) = todo.pop() {
        step(alloc, number, &mut table, &mut todo)?;
    }
    Ok(table)
}
