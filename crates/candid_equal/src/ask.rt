//! The pairs that a pair asks.
ghost use Rattle.std.specs.Prelude.{◌≡◌, IfOk, nat_eq};
ghost use Rattle.std.specs.Cmp.Lexicographic.{pointwise};
ghost use Rattle.mo_types.specs.Wire.{plain_code};
ghost use Rattle.candid_equal.specs.Asks.{Adds, asks, each_asks, entry_asks, func_asks, method_asks, one, when};

use crate::Pair;
use mo_num::Memory;
use mo_types::{Entry, Method, Plain, TableRef, Wire};

fn ask_one(wire: TableRef, declared: usize, out: &mut Vec<Pair>) -> Result<bool, Memory>
    ensures { IfOk result (λ yes. Adds (one wire declared) yes out.old.items out.new.items) }
{
    out.push(Pair { wire, declared })?;
    Ok(true)
}

/// No pair, where the condition holds.
fn when(holds: bool, out: &mut Vec<Pair>) -> bool
    ensures { Adds (when holds) result out.old.items out.new.items }
{
    holds
}

fn ask_entry(
    wire: &Entry<TableRef>,
    declared: &Entry<usize>,
    out: &mut Vec<Pair>,
) -> Result<bool, Memory>
    ensures { IfOk result (λ yes. Adds (entry_asks wire.now declared.now) yes out.old.items out.new.items) }
{
    if wire.id != declared.id {
        return Ok(false);
    }
    ask_one(wire.part, declared.part, out)
}

fn is_same(left: &[u8], right: &[u8]) -> bool
    ensures { result ≡ pointwise nat_eq left.now right.now }
{
    left == right
}

fn ask_method(
    wire: &Method<TableRef>,
    declared: &Method<usize>,
    out: &mut Vec<Pair>,
) -> Result<bool, Memory>
    ensures { IfOk result (λ yes. Adds (method_asks wire.now declared.now) yes out.old.items out.new.items) }
{
    if !is_same(wire.name.as_slice(), declared.name.as_slice()) {
        return Ok(false);
    }
    ask_one(wire.part, declared.part, out)
}

fn ask_parts(wire: &[TableRef], declared: &[usize], out: &mut Vec<Pair>) -> Result<bool, Memory>
    ensures { IfOk result (λ yes. Adds (each_asks one wire.now declared.now) yes out.old.items out.new.items) }
{
    if wire.len() != declared.len() {
        return Ok(false);
    }
    for i in 0..wire.len() {
        if !ask_one(wire[i], declared[i], out)? {
            return Ok(false);
        }
    }
    Ok(true)
}

fn ask_entries(
    wire: &[Entry<TableRef>],
    declared: &[Entry<usize>],
    out: &mut Vec<Pair>,
) -> Result<bool, Memory>
    ensures { IfOk result (λ yes. Adds (each_asks entry_asks wire.now declared.now) yes out.old.items out.new.items) }
{
    if wire.len() != declared.len() {
        return Ok(false);
    }
    for i in 0..wire.len() {
        if !ask_entry(&wire[i], &declared[i], out)? {
            return Ok(false);
        }
    }
    Ok(true)
}

fn ask_methods(
    wire: &[Method<TableRef>],
    declared: &[Method<usize>],
    out: &mut Vec<Pair>,
) -> Result<bool, Memory>
    ensures { IfOk result (λ yes. Adds (each_asks method_asks wire.now declared.now) yes out.old.items out.new.items) }
{
    if wire.len() != declared.len() {
        return Ok(false);
    }
    for i in 0..wire.len() {
        if !ask_method(&wire[i], &declared[i], out)? {
            return Ok(false);
        }
    }
    Ok(true)
}

fn is_same_plain(left: Plain, right: Plain) -> bool
    ensures { result ≡ nat_eq (plain_code left) (plain_code right) }
{
    left.code() == right.code()
}

fn ask_func(
    wire: (&[TableRef], &[TableRef], &[u8]),
    declared: (&[usize], &[usize], &[u8]),
    out: &mut Vec<Pair>,
) -> Result<bool, Memory>
    ensures { IfOk result (λ yes. Adds (func_asks wire.entry.0.now wire.entry.1.now wire.entry.2.now declared.entry.0.now declared.entry.1.now declared.entry.2.now) yes out.old.items out.new.items) }
{
    if !is_same(wire.2, declared.2) {
        return Ok(false);
    }
    if !ask_parts(wire.0, declared.0, out)? {
        return Ok(false);
    }
    ask_parts(wire.1, declared.1, out)
}

/// The pairs of parts that have to be equal where the types are, at the end of the list; false where the heads differ.
pub fn ask(
    wire: &Wire<TableRef>,
    declared: &Wire<usize>,
    out: &mut Vec<Pair>,
) -> Result<bool, Memory>
    ensures { IfOk result (λ yes. Adds (asks wire.now declared.now) yes out.old.items out.new.items) }
{
    match (wire, declared) {
        (Wire::Simple(left), Wire::Simple(right)) => Ok(when(is_same_plain(*left, *right), out)),
        (Wire::Opt(left), Wire::Opt(right)) => ask_one(*left, *right, out),
        (Wire::Vec(left), Wire::Vec(right)) => ask_one(*left, *right, out),
        (Wire::Record(left), Wire::Record(right)) => {
            ask_entries(left.as_slice(), right.as_slice(), out)
        }
        (Wire::Variant(left), Wire::Variant(right)) => {
            ask_entries(left.as_slice(), right.as_slice(), out)
        }
        (Wire::Func(p, r, n), Wire::Func(q, s, m)) => ask_func(
            (p.as_slice(), r.as_slice(), n.as_slice()),
            (q.as_slice(), s.as_slice(), m.as_slice()),
            out,
        ),
        (Wire::Service(left), Wire::Service(right)) => {
            ask_methods(left.as_slice(), right.as_slice(), out)
        }
        _ => Ok(false),
    }
}
