//! Heads of types up to the classes of their parts, as lists of numbers.
ghost use Rattle.std.specs.Prelude.{◌≡◌, ◌∷◌, ◌++◌, [], IfOk, OnOk};
ghost use Rattle.std.specs.List.{flat_map};
ghost use Rattle.candid_write.specs.Classes.{class_at};
ghost use Rattle.candid_write.specs.Signature.{class_list, entry_numbers, method_numbers, signature};

use mo_num::Memory;
use mo_types::{Entry, Method, Wire};
use std::alloc::Global;

/// The class of a number.
pub(crate) fn class_at(classes: &[usize], number: usize) -> usize
    ensures { result ≡ class_at classes.now number }
{
    match classes.get(number) {
        Some(class) => *class,
        None => match classes {
            [first, ..] => *first,
            [] => 0,
        },
    }
}

fn put_class(classes: &[usize], part: usize, out: &mut Vec<u64>) -> Result<(), Memory>
    ensures { OnOk result (out.new.items ≡ out.old.items ++ class_at classes.now part ∷ []) }
{
    out.push(class_at(classes, part) as u64)?;
    Ok(())
}

fn put_classes(classes: &[usize], parts: &[usize], out: &mut Vec<u64>) -> Result<(), Memory>
    ensures { OnOk result (out.new.items ≡ out.old.items ++ class_list classes.now parts.now) }
{
    for part in parts {
        put_class(classes, *part, out)?;
    }
    Ok(())
}

fn put_bytes(bytes: &[u8], out: &mut Vec<u64>) -> Result<(), Memory>
    ensures { OnOk result (out.new.items ≡ out.old.items ++ bytes.now) }
{
    for byte in bytes {
        out.push(u64::from(*byte))?;
    }
    Ok(())
}

fn put_entry(classes: &[usize], entry: &Entry<usize>, out: &mut Vec<u64>) -> Result<(), Memory>
    ensures { OnOk result (out.new.items ≡ out.old.items ++ entry_numbers classes.now entry.now) }
{
    out.push(u64::from(entry.id))?;
    put_class(classes, entry.part, out)
}

fn put_entries(
    classes: &[usize],
    entries: &[Entry<usize>],
    out: &mut Vec<u64>,
) -> Result<(), Memory>
    ensures { OnOk result (out.new.items ≡ out.old.items ++ flat_map (entry_numbers classes.now) entries.now) }
{
    for entry in entries {
        put_entry(classes, entry, out)?;
    }
    Ok(())
}

fn put_method(classes: &[usize], method: &Method<usize>, out: &mut Vec<u64>) -> Result<(), Memory>
    ensures { OnOk result (out.new.items ≡ out.old.items ++ method_numbers classes.now method.now) }
{
    out.push(method.name.len() as u64)?;
    put_bytes(method.name.as_slice(), out)?;
    put_class(classes, method.part, out)
}

fn put_methods(
    classes: &[usize],
    methods: &[Method<usize>],
    out: &mut Vec<u64>,
) -> Result<(), Memory>
    ensures { OnOk result (out.new.items ≡ out.old.items ++ flat_map (method_numbers classes.now) methods.now) }
{
    for method in methods {
        put_method(classes, method, out)?;
    }
    Ok(())
}

/// The head with the classes of its parts. Two have one list exactly where they are equal up to these classes.
pub(crate) fn signature(
    alloc: Global,
    classes: &[usize],
    head: &Wire<usize>,
) -> Result<Vec<u64>, Memory>
    ensures { IfOk result (λ made. made.items ≡ signature classes.now head.now) }
{
    let mut out = Vec::new(alloc);
    match head {
        Wire::Simple(simple) => {
            out.push(0)?;
            out.push(u64::from(simple.code()))?;
        }
        Wire::Opt(part) => {
            out.push(1)?;
            put_class(classes, *part, &mut out)?;
        }
        Wire::Vec(part) => {
            out.push(2)?;
            put_class(classes, *part, &mut out)?;
        }
        Wire::Record(entries) => {
            out.push(3)?;
            put_entries(classes, entries.as_slice(), &mut out)?;
        }
        Wire::Variant(entries) => {
            out.push(4)?;
            put_entries(classes, entries.as_slice(), &mut out)?;
        }
        Wire::Func(parameters, results, annotations) => {
            out.push(5)?;
            out.push(parameters.len() as u64)?;
            out.push(results.len() as u64)?;
            put_classes(classes, parameters.as_slice(), &mut out)?;
            put_classes(classes, results.as_slice(), &mut out)?;
            put_bytes(annotations.as_slice(), &mut out)?;
        }
        Wire::Service(methods) => {
            out.push(6)?;
            put_methods(classes, methods.as_slice(), &mut out)?;
        }
    }
    Ok(out)
}
