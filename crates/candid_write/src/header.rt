//! Writes headers: Candid specification, section "Type definition table".
ghost use Rattle.std.specs.Prelude.{◌≡◌, ◌<◌, ◌^◌, ◌∷◌, [], OnOk, length, map, pos};
ghost use Rattle.candid_types.specs.Shapes.{shape_at};
ghost use Rattle.mo_types.specs.Sub.{Each};
ghost use Rattle.mo_types.specs.Header.{IsAt, IsByte, IsKnown, IsEach, IsEntry, IsField, IsList, IsMethod, magic};
ghost use Rattle.mo_types.specs.Spelling.{IsString, shortest};
ghost use Rattle.candid_write.specs.Appends.{Appends, IsFunction, IsHeaderOf, IsRefIn, simple_of};
ghost use Rattle.candid_write.specs.Order.{IsClosed, IsComplete, IsPlaced, IsReady};

use crate::places::Table;
use crate::signature::class_at;
use candid_types::Shapes;
use mo_num::{Bytes, Memory, leb_write, sleb_write};
use mo_types::{Entry, Method, Plain, Wire};

/// Writes a count. One of 2^32 or more has no place in a message.
pub fn put_count(count: usize, out: &mut Bytes) -> Result<(), Memory>
    ensures { OnOk result (Appends (λ b. shortest.unsigned 32 b count) out.old out.new) }
{
    if count > u32::MAX as usize {
        return Err(Memory);
    }
    leb_write(count as u128, out)
}

/// Writes a count of bytes, and the bytes.
pub fn put_string(text: &[u8], out: &mut Bytes) -> Result<(), Memory>
    ensures { OnOk result (Appends (IsString shortest text.now) out.old out.new) }
{
    put_count(text.len(), out)?;
    out.extend(text)
}

fn put_place(place: usize, out: &mut Bytes) -> Result<(), Memory>
    ensures { OnOk result (Appends (λ b. shortest.signed 33 b (pos place)) out.old out.new) }
{
    if place > u32::MAX as usize {
        return Err(Memory);
    }
    sleb_write(place as i128, out)
}

/// The type of this number, if it has no parts.
fn simple_of(shapes: &Shapes, number: usize) -> Option<Plain>
    ensures { result ≡ simple_of (shape_at shapes.now number) }
{
    match shapes.get(number) {
        Some(head) => plain_of(head),
        None => Some(Plain::Empty),
    }
}

fn plain_of(head: &Wire<usize>) -> Option<Plain>
    ensures { result ≡ simple_of head.now }
{
    match head {
        Wire::Simple(simple) => Some(*simple),
        _ => None,
    }
}

/// The place of the type of the header that is equal to this one.
fn place_of(table: &Table, number: usize) -> usize
    requires ready { IsReady table.now }
    requires known { IsKnown (shape_at table.now.shapes) table.now.order.items number }
    ensures { IsAt (shape_at table.now.shapes) table.now.order.items number result }
{
    let class = class_at(table.classes.as_slice(), number);
    match table.seen.get_index_of(&class) {
        Some(place) => place,
        None => unreachable!(),
    }
}

/// Writes a type by its code, or by the place of the one of the header that is equal to it.
fn put_ref(table: &Table, number: usize, out: &mut Bytes) -> Result<(), Memory>
    requires ready { IsReady table.now }
    requires placed { IsPlaced table.now number }
    ensures { OnOk result (Appends (IsRefIn table.now number) out.old out.new) }
{
    match simple_of(&table.shapes, number) {
        Some(simple) => out.push(simple.code()),
        None => put_place(place_of(table, number), out),
    }
}

fn put_each_ref(table: &Table, numbers: &[usize], out: &mut Bytes) -> Result<(), Memory>
    requires ready { IsReady table.now }
    requires placed { Each (IsPlaced table.now) numbers.now }
    ensures { OnOk result (Appends (IsEach (IsRefIn table.now) numbers.now) out.old out.new) }
{
    for number in numbers {
        put_ref(table, *number, out)?;
    }
    Ok(())
}

/// Writes types, with their count.
fn put_refs(table: &Table, numbers: &[usize], out: &mut Bytes) -> Result<(), Memory>
    requires ready { IsReady table.now }
    requires placed { Each (IsPlaced table.now) numbers.now }
    ensures { OnOk result (Appends (IsList shortest (IsRefIn table.now) numbers.now) out.old out.new) }
{
    put_count(numbers.len(), out)?;
    put_each_ref(table, numbers, out)
}

fn put_field(table: &Table, field: &Entry<usize>, out: &mut Bytes) -> Result<(), Memory>
    requires ready { IsReady table.now }
    requires placed { IsPlaced table.now field.now.part }
    ensures { OnOk result (Appends (IsField shortest (IsRefIn table.now) field.now) out.old out.new) }
{
    put_count(field.id as usize, out)?;
    put_ref(table, field.part, out)
}

fn put_each_field(table: &Table, fields: &[Entry<usize>], out: &mut Bytes) -> Result<(), Memory>
    requires ready { IsReady table.now }
    requires placed { Each (λ e. IsPlaced table.now e.part) fields.now }
    ensures { OnOk result (Appends (IsEach (IsField shortest (IsRefIn table.now)) fields.now) out.old out.new) }
{
    for field in fields {
        put_field(table, field, out)?;
    }
    Ok(())
}

fn put_fields(table: &Table, fields: &[Entry<usize>], out: &mut Bytes) -> Result<(), Memory>
    requires ready { IsReady table.now }
    requires placed { Each (λ e. IsPlaced table.now e.part) fields.now }
    ensures { OnOk result (Appends (IsList shortest (IsField shortest (IsRefIn table.now)) fields.now) out.old out.new) }
{
    put_count(fields.len(), out)?;
    put_each_field(table, fields, out)
}

fn put_method(table: &Table, method: &Method<usize>, out: &mut Bytes) -> Result<(), Memory>
    requires ready { IsReady table.now }
    requires placed { IsPlaced table.now method.now.part }
    ensures { OnOk result (Appends (IsMethod shortest (IsRefIn table.now) method.now) out.old out.new) }
{
    put_string(method.name.as_slice(), out)?;
    put_ref(table, method.part, out)
}

fn put_each_method(table: &Table, methods: &[Method<usize>], out: &mut Bytes) -> Result<(), Memory>
    requires ready { IsReady table.now }
    requires placed { Each (λ m. IsPlaced table.now m.part) methods.now }
    ensures { OnOk result (Appends (IsEach (IsMethod shortest (IsRefIn table.now)) methods.now) out.old out.new) }
{
    for method in methods {
        put_method(table, method, out)?;
    }
    Ok(())
}

fn put_methods(table: &Table, methods: &[Method<usize>], out: &mut Bytes) -> Result<(), Memory>
    requires ready { IsReady table.now }
    requires placed { Each (λ m. IsPlaced table.now m.part) methods.now }
    ensures { OnOk result (Appends (IsList shortest (IsMethod shortest (IsRefIn table.now)) methods.now) out.old out.new) }
{
    put_count(methods.len(), out)?;
    put_each_method(table, methods, out)
}

/// Writes the bytes of annotations, with their count.
fn put_annotations(annotations: &[u8], out: &mut Bytes) -> Result<(), Memory>
    ensures { OnOk result (Appends (IsList shortest IsByte annotations.now) out.old out.new) }
{
    put_string(annotations, out)
}

fn put_function(
    table: &Table,
    parameters: &[usize],
    results: &[usize],
    annotations: &[u8],
    out: &mut Bytes,
) -> Result<(), Memory>
    requires ready { IsReady table.now }
    requires parameters { Each (IsPlaced table.now) parameters.now }
    requires results { Each (IsPlaced table.now) results.now }
    ensures { OnOk result (Appends (IsFunction (IsRefIn table.now) parameters.now results.now annotations.now) out.old out.new) }
{
    put_refs(table, parameters, out)?;
    put_refs(table, results, out)?;
    put_annotations(annotations, out)
}

/// Writes an entry of the table.
fn put_head(table: &Table, head: &Wire<usize>, out: &mut Bytes) -> Result<(), Memory>
    requires ready { IsReady table.now }
    requires closed { IsClosed table.now head.now }
    ensures { OnOk result (Appends (IsEntry shortest (IsRefIn table.now) head.now) out.old out.new) }
{
    match head {
        Wire::Simple(_) => unreachable!(),
        Wire::Opt(part) => {
            out.push(0x6e)?;
            put_ref(table, *part, out)
        }
        Wire::Vec(part) => {
            out.push(0x6d)?;
            put_ref(table, *part, out)
        }
        Wire::Record(fields) => {
            out.push(0x6c)?;
            put_fields(table, fields.as_slice(), out)
        }
        Wire::Variant(tags) => {
            out.push(0x6b)?;
            put_fields(table, tags.as_slice(), out)
        }
        Wire::Func(parameters, results, annotations) => {
            out.push(0x6a)?;
            put_function(
                table,
                parameters.as_slice(),
                results.as_slice(),
                annotations.as_slice(),
                out,
            )
        }
        Wire::Service(methods) => {
            out.push(0x69)?;
            put_methods(table, methods.as_slice(), out)
        }
    }
}

fn put_type(table: &Table, number: usize, out: &mut Bytes) -> Result<(), Memory>
    requires ready { IsReady table.now }
    requires closed { IsClosed table.now (shape_at table.now.shapes number) }
    ensures { OnOk result (Appends (IsEntry shortest (IsRefIn table.now) (shape_at table.now.shapes number)) out.old out.new) }
{
    match table.shapes.get(number) {
        Some(head) => put_head(table, head, out),
        None => unreachable!(),
    }
}

fn put_each_type(table: &Table, out: &mut Bytes) -> Result<(), Memory>
    requires { IsComplete table.now }
    ensures { OnOk result (Appends (IsEach (IsEntry shortest (IsRefIn table.now)) (map (shape_at table.now.shapes) table.now.order.items)) out.old out.new) }
{
    for number in &table.order {
        put_type(table, *number, out)?;
    }
    Ok(())
}

fn put_types(table: &Table, out: &mut Bytes) -> Result<(), Memory>
    requires { IsComplete table.now }
    ensures { OnOk result (Appends (IsList shortest (IsEntry shortest (IsRefIn table.now)) (map (shape_at table.now.shapes) table.now.order.items)) out.old out.new) }
{
    put_count(table.order.len(), out)?;
    put_each_type(table, out)
}

/// Writes the header of a table, with the arguments of these numbers.
pub(crate) fn put_header(table: &Table, arguments: &[usize], out: &mut Bytes) -> Result<(), Memory>
    requires complete { IsComplete table.now }
    requires placed { Each (IsPlaced table.now) arguments.now }
    ensures { OnOk result (Appends (IsHeaderOf table.now arguments.now) out.old out.new) }
{
    out.extend(b"DIDL")?;
    put_types(table, out)?;
    put_refs(table, arguments, out)
}
