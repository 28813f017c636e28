//! The bodies of functions (WebAssembly Core 1.0, section 5.5.13).
ghost use Rattle.std.specs.Prelude.{◌≡◌, ◌+◌, ◌<◌, ◌^◌, IfOk};
ghost use Rattle.exact_reading.specs.Reading.{Tells, Gives, many};
ghost use Rattle.wasm_read.specs.Parts.{count_at, locals_at, with_group, groups_at, code_at, codes_at, code_vector_at};

use crate::expression::read_expression;
use crate::fault::Fault;
use crate::instruction::read_value_type;
use crate::number::{read_slice, read_u32};
use exact_reading::Stop;
use mo_num::Sequence;
use std::alloc::Global;
use wasm_tree::{Function, Locals};

/// The count of a group of locals behind so many others, of which a function has fewer than 2^32.
fn read_count(before: u32, bytes: &[u8]) -> Result<(u32, &[u8]), Fault>
    ensures { Tells (λ x. (x.0, x.1.now)) result (count_at before bytes.now) }
{
    let (count, rest) = read_u32(bytes)?;
    if count > u32::MAX - before {
        return Err(Fault::Malformed);
    }
    Ok((count, rest))
}

#[tactic(auto, unfolding(crate::specs::Parts::locals_at))]
fn read_group(before: u32, bytes: &[u8]) -> Result<(Locals, &[u8]), Stop<Fault>>
    ensures told { Gives (λ x. (x.0, x.1.now)) result (locals_at before bytes.now) }
    ensures few { IfOk result (λ x. before + x.0.count < 2 ^ 32) }
{
    let (count, rest) = read_count(before, bytes)?;
    let (kind, rest) = read_value_type(rest)?;
    Ok((Locals { count, kind }, rest))
}

fn read_so_many_groups(
    alloc: Global,
    number: u32,
    bytes: &[u8],
) -> Result<(Vec<Locals>, &[u8]), Stop<Fault>>
    ensures { Gives (λ x. (x.0.items, x.1.now)) result (many locals_at with_group number 0 bytes.now) }
{
    let mut groups = Vec::new(alloc);
    let mut before = 0;
    let mut rest = bytes;
    for _ in 0..number {
        let (group, left) = read_group(before, rest)?;
        before += group.count;
        groups.push(group)?;
        rest = left;
    }
    Ok((groups, rest))
}

#[tactic(auto, unfolding(crate::specs::Parts::groups_at))]
fn read_groups(alloc: Global, bytes: &[u8]) -> Result<(Sequence<Locals>, &[u8]), Stop<Fault>>
    ensures { Gives (λ x. (x.0, x.1.now)) result (groups_at bytes.now) }
{
    let (number, rest) = read_u32(bytes)?;
    let (groups, rest) = read_so_many_groups(alloc, number, rest)?;
    Ok((Sequence::from_vec(groups), rest))
}

/// The function with this type whose locals and body stand behind their size.
#[tactic(auto, unfolding(crate::specs::Parts::body_parts_at))]
fn read_code(alloc: Global, signature: u32, bytes: &[u8]) -> Result<(Function, &[u8]), Stop<Fault>>
    ensures { Gives (λ x. (x.0, x.1.now)) result (code_at signature bytes.now) }
{
    let (contents, rest) = read_slice(bytes)?;
    let (locals, left) = read_groups(alloc, contents)?;
    let (body, left) = read_expression(alloc, left)?;
    if left.len() != 0 {
        return Err(Stop::Fault(Fault::Malformed));
    }
    Ok((
        Function {
            signature,
            locals,
            body,
        },
        rest,
    ))
}

fn read_each_code<'a>(
    alloc: Global,
    signatures: &[u32],
    bytes: &'a [u8],
) -> Result<(Vec<Function>, &'a [u8]), Stop<Fault>>
    ensures { Gives (λ x. (x.0.items, x.1.now)) result (codes_at signatures.now bytes.now) }
{
    let mut functions = Vec::new(alloc);
    let mut rest = bytes;
    for signature in signatures {
        let (function, left) = read_code(alloc, *signature, rest)?;
        functions.push(function)?;
        rest = left;
    }
    Ok((functions, rest))
}

/// As many bodies as there are functions.
#[tactic(auto, unfolding(crate::specs::Parts::code_vector_at))]
pub fn read_codes<'a>(
    alloc: Global,
    signatures: &[u32],
    bytes: &'a [u8],
) -> Result<(Sequence<Function>, &'a [u8]), Stop<Fault>>
    ensures { Gives (λ x. (x.0, x.1.now)) result (code_vector_at signatures.now bytes.now) }
{
    let (count, rest) = read_u32(bytes)?;
    if count as usize != signatures.len() {
        return Err(Stop::Fault(Fault::Malformed));
    }
    let (functions, rest) = read_each_code(alloc, signatures, rest)?;
    Ok((Sequence::from_vec(functions), rest))
}
