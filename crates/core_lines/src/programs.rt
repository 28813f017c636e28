//! Programs.
use crate::expressions::put_expression;
use crate::pieces::{put_comma, put_flag, put_kind, put_text, put_type, put_types};
use crate::types::put_node;
use core_ir::{Core, CoreBody, Group, Method, StableVariable};
use mo_num::{Bytes, Memory};
use mo_types::TypeGraph;
use play_script::put_decimal;
use std::alloc::Global;

fn put_body(alloc: Global, body: &CoreBody, out: &mut Bytes) -> Result<(), Memory> {
    out.extend(b"[")?;
    put_decimal(body.parameters as u64, out)?;
    out.extend(b",")?;
    put_decimal(body.nodes as u64, out)?;
    out.extend(b",")?;
    put_expression(alloc, &body.expression, out)?;
    out.extend(b"]")
}

fn put_graph(alloc: Global, graph: &TypeGraph, out: &mut Bytes) -> Result<(), Memory> {
    for number in 0..graph.len() {
        if let Some(node) = graph.get_index(number) {
            put_kind(b"type", out)?;
            put_node(alloc, node, out)?;
            out.extend(b"]\n")?;
        }
    }
    Ok(())
}

fn put_group(alloc: Global, group: &Group<CoreBody>, out: &mut Bytes) -> Result<(), Memory> {
    put_kind(b"group", out)?;
    put_decimal(group.sees as u64, out)?;
    out.extend(b",[")?;
    for (number, body) in group.bodies.as_slice().iter().enumerate() {
        put_comma(number, out)?;
        put_body(alloc, body, out)?;
    }
    out.extend(b"]]\n")
}

fn put_method(alloc: Global, method: &Method<CoreBody>, out: &mut Bytes) -> Result<(), Memory> {
    let signature = method.signature.get();
    put_kind(b"method", out)?;
    put_text(alloc, method.name.get().as_slice(), out)?;
    out.extend(b",")?;
    put_flag(method.query, out)?;
    out.extend(b",")?;
    put_types(signature.parameters.as_slice(), out)?;
    out.extend(b",")?;
    put_types(signature.results.as_slice(), out)?;
    out.extend(b",")?;
    put_body(alloc, &method.body, out)?;
    out.extend(b"]\n")
}

fn put_variable(alloc: Global, variable: &StableVariable, out: &mut Bytes) -> Result<(), Memory> {
    put_kind(b"stable", out)?;
    put_text(alloc, variable.name.as_slice(), out)?;
    out.extend(b",")?;
    put_type(variable.of_type, out)?;
    out.extend(b"]\n")
}

// A body with its kind.
fn put_named(alloc: Global, word: &[u8], body: &CoreBody, out: &mut Bytes) -> Result<(), Memory> {
    put_kind(word, out)?;
    put_body(alloc, body, out)?;
    out.extend(b"]\n")
}

/// The lines of a program.
pub(crate) fn put_core(alloc: Global, core: &Core, out: &mut Bytes) -> Result<(), Memory> {
    let program = &core.program;
    put_graph(alloc, program.types.get(), out)?;
    for group in program.groups.as_slice() {
        put_group(alloc, group, out)?;
    }
    for method in program.methods.as_slice() {
        put_method(alloc, method, out)?;
    }
    for variable in program.stable.get().as_slice() {
        put_variable(alloc, variable, out)?;
    }
    put_named(alloc, b"save", &program.save, out)?;
    put_named(alloc, b"start", &program.start, out)
}
