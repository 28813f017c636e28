//! Texts of bodies and of a program.
ghost use Rattle.std.specs.Prelude.{◌≡◌, [], ℕ, map, IfOk, OnOk};
ghost use Rattle.core_ir.specs.CodeView.{code_body};
ghost use Rattle.core_ir.specs.ProgramView.{flat, group as group_view, method as method_view};
ghost use Rattle.low_emit.specs.Texts as texts;

use crate::code::add_code;
use core_ir::{CodeBody, Flat, Group, Method};
use mo_num::Memory;
use std::alloc::Global;
use text_table::TextTable;

fn add_body(body: &CodeBody, table: &mut TextTable) -> Result<(), Memory>
    ensures { OnOk result ((functions sees : ℕ) → table.new ≡ texts.segments_texts (code_body functions sees body.now).segments table.old) }
{
    for segment in body.segments.as_slice() {
        add_code(segment, table)?;
    }
    Ok(())
}

fn add_bodies(bodies: &[CodeBody], table: &mut TextTable) -> Result<(), Memory>
    ensures { OnOk result ((functions sees : ℕ) → table.new ≡ texts.bodies_texts (map (code_body functions sees) bodies.now) table.old) }
{
    for body in bodies {
        add_body(body, table)?;
    }
    Ok(())
}

fn add_groups(groups: &[Group<CodeBody>], table: &mut TextTable) -> Result<(), Memory>
    ensures { OnOk result (table.new ≡ texts.groups_texts (map (group_view code_body) groups.now) table.old) }
{
    for group in groups {
        add_bodies(group.bodies.as_slice(), table)?;
    }
    Ok(())
}

fn add_methods(methods: &[Method<CodeBody>], table: &mut TextTable) -> Result<(), Memory>
    ensures { OnOk result (table.new ≡ texts.methods_texts (map (method_view code_body) methods.now) table.old) }
{
    for method in methods {
        add_body(&method.body, table)?;
    }
    Ok(())
}

fn add_common(table: &mut TextTable) -> Result<(), Memory>
    ensures { OnOk result (table.old ≡ [] → table.new ≡ texts.common_texts) }
{
    table.add(b"arithmetic overflow")?;
    table.add(b"natural subtraction underflow")?;
    table.add(b"divide by zero")?;
    table.add(b"assertion failed")?;
    table.add(b"bad argument")?;
    table.add(b"message too long")?;
    Ok(())
}

/// The texts of a program, in the order of first sight.
pub fn texts_of(alloc: Global, program: &Flat) -> Result<TextTable, Memory>
    ensures { IfOk result (λ table. table ≡ texts.texts_of (flat program.now)) }
{
    let mut table = TextTable::new(alloc);
    add_common(&mut table)?;
    add_groups(program.program.groups.as_slice(), &mut table)?;
    add_methods(program.program.methods.as_slice(), &mut table)?;
    add_body(&program.program.start, &mut table)?;
    Ok(table)
}
