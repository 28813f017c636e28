//! Builds the module of constant queries.
ghost use Rattle.std.specs.Prelude.{◌≡◌, IfOk};
ghost use Rattle.query_module.specs.Answers.{AreQueries, IsBuiltOf};
ghost use Rattle.query_module.specs.Tree.{IsQueryTree};

use crate::parts::{data, exports, functions, imports, memories, types};
use crate::reply::{joined, replies};
use mo_num::{Bytes, Memory, Sequence};
use query_source::Method;
use std::alloc::Global;
use wasm_tree::Module;
use wasm_write::write;

fn query_module(alloc: Global, methods: &[Method]) -> Result<Module, Memory>
    requires { AreQueries methods.now }
    ensures { IfOk result (λ tree. IsQueryTree methods.now tree) }
{
    let made = replies(alloc, methods)?;
    let bytes = joined(alloc, made.as_slice())?;
    Ok(Module {
        types: types(alloc)?,
        imports: imports(alloc)?,
        functions: functions(alloc, made.as_slice())?,
        tables: Sequence::new(alloc),
        memories: memories(alloc)?,
        globals: Sequence::new(alloc),
        exports: exports(alloc, methods)?,
        start: None,
        elements: Sequence::new(alloc),
        segments: data(alloc, bytes)?,
    })
}

/// The bytes of the actor's module: a valid module that does what the actor of the methods does, over calls, answers to
/// calls and upgrades, under all limits of a command line, and is never exhausted. It is installed, and then a query or a
/// call of a method is replied to with the method's number as a Candid message, a call of `__resume` with no values, and any
/// other is rejected with `no method`. The answer is Memory only where there was no memory for the module.
/// WebAssembly Core 1.0, sections 2.5 and 5.5; IC interface specification, sections Imports, Update call and Query call.
pub fn build_queries(alloc: Global, methods: &[Method]) -> Result<Bytes, Memory>
    requires { AreQueries methods.now }
    ensures { IfOk result (λ bytes. IsBuiltOf methods.now bytes) }
{
    let tree = query_module(alloc, methods)?;
    write(alloc, &tree)
}
