//! Whole programs as they are made.
ghost use Rattle.std.specs.Prelude.{◌≡◌, IfOk};
ghost use Rattle.core_ir.specs.ProgramView.{core};
ghost use Rattle.typed_tree.specs.ProgramView as source;
ghost use Rattle.elaboration.specs.Programs.{elaborated};

use crate::actor::{Actor, actor_of};
use crate::methods::{methods_of, variables_of};
use core_ir::{Core, CoreBody, Program, Shared};
use core_parts::{amount, one_more};
use graph_copies::graph_again;
use mo_num::Memory;
use std::alloc::Global;

/// What a program becomes. It recurs as deep as the expressions of the program, and the parser lets only so many levels pass.
pub(crate) fn program_of(alloc: Global, program: &typed_tree::Program) -> Result<Core, Memory>
    ensures { IfOk result (λ made. core made ≡ elaborated (source.program program.now)) }
{
    let kept = amount(program.stable.len())?;
    let parameters = one_more(kept)?;
    let graph = graph_again(alloc, &program.types)?;
    let types = Shared::new(alloc, graph)?;
    let variables = variables_of(alloc, program.stable.as_slice())?;
    let stable = Shared::new(alloc, variables)?;
    let Actor {
        start,
        groups,
        methods: bodies,
        save,
    } = actor_of(alloc, program)?;
    let methods = methods_of(alloc, program.methods.as_slice(), bodies)?;
    Ok(Core {
        program: Program {
            types,
            groups,
            methods,
            stable,
            save,
            start: CoreBody {
                parameters,
                nodes: program.nodes,
                expression: start,
            },
        },
    })
}
