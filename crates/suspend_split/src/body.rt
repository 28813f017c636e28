//! Bodies.
ghost use Rattle.std.specs.Prelude.{◌≡◌, IfOk, map};
ghost use Rattle.core_ir.specs.CodeView.{Names, code_body, code_of};
ghost use Rattle.core_ir.specs.View.{core_body};
ghost use Rattle.core_laws.specs.Split.{code_or_stop, split_body as body_split};
ghost use Rattle.suspend_split.specs.Drafts.{segment_code};
ghost use Rattle.suspend_split.specs.Makes.{size_of};

use crate::around::Surroundings;
use crate::draft::{Draft, Segments, State};
use crate::expression::split_expression;
use crate::operands::{after, operand_of, place_of};
use crate::width::expression_width;
use core_ir::{Code, CodeBody, CoreBody, Exit, Outermost, Scopes};
use mo_num::{Memory, Sequence};
use mo_syntax::Items;
use std::alloc::Global;

// The segments of the body; one that was kept free and has no code stops.
fn filled(alloc: Global, segments: Vec<Option<Code>>) -> Result<Sequence<Code>, Memory>
    ensures { IfOk result (λ made. (names : Names) → map (λ c. code_of c names) made ≡ map code_or_stop (map (segment_code names) segments.items)) }
{
    let mut rest = segments;
    let mut made = Vec::new(alloc);
    while let Some(segment) = rest.pop() {
        made.push(code_or_nothing(alloc, segment))?;
    }
    made.reverse();
    Ok(Sequence::from_vec(made))
}

#[tactic(auto, unfolding(core_ir::specs::CodeView::code_of, core_ir::specs::CodeView::instruction))]
fn code_or_nothing(alloc: Global, segment: Option<Code>) -> Code
    ensures { (names : Names) → code_of result names ≡ code_or_stop (segment_code names segment) }
{
    match segment {
        Some(code) => code,
        None => Code {
            instructions: Items::new(alloc),
            exit: Exit::Stop,
        },
    }
}

/// The body in a group of so many functions, which sees so many values.
pub(crate) fn split_body(
    alloc: Global,
    sizes: &[u32],
    functions: u32,
    sees: u32,
    body: &CoreBody,
) -> Result<CodeBody, Memory>
    ensures { IfOk result (λ made. code_body functions sees made ≡ body_split (size_of sizes.now) functions sees (core_body body.now)) }
{
    let parameters = body.parameters;
    let outermost = Outermost {
        parameters,
        functions,
        sees,
    };
    let expression = &body.expression;
    let width = expression_width(sizes, expression)?;
    let slots = after(after(parameters, width as usize)?, 1)?;
    let mut state = State {
        draft: Draft::new(alloc, Exit::Stop),
        segments: Segments::new(alloc),
        scopes: Scopes::new(alloc),
        around: Surroundings::new(alloc),
    };
    let first = state.segments.add(None)?;
    let operand = operand_of(alloc, &outermost, &state.scopes, expression, parameters, 0)?;
    state.draft = Draft::new(alloc, Exit::Return(operand));
    let target = place_of(expression, parameters);
    let free = after(parameters, 1)?;
    split_expression(
        alloc, sizes, &outermost, expression, target, free, 0, &mut state,
    )?;
    let State {
        draft,
        mut segments,
        scopes,
        around: _,
    } = state;
    segments.fill(first, draft.finish(alloc)?);
    let segments = filled(alloc, segments.into_vec())?;
    Ok(CodeBody {
        parameters,
        slots,
        nodes: body.nodes,
        scopes,
        segments,
    })
}
