//! Code of expressions, made from its end: what stands behind an expression is made before it.
ghost use Rattle.std.specs.Prelude.{◌≡◌, ◌≤◌, ℕ, suc, slice_index_or, Option, IfOk, OnOk, length, map};
ghost use Rattle.core_ir.specs.Expressions.{Label as LabelForm, Loop as LoopForm};
ghost use Rattle.core_ir.specs.View.{exps, expression as expression_view, goal as goal_view};
ghost use Rattle.core_laws.specs.Split.{split_all, split_exp, split_goal as goal_split};
ghost use Rattle.suspend_split.specs.Bindings.{MakesBindings, nowhere};
ghost use Rattle.suspend_split.specs.Makes.{Grows, Makes, MakesAside, MakesInside, size_of};

use crate::around::Around;
use crate::awaits::{either_awaits, expression_awaits};
use crate::bindings::{Opening, open_all, opening_at};
use crate::draft::{Draft, State, jump, next};
use crate::operands::{after, copied, first, operand_of, operands_of, others, place_of, slot_of};
use core_ir::{Binding, Code, Exit, Expression, Goal, Instruction, Operand, Outermost, Seen};
use mo_num::Memory;
use std::alloc::Global;
use std::mem::replace;

/// Before the code, code that computes the expression into the slot, if its value is looked at. Slots from the free one on are free.
#[cycle(splitting)]
#[tactic(auto, unfolding(core_ir::specs::View::expression, core_ir::specs::View::goal, core_ir::specs::View::binding, core_ir::specs::CodeView::code_of, core_ir::specs::CodeView::instruction))]
pub(crate) fn split_expression(
    alloc: Global,
    sizes: &[u32],
    outermost: &Outermost,
    expression: &Expression,
    target: Option<u32>,
    free: u32,
    scope: u32,
    state: &mut State,
) -> Result<(), Memory>
    requires within { scope ≤ length state.old.scopes }
    ensures { OnOk result (Makes outermost.now state.old state.new (λ names ls c segments. split_exp (size_of sizes.now) (expression_view expression.now) target free (names scope) ls c segments)) }
{
    match expression {
        Expression::Constant(constant) => {
            let operand = Operand::Constant(constant.share()?);
            state.draft.put_move(alloc, target, operand)
        }
        Expression::Name(name) => {
            let operand = state.scopes.name(alloc, outermost, scope, *name)?;
            state.draft.put_move(alloc, target, operand)
        }
        Expression::Global(name) => { state.draft.put_move(alloc, target, Operand::Global(*name)) }
        Expression::Do(goal, arguments) => {
            let arguments = arguments.as_slice();
            let operands = operands_of(alloc, outermost, &state.scopes, arguments, free, scope)?;
            let behind = after(free, arguments.len())?;
            split_goal(
                alloc,
                sizes,
                outermost,
                goal,
                operands.as_slice(),
                target,
                behind,
                scope,
                state,
            )?;
            split_arguments(alloc, sizes, outermost, arguments, free, scope, state)?;
            Ok(())
        }
        Expression::Block(bindings, value) => {
            let bindings = bindings.as_slice();
            let opening = Opening { scope, free };
            let openings = open_all(
                alloc,
                sizes,
                outermost,
                bindings,
                opening,
                &mut state.scopes,
            )?;
            let last = opening_at(&openings, bindings.len(), &state.scopes);
            let value = value.get();
            split_expression(
                alloc, sizes, outermost, value, target, last.free, last.scope, state,
            )?;
            split_bindings(alloc, sizes, outermost, bindings, &openings, state)?;
            Ok(())
        }
        Expression::Loop(body) => {
            split_loop(alloc, sizes, outermost, body.get(), free, scope, state)?;
            Ok(())
        }
        Expression::Label(body) => {
            split_label(
                alloc,
                sizes,
                outermost,
                body.get(),
                target,
                free,
                scope,
                state,
            )
        }
        Expression::Try(body, handler) => {
            let body = body.get();
            let handler = handler.get();
            let cut = either_awaits(body, handler);
            let behind = after(free, 1)?;
            let inner = state.scopes.add(Operand::Slot(free), scope)?;
            if cut {
                let segment = state.cut(alloc)?;
                let exit = Exit::Leave(segment);
                let caught = split_inside(
                    alloc, sizes, outermost, handler, target, behind, inner, exit, state,
                )?;
                let catching = state.segments.add(Some(caught))?;
                state.draft = Draft::new(alloc, Exit::Leave(segment));
                state.around.enter(Around::HandlerAt(catching, free))?;
                split_expression(alloc, sizes, outermost, body, target, behind, scope, state)?;
                state.around.leave();
                return Ok(());
            }
            state.around.enter(Around::Other)?;
            let exit = Exit::Stop;
            let mut caught = split_aside(
                alloc, sizes, outermost, handler, target, behind, inner, exit, state,
            )?;
            state.around.enter(Around::HandlerHere(free))?;
            let exit = Exit::Branch(1);
            let code = split_inside(
                alloc, sizes, outermost, body, target, behind, scope, exit, state,
            )?;
            state.around.leave();
            state.around.leave();
            caught.put(Instruction::Label(code))?;
            let code = caught.finish(alloc)?;
            state.draft.put(Instruction::Label(code))?;
            Ok(())
        }
    }
}

// Each argument into its own slot.
#[cycle(splitting)]
fn split_arguments(
    alloc: Global,
    sizes: &[u32],
    outermost: &Outermost,
    arguments: &[Expression],
    free: u32,
    scope: u32,
    state: &mut State,
) -> Result<(), Memory>
    requires within { scope ≤ length state.old.scopes }
    ensures { OnOk result (Makes outermost.now state.old state.new (λ names ls c segments. split_all (size_of sizes.now) (exps (map expression_view arguments.now)) free (names scope) ls c segments)) }
{
    let mut number = arguments.len();
    while number > 0 {
        number -= 1;
        let argument = &arguments[number];
        let slot = after(free, number)?;
        let behind = after(slot, 1)?;
        split_expression(
            alloc,
            sizes,
            outermost,
            argument,
            place_of(argument, slot),
            behind,
            scope,
            state,
        )?;
    }
    Ok(())
}

// The goal with these operands.
#[cycle(splitting)]
#[tactic(auto, unfolding(core_ir::specs::View::expression, core_ir::specs::View::goal, core_ir::specs::View::binding, core_ir::specs::CodeView::code_of, core_ir::specs::CodeView::instruction))]
fn split_goal(
    alloc: Global,
    sizes: &[u32],
    outermost: &Outermost,
    goal: &Goal,
    operands: &[Operand],
    target: Option<u32>,
    free: u32,
    scope: u32,
    state: &mut State,
) -> Result<(), Memory>
    requires within { scope ≤ length state.old.scopes }
    ensures { OnOk result (Makes outermost.now state.old state.new (λ names ls c segments. goal_split (size_of sizes.now) (goal_view goal.now) operands.now target free (names scope) ls c segments)) }
{
    let slot = slot_of(target, free);
    match goal {
        Goal::Operate(primitive) => {
            let primitive = primitive.share()?;
            let operands = copied(alloc, operands)?;
            state
                .draft
                .put(Instruction::Let(slot, primitive, operands))?;
            Ok(())
        }
        Goal::Choose(primitive, yes, no) => {
            let yes = yes.get();
            let no = no.get();
            let cut = either_awaits(yes, no);
            let segment = state.begin(alloc, cut)?;
            let exit = next(segment);
            let yes = split_inside(
                alloc, sizes, outermost, yes, target, free, scope, exit, state,
            )?;
            let exit = next(segment);
            let no = split_inside(
                alloc, sizes, outermost, no, target, free, scope, exit, state,
            )?;
            state.end(cut);
            let primitive = primitive.share()?;
            let operands = copied(alloc, operands)?;
            state
                .draft
                .put(Instruction::If(primitive, operands, yes, no))?;
            Ok(())
        }
        Goal::Match(constructor, yes, no) => {
            let yes = yes.get();
            let no = no.get();
            let behind = after(free, 1)?;
            let inner = state.scopes.add(Operand::Slot(free), scope)?;
            let cut = either_awaits(yes, no);
            let segment = state.begin(alloc, cut)?;
            let exit = next(segment);
            let yes = split_inside(
                alloc, sizes, outermost, yes, target, behind, inner, exit, state,
            )?;
            let exit = next(segment);
            let no = split_inside(
                alloc, sizes, outermost, no, target, behind, scope, exit, state,
            )?;
            state.end(cut);
            let constructor = constructor.share()?;
            let operand = first(operands)?;
            state
                .draft
                .put(Instruction::Match(free, constructor, operand, yes, no))?;
            Ok(())
        }
        Goal::Call => {
            let function = first(operands)?;
            let operands = copied(alloc, others(operands))?;
            state
                .draft
                .put(Instruction::Call(slot, function, operands))?;
            Ok(())
        }
        Goal::Tabulate => {
            let size = first(operands)?;
            let function = first(others(operands))?;
            state
                .draft
                .put(Instruction::Tabulate(slot, size, function))?;
            Ok(())
        }
        Goal::Send(signature) => {
            let handler = state.around.handler()?;
            let signature = signature.share()?;
            let function = first(operands)?;
            let operands = copied(alloc, others(operands))?;
            state.draft.put(Instruction::Send(slot, signature, function, operands, handler))?;
            Ok(())
        }
        Goal::Throw => {
            let handler = state.around.handler()?;
            state.draft = Draft::new(alloc, Exit::Raise(first(operands)?, handler));
            Ok(())
        }
        Goal::Await => {
            let handler = state.around.handler()?;
            let future = first(operands)?;
            let segment = state.cut(alloc)?;
            state.draft = Draft::new(alloc, Exit::Wait(slot, future, handler, segment));
            Ok(())
        }
        Goal::Break(labels) => {
            let way = state.around.way(*labels)?;
            let target = state.around.target(*labels);
            state.draft = Draft::new(alloc, jump(way));
            state.draft.put_move(alloc, target, first(operands)?)
        }
        Goal::Return => {
            state.draft = Draft::new(alloc, Exit::Return(first(operands)?));
            Ok(())
        }
    }
}

// Code of its own, as a draft, that computes the expression, and then leaves by the exit.
#[cycle(splitting)]
fn split_aside(
    alloc: Global,
    sizes: &[u32],
    outermost: &Outermost,
    expression: &Expression,
    target: Option<u32>,
    free: u32,
    scope: u32,
    exit: Exit,
    state: &mut State,
) -> Result<Draft, Memory>
    requires within { scope ≤ length state.old.scopes }
    ensures { IfOk result (λ draft. MakesAside outermost.now state.old state.new exit draft (λ names ls c segments. split_exp (size_of sizes.now) (expression_view expression.now) target free (names scope) ls c segments)) }
{
    let outside = replace(&mut state.draft, Draft::new(alloc, exit));
    split_expression(
        alloc, sizes, outermost, expression, target, free, scope, state,
    )?;
    Ok(replace(&mut state.draft, outside))
}

// The same as whole code.
#[cycle(splitting)]
fn split_inside(
    alloc: Global,
    sizes: &[u32],
    outermost: &Outermost,
    expression: &Expression,
    target: Option<u32>,
    free: u32,
    scope: u32,
    exit: Exit,
    state: &mut State,
) -> Result<Code, Memory>
    requires within { scope ≤ length state.old.scopes }
    ensures { IfOk result (λ code. MakesInside outermost.now state.old state.new exit code (λ names ls c segments. split_exp (size_of sizes.now) (expression_view expression.now) target free (names scope) ls c segments)) }
{
    let draft = split_aside(
        alloc, sizes, outermost, expression, target, free, scope, exit, state,
    )?;
    Ok(draft.finish(alloc)?)
}

#[cycle(splitting)]
#[tactic(auto, unfolding(core_ir::specs::CodeView::code_of, core_ir::specs::CodeView::instruction))]
fn split_loop(
    alloc: Global,
    sizes: &[u32],
    outermost: &Outermost,
    body: &Expression,
    free: u32,
    scope: u32,
    state: &mut State,
) -> Result<(), Memory>
    requires within { scope ≤ length state.old.scopes }
    ensures { OnOk result ((target : Option ℕ) → Makes outermost.now state.old state.new (λ names ls c segments. split_exp (size_of sizes.now) (LoopForm (expression_view body.now)) target free (names scope) ls c segments)) }
{
    if expression_awaits(body) {
        let segment = state.segments.add(None)?;
        let exit = Exit::Leave(segment);
        let code = split_inside(
            alloc, sizes, outermost, body, None, free, scope, exit, state,
        )?;
        state.segments.fill(segment, code);
        state.draft = Draft::new(alloc, Exit::Leave(segment));
        return Ok(());
    }
    state.around.enter(Around::Other)?;
    let exit = Exit::Branch(0);
    let code = split_inside(
        alloc, sizes, outermost, body, None, free, scope, exit, state,
    )?;
    state.around.leave();
    state.draft.put(Instruction::Loop(code))?;
    Ok(())
}

#[cycle(splitting)]
#[tactic(auto, unfolding(core_ir::specs::CodeView::code_of, core_ir::specs::CodeView::instruction))]
fn split_label(
    alloc: Global,
    sizes: &[u32],
    outermost: &Outermost,
    body: &Expression,
    target: Option<u32>,
    free: u32,
    scope: u32,
    state: &mut State,
) -> Result<(), Memory>
    requires within { scope ≤ length state.old.scopes }
    ensures { OnOk result (Makes outermost.now state.old state.new (λ names ls c segments. split_exp (size_of sizes.now) (LabelForm (expression_view body.now)) target free (names scope) ls c segments)) }
{
    if expression_awaits(body) {
        let segment = state.cut(alloc)?;
        state.draft = Draft::new(alloc, Exit::Leave(segment));
        state.around.enter(Around::LabelAt(segment, target))?;
        split_expression(alloc, sizes, outermost, body, target, free, scope, state)?;
        state.around.leave();
        return Ok(());
    }
    state.around.enter(Around::LabelHere(target))?;
    let code = split_inside(
        alloc,
        sizes,
        outermost,
        body,
        target,
        free,
        scope,
        Exit::Stop,
        state,
    )?;
    state.around.leave();
    state.draft.put(Instruction::Label(code))?;
    Ok(())
}

// Each binding around those behind it, whose code is there already.
#[cycle(splitting)]
fn split_bindings(
    alloc: Global,
    sizes: &[u32],
    outermost: &Outermost,
    bindings: &[Binding],
    openings: &[Opening],
    state: &mut State,
) -> Result<(), Memory>
    requires count { length openings.now ≡ suc (length bindings.now) }
    requires there { (n : ℕ) → n ≤ length bindings.now → (slice_index_or openings.now n nowhere).scope ≤ length state.old.scopes }
    ensures grows { OnOk result (Grows state.old.scopes state.new.scopes) }
    ensures makes { OnOk result (MakesBindings outermost.now sizes.now bindings.now openings.now state.old state.new) }
{
    let mut number = bindings.len();
    while number > 0 {
        number -= 1;
        let opening = opening_at(openings, number, &state.scopes);
        match &bindings[number] {
            Binding::Value(value) => {
                let slot = place_of(value, opening.free);
                let behind = after(opening.free, 1)?;
                let scope = opening.scope;
                split_expression(alloc, sizes, outermost, value, slot, behind, scope, state)?;
            }
            Binding::Functions(group) => {
                let seen = Seen::Scope(opening.scope);
                state
                    .draft
                    .put(Instruction::Make(opening.free, seen, *group))?;
            }
        }
    }
    Ok(())
}
