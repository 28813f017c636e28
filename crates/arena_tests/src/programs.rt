//! Small programs.
use crate::building::{
    behind, calculated, expression, held, increased, less, name, number, one, pattern, two,
    with_function,
};
use mo_num::{Bytes, Memory, Operator};
use mo_syntax::Items;
use mo_values::Operation;
use std::alloc::Global;
use typed_tree::{Action, Form, Literal, Member, PatternForm, Step, TypedExpression};

/// `var i = 0; var s = 0; while (i < 10) { s := s + i; i := i + 1 }; s`
pub(crate) fn looping(alloc: Global) -> Result<TypedExpression, Memory> {
    let turn = behind(
        alloc,
        Step::Evaluate(increased(alloc, 0, held(alloc, 1)?)?),
        increased(alloc, 1, number(alloc, 1)?)?,
    )?;
    let condition = less(alloc, held(alloc, 1)?, number(alloc, 10)?)?;
    let turns = expression(alloc, Form::While(condition, turn))?;
    let all = behind(alloc, Step::Evaluate(turns), held(alloc, 0)?)?;
    let sum = behind(alloc, Step::Var(number(alloc, 0)?), all)?;
    behind(alloc, Step::Var(number(alloc, 0)?), sum)
}

/// `func f(n) { if (n < 1) 0 else n + f(n - 1) }; f(10)`
pub(crate) fn recursing(alloc: Global) -> Result<TypedExpression, Memory> {
    let fewer = calculated(alloc, Operator::Sub, name(alloc, 0)?, number(alloc, 1)?)?;
    let rest = two(alloc, Action::Call, name(alloc, 1)?, fewer)?;
    let more = calculated(alloc, Operator::Add, name(alloc, 0)?, rest)?;
    let none = less(alloc, name(alloc, 0)?, number(alloc, 1)?)?;
    let body = expression(alloc, Form::If(none, number(alloc, 0)?, more))?;
    let call = two(alloc, Action::Call, name(alloc, 0)?, number(alloc, 10)?)?;
    with_function(alloc, body, call)
}

/// `func f(n) { f(n) }; f(0)`
pub(crate) fn endless(alloc: Global) -> Result<TypedExpression, Memory> {
    let body = two(alloc, Action::Call, name(alloc, 1)?, name(alloc, 0)?)?;
    let call = two(alloc, Action::Call, name(alloc, 0)?, number(alloc, 0)?)?;
    with_function(alloc, body, call)
}

/// `var s = 0; for (x in [1, 2, 3].vals()) { s := s + x }; s`
pub(crate) fn going_through(alloc: Global) -> Result<TypedExpression, Memory> {
    let mut elements = Items::new(alloc);
    elements.push(number(alloc, 1)?)?;
    elements.push(number(alloc, 2)?)?;
    elements.push(number(alloc, 3)?)?;
    let array = expression(
        alloc,
        Form::Do(Action::Operate(Operation::MakeArray), elements),
    )?;
    let vals = one(alloc, Action::BuiltIn(Member::ArrayVals), array)?;
    let object = one(alloc, Action::Call, vals)?;
    let turn = increased(alloc, 1, name(alloc, 0)?)?;
    let turns = expression(
        alloc,
        Form::For(pattern(alloc, PatternForm::Bind)?, object, turn),
    )?;
    let all = behind(alloc, Step::Evaluate(turns), held(alloc, 0)?)?;
    behind(alloc, Step::Var(number(alloc, 0)?), all)
}

/// `label l { break l 7; 8 }`
pub(crate) fn leaving(alloc: Global) -> Result<TypedExpression, Memory> {
    let left = one(alloc, Action::Break(0), number(alloc, 7)?)?;
    let block = behind(alloc, Step::Evaluate(left), number(alloc, 8)?)?;
    expression(alloc, Form::Label(block))
}

fn text(alloc: Global, bytes: &[u8]) -> Result<TypedExpression, Memory> {
    let literal = Literal::Text(Bytes::from_slice(alloc, bytes)?);
    expression(alloc, Form::Constant(literal))
}

/// `Debug.print("a"); throw Error.reject("no")`
pub(crate) fn throwing(alloc: Global) -> Result<TypedExpression, Memory> {
    let print = one(alloc, Action::Print, text(alloc, b"a")?)?;
    let error = one(
        alloc,
        Action::Operate(Operation::RejectError),
        text(alloc, b"no")?,
    )?;
    let throw = one(alloc, Action::Throw, error)?;
    behind(alloc, Step::Evaluate(print), throw)
}

/// `try a catch _ 5`
pub(crate) fn catching(alloc: Global, tried: TypedExpression) -> Result<TypedExpression, Memory> {
    let handler = number(alloc, 5)?;
    let any = pattern(alloc, PatternForm::Wildcard)?;
    expression(alloc, Form::Try(tried, any, handler))
}

/// `[][0]`
pub(crate) fn trapping(alloc: Global) -> Result<TypedExpression, Memory> {
    let array = expression(
        alloc,
        Form::Do(Action::Operate(Operation::MakeArray), Items::new(alloc)),
    )?;
    two(
        alloc,
        Action::Operate(Operation::Element),
        array,
        number(alloc, 0)?,
    )
}
