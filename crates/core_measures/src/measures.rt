//! Measures of expressions, and how those of an expression come from those of its parts.
ghost use Rattle.std.specs.Prelude.{◌≡◌, ◌+◌, cond, IfOk};
ghost use Rattle.core_measures.specs.Measures as measure;

use mo_num::Memory;

/// How deep choices, labels and handlers stand in one another, how many values stand ready at once, the most arguments of an action, how deep the code
/// stands, at how many places it may go on behind an `await`, and whether it awaits.
#[derive(Clone, Copy)]
pub(crate) struct Measures {
    pub nest: u32,
    pub width: u32,
    pub arguments: u32,
    pub depth: u32,
    pub points: u32,
    pub awaits: bool,
}

/// Of a constant or a name.
pub(crate) const NOTHING: Measures = Measures {
    nest: 0,
    width: 0,
    arguments: 0,
    depth: 0,
    points: 0,
    awaits: false,
};

/// Of an action that gives a value.
pub(crate) const VALUE: Measures = Measures {
    nest: 0,
    width: 1,
    arguments: 0,
    depth: 0,
    points: 0,
    awaits: false,
};

/// Of an `await`.
pub(crate) const AWAIT: Measures = Measures {
    nest: 1,
    width: 1,
    arguments: 0,
    depth: 0,
    points: 1,
    awaits: true,
};

/// A sum of more than 2 ^ 32 does not come: an expression with so many parts has no room in memory.
pub(crate) fn sum(a: u32, b: u32) -> Result<u32, Memory>
    ensures { IfOk result (λ c. c ≡ a + b) }
{
    match a.checked_add(b) {
        Some(c) => Ok(c),
        None => Err(Memory),
    }
}

// A place where it goes on, if it awaits.
fn points(awaits: bool, points: u32) -> Result<u32, Memory>
    ensures { IfOk result (λ n. n ≡ cond awaits 1 0 + points) }
{
    if awaits { sum(1, points) } else { Ok(points) }
}

/// An argument before others.
pub(crate) fn before(one: Measures, others: Measures) -> Result<Measures, Memory>
    ensures { IfOk result (λ m. m ≡ measure.before one others) }
{
    Ok(Measures {
        nest: one.nest.max(others.nest),
        width: sum(1, one.width.max(others.width))?,
        arguments: one.arguments.max(others.arguments),
        depth: one.depth.max(others.depth),
        points: sum(one.points, others.points)?,
        awaits: one.awaits || others.awaits,
    })
}

/// A goal with its arguments, of which there are so many.
pub(crate) fn done(goal: Measures, arguments: Measures, count: u32) -> Result<Measures, Memory>
    ensures { IfOk result (λ m. m ≡ measure.done goal arguments count) }
{
    Ok(Measures {
        nest: goal.nest.max(arguments.nest),
        width: arguments.width.max(sum(count, goal.width)?),
        arguments: count.max(goal.arguments.max(arguments.arguments)),
        depth: goal.depth.max(arguments.depth),
        points: sum(goal.points, arguments.points)?,
        awaits: goal.awaits || arguments.awaits,
    })
}

/// A loop with this body.
pub(crate) fn looped(body: Measures) -> Result<Measures, Memory>
    ensures { IfOk result (λ m. m ≡ measure.looped body) }
{
    Ok(Measures {
        depth: sum(1, body.depth)?,
        points: points(body.awaits, body.points)?,
        ..body
    })
}

/// A label around this body.
pub(crate) fn labelled(body: Measures) -> Result<Measures, Memory>
    ensures { IfOk result (λ m. m ≡ measure.labelled body) }
{
    Ok(Measures {
        nest: sum(1, body.nest)?,
        depth: sum(1, body.depth)?,
        points: points(body.awaits, body.points)?,
        ..body
    })
}

/// A body with a handler.
pub(crate) fn tried(body: Measures, handler: Measures) -> Result<Measures, Memory>
    ensures { IfOk result (λ m. m ≡ measure.tried body handler) }
{
    let awaits = body.awaits || handler.awaits;
    let inside = sum(body.points, handler.points)?;
    let further: u32 = if awaits { 2 } else { 0 };
    Ok(Measures {
        nest: body.nest.max(sum(1, handler.nest)?),
        width: sum(1, body.width.max(handler.width))?,
        arguments: body.arguments.max(handler.arguments),
        depth: sum(1, sum(1, body.depth)?.max(handler.depth))?,
        points: sum(further, inside)?,
        awaits,
    })
}

/// Two branches.
pub(crate) fn chosen(yes: Measures, no: Measures) -> Result<Measures, Memory>
    ensures { IfOk result (λ m. m ≡ measure.chosen yes no) }
{
    let awaits = yes.awaits || no.awaits;
    let inside = sum(yes.points, no.points)?;
    Ok(Measures {
        nest: sum(1, yes.nest.max(no.nest))?,
        width: yes.width.max(no.width),
        arguments: yes.arguments.max(no.arguments),
        depth: sum(1, yes.depth.max(no.depth))?,
        points: points(awaits, inside)?,
        awaits,
    })
}

/// Two branches, of which the first has a name more.
pub(crate) fn matched(yes: Measures, no: Measures) -> Result<Measures, Memory>
    ensures { IfOk result (λ m. m ≡ measure.matched yes no) }
{
    let both = chosen(yes, no)?;
    Ok(Measures {
        width: sum(1, both.width)?,
        ..both
    })
}

/// What stands under so many names more.
pub(crate) fn widened(names: u32, inside: Measures) -> Result<Measures, Memory>
    ensures { IfOk result (λ m. m ≡ measure.widened names inside) }
{
    Ok(Measures {
        width: sum(names, inside.width)?,
        ..inside
    })
}
