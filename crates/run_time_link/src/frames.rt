//! The stack words of a frame, counted over a flat body.
ghost use Rattle.std.specs.Prelude.{◌≡◌, ◌+◌, ◌≤◌, ◌<◌, ◌^◌};
ghost use Rattle.low_ir.specs.Frames as frames;
ghost use Rattle.run_time_link.specs.Counting as counting;

use low_ir::{LowOp, Operation};

/// What was counted so far: the arguments of the call that comes, the most operands of an instruction, the constructs that are open
/// and the most that were.
#[derive(Clone, Copy)]
pub(crate) struct Count {
    pub(crate) arguments: u64,
    pub(crate) height: u64,
    pub(crate) inside: u64,
    pub(crate) depth: u64,
}

fn operands_of(operation: Operation) -> u64
    ensures { result ≡ frames.operands_of operation }
{
    match operation {
        Operation::Compare(_, _, _, _) | Operation::Binary(_, _, _, _) => 2,
        Operation::Copy(_)
        | Operation::IsZero(_, _)
        | Operation::Unary(_, _, _)
        | Operation::Convert(_, _)
        | Operation::Load(_, _, _)
        | Operation::Global(_)
        | Operation::Size => 1,
    }
}

fn value_count(value: Option<u32>) -> u64
    ensures { result ≡ frames.value_count value }
{
    match value {
        None => 0,
        Some(_) => 1,
    }
}

// With an instruction of so many operands.
fn wider(operands: u64, count: Count) -> Count
    ensures { result ≡ counting.wider operands count }
{
    Count {
        height: count.height.max(operands),
        ..count
    }
}

// With a construct inside that is closed again.
fn deeper(count: Count) -> Count
    requires { count.inside < 2 ^ 63 }
    ensures { result ≡ counting.deeper count }
{
    Count {
        depth: count.depth.max(count.inside + 1),
        ..count
    }
}

fn opened(count: Count) -> Count
    requires { count.inside < 2 ^ 63 }
    ensures { result ≡ counting.opened count }
{
    Count {
        inside: count.inside + 1,
        depth: count.depth.max(count.inside + 1),
        ..count
    }
}

fn counted(op: LowOp, count: Count) -> Count
    requires few { count.arguments < 2 ^ 63 }
    requires shallow { count.inside < 2 ^ 63 }
    ensures same { result ≡ counting.counted op count }
    ensures arguments { result.arguments ≤ count.arguments + 1 }
    ensures inside { result.inside ≤ count.inside + 1 }
{
    match op {
        LowOp::Set(_, operation) => wider(operands_of(operation), count),
        LowOp::SetGlobal(_, _) | LowOp::BranchIf(_, _) | LowOp::Return(Some(_)) => wider(1, count),
        LowOp::Store(_, _, _, _) | LowOp::Trap(_, _) => wider(2, count),
        LowOp::Grow(_) | LowOp::GrowStable(_) => wider(2, deeper(count)),
        LowOp::Block | LowOp::Loop => opened(count),
        LowOp::If(_) => wider(1, opened(count)),
        LowOp::Else | LowOp::Branch(_) | LowOp::Return(None) => count,
        LowOp::End => Count {
            inside: count.inside.saturating_sub(1),
            ..count
        },
        LowOp::Argument(_) => Count {
            arguments: count.arguments + 1,
            ..count
        },
        LowOp::Call(value, _) => Count {
            arguments: 0,
            ..wider(count.arguments.max(value_count(value)), count)
        },
        LowOp::CallIndirect(value, _, _) => Count {
            arguments: 0,
            ..wider((count.arguments + 1).max(value_count(value)), count)
        },
    }
}

fn count_of(ops: &[LowOp]) -> Count
    ensures { result ≡ counting.counted_all ops.now counting.no_count }
{
    let mut count = Count {
        arguments: 0,
        height: 0,
        inside: 0,
        depth: 0,
    };
    for op in ops {
        count = counted(*op, count);
    }
    count
}

/// The stack words of the frame of a function with so many parameters and locals, and this body: 8, its parameters, its locals, the
/// most operands of an instruction, and the most constructs one in another.
pub fn frame_words(params: usize, locals: usize, body: &[LowOp]) -> u128
    ensures { counting.AreWords params locals body.now result }
{
    let count = count_of(body);
    8 + params as u128 + locals as u128 + count.height as u128 + count.depth as u128
}
