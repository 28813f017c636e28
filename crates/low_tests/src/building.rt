//! Routines are given in the order in which they were added.
ghost use Rattle.std.specs.Prelude.{◌≡◌, IfOk};

use low_ir::{Builder, LowOp, Operand, Routine};
use mo_num::{Memory, Sequence};
use std::alloc::Global;
use std::test::Fail;
use wasm_tree::ValueType;

fn routine(alloc: Global, line: u32) -> Result<Routine, Memory>
    ensures { IfOk result (λ routine. routine.line ≡ line) }
{
    let mut body = Sequence::new(alloc);
    body.push(LowOp::Return(Some(Operand::Local(0))))?;
    let mut params = Sequence::new(alloc);
    params.push(ValueType::I64)?;
    Ok(Routine {
        line,
        params,
        locals: Sequence::new(alloc),
        result: Some(ValueType::I64),
        body,
    })
}

#[test]
fn routines_are_in_order(rt: HostRuntime) -> Result<(), Fail> {
    let mut more = Builder::new(rt.alloc());
    more.push(routine(rt.alloc(), 7)?)?;
    let more = more.finish();
    let mut builder = Builder::new(rt.alloc());
    builder.push(routine(rt.alloc(), 3)?)?;
    builder.append(rt.alloc(), &more)?;
    let routines = builder.finish();
    let last = routines.as_slice().last().ok_or("two routines")?;
    assert_eq!(rt; last.line, 7);
    assert_eq!(rt; last.body.len(), 1);
    assert_eq!(rt; routines.as_slice().len(), 2);
    Ok(())
}
