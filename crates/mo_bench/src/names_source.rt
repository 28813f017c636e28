//! A source of many names: functions that call each other, values, types and labels.
use mo_num::{Bytes, Memory};
use std::alloc::{AllocError, Global};

// `func f1(x1 : Nat) : Nat { f0(x1) };`, and the first function uses the last value.
fn function(alloc: Global, index: u32, last: u32) -> Result<String, AllocError> {
    if index == 0 {
        return format!(in alloc; "  func f0(x0 : Nat) : Nat {{ a{last} }};\n");
    }
    let before = index - 1;
    format!(in alloc; "  func f{index}(x{index} : Nat) : Nat {{ f{before}(x{index}) }};\n")
}

// A value that is the one before it, and a type of options of the one before it.
fn value_and_type(alloc: Global, index: u32) -> Result<String, AllocError> {
    if index == 0 {
        return format!(in alloc; "  let a0 = 1;\n  type T0 = Nat;\n");
    }
    let before = index - 1;
    format!(in alloc; "  let a{index} = a{before};\n  type T{index} = ?T{before};\n")
}

fn label(alloc: Global, index: u32) -> Result<String, AllocError> {
    format!(in alloc; "    l{index} : T{index};\n")
}

fn push(source: &mut Bytes, line: &String) -> Result<(), Memory> {
    source.extend(line.as_bytes())
}

/// An actor of so many functions with a parameter each, values, types, and labels of one type. Each function but the
/// first calls the one before it, and the first uses the last value, so all of them may be called only after that one.
pub fn source_of(alloc: Global, rounds: u32) -> Result<Bytes, Memory> {
    let mut source = Bytes::from_slice(alloc, b"actor {\n")?;
    for index in 0..rounds {
        push(&mut source, &function(alloc, index, rounds - 1)?)?;
    }
    for index in 0..rounds {
        push(&mut source, &value_and_type(alloc, index)?)?;
    }
    source.extend(b"  type All = {\n")?;
    for index in 0..rounds {
        push(&mut source, &label(alloc, index)?)?;
    }
    source.extend(b"  };\n}\n")?;
    Ok(source)
}
