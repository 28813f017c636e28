//! The bytes of a large module, of which every function does work of many kinds.
use mo_num::{Bytes, Memory, leb_write, sleb_write};
use std::alloc::Global;

// Functions, and the parts of which each body consists.
const FUNCTIONS: u32 = 50_000;

const PARTS: u32 = 6;

const HEADER: [u8; 8] = [0, b'a', b's', b'm', 1, 0, 0, 0];

/// A module of about 16 MiB: one type, one memory and 50,000 functions that differ in their constants.
pub fn large_module(alloc: Global) -> Result<Bytes, Memory> {
    let mut out = Bytes::new(alloc);
    out.extend(&HEADER)?;
    // (i32, i64) -> i32
    section(&mut out, 1, &[1, 0x60, 2, 0x7f, 0x7e, 1, 0x7f])?;
    let mut functions = Bytes::new(alloc);
    leb_write(FUNCTIONS as u128, &mut functions)?;
    for _ in 0..FUNCTIONS {
        functions.push(0)?;
    }
    section(&mut out, 3, functions.as_slice())?;
    section(&mut out, 5, &[1, 0, 1])?;
    section(&mut out, 10, codes(alloc)?.as_slice())?;
    Ok(out)
}

// Adds a section with its number and its size.
fn section(out: &mut Bytes, number: u8, contents: &[u8]) -> Result<(), Memory> {
    out.push(number)?;
    leb_write(contents.len() as u128, out)?;
    out.extend(contents)
}

fn codes(alloc: Global) -> Result<Bytes, Memory> {
    let mut codes = Bytes::new(alloc);
    leb_write(FUNCTIONS as u128, &mut codes)?;
    let mut seed = 1u32;
    for _ in 0..FUNCTIONS {
        let mut body = Bytes::new(alloc);
        // One more local, an i32.
        body.extend(&[1, 1, 0x7f])?;
        for _ in 0..PARTS {
            seed = seed.wrapping_mul(1_664_525).wrapping_add(1_013_904_223);
            part(&mut body, seed)?;
        }
        // local.get 2, end
        body.extend(&[0x20, 2, 0x0b])?;
        leb_write(body.len() as u128, &mut codes)?;
        codes.extend(body.as_slice())?;
    }
    Ok(codes)
}

// A block with memory and arithmetic, a choice and a call.
fn part(body: &mut Bytes, seed: u32) -> Result<(), Memory> {
    // block, local.get 0, i32.const
    body.extend(&[0x02, 0x40, 0x20, 0, 0x41])?;
    sleb_write((seed >> 12) as i128, body)?;
    // i32.add, local.tee 2, i32.const 1023, i32.and, i32.load 2 16, local.set 0
    body.extend(&[0x6a, 0x22, 2, 0x41, 0xff, 0x07, 0x71, 0x28, 2, 16, 0x21, 0])?;
    // local.get 0, i32.eqz, br_if 0, local.get 1, i64.const
    body.extend(&[0x20, 0, 0x45, 0x0d, 0, 0x20, 1, 0x42])?;
    sleb_write(seed as i128, body)?;
    // i64.mul, local.set 1, end
    body.extend(&[0x7e, 0x21, 1, 0x0b])?;
    // local.get 0, if i32, i32.const 1, else, i32.const 2, end, local.set 2
    body.extend(&[0x20, 0, 0x04, 0x7f, 0x41, 1, 0x05, 0x41, 2, 0x0b, 0x21, 2])?;
    // local.get 0, local.get 1, call, local.set 2
    body.extend(&[0x20, 0, 0x20, 1, 0x10])?;
    leb_write((seed % FUNCTIONS) as u128, body)?;
    body.extend(&[0x21, 2])
}
