//! The top call over files and sinks of which a call fails, and the statuses.
use mo_command::{CompileFault, Status, run_mo};
use mo_num::{Bytes, Sequence};
use outer::{MemFiles, MemSink, Names, Places};
use play_script::ScriptFault;
use std::alloc::Global;
use std::collections::BTreeMap;
use std::test::Fail;

const EMPTY_MODULE: &[u8] = b"\0asm\x01\0\0\0";

/// The first 66 bytes of the 133 that `actor {}` is built to, which `cases/program/built.json` has whole.
const HALF_A_MODULE: &[u8] =
    b"\0asm\x01\0\0\0\x01\t\x02`\x02\x7f\x7f\0`\0\0\x02-\x02\x03ic0\x15msg_reply_data_append\0\0\x03ic0\tmsg_reply\0\x01";

fn words(alloc: Global, text: &str) -> Result<Vec<String>, Fail> {
    let mut words = Vec::new(alloc);
    for word in text.split(' ') {
        words.push(String::from_str(alloc, word)?)?;
    }
    Ok(words)
}

fn places(alloc: Global, list: &[u64]) -> Result<Places, Fail> {
    Ok(Sequence::from_vec(Vec::from_slice(alloc, list)?))
}

// The script lies under `s`, the source or module under `a`.
fn held(alloc: Global, script: &[u8], file: &[u8]) -> Result<Names, Fail> {
    let mut names = BTreeMap::new(alloc);
    names.insert(
        String::from_str(alloc, "s")?,
        Bytes::from_slice(alloc, script)?,
    )?;
    names.insert(
        String::from_str(alloc, "a")?,
        Bytes::from_slice(alloc, file)?,
    )?;
    Ok(names)
}

// Calls that fail: of the files, of the output and of the error stream.
type Failing<'a> = (&'a [u64], &'a [u64], &'a [u64]);

// The exit status of the words over a script and a file, and whether this was put on the output and on the error stream.
fn ends(
    alloc: Global,
    text: &str,
    contents: (&[u8], &[u8]),
    failing: Failing<'_>,
    put: (&[u8], &[u8]),
) -> Result<(u8, bool, bool), Fail> {
    let words = words(alloc, text)?;
    let names = held(alloc, contents.0, contents.1)?;
    let mut files = MemFiles::new(alloc, names, places(alloc, failing.0)?);
    let mut out = MemSink::new(alloc, places(alloc, failing.1)?);
    let mut err = MemSink::new(alloc, places(alloc, failing.2)?);
    let status = run_mo(alloc, words.as_slice(), &mut files, &mut out, &mut err);
    Ok((status.code(), out.bytes() == put.0, err.bytes() == put.1))
}

#[test]
fn each_fault_has_its_status(rt: HostRuntime) -> Result<(), Fail> {
    let none: &[u64] = &[];
    let first: &[u64] = &[0];
    let second: &[u64] = &[1];
    let third: &[u64] = &[2];
    for (text, failing, put, line, code) in [
        (
            "play s a",
            (first, none, none),
            b"".as_slice(),
            b"read fault\n".as_slice(),
            3,
        ),
        (
            "play s a",
            (second, none, none),
            b"".as_slice(),
            b"read fault\n".as_slice(),
            3,
        ),
        (
            "play s a",
            (none, first, none),
            b"insta".as_slice(),
            b"write fault\n".as_slice(),
            4,
        ),
        (
            "play s a",
            (none, second, none),
            b"installed\nrejected 0 5 6e6".as_slice(),
            b"write fault\n".as_slice(),
            4,
        ),
        (
            "play s a",
            (none, third, none),
            b"installed\nrejected 0 5 6e6f206d6574686f64\nigno".as_slice(),
            b"write fault\n".as_slice(),
            4,
        ),
        (
            "play s",
            (none, none, first),
            b"".as_slice(),
            b"usa".as_slice(),
            2,
        ),
        (
            "build x b",
            (second, none, none),
            b"".as_slice(),
            b"no file 0\n".as_slice(),
            8,
        ),
        (
            "build s b",
            (first, none, none),
            b"".as_slice(),
            b"read fault\n".as_slice(),
            3,
        ),
    ] {
        assert_eq!(rt;
            ends(
                rt.alloc(),
                text,
                (
                    b"install 0\ncall x 04 -\nreply 7 -\n".as_slice(),
                    EMPTY_MODULE
                ),
                failing,
                (put, line)
            )?,
            (code, true, true),
            "{text}"
        );
    }
    Ok(())
}

#[test]
fn a_failing_write_tears_out_alone(rt: HostRuntime) -> Result<(), Fail> {
    let alloc = rt.alloc();
    let words = words(alloc, "build a b")?;
    let names = held(alloc, b"kept", b"actor {}")?;
    let mut files = MemFiles::new(alloc, names, places(alloc, &[1])?);
    let mut out = MemSink::new(alloc, places(alloc, &[])?);
    let mut err = MemSink::new(alloc, places(alloc, &[])?);
    let status = run_mo(alloc, words.as_slice(), &mut files, &mut out, &mut err);
    assert_eq!(rt; status, Status::WriteFault);
    for (name, bytes) in [
        ("b", Some(HALF_A_MODULE)),
        ("a", Some(b"actor {}".as_slice())),
        ("s", Some(b"kept".as_slice())),
        ("c", None),
    ] {
        assert_eq!(rt; files.get(name), bytes, "{name}");
    }
    assert_eq!(rt; out.bytes(), b"".as_slice());
    assert_eq!(rt; err.bytes(), b"write fault\n".as_slice());
    Ok(())
}

#[test]
fn sources_without_a_module_say_why(rt: HostRuntime) -> Result<(), Fail> {
    for (fault, message) in [
        (
            CompileFault::NotYet,
            "the source is not of the form that is compiled yet",
        ),
        (CompileFault::Memory, "there was no memory"),
    ] {
        assert_eq!(rt; format!(in rt.alloc(); "{fault}")?.as_str(), message);
    }
    Ok(())
}

#[test]
fn statuses_are_the_exit_codes(rt: HostRuntime) {
    for (status, code) in [
        (Status::Done, 0),
        (Status::Refused { source: 1 }, 1),
        (Status::Usage, 2),
        (Status::ReadFault, 3),
        (Status::WriteFault, 4),
        (Status::NoMemory, 5),
        (Status::BadScript(ScriptFault::BadLine(1)), 6),
        (Status::NotYet { line: 1 }, 6),
        (Status::NoFile { place: 1 }, 8),
    ] {
        assert_eq!(rt; status.code(), code);
    }
}
