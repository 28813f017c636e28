//! Files and sinks in memory, of which a call fails.
use mo_num::Bytes;
use outer::{Content, Files, MemFiles, MemSink, Names, OutsideFault, Places, Sink};
use std::alloc::{AllocError, Global};
use std::test::Fail;

fn names(alloc: Global) -> Result<Names, Fail> {
    let mut names = Names::new(alloc);
    for (name, bytes) in [("a", b"abc".as_slice()), ("empty", b"".as_slice())] {
        let name = String::from_str(alloc, name)?;
        let bytes = Bytes::from_slice(alloc, bytes)?;
        names.insert(name, bytes).map_err(AllocError::from)?;
    }
    Ok(names)
}

fn places(alloc: Global, numbers: &[u64]) -> Result<Places, Fail> {
    Ok(Places::from_vec(Vec::from_slice(alloc, numbers)?))
}

// What a read answers, as a text.
fn shown<'a>(answer: &'a Result<Content, OutsideFault>) -> &'a [u8] {
    match answer {
        Ok(Content::Whole(bytes)) => bytes.as_slice(),
        Ok(Content::TooLong) => b"too long".as_slice(),
        Ok(Content::Missing) => b"missing".as_slice(),
        Err(OutsideFault::Failed) => b"failed".as_slice(),
        Err(OutsideFault::Memory) => b"memory".as_slice(),
    }
}

#[test]
fn reads_what_a_name_holds(rt: HostRuntime) -> Result<(), Fail> {
    let alloc = rt.alloc();
    let mut files = MemFiles::new(alloc, names(alloc)?, places(alloc, &[2, 5])?);
    for (name, limit, want) in [
        ("a", 3, b"abc".as_slice()),
        ("a", 2, b"too long".as_slice()),
        ("a", 3, b"failed".as_slice()),
        ("b", 9, b"missing".as_slice()),
        ("empty", 0, b"".as_slice()),
        ("b", 9, b"failed".as_slice()),
        ("a", u64::MAX, b"abc".as_slice()),
    ] {
        assert_eq!(rt;
            shown(&files.read(alloc, name, limit)),
            want,
            "{name} within {limit}"
        );
    }
    Ok(())
}

#[test]
fn writes_one_name(rt: HostRuntime) -> Result<(), Fail> {
    let alloc = rt.alloc();
    let mut files = MemFiles::new(alloc, names(alloc)?, places(alloc, &[2])?);
    assert_eq!(rt; files.write("a", b"new"), Ok(()));
    assert_eq!(rt; files.write("b", b"1234"), Ok(()));
    assert_eq!(rt; files.get("a"), Some(b"new".as_slice()));
    assert_eq!(rt; files.get("b"), Some(b"1234".as_slice()));
    assert_eq!(rt; files.write("b", b"56789"), Err(OutsideFault::Failed));
    assert_eq!(rt; files.get("b"), Some(b"56".as_slice()));
    assert_eq!(rt; files.get("empty"), Some(b"".as_slice()));
    assert_eq!(rt; files.get("c"), None);
    Ok(())
}

#[test]
fn puts_pieces_in_order(rt: HostRuntime) -> Result<(), Fail> {
    let alloc = rt.alloc();
    let mut sink = MemSink::new(alloc, places(alloc, &[1])?);
    assert_eq!(rt; sink.put(b"one "), Ok(()));
    assert_eq!(rt; sink.put(b"twofold"), Err(OutsideFault::Failed));
    assert_eq!(rt; sink.put(b" three"), Ok(()));
    assert_eq!(rt; sink.bytes(), b"one two three".as_slice());
    Ok(())
}
