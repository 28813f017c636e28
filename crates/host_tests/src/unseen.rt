//! Events and items that no script brings about: the first event is an install, and no canister makes 2^64 calls.
use mo_num::{Bytes, Principal, principal_of};
use play_script::{Event, Events, Item, event_line, events_suit, item_text};
use std::alloc::Global;
use std::test::Fail;

#[test]
fn the_first_event_has_a_line(rt: HostRuntime) {
    let text = b"# a script\ninstall 0\n\n#\nupgrade 0\nreply 0 -";
    assert_eq!(rt; event_line(text, 0), 2);
}

#[test]
fn events_at_the_ends(rt: HostRuntime) {
    let events = Events::new(rt.alloc());
    assert!(rt; events_suit(events.as_slice(), 0));
    assert!(rt; Event::Upgrade(u32::MAX).is_fit());
}

fn principal(alloc: Global, bytes: &[u8]) -> Result<Principal, Fail> {
    Ok(principal_of(alloc, bytes).ok_or("a principal of at most 29 bytes")?)
}

fn last_call(alloc: Global) -> Result<Item, Fail> {
    Ok(Item::Call {
        number: u64::MAX,
        callee: principal(alloc, b"\0\0\0\0\0\0\0\x01\x01\x01")?,
        method: Bytes::from_slice(alloc, b"__resume")?,
        bytes: Bytes::from_slice(alloc, b"")?,
    })
}

#[test]
fn the_last_call_is_a_line(rt: HostRuntime) -> Result<(), Fail> {
    let item = last_call(rt.alloc())?;
    let line = item_text(rt.alloc(), &item)?;
    let want = b"call 18446744073709551615 00000000000000010101 __resume -\n";
    assert_eq!(rt; line.as_slice(), want.as_slice());
    Ok(())
}
