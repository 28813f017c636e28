//! A sink over a writer that breaks off.
use outer::{OutsideFault, RealSink, Sink};
use std::io;
use std::io::{Error, ErrorKind, Write};
use std::test::Fail;

// What a writer does once it has no room.
#[derive(Clone, Copy, Debug)]
enum Full {
    Fails,
    TakesNothing,
    FailsToFlush,
}

// A writer that takes two bytes at a time, until it has no room.
#[derive(Drop)]
struct Narrow {
    taken: Vec<u8>,
    room: usize,
    full: Full,
}

impl Write for Narrow {
    fn write(&mut self, buf: &[u8]) -> io::Result<usize> {
        let count = buf.len().min(self.room).min(2);
        if count == 0 && matches!(self.full, Full::Fails) {
            return Err(Error::from(ErrorKind::BrokenPipe));
        }
        self.taken.extend_from_slice(&buf[..count])?;
        self.room -= count;
        Ok(count)
    }

    fn flush(&mut self) -> io::Result<()> {
        match self.full {
            Full::FailsToFlush => Err(Error::from(ErrorKind::StorageFull)),
            Full::Fails | Full::TakesNothing => Ok(()),
        }
    }
}

#[test]
fn a_writer_that_breaks_off_is_a_fault(rt: HostRuntime) -> Result<(), Fail> {
    for (full, room, first, faults, taken) in [
        (Full::Fails, 9, Ok(()), 1, b"piece tor".as_slice()),
        (Full::TakesNothing, 9, Ok(()), 1, b"piece tor".as_slice()),
        (
            Full::FailsToFlush,
            99,
            Err(OutsideFault::Failed),
            3,
            b"piece torn".as_slice(),
        ),
    ] {
        let mut sink = RealSink::new(Narrow {
            taken: Vec::new(rt.alloc()),
            room,
            full,
        });
        assert_eq!(rt; sink.put(b"piece "), first, "{full:?}");
        assert_eq!(rt; sink.put(b"torn"), Err(OutsideFault::Failed), "{full:?}");
        assert_eq!(rt; sink.put(b""), first, "{full:?}");
        assert_eq!(rt; sink.writer().taken.as_slice(), taken, "{full:?}");
        assert_eq!(rt; sink.count_of_faults(), faults, "{full:?}");
    }
    Ok(())
}
