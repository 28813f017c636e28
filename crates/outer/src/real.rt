//! The system's files, and any writer. They tell no contents, and count what fails.
ghost use Rattle.std.specs.Prelude.{◌≡◌, None, IfErr, OnOk};
ghost use Rattle.std.specs.Io.KnownBytes.{Appends};

use crate::{Content, Files, OutsideFault, Sink};
use mo_num::Bytes;
use std::alloc::Global;
use std::fs::File;
use std::io::{ErrorKind, Read, Write};
use std::rt::Files as SystemFiles;
use std::{fs, io};

/// The system's files, by their paths.
///
/// What the system answers is not proved. Each count rises at each error of std but that a file is not found, and stays
/// at 2^64 - 1. As in Rust, the system's answer to the closing of a file is not seen.
#[derive(Drop)]
pub struct RealFiles<'a, R: SystemFiles> {
    rt: &'a R,
    read_faults: u64,
    write_faults: u64,
}

impl<'a, R: SystemFiles> RealFiles<'a, R> {
    /// The files that the runtime reaches, with both counts at 0.
    pub fn new(rt: &'a R) -> Self
        ensures reads { ⟦<RealFiles<'a, R> as Files>⟧.read_faults result ≡ 0 }
        ensures writes { ⟦<RealFiles<'a, R> as Files>⟧.write_faults result ≡ 0 }
    {
        RealFiles {
            rt,
            read_faults: 0,
            write_faults: 0,
        }
    }
}

// At most `limit + 1` bytes of the file are read.
fn read_file<R: SystemFiles>(rt: &R, alloc: Global, name: &str, limit: u64) -> io::Result<Content> {
    let file = match File::open(rt, name) {
        Ok(file) => file,
        Err(error) if error.kind() == ErrorKind::NotFound => return Ok(Content::Missing),
        Err(error) => return Err(error),
    };
    let mut list = Vec::new(alloc);
    file.take(limit.saturating_add(1)).read_to_end(&mut list)?;
    if list.len() as u64 > limit {
        return Ok(Content::TooLong);
    }
    Ok(Content::Whole(Bytes::from_vec(list)))
}

impl<'a, R: SystemFiles> Files for RealFiles<'a, R> {
    ghost use Rattle.std.specs.Prelude.{⊤, IfOk};
    ghost use Rattle.outer.specs.Causes.{HasCause, count_of_errors};

    ghost names = { λ _. None };

    ghost read_faults = { λ files. files.read_faults };

    ghost write_faults = { λ files. files.write_faults };

    fn read(&mut self, alloc: Global, name: &str, limit: u64) -> Result<Content, OutsideFault>
        // nothing is told of what a name holds
        ensures content { IfOk result (λ _. ⊤) }
        ensures cause { let count = ⟦<RealFiles<'a, R> as Files>⟧.read_faults in HasCause (count self.old) (count self.new) result }
        ensures other_count { let count = ⟦<RealFiles<'a, R> as Files>⟧.write_faults in count self.new ≡ count self.old }

        // each error is counted, and no other answer
        ensures counted { let count = ⟦<RealFiles<'a, R> as Files>⟧.read_faults in count self.new ≡ count_of_errors (count self.old) result }
    {
        match read_file(self.rt, alloc, name, limit) {
            Ok(content) => Ok(content),
            Err(error) => {
                self.read_faults = self.read_faults.saturating_add(1);
                if error.kind() == ErrorKind::OutOfMemory {
                    return Err(OutsideFault::Memory);
                }
                Err(OutsideFault::Failed)
            }
        }
    }

    /// Any error of std is `Failed`, want of memory among them, since the file may be torn by then.
    fn write(&mut self, name: &str, bytes: &[u8]) -> Result<(), OutsideFault>
        // nothing is told of what a name holds
        ensures written { OnOk result ⊤ }
        ensures cause { let count = ⟦<RealFiles<'a, R> as Files>⟧.write_faults in HasCause (count self.old) (count self.new) result }
        ensures other_count { let count = ⟦<RealFiles<'a, R> as Files>⟧.read_faults in count self.new ≡ count self.old }

        // each error is counted, and no other answer; none is want of memory
        ensures counted { let count = ⟦<RealFiles<'a, R> as Files>⟧.write_faults in count self.new ≡ count_of_errors (count self.old) result }
        ensures failed { IfErr result (λ fault. fault ≡ OutsideFault.Failed) }
    {
        match fs::write(self.rt, name, bytes) {
            Ok(()) => Ok(()),
            Err(_) => {
                self.write_faults = self.write_faults.saturating_add(1);
                Err(OutsideFault::Failed)
            }
        }
    }
}

/// Any writer.
///
/// What the writer does is not proved. The count rises at each error of the writer, and where it takes nothing of a
/// piece that is not empty, and stays at 2^64 - 1.
#[derive(Drop)]
pub struct RealSink<W> {
    writer: W,
    faults: u64,
}

impl<W: Write> RealSink<W> {
    /// A sink over the writer, with its count at 0.
    pub fn new(writer: W) -> Self
        ensures { ⟦<RealSink<W> as Sink>⟧.faults result ≡ 0 }
    {
        RealSink { writer, faults: 0 }
    }

    /// The writer.
    pub fn writer(&self) -> &W
        ensures { result.now ≡ self.now.writer }
    {
        &self.writer
    }

    /// How often the writer failed.
    pub fn count_of_faults(&self) -> u64
        ensures { result ≡ ⟦<RealSink<W> as Sink>⟧.faults self.now }
    {
        self.faults
    }
}

impl<W: Write> Sink for RealSink<W> {
    ghost use Rattle.outer.specs.Causes.{HasCause, count_of_errors};

    ghost shown = { λ _. None };

    ghost faults = { λ sink. sink.faults };

    /// The piece is flushed too, so that a writer that keeps bytes back reports its faults here.
    fn put(&mut self, piece: &[u8]) -> Result<(), OutsideFault>
        ensures cause { let count = ⟦<RealSink<W> as Sink>⟧.faults in HasCause (count self.old) (count self.new) result }

        // a writer that tells what it holds has got the whole piece
        ensures passed_on { OnOk result (Appends (W.contents self.old.writer) (W.contents self.new.writer) piece.now) }

        // each error is counted, and no other answer; none is want of memory
        ensures counted { let count = ⟦<RealSink<W> as Sink>⟧.faults in count self.new ≡ count_of_errors (count self.old) result }
        ensures failed { IfErr result (λ fault. fault ≡ OutsideFault.Failed) }
    {
        match put_all(&mut self.writer, piece) {
            Ok(()) => Ok(()),
            Err(_) => {
                self.faults = self.faults.saturating_add(1);
                Err(OutsideFault::Failed)
            }
        }
    }
}

// `write_all` gives an error where the writer takes nothing of what is left.
fn put_all<W: Write>(writer: &mut W, piece: &[u8]) -> io::Result<()>
    ensures { OnOk result (Appends (W.contents writer.old) (W.contents writer.new) piece.now) }
{
    writer.write_all(piece)?;
    writer.flush()
}
