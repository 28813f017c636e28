//! Files and sinks in memory, whose calls fail where a list says so.
ghost use Rattle.std.specs.Prelude.{◌≡◌, ◌≢◌, OnOk, OnErr, IfOk, IsErrOf, List, ℕ, [], Some, None, MatchOption};
ghost use Rattle.std.specs.BTreeMap.{get_by_text};

use crate::plan::Plan;
use crate::{Content, Files, OutsideFault, Places, Sink};
use mo_num::{Bytes, Memory};
use std::alloc::Global;
use std::collections::BTreeMap;

/// What each name holds.
pub type Names = BTreeMap<String, Bytes>;

/// Files in memory. Their calls, of both kinds, are numbered from 0 in the order in which they are made, and those in
/// the list of places fail.
#[derive(Drop)]
pub struct MemFiles {
    alloc: Global,
    names: Names,
    plan: Plan,
    read_faults: u64,
    write_faults: u64,
}

impl MemFiles {
    ghost use Rattle.outer.specs.Memory.{names_of, file_places, file_calls, read_faults_of, write_faults_of};

    /// Files with these contents. The calls with these numbers fail, and no other call does.
    pub fn new(alloc: Global, names: Names, failing: Places) -> Self
        ensures names { (name : List ℕ) → names_of result name ≡ get_by_text names name }
        ensures failing { file_places result ≡ failing }
        ensures calls { file_calls result ≡ 0 }
        ensures read_faults { read_faults_of result ≡ 0 }
        ensures write_faults { write_faults_of result ≡ 0 }
    {
        MemFiles {
            alloc,
            names,
            plan: Plan::new(failing),
            read_faults: 0,
            write_faults: 0,
        }
    }

    /// The bytes that the name holds, or `None` exactly where there is no such name.
    pub fn get(&self, name: &str) -> Option<&[u8]>
        ensures { MatchOption result (names_of self.now name.now ≡ None) (λ bytes. names_of self.now name.now ≡ Some bytes.now) }
    {
        match self.names.get(name) {
            Some(bytes) => Some(bytes.as_slice()),
            None => None,
        }
    }
}

impl Files for MemFiles {
    ghost use Rattle.outer.specs.Causes.{HasCause, count_of_failures, next_count};
    ghost use Rattle.outer.specs.Names.{IsContent};
    ghost use Rattle.outer.specs.Plans.{FailsAsPlanned};
    ghost use Rattle.outer.specs.Memory.{names_of, file_places, file_calls, read_faults_of, write_faults_of};

    ghost names = { λ files. Some (names_of files) };

    ghost read_faults = { read_faults_of };

    ghost write_faults = { write_faults_of };

    fn read(&mut self, alloc: Global, name: &str, limit: u64) -> Result<Content, OutsideFault>
        ensures content { IfOk result (IsContent limit (names_of self.old name.now)) }
        ensures same { names_of self.new ≡ names_of self.old }
        ensures cause { HasCause (read_faults_of self.old) (read_faults_of self.new) result }
        ensures other_count { write_faults_of self.new ≡ write_faults_of self.old }

        // which calls fail, and how they are counted
        ensures planned { FailsAsPlanned (file_places self.old) (file_calls self.old) result }
        ensures counted { read_faults_of self.new ≡ count_of_failures (read_faults_of self.old) result }
        ensures calls { file_calls self.new ≡ next_count (file_calls self.old) }
        ensures places { file_places self.new ≡ file_places self.old }
    {
        if self.plan.next_fails() {
            self.read_faults = self.read_faults.saturating_add(1);
            return Err(OutsideFault::Failed);
        }
        match self.names.get(name) {
            None => Ok(Content::Missing),
            Some(bytes) => {
                if bytes.len() as u64 > limit {
                    Ok(Content::TooLong)
                } else {
                    Ok(Content::Whole(Bytes::from_slice(alloc, bytes.as_slice())?))
                }
            }
        }
    }

    /// A call that is to fail breaks off in the middle: the name then holds the first half of the bytes, where there was
    /// memory for it.
    fn write(&mut self, name: &str, bytes: &[u8]) -> Result<(), OutsideFault>
        ensures written { OnOk result (names_of self.new name.now ≡ Some bytes.now) }
        ensures others { (other : List ℕ) → other ≢ name.now → names_of self.new other ≡ names_of self.old other }
        ensures memory { IsErrOf result OutsideFault.Memory → names_of self.new ≡ names_of self.old }
        ensures cause { HasCause (write_faults_of self.old) (write_faults_of self.new) result }
        ensures other_count { read_faults_of self.new ≡ read_faults_of self.old }

        // which calls fail, and how they are counted
        ensures planned { FailsAsPlanned (file_places self.old) (file_calls self.old) result }
        ensures counted { write_faults_of self.new ≡ count_of_failures (write_faults_of self.old) result }
        ensures calls { file_calls self.new ≡ next_count (file_calls self.old) }
        ensures places { file_places self.new ≡ file_places self.old }
    {
        if self.plan.next_fails() {
            self.write_faults = self.write_faults.saturating_add(1);
            let half = bytes.len() / 2;
            let _ = set_name(self.alloc, &mut self.names, name, &bytes[..half]);
            return Err(OutsideFault::Failed);
        }
        set_name(self.alloc, &mut self.names, name, bytes)?;
        Ok(())
    }
}

// Lets the name hold these bytes. After an error no name has changed.
fn set_name(alloc: Global, names: &mut Names, name: &str, bytes: &[u8]) -> Result<(), Memory>
    ensures set { OnOk result (get_by_text names.new name.now ≡ Some bytes.now) }
    ensures others { (other : List ℕ) → other ≢ name.now → get_by_text names.new other ≡ get_by_text names.old other }
    ensures err { OnErr result (names.new.entries ≡ names.old.entries) }
{
    let key = String::from_str(alloc, name)?;
    let value = Bytes::from_slice(alloc, bytes)?;
    names.insert(key, value)?;
    Ok(())
}

/// A sink in memory. Its calls are numbered from 0, and those in the list of places fail.
#[derive(Drop)]
pub struct MemSink {
    bytes: Bytes,
    plan: Plan,
    faults: u64,
}

impl MemSink {
    ghost use Rattle.outer.specs.Memory.{bytes_of, sink_places, sink_calls, sink_faults_of};

    /// An empty sink. The calls with these numbers fail, and no other call does.
    pub fn new(alloc: Global, failing: Places) -> Self
        ensures bytes { bytes_of result ≡ [] }
        ensures failing { sink_places result ≡ failing }
        ensures calls { sink_calls result ≡ 0 }
        ensures faults { sink_faults_of result ≡ 0 }
    {
        MemSink {
            bytes: Bytes::new(alloc),
            plan: Plan::new(failing),
            faults: 0,
        }
    }

    /// The bytes put so far.
    pub fn bytes(&self) -> &[u8]
        ensures { result.now ≡ bytes_of self.now }
    {
        self.bytes.as_slice()
    }
}

impl Sink for MemSink {
    ghost use Rattle.std.specs.Prelude.{◌++◌, take};
    ghost use Rattle.outer.specs.Causes.{HasCause, count_of_failures, next_count};
    ghost use Rattle.outer.specs.Plans.{FailsAsPlanned};
    ghost use Rattle.outer.specs.Memory.{bytes_of, sink_places, sink_calls, sink_faults_of};

    ghost shown = { λ sink. Some (bytes_of sink) };

    ghost faults = { sink_faults_of };

    /// A call that is to fail breaks off in the middle: it puts the first half of the piece, where there was memory for it.
    fn put(&mut self, piece: &[u8]) -> Result<(), OutsideFault>
        ensures appended { OnOk result (bytes_of self.new ≡ bytes_of self.old ++ piece.now) }
        ensures front { OnErr result ((count : ℕ) × (bytes_of self.new ≡ bytes_of self.old ++ take count piece.now)) }
        ensures memory { IsErrOf result OutsideFault.Memory → bytes_of self.new ≡ bytes_of self.old }
        ensures cause { HasCause (sink_faults_of self.old) (sink_faults_of self.new) result }

        // which calls fail, and how they are counted
        ensures planned { FailsAsPlanned (sink_places self.old) (sink_calls self.old) result }
        ensures counted { sink_faults_of self.new ≡ count_of_failures (sink_faults_of self.old) result }
        ensures calls { sink_calls self.new ≡ next_count (sink_calls self.old) }
        ensures places { sink_places self.new ≡ sink_places self.old }
    {
        if self.plan.next_fails() {
            self.faults = self.faults.saturating_add(1);
            let half = piece.len() / 2;
            let _ = self.bytes.extend(&piece[..half]);
            return Err(OutsideFault::Failed);
        }
        self.bytes.extend(piece)?;
        Ok(())
    }
}
