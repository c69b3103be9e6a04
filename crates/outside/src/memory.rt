//! Shelves and sinks in memory, of which it is known what they hold.
ghost use Rattle.std.specs.Prelude.{◌≡◌, ◌≤◌, ◌∷◌, [], ◌++◌, ℕ, List, Option, Some, None, length, option_map, OnOk, OnErr, IfOk, IsErrOf, Ok, Err, IsOk, IsErr, ◌↔◌, IsTrue, ◌+◌, false};
ghost use Rattle.outside.specs.Objects.{raised, file_of, used, HasFile, LacksFile, HasLongerFile, ReadLeaves, Took, Cut};
ghost use Rattle.outside.specs.Memory.{fails_now, put_fails, after_put, failing_seen, sink_seen};

use crate::objects::{CallList, FileList, Shelf, ShelfError, Sink, SinkFault, StoredFile};
use label_set::{Blob, NoMemory};
use std::alloc::Global;
use std::marker::Model;

/// The bytes of the first file of a name.
fn file_in<'a>(files: &'a [StoredFile], name: &str) -> Option<&'a [u8]>
    ensures { option_map (λ b. b.now) result ≡ file_of name.now files.now }
{
    files
        .iter()
        .find(|file| file.name.as_str() == name)
        .map(|file| file.bytes.as_slice())
}

/// Files in memory, whose reading never fails.
#[derive(Debug, Drop)]
pub struct SureShelf {
    files: FileList,
    misses: u64,
    overs: u64,
}

impl Model for SureShelf {
    ghost use Rattle.outside.specs.Memory.{ShelfView};

    ghost Value = { ShelfView };

    ghost view = { λ s. record { files = s.files; misses = s.misses; overs = s.overs } };
}

impl SureShelf {
    /// A shelf of these files. It takes no memory.
    pub fn new(files: FileList) -> Result<SureShelf, NoMemory>
        ensures { result ≡ Ok (record { files = files; misses = 0; overs = 0 }) }
    {
        Ok(SureShelf {
            files,
            misses: 0,
            overs: 0,
        })
    }
}

impl Shelf for SureShelf {
    ghost seen = { λ s. record { files = Some s.files; misses = s.misses; overs = s.overs; faults = 0 } };

    fn read_file(&mut self, alloc: Global, name: &str, limit: usize) -> Result<Blob, ShelfError> {
        let Some(bytes) = file_in(self.files.items.as_slice(), name) else {
            self.misses = self.misses.saturating_add(1);
            return Err(ShelfError::Absent);
        };
        if bytes.len() > limit {
            self.overs = self.overs.saturating_add(1);
            return Err(ShelfError::TooLong);
        }
        Ok(Blob::from_slice(alloc, bytes)?)
    }
}

/// Files in memory, whose reading fails at the calls of a list.
#[derive(Debug, Drop)]
pub struct MemShelf {
    shelf: SureShelf,
    fails: CallList,
    calls: u64,
    faults: u64,
}

impl Model for MemShelf {
    ghost use Rattle.outside.specs.Memory.{FailingShelfView};

    ghost Value = { FailingShelfView };

    ghost view = { λ s. record {
      files = s.shelf.files;
      misses = s.shelf.misses;
      overs = s.shelf.overs;
      fails = s.fails;
      calls = s.calls;
      faults = s.faults;
    } };
}

impl MemShelf {
    /// A shelf of these files that fails at the calls of these numbers. It takes no memory.
    pub fn new(files: FileList, fails: CallList) -> Result<MemShelf, NoMemory>
        ensures { result ≡ Ok (record { files = files; misses = 0; overs = 0; fails = fails; calls = 0; faults = 0 }) }
    {
        Ok(MemShelf {
            shelf: SureShelf::new(files)?,
            fails,
            calls: 0,
            faults: 0,
        })
    }
}

/// Whether the call of a number is to fail.
fn fails_at(fails: &[u64], number: u64) -> bool
    ensures { result ≡ fails_now fails.now number }
{
    fails.iter().any(|fail| number == *fail)
}

/// Whether the call of a number is to fail, by a list; the next call has the next number.
pub(crate) fn next_call(fails: &CallList, calls: &mut u64) -> bool
    ensures fails { result ≡ fails_now fails.now calls.old }
    ensures next { calls.new ≡ raised calls.old }
{
    let number = *calls;
    *calls = number.saturating_add(1);
    fails_at(fails.items.as_slice(), number)
}

impl Shelf for MemShelf {
    ghost seen = { failing_seen };

    fn read_file(&mut self, alloc: Global, name: &str, limit: usize) -> Result<Blob, ShelfError>
        ensures bound { IfOk result (λ bytes. length bytes ≤ limit) }
        ensures content { IfOk result (λ bytes. HasFile (failing_seen self.old) name.now bytes) }
        ensures absent { IsErrOf result ShelfError.Absent → LacksFile (failing_seen self.old) name.now }
        ensures too_long { IsErrOf result ShelfError.TooLong → HasLongerFile (failing_seen self.old) name.now limit }
        ensures leaves { ReadLeaves result (used (failing_seen self.old) (failing_seen self.new)) }
        ensures failing { IsErrOf result ShelfError.Failed ↔ IsTrue (fails_now self.old.fails self.old.calls) }
        ensures next { self.new.calls ≡ raised self.old.calls }
        ensures fails { self.new.fails ≡ self.old.fails }
    {
        let number = self.calls;
        self.calls = number.saturating_add(1);
        if fails_at(self.fails.items.as_slice(), number) {
            self.faults = self.faults.saturating_add(1);
            return Err(ShelfError::Failed);
        }
        self.shelf.read_file(alloc, name, limit)
    }
}

/// A sink that takes all bytes, keeps none, and of which nothing is known.
#[derive(Debug, Drop)]
pub struct SureSink;

impl SureSink {
    /// A sink. It takes no memory.
    pub fn new() -> Result<SureSink, NoMemory>
        ensures { IsOk result }
    {
        Ok(SureSink)
    }
}

impl Sink for SureSink {
    ghost seen = { λ s. record { bytes = None; faults = 0 } };

    fn put(&mut self, _bytes: &[u8]) -> Result<(), SinkFault> {
        Ok(())
    }
}

/// A sink in memory with room for so many bytes, which fails at the calls of a list and where the room is
/// too small. A put that fails adds nothing.
#[derive(Debug, Drop)]
pub struct MemSink {
    bytes: Vec<u8>,
    room: usize,
    fails: CallList,
    calls: u64,
    faults: u64,
}

impl Model for MemSink {
    ghost use Rattle.std.specs.Prelude.{◌≤◌, vec_len, vec_capacity};
    ghost use Rattle.outside.specs.Memory.{SinkView};

    ghost Value = { SinkView };

    ghost view = { λ s. record { bytes = s.bytes.items; room = s.room; fails = s.fails; calls = s.calls; faults = s.faults } };

    ghost invariant = { λ s. (vec_len s.bytes ≤ s.room) × (s.room ≤ vec_capacity s.bytes) };
}

impl MemSink {
    /// A sink that holds nothing yet. The room is taken here.
    pub fn new(alloc: Global, room: usize, fails: CallList) -> Result<MemSink, NoMemory>
        ensures { IfOk result (λ sink. sink ≡ record { bytes = []; room = room; fails = fails; calls = 0; faults = 0 }) }
    {
        Ok(MemSink {
            bytes: Vec::with_capacity(alloc, room)?,
            room,
            fails,
            calls: 0,
            faults: 0,
        })
    }

    /// What the sink holds.
    pub fn bytes(&self) -> &[u8]
        ensures { result.now ≡ self.now.bytes }
    {
        self.bytes.as_slice()
    }
}

/// Whether the next put is to fail: by its number, or for want of room.
#[tactic(auto, unfolding(crate::specs::Memory::put_fails))]
fn put_fails_at(sink: &MemSink, bytes: &[u8]) -> bool
    ensures value { result ≡ put_fails sink.now bytes.now }
    ensures room { result ≡ false → length sink.now.bytes + length bytes.now ≤ sink.now.room }
{
    fails_at(sink.fails.items.as_slice(), sink.calls) || sink.room - sink.bytes.len() < bytes.len()
}

impl Sink for MemSink {
    ghost seen = { sink_seen };

    fn put(&mut self, bytes: &[u8]) -> Result<(), SinkFault>
        ensures whole { OnOk result (Took bytes.now (used (sink_seen self.old) (sink_seen self.new))) }
        ensures cut { OnErr result (Cut bytes.now (used (sink_seen self.old) (sink_seen self.new))) }
        ensures failing { IsErr result ↔ IsTrue (put_fails self.old bytes.now) }
        ensures next { self.new ≡ after_put self.old bytes.now }
    {
        let fails = put_fails_at(self, bytes);
        self.calls = self.calls.saturating_add(1);
        if fails || self.bytes.extend_from_slice(bytes).is_err() {
            self.faults = self.faults.saturating_add(1);
            return Err(SinkFault);
        }
        Ok(())
    }
}
