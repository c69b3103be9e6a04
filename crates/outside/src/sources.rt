//! Inputs: what their reads say, whatever stands behind them, and inputs in memory.
ghost use Rattle.std.specs.Prelude.{◌≡◌, ◌≤◌, ◌<◌, ◌↔◌, ◌+◌, ◌-◌, ◌∷◌, [], ◌++◌, ℕ, List, Option, Some, take, drop, min, length, IfOk, OnErr, Ok, IsErr, IsTrue};
ghost use Rattle.outside.specs.Objects.{raised, used};
ghost use Rattle.outside.specs.Sources.{Gave, FailedToGive, IsAtEnd};
ghost use Rattle.outside.specs.Memory.{fails_now};
ghost use Rattle.outside.specs.Inputs.{failing_source_seen};

use crate::memory::next_call;
use crate::objects::CallList;
use label_set::{Blob, NoMemory};
use std::marker::Model;

/// A read failed, and gave nothing.
#[derive(Clone, Copy, PartialEq, Eq, Debug)]
pub struct SourceFault;

/// What gives bytes, to its end.
pub trait Source: Drop {
    ghost use Rattle.outside.specs.Objects.{used};
    ghost use Rattle.outside.specs.Sources.{SourceSeen, Gave, FailedToGive, IsAtEnd};

    /// What contracts see of it: what is left, where that is known, how many bytes it gave, and its count.
    ghost seen: { Self → SourceSeen };

    /// Reads some bytes into the front of the room, and answers how many; 0 is the end.
    fn read(&mut self, room: &mut [u8]) -> Result<usize, SourceFault>
        requires { 0 < length room.old }
        ensures within { IfOk result (λ n. n ≤ length room.new) }
        ensures gave { IfOk result (λ n. Gave (take n room.new) (used (seen self.old) (seen self.new))) }
        ensures end { result ≡ Ok 0 → IsAtEnd (seen self.old).left }
        ensures failed { OnErr result (FailedToGive (used (seen self.old) (seen self.new))) };
}

/// Copies as many bytes to the front of the room as both have, and answers how many.
pub(crate) fn copy_front(bytes: &[u8], room: &mut [u8]) -> usize
    ensures count { result ≡ min (length room.new) (length bytes.now) }
    ensures front { take result room.new ≡ take result bytes.now }
{
    let count = room.len().min(bytes.len());
    let (front, _) = bytes.split_at(count);
    room[..count].copy_from_slice(front);
    count
}

/// Bytes in memory, whose reading never fails.
#[derive(Debug, Drop)]
pub struct SureSource {
    bytes: Blob,
    given: usize,
}

impl Model for SureSource {
    ghost use Rattle.std.specs.Prelude.{drop, length, ◌≤◌};
    ghost use Rattle.outside.specs.Inputs.{SourceView};

    ghost Value = { SourceView };

    ghost view = { λ s. record { left = drop s.given s.bytes; given = s.given } };

    ghost invariant = { λ s. s.given ≤ length s.bytes };
}

impl SureSource {
    /// A source of these bytes. It takes no memory.
    pub fn new(bytes: Blob) -> Result<SureSource, NoMemory>
        ensures { result ≡ Ok (record { left = bytes; given = 0 }) }
    {
        Ok(SureSource { bytes, given: 0 })
    }
}

impl Source for SureSource {
    ghost seen = { λ s. record { left = Some s.left; given = s.given; faults = 0 } };

    fn read(&mut self, room: &mut [u8]) -> Result<usize, SourceFault> {
        let count = copy_front(&self.bytes.as_slice()[self.given..], room);
        self.given += count;
        Ok(count)
    }
}

/// Bytes in memory, whose reading fails at the calls of a list. A read gives as many as the room takes.
#[derive(Debug, Drop)]
pub struct MemSource {
    source: SureSource,
    fails: CallList,
    calls: u64,
    faults: u64,
}

impl Model for MemSource {
    ghost use Rattle.outside.specs.Inputs.{FailingSourceView};

    ghost Value = { FailingSourceView };

    ghost view = { λ s. record { left = s.source.left; given = s.source.given; fails = s.fails; calls = s.calls; faults = s.faults } };
}

impl MemSource {
    /// A source of these bytes that fails at the calls of these numbers. It takes no memory.
    pub fn new(bytes: Blob, fails: CallList) -> Result<MemSource, NoMemory>
        ensures { result ≡ Ok (record { left = bytes; given = 0; fails = fails; calls = 0; faults = 0 }) }
    {
        Ok(MemSource {
            source: SureSource::new(bytes)?,
            fails,
            calls: 0,
            faults: 0,
        })
    }
}

impl Source for MemSource {
    ghost seen = { failing_source_seen };

    fn read(&mut self, room: &mut [u8]) -> Result<usize, SourceFault>
        requires { 0 < length room.old }
        ensures within { IfOk result (λ n. n ≤ length room.new) }
        ensures gave { IfOk result (λ n. Gave (take n room.new) (used (failing_source_seen self.old) (failing_source_seen self.new))) }
        ensures end { result ≡ Ok 0 → IsAtEnd (failing_source_seen self.old).left }
        ensures failed { OnErr result (FailedToGive (used (failing_source_seen self.old) (failing_source_seen self.new))) }
        ensures failing { IsErr result ↔ IsTrue (fails_now self.old.fails self.old.calls) }
        ensures next { self.new.calls ≡ raised self.old.calls }
        ensures fails { self.new.fails ≡ self.old.fails }
    {
        if next_call(&self.fails, &mut self.calls) {
            self.faults = self.faults.saturating_add(1);
            return Err(SourceFault);
        }
        self.source.read(room)
    }
}
