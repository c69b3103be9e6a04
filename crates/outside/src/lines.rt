//! Links in memory.
ghost use Rattle.std.specs.Prelude.{◌≡◌, ◌≤◌, ◌<◌, ◌↔◌, ◌+◌, ◌-◌, ◌∷◌, [], ◌++◌, ℕ, List, Option, Some, take, drop, min, length, IfOk, OnOk, OnErr, Ok, IsErr, IsTrue, false, true, ◌||◌};
ghost use Rattle.outside.specs.Objects.{raised, used};
ghost use Rattle.outside.specs.Sources.{IsAtEnd};
ghost use Rattle.outside.specs.Links.{WasDialled, TookToSend, TakesSome, GaveOfLink, Broke, WasHungUp};
ghost use Rattle.outside.specs.Lines as spec;

use crate::links::{Link, LinkFault};
use crate::memory::next_call;
use crate::objects::CallList;
use crate::sources::copy_front;
use label_set::{Blob, NoMemory};
use std::alloc::Global;
use std::marker::Model;

/// A link in memory whose calls never fail. It keeps nothing of what is sent.
#[derive(Debug, Drop)]
pub struct SureLink {
    bytes: Blob,
    given: usize,
    dialled: bool,
}

impl Model for SureLink {
    ghost use Rattle.std.specs.Prelude.{drop, length, ◌≤◌};
    ghost use Rattle.outside.specs.Lines.{LineView};

    ghost Value = { LineView };

    ghost view = { λ l. record { dialled = l.dialled; left = drop l.given l.bytes } };

    ghost invariant = { λ l. l.given ≤ length l.bytes };
}

impl SureLink {
    /// A link whose reads give these bytes. It takes no memory.
    pub fn new(bytes: Blob) -> Result<SureLink, NoMemory>
        ensures { result ≡ Ok (record { dialled = false; left = bytes }) }
    {
        Ok(SureLink {
            bytes,
            given: 0,
            dialled: false,
        })
    }
}

impl Link for SureLink {
    ghost seen = { spec.sure_link_seen };

    fn dial(&mut self, _host: &str, _port: u16, _timeout: i64) -> Result<(), LinkFault> {
        self.dialled = true;
        Ok(())
    }

    fn write(&mut self, bytes: &[u8]) -> Result<usize, LinkFault> {
        Ok(bytes.len())
    }

    fn read(&mut self, room: &mut [u8]) -> Result<usize, LinkFault> {
        let count = copy_front(&self.bytes.as_slice()[self.given..], room);
        self.given += count;
        Ok(count)
    }

    fn hang_up(&mut self) {
        self.dialled = false;
    }
}

/// A link in memory with room for so many sent bytes, whose calls fail by the numbers of a list; a write fails also where no room is left.
/// A write takes as many bytes as there is room for, a read gives as many as its room takes.
#[derive(Debug, Drop)]
pub struct MemLink {
    link: SureLink,
    sent: Vec<u8>,
    room: usize,
    fails: CallList,
    calls: u64,
    faults: u64,
}

impl Model for MemLink {
    ghost use Rattle.std.specs.Prelude.{◌≤◌, vec_len, vec_capacity};
    ghost use Rattle.outside.specs.Lines.{FailingLineView};

    ghost Value = { FailingLineView };

    ghost view = { λ l. record {
      dialled = l.link.dialled;
      left = l.link.left;
      sent = l.sent.items;
      room = l.room;
      fails = l.fails;
      calls = l.calls;
      faults = l.faults;
    } };

    ghost invariant = { λ l. (vec_len l.sent ≤ l.room) × (l.room ≤ vec_capacity l.sent) };
}

impl MemLink {
    /// A link whose reads give these bytes, and on which nothing was sent yet. The room is taken here.
    pub fn new(
        alloc: Global,
        bytes: Blob,
        room: usize,
        fails: CallList,
    ) -> Result<MemLink, NoMemory>
        ensures { IfOk result (λ l. l ≡ record { dialled = false; left = bytes; sent = []; room = room; fails = fails; calls = 0; faults = 0 }) }
    {
        Ok(MemLink {
            link: SureLink::new(bytes)?,
            sent: Vec::with_capacity(alloc, room)?,
            room,
            fails,
            calls: 0,
            faults: 0,
        })
    }

    /// What was sent.
    pub fn sent(&self) -> &[u8]
        ensures { result.now ≡ self.now.sent }
    {
        self.sent.as_slice()
    }
}

impl Link for MemLink {
    ghost seen = { spec.failing_link_seen };

    fn dial(&mut self, host: &str, port: u16, timeout: i64) -> Result<(), LinkFault>
        ensures dialled { OnOk result (WasDialled (used (spec.failing_link_seen self.old) (spec.failing_link_seen self.new))) }
        ensures failed { OnErr result (Broke (used (spec.failing_link_seen self.old) (spec.failing_link_seen self.new))) }
        ensures failing { IsErr result ↔ IsTrue (spec.is_to_fail self.old) }
        ensures next { self.new.calls ≡ raised self.old.calls }
        ensures same { (self.new.fails ≡ self.old.fails) × (self.new.room ≡ self.old.room) }
    {
        if next_call(&self.fails, &mut self.calls) {
            self.faults = self.faults.saturating_add(1);
            return Err(LinkFault);
        }
        self.link.dial(host, port, timeout)
    }

    fn write(&mut self, bytes: &[u8]) -> Result<usize, LinkFault>
        ensures within { IfOk result (λ n. n ≤ length bytes.now) }
        ensures some { IfOk result (λ n. TakesSome n bytes.now) }
        ensures took { IfOk result (λ n. TookToSend (take n bytes.now) (used (spec.failing_link_seen self.old) (spec.failing_link_seen self.new))) }
        ensures failed { OnErr result (Broke (used (spec.failing_link_seen self.old) (spec.failing_link_seen self.new))) }
        ensures count { IfOk result (λ n. n ≡ spec.taken self.old bytes.now) }
        ensures failing { IsErr result ↔ IsTrue (spec.is_to_fail self.old || spec.is_full self.old bytes.now) }
        ensures next { self.new.calls ≡ raised self.old.calls }
        ensures same { (self.new.fails ≡ self.old.fails) × (self.new.room ≡ self.old.room) }
    {
        let fails = next_call(&self.fails, &mut self.calls);
        let count = bytes.len().min(self.room - self.sent.len());
        let full = count == 0 && !bytes.is_empty();
        if fails || full || self.sent.extend_from_slice(&bytes[..count]).is_err() {
            self.faults = self.faults.saturating_add(1);
            return Err(LinkFault);
        }
        Ok(count)
    }

    fn read(&mut self, room: &mut [u8]) -> Result<usize, LinkFault>
        requires { 0 < length room.old }
        ensures within { IfOk result (λ n. n ≤ length room.new) }
        ensures gave { IfOk result (λ n. GaveOfLink (take n room.new) (used (spec.failing_link_seen self.old) (spec.failing_link_seen self.new))) }
        ensures end { result ≡ Ok 0 → IsAtEnd (spec.failing_link_seen self.old).left }
        ensures failed { OnErr result (Broke (used (spec.failing_link_seen self.old) (spec.failing_link_seen self.new))) }
        ensures failing { IsErr result ↔ IsTrue (spec.is_to_fail self.old) }
        ensures next { self.new.calls ≡ raised self.old.calls }
        ensures same { (self.new.fails ≡ self.old.fails) × (self.new.room ≡ self.old.room) }
    {
        if next_call(&self.fails, &mut self.calls) {
            self.faults = self.faults.saturating_add(1);
            return Err(LinkFault);
        }
        self.link.read(room)
    }

    fn hang_up(&mut self)
        ensures hung_up { WasHungUp (used (spec.failing_link_seen self.old) (spec.failing_link_seen self.new)) }
        ensures same { (self.new.fails ≡ self.old.fails) × (self.new.room ≡ self.old.room) × (self.new.calls ≡ self.old.calls) }
    {
        self.link.hang_up();
    }
}
