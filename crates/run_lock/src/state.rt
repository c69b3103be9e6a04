//! What lies under the lock of a run: the core with the marks of who brought its events, the tickets that are out, and what is still to come.
ghost use Rattle.std.specs.Prelude.{◌≡◌, ◌<◌, ◌≤◌, ◌+◌, length, true, false, Some, None, vec_len, vec_capacity, All, IfOk, IfSome, MatchBool, OnSome};
ghost use Rattle.journal_text.specs.Events.{now_of};
ghost use Rattle.journal_text.specs.declared.events.Event.{Event};
ghost use Rattle.outside.specs.Fetches.{IsInLimits};
ghost use Rattle.run_lock.specs.Callers.{IsAnswered, jobs_known};
ghost use Rattle.run_lock.specs.Entries.{Adds, GoesOn, brought_in, entries_of, own_by};
ghost use Rattle.run_lock.specs.Held.{pending};
ghost use Rattle.run_lock.specs.Listed as listing;
ghost use Rattle.run_lock.specs.Listed.{IsListed};
ghost use Rattle.run_lock.specs.Running.{IsRun};
ghost use Rattle.run_lock.specs.Tasks.{IsFit, IsAsked, AfterTask, finish_with, order_brought, sweep_brought};
ghost use Rattle.run_lock.specs.declared.marks.Note.TheVariants.{Brought, Failed};

use crate::asked::Asked;
use crate::listed::{Listed, listed_in};
use crate::marks::{Entry, Mark};
use crate::readings::take_finish;
use crate::tasks::{ControlOrder, WorkerTask, event_of, finish_event, request_for, sweep_at};
use label_set::{NoMemory, Steps};
use life_roll::Moment;
use outside::Fetched;
use scrape_core::{Answer, Core};
use scrape_loop::ReadReply;
use std::alloc::Global;
use std::marker::PhantomData;
use std::sync::ledger::Ledger;
use turn_lock::Kept;

mod closing;
mod opening;

/// The longest wait for a sweep after the last event, in milliseconds.
const LONGEST_WAIT: i64 = 1_000;

/// The core of a run with the marks of its seats, the tickets that are out, and what is still to come.
/// The tickets from `next` on below `started` are ready, and each worker has a slot for the ticket that it has out.
/// It can't be let go: the core comes out of it.
pub struct RunState<L: Ledger, B: Asked> {
    core: Core,
    steps: Steps<L>,
    marks: Vec<Mark>,
    next: u64,
    started: u64,
    slots: Vec<Option<u64>>,
    out: u64,
    sweeps_left: u32,
    ended: bool,
    failed: bool,
    asked: PhantomData<B>,
    ghost run: { IsRun B.workers B.turns B.start (record {
      events = core;
      marks = marks.items;
      next = next;
      started = started;
      slots = slots.items;
      out = out;
      sweeps_left = sweeps_left;
      ended = ended;
    }) },
    ghost few: { B.workers ≤ 1000 },
    ghost room: { failed ≡ false → vec_len marks < vec_capacity marks },
}

impl<L: Ledger, B: Asked> Kept for RunState<L, B> {
    type Entry = Entry;

    ghost entries = { λ s. entries_of s.core s.marks.items };

    ghost number = { λ e. e.seat };

    fn count(&self) -> u64 {
        self.marks.len() as u64
    }
}

impl<L: Ledger, B: Asked> RunState<L, B> {
    /// Whether every started scrape has its finish, and none will be started.
    pub(crate) fn is_over(&self) -> bool {
        self.next == self.started && self.sweeps_left == 0 && self.out == 0
    }

    /// Whether memory ran out.
    pub fn has_failed(&self) -> bool
        ensures { result ≡ self.now.failed }
    {
        self.failed
    }

    /// Memory ran out for a seat: all loops are to stop.
    pub fn fail(&mut self, seat: u32)
        ensures core { self.new.core ≡ self.old.core }
        ensures goes { GoesOn seat (entries_of self.old.core self.old.marks.items) (entries_of self.new.core self.new.marks.items) }
    {
        if !self.failed {
            self.marks.push_reserved(Mark::Failed { seat });
            self.failed = true;
        }
    }

    /// Takes the least ready ticket, for a worker that has none out.
    fn take_ready(&mut self, alloc: Global, place: usize) -> WorkerTask
        requires ready { self.old.next < self.old.started }
        requires live { self.old.failed ≡ false }
        requires few { place < B.workers }
        requires free { pending (own_by (2 + place) (entries_of self.old.core self.old.marks.items)) ≡ None }
        ensures core { self.new.core ≡ self.old.core }
        ensures goes { GoesOn (2 + place) (entries_of self.old.core self.old.marks.items) (entries_of self.new.core self.new.marks.items) }
        ensures task { AfterTask place result (entries_of self.old.core self.old.marks.items) (entries_of self.new.core self.new.marks.items) }
        ensures asked { IsAsked self.old.core result }
    {
        let seat = 2 + place as u32;
        let ticket = self.next;
        let Some(request) = request_for(alloc, &self.core, ticket) else {
            self.fail(seat);
            return WorkerTask::Fail;
        };
        if self.marks.reserve(2).is_err() {
            self.fail(seat);
            return WorkerTask::Fail;
        }
        self.marks.push_reserved(Mark::Took { seat, ticket });
        self.slots[place] = Some(ticket);
        self.out += 1;
        self.next += 1;
        WorkerTask::Fetch { ticket, request }
    }

    /// Marks that a worker saw the end of all work.
    fn end(&mut self, place: usize) -> WorkerTask
        requires over { (self.old.next ≡ self.old.started) × (self.old.out ≡ 0) × (self.old.sweeps_left ≡ 0) }
        requires live { self.old.failed ≡ false }
        requires few { place < B.workers }
        requires free { pending (own_by (2 + place) (entries_of self.old.core self.old.marks.items)) ≡ None }
        ensures core { self.new.core ≡ self.old.core }
        ensures goes { GoesOn (2 + place) (entries_of self.old.core self.old.marks.items) (entries_of self.new.core self.new.marks.items) }
        ensures task { AfterTask place result (entries_of self.old.core self.old.marks.items) (entries_of self.new.core self.new.marks.items) }
        ensures asked { IsAsked self.old.core result }
    {
        let seat = 2 + place as u32;
        if self.marks.reserve(2).is_err() {
            self.fail(seat);
            return WorkerTask::Fail;
        }
        self.marks.push_reserved(Mark::Ended { seat });
        self.ended = true;
        WorkerTask::End
    }

    /// Says what a worker that has no ticket out is to do. At the end of all work its entries show it.
    pub fn take(&mut self, alloc: Global, place: usize) -> WorkerTask
        requires few { place < B.workers }
        requires free { pending (own_by (2 + place) (entries_of self.old.core self.old.marks.items)) ≡ None }
        ensures core { self.new.core ≡ self.old.core }
        ensures goes { GoesOn (2 + place) (entries_of self.old.core self.old.marks.items) (entries_of self.new.core self.new.marks.items) }
        ensures task { AfterTask place result (entries_of self.old.core self.old.marks.items) (entries_of self.new.core self.new.marks.items) }
        ensures asked { IsAsked self.old.core result }
    {
        if self.failed {
            return WorkerTask::Fail;
        }
        if self.next < self.started {
            return self.take_ready(alloc, place);
        }
        if self.sweeps_left > 0 || self.out > 0 {
            return WorkerTask::Wait;
        }
        self.end(place)
    }

    /// Brings what came back for the ticket that a worker has out, and what was read of it. False where memory runs out.
    pub fn finish(
        &mut self,
        alloc: Global,
        place: usize,
        ticket: u64,
        fetched: Fetched,
        read: Option<ReadReply>,
    ) -> bool
        requires few { place < B.workers }
        requires limits { IsInLimits fetched }
        requires read { IfSome read (λ r. fetched.reply ≡ r) }
        requires out { pending (own_by (2 + place) (entries_of self.old.core self.old.marks.items)) ≡ Some ticket }
        ensures goes { GoesOn (2 + place) (entries_of self.old.core self.old.marks.items) (entries_of self.new.core self.new.marks.items) }
        ensures brought { result ≡ true → Adds (entries_of self.old.core self.old.marks.items) (2 + place)
            (Brought (now_of self.old.core) (finish_with ticket fetched)) (entries_of self.new.core self.new.marks.items) }
    {
        let seat = 2 + place as u32;
        if self.failed || self.marks.reserve(2).is_err() {
            self.fail(seat);
            return false;
        }
        let event = finish_event(ticket, fetched);
        let Ok(_) = take_finish(&mut self.core, alloc, event, read, &mut self.steps) else {
            self.fail(seat);
            return false;
        };
        self.marks.push_reserved(Mark::Brought { seat });
        self.slots[place] = None;
        self.out -= 1;
        true
    }

    /// Sweeps at the reading of the clock, or at the last moment where that is later. False where memory runs out.
    pub fn sweep(&mut self, alloc: Global, reading: Moment) -> bool
        requires left { length (brought_in (own_by 1 (entries_of self.old.core self.old.marks.items))) < B.turns }
        ensures goes { GoesOn 1 (entries_of self.old.core self.old.marks.items) (entries_of self.new.core self.new.marks.items) }
        ensures brought { result ≡ true → Adds (entries_of self.old.core self.old.marks.items) 1
            (sweep_brought reading (now_of self.old.core)) (entries_of self.new.core self.new.marks.items) }
    {
        if self.failed || self.marks.reserve(2).is_err() {
            self.fail(1);
            return false;
        }
        let event = sweep_at(reading, self.core.moment());
        let Ok(_) = self.core.take(alloc, event, &mut self.steps) else {
            self.fail(1);
            return false;
        };
        self.marks.push_reserved(Mark::Brought { seat: 1 });
        self.started = self.core.started();
        self.sweeps_left -= 1;
        true
    }

    /// Carries out an order of the caller at the last moment. None where memory runs out.
    pub fn carry_out(&mut self, alloc: Global, order: ControlOrder) -> Option<Answer>
        requires order { IsFit order }
        ensures goes { GoesOn 0 (entries_of self.old.core self.old.marks.items) (entries_of self.new.core self.new.marks.items) }
        ensures brought { OnSome result (Adds (entries_of self.old.core self.old.marks.items) 0
            (order_brought order (now_of self.old.core)) (entries_of self.new.core self.new.marks.items)) }
        ensures answer { IfSome result (IsAnswered (jobs_known B.start (own_by 0 (entries_of self.old.core self.old.marks.items))) order) }
    {
        if self.failed || self.marks.reserve(2).is_err() {
            self.fail(0);
            return None;
        }
        let event = event_of(order, self.core.moment());
        let Ok(answer) = self.core.take(alloc, event, &mut self.steps) else {
            self.fail(0);
            return None;
        };
        self.marks.push_reserved(Mark::Brought { seat: 0 });
        Some(answer)
    }

    /// The listed files of the configuration in force, by what the caller ordered.
    pub fn listed(&self, alloc: Global) -> Result<Vec<Listed>, NoMemory>
        ensures fit { IfOk result (λ v. All IsListed v.items) }
        ensures listed { IfOk result (λ v. v.items ≡ listing.listed_in (jobs_known B.start (own_by 0 (entries_of self.now.core self.now.marks.items)))) }
    {
        listed_in(alloc, self.core.jobs())
    }

    /// The moment to wait for before the next sweep: that at which a sweep would act, but no later than the longest wait. None where memory ran out.
    pub(crate) fn plan(&self) -> Option<i64> {
        if self.failed {
            return None;
        }
        let latest = self.core.moment().ms() + LONGEST_WAIT;
        match self.core.wake() {
            Some(moment) => Some(moment.min(latest)),
            None => Some(latest),
        }
    }
}
