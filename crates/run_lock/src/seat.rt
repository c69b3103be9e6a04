//! The lock of a run, and the seats of those who take turns at it: 0 the caller, 1 the ticker, 2 + i the worker i. A turn lasts for a step only:
//! bodies are read before it is asked for.
ghost use Rattle.std.specs.Prelude.{◌≡◌, ◌<◌, ◌+◌, ℕ, length, true, Some, None, All, IfOk, IfSome, OnSome};
ghost use mathlib.Core.List.{IsPrefix};
ghost use Rattle.outside.specs.Fetches.{IsInLimits};
ghost use Rattle.run_lock.specs.Callers.{IsAnswered, jobs_known};
ghost use Rattle.run_lock.specs.Entries.{Adds, brought_in, events_in};
ghost use Rattle.run_lock.specs.Held.{pending};
ghost use Rattle.run_lock.specs.Listed.{IsListed, listed_in};
ghost use Rattle.run_lock.specs.Seats.{IsOwn};
ghost use Rattle.run_lock.specs.Tasks.{IsFit, IsAsked, IsOrdered, AfterTask, finish_with, sweep_brought};
ghost use Rattle.run_lock.specs.declared.marks.Note.TheVariants.{Brought};
ghost use Rattle.turn_lock.specs.Passes.{own_of, seen_by};

use crate::asked::Asked;
use crate::listed::Listed;
use crate::readings::read_copy;
use crate::state::RunState;
use crate::tasks::{ControlOrder, WorkerTask};
use label_set::NoMemory;
use life_roll::Moment;
use outside::Fetched;
use scrape_core::Answer;
use std::alloc::Global;
use std::sync::Wait;
use std::sync::ledger::Ledger;
use turn_lock::{Pass, TurnLock};

/// The lock of a run.
pub type RunLock<L, B> = TurnLock<RunState<L, B>>;

/// The pass of a seat.
pub type RunPass<L, B> = Pass<RunState<L, B>>;

/// A seat at the lock of a run.
#[derive(Drop)]
pub struct Seat<'r, L: Ledger, B: Asked, R> {
    pub rt: &'r R,
    pub alloc: Global,
    pub lock: &'r RunLock<L, B>,
    pub pass: RunPass<L, B>,
}

impl<'r, L: Ledger, B: Asked, R: Wait> Seat<'r, L, B, R> {
    /// Memory ran out for the seat with this number: all loops are to stop.
    pub fn fail(&mut self, number: u32)
        requires seat { IsOwn self.old.lock.now number self.old.pass }
        ensures lock { self.new.lock ≡ self.old.lock }
        ensures seat { IsOwn self.new.lock.now number self.new.pass }
    {
        let mut state = self.lock.take(self.rt, &mut self.pass);
        state.fail(number);
        self.lock.give(&mut self.pass, state);
        self.lock.wake();
    }

    /// What a worker that has no ticket out is to do: a task, or to wait.
    fn take_task(&mut self, place: usize) -> WorkerTask
        requires few { place < B.workers }
        requires seat { IsOwn self.old.lock.now (2 + place) self.old.pass }
        requires free { pending (own_of self.old.pass) ≡ None }
        ensures lock { self.new.lock ≡ self.old.lock }
        ensures seat { IsOwn self.new.lock.now (2 + place) self.new.pass }
        ensures seen { IsPrefix (seen_by self.old.pass) (seen_by self.new.pass) }
        ensures task { AfterTask place result (own_of self.old.pass) (own_of self.new.pass) }
        ensures asked { IsAsked (events_in (seen_by self.new.pass)) result }
    {
        let mut state = self.lock.take(self.rt, &mut self.pass);
        let task = state.take(self.alloc, place);
        let failed = state.has_failed();
        self.lock.give(&mut self.pass, state);
        if failed {
            self.lock.wake();
        }
        task
    }

    /// Rests until there is something to do for a worker that has no ticket out, and takes it.
    pub fn next_task(&mut self, place: usize) -> WorkerTask
        requires few { place < B.workers }
        requires seat { IsOwn self.old.lock.now (2 + place) self.old.pass }
        requires free { pending (own_of self.old.pass) ≡ None }
        ensures lock { self.new.lock ≡ self.old.lock }
        ensures seat { IsOwn self.new.lock.now (2 + place) self.new.pass }
        ensures seen { IsPrefix (seen_by self.old.pass) (seen_by self.new.pass) }
        ensures task { AfterTask place result (own_of self.old.pass) (own_of self.new.pass) }
        ensures asked { IsAsked (events_in (seen_by self.new.pass)) result }
    {
        for _ in self.rt.forever() {
            let task = self.take_task(place);
            match task {
                WorkerTask::Wait => self.lock.rest(self.rt, &self.pass),
                _ => return task,
            }
        }
        unreachable!()
    }

    /// Brings what came back for the ticket that a worker has out. False where memory runs out.
    /// Its body is read before the turn is asked for, and what was read is let go after that.
    pub fn bring(&mut self, place: usize, ticket: u64, fetched: Fetched) -> bool
        requires few { place < B.workers }
        requires limits { IsInLimits fetched }
        requires seat { IsOwn self.old.lock.now (2 + place) self.old.pass }
        requires out { pending (own_of self.old.pass) ≡ Some ticket }
        ensures lock { self.new.lock ≡ self.old.lock }
        ensures seat { IsOwn self.new.lock.now (2 + place) self.new.pass }
        ensures seen { IsPrefix (seen_by self.old.pass) (seen_by self.new.pass) }
        ensures brought { result ≡ true → (now : ℕ)
            × Adds (own_of self.old.pass) (2 + place) (Brought now (finish_with ticket fetched)) (own_of self.new.pass) }
    {
        let read = read_copy(self.alloc, &fetched.reply);
        let mut state = self.lock.take(self.rt, &mut self.pass);
        let brought = state.finish(self.alloc, place, ticket, fetched, read);
        let wakes = state.has_failed() || state.is_over();
        self.lock.give(&mut self.pass, state);
        if wakes {
            self.lock.wake();
        }
        brought
    }

    /// The moment to wait for before the next sweep; none where memory ran out.
    pub fn plan(&mut self) -> Option<i64>
        requires seat { IsOwn self.old.lock.now 1 self.old.pass }
        ensures lock { self.new.lock ≡ self.old.lock }
        ensures seat { IsOwn self.new.lock.now 1 self.new.pass }
        ensures own { own_of self.new.pass ≡ own_of self.old.pass }
    {
        let state = self.lock.take(self.rt, &mut self.pass);
        let moment = state.plan();
        self.lock.give(&mut self.pass, state);
        moment
    }

    /// Sweeps. False where memory runs out.
    pub fn sweep(&mut self, reading: Moment) -> bool
        requires seat { IsOwn self.old.lock.now 1 self.old.pass }
        requires left { length (brought_in (own_of self.old.pass)) < B.turns }
        ensures lock { self.new.lock ≡ self.old.lock }
        ensures seat { IsOwn self.new.lock.now 1 self.new.pass }
        ensures brought { result ≡ true → (now : ℕ) × Adds (own_of self.old.pass) 1 (sweep_brought reading now) (own_of self.new.pass) }
    {
        let mut state = self.lock.take(self.rt, &mut self.pass);
        let swept = state.sweep(self.alloc, reading);
        self.lock.give(&mut self.pass, state);
        self.lock.wake();
        swept
    }

    /// Carries out an order of the caller. None where memory runs out.
    pub fn carry_out(&mut self, order: ControlOrder) -> Option<Answer>
        requires order { IsFit order }
        requires seat { IsOwn self.old.lock.now 0 self.old.pass }
        ensures lock { self.new.lock ≡ self.old.lock }
        ensures seat { IsOwn self.new.lock.now 0 self.new.pass }
        ensures ordered { OnSome result (IsOrdered order (own_of self.old.pass) (own_of self.new.pass)) }
        ensures answer { IfSome result (IsAnswered (jobs_known B.start (own_of self.old.pass)) order) }
    {
        let mut state = self.lock.take(self.rt, &mut self.pass);
        let answer = state.carry_out(self.alloc, order);
        let failed = state.has_failed();
        self.lock.give(&mut self.pass, state);
        if failed {
            self.lock.wake();
        }
        answer
    }

    /// The listed files of the configuration in force, by what the caller ordered.
    pub fn listed(&mut self) -> Result<Vec<Listed>, NoMemory>
        requires seat { IsOwn self.old.lock.now 0 self.old.pass }
        ensures lock { self.new.lock ≡ self.old.lock }
        ensures seat { IsOwn self.new.lock.now 0 self.new.pass }
        ensures own { own_of self.new.pass ≡ own_of self.old.pass }
        ensures fit { IfOk result (λ v. All IsListed v.items) }
        ensures listed { IfOk result (λ v. v.items ≡ listed_in (jobs_known B.start (own_of self.old.pass))) }
    {
        let state = self.lock.take(self.rt, &mut self.pass);
        let listed = state.listed(self.alloc);
        self.lock.give(&mut self.pass, state);
        listed
    }
}
