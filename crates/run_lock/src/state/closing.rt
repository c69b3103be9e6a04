//! The end of a run: the core is halted, and comes back with the seats of its events.
ghost use Rattle.std.specs.Prelude.{◌≡◌, ◌<◌, ℕ, pos, length, true, false};
ghost use Rattle.journal_text.specs.Events.{now_of};
ghost use Rattle.journal_text.specs.declared.events.Event.TheVariants.{Halt};
ghost use Rattle.run_lock.specs.Callers.{BeginsWith, IsOfCaller};
ghost use Rattle.run_lock.specs.Entries.{Adds, entries_of, events_in, own_by, seats_in};
ghost use Rattle.run_lock.specs.Held.{any_end, events_of};
ghost use Rattle.run_lock.specs.declared.marks.Note.TheVariants.{Brought};
ghost use Rattle.scrape_core.specs.Records.{IsWhole};

use super::RunState;
use crate::asked::Asked;
use crate::marks::Mark;
use scrape_core::Core;
use std::sync::ledger::Ledger;

impl<L: Ledger, B: Asked> RunState<L, B> {
    /// Halts the core at the end of all work, which the entries show.
    pub fn close(self) -> (Core, Vec<Mark>)
        requires live { self.failed ≡ false }
        requires ended { any_end (entries_of self.core self.marks.items) ≡ true }
        ensures done { IsWhole result.0 }
        ensures seats { length (seats_in result.1.items) ≡ length result.0 }
        ensures entries { Adds (entries_of self.core self.marks.items) 0
            (Brought (now_of self.core) (Halt (pos (now_of self.core)))) (entries_of result.0 result.1.items) }
        ensures others { (q : ℕ) → 0 < q → events_of q result.0 (seats_in result.1.items)
            ≡ events_in (own_by q (entries_of self.core self.marks.items)) }
        ensures caller { IsOfCaller B.start result.0 (seats_in result.1.items) (own_by 0 (entries_of self.core self.marks.items)) }
    {
        let RunState {
            mut core,
            steps: _,
            mut marks,
            next: _,
            started: _,
            slots: _,
            out: _,
            sweeps_left: _,
            ended: _,
            failed: _,
            asked: _,
        } = self;
        core.halt();
        marks.push_reserved(Mark::Brought { seat: 0 });
        (core, marks)
    }

    /// The core as it is, with the marks of who brought its events.
    pub fn into_core(self) -> (Core, Vec<Mark>)
        ensures core { result.0 ≡ self.core }
        ensures seats { length (seats_in result.1.items) ≡ length result.0 }
        ensures begins { BeginsWith B.start result.0 }
    {
        let RunState {
            core,
            steps: _,
            marks,
            next: _,
            started: _,
            slots: _,
            out: _,
            sweeps_left: _,
            ended: _,
            failed: _,
            asked: _,
        } = self;
        (core, marks)
    }
}
