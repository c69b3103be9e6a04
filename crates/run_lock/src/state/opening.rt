//! A run before its loops.
ghost use Rattle.std.specs.Prelude.{◌≡◌, ◌<◌, ◌≤◌, ◌+◌, ◌^◌, length, replicate, None, vec_len, vec_capacity, IfErr, IfOk};
ghost use Rattle.run_lock.specs.Entries.{begun_with, entries_of};
ghost use Rattle.run_lock.specs.declared.marks.Mark.TheVariants.{Before};
ghost use Rattle.scrape_core.specs.Records.{IsFresh};

use super::RunState;
use crate::asked::Asked;
use crate::marks::Mark;
use label_set::{NoMemory, Steps};
use scrape_core::Core;
use std::alloc::Global;
use std::marker::PhantomData;
use std::sync::ledger::Ledger;

/// A mark for each event that was there before the run, and room for two more.
fn first_marks(alloc: Global, count: usize) -> Result<Vec<Mark>, NoMemory>
    requires { count < 2 ^ 40 }
    ensures items { IfOk result (λ marks. marks.items ≡ replicate count Before) }
    ensures len { IfOk result (λ marks. vec_len marks ≡ count) }
    ensures room { IfOk result (λ marks. count + 1 < vec_capacity marks) }
{
    let mut marks = Vec::with_capacity(alloc, count + 2)?;
    for _event in 0..count {
        marks.push_reserved(Mark::Before);
    }
    Ok(marks)
}

/// As many slots with no ticket.
fn no_tickets(alloc: Global, count: usize) -> Result<Vec<Option<u64>>, NoMemory>
    ensures { IfOk result (λ slots. slots.items ≡ replicate count None) }
{
    Ok(Vec::from_elem(alloc, None, count)?)
}

impl<L: Ledger, B: Asked> RunState<L, B> {
    /// A run over this core, with so many workers, which is to make so many sweeps. Where memory runs out the core comes back.
    pub fn open(
        alloc: Global,
        core: Core,
        steps: Steps<L>,
        turns: u32,
        workers: usize,
    ) -> Result<RunState<L, B>, Core>
        requires fresh { IsFresh core }
        requires start { core ≡ B.start }
        requires few { length core ≤ 2 ^ 39 }
        requires turns { turns ≡ B.turns }
        requires workers { (workers ≡ B.workers) × (workers ≤ 1000) }
        ensures core { IfErr result (λ c. c ≡ core) }
        ensures kept { IfOk result (λ s. s.core ≡ core) }
        ensures begun { IfOk result (λ s. entries_of s.core s.marks.items ≡ begun_with core) }
    {
        let Ok(marks) = first_marks(alloc, core.events() as usize) else {
            return Err(core);
        };
        let Ok(slots) = no_tickets(alloc, workers) else {
            return Err(core);
        };
        Ok(RunState {
            core,
            steps,
            marks,
            next: 0,
            started: 0,
            slots,
            out: 0,
            sweeps_left: turns,
            ended: false,
            failed: false,
            asked: PhantomData,
        })
    }
}
