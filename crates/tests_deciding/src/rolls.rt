//! Lives and their scrapes in flight, over changes of what is wanted.
ghost use Rattle.std.specs.Prelude.{◌≡◌};

use crate::endings::an_ending_is_taken_once;
use crate::scrapes::texts_are_hashed_with_the_seed_of_the_book;
use crate::shared::holds;
use label_set::{LabelSet, NoMemory};
use life_roll::{Began, Flight, Roll, Synced, TickRefusal, Wanted};
use std::alloc::Global;
use std::hash::RandomState;
use std::process::Abort;
use std::test::Fail;

/// That the target of a job that has no labels is wanted, by settings that are the earlier ones or aren't.
fn wanted(same: bool, compatible: bool, interval: i64) -> Wanted
    ensures { result.interval ≡ interval }
{
    Wanted {
        job: 7,
        identity: LabelSet::empty(),
        same,
        compatible,
        interval,
    }
}

/// A roll with one life whose first scrape had its finish and whose second is in flight.
fn is_flying(rt: &impl Abort, roll: &mut Roll) {
    let first = roll.begin(0, 0, false);
    holds(rt, first == Ok(Began::Started(0)), "the first scrape");
    if roll.flight_of(0).is_some() {
        roll.land(0);
    }
    holds(rt, roll.flight_of(0) == None, "its finish");
    let early = roll.begin(59_999, 0, false);
    holds(rt, early == Err(TickRefusal::NotDue), "before it is due");
    let second = roll.begin(60_000, 0, false);
    holds(rt, second == Ok(Began::Started(1)), "the second scrape");
    let busy = roll.begin(60_001, 0, false);
    holds(rt, busy == Err(TickRefusal::Busy), "while it is in flight");
}

/// The life goes on under other settings, and its scrape in flight is no longer valid.
fn is_cancelled(rt: &impl Abort, alloc: Global, roll: &mut Roll) -> Result<(), NoMemory> {
    let Synced { closed, begun } = roll.sync(alloc, 60_005, &[wanted(false, true, 30_000)])?;
    holds(rt, closed == 0 && begun == 0, "no life closes or begins");
    let cancelled = Flight {
        life: 0,
        moment: 60_000,
        valid: false,
    };
    holds(rt, roll.flight_of(1) == Some(cancelled), "cancelled");
    let early = roll.begin(90_004, 0, false);
    holds(rt, early == Err(TickRefusal::NotDue), "before it is due");
    let forced = roll.begin(90_005, 0, true);
    holds(rt, forced == Ok(Began::Forced), "a forced scrape");
    holds(rt, roll.next_ticket() == 2, "the next ticket");
    Ok(())
}

/// Another life begins where the settings go no further.
fn is_replaced(rt: &impl Abort, alloc: Global, roll: &mut Roll) -> Result<(), NoMemory> {
    let Synced { closed, begun } = roll.sync(alloc, 90_010, &[wanted(false, false, 60_000)])?;
    holds(rt, closed == 1 && begun == 1, "one closes, one begins");
    holds(rt, roll.lives().len() == 2, "two lives");
    let gone = roll.begin(150_000, 0, false);
    holds(rt, gone == Err(TickRefusal::NoLife), "the closed life");
    let other = roll.begin(150_000, 1, false);
    holds(rt, other == Ok(Began::Started(2)), "the other life");
    roll.cancel(1);
    let next = roll.begin(210_010, 1, false);
    holds(
        rt,
        next == Ok(Began::Started(3)),
        "behind a cancelled scrape",
    );
    Ok(())
}

fn lives_go_on_or_close(rt: &impl Abort, alloc: Global) -> Result<(), NoMemory> {
    let mut roll = Roll::new(alloc)?;
    roll.reserve(4)?;
    roll.sync(alloc, 0, &[wanted(true, true, 60_000)])?;
    is_flying(rt, &mut roll);
    is_cancelled(rt, alloc, &mut roll)?;
    is_replaced(rt, alloc, &mut roll)
}

#[test]
fn lives_go_on_or_end(rt: HostRuntime) -> Result<(), Fail> {
    lives_go_on_or_close(&rt, rt.alloc())?;
    an_ending_is_taken_once(&rt, rt.alloc())?;
    texts_are_hashed_with_the_seed_of_the_book(&rt, rt.alloc(), RandomState::new(&rt)?)?;
    Ok(())
}
