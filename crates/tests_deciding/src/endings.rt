//! Endings of lives, that each is taken once. Their moments and entries the cases show.
ghost use Rattle.std.specs.Prelude.{IfOk};
ghost use Rattle.end_of_run.specs.Endings.{IsInLimits};

use crate::shared::{holds, set_of};
use end_of_run::Endings;
use label_set::{NoMemory, SetList};
use report_samples::Closing;
use std::alloc::Global;
use std::process::Abort;

/// Life 7, closed at 2000 with its next scrape planned at 2500 and an interval of 1009 milliseconds; its last scrape
/// tracked one set.
fn closing(alloc: Global) -> Result<Closing, NoMemory>
    ensures { IfOk result (λ c. IsInLimits c) }
{
    let mut items = Vec::new(alloc);
    items.reserve(1)?;
    items.push_reserved(set_of(alloc, "__name__=a")?);
    Ok(Closing {
        life: 7,
        target: set_of(alloc, "job=j")?,
        tracked: SetList { items },
        scraped: true,
        planned: 2500,
        closed: 2000,
        interval: 1009,
        extra: false,
    })
}

pub(crate) fn an_ending_is_taken_once(rt: &impl Abort, alloc: Global) -> Result<(), NoMemory> {
    let mut endings = Endings::new(alloc)?;
    endings.reserve(1)?;
    endings.add(closing(alloc)?)?;
    holds(rt, !endings.due(3608), "not due");
    holds(rt, endings.due(3609), "due");
    holds(rt, !endings.take(7, 3608), "not taken before");
    let entries = endings.entries(alloc, 7)?;
    holds(rt, entries.items.len() == 6, "six entries");
    drop(entries);
    holds(rt, endings.take(7, 3609), "taken");
    holds(rt, !endings.take(7, 3609), "not taken again");
    holds(rt, !endings.due(3609), "not due again");
    let none = endings.entries(alloc, 7)?;
    holds(rt, none.items.is_empty(), "no entry");
    Ok(())
}
