//! A core that takes a whole journal.
ghost use Rattle.std.specs.Prelude.{◌≡◌, ◌<◌, IfOk};

use crate::machine::Core;
use crate::means::Means;
use journal_text::Journal;
use label_set::{NoMemory, Steps};
use std::marker::Brand;
use std::sync::ledger::{Blank, Ledger};

/// A core that took each event of a journal.
fn stepped<L: Ledger>(
    means: Means,
    journal: Journal,
    steps: &mut Steps<L>,
) -> Result<Core, NoMemory>
    ensures { IfOk result (λ core. core ≡ journal.events) }
{
    let mut core = Core::seeded(means.alloc, means.seed)?;
    let mut events = journal.into_events();
    events.reverse();
    while let Some(event) = events.pop() {
        let _ = core.take(means.alloc, event, steps)?;
    }
    Ok(core)
}

/// The same, with a count of steps that nobody reads.
fn stepped_from<L: Ledger>(means: Means, journal: Journal, blank: Blank) -> Result<Core, NoMemory>
    requires name { blank.name ≡ L.name }
    requires parts { blank.parts ≡ L.parts }
    requires some { 0 < blank.parts }
    ensures { IfOk result (λ core. core ≡ journal.events) }
{
    let mut steps: Steps<L> = Steps::open(blank);
    stepped(means, journal, &mut steps)
}

/// A core that took each event of a journal, one after another.
pub fn replay(means: Means, journal: Journal) -> Result<Core, NoMemory>
    ensures { IfOk result (λ core. core ≡ journal.events) }
{
    stepped_from::<Brand>(means, journal, Blank::new(1))
}
