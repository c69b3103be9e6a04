//! The first load of a run.
ghost use Rattle.std.specs.Prelude.{◌≡◌, ◌<◌, ◌≤◌, ◌^◌, List, [], ◌∷◌, length, IfOk, IfErr, OnOk, pos};
ghost use Rattle.journal_text.specs.declared.events.Event.TheVariants.{Load};
ghost use Rattle.outside.specs.Clocks.{IsReading};
ghost use Rattle.outside.specs.Objects.{HasFile, IsUntouched, used};
ghost use Rattle.outside.specs.Sizes.{most_text_bytes};
ghost use Rattle.scrape_core.specs.Records.{IsFresh};
ghost use Rattle.live_run.specs.Runs as spec;

use crate::asked::LiveEnd;
use journal_text::Event;
use label_set::{Blob, NoMemory, Steps};
use outside::{MOST_TEXT_BYTES, Shelf, ShelfError};
use run_lock::tasks::fault_of;
use scrape_core::{Core, Means};
use std::alloc::Global;
use std::marker::Brand;
use std::sync::ledger::{Blank, Ledger};

/// Reads the file of a configuration.
fn read_conf_file<S: Shelf>(alloc: Global, file: &str, shelf: &mut S) -> Result<Blob, LiveEnd>
    ensures has { IfOk result (λ bytes. HasFile (S.seen shelf.old) file.now bytes) }
    ensures short { IfOk result (λ bytes. length bytes ≤ most_text_bytes) }
    ensures untouched { OnOk result (IsUntouched (used (S.seen shelf.old) (S.seen shelf.new))) }
    ensures refused { IfErr result (λ e. spec.IsUnread e file.now (used (S.seen shelf.old) (S.seen shelf.new))) }
{
    match shelf.read_file(alloc, file, MOST_TEXT_BYTES as usize) {
        Ok(bytes) => Ok(bytes),
        Err(ShelfError::Absent) => Err(LiveEnd::Absent),
        Err(ShelfError::TooLong) => Err(LiveEnd::TooLong),
        Err(ShelfError::Failed) => Err(LiveEnd::ReadFault),
        Err(ShelfError::NoMemory) => Err(LiveEnd::NoMemory),
    }
}

/// A core that took one load.
fn step_load<L: Ledger>(
    means: Means,
    moment: i64,
    text: Blob,
    steps: &mut Steps<L>,
) -> Result<Core, LiveEnd>
    requires moment { IsReading moment }
    requires short { length text ≤ most_text_bytes }
    ensures core { IfOk result (λ c. c ≡ Load moment text ∷ []) }
    ensures taken { OnOk result (spec.IsTaken text) }
    ensures refused { IfErr result (λ e. spec.IsUnloaded e text) }
{
    let mut core = match Core::seeded(means.alloc, means.seed) {
        Ok(core) => core,
        Err(NoMemory) => return Err(LiveEnd::NoMemory),
    };
    let Ok(answer) = core.take(means.alloc, Event::Load { moment, text }, steps) else {
        core.let_go();
        return Err(LiveEnd::NoMemory);
    };
    match fault_of(answer) {
        Some(fault) => {
            core.let_go();
            Err(LiveEnd::Config(fault))
        }
        None => Ok(core),
    }
}

/// The same, with a count of steps that nobody reads.
fn load_from<L: Ledger>(
    means: Means,
    moment: i64,
    text: Blob,
    blank: Blank,
) -> Result<Core, LiveEnd>
    requires blank { (blank.name ≡ L.name) × (blank.parts ≡ L.parts) × (0 < blank.parts) }
    requires moment { IsReading moment }
    requires short { length text ≤ most_text_bytes }
    ensures core { IfOk result (λ c. c ≡ Load moment text ∷ []) }
    ensures taken { OnOk result (spec.IsTaken text) }
    ensures refused { IfErr result (λ e. spec.IsUnloaded e text) }
{
    let mut steps: Steps<L> = Steps::open(blank);
    step_load(means, moment, text, &mut steps)
}

/// A core that took the first load of a run: the configuration in a file, at a moment.
pub fn first_load<S: Shelf>(
    means: Means,
    moment: i64,
    file: &str,
    shelf: &mut S,
) -> Result<Core, LiveEnd>
    requires moment { IsReading moment }
    ensures core { IfOk result (λ c. spec.IsFirst moment file.now (S.seen shelf.old) c) }
    ensures fresh { IfOk result IsFresh }
    ensures one { IfOk result (λ c. length c ≡ 1) }
    ensures untouched { OnOk result (IsUntouched (used (S.seen shelf.old) (S.seen shelf.new))) }
    ensures refused { IfErr result (λ e. spec.IsUnstarted e file.now (used (S.seen shelf.old) (S.seen shelf.new))) }
{
    let text = match read_conf_file(means.alloc, file, shelf) {
        Ok(text) => text,
        Err(end) => return Err(end),
    };
    load_from::<Brand>(means, moment, text, Blank::new(1))
}
