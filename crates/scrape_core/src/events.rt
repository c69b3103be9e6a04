//! What each event does to what a core keeps.
ghost use Rattle.std.specs.Prelude.{◌≡◌, ◌≤◌, ◌<◌, ◌+◌, ◌^◌, ◌++◌, [], false, length, IfOk, OnOk, OnErr};
ghost use Rattle.journal_text.specs.Events.{IsInLimits};
ghost use Rattle.scrape_machine.specs.Machine as spec;
ghost use Rattle.scrape_machine.specs.Runs.{runs};
ghost use Rattle.scrape_core.specs.Kept as kept;
ghost use Rattle.scrape_core.specs.Records.{is_finish};

use crate::changes::{TargetsFile, take_load, take_update};
use crate::finishes::{FinishedFetch, take_finish};
use crate::read_events::{EventParts, ReadEvent};
use crate::state::State;
use crate::taken::{Taken, without_runs};
use crate::turns::{take_sweep, take_tick};
use appender_book::Book;
use journal_text::Event;
use label_set::{NoMemory, Steps};
use life_roll::Moment;
use scrape_machine::Answer;
use std::alloc::Global;
use std::sync::ledger::Ledger;

/// An event before any halt that is no finish.
fn take_other<L: Ledger>(
    alloc: Global,
    state: &mut State,
    book: &mut Book,
    event: &Event,
    steps: &mut Steps<L>,
) -> Result<Taken, NoMemory>
    requires limits { IsInLimits event.now }
    requires other { is_finish event.now ≡ false }
    requires few { kept.HasFew state.old }
    requires listed { kept.IsListed state.old }
    requires right { kept.AreRightLives state.old }
    requires live { state.old.halted ≡ false }
    ensures answer { IfOk result (λ t. t.answer ≡ spec.answer (kept.live state.old) event.now) }
    ensures runs { IfOk result (λ t. t.runs ≡ runs (kept.live state.old) event.now) }
    ensures steps { OnOk result (steps.new ≡ steps.old + runs (kept.live state.old) event.now) }
    ensures at_least { steps.old ≤ steps.new }
    ensures at_most { steps.new ≤ steps.old + runs (kept.live state.old) event.now }
    ensures state { OnOk result (kept.seen state.new ≡ spec.step (kept.live state.old) event.now) }
    ensures book { OnOk result (kept.Appends (kept.live state.old) event.now book.old.entries book.new.entries) }
    ensures few { OnOk result (kept.HasFew state.new) }
    ensures listed { kept.IsListed state.new }
    ensures err { OnErr result (kept.seen state.new ≡ kept.live state.old) }
    ensures err_book { OnErr result (book.new.entries ≡ book.old.entries) }
{
    match event {
        Event::Load { moment, text } => {
            take_load(alloc, state, Moment::new(*moment), text, steps)
        }
        Event::Targets {
            moment,
            job,
            file,
            text,
        } => {
            let update = TargetsFile { job, file, text };
            take_update(alloc, state, Moment::new(*moment), &update, steps)
        }
        Event::Tick { moment, life } => {
            let answer = take_tick(alloc, state, book, Moment::new(*moment), *life)?;
            Ok(without_runs(answer))
        }
        Event::Sweep { moment } => {
            let answer = take_sweep(alloc, state, book, Moment::new(*moment))?;
            Ok(without_runs(answer))
        }
        Event::Finish { .. } => unreachable!(),
        Event::Halt { moment: _ } => {
            state.halted = true;
            Ok(without_runs(Answer::Halted))
        }
    }
}

/// An event before any halt.
fn take_live<L: Ledger>(
    alloc: Global,
    state: &mut State,
    book: &mut Book,
    event: &ReadEvent,
    steps: &mut Steps<L>,
) -> Result<Taken, NoMemory>
    requires limits { IsInLimits event.now }
    requires few { kept.HasFew state.old }
    requires listed { kept.IsListed state.old }
    requires right { kept.AreRightLives state.old }
    requires live { state.old.halted ≡ false }
    ensures answer { IfOk result (λ t. t.answer ≡ spec.answer (kept.live state.old) event.now) }
    ensures runs { IfOk result (λ t. t.runs ≡ runs (kept.live state.old) event.now) }
    ensures steps { OnOk result (steps.new ≡ steps.old + runs (kept.live state.old) event.now) }
    ensures at_least { steps.old ≤ steps.new }
    ensures at_most { steps.new ≤ steps.old + runs (kept.live state.old) event.now }
    ensures state { OnOk result (kept.seen state.new ≡ spec.step (kept.live state.old) event.now) }
    ensures book { OnOk result (kept.Appends (kept.live state.old) event.now book.old.entries book.new.entries) }
    ensures few { OnOk result (kept.HasFew state.new) }
    ensures listed { kept.IsListed state.new }
    ensures err { OnErr result (kept.seen state.new ≡ kept.live state.old) }
    ensures err_book { OnErr result (book.new.entries ≡ book.old.entries) }
{
    match event.parts() {
        EventParts::Finish {
            ticket,
            took,
            reply,
        } => {
            let fetch = FinishedFetch {
                ticket: *ticket,
                took: *took,
                reply,
            };
            take_finish(alloc, state, book, &fetch, steps)
        }
        EventParts::Other(event) => take_other(alloc, state, book, event, steps),
    }
}

/// An event: the answer with the number of runs, the state and the book become those after it, or all stay as before.
pub fn take<L: Ledger>(
    alloc: Global,
    state: &mut State,
    book: &mut Book,
    event: &ReadEvent,
    steps: &mut Steps<L>,
) -> Result<Taken, NoMemory>
    requires limits { IsInLimits event.now }
    requires few { kept.HasFew state.old }
    requires listed { kept.IsListed state.old }
    requires right { kept.AreRightLives state.old }
    ensures answer { IfOk result (λ t. t.answer ≡ spec.answer (kept.seen state.old) event.now) }
    ensures runs { IfOk result (λ t. t.runs ≡ runs (kept.seen state.old) event.now) }
    ensures steps { OnOk result (steps.new ≡ steps.old + runs (kept.seen state.old) event.now) }
    ensures at_least { steps.old ≤ steps.new }
    ensures at_most { steps.new ≤ steps.old + runs (kept.seen state.old) event.now }
    ensures state { OnOk result (kept.seen state.new ≡ spec.step (kept.seen state.old) event.now) }
    ensures book { OnOk result (kept.Appends (kept.seen state.old) event.now book.old.entries book.new.entries) }
    ensures few { OnOk result (kept.HasFew state.new) }
    ensures listed { kept.IsListed state.new }
    ensures err { OnErr result (kept.seen state.new ≡ kept.seen state.old) }
    ensures err_book { OnErr result (book.new.entries ≡ book.old.entries) }
{
    if state.halted {
        return Ok(without_runs(Answer::Halted));
    }
    take_live(alloc, state, book, event, steps)
}
