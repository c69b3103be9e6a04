//! Finished fetches.
ghost use Rattle.std.specs.Prelude.{◌≡◌, ◌≤◌, ◌<◌, ◌+◌, ◌^◌, ◌++◌, [], length, IfOk, OnOk, OnErr};
ghost use Rattle.journal_text.specs.Lines.{IsMoment};
ghost use Rattle.scrape_machine.specs.declared.lives.TicketState.TheVariants.{Counts};
ghost use Rattle.scrape_machine.specs.Machine as spec;
ghost use Rattle.scrape_machine.specs.Runs.{runs};
ghost use Rattle.scrape_core.specs.Kept as kept;

use crate::state::State;
use crate::taken::{Taken, without_runs};
use appender_book::Book;
use journal_text::Event;
use label_set::{NoMemory, Steps};
use life_roll::Moment;
use scrape_loop::{LifeState, ReadReply, Timing};
use scrape_machine::Answer;
use scrape_machine::lives::TicketState;
use scrape_steps::finishes::{count, finish, found};
use std::alloc::Global;
use std::sync::ledger::Ledger;

/// The life of which a finish counts a scrape: by what it knows, the reply is read faster.
pub fn life_of<'s>(state: &'s State, event: &Event) -> Option<&'s LifeState> {
    let Event::Finish { ticket, .. } = event else {
        return None;
    };
    match found(&state.lives, &state.started, *ticket) {
        TicketState::Counts { life, moment: _ } => Some(&state.lives[life as usize].state),
        TicketState::NotStarted | TicketState::Cancelled => None,
    }
}

/// A finished fetch: the ticket of its scrape, how many milliseconds it took, and its reply, whose body may be read already.
#[derive(Clone, Copy)]
pub struct FinishedFetch<'r> {
    pub ticket: u64,
    pub took: i64,
    pub reply: &'r ReadReply,
}

/// The life that a scrape in flight is of, and the moment at which it started.
#[derive(Clone, Copy)]
struct Flight {
    life: u64,
    moment: Moment,
}

/// A finish that counts, of the scrape in flight.
fn finish_counted<L: Ledger>(
    alloc: Global,
    state: &mut State,
    book: &mut Book,
    fetch: &FinishedFetch<'_>,
    flight: Flight,
    steps: &mut Steps<L>,
) -> Result<Taken, NoMemory>
    requires took { IsMoment fetch.now.took }
    requires few { kept.HasFew state.old }
    requires listed { kept.IsListed state.old }
    requires right { kept.AreRightLives state.old }
    requires found { spec.found (kept.live state.old) fetch.now.ticket ≡ Counts flight.life flight.moment }
    requires within { flight.life < length state.old.lives.items }
    ensures answer { IfOk result (λ t. t.answer ≡ spec.answer (kept.live state.old) (kept.finish_event fetch.now)) }
    ensures runs { IfOk result (λ t. t.runs ≡ runs (kept.live state.old) (kept.finish_event fetch.now)) }
    ensures steps { OnOk result (steps.new ≡ steps.old + runs (kept.live state.old) (kept.finish_event fetch.now)) }
    ensures at_least { steps.old ≤ steps.new }
    ensures at_most { steps.new ≤ steps.old + runs (kept.live state.old) (kept.finish_event fetch.now) }
    ensures state { OnOk result (kept.live state.new ≡ spec.step (kept.live state.old) (kept.finish_event fetch.now)) }
    ensures book { OnOk result (kept.Appends (kept.live state.old) (kept.finish_event fetch.now) book.old.entries book.new.entries) }
    ensures few { kept.HasFew state.new }
    ensures listed { kept.IsListed state.new }
    ensures same { state.new.halted ≡ state.old.halted }
    ensures err { OnErr result (kept.live state.new ≡ kept.live state.old) }
    ensures err_book { OnErr result (book.new.entries ≡ book.old.entries) }
{
    let timing = Timing {
        moment: flight.moment.ms(),
        took: fetch.took,
    };
    let one = &mut state.lives[flight.life as usize];
    let counted = count(alloc, one, timing, fetch.reply, book, steps)?;
    finish(&mut state.started, fetch.ticket);
    let answer = Answer::Counted(counted.fault);
    let runs = counted.runs as u64;
    Ok(Taken { answer, runs })
}

/// A finished fetch: it counts where its scrape is in flight.
pub fn take_finish<L: Ledger>(
    alloc: Global,
    state: &mut State,
    book: &mut Book,
    fetch: &FinishedFetch<'_>,
    steps: &mut Steps<L>,
) -> Result<Taken, NoMemory>
    requires took { IsMoment fetch.now.took }
    requires few { kept.HasFew state.old }
    requires listed { kept.IsListed state.old }
    requires right { kept.AreRightLives state.old }
    ensures answer { IfOk result (λ t. t.answer ≡ spec.answer (kept.live state.old) (kept.finish_event fetch.now)) }
    ensures runs { IfOk result (λ t. t.runs ≡ runs (kept.live state.old) (kept.finish_event fetch.now)) }
    ensures steps { OnOk result (steps.new ≡ steps.old + runs (kept.live state.old) (kept.finish_event fetch.now)) }
    ensures at_least { steps.old ≤ steps.new }
    ensures at_most { steps.new ≤ steps.old + runs (kept.live state.old) (kept.finish_event fetch.now) }
    ensures state { OnOk result (kept.live state.new ≡ spec.step (kept.live state.old) (kept.finish_event fetch.now)) }
    ensures book { OnOk result (kept.Appends (kept.live state.old) (kept.finish_event fetch.now) book.old.entries book.new.entries) }
    ensures few { kept.HasFew state.new }
    ensures listed { kept.IsListed state.new }
    ensures same { state.new.halted ≡ state.old.halted }
    ensures err { OnErr result (kept.live state.new ≡ kept.live state.old) }
    ensures err_book { OnErr result (book.new.entries ≡ book.old.entries) }
{
    match found(&state.lives, &state.started, fetch.ticket) {
        TicketState::NotStarted => {
            finish(&mut state.started, fetch.ticket);
            Ok(without_runs(Answer::NoTicket))
        }
        TicketState::Cancelled => {
            finish(&mut state.started, fetch.ticket);
            Ok(without_runs(Answer::Late))
        }
        TicketState::Counts { life, moment } => {
            let flight = Flight { life, moment };
            finish_counted(alloc, state, book, fetch, flight, steps)
        }
    }
}
