//! What a finish does.
ghost use Rattle.std.specs.Prelude.{◌≡◌, ◌≤◌, ◌+◌, ◌++◌, length, slice_get, option_copied, IfOk, OnOk, OnErr};
ghost use Rattle.journal_text.specs.Lines.{IsMoment};
ghost use Rattle.scrape_machine.specs.Lives as lives_of;
ghost use Rattle.scrape_machine.specs.Machine as spec;
ghost use Rattle.scrape_steps.specs.Scans as scanned;
ghost use Rattle.scrape_machine.specs.Runs.{scrape_runs};
ghost use Rattle.scrape_loop.specs.Tracked.{fault_of};

use appender_book::Book;
use label_set::{NoMemory, Steps};
use life_roll::InFlight;
use sample_rows::RowRules;
use scrape_config::Job;
use scrape_loop::{Counted, ReadReply, Timing};
use scrape_machine::lives::{Life, StartedScrape, TicketState};
use std::alloc::Global;
use std::sync::ledger::Ledger;

fn found_flight(ticket: u64, number: u64, flight: Option<InFlight>) -> TicketState
    ensures { result ≡ spec.found_flight ticket number flight }
{
    match flight {
        None => TicketState::Cancelled,
        Some(flight) => {
            if flight.ticket == ticket {
                TicketState::Counts {
                    life: number,
                    moment: flight.moment,
                }
            } else {
                TicketState::Cancelled
            }
        }
    }
}

fn found_life(ticket: u64, number: u64, life: Option<&Life>) -> TicketState
    ensures { result ≡ spec.found_life ticket number (option_copied life.entry) }
{
    match life {
        None => TicketState::Cancelled,
        Some(life) => found_flight(ticket, number, life.schedule.flight),
    }
}

fn found_start(lives: &[Life], ticket: u64, start: Option<&StartedScrape>) -> TicketState
    ensures { result ≡ spec.found_start lives.now ticket (option_copied start.entry) }
{
    match start {
        None => TicketState::NotStarted,
        Some(start) => {
            if start.finished {
                TicketState::NotStarted
            } else {
                found_life(ticket, start.life, lives.get(start.life as usize))
            }
        }
    }
}

/// What a finish of a ticket finds.
pub fn found(lives: &[Life], started: &[StartedScrape], ticket: u64) -> TicketState
    ensures value { result ≡ spec.found_start lives.now ticket (slice_get started.now ticket) }
    ensures within { scanned.IsWithin (length lives.now) result }
{
    found_start(lives, ticket, started.get(ticket as usize))
}

/// The scrape with a ticket has had its finish.
pub fn finish(started: &mut [StartedScrape], ticket: u64)
    ensures { started.new ≡ spec.finished (slice_get started.old ticket) started.old ticket }
{
    let place = ticket as usize;
    if place < started.len() {
        started[place].finished = true;
    }
}

/// The settings that rows are judged by.
pub fn rules_of(job: &Job) -> RowRules
    ensures { result ≡ lives_of.rules_of job.now }
{
    RowRules {
        honor_labels: job.conf.honor_labels,
        honor_timestamps: job.conf.honor_timestamps,
        track_timestamps_staleness: job.conf.track_timestamps_staleness,
        extra_scrape_metrics: job.conf.extra_scrape_metrics,
        timeout: job.conf.scrape_timeout,
        limits: job.conf.limits,
    }
}

/// Counts a scrape of a life that started at a moment, and ended with a reply after so many milliseconds: its fault, if it isn't good, and how often the
/// rules for samples were run, each of which takes one step. The body of the reply is read already.
#[tactic(auto, unfolding(scrape_machine::specs::Lives::outcome_for))]
pub fn count<L: Ledger>(
    alloc: Global,
    life: &mut Life,
    timing: Timing,
    reply: &ReadReply,
    book: &mut Book,
    steps: &mut Steps<L>,
) -> Result<Counted, NoMemory>
    requires took { IsMoment timing.took }
    requires right { lives_of.IsRightLife life.old }
    ensures fault { IfOk result (λ c. c.fault ≡ fault_of (lives_of.outcome_for life.old timing.took reply.now)) }
    ensures runs { IfOk result (λ c. c.runs ≡ scrape_runs timing.took reply.now life.old) }
    ensures life { OnOk result (life.new ≡ lives_of.counted life.old timing.took reply.now) }
    ensures book { OnOk result (book.new.entries ≡ book.old.entries ++ lives_of.counted_entries life.old timing.took reply.now timing.moment) }
    ensures err_life { OnErr result (life.new ≡ life.old) }
    ensures err_book { OnErr result (book.new.entries ≡ book.old.entries) }
    ensures steps { OnOk result (steps.new ≡ steps.old + scrape_runs timing.took reply.now life.old) }
    ensures at_least { steps.old ≤ steps.new }
    ensures at_most { steps.new ≤ steps.old + scrape_runs timing.took reply.now life.old }
{
    let Timing { moment, took } = timing;
    let rules = rules_of(life.settings.job());
    let metric = &life.settings.job().metric_rules;
    let counted = life
        .state
        .count(alloc, &rules, metric, moment, reply, took, book, steps)?;
    life.schedule.land();
    Ok(counted)
}
