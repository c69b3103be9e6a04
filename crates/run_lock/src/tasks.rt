//! What a worker is to do, and the events of workers and ticker.
ghost use Rattle.std.specs.Prelude.{◌≡◌, List, Result, Some, IfSome};
ghost use Rattle.config_fields.specs.declared.fault.ConfFault.{ConfFault};
ghost use Rattle.jobs_in_force.specs.declared.jobs.Filed.{Filed};
ghost use Rattle.journal_text.specs.Events as journal;
ghost use Rattle.journal_text.specs.declared.events.Event.TheVariants.{Sweep};
ghost use Rattle.journal_text.specs.Lines.{number};
ghost use Rattle.run_lock.specs.Callers.{LoadAnswered, load_fault};
ghost use Rattle.run_lock.specs.Tasks.{IsCommand, IsFit, event_at, finish_with, sweep_moment};
ghost use Rattle.scrape_core.specs.Readers.{MayFetch, request};

use config_fields::ConfFault;
use journal_text::Event;
use label_set::{Blob, Name, NoMemory};
use life_roll::Moment;
use outside::{Fetched, Request};
use scrape_core::{Answer, Core};
use std::alloc::Global;

/// What a worker is to do.
#[derive(Drop)]
pub enum WorkerTask {
    /// To fetch the request of the scrape with a ticket.
    Fetch { ticket: u64, request: Request },
    /// Nothing is ready yet.
    Wait,
    /// To stop: every started scrape has its finish, and none will be started.
    End,
    /// To stop: memory ran out.
    Fail,
}

/// What the caller orders.
#[derive(Drop)]
pub enum ControlOrder {
    /// To load a configuration.
    Load { text: Blob },
    /// To update the targets of a file of a job.
    Update { job: Name, file: Name, text: Blob },
}

/// The request of the scrape with a ticket that is ready.
///
/// None comes where memory runs out, or where no scrape with the ticket awaits its finish.
pub fn request_for(alloc: Global, core: &Core, ticket: u64) -> Option<Request>
    ensures { IfSome result (λ r. (request core.now ticket ≡ Some r) × MayFetch r) }
{
    core.request(alloc, ticket).ok()?
}

/// The sweep at the reading of the clock, or at the last moment where that is later.
pub fn sweep_at(reading: Moment, last: Moment) -> Event
    ensures event { result ≡ Sweep (sweep_moment reading (number last)) }
    ensures limits { journal.IsInLimits result }
    ensures order { journal.MayFollow (number last) result }
{
    let moment = reading.ms().max(last.ms());
    Event::Sweep { moment }
}

/// The finish of a ticket with what came back for it.
pub fn finish_event(ticket: u64, fetched: Fetched) -> Event
    ensures { result ≡ finish_with ticket fetched }
{
    Event::Finish {
        ticket,
        took: fetched.took,
        reply: fetched.reply,
    }
}

/// The event of an order, at the last moment.
pub fn event_of(order: ControlOrder, last: Moment) -> Event
    requires fit { IsFit order }
    ensures event { result ≡ event_at (number last) order }
    ensures limits { journal.IsInLimits result }
    ensures order { journal.MayFollow (number last) result }
    ensures command { IsCommand result }
{
    let moment = last.ms();
    match order {
        ControlOrder::Load { text } => Event::Load { moment, text },
        ControlOrder::Update { job, file, text } => Event::Targets {
            moment,
            job,
            file,
            text,
        },
    }
}

/// The fault for which a load is refused, if it is.
pub fn fault_of(answer: Answer) -> Option<ConfFault>
    ensures { (said : Result (List Filed) ConfFault) → LoadAnswered said answer → result ≡ load_fault said }
{
    match answer {
        Answer::Refused(fault) => Some(fault),
        _ => None,
    }
}
