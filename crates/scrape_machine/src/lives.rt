//! A life of a target, its scrapes that were started, and what an event is to it.
ghost use Rattle.std.specs.Prelude.{◌≡◌, IfOk};
ghost use Rattle.scrape_config.specs.declared.conf.Job.{Job};

use jobs_in_force::jobs::Settings;
use label_set::LabelSet;
use life_roll::{Moment, Schedule};
use outside::Reply;
use scrape_loop::LifeState;

/// A life: a stretch of time in which a target of a job is scraped, as what its past comes to.
#[derive(Drop)]
pub struct Life {
    /// Its number, its target's labels, and what its scrapes leave for the next.
    pub state: LifeState,
    /// The identity of its target.
    pub identity: LabelSet,
    /// The settings of its job; of a closed life those before its closing event.
    pub settings: Settings,
    pub schedule: Schedule,
    /// Whether its ending was taken.
    pub ended: bool,
}

/// A started scrape, by its ticket: the number of its life, the settings of the job at its start, and whether it had its finish.
#[derive(Drop)]
pub struct StartedScrape {
    pub life: u64,
    pub settings: Settings,
    pub finished: bool,
}

/// What an event is to a life.
#[derive(Drop)]
pub enum Local {
    /// It changes nothing.
    Nothing,
    /// A scan at this moment; the ticket is the next one, and the job is over its limit of targets or isn't.
    Scan {
        moment: Moment,
        ticket: u64,
        over: bool,
    },
    /// The finish of its scrape in flight.
    Answered {
        took: i64,
        reply: Reply,
    },
    /// The settings of its job change.
    Change {
        moment: Moment,
        settings: Settings,
    },
    /// It is closed.
    Close {
        moment: Moment,
    },
}

/// What a finish of a ticket finds.
#[derive(Clone, Copy, Debug)]
pub enum TicketState {
    /// No scrape with the ticket has started, or it had its finish.
    NotStarted,
    /// The scrape was cancelled.
    Cancelled,
    /// The scrape is in flight, of the life with this number, and started at this moment.
    Counts { life: u64, moment: Moment },
}

/// How the settings of a job compare with those that the job of the same name had before.
#[derive(Drop)]
pub enum Difference {
    /// There was no such job, or the settings aren't compatible.
    Incompatible,
    /// They are the same.
    Same,
    /// They are compatible, and these are they now.
    Changed(Settings),
}
