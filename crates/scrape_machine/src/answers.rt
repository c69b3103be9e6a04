//! What an event is answered.
use config_fields::ConfFault;
use sample_rows::ScrapeFault;

/// What an event is answered.
#[derive(Debug, Drop)]
pub enum Answer {
    /// A load was taken: so many lives closed, and so many began.
    Loaded {
        closed: u32,
        begun: u32,
    },
    /// A load or an update was refused for this fault; nothing but the journal changed.
    Refused(ConfFault),
    /// An update was taken: so many lives closed, and so many began.
    Updated {
        closed: u32,
        begun: u32,
    },
    /// An update of a job that isn't configured.
    NoJob,
    /// An update of a file that its job doesn't list.
    NoFile,
    /// A tick started the scrape with this ticket.
    Started {
        ticket: u64,
    },
    /// A tick forced a scrape: the job has more targets than its limit, so the scrape counted as failed at once.
    Forced,
    /// A tick before the planned scrape.
    NotDue,
    /// A tick of a life with a scrape in flight.
    Busy,
    /// A tick of a life that isn't open.
    NoLife,
    /// A finish counted; with its fault where the scrape isn't good.
    Counted(Option<ScrapeFault>),
    /// A finish of a scrape that was cancelled.
    Late,
    /// A finish of a ticket that isn't that of a started scrape, or that had its finish.
    NoTicket,
    /// A sweep: it started the scrapes with `started` tickets from `first` on, forced so many, and took so many endings.
    Swept {
        first: u64,
        started: u32,
        forced: u32,
        ended: u64,
    },
    /// A halt, or an event after one; nothing is taken any more.
    Halted,
}
