//! Events.
use label_set::{Blob, Name};
use outside::Reply;

/// What may come to the machine. Moments and times are in milliseconds.
#[derive(Drop, Debug)]
pub enum Event {
    /// A configuration is loaded.
    Load {
        moment: i64,
        text: Blob,
    },
    /// A list of targets of a file of a job is there.
    Targets {
        moment: i64,
        job: Name,
        file: Name,
        text: Blob,
    },
    /// A life is to be scraped out of turn.
    Tick {
        moment: i64,
        life: u64,
    },
    /// Whatever is due is done.
    Sweep {
        moment: i64,
    },
    /// A scrape's request has ended.
    Finish {
        ticket: u64,
        took: i64,
        reply: Reply,
    },
    /// The end: nothing is scraped from here on.
    Halt {
        moment: i64,
    },
}
