//! What the seats of a run did, one after another. The marks stand beside the journal, and both together stand for the entries of the lock.
use journal_text::Event;

/// What a seat did. An event is the next one of the journal.
#[derive(Clone, Copy, Drop, PartialEq, Eq, Debug)]
pub enum Mark {
    /// The event was there before the run.
    Before,
    /// The seat took a ticket.
    Took { seat: u32, ticket: u64 },
    /// The seat brought the event.
    Brought { seat: u32 },
    /// The seat saw the end of all work.
    Ended { seat: u32 },
    /// Memory ran out for the seat.
    Failed { seat: u32 },
}

/// What an entry says. No value of it is made.
#[derive(Drop)]
pub enum Note {
    /// The event was there before the run.
    Before { event: Event },
    /// The seat took the ticket.
    Took { ticket: u64 },
    /// The seat brought the event, behind this last moment.
    Brought { last: u64, event: Event },
    /// The seat saw the end of all work.
    Ended,
    /// Memory ran out for the seat.
    Failed,
}

/// An entry of the lock, with the number of the seat that made it. No value of it is made.
#[derive(Drop)]
pub struct Entry {
    pub seat: u64,
    pub note: Note,
}
