//! The decision core of a scrape manager: it takes events one by one (a load of a configuration, an update of a file's targets, a tick, a sweep, a finished
//! fetch, a halt) and appends samples, stale markers and report samples to a book.
//! It knows no file, clock, socket or thread: moments and bytes are handed in with the events.
//! Contracts see a core as its journal, the list of the events that it took; `specs/Machine.antt` of the crate `scrape_machine` says what the answers and
//! the book of a journal are.
//! Cases: `scrape_cases::{scripts, reloads, updates, endings}`.
#![tactic(auto)]

mod changes;
mod events;
mod finishes;
pub mod machine;
mod means;
pub mod open_lives;
pub mod read_events;
mod readers;
mod replays;
pub mod state;
mod taken;
mod turns;

pub use machine::Core;
pub use means::Means;
pub use open_lives::OpenLife;
pub use read_events::ReadEvent;
pub use replays::replay;
pub use scrape_machine::Answer;
