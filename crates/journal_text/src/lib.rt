//! The events of a run, the journal that keeps them in order, and the text of a journal, one a version, which is read and written here.
//! A journal is seen by contracts as the list of its events and a number of events for which it has room; bytes and names are lists of numbers.
//! The definitions stand in `specs/`: lines, events and their spelling, and how a text is read.
//! Tests: `tests_reading::journals`; cases: `scrape_cases::{broken, scripts}`.
#![tactic(auto)]

pub mod events;
pub mod faults;
pub mod journal;
pub mod lines;
mod numbers;
mod reading;
pub mod versions;
mod writing;

pub use events::Event;
pub use faults::{ScriptCause, ScriptError, ScriptFault};
pub use journal::Journal;
pub use reading::{Front, read_front, read_journal};
pub use versions::Version;
pub use writing::{texts_tell_apart, write_journal, write_version};
