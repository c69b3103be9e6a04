//! The endings of lives. A life is a stretch of time in which a target of a job is scraped; once it is closed its series end with stale markers.
//! The markers stand at the moment at which the next scrape was planned, or at that of the closing where it is later. The ending is due an interval and
//! a tenth of it after that moment, since the target may come back before, and it is taken once.
//! A life of which no scrape counted leaves no series behind, so its ending appends nothing.
//! Contracts see a closed life as the record of its `Closing`, and `Endings` as their list with the spare room; `specs/Endings.antt` says what an ending is.
//! `Endings` is a plain list, in which an ending is looked for from the front: each call takes time in proportion to how many were added.
//! Tests: `tests_deciding::endings`; cases: `scrape_cases::endings`.
#![tactic(auto)]

mod ending;
pub mod endings;
pub mod markers;
pub mod moments;

pub use endings::Endings;
pub use markers::ending_entries;
pub use moments::{due_at, marker_at};
