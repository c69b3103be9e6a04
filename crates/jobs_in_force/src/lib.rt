//! The configuration in force: its jobs, the groups that their files gave, and their targets; and what a load and an update of a file's targets make of it.
//! `specs/Jobs.antt` says what is in force after either, and why it is refused; `specs/Listed.antt` how many targets
//! jobs list. Jobs, groups and targets are shared, so that an update lists the targets of one job anew.
//! Cases: `scrape_cases::{reloads, updates}`.
#![tactic(auto)]

pub mod jobs;
pub mod listed;
pub mod loads;
pub mod updates;
