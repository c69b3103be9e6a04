//! The machine of a scrape manager, event by event, as definitions: what loads of a configuration, updates of a file's targets, ticks, sweeps, finished
//! fetches and a halt make of the configuration in force, of the lives of its targets, and of the scrapes that were started; and which entries they give.
//! `specs/Machine.antt` is the whole machine, as one run forward over a plain state; `Lives.antt` says what one life is, `Runs.antt` how often relabelling
//! rules are run, and what is in force the crate `jobs_in_force`.
//! There is no code but the types that the definitions speak of: `scrape_steps` carries the steps out, and `scrape_laws` has what follows from them.
//! Cases: `scrape_cases::{reloads, updates, endings}`.
#![tactic(auto)]

pub mod answers;
pub mod lives;

pub use answers::Answer;
