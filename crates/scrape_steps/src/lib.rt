//! The steps of the machine of a scrape manager, in code: what becomes of the lives of targets with a reload, a tick, a sweep and a finished fetch, and
//! which entries they give. Each call is proved to be a part of what the definitions of `scrape_machine` say; none knows a file, clock, socket or thread.
//! `specs/Plans.antt` says what is worked out of a new configuration before anything changes, `Reloads.antt` and `Scans.antt` what steps make of all lives,
//! `Concerned.antt` which lives an event concerns, since whatever goes over lives goes over these alone, and `Endings.antt` which endings wait.
//! Cases: `scrape_cases::{reloads, updates, endings}`.
#![tactic(auto)]

pub mod acts;
pub mod closings;
pub mod concerned;
pub mod endings;
pub mod finishes;
pub mod reloads;
pub mod scans;
