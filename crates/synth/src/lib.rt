//! Large journals from a number: the workload by which the speed of the scrape manager is judged.
//! `specs/Scripts.antt` says which journal a seed, a number of targets and a number of scrapes make.
//! Cases: `scrape_cases::synths`.
#![tactic(auto)]

pub mod pages;
pub mod scripts;

pub use scripts::{MOST_SCRAPES, MOST_SCRAPES_OF_ALL, MOST_TARGETS, Plan, make_script};
