//! One reply to a scrape: the samples that are left of its rows, or the fault for which the scrape isn't good.
//! The labels of a sample line are joined with those of its target and run through the job's rules for samples; what is left is held against the job's limits.
//! Contracts see label sets as lists of pairs, rules as the list of their settings and an outcome as the enum `Scrape`;
//! `specs/Rows.antt` says what becomes of a row, and `specs/Outcomes.antt` what becomes of a reply.
//! Tests: `tests_deciding::replies`; cases: `scrape_cases::{limits, scripts}`.
#![tactic(auto)]

pub mod fault;
pub mod left;
pub mod outcome;
pub mod scrape;

pub use fault::ScrapeFault;
pub use left::{Sifted, is_tracked, own_stamp, row_fault, row_set};
pub use outcome::{body_of, early_fault, early_read_fault, failed, form_of, judged, rows};
pub use scrape::{RowRules, Sample, SampleList, Scrape};
