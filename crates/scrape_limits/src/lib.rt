//! The limits of a scrape job, whether a label set or a count of samples is past one of them, and how many bytes a body may have.
//! A limit of 0 is none. Nothing is read, kept or changed, and no memory is taken.
//! Contracts see `Limits` as the record of its numbers and a label set as the list of its labels; the definitions stand in `specs/`.
//! Cases: `scrape_cases::limits`.
#![tactic(auto)]

pub mod limits;

pub use limits::{LimitFault, Limits, body_limit, exceeds, judge, too_many};
