//! The labels of a sample: those that its line exposes joined with those of the target that it was scraped from.
//! Where both have a label of one name, the line's label is kept (`honor_labels: true`) or renamed by `exported_` (`honor_labels: false`).
//! Contracts see a set and a list of labels as the list of its pairs; the rule is `merged` in `specs/Merging.antt`.
//! Tests: `tests_deciding::conflicts`; cases: `scrape_cases::conflicts`.
#![tactic(auto)]

mod free;
mod gather;
mod names;
mod sample;
mod target;

pub use free::always_free;
pub use sample::{merge, merge_borrowed};
pub use target::{BorrowedTarget, labels_in};
