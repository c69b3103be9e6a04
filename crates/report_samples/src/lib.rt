//! The entries of a book, and the report samples that each scrape of a target adds to it: `up`, how long the fetch took, and three counts; and where its
//! job has extra reports the timeout, the limit of samples and the size of the body.
//! A report's series has the target's labels and the report's name as `__name__`.
//! A series that has ended gets a stale marker, the series of a report too; a `Closing` is what the ending of a life needs to know.
//! Contracts see an entry as the record of its life, kind, set, moment and value, and label sets and values as their lists; its type keeps
//! that the value is absent exactly for the two markers (`specs/Kinds.antt`).
//! `specs/Reports.antt` says what the reports are, and `specs/Markers.antt` what the markers are.
//! Tests: `tests_deciding::reports`; cases: `scrape_cases::scripts`.
#![tactic(auto)]

pub mod closing;
pub mod entries;
mod extra_sets;
pub mod markers;
mod report_entries;
pub mod report_sets;
pub mod scrape_reports;

pub use closing::Closing;
pub use entries::{Entry, EntryList, Kind};
pub use markers::stale_entry;
pub use report_sets::ReportSets;
pub use scrape_reports::{ExtraCounts, Report, ReportCounts, report_set, reports};
