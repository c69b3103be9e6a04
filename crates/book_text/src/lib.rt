//! The text of a book: a line for each entry, put to a sink page by page, with verdicts in front where they are wanted;
//! and a summary in its place.
//! The text of a series is written once, before anything is put, and then copied, as long as these texts take no more than 64 MiB.
//! `specs/Texts.antt` says how an entry is written, `specs/Kept.antt` which texts are kept, `specs/Summaries.antt` what the summary is.
//! Cases: `scrape_cases::{scripts, verdicts, synths}`.
#![tactic(auto)]

mod heads;
mod lines;
mod pieces;
pub mod printing;
mod rooms;
pub mod summaries;
mod texts;

pub use printing::{PrintError, Printer, print_book};
pub use summaries::summary_of;
