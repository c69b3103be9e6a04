//! The book: entries that are only ever appended, each with the verdict of a store, which keeps the samples of a series whose moments rise.
//! The verdict of an entry is worked out when it is appended, by the last kept entry of its series, and kept beside it.
//! The series have numbers from 0, in the order in which they first came, and a book tells the number of each entry's series.
//! Contracts see a book as the list of its entries, the spare room and the hasher of its seed; `specs/Verdicts.antt` says what the verdicts are,
//! `specs/Series.antt` what the series are, and `specs/Index.antt` how the last kept entry of a series is found.
//! Tests: `tests_deciding::books`; cases: `scrape_cases::verdicts`.
#![tactic(auto)]

pub mod book;
mod index;
pub mod verdicts;

pub use book::Book;
pub use verdicts::{Verdict, laws_of_verdicts};
