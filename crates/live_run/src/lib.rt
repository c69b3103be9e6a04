//! The command `run`: a first load from a file, a live run over its targets, and what is written of it at its end: the text of its journal to
//! a trail, and the text of its book to an output.
//! `specs/Runs.antt` says how such a call ends and what it leaves of each outside object.
//! Tests: `live.rt` of the tests of `scrape_cli`.
#![tactic(auto)]

pub mod asked;
pub mod first_load;
pub mod live;
pub mod written;

pub use asked::{Asked, LiveEnd, Lived};
pub use live::run_live;
