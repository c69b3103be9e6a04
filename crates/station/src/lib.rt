//! The heart of a run: workers that scrape, a ticker that sweeps, and the caller that reads control lines, over one journal under one lock.
//! The lock gives turns (`run_lock`), each for a step only and never for a fetch. The pass of a seat knows which entries are its own, so the journal
//! is known to be whole, and of each event who brought it, once the loops are over.
//! Contracts see the journal as its list of events, and of each outside object what is known of it.
//! Tests: `live.rt` of the tests of `scrape_cli`.
#![tactic(auto)]

pub mod control;
pub mod crew;
pub mod ends;
pub mod orders;
pub mod reader;
pub mod run;
pub mod sides;
pub mod ticker;
pub mod workers;

pub use ends::{Ran, RunEnd, SeatList};
pub use run::run_station;
