//! What lies under the one lock of a run, which is held for a step only: the core with the marks of who brought its events, the tickets that are
//! out, and what is still to come. The lock gives turns (`turn_lock`): the journal with its marks stands for the entries of the lock, and the pass
//! of a seat knows which of these are its own, so the journal is known to be whole once the loops are over.
//! Contracts see the journal as its list of events.
//! Tests: `live.rt` of the tests of `scrape_cli`.
#![tactic(auto)]

pub mod asked;
pub mod listed;
pub mod marks;
pub mod readings;
pub mod seat;
pub mod state;
pub mod tasks;

pub use asked::Asked;
pub use listed::Listed;
pub use marks::Mark;
pub use seat::{RunLock, RunPass, Seat};
pub use state::RunState;
pub use tasks::WorkerTask;
