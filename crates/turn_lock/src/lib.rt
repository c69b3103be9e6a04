//! A ticket lock over a value that stands for a journal: a list of entries, each with the number of the pass that
//! brought it (`Kept`).
//!
//! ```text
//! let (lock, passes) = TurnLock::new(alloc, value, 2)?;   // the passes 0 and 1
//! let mut value = lock.take(rt, &mut pass);               // waits for the turn of this pass
//! lock.give(&mut pass, value);                            // with further entries of its number, or none
//! let value = lock.close(passes);                         // all passes, in the order of their numbers
//! ```
//!
//! A thread that holds a pass takes the value out in its turn, and gives it back. Turns come in the order in which they
//! were asked for. The journal exists in contracts alone, and so does what a pass knows of it:
//!
//! - `take`: the journal begins with all that the pass had seen, and has of the pass's number just the pass's own
//!   entries, each once, in order;
//! - `give`: the pass has then seen the whole journal, and its own entries are those before and the further ones;
//! - `close`: the journal begins with what each pass had seen, has of each number just the entries of its pass, and
//!   none of any other number;
//! - `new` hands the value back where there is no memory. No other call takes any.
//!
//! Nothing is said of when a turn comes. `rest` sleeps until a pass calls `wake`, unless an entry came since its last
//! turn, and may return for no reason: whoever brings what another one rests for wakes it.
//! `Log` is the plainest value for such a lock, a list of items. Tests: `tests_running::turns`.
#![tactic(auto)]

mod close;
mod give;
pub mod lock;
pub mod log;
pub mod open;
pub(crate) mod steps;
pub(crate) mod turns;
pub mod views;

pub use lock::{Pass, PassList, TurnLock};
pub use log::{Entry, Log};
pub use open::Unmade;
pub use views::Kept;
