//! The command `serve`: the core of a script answers the requests of a connection, and the journal behind it goes to
//! a trail. And the program but for its live run. `specs/Serves.antt` says what serving comes to, and
//! `specs/Ends.antt` how such a call of the program ends. Tests: `answers.rt` of the tests of `scrape_cli`, and
//! `checks/served` on the built program; cases: `scrape_cases::served`.
#![tactic(auto)]

pub mod ends;
pub mod serve;
pub mod still;

pub use ends::{ScriptEnd, ServerEnd};
pub use still::tool_still;
