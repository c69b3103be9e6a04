//! The commands of the program that make no run: `replay` of a recorded journal, `check` of a configuration, `convert` of a body, `at`, which tells what
//! a selector sees at a moment, and `synth`, which makes a large journal from a number, replays that, and prints the summary of its book. They work over
//! whatever has files and takes bytes.
//! How such a call ends is one table, `specs/Ends.antt`; `specs/Laws.antt` has what follows from it, `specs/Checks.antt` what is said of a configuration,
//! and `specs/Instants.antt` what `at` prints and what is said of a selector.
//! Tests: `tests.rt` of `scrape_cli`; cases: all of `scrape_cases`.
#![tactic(auto)]

mod checks;
mod commands;
mod instants;
mod messages;
pub mod refusals;
pub mod replays;
pub mod still;

pub use refusals::{Refusal, SelectorFault};
