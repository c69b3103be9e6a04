//! The program's cases as texts, by subject: each block is one call of `scrape`, with its files and with what it must print, say and answer.
//! The tests of `scrape_cli` run them over objects in memory, and `checks/cases` on the built program; `crates/scrape_cli/src/tests/cases.rt`
//! says how a case is written.
#![tactic(auto)]

pub mod bodies;
pub mod broken;
pub mod checked;
pub mod conflicts;
pub mod conversions;
pub mod cuts;
pub mod endings;
pub mod fields;
pub mod flags;
pub mod instants;
pub mod limits;
pub mod quoted;
pub mod relabelling;
pub mod reloads;
pub mod scripts;
pub mod selectors;
pub mod served;
pub mod synths;
pub mod targets;
pub mod texts;
pub mod tracked;
pub mod updates;
pub mod verdicts;
pub mod words;
