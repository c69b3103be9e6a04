//! The words of the command line: the first is the command, and what `clap` takes behind it is its grammar.
//! `specs/Words.antt` says what words ask for, `specs/Arguments.antt` which arguments each command has.
//! Cases: `scrape_cases::{words, flags, synths}`.
#![tactic(auto)]

pub mod arguments;
pub mod viewing;
pub mod words;

pub use arguments::{WordsError, asked_in, order_in};
pub use viewing::Viewing;
pub use words::{Asked, Command, Live, OfFile, Order, Serving, Verb, Workload, limit_of};
