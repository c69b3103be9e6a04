//! The lines of the control input of a run: what each asks for, and what is said of one that doesn't succeed.
//! A line is `load FILE` or `targets JOB FILE`. Contracts see a line and a message as their bytes.
//! Tests: `tests_reading::control`.
#![tactic(auto)]

pub mod commands;
pub mod faults;
pub mod messages;

pub use commands::{Command, command_in, is_name};
pub use messages::{Refusal, message_of};
