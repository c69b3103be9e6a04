//! The adapters over what the operating system lets one wait for: a TCP connection whose calls are over when their time is, and an input.
//! A call that a signal broke off is made again, so that a program which is stopped and goes on loses nothing.
//! Nothing is known of their content, and count what they refuse. That a call ends in time no contract says; tests over loopback do.
//! Tests: `tests_ground::{inputs, links}`, and with replies `checks/live`.
#![tactic(auto)]

pub mod inputs;
pub mod sockets;

pub use inputs::StdSource;
pub use sockets::TcpLink;
