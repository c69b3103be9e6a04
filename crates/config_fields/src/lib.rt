//! What each field of a configuration may hold ("Configuration" of the Prometheus documentation), and the faults of one object of it.
//! `tables` has the fields of each object, `forms` what a value may be, and `walks` goes through an object that holds no further ones;
//! `place` says where a fault stands, and `fault` which of several is reported.
//! Contracts see JSON as its data, and a fault as itself with its place as a list of bytes. A walk is defined in `specs/` as the list of
//! all faults in its order; its code keeps the first of the least number.
//! Cases: `scrape_cases::{fields, checked}`.
#![tactic(auto)]

pub mod fault;
pub mod forms;
pub mod place;
pub mod tables;
pub mod walks;

pub use fault::ConfFault;
