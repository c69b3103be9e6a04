//! Turns a body of OpenMetrics 1.0 into one of the text exposition format with the same rows, but for the numbers of their lines.
//! Exemplars are read and dropped, metadata isn't judged, and a quoted name is faulty; timestamps become milliseconds, cut toward zero.
//! Which bodies there are, and which line of any other body is its first faulty one, is a grammar over whole lines, in `specs/`.
//! What is the same in the text exposition format is that of `expo_reader`.
//! Tests: `tests_reading::openmetrics`.
#![tactic(auto)]

pub mod bodies;
mod labels;
mod lines;
mod parts;
mod repeats;
mod stamps;
mod texts;

pub use bodies::{OmError, convert, has_one_reading, keeps_rows, reads_the_format};
