//! The texts of sample values and the numbers of the text exposition format: which bytes are a value or a timestamp,
//! how a duration is written, and which durations a configuration writes.
//! A value is kept as the bytes that were read, at most 128 of them, since its magnitude is never judged and equal bytes are what makes two values equal.
//! Contracts see a `ValueText` as the list of its bytes; the grammars stand in `specs/`.
//! Cases: `scrape_cases::{bodies, fields, scripts}`.
#![tactic(auto)]

pub mod durations;
mod grammar;
pub mod numbers;
pub mod texts;

pub use durations::{BadDuration, read_duration};
pub use grammar::{digit_count, is_number, without_sign};
pub use numbers::{BadNumber, number_of, read_millis, to_number, write_seconds3};
pub use texts::{BadValue, ValueError, ValueText, reads_the_values};
