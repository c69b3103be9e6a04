//! Fetches the pages of targets over HTTP/1.1 (RFC 9112), by any link and any clock.
//! What a reply is stands in `specs/Replies.antt`, over the grammars of `httparse`; the text of a request stands in `specs/Requests.antt`.
//! The decoder takes the bytes in any pieces, and decodes each byte of a body once. It holds at most the body's limit and what waits for its end.
//! A body whose head says that it is of OpenMetrics is converted at its end (`om_reader`), and is the text that comes of it.
//! One whose head says that names stand in quotes stays as it came, and its reply says so (`Reply::Quoted`).
//! Tests: `tests_running::{replies, hostile, fetches}`.
#![tactic(auto)]

pub mod decoder;
pub mod exchange;
mod fields;
mod frames;
mod heads;
pub mod http_fetch;
pub mod laws;
mod pieces;
pub mod receive;
pub mod requests;
pub mod stages;

pub use decoder::{Decoder, Fed, decode};
pub use http_fetch::HttpFetch;
