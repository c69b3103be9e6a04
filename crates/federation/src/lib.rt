//! Federation: what several selectors see of a book at a moment, each series once, and its text, which another
//! server can read.
//! Contracts see a view, a selector and rows as `instant_view` has them; `specs/Federations.antt` says which rows are
//! seen, `specs/Texts.antt` how they are written, and `specs/Readings.antt` that this text reads as just these rows.
//! Tests: `scrape_cli`'s `answers`, over connections to a status server.
#![tactic(auto)]

pub mod federations;
mod merges;
pub mod texts;

pub use federations::federated;
pub use texts::{push_rows, reads_back};
