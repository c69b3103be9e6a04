//! That each series of a book has a metric name, and none a label without a name: laws over all journals.
//! `specs/Named.antt` says when a series has these.
#![tactic(auto)]

pub mod laws;

pub use laws::{labels_have_names, series_have_names};
