//! What a scrape target's life remembers of the raw texts of its sample lines, from the metric's name through the closing brace: the label set of
//! each, or that a rule dropped it, so that a known text costs no relabelling; and which series were tracked, so that it is known
//! which vanish and which are added.
//! Contracts see a cache as the list of its texts with what is known of each, and how many are of the last good scrape; `specs/Caches.antt` says
//! what each call makes of it, `specs/Sets.antt` which sets are gone.
//! Cases: `scrape_cases::{texts, tracked}`.
#![tactic(auto)]

mod added;
pub mod cache;
pub mod known;
mod rising;
mod seeded;
mod texts;
mod vanished;

pub use cache::{Look, SeriesCache};
pub use known::{Known, shared};
