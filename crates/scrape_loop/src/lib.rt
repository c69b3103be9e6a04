//! The scrapes of one life of a target: what each appends to the book, and what it leaves for the next.
//! A series that a scrape tracks and the next one doesn't ends with a stale marker; the reports of each scrape stand behind its samples and markers.
//! A raw text that the last good scrape showed costs no relabelling: its series is known.
//! A scrape is counted by its reply, whose body is read before.
//! Contracts see a life's state as the record of its number, its target's labels, the sets that its last counted scrape tracked, all sets of its last
//! good one, what is known of its raw texts, whether a scrape of it counted, and whether the last was good; `specs/Tracked.antt` says what a
//! scrape makes of it, `specs/Texts.antt` what its rows show of raw texts, `specs/Shown.antt` what those say of its
//! sets, `specs/Entries.antt` which entries it appends, and `specs/Closings.antt` what a life leaves behind when it
//! is closed.
//! Tests: `tests_deciding::scrapes`; cases: `scrape_cases::{scripts, texts}`.
#![tactic(auto)]

pub mod health;
mod known_rows;
mod last_texts;
pub mod life_state;
mod past;
pub mod read_reply;
mod scrape_entries;
mod scrape_parts;
mod target_labels;

pub use health::Health;
pub use life_state::{Counted, LifeState};
pub use past::Timing;
pub use read_reply::ReadReply;
