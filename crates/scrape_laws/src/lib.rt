//! Laws of the machine in the words of the Prometheus documentation ("Staleness"): where stale markers stand, that a fetch which was cancelled before it
//! finished adds nothing, and how long a scrape is in flight; and two on lives beside one another: which events leave a life undisturbed, as a reload does
//! the targets that it keeps, and that what becomes of a life depends on nothing but the life and what it meets.
//! They speak of any journal of events and stand on functions without a body; `specs/` says what each law is.
//! The definitions that they are laws of are those of the crate `scrape_machine`, which each answer and each book is proved to follow.
#![tactic(auto)]

pub mod laws;
