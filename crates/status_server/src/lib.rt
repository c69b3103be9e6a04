//! A status server: a connection from its first byte to its end, and what each of its requests is answered by what a core has taken: the targets
//! that are scraped, what selectors see of its book (federation), or what a reload of the configuration comes to.
//! What a connection's bytes ask for is said by `request_heads`. `specs/Connections.antt` says which replies requests have, and which loads they
//! make, and `specs/Serving.antt` how a connection ends; `Targets`, `Federates` and `Reloads` have the pages, and `Replies` how a reply is written.
//! Contracts see a server as the journal of its core. Tests: `scrape_cli`'s `answers`.
#![tactic(auto)]

pub mod answers;
pub mod connections;
pub mod federates;
pub mod reloads;
pub mod replies;
pub mod server;
pub mod serving;
pub mod targets;

pub use serving::{ServeEnd, Served, serve, serves_all};
