//! The requests that a status server is sent: what stands at the front of a connection's bytes, and which of its pages a request asks for.
//! Heads are those of HTTP/1.1 by the grammar of `httparse`, of at most 64 fields and 65,536 bytes. A head is neither copied nor
//! allocated: a query is borrowed from the bytes.
//! `specs/Requests.antt` says what a request asks for, `specs/Fronts.antt` what the front of some bytes is, and `specs/Queries.antt` which selectors a
//! query has.
#![tactic(auto)]

mod fields;
pub mod fronts;
pub mod pages;
pub mod queries;

pub use fronts::{Front, Request, front_at};
pub use pages::Page;
pub use queries::selectors_of;
