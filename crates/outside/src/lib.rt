//! What the scrape manager has around it: the requests of scrapes and what came back for them, and the files, sinks,
//! inputs, clocks and links that it is handed.
//! It also says how a scheme is written, and how long what is handed in may be.
//! The crates that decide know these types alone, so they reach no file, socket or clock: each object is a trait, with objects in memory
//! of which all is known, and thin adapters over the real things, of which nothing is known.
//! Contracts see a reply as its variant, with the body as the list of its bytes; of an object they see what it holds, where that is known,
//! and its counts of faults, which never fall.
//! Tests: `tests_ground::{inputs, links, fetches}`, those of `scrape_cli`, and `checks/ends` on the built program.
#![tactic(auto)]

pub mod adapters;
pub mod calls;
pub mod clocks;
pub mod fetches;
pub mod lines;
pub mod links;
pub mod memory;
pub mod objects;
pub mod replies;
pub mod requests;
pub mod sizes;
pub mod sources;
pub mod streams;

pub use adapters::{FileShelf, StdSink};
pub use calls::{AnsweredCall, Call, note_call};
pub use clocks::{Clock, MemClock, MomentList};
pub use fetches::{Fetch, FetchedList, MemFetch, SureFetch};
pub use lines::{MemLink, SureLink};
pub use links::{Link, LinkFault};
pub use memory::{MemShelf, MemSink, SureShelf, SureSink};
pub use objects::{CallList, FileList, Shelf, ShelfError, Sink, SinkFault, StoredFile};
pub use replies::Reply;
pub use requests::{Fetched, Request, Scheme, is_scheme, scheme_of, scheme_text};
pub use sizes::{MOST_BODY_BYTES, MOST_NAME_BYTES, MOST_TEXT_BYTES};
pub use sources::{MemSource, Source, SourceFault, SureSource};
pub use streams::{FileSink, SystemClock};
