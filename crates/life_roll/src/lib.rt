//! When the target of a life is scraped: the planned moments, the scrape in flight, and the end. A life is a stretch of time in which a target
//! of a job is scraped; its planned moments stay whole intervals apart, and at most one scrape of it is in flight.
//! Contracts see a schedule as the record of its interval, its next planned moment, its scrape in flight and the moment at which it was closed;
//! `specs/Schedules.antt` says what scans, changes and closing make of it.
//! A roll keeps all lives by number and all started scrapes by ticket; contracts see both lists. `specs/Rolls.antt` says which lives the wanted
//! targets close, change and begin, and what a tick answers; `specs/Flights.antt` says which scrapes are in flight after each call, and
//! `specs/Counts.antt` that each wanted target has one open life.
//! Tests: `tests_deciding::rolls`; cases: `scrape_cases::reloads`.
#![tactic(auto)]

pub mod answers;
pub mod job_names;
pub mod lives;
pub mod moments;
pub mod roll;
pub mod schedule;
pub mod seats;
pub mod wanted;

pub use answers::{Began, Flight, Synced, TickRefusal};
pub use job_names::JobNames;
pub use lives::{Life, Start};
pub use moments::{Interval, Moment, Planned};
pub use roll::Roll;
pub use schedule::{InFlight, Scanned, Schedule};
pub use seats::{Seat, Seats};
pub use wanted::{Terms, Wanted, Wishes};
