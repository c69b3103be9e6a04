//! The targets of a job: each listed target is dropped, refused with a cause, or kept with its identity and its labels; and the request
//! that a scrape of a kept target sends.
//! Contracts see label sets as lists of pairs and texts as lists of bytes; `specs/Outcomes.antt` says what becomes of a listed target,
//! `specs/Listed.antt` what becomes of a job's list, and `specs/Requests.antt` what the request of a target is.
//! Tests: `tests_deciding::targets`; cases: `scrape_cases::targets`.
#![tactic(auto)]

mod address;
mod counts;
mod files;
mod kept;
mod outcomes;
mod prepare;
mod requests;
mod targets;
mod values;
mod walk;

pub use counts::listed_within;
pub use files::{FileGroups, SharedGroups};
pub use requests::request_of;
pub use targets::{
    Outcome, RefusedList, RefusedTarget, Target, TargetCause, TargetList, Targets, targets_of,
    targets_with_files,
};
