//! How many of a kind a configuration may list. (Limits of this project's own.)

/// The most jobs.
pub const MOST_JOBS: u64 = 1_000;

/// The most targets of one job.
pub const MOST_TARGETS: u64 = 10_000;

/// The most different files of one job.
pub const MOST_FILES: u64 = 100;
