//! How long what is handed in may be, in bytes. (Limits of this project's own.)

/// The longest name of a job or of a file: 4,096 bytes.
pub const MOST_NAME_BYTES: u64 = 4_096;

/// The longest configuration, and the longest list of a file: 4 MiB.
pub const MOST_TEXT_BYTES: u64 = 4_194_304;

/// The longest body: 64 MiB.
pub const MOST_BODY_BYTES: u64 = 67_108_864;
