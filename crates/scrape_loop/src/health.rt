//! How the target of a life is.

/// How the target of a life is, by the last scrape of it that counted, a forced one too.
#[derive(Clone, Copy, Debug, PartialEq)]
pub enum Health {
    /// No scrape of it counted so far.
    Unknown,
    /// The last one was good.
    Up,
    /// The last one had a fault.
    Down,
}
