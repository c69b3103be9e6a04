//! What a life leaves behind when it is closed.
use label_set::{LabelSet, SetList};

/// A life that was closed: what its ending needs to know.
#[derive(Debug, Drop)]
pub struct Closing {
    /// The number of the life.
    pub life: u64,
    /// The labels of its target.
    pub target: LabelSet,
    /// The sets that its last counted scrape tracked, rising.
    pub tracked: SetList,
    /// Whether a scrape of it counted, a forced one too.
    pub scraped: bool,
    /// The moment at which its next scrape was planned, in milliseconds since the epoch.
    pub planned: i64,
    /// The moment at which it was closed.
    pub closed: i64,
    /// The scrape interval, in milliseconds.
    pub interval: i64,
    /// Whether it has the three extra reports besides the five.
    pub extra: bool,
}
