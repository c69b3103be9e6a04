//! What a scrape goes by, and what it comes to.
use crate::fault::ScrapeFault;
use label_set::{LabelSet, ListOf};
use scrape_limits::Limits;
use value_text::ValueText;

/// What the rows of a reply are judged by, beside the job's rules for samples.
#[derive(Clone, Copy, Debug, PartialEq, Eq)]
pub struct RowRules {
    /// Whether an exposed label stands before the target's label of the same name (`honor_labels`).
    pub honor_labels: bool,
    /// Whether a sample keeps the timestamp that its line exposes (`honor_timestamps`).
    pub honor_timestamps: bool,
    /// Whether series whose own timestamps are honoured are tracked too (`track_timestamps_staleness`).
    pub track_timestamps_staleness: bool,
    /// Whether a scrape has the three extra reports (`extra_scrape_metrics`).
    pub extra_scrape_metrics: bool,
    /// The scrape timeout in milliseconds (`scrape_timeout`).
    pub timeout: i64,
    pub limits: Limits,
}

/// A sample that is left of a row.
#[derive(Debug, Drop)]
pub struct Sample {
    /// The label set of its series, `__name__` among the labels.
    pub set: LabelSet,
    pub value: ValueText,
    /// Its own timestamp in milliseconds, where its line has one and it is honoured.
    pub stamp: Option<i64>,
    /// Whether the scrape tracks its series by it, so that a stale marker ends the series where the next scrape doesn't.
    pub tracked: bool,
}

/// Samples in the order of the body.
pub type SampleList = ListOf<Sample>;

/// What a scrape comes to.
#[derive(Debug, Drop)]
pub enum Scrape {
    /// The samples that are left, and how many rows were scraped.
    Good {
        rows: SampleList,
        scraped: u64,
    },
    /// The fault, how many rows were scraped, and how many were left.
    Bad {
        fault: ScrapeFault,
        scraped: u64,
        left: u64,
    },
}
