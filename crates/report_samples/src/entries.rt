//! What a book is made of.
ghost use Rattle.std.specs.Prelude.{◌≡◌, is_none};
ghost use Rattle.report_samples.specs.Kinds.{marks_end};

use label_set::{LabelSet, ListOf};
use value_text::ValueText;

/// What an entry is ("Staleness" of the Prometheus documentation, for the two markers).
#[derive(Clone, Copy, Debug, PartialEq, Eq)]
pub enum Kind {
    /// A sample of a scraped body.
    Scraped,
    /// A stale marker: the series has ended.
    Stale,
    /// A report sample of a scrape, as `up`.
    Report,
    /// A stale marker of a report series.
    ReportStale,
}

/// One entry of the book. The value is absent exactly for the two markers, which the type keeps.
#[derive(Debug, Drop)]
pub struct Entry {
    /// The number of the life that appended it.
    pub life: u64,
    pub kind: Kind,
    /// The label set of its series, `__name__` among the labels.
    pub series: LabelSet,
    /// Milliseconds since the epoch.
    pub moment: i64,
    pub value: Option<ValueText>,
    pub ghost marked: { is_none value ≡ marks_end kind },
}

/// Entries in order.
pub type EntryList = ListOf<Entry>;
