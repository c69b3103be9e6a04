//! Books that grow: what `instants` sees of them. The verdicts of their entries the cases show.

use crate::shared::set_of;
use label_set::NoMemory;
use report_samples::{Entry, EntryList, Kind};
use std::alloc::Global;
use value_text::ValueText;

/// A sample of a count, or a stale marker.
fn entry(alloc: Global, labels: &str, moment: i64, count: Option<u64>) -> Result<Entry, NoMemory> {
    let series = set_of(alloc, labels)?;
    match count {
        Some(count) => Ok(Entry {
            life: 0,
            kind: Kind::Scraped,
            series,
            moment,
            value: Some(ValueText::of_count(alloc, count)?),
        }),
        None => Ok(Entry {
            life: 0,
            kind: Kind::Stale,
            series,
            moment,
            value: None,
        }),
    }
}

/// The series of entries, their moments, and the counts of samples.
pub(crate) type Row = (&'static str, i64, Option<u64>);

/// Entries that are there when the book is followed first.
pub(crate) const FIRST: &[Row] = &[("__name__=x", 0, Some(1)), ("__name__=y", 0, Some(2))];

/// More behind them.
pub(crate) const LATER: &[Row] = &[
    ("__name__=x", 60_000, Some(3)),
    ("__name__=y", 60_000, None),
    ("__name__=x", 50_000, Some(4)),
    ("__name__=x", 120_000, Some(5)),
    ("__name__=w", i64::MIN, Some(6)),
    ("__name__=w", i64::MAX, Some(7)),
];

pub(crate) fn entries_of(alloc: Global, rows: &[Row]) -> Result<EntryList, NoMemory> {
    let mut items = Vec::new(alloc);
    for &(labels, moment, count) in rows {
        items.push(entry(alloc, labels, moment, count)?)?;
    }
    Ok(EntryList { items })
}
