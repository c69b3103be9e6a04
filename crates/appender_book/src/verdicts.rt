//! Verdicts of a store.
ghost use Rattle.std.specs.Prelude.{◌≡◌, Some};
ghost use Rattle.std.specs.Option.{option_map};
ghost use Rattle.appender_book.specs.Laws as laws;
ghost use Rattle.appender_book.specs.Verdicts as spec;

use report_samples::Entry;
use std::cmp::Ordering;
use value_text::ValueText;

/// What a store makes of an entry, which it compares with the last one that it kept of the same series.
#[derive(Clone, Copy, Debug, PartialEq, Eq)]
pub enum Verdict {
    /// It is kept: its moment is later than that of the last kept one, or there is none.
    Kept,
    /// Its moment is earlier.
    OutOfOrder,
    /// Its moment is the same, and its value another.
    Duplicate,
    /// Its moment and its value are the same, or both are markers at one moment.
    Same,
}

/// Whether both are missing, or have the same bytes.
fn same_value(kept: &Option<ValueText>, value: &Option<ValueText>) -> bool
    ensures { result ≡ spec.same_value kept.now value.now }
{
    match (kept, value) {
        (None, None) => true,
        (Some(kept), Some(value)) => kept.bytes() == value.bytes(),
        _ => false,
    }
}

/// The verdict of an entry behind a kept one of its series.
fn compared(kept: &Entry, entry: &Entry) -> Verdict
    ensures { result ≡ spec.verdict_after (Some kept.now) entry.now }
{
    match kept.moment.cmp(&entry.moment) {
        Ordering::Less => Verdict::Kept,
        Ordering::Greater => Verdict::OutOfOrder,
        Ordering::Equal => {
            if same_value(&kept.value, &entry.value) {
                Verdict::Same
            } else {
                Verdict::Duplicate
            }
        }
    }
}

/// The verdict of an entry, where `kept` is the last kept one of its series.
pub(crate) fn verdict_after(kept: Option<&Entry>, entry: &Entry) -> Verdict
    ensures { result ≡ spec.verdict_after (option_map (λ k. k.now) kept.entry) entry.now }
{
    match kept {
        None => Verdict::Kept,
        Some(kept) => compared(kept, entry),
    }
}

/// Laws of the verdicts: one stands, whatever is appended later, and the moments of the kept entries of a series rise. It does nothing.
pub fn laws_of_verdicts()
    ensures stand { laws.VerdictsStand }
    ensures rise { laws.KeptRise }
{}
