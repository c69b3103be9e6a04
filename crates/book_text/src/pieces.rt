//! Pieces of the lines of a printed book.
ghost use Rattle.std.specs.Prelude.{◌≡◌, ◌++◌, ◌+◌, ◌<◌, ◌≤◌, length, vec_len, vec_capacity, OnOk, OnErr};
ghost use Rattle.book_text.specs.Texts as spec;

use appender_book::Verdict;
use label_set::NoMemory;
use report_samples::Kind;
use value_text::ValueText;

/// Appends a piece; it fails only where there is no room for it.
pub(crate) fn push(text: &mut Vec<u8>, piece: &[u8]) -> Result<(), NoMemory>
    ensures written { OnOk result (text.new.items ≡ text.old.items ++ piece.now) }
    ensures full { OnErr result (vec_capacity text.old < vec_len text.old + length piece.now) }
    ensures capacity { vec_capacity text.old ≤ vec_capacity text.new }
    ensures len { OnOk result (vec_len text.new ≡ vec_len text.old + length piece.now) }
{
    Ok(text.extend_from_slice(piece)?)
}

/// The word of a kind.
pub(crate) fn kind_word(kind: Kind) -> &'static str
    ensures { result.now ≡ spec.kind_word kind }
{
    match kind {
        Kind::Scraped => "sample",
        Kind::Stale => "stale",
        Kind::Report => "report",
        Kind::ReportStale => "report-stale",
    }
}

/// The verdict and a blank, in front of a line.
pub fn verdict_mark(verdict: Verdict) -> &'static str
    ensures { result.now ≡ spec.verdict_mark verdict }
{
    match verdict {
        Verdict::Kept => "kept ",
        Verdict::OutOfOrder => "outoforder ",
        Verdict::Duplicate => "duplicate ",
        Verdict::Same => "same ",
    }
}

/// Appends a blank and the value of a sample.
pub(crate) fn push_value(text: &mut Vec<u8>, value: &Option<ValueText>) -> Result<(), NoMemory>
    ensures written { OnOk result (text.new.items ≡ text.old.items ++ spec.value_after value.now) }
    ensures full { OnErr result (vec_capacity text.old < vec_len text.old + length (spec.value_after value.now)) }
    ensures capacity { vec_capacity text.old ≤ vec_capacity text.new }
    ensures len { OnOk result (vec_len text.new ≡ vec_len text.old + length (spec.value_after value.now)) }
{
    match value {
        None => Ok(()),
        Some(value) => {
            push(text, b" ")?;
            push(text, value.bytes())
        }
    }
}
