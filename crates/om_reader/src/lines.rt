//! The samples of lines.
ghost use Rattle.std.specs.Prelude.{◌≡◌, ◌≤◌, ◌<◌, ◌==◌, ◌&&◌, length, not, slice_index, IfNone, IfOk, IfSome, IsTrue, MatchOption, MatchResult, None, Some, option_map};
ghost use Rattle.label_set.specs.Bytes.{is_metric_name};
ghost use Rattle.expo_reader.specs.Texts as plain;
ghost use Rattle.expo_reader.specs.Faults.{FaultIs};
ghost use Rattle.om_reader.specs.Forms as spec;
ghost use Rattle.om_reader.specs.Reads.{IsBehindLabels, IsFaultBehind, IsSampleOf};
ghost use Rattle.om_reader.specs.Timestamps.{millis_of};

use crate::labels::{Room, braced};
use crate::parts::field_at;
use crate::stamps::{Millis, read_stamp};
use expo_reader::faults::Fault;
use expo_reader::parts::{Part, mark_at, word_at};
use label_set::NoMemory;
use label_set::names::are_metric_name;
use std::alloc::Global;
use value_text::ValueText;

/// A value, its timestamp where it has one, and what follows them.
#[derive(Clone, Copy)]
struct Measure<'b> {
    value: &'b [u8],
    stamp: Option<Millis>,
    rest: &'b [u8],
}

/// Whether a timestamp begins there: a space that no `#` follows.
fn has_stamp(text: &[u8]) -> bool
    ensures { result ≡ ((slice_index text.now 0 == 32) && not (slice_index text.now 1 == 35)) }
{
    !text.is_empty() && text[0] == b' ' && (text.len() == 1 || text[1] != b'#')
}

/// A space, a value, and a space and a timestamp or nothing.
#[tactic(auto, unfolding(crate::specs::Forms::measure_at, crate::specs::Forms::stamp_at))]
fn measure_at(text: &[u8]) -> Option<Measure<'_>>
    ensures { let said = spec.measure_at text.now in
        MatchOption result (said ≡ None) (λ m. said ≡ Some (m.value.now, option_map millis_of m.stamp, m.rest.now)) }
{
    let Some(field) = field_at(text) else {
        return None;
    };
    if ValueText::check(field.bytes).is_err() {
        return None;
    }
    if !has_stamp(field.rest) {
        return Some(Measure {
            value: field.bytes,
            stamp: None,
            rest: field.rest,
        });
    }
    let Some(word) = field_at(field.rest) else {
        return None;
    };
    match read_stamp(word.bytes) {
        Some(millis) => Some(Measure {
            value: field.bytes,
            stamp: Some(millis),
            rest: word.rest,
        }),
        None => None,
    }
}

/// Whether a line ends there, or with an exemplar.
#[tactic(auto, unfolding(crate::specs::Forms::is_end))]
fn ends<'b>(alloc: Global, text: &'b [u8], room: &mut Room<'b>) -> Result<bool, NoMemory>
    ensures { IfOk result (λ b. b ≡ spec.is_end text.now) }
{
    if text.is_empty() {
        return Ok(true);
    }
    if text.len() < 4 || &text[..4] != b" # {".as_slice() {
        return Ok(false);
    }
    let rest = match braced(alloc, &text[4..], room) {
        Ok(rest) => rest,
        Err(Fault::Faulty) => return Ok(false),
        Err(Fault::NoMemory) => return Err(NoMemory),
    };
    match measure_at(rest) {
        Some(measure) => Ok(measure.rest.is_empty()),
        None => Ok(false),
    }
}

/// What a sample line becomes: its raw text, its value, and its timestamp where it has one.
#[derive(Clone, Copy)]
pub struct Line<'b> {
    pub raw: &'b [u8],
    pub value: &'b [u8],
    pub stamp: Option<Millis>,
}

/// The metric name in front of a line, and what follows it.
#[tactic(auto, unfolding(crate::specs::Forms::sample_at))]
fn metric_at(line: &[u8]) -> Option<Part<'_>>
    ensures part { IfSome result (λ p. plain.word_at line.now ≡ Some (p.bytes.now, p.rest.now)) }
    ensures name { IfSome result (λ p. IsTrue (is_metric_name p.bytes.now)) }
    ensures none { IfNone result (spec.sample_at line.now ≡ None) }
    ensures shorter { IfSome result (λ p. length p.rest.now < length line.now) }
{
    let Some(name) = word_at(line) else {
        return None;
    };
    if are_metric_name(name.bytes) {
        Some(name)
    } else {
        None
    }
}

/// What follows the name of a line, or the labels behind it in braces, none of which is `__name__`.
fn after_labels<'b>(alloc: Global, rest: &'b [u8], room: &mut Room<'b>) -> Result<&'b [u8], Fault>
    ensures said { MatchResult result (λ r. IsBehindLabels rest.now r.now) (IsFaultBehind rest.now) }
    ensures shorter { IfOk result (λ r. length r.now ≤ length rest.now) }
{
    let Some(inside) = mark_at(b'{', rest) else {
        return Ok(rest);
    };
    let rest = match braced(alloc, inside, room) {
        Ok(rest) => rest,
        Err(fault) => return Err(fault),
    };
    if room.has_metric_label() {
        return Err(Fault::Faulty);
    }
    Ok(rest)
}

/// The sample of a line.
pub fn sample_at<'b>(alloc: Global, line: &'b [u8], room: &mut Room<'b>) -> Result<Line<'b>, Fault>
    ensures { let said = spec.sample_at line.now in
        MatchResult result (λ l. IsSampleOf l.raw.now l.value.now (option_map millis_of l.stamp) said)
        (λ f. FaultIs f said) }
{
    let Some(name) = metric_at(line) else {
        return Err(Fault::Faulty);
    };
    let rest = match after_labels(alloc, name.rest, room) {
        Ok(rest) => rest,
        Err(fault) => return Err(fault),
    };
    let Some(measure) = measure_at(rest) else {
        return Err(Fault::Faulty);
    };
    match ends(alloc, measure.rest, room) {
        Ok(true) => Ok(Line {
            raw: &line[..line.len() - rest.len()],
            value: measure.value,
            stamp: measure.stamp,
        }),
        Ok(false) => Err(Fault::Faulty),
        Err(NoMemory) => Err(Fault::NoMemory),
    }
}
