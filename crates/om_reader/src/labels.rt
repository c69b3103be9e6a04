//! The labels of a line or of an exemplar.
ghost use Rattle.std.specs.Prelude.{◌≡◌, ◌<◌, ◌+◌, length, IfNone, IfOk, IfSome, IsTrue, List, MatchResult, None, Some};
ghost use Rattle.label_set.specs.Bytes.{is_label_name};
ghost use Rattle.label_set.specs.declared.texts.Pair.{Pair};
ghost use Rattle.expo_reader.specs.Bodies.{has_metric_label, names_of};
ghost use Rattle.expo_reader.specs.Texts as plain;
ghost use Rattle.expo_reader.specs.Faults.{FaultIs};
ghost use Rattle.om_reader.specs.Forms as spec;
ghost use Rattle.om_reader.specs.Reads.{AddsLabel, AddsLabels, HasLabels, IsLabelOf};

use crate::repeats::{BorrowedName, has_metric_name, names_differ};
use crate::texts::is_written;
use expo_reader::faults::Fault;
use expo_reader::parts::{Part, mark_at, text_at, word_at};
use label_set::names::are_label_name;
use std::alloc::Global;
use std::marker::Model;

/// Room that is used again in each line: for the names of its labels, and for a text with its escapes resolved. Contracts see the names.
#[derive(Drop)]
pub struct Room<'b> {
    names: Vec<BorrowedName<'b>>,
    text: Vec<u8>,
}

impl<'b> Model for Room<'b> {
    ghost use Rattle.std.specs.Prelude.{ℕ, List};

    ghost Value = { List (List ℕ) };

    ghost view = { λ r. r.names.items };
}

impl<'b> Room<'b> {
    /// Empty room.
    pub fn new(alloc: Global) -> Room<'b> {
        Room {
            names: Vec::new(alloc),
            text: Vec::new(alloc),
        }
    }

    /// Whether one of the labels whose names are here is `__name__`.
    pub fn has_metric_label(&self) -> bool
        ensures { (labels : List Pair) → self.now ≡ names_of labels → result ≡ has_metric_label labels }
    {
        has_metric_name(self.names.as_slice())
    }
}

/// The name of a label in front, and what follows it.
fn name_at(text: &[u8]) -> Option<Part<'_>>
    ensures part { IfSome result (λ p. plain.word_at text.now ≡ Some (p.bytes.now, p.rest.now)) }
    ensures name { IfSome result (λ p. IsTrue (is_label_name p.bytes.now)) }
    ensures none { IfNone result (spec.label_at text.now ≡ None) }
    ensures shorter { IfSome result (λ p. length p.rest.now < length text.now) }
{
    let Some(name) = word_at(text) else {
        return None;
    };
    if are_label_name(name.bytes) {
        Some(name)
    } else {
        None
    }
}

/// What follows the text in quotes of a label with that name.
fn valued<'b>(name: &[u8], quoted: &'b [u8], room: &mut Vec<u8>) -> Result<&'b [u8], Fault>
    requires { IsTrue (is_label_name name.now) }
    ensures label { let said = spec.valued_label name.now (plain.text_at quoted.now) in
        MatchResult result (λ r. IsLabelOf name.now said r.now) (λ f. FaultIs f said) }
    ensures shorter { IfOk result (λ rest. length rest.now < length quoted.now) }
{
    let Some(value) = text_at(quoted) else {
        return Err(Fault::Faulty);
    };
    let written = is_written(value.bytes, room)?;
    if written {
        Ok(value.rest)
    } else {
        Err(Fault::Faulty)
    }
}

/// Adds the name of the label in front, and gives what follows it.
fn push_label<'b>(text: &'b [u8], room: &mut Room<'b>) -> Result<&'b [u8], Fault>
    ensures label { let said = spec.label_at text.now in MatchResult result (λ r. AddsLabel said r.now room.old room.new) (λ f. FaultIs f said) }
    ensures shorter { IfOk result (λ rest. length rest.now < length text.now) }
{
    let Some(name) = name_at(text) else {
        return Err(Fault::Faulty);
    };
    let Some(quoted) = mark_at(b'=', name.rest) else {
        return Err(Fault::Faulty);
    };
    match valued(name.bytes, quoted, &mut room.text) {
        Ok(rest) => {
            room.names.reserve(1)?;
            room.names.push_reserved(BorrowedName { bytes: name.bytes });
            Ok(rest)
        }
        Err(fault) => Err(fault),
    }
}

/// Adds the names of the labels in front, one at least, and gives what follows the `}` behind them.
fn push_labels<'b>(text: &'b [u8], room: &mut Room<'b>) -> Result<&'b [u8], Fault>
    ensures labels { let said = spec.labels_at (length text.now + 1) text.now in
        MatchResult result (λ r. AddsLabels said r.now room.old room.new) (λ f. FaultIs f said) }
    ensures shorter { IfOk result (λ rest. length rest.now < length text.now) }
{
    let mut left = text;
    loop {
        let rest = match push_label(left, room) {
            Ok(rest) => rest,
            Err(fault) => return Err(fault),
        };
        left = match mark_at(b',', rest) {
            Some(next) => next,
            None => return closed(rest),
        };
    }
}

/// What follows a `}`.
fn closed(text: &[u8]) -> Result<&[u8], Fault>
    ensures shorter { IfOk result (λ rest. length rest.now < length text.now) }
    ensures rest { let said = plain.mark_at 125 text.now in MatchResult result (λ r. said ≡ Some r.now) (λ f. (f ≡ Fault.Faulty) × (said ≡ None)) }
{
    match mark_at(b'}', text) {
        Some(rest) => Ok(rest),
        None => Err(Fault::Faulty),
    }
}

/// What follows the labels behind a `{` and the `}` behind them; none of them is given twice. The room has their names then.
pub fn braced<'b>(alloc: Global, text: &'b [u8], room: &mut Room<'b>) -> Result<&'b [u8], Fault>
    ensures labels { let said = spec.braced text.now in MatchResult result (λ r. HasLabels said r.now room.new) (λ f. FaultIs f said) }
    ensures shorter { IfOk result (λ rest. length rest.now < length text.now) }
{
    room.names.clear();
    if let Some(rest) = mark_at(b'}', text) {
        return Ok(rest);
    }
    let rest = match push_labels(text, room) {
        Ok(rest) => rest,
        Err(fault) => return Err(fault),
    };
    let differ = names_differ(alloc, room.names.as_slice())?;
    if !differ {
        return Err(Fault::Faulty);
    }
    Ok(rest)
}
