//! What can be wrong with a configuration, and which of several faults is reported.
ghost use Rattle.std.specs.Prelude.{◌≡◌, IfOk, OnOk};
ghost use Rattle.config_fields.specs.Places.{field_place, item_place};
ghost use Rattle.config_fields.specs.Faults.{flaw_number, number_of, is_reported_over, better, placed};

use crate::place::{at_field, at_item};
use label_set::{Name, NoMemory};
use std::alloc::Global;

/// Why a text is no configuration, or no list of groups. A place is a JSON Pointer (RFC 6901).
#[derive(Drop, Debug)]
pub enum ConfFault {
    /// The bytes are no UTF-8, or no JSON, or nest more than 127 deep.
    NotJson,
    /// The value at the place is of another kind than its field asks for.
    Shape { place: Name },
    /// No such field is known.
    Unknown { place: Name },
    /// The field, which is required, is absent; the place is the one that it would have.
    Missing { place: Name },
    /// The field's value is of the right kind and refused.
    Value { place: Name },
    /// The first job whose name an earlier job has.
    TwiceNamed { job: Name },
    /// The list at the place has more items than the limit.
    TooMany { place: Name, limit: u64 },
    /// The pattern at the place is refused.
    Rule { place: Name },
}

/// What is wrong with a value, without its place: the fault of the same name.
#[derive(Clone, Copy, PartialEq, Eq, Debug)]
pub enum Flaw {
    Shape,
    Unknown,
    Missing,
    Value,
    TooMany(u64),
    Rule,
}

fn flaw_number(flaw: Flaw) -> u8
    ensures { result ≡ flaw_number flaw }
{
    match flaw {
        Flaw::Shape => 2,
        Flaw::Unknown => 3,
        Flaw::Missing => 4,
        Flaw::Value => 5,
        Flaw::TooMany(_) => 7,
        Flaw::Rule => 8,
    }
}

fn number_of(fault: &ConfFault) -> u8
    ensures { result ≡ number_of fault.now }
{
    match fault {
        ConfFault::NotJson => 1,
        ConfFault::Shape { .. } => 2,
        ConfFault::Unknown { .. } => 3,
        ConfFault::Missing { .. } => 4,
        ConfFault::Value { .. } => 5,
        ConfFault::TwiceNamed { .. } => 6,
        ConfFault::TooMany { .. } => 7,
        ConfFault::Rule { .. } => 8,
    }
}

/// Whether a fault of this number would be reported rather than the one found so far: it is the first, or its number is less.
pub fn is_reported_over(number: u8, found: &Option<ConfFault>) -> bool
    ensures { result ≡ is_reported_over number found.now }
{
    match found {
        None => true,
        Some(found) => number < number_of(found),
    }
}

fn placed(flaw: Flaw, place: Name) -> ConfFault
    ensures { result ≡ placed flaw place }
{
    match flaw {
        Flaw::Shape => ConfFault::Shape { place },
        Flaw::Unknown => ConfFault::Unknown { place },
        Flaw::Missing => ConfFault::Missing { place },
        Flaw::Value => ConfFault::Value { place },
        Flaw::TooMany(limit) => ConfFault::TooMany { place, limit },
        Flaw::Rule => ConfFault::Rule { place },
    }
}

/// Notes a flaw of the value at a place. The fault is made only where it is reported rather than the one found so far;
/// an error is out of memory for it.
pub fn note(
    alloc: Global,
    found: &mut Option<ConfFault>,
    flaw: Flaw,
    place: &str,
) -> Result<(), NoMemory>
    ensures { OnOk result (found.new ≡ better found.old (placed flaw place.now)) }
{
    if is_reported_over(flaw_number(flaw), found) {
        *found = Some(placed(flaw, Name::from_str(alloc, place)?));
    }
    Ok(())
}

/// Notes a flaw of a field of the object at a place, as `note` does.
pub fn note_field(
    alloc: Global,
    found: &mut Option<ConfFault>,
    flaw: Flaw,
    place: &str,
    key: &str,
) -> Result<(), NoMemory>
    ensures { OnOk result (found.new ≡ better found.old (placed flaw (field_place place.now key.now))) }
{
    if is_reported_over(flaw_number(flaw), found) {
        *found = Some(placed(flaw, at_field(alloc, place, key)?));
    }
    Ok(())
}

/// Notes a flaw of an item of the list at a place, as `note` does. Items are counted from 0.
pub fn note_item(
    alloc: Global,
    found: &mut Option<ConfFault>,
    flaw: Flaw,
    place: &str,
    index: usize,
) -> Result<(), NoMemory>
    ensures { OnOk result (found.new ≡ better found.old (placed flaw (item_place place.now index))) }
{
    if is_reported_over(flaw_number(flaw), found) {
        *found = Some(placed(flaw, at_item(alloc, place, index)?));
    }
    Ok(())
}
