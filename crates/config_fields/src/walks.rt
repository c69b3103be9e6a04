//! The walk through the objects that hold no further objects. Each step keeps in `found` the fault that is reported so far;
//! an error is out of memory.
ghost use Rattle.std.specs.Prelude.{◌≡◌, OnOk, IfOk};
ghost use Rattle.serde_json.specs.View.{view, members_view, items_view};
ghost use Rattle.config_fields.specs.Faults.{best};
ghost use Rattle.config_fields.specs.Places.{field_place};
ghost use Rattle.config_fields.specs.Tables.{owed_by, field_of};
ghost use Rattle.config_fields.specs.Walks as spec;

use crate::fault::{ConfFault, Flaw, note, note_field, note_item};
use crate::forms::{Kind, TextForm, flaw_of, is_text_of, judged};
use crate::place::at_field;
use crate::tables::{Field, Key, ObjectKind, Owed, field_of, owed_by};
use label_set::{NoMemory, is_label_name};
use serde_json::{Map, Value};
use std::alloc::Global;
use std::cmp::Ordering;

/// Whether each text of a list is of a form.
fn are_texts_of(form: TextForm, values: &[Value]) -> bool
    ensures { result ≡ spec.are_texts_of form (items_view values.now) }
{
    for value in values {
        if let Some(text) = value.as_str() {
            if !is_text_of(form, text) {
                return false;
            }
        }
    }
    true
}

/// Notes the items that are no texts.
fn items(
    alloc: Global,
    place: &str,
    values: &[Value],
    found: &mut Option<ConfFault>,
) -> Result<(), NoMemory>
    ensures { OnOk result (found.new ≡ best found.old (spec.item_faults place.now 0 (items_view values.now))) }
{
    let mut index = 0;
    for value in values {
        if let Some(flaw) = flaw_of(Kind::Text(TextForm::Any), value) {
            note_item(alloc, found, flaw, place, index)?;
        }
        index += 1;
    }
    Ok(())
}

/// A list of texts.
#[tactic(auto, unfolding(crate::specs::Walks::texts_faults))]
fn texts(
    alloc: Global,
    form: TextForm,
    place: &str,
    value: &Value,
    found: &mut Option<ConfFault>,
) -> Result<(), NoMemory>
    ensures { OnOk result (found.new ≡ best found.old (spec.texts_faults form place.now (view value.now))) }
{
    let Some(values) = value.as_array() else {
        return note(alloc, found, Flaw::Shape, place);
    };
    if let Some(flaw) = judged(Some(are_texts_of(form, values))) {
        note(alloc, found, flaw, place)?;
    }
    items(alloc, place, values, found)
}

/// Whether each name is a label name.
fn are_label_names(object: &Map<String, Value>) -> bool
    ensures { result ≡ spec.are_label_names (members_view object.now.entries) }
{
    for (name, _) in object {
        if !is_label_name(name.as_str()) {
            return false;
        }
    }
    true
}

/// Notes the values that are no texts.
fn values(
    alloc: Global,
    place: &str,
    object: &Map<String, Value>,
    found: &mut Option<ConfFault>,
) -> Result<(), NoMemory>
    ensures { OnOk result (found.new ≡ best found.old (spec.value_faults place.now (members_view object.now.entries))) }
{
    for (name, value) in object {
        if let Some(flaw) = flaw_of(Kind::Text(TextForm::Any), value) {
            note_field(alloc, found, flaw, place, name.as_str())?;
        }
    }
    Ok(())
}

/// An object of texts under label names.
#[tactic(auto, unfolding(crate::specs::Walks::labels_faults))]
fn labels(
    alloc: Global,
    place: &str,
    value: &Value,
    found: &mut Option<ConfFault>,
) -> Result<(), NoMemory>
    ensures { OnOk result (found.new ≡ best found.old (spec.labels_faults place.now (view value.now))) }
{
    let Some(object) = value.as_object() else {
        return note(alloc, found, Flaw::Shape, place);
    };
    if let Some(flaw) = judged(Some(are_label_names(object))) {
        note(alloc, found, flaw, place)?;
    }
    values(alloc, place, object, found)
}

/// Lists of texts under names.
#[tactic(auto, using(crate::proofs::FaultLemmas::best_after))]
fn lists(
    alloc: Global,
    place: &str,
    object: &Map<String, Value>,
    found: &mut Option<ConfFault>,
) -> Result<(), NoMemory>
    ensures { OnOk result (found.new ≡ best found.old (spec.lists_faults place.now (members_view object.now.entries))) }
{
    for (name, value) in object {
        let place = at_field(alloc, place, name.as_str())?;
        texts(alloc, TextForm::Any, place.as_str(), value, found)?;
    }
    Ok(())
}

/// An object of lists of texts.
#[tactic(auto, unfolding(crate::specs::Walks::params_faults))]
fn params(
    alloc: Global,
    place: &str,
    value: &Value,
    found: &mut Option<ConfFault>,
) -> Result<(), NoMemory>
    ensures { OnOk result (found.new ≡ best found.old (spec.params_faults place.now (view value.now))) }
{
    match value.as_object() {
        Some(object) => lists(alloc, place, object, found),
        None => note(alloc, found, Flaw::Shape, place),
    }
}

/// Notes the faults of the value of a field, under a key of the object at a place. Its place is put together where it may be needed.
#[tactic(auto, unfolding(crate::specs::Walks::field_faults))]
pub fn field(
    alloc: Global,
    field: Field,
    place: &str,
    key: &str,
    value: &Value,
    found: &mut Option<ConfFault>,
) -> Result<(), NoMemory>
    ensures { OnOk result (found.new ≡ best found.old (spec.field_faults field (field_place place.now key.now) (view value.now))) }
{
    match field {
        Field::Unknown => note_field(alloc, found, Flaw::Unknown, place, key),
        Field::Plain(kind) => match flaw_of(kind, value) {
            Some(flaw) => note_field(alloc, found, flaw, place, key),
            None => Ok(()),
        },
        Field::Texts(form) => {
            let place = at_field(alloc, place, key)?;
            texts(alloc, form, place.as_str(), value, found)
        }
        Field::Labels => {
            let place = at_field(alloc, place, key)?;
            labels(alloc, place.as_str(), value, found)
        }
        Field::Params => {
            let place = at_field(alloc, place, key)?;
            params(alloc, place.as_str(), value, found)
        }
    }
}

/// Notes a required field that is absent.
fn missing(
    alloc: Global,
    place: &str,
    required: Option<Key>,
    found: &mut Option<ConfFault>,
) -> Result<(), NoMemory>
    ensures { OnOk result (found.new ≡ best found.old (spec.missing place.now required)) }
{
    match required {
        Some(key) => note_field(alloc, found, Flaw::Missing, place, key.text()),
        None => Ok(()),
    }
}

/// A required field, where a walk passes it by when it comes to a key.
fn passed(required: Option<Key>, key: &str) -> Option<Key>
    ensures { result ≡ spec.passed required key.now }
{
    match required?.text().cmp(key) {
        Ordering::Less => required,
        _ => None,
    }
}

/// A required field, where it is still to come after a key.
fn to_come(required: Option<Key>, key: &str) -> Option<Key>
    ensures { result ≡ spec.to_come required key.now }
{
    match required?.text().cmp(key) {
        Ordering::Greater => required,
        _ => None,
    }
}

/// Notes the required fields that a walk passes by when it comes to a key, and gives those that are still to come after it.
#[tactic(auto, unfolding(crate::specs::Walks::missing_before, crate::specs::Walks::owed_after))]
pub fn pass_by(
    alloc: Global,
    place: &str,
    owed: Owed,
    key: &str,
    found: &mut Option<ConfFault>,
) -> Result<Owed, NoMemory>
    ensures owed { IfOk result (λ o. o ≡ spec.owed_after owed key.now) }
    ensures found { OnOk result (found.new ≡ best found.old (spec.missing_before place.now owed key.now)) }
{
    missing(alloc, place, passed(owed.first, key), found)?;
    missing(alloc, place, passed(owed.second, key), found)?;
    Ok(Owed {
        first: to_come(owed.first, key),
        second: to_come(owed.second, key),
    })
}

/// Notes the required fields that never came, where a walk has come to the end of the object at a place.
#[tactic(auto, unfolding(crate::specs::Walks::missing_at_end))]
pub fn end(
    alloc: Global,
    place: &str,
    owed: Owed,
    found: &mut Option<ConfFault>,
) -> Result<(), NoMemory>
    ensures { OnOk result (found.new ≡ best found.old (spec.missing_at_end place.now owed)) }
{
    missing(alloc, place, owed.first, found)?;
    missing(alloc, place, owed.second, found)
}

/// The fields of an object.
#[tactic(auto, using(crate::proofs::FaultLemmas::best_after))]
fn members(
    alloc: Global,
    kind: ObjectKind,
    place: &str,
    object: &Map<String, Value>,
    found: &mut Option<ConfFault>,
) -> Result<(), NoMemory>
    ensures { OnOk result (found.new ≡ best found.old (spec.members_faults kind place.now (owed_by kind) (members_view object.now.entries))) }
{
    let mut owed = owed_by(kind);
    for (key, value) in object {
        owed = pass_by(alloc, place, owed, key.as_str(), found)?;
        field(
            alloc,
            field_of(kind, key.as_str()),
            place,
            key.as_str(),
            value,
            found,
        )?;
    }
    end(alloc, place, owed, found)
}

/// Notes the faults of an object of a kind, the value at a place.
#[tactic(auto, unfolding(crate::specs::Walks::object_faults))]
pub fn object(
    alloc: Global,
    kind: ObjectKind,
    place: &str,
    value: &Value,
    found: &mut Option<ConfFault>,
) -> Result<(), NoMemory>
    ensures { OnOk result (found.new ≡ best found.old (spec.object_faults kind place.now (view value.now))) }
{
    match value.as_object() {
        Some(object) => members(alloc, kind, place, object, found),
        None => note(alloc, found, Flaw::Shape, place),
    }
}
