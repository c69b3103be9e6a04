//! Labels gathered from a line and a target.
ghost use Rattle.std.specs.Prelude.{◌≡◌, ◌++◌, ◌&&◌, map, filter, length, IfOk, OnOk};
ghost use Rattle.std.specs.List.Sorted.{IsPermutation, IsSorted};
ghost use Rattle.std.specs.List.{IsDistinct};
ghost use Rattle.std.specs.Str.{bytes_eq};
ghost use Rattle.label_set.specs.Borrowed.{pair_of};
ghost use Rattle.label_set.specs.Sets.{IsSet};
ghost use Rattle.label_conflict.specs.Merging as spec;
ghost use Rattle.label_conflict.specs.Merging.{bears, names_of, name_label, apart_from, settled};
ghost use Rattle.label_conflict.specs.Names.{under};
ghost use Rattle.label_conflict.specs.Orders.{by_length, by_name};

use crate::free::free_name;
use crate::names::Names;
use indexmap::IndexSet;
use label_set::{Label, LabelSet, Name, NoMemory};
use std::alloc::Global;
use std::cmp::Ordering;

fn has_value(label: Label<'_>) -> bool
    ensures { result ≡ spec.has_value (pair_of label.entry) }
{
    !label.value.is_empty()
}

/// Adds the metric name as the value of `__name__`, if it isn't empty.
pub fn push_name<'a>(out: &mut Vec<Label<'a>>, name: &'a str) -> Result<(), NoMemory>
    ensures { OnOk result (map pair_of out.new.items ≡ map pair_of out.old.items ++ name_label name.now) }
{
    if !name.is_empty() {
        out.push(Label {
            name: "__name__",
            value: name,
        })?;
    }
    Ok(())
}

/// Adds all labels of a set.
pub fn push_all<'a>(out: &mut Vec<Label<'a>>, set: &'a LabelSet) -> Result<(), NoMemory>
    ensures labels { OnOk result (map pair_of out.new.items ≡ map pair_of out.old.items ++ set.now) }
    ensures set { OnOk result (IsSet set.now) }
{
    for label in set.labels() {
        out.push(label)?;
    }
    Ok(())
}

/// Adds all of some labels.
pub fn push_list<'a>(out: &mut Vec<Label<'a>>, labels: &[Label<'a>]) -> Result<(), NoMemory>
    ensures { OnOk result (map pair_of out.new.items ≡ map pair_of out.old.items ++ map pair_of labels.now) }
{
    for label in labels {
        out.push(*label)?;
    }
    Ok(())
}

/// Adds the labels that have a value.
pub fn push_valued<'a>(out: &mut Vec<Label<'a>>, labels: &[Label<'a>]) -> Result<(), NoMemory>
    ensures { OnOk result (map pair_of out.new.items ≡ map pair_of out.old.items ++ filter spec.has_value (map pair_of labels.now)) }
{
    for label in labels {
        if has_value(*label) {
            out.push(*label)?;
        }
    }
    Ok(())
}

/// Adds the labels that have a value and whose names none of the others bears.
pub fn push_apart<'a>(
    out: &mut Vec<Label<'a>>,
    labels: &[Label<'a>],
    others: &Names<'_, '_>,
) -> Result<(), NoMemory>
    ensures { OnOk result (map pair_of out.new.items
        ≡ map pair_of out.old.items ++ apart_from others.now (map pair_of labels.now)) }
{
    for label in labels {
        if has_value(*label) && !others.bear(label.name) {
            out.push(*label)?;
        }
    }
    Ok(())
}

/// The labels that have a value and whose names one of the others bears. Where there is none, it takes no memory.
fn shared_names<'a>(
    alloc: Global,
    labels: &[Label<'a>],
    others: &Names<'_, '_>,
) -> Result<Vec<Label<'a>>, NoMemory>
    ensures { IfOk result (λ v. map pair_of v.items
        ≡ filter (λ p. spec.has_value p && bears others.now p.name) (map pair_of labels.now)) }
{
    let mut out = Vec::new(alloc);
    for label in labels {
        if has_value(*label) && others.bear(label.name) {
            out.push(*label)?;
        }
    }
    Ok(out)
}

fn name_order(one: Label<'_>, other: Label<'_>) -> Ordering
    ensures { result ≡ by_name (pair_of one.entry) (pair_of other.entry) }
{
    one.name.cmp(other.name)
}

fn length_order(one: Label<'_>, other: Label<'_>) -> Ordering
    ensures { result ≡ by_length (pair_of one.entry) (pair_of other.entry) }
{
    one.name
        .len()
        .cmp(&other.name.len())
        .then(one.name.cmp(other.name))
}

/// Puts labels into the order of their names.
pub fn sort_by_name(labels: &mut Vec<Label<'_>>)
    ensures moved { IsPermutation labels.old.items labels.new.items }
    ensures sorted { IsSorted (λ one other. by_name (pair_of one) (pair_of other)) labels.new.items }
{
    labels.sort_unstable_by(|one, other| name_order(*one, *other));
}

/// Puts labels into the order of their names' lengths, and then of their names.
fn sort_by_length(labels: &mut Vec<Label<'_>>)
    ensures moved { IsPermutation labels.old.items labels.new.items }
    ensures sorted { IsSorted (λ one other. by_length (pair_of one) (pair_of other)) labels.new.items }
{
    labels.sort_unstable_by(|one, other| length_order(*one, *other));
}

/// The conflicts, in the order in which they are settled.
pub fn conflicts<'a>(
    alloc: Global,
    exposed: &[Label<'a>],
    target: &Names<'_, '_>,
) -> Result<Vec<Label<'a>>, NoMemory>
    requires { IsDistinct bytes_eq (names_of (map pair_of exposed.now)) }
    ensures { IfOk result (λ v. map pair_of v.items ≡ spec.conflicts (map pair_of exposed.now) target.now) }
{
    let mut found = shared_names(alloc, exposed, target)?;
    sort_by_length(&mut found);
    Ok(found)
}

/// A new name for each conflict, which is free by then.
pub fn new_names(
    alloc: Global,
    labels: &Names<'_, '_>,
    conflicts: &[Label<'_>],
) -> Result<IndexSet<Name>, NoMemory>
    ensures count { IfOk result (λ s. length s.keys ≡ length conflicts.now) }
    ensures names { IfOk result (λ s. settled (map pair_of conflicts.now) labels.now ≡ labels.now ++ under s.keys (map pair_of conflicts.now)) }
{
    let mut names = IndexSet::new(alloc);
    for place in 0..conflicts.len() {
        let name = free_name(alloc, labels, &names, conflicts[place].name)?;
        let _ = names.insert(name)?;
    }
    Ok(names)
}

/// Labels under new names.
pub fn renamed<'a>(
    alloc: Global,
    names: &'a [Name],
    labels: &[Label<'a>],
) -> Result<Vec<Label<'a>>, NoMemory>
    requires { length names.now ≡ length labels.now }
    ensures { IfOk result (λ v. map pair_of v.items ≡ under names.now (map pair_of labels.now)) }
{
    let mut out = Vec::with_capacity(alloc, labels.len())?;
    for place in 0..labels.len() {
        let name = names[place].as_str();
        let value = labels[place].value;
        out.push(Label { name, value })?;
    }
    Ok(out)
}
