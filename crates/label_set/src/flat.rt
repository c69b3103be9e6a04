//! Labels as bytes: how they are written, looked through and compared.
ghost use Rattle.std.specs.Prelude.{◌≡◌, ◌++◌, ◌<◌, map, length, IfOk, OnOk};
ghost use Rattle.label_set.specs.Sets.{below, above, pair_cmp, set_cmp};
ghost use Rattle.label_set.specs.Flat.{flat, flat_label, first_label, labels_of, AreLabels, IsLabel, IsFlat, IsFlatSet};
ghost use Rattle.label_set.specs.Borrowed.{pair_of};

use crate::labels::{Label, split_first, split_first_bytes};
use crate::texts::NoMemory;
use std::alloc::Global;
use std::cmp::Ordering;

/// Adds the bytes of a label. `NoMemory` comes also where a text is too long for its length, 4 GiB or more.
#[tactic(auto, using(std::proofs::lemmas::Grind::common_steps), unfolding(crate::specs::Flat::flat_label))]
pub(crate) fn push_label(bytes: &mut Vec<u8>, label: Label<'_>) -> Result<(), NoMemory>
    ensures bytes { OnOk result (bytes.new.items ≡ bytes.old.items ++ flat_label (pair_of label.entry)) }
    ensures label { OnOk result (IsLabel (pair_of label.entry)) }
{
    let Ok(name_len) = u32::try_from(label.name.len()) else {
        return Err(NoMemory);
    };
    let Ok(value_len) = u32::try_from(label.value.len()) else {
        return Err(NoMemory);
    };
    let head = u64::from(name_len) + u64::from(value_len) * 4294967296;
    bytes.extend_from_slice(&head.to_le_bytes())?;
    bytes.extend_from_slice(label.name.as_bytes())?;
    bytes.extend_from_slice(label.value.as_bytes())?;
    Ok(())
}

/// How many bytes a label takes.
pub(crate) fn room(label: Label<'_>) -> usize {
    label
        .name
        .len()
        .saturating_add(label.value.len())
        .saturating_add(8)
}

pub(crate) fn room_of_all(labels: &[Label<'_>]) -> usize {
    let mut all = 0usize;
    for label in labels {
        all = all.saturating_add(room(*label));
    }
    all
}

/// The bytes of labels.
#[tactic(auto, using(crate::proofs::SplitLemmas::flat_more, crate::proofs::SplitLemmas::labels_more, crate::proofs::SplitLemmas::flat_none))]
pub(crate) fn flat_bytes(alloc: Global, labels: &[Label<'_>]) -> Result<Vec<u8>, NoMemory>
    ensures bytes { IfOk result (λ b. b.items ≡ flat (map pair_of labels.now)) }
    ensures labels { OnOk result (AreLabels (map pair_of labels.now)) }
{
    let mut bytes = Vec::with_capacity(alloc, room_of_all(labels))?;
    for label in labels {
        push_label(&mut bytes, *label)?;
    }
    Ok(bytes)
}

/// How many labels lie in bytes.
#[tactic(auto, using(crate::proofs::FlatLemmas::no_labels))]
pub(crate) fn count(bytes: &[u8]) -> usize
    requires { IsFlatSet bytes.now }
    ensures { result ≡ length (labels_of bytes.now) }
{
    let mut rest = bytes;
    let mut labels = 0;
    while !rest.is_empty() {
        let (_, others) = split_first(rest);
        rest = others;
        labels += 1;
    }
    labels
}

/// The bytes of the labels below a name, and those of the labels above it.
pub(crate) fn split_at_name<'a>(bytes: &'a [u8], name: &str) -> (&'a [u8], &'a [u8])
    requires { IsFlatSet bytes.now }
    ensures below { result.0.now ≡ flat (below name.now (labels_of bytes.now)) }
    ensures above { result.1.now ≡ flat (above name.now (labels_of bytes.now)) }
{
    let mut rest = bytes;
    while !rest.is_empty() {
        let (label, others) = split_first(rest);
        match label.name.cmp(name) {
            Ordering::Less => rest = others,
            Ordering::Equal => return (&bytes[..bytes.len() - rest.len()], others),
            Ordering::Greater => return (&bytes[..bytes.len() - rest.len()], rest),
        }
    }
    (bytes, rest)
}

/// Compares the first labels of two runs of bytes, by name and then by value; those of the same bytes are not read.
fn compared_first(left: &[u8], right: &[u8], left_first: &[u8], right_first: &[u8]) -> Ordering
    requires left { IsFlat left.now }
    requires right { IsFlat right.now }
    requires some { 0 < length left.now }
    requires other { 0 < length right.now }
    requires left_label { IsLabel (first_label left.now) }
    requires right_label { IsLabel (first_label right.now) }
    requires left_first { left_first.now ≡ flat_label (first_label left.now) }
    requires right_first { right_first.now ≡ flat_label (first_label right.now) }
    ensures { result ≡ pair_cmp (first_label left.now) (first_label right.now) }
{
    if left_first == right_first {
        return Ordering::Equal;
    }
    let (ours, _) = split_first(left);
    let (theirs, _) = split_first(right);
    ours.name
        .cmp(theirs.name)
        .then(ours.value.cmp(theirs.value))
}

/// Compares labels by name and then by value; labels that go on come later.
#[tactic(auto, using(crate::proofs::FlatLemmas::no_labels))]
pub(crate) fn compared(left: &[u8], right: &[u8]) -> Ordering
    requires left { IsFlat left.now }
    requires right { IsFlat right.now }
    ensures { result ≡ set_cmp (labels_of left.now) (labels_of right.now) }
{
    let mut ours = left;
    let mut theirs = right;
    while !ours.is_empty() {
        if theirs.is_empty() {
            return Ordering::Greater;
        }
        let (our_first, our_others) = split_first_bytes(ours);
        let (their_first, their_others) = split_first_bytes(theirs);
        let order = compared_first(ours, theirs, our_first, their_first);
        if order.is_ne() {
            return order;
        }
        ours = our_others;
        theirs = their_others;
    }
    if theirs.is_empty() {
        Ordering::Equal
    } else {
        Ordering::Less
    }
}
