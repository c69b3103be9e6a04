//! Labels that lie in bytes, one after another.
ghost use Rattle.std.specs.Prelude.{◌≡◌, ◌<◌, ◌≤◌, ◌∷◌, ◌++◌, length, map, IfOk};
ghost use Rattle.std.specs.Str.{IsUtf8};
ghost use Rattle.label_set.specs.Flat.{name_len, value_len, labels_of, first_label, flat_label, IsLabel, IsFlat};
ghost use Rattle.label_set.specs.Borrowed.{pair_of};

use crate::texts::{NoMemory, Pair};
use std::alloc::Global;
use std::marker::Model;

/// A label that is borrowed: its name and its value.
#[derive(Clone, Copy, Debug)]
pub struct Label<'a> {
    pub name: &'a str,
    pub value: &'a str,
}

impl Pair {
    /// The label, borrowed.
    pub fn label(&self) -> Label<'_>
        ensures { pair_of result ≡ self.now }
    {
        Label {
            name: self.name.as_str(),
            value: self.value.as_str(),
        }
    }
}

/// Labels borrowed of those that are owned.
pub fn borrowed(alloc: Global, pairs: &[Pair]) -> Result<Vec<Label<'_>>, NoMemory>
    ensures { IfOk result (λ v. map pair_of v.items ≡ pairs.now) }
{
    let mut labels = Vec::with_capacity(alloc, pairs.len())?;
    for pair in pairs {
        labels.push(pair.label())?;
    }
    Ok(labels)
}

/// The labels that are left. Contracts see the list of them.
#[derive(Drop)]
pub struct Labels<'a> {
    pub(crate) rest: &'a [u8],
}

impl<'a> Model for Labels<'a> {
    ghost use Rattle.std.specs.Prelude.{List};
    ghost use Rattle.label_set.specs.declared.texts.Pair.{Pair};

    ghost Value = { List Pair };

    ghost use Rattle.label_set.specs.Flat.{labels_of, IsFlat};

    ghost view = { λ l. labels_of l.rest.now };

    ghost invariant = { λ l. IsFlat l.rest.now };
}

/// The lengths of the first label's name and value.
#[tactic(auto, unfolding(crate::specs::Flat::name_len, crate::specs::Flat::value_len))]
fn lengths(bytes: &[u8]) -> (usize, usize)
    requires { 8 ≤ length bytes.now }
    ensures name { result.0 ≡ name_len bytes.now }
    ensures value { result.1 ≡ value_len bytes.now }
{
    let head = u64::from_le_bytes([
        bytes[0], bytes[1], bytes[2], bytes[3], bytes[4], bytes[5], bytes[6], bytes[7],
    ]);
    ((head % 4294967296) as usize, (head / 4294967296) as usize)
}

fn text(bytes: &[u8]) -> &str
    requires { IsUtf8 bytes.now }
    ensures { result.now ≡ bytes.now }
{
    unsafe { std::str::from_utf8_unchecked(bytes) }
}

/// The first label, and the bytes of the others.
pub(crate) fn split_first(bytes: &[u8]) -> (Label<'_>, &[u8])
    requires flat { IsFlat bytes.now }
    requires some { 0 < length bytes.now }
    ensures labels { labels_of bytes.now ≡ pair_of result.0 ∷ labels_of result.1.now }
    ensures first { pair_of result.0 ≡ first_label bytes.now }
    ensures flat { IsFlat result.1.now }
    ensures bytes { bytes.now ≡ flat_label (pair_of result.0) ++ result.1.now }
    ensures shorter { length result.1.now < length bytes.now }
{
    let (name_len, value_len) = lengths(bytes);
    let (_, rest) = bytes.split_at(8);
    let (name, rest) = rest.split_at(name_len);
    let (value, rest) = rest.split_at(value_len);
    (
        Label {
            name: text(name),
            value: text(value),
        },
        rest,
    )
}

/// The bytes of the first label, head and texts, and the bytes of the others.
pub(crate) fn split_first_bytes(bytes: &[u8]) -> (&[u8], &[u8])
    requires flat { IsFlat bytes.now }
    requires some { 0 < length bytes.now }
    ensures first { result.0.now ≡ flat_label (first_label bytes.now) }
    ensures label { IsLabel (first_label bytes.now) }
    ensures labels { labels_of bytes.now ≡ first_label bytes.now ∷ labels_of result.1.now }
    ensures flat { IsFlat result.1.now }
    ensures shorter { length result.1.now < length bytes.now }
{
    let (name_len, value_len) = lengths(bytes);
    bytes.split_at(8 + name_len + value_len)
}

impl<'a> Iterator for Labels<'a> {
    ghost use Rattle.std.specs.Iterator.{YieldsFirstBy, item_count};
    ghost use Rattle.label_set.specs.Borrowed.{pair_of};

    type Item = Label<'a>;

    ghost next_gives = { YieldsFirstBy pair_of (λ rest. rest) };

    ghost remaining = { item_count (λ rest. rest) };

    fn next(&mut self) -> Option<Label<'a>> {
        if self.rest.is_empty() {
            return None;
        }
        let (label, rest) = split_first(self.rest);
        self.rest = rest;
        Some(label)
    }
}

impl<'a> Labels<'a> {
    ghost use Rattle.std.specs.Prelude.{◌≡◌, option_map, slice_get};
    ghost use Rattle.label_set.specs.Sets.{value_of};
    ghost use Rattle.label_set.specs.Borrowed.{pair_of};

    /// The same labels once more.
    pub fn again(&self) -> Labels<'a>
        ensures { result ≡ self.now }
    {
        Labels { rest: self.rest }
    }

    /// The value of the first label with a name.
    pub fn value_of(self, name: &str) -> Option<&'a str>
        ensures { option_map (λ v. v.now) result ≡ value_of self.entry name.now }
    {
        for label in self {
            if label.name == name {
                return Some(label.value);
            }
        }
        None
    }

    /// The label at a place, counted from 0.
    pub fn at(self, place: usize) -> Option<Label<'a>>
        ensures { option_map pair_of result ≡ slice_get self.entry place }
    {
        let mut left = place;
        for label in self {
            if left == 0 {
                return Some(label);
            }
            left -= 1;
        }
        None
    }
}
