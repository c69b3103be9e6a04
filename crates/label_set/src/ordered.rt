//! Labels in any order, and those of them that make a set.
ghost use Rattle.std.specs.Prelude.{◌≡◌, map, IfOk};
ghost use Rattle.label_set.specs.Borrowed.{pair_of};
ghost use Rattle.label_set.specs.Lasts as spec;
ghost use Rattle.label_set.specs.Lasts.{lasts, named_first, Encodes};
ghost use Rattle.label_set.specs.Named.{named_pair};

use crate::flat::push_label;
use crate::labels::Label;
use crate::texts::NoMemory;
use std::alloc::Global;
use std::cmp::Ordering;

/// Whether a label has a value, and a name below that of the first of others.
fn leads(label: Label<'_>, others: &[Label<'_>]) -> bool
    ensures { result ≡ spec.leads (pair_of label.entry) (map pair_of others.now) }
{
    if label.value.is_empty() {
        return false;
    }
    match others.first() {
        None => true,
        Some(next) => label.name.cmp(next.name).is_lt(),
    }
}

/// Whether labels are a set as they stand: names rising, no value empty.
#[tactic(auto, using(crate::proofs::OfLemmas::ordered_next))]
pub(crate) fn is_ordered(labels: &[Label<'_>]) -> bool
    ensures { result ≡ spec.is_ordered (map pair_of labels.now) }
{
    for place in 0..labels.len() {
        if !leads(labels[place], &labels[place + 1..]) {
            return false;
        }
    }
    true
}

/// A label that is compared by its name alone.
#[derive(Clone, Copy, Debug)]
pub(crate) struct Named<'a> {
    label: Label<'a>,
}

impl<'a> PartialEq for Named<'a> {
    ghost use Rattle.std.specs.Cmp as Cmp;
    ghost use Rattle.std.specs.Ordering.{eq_by_cmp};
    ghost use Rattle.label_set.specs.Named.{name_cmp, names_total};

    ghost eq = { eq_by_cmp name_cmp };

    ghost laws = { Cmp.partial_equiv_from_equiv (Cmp.eq_by_cmp_equiv names_total) };

    fn eq(&self, other: &Self) -> bool {
        Ord::cmp(self, other).is_eq()
    }
}

impl<'a> Eq for Named<'a> {
    ghost use Rattle.std.specs.Cmp as Cmp;
    ghost use Rattle.label_set.specs.Named.{names_total};

    ghost laws = { Cmp.eq_by_cmp_equiv names_total };
}

impl<'a> PartialOrd for Named<'a> {
    ghost use Rattle.std.specs.Prelude.{Some};
    ghost use Rattle.std.specs.Cmp as Cmp;
    ghost use Rattle.label_set.specs.Named.{name_cmp, names_total};

    ghost partial_cmp = { λ x y. Some (name_cmp x y) };

    ghost laws = { Cmp.partial_order_from_total names_total };

    fn partial_cmp(&self, other: &Self) -> Option<Ordering> {
        Some(Ord::cmp(self, other))
    }
}

impl<'a> Ord for Named<'a> {
    ghost use Rattle.std.specs.Prelude.{refl};
    ghost use Rattle.label_set.specs.Named.{name_cmp, names_total};

    ghost cmp = { name_cmp };

    ghost total = { names_total };

    ghost matches_partial_cmp = { λ x y. refl };

    ghost matches_eq = { λ x y. refl };

    fn cmp(&self, other: &Self) -> Ordering {
        self.label.name.cmp(other.label.name)
    }
}

pub(crate) fn by_name<'a>(alloc: Global, labels: &[Label<'a>]) -> Result<Vec<Named<'a>>, NoMemory>
    ensures { IfOk result (λ v. v.items ≡ map (λ l. record { label = l }) labels.now) }
{
    let mut named = Vec::with_capacity(alloc, labels.len())?;
    for label in labels {
        named.push(Named { label: *label })?;
    }
    Ok(named)
}

/// The bytes of the last label of each name, without those with no value; a room that holds them all is made at once.
pub(crate) fn lasts_bytes(
    alloc: Global,
    room: usize,
    sorted: &[Named<'_>],
) -> Result<Vec<u8>, NoMemory>
    ensures { IfOk result (λ b. Encodes b.items (lasts (map named_pair sorted.now))) }
{
    let mut bytes = Vec::with_capacity(alloc, room)?;
    for place in 0..sorted.len() {
        let label = sorted[place].label;
        if label.value.is_empty() {
            continue;
        }
        if begins_with_name(&sorted[place + 1..], label.name) {
            continue;
        }
        push_label(&mut bytes, label)?;
    }
    Ok(bytes)
}

fn begins_with_name(labels: &[Named<'_>], name: &str) -> bool
    ensures { result ≡ named_first name.now (map named_pair labels.now) }
{
    match labels.first() {
        None => false,
        Some(next) => next.label.name == name,
    }
}
