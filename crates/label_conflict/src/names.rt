//! Labels whose names are looked up.
ghost use Rattle.std.specs.Prelude.{◌≡◌, map, IfOk};
ghost use Rattle.label_set.specs.Borrowed.{pair_of};
ghost use Rattle.label_conflict.specs.Merging.{bears};
ghost use Rattle.label_conflict.specs.Names.{AreNames};

use indexmap::IndexSet;
use label_set::{Label, NoMemory};
use std::alloc::Global;
use std::marker::Model;

/// The names of up to so many labels are looked at one by one; those of more go through a hashed set.
const FEW_LABELS: usize = 16;

/// Labels whose names are looked up. Contracts see the list of the labels.
#[derive(Drop)]
pub struct Names<'l, 'a> {
    labels: &'l [Label<'a>],
    hashed: Option<IndexSet<&'a str>>,
}

impl<'l, 'a> Model for Names<'l, 'a> {
    ghost use Rattle.std.specs.Prelude.{List};
    ghost use Rattle.label_set.specs.declared.texts.Pair.{Pair};

    ghost Value = { List Pair };

    ghost use Rattle.std.specs.Prelude.{map, IfSome};
    ghost use Rattle.label_set.specs.Borrowed.{pair_of};
    ghost use Rattle.label_conflict.specs.Names.{AreNames};

    ghost view = { λ n. map pair_of n.labels.now };

    ghost invariant = { λ n. IfSome n.hashed (λ s. AreNames s.keys (map pair_of n.labels.now)) };
}

/// Whether one of the labels bears a name, where they are few.
fn one_bears(labels: &[Label<'_>], name: &str) -> bool
    ensures { result ≡ bears (map pair_of labels.now) name.now }
{
    for label in labels {
        if label.name == name {
            return true;
        }
    }
    false
}

/// The names of labels, hashed.
fn hashed<'a>(alloc: Global, labels: &[Label<'a>]) -> Result<IndexSet<&'a str>, NoMemory>
    ensures { IfOk result (λ s. AreNames s.keys (map pair_of labels.now)) }
{
    let mut names = IndexSet::new(alloc);
    for label in labels {
        let _ = names.insert(label.name)?;
    }
    Ok(names)
}

impl<'l, 'a> Names<'l, 'a> {
    /// The names of labels.
    pub fn of(alloc: Global, labels: &'l [Label<'a>]) -> Result<Names<'l, 'a>, NoMemory>
        ensures { IfOk result (λ n. n ≡ map pair_of labels.now) }
    {
        if labels.len() <= FEW_LABELS {
            return Ok(Names {
                labels,
                hashed: None,
            });
        }
        Ok(Names {
            labels,
            hashed: Some(hashed(alloc, labels)?),
        })
    }

    /// The labels.
    pub fn labels(&self) -> &[Label<'a>]
        ensures { map pair_of result.now ≡ self.now }
    {
        self.labels
    }

    /// Whether one of the labels bears a name.
    pub fn bear(&self, name: &str) -> bool
        ensures { result ≡ bears self.now name.now }
    {
        match &self.hashed {
            None => one_bears(self.labels, name),
            Some(names) => names.contains(name),
        }
    }
}
