//! The labels of a target, borrowed to the lines of a body.
ghost use Rattle.std.specs.Prelude.{◌≡◌, map, length, IfOk};
ghost use Rattle.label_set.specs.Borrowed.{pair_of};
ghost use Rattle.label_set.specs.Sets.{IsSet};
ghost use Rattle.label_conflict.specs.Merging.{bears};

use crate::gather::push_all;
use crate::names::Names;
use label_set::{Label, LabelSet, NoMemory};
use std::alloc::Global;
use std::marker::Model;

/// The labels of a target, looked up by name: made once for all lines of a body. Contracts see the list of its labels.
#[derive(Drop)]
pub struct BorrowedTarget<'l, 'a> {
    names: Names<'l, 'a>,
}

impl<'l, 'a> Model for BorrowedTarget<'l, 'a> {
    ghost use Rattle.std.specs.Prelude.{List};
    ghost use Rattle.label_set.specs.declared.texts.Pair.{Pair};

    ghost Value = { List Pair };

    ghost use Rattle.label_set.specs.Sets.{IsSet};

    ghost view = { λ t. t.names };

    ghost invariant = { λ t. IsSet t.names };
}

/// The labels of a set, borrowed.
///
/// # Errors
///
/// The only error is out of memory.
pub fn labels_in<'a>(alloc: Global, set: &'a LabelSet) -> Result<Vec<Label<'a>>, NoMemory>
    ensures labels { IfOk result (λ v. map pair_of v.items ≡ set.now) }
    ensures set { IfOk result (λ v. IsSet (map pair_of v.items)) }
{
    let mut labels = Vec::with_capacity(alloc, set.len())?;
    push_all(&mut labels, set)?;
    Ok(labels)
}

impl<'l, 'a> BorrowedTarget<'l, 'a> {
    /// A target with these labels, which are a set.
    ///
    /// # Errors
    ///
    /// The only error is out of memory; where the labels are few, none is taken.
    pub fn of(alloc: Global, labels: &'l [Label<'a>]) -> Result<BorrowedTarget<'l, 'a>, NoMemory>
        requires { IsSet (map pair_of labels.now) }
        ensures { IfOk result (λ t. t ≡ map pair_of labels.now) }
    {
        Ok(BorrowedTarget {
            names: Names::of(alloc, labels)?,
        })
    }

    /// Its labels by name.
    pub fn names(&self) -> &Names<'l, 'a>
        ensures names { result.now ≡ self.now }
        ensures set { IsSet self.now }
    {
        &self.names
    }
}
