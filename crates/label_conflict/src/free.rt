//! Names that no label bears yet.
ghost use Rattle.std.specs.Prelude.{◌≡◌, ◌++◌, ℕ, List, IfOk, Some};
ghost use Rattle.label_set.specs.declared.texts.Pair.{Pair};
ghost use Rattle.label_conflict.specs.Merging as spec;
ghost use Rattle.label_conflict.specs.Merging.{bears, exported};
ghost use Rattle.label_conflict.specs.Laws.{HasFreeName};
ghost use Rattle.label_conflict.specs.Names.{bare};

use crate::names::Names;
use indexmap::IndexSet;
use label_set::{Name, NoMemory};
use std::alloc::Global;

/// Whether one of the labels, or one that was renamed, bears a name.
fn is_taken(labels: &Names<'_, '_>, renamed: &IndexSet<Name>, name: &Name) -> bool
    ensures { result ≡ bears (labels.now ++ bare renamed.now.keys) name.now }
{
    labels.bear(name.as_str()) || renamed.contains(name)
}

/// A name with `exported_` in front of it.
fn exported_name(alloc: Global, name: &str) -> Result<Name, NoMemory>
    ensures { IfOk result (λ n. n ≡ exported name.now) }
{
    let mut text = String::from_str(alloc, "exported_")?;
    text.push_str(name)?;
    Ok(Name { text })
}

/// The first of `exported_` in front of a name once, twice, .. that no label bears, nor one that was renamed.
pub fn free_name(
    alloc: Global,
    labels: &Names<'_, '_>,
    renamed: &IndexSet<Name>,
    name: &str,
) -> Result<Name, NoMemory>
    ensures { IfOk result (λ n. spec.free_name (labels.now ++ bare renamed.now.keys) name.now ≡ Some n) }
{
    let mut free = exported_name(alloc, name)?;
    while is_taken(labels, renamed, &free) {
        free = exported_name(alloc, free.as_str())?;
    }
    Ok(free)
}

/// Among any labels, any name gets a free name by as many prefixes as there are labels and one more. The call does nothing: its contract
/// is the law.
pub fn always_free()
    ensures { (labels : List Pair) (name : List ℕ) → HasFreeName labels name }
{}
