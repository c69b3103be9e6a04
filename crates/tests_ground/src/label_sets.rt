//! Sets with names of any text, which the program makes by other calls.

use crate::holds;
use label_set::sets::{LabelError, LabelSet};
use label_set::{NoMemory, Pair};
use std::alloc::Global;
use std::process::Abort;
use std::test::Fail;

/// The name of the metric, and a label whose name has a quote and a backslash in it; one more came and went.
fn set_of_any(alloc: Global) -> Result<LabelSet, LabelError> {
    let set = LabelSet::empty().with_any(alloc, "__name__", "a.b")?;
    let set = set.with_any(alloc, "c\"\\", "x")?;
    let set = set.with_any(alloc, "gone", "x")?;
    set.with_any(alloc, "gone", "")
}

fn text_of(alloc: Global, set: &LabelSet) -> Result<Vec<u8>, NoMemory> {
    let mut text = Vec::new(alloc);
    set.write_text(alloc, &mut text)?;
    Ok(text)
}

/// Ends the test where a set has another text.
fn is_printed(
    rt: &impl Abort,
    alloc: Global,
    set: &LabelSet,
    wanted: &str,
) -> Result<(), NoMemory> {
    let text = text_of(alloc, set)?;
    holds(rt, text.as_slice() == wanted.as_bytes(), wanted);
    Ok(())
}

/// The texts of the set, and of sets without the name of a metric, which no book has.
fn are_printed(rt: &impl Abort, alloc: Global, set: &LabelSet) -> Result<(), LabelError> {
    is_printed(rt, alloc, set, r#"{"a.b","c\"\\"="x"}"#)?;
    let nameless = set.with_any(alloc, "__name__", "")?;
    is_printed(rt, alloc, &nameless, r#"{"c\"\\"="x"}"#)?;
    is_printed(rt, alloc, &LabelSet::empty(), "{}")?;
    Ok(())
}

/// Whether the copy of a label is that label.
fn is_copied(alloc: Global) -> Result<bool, NoMemory> {
    let pair = Pair::from_strs(alloc, "a", "b")?;
    let copy = pair.copy(alloc)?;
    Ok(copy == pair)
}

/// Ends the test where the set has other labels.
fn has_its_labels(rt: &impl Abort, set: &LabelSet) {
    holds(rt, set.at(0) == Some(("__name__", "a.b")), "the name");
    holds(rt, set.at(1) == Some(("c\"\\", "x")), "the label");
    holds(rt, set.at(2).is_none(), "the label that is gone");
}

#[test]
fn a_set_of_any_names_is_made(rt: HostRuntime) -> Result<(), Fail> {
    let set = set_of_any(rt.alloc())?;
    has_its_labels(&rt, &set);
    holds(&rt, set.copy()?.is_same(&set), "its copy");
    are_printed(&rt, rt.alloc(), &set)?;
    holds(&rt, is_copied(rt.alloc())?, "a copied label");
    let refused = set.with_any(rt.alloc(), "", "x").err();
    holds(&rt, refused == Some(LabelError::BadName), "no name");
    Ok(())
}
