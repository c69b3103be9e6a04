//! Labels of lines and targets that bear the same name, copied ones. The cases show them where they are borrowed.

use crate::shared::{are_bytes, set_of};
use expo_reader::read_body;
use label_conflict::merge;
use label_set::{Blob, LabelSet, NoMemory};
use sample_rows::left::is_named;
use std::alloc::Global;
use std::process::Abort;

/// The labels of the target, whether the line `x{job="a"} 1` is honoured, and the set under a metric name.
const ROWS: &[(&str, &str, bool, &str)] = &[
    (
        "x",
        "instance=a:1 job=j",
        true,
        "x{instance=\"a:1\",job=\"a\"}",
    ),
    (
        "x",
        "exported_job=k job=j",
        false,
        "x{exported_exported_job=\"a\",exported_job=\"k\",job=\"j\"}",
    ),
    ("", "job=j", false, "{exported_job=\"a\",job=\"j\"}"),
];

/// The labels of that line under a metric name, joined with those of a target.
fn joined(alloc: Global, name: &str, target: &LabelSet, honor: bool) -> Result<LabelSet, NoMemory> {
    let Ok(body) = read_body(alloc, Blob::from_slice(alloc, b"x{job=\"a\"} 1")?) else {
        return Err(NoMemory);
    };
    if body.len() == 0 || is_named(target) {
        return Err(NoMemory);
    }
    let row = body.row(0).copied(alloc)?;
    merge(alloc, name, row.labels.as_slice(), target, honor)
}

pub(crate) fn lines_are_joined(rt: &impl Abort, alloc: Global) -> Result<(), NoMemory> {
    for &(name, labels, honor, wanted) in ROWS {
        let set = joined(alloc, name, &set_of(alloc, labels)?, honor)?;
        let mut text = Vec::new(alloc);
        set.append_text(&mut text)?;
        are_bytes(rt, &text, wanted.as_bytes());
    }
    Ok(())
}
