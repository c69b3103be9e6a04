//! Labels of a line joined with those of its target.
ghost use Rattle.std.specs.Prelude.{◌≡◌, ◌++◌, [], map, false, true, IfOk};
ghost use Rattle.std.specs.List.{IsDistinct};
ghost use Rattle.std.specs.Str.{bytes_eq};
ghost use Rattle.label_set.specs.Borrowed.{pair_of};
ghost use Rattle.label_set.specs.SetText.{metric_label};
ghost use Rattle.label_conflict.specs.Merging.{bears, names_of, name_label, apart_from, settled, joined, merged};
ghost use Rattle.label_set.specs.Lasts.{with_labels};

use crate::gather::{
    conflicts, new_names, push_apart, push_list, push_name, push_valued, renamed, sort_by_name,
};
use crate::names::Names;
use crate::target::{BorrowedTarget, labels_in};
use label_set::{Label, LabelSet, NoMemory, Pair, borrowed};
use std::alloc::Global;

/// Room for the labels of a line and a target, and the metric name.
fn room_for(exposed: &[Label<'_>], target: &[Label<'_>]) -> usize {
    exposed.len().saturating_add(target.len()).saturating_add(1)
}

/// The metric name, the labels of the line, and those of the target whose names it doesn't expose.
fn honored<'a>(
    alloc: Global,
    name: &'a str,
    exposed: &[Label<'a>],
    target: &[Label<'a>],
) -> Result<Vec<Label<'a>>, NoMemory>
    ensures { IfOk result (λ v. map pair_of v.items ≡ joined name.now (map pair_of exposed.now) (map pair_of target.now) true) }
{
    let mut labels = Vec::with_capacity(alloc, room_for(exposed, target))?;
    push_name(&mut labels, name)?;
    push_valued(&mut labels, exposed)?;
    push_apart(&mut labels, target, &Names::of(alloc, exposed)?)?;
    Ok(labels)
}

/// The metric name, the labels of the line whose names the target doesn't bear, and those of the target.
fn without_conflicts<'a>(
    alloc: Global,
    name: &'a str,
    exposed: &[Label<'a>],
    target: &Names<'_, 'a>,
) -> Result<Vec<Label<'a>>, NoMemory>
    ensures { IfOk result (λ v. map pair_of v.items
        ≡ name_label name.now ++ (apart_from target.now (map pair_of exposed.now) ++ target.now)) }
{
    let mut labels = Vec::with_capacity(alloc, room_for(exposed, target.labels()))?;
    push_name(&mut labels, name)?;
    push_apart(&mut labels, exposed, target)?;
    push_list(&mut labels, target.labels())?;
    Ok(labels)
}

/// The set of labels and of conflicts, each under a name that is free by then.
fn settled_set(
    alloc: Global,
    labels: &[Label<'_>],
    conflicts: &[Label<'_>],
) -> Result<LabelSet, NoMemory>
    ensures { IfOk result (λ s. s ≡ with_labels [] (settled (map pair_of conflicts.now) (map pair_of labels.now))) }
{
    let set = LabelSet::of(alloc, labels)?;
    let names = new_names(alloc, &Names::of(alloc, labels)?, conflicts)?;
    let given = renamed(alloc, names.as_slice(), conflicts)?;
    set.with_all(alloc, given.as_slice())
}

/// The set of the labels of a sample: those that its line exposes, with the metric name as the value of `__name__`, and those of its
/// target. A label with an empty value is no label of the set, and an empty metric name gives no `__name__`.
///
/// With `honor` each label of the target comes in whose name the line doesn't expose; a label that is exposed with an empty value keeps
/// the target's out too. Without `honor` each label of the target comes in, and an exposed label with a value and the same name gets
/// `exported_` in front of its name, once or more, up to the first name that no label bears by then. Such conflicts are settled by rising
/// length of the name in bytes, and then by name.
///
/// The source is "Configuration" of the Prometheus documentation, scrape_config, `honor_labels`.
///
/// # Errors
///
/// The only error is out of memory, and what was borrowed stays as it was.
///
/// # Example
///
/// A line `x{job="a"} 1` of a target `{job="j"}` gives `x{exported_job="a",job="j"}`, and with `honor` `x{job="a"}`.
pub fn merge(
    alloc: Global,
    name: &str,
    exposed: &[Pair],
    target: &LabelSet,
    honor: bool,
) -> Result<LabelSet, NoMemory>
    requires names_differ { IsDistinct bytes_eq (names_of exposed.now) }
    requires no_name_exposed { bears exposed.now metric_label ≡ false }
    requires no_name_in_target { bears target.now metric_label ≡ false }
    ensures merged { IfOk result (λ s. s ≡ merged name.now exposed.now target.now honor) }
{
    let exposed = borrowed(alloc, exposed)?;
    let labels = labels_in(alloc, target)?;
    let target = BorrowedTarget::of(alloc, labels.as_slice())?;
    merge_borrowed(alloc, name, exposed.as_slice(), &target, honor)
}

/// The set that `merge` gives, of exposed labels and a target that are borrowed.
///
/// # Errors
///
/// The only error is out of memory.
pub fn merge_borrowed<'a>(
    alloc: Global,
    name: &'a str,
    exposed: &[Label<'a>],
    target: &BorrowedTarget<'_, 'a>,
    honor: bool,
) -> Result<LabelSet, NoMemory>
    requires names_differ { IsDistinct bytes_eq (names_of (map pair_of exposed.now)) }
    requires no_name_exposed { bears (map pair_of exposed.now) metric_label ≡ false }
    requires no_name_in_target { bears target.now metric_label ≡ false }
    ensures merged { IfOk result (λ s. s ≡ merged name.now (map pair_of exposed.now) target.now honor) }
{
    let borne = target.names();
    if honor {
        let mut labels = honored(alloc, name, exposed, borne.labels())?;
        sort_by_name(&mut labels);
        return LabelSet::from_labels(alloc, labels.as_slice());
    }
    let found = conflicts(alloc, exposed, borne)?;
    let mut labels = without_conflicts(alloc, name, exposed, borne)?;
    if found.is_empty() {
        sort_by_name(&mut labels);
        return LabelSet::from_labels(alloc, labels.as_slice());
    }
    settled_set(alloc, labels.as_slice(), found.as_slice())
}
