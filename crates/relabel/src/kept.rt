//! `labelkeep` and `labeldrop`: the labels that stay.
ghost use Rattle.std.specs.Prelude.{◌≡◌, filter, map, IfOk, OnOk};
ghost use Rattle.std.specs.List.{list_all};
ghost use Rattle.label_set.specs.Borrowed.{pair_of};
ghost use Rattle.label_set.specs.Sets.{IsSet};
ghost use Rattle.relabel.specs.Effects.{stays};

use label_set::{Label, LabelSet, NoMemory};
use pattern_rule::Matching;
use std::alloc::Global;

/// Whether a label stays: its name matches, or doesn't.
fn is_kept(
    alloc: Global,
    matching: &mut Matching<'_>,
    keep: bool,
    label: Label<'_>,
) -> Result<bool, NoMemory>
    ensures kept { IfOk result (λ kept. kept ≡ stays keep matching.old (pair_of label.entry)) }
    ensures same { matching.new ≡ matching.old }
{
    let found = matching.full_match(alloc, label.name)?;
    Ok(if keep { found } else { !found })
}

/// Whether all labels stay.
fn all_kept(
    alloc: Global,
    matching: &mut Matching<'_>,
    keep: bool,
    set: &LabelSet,
) -> Result<bool, NoMemory>
    ensures all { IfOk result (λ all. all ≡ list_all (stays keep matching.old) set.now) }
    ensures same { matching.new ≡ matching.old }
{
    for label in set.labels() {
        if !is_kept(alloc, matching, keep, label)? {
            return Ok(false);
        }
    }
    Ok(true)
}

/// The labels that stay.
fn kept_labels<'a>(
    alloc: Global,
    matching: &mut Matching<'_>,
    keep: bool,
    set: &'a LabelSet,
) -> Result<Vec<Label<'a>>, NoMemory>
    ensures labels { IfOk result (λ v. map pair_of v.items ≡ filter (stays keep matching.old) set.now) }
    ensures set { OnOk result (IsSet set.now) }
    ensures same { matching.new ≡ matching.old }
{
    let mut out = Vec::new(alloc);
    for label in set.labels() {
        if is_kept(alloc, matching, keep, label)? {
            out.push(label)?;
        }
    }
    Ok(out)
}

/// The set of the labels whose names match the pattern, or of those whose names don't.
pub fn kept(
    alloc: Global,
    matching: &mut Matching<'_>,
    keep: bool,
    set: LabelSet,
) -> Result<LabelSet, NoMemory>
    ensures labels { IfOk result (λ s. s ≡ filter (stays keep matching.old) set) }
    ensures same { matching.new ≡ matching.old }
{
    if all_kept(alloc, matching, keep, &set)? {
        return Ok(set);
    }
    let labels = kept_labels(alloc, matching, keep, &set)?;
    LabelSet::from_labels(alloc, labels.as_slice())
}
