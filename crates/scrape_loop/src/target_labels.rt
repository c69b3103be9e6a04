//! Labels of targets.
ghost use Rattle.std.specs.Prelude.{◌≡◌, false, IfOk};
ghost use Rattle.label_conflict.specs.Merging.{bears};
ghost use Rattle.label_set.specs.SetText.{metric_label};

use label_set::{LabelSet, NoMemory};
use report_samples::ReportSets;
use std::alloc::Global;
use std::marker::Model;

/// The labels of a target, which have no `__name__`, with the sets of its reports; seen as the list of the labels.
#[derive(Debug, Drop)]
pub struct TargetLabels {
    sets: ReportSets,
}

impl Model for TargetLabels {
    ghost use Rattle.std.specs.Prelude.{◌≡◌, List, false};
    ghost use Rattle.label_set.specs.declared.texts.Pair.{Pair};
    ghost use Rattle.label_set.specs.SetText.{metric_label};
    ghost use Rattle.label_conflict.specs.Merging.{bears};

    ghost Value = { List Pair };

    ghost view = { λ t. t.sets };

    ghost invariant = { λ t. bears t.sets metric_label ≡ false };
}

impl TargetLabels {
    /// The labels of a set without `__name__`, and whether the extra reports are wanted.
    pub fn of(alloc: Global, set: LabelSet, extra: bool) -> Result<TargetLabels, NoMemory>
        requires { bears set metric_label ≡ false }
        ensures { IfOk result (λ t. t ≡ set) }
    {
        Ok(TargetLabels {
            sets: ReportSets::of(alloc, set, extra)?,
        })
    }

    /// The set of the labels.
    pub fn set(&self) -> &LabelSet
        ensures value { result.now ≡ self.now }
        ensures nameless { bears self.now metric_label ≡ false }
    {
        self.sets.target()
    }

    /// The sets of the reports.
    pub fn report_sets(&self) -> &ReportSets
        ensures { result.now ≡ self.now }
    {
        &self.sets
    }
}
