//! The sets of a target's extra reports.
ghost use Rattle.std.specs.Prelude.{◌≡◌, pos, ◌≤ℤ◌, IfOk, ◌++◌};
ghost use Rattle.report_samples.specs.Markers as markers;
ghost use Rattle.report_samples.specs.Reports as spec;

use crate::entries::Entry;
use crate::report_entries::{push_marker, push_report};
use crate::scrape_reports::{ExtraCounts, Report, report_set, size_value};
use label_set::{LabelSet, NoMemory};
use std::alloc::Global;
use std::marker::Model;
use value_text::ValueText;

/// The labels of a target, and the sets of its three extra reports, which are made once. Contracts see the labels.
#[derive(Debug, Drop)]
pub(crate) struct ExtraSets {
    target: LabelSet,
    timeout: LabelSet,
    limit: LabelSet,
    size: LabelSet,
}

impl Model for ExtraSets {
    ghost use Rattle.std.specs.Prelude.{◌≡◌, List};
    ghost use Rattle.label_set.specs.declared.texts.Pair.{Pair};
    ghost use Rattle.report_samples.specs.Reports.{report_set};
    ghost use Rattle.report_samples.specs.declared.scrape_reports.Report.TheVariants.{Timeout, SampleLimit, BodySize};

    ghost Value = { List Pair };

    ghost view = { λ s. s.target };

    ghost invariant = { λ s. let set = report_set s.target in (s.timeout ≡ set Timeout) × (s.limit ≡ set SampleLimit) × (s.size ≡ set BodySize) };
}

impl ExtraSets {
    /// The sets of a target's extra reports.
    ///
    /// # Errors
    ///
    /// The only error is out of memory.
    pub fn of(alloc: Global, target: &LabelSet) -> Result<ExtraSets, NoMemory>
        ensures { IfOk result (λ s. s ≡ target.now) }
    {
        Ok(ExtraSets {
            target: target.copy()?,
            timeout: report_set(alloc, target, Report::Timeout)?,
            limit: report_set(alloc, target, Report::SampleLimit)?,
            size: report_set(alloc, target, Report::BodySize)?,
        })
    }

    /// Adds the extra reports of a scrape that started at a moment, in the order of `Report`. The timeout is 0 milliseconds or more.
    ///
    /// # Errors
    ///
    /// The only error is out of memory.
    pub fn push_reports(
        &self,
        alloc: Global,
        to: &mut Vec<Entry>,
        life: u64,
        moment: i64,
        counts: &ExtraCounts,
    ) -> Result<(), NoMemory>
        requires { pos 0 ≤ℤ counts.now.timeout }
        ensures { IfOk result (λ _. to.new.items ≡ to.old.items ++ spec.extra_entries life self.now moment counts.now) }
    {
        let timeout = ValueText::of_millis(alloc, counts.timeout)?;
        push_report(to, life, moment, &self.timeout, timeout)?;
        let limit = ValueText::of_count(alloc, counts.limit)?;
        push_report(to, life, moment, &self.limit, limit)?;
        let size = size_value(alloc, counts.size)?;
        push_report(to, life, moment, &self.size, size)?;
        Ok(())
    }

    /// Adds the stale markers of the extra reports at a moment, in the order of `Report`.
    ///
    /// # Errors
    ///
    /// The only error is out of memory.
    pub fn push_markers(&self, to: &mut Vec<Entry>, life: u64, moment: i64) -> Result<(), NoMemory>
        ensures { IfOk result (λ _. to.new.items ≡ to.old.items ++ markers.extra_markers life self.now moment) }
    {
        push_marker(to, life, moment, &self.timeout)?;
        push_marker(to, life, moment, &self.limit)?;
        push_marker(to, life, moment, &self.size)?;
        Ok(())
    }
}
