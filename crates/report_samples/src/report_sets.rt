//! The sets of a target's reports.
ghost use Rattle.std.specs.Prelude.{◌≡◌, pos, ◌≤ℤ◌, false, IfOk, IfSome, ◌++◌};
ghost use Rattle.report_samples.specs.Markers as markers;
ghost use Rattle.report_samples.specs.Reports as spec;

use crate::entries::{Entry, EntryList};
use crate::extra_sets::ExtraSets;
use crate::report_entries::{push_marker, push_report};
use crate::scrape_reports::{ExtraCounts, Report, ReportCounts, report_set, up_value};
use label_set::{LabelSet, NoMemory};
use std::alloc::Global;
use std::marker::Model;
use value_text::ValueText;

/// The labels of a target, and the sets of its reports, which are made once: of the five, and where they were asked for of the three extra ones.
/// Contracts see the labels.
#[derive(Debug, Drop)]
pub struct ReportSets {
    target: LabelSet,
    up: LabelSet,
    duration: LabelSet,
    scraped: LabelSet,
    left: LabelSet,
    added: LabelSet,
    extra: Option<ExtraSets>,
}

impl Model for ReportSets {
    ghost use Rattle.std.specs.Prelude.{◌≡◌, List, IfSome};
    ghost use Rattle.label_set.specs.declared.texts.Pair.{Pair};
    ghost use Rattle.report_samples.specs.Reports.{report_set};
    ghost use Rattle.report_samples.specs.declared.scrape_reports.Report.TheVariants.{Up, Duration, Scraped, Left, Added};

    ghost Value = { List Pair };

    ghost view = { λ s. s.target };

    ghost invariant = { λ s. let set = report_set s.target in
        (s.up ≡ set Up) × (s.duration ≡ set Duration) × (s.scraped ≡ set Scraped) × (s.left ≡ set Left)
        × (s.added ≡ set Added) × IfSome s.extra (λ e. e ≡ s.target) };
}

/// The sets of a target's extra reports, where they are asked for.
fn extra_sets(alloc: Global, target: &LabelSet, extra: bool) -> Result<Option<ExtraSets>, NoMemory>
    ensures { IfOk result (λ o. IfSome o (λ e. e ≡ target.now)) }
{
    if extra {
        Ok(Some(ExtraSets::of(alloc, target)?))
    } else {
        Ok(None)
    }
}

impl ReportSets {
    /// The sets of a target's reports; those of the extra ones are kept where that is asked for, and else made where they are used.
    ///
    /// # Errors
    ///
    /// The only error is out of memory.
    pub fn of(alloc: Global, target: LabelSet, extra: bool) -> Result<ReportSets, NoMemory>
        ensures { IfOk result (λ s. s ≡ target) }
    {
        Ok(ReportSets {
            up: report_set(alloc, &target, Report::Up)?,
            duration: report_set(alloc, &target, Report::Duration)?,
            scraped: report_set(alloc, &target, Report::Scraped)?,
            left: report_set(alloc, &target, Report::Left)?,
            added: report_set(alloc, &target, Report::Added)?,
            extra: extra_sets(alloc, &target, extra)?,
            target,
        })
    }

    /// The labels of the target.
    pub fn target(&self) -> &LabelSet
        ensures { result.now ≡ self.now }
    {
        &self.target
    }

    /// The reports of a scrape of a life that started at a moment, in the order of `Report`: five, and the three extra ones where there are counts for
    /// these. The fetch took 0 milliseconds or more, and so is the timeout; both are written in seconds with three decimals.
    ///
    /// # Errors
    ///
    /// The only error is out of memory.
    pub fn reports(
        &self,
        alloc: Global,
        life: u64,
        moment: i64,
        counts: &ReportCounts,
    ) -> Result<EntryList, NoMemory>
        requires took { pos 0 ≤ℤ counts.now.took }
        requires timeout { IfSome counts.now.extra (λ e. pos 0 ≤ℤ e.timeout) }
        ensures { IfOk result (λ l. l ≡ spec.report_entries life self.now moment counts.now) }
    {
        let mut items = self.first_reports(alloc, life, moment, counts)?;
        if let Some(extra) = &counts.extra {
            self.push_extra(alloc, &mut items, life, moment, extra)?;
        }
        Ok(EntryList { items })
    }

    /// The five reports that each life has.
    fn first_reports(
        &self,
        alloc: Global,
        life: u64,
        moment: i64,
        counts: &ReportCounts,
    ) -> Result<Vec<Entry>, NoMemory>
        requires { pos 0 ≤ℤ counts.now.took }
        ensures { IfOk result (λ v. v.items ≡ spec.first_entries life self.now moment counts.now) }
    {
        let mut items = Vec::with_capacity(alloc, 5)?;
        let up = up_value(alloc, counts.up)?;
        push_report(&mut items, life, moment, &self.up, up)?;
        let took = ValueText::of_millis(alloc, counts.took)?;
        push_report(&mut items, life, moment, &self.duration, took)?;
        let scraped = ValueText::of_count(alloc, counts.scraped)?;
        push_report(&mut items, life, moment, &self.scraped, scraped)?;
        let left = ValueText::of_count(alloc, counts.left)?;
        push_report(&mut items, life, moment, &self.left, left)?;
        let added = ValueText::of_count(alloc, counts.added)?;
        push_report(&mut items, life, moment, &self.added, added)?;
        Ok(items)
    }

    /// Adds the extra reports.
    fn push_extra(
        &self,
        alloc: Global,
        to: &mut Vec<Entry>,
        life: u64,
        moment: i64,
        counts: &ExtraCounts,
    ) -> Result<(), NoMemory>
        requires { pos 0 ≤ℤ counts.now.timeout }
        ensures { IfOk result (λ _. to.new.items ≡ to.old.items ++ spec.extra_entries life self.now moment counts.now) }
    {
        match &self.extra {
            Some(sets) => sets.push_reports(alloc, to, life, moment, counts)?,
            None => {
                let sets = ExtraSets::of(alloc, &self.target)?;
                sets.push_reports(alloc, to, life, moment, counts)?;
            }
        }
        Ok(())
    }

    /// The stale markers of the reports of a life at a moment, in the order of `Report`: of five, and where it has them of the three extra ones.
    ///
    /// # Errors
    ///
    /// The only error is out of memory.
    pub fn markers(
        &self,
        alloc: Global,
        life: u64,
        moment: i64,
        extra: bool,
    ) -> Result<EntryList, NoMemory>
        ensures { IfOk result (λ l. l ≡ markers.report_markers life self.now extra moment) }
    {
        let mut items = self.first_markers(alloc, life, moment)?;
        if extra {
            self.push_extra_markers(alloc, &mut items, life, moment)?;
        }
        Ok(EntryList { items })
    }

    /// Those of the five reports that each life has.
    fn first_markers(&self, alloc: Global, life: u64, moment: i64) -> Result<Vec<Entry>, NoMemory>
        ensures { IfOk result (λ v. v.items ≡ markers.report_markers life self.now false moment) }
    {
        let mut items = Vec::with_capacity(alloc, 5)?;
        push_marker(&mut items, life, moment, &self.up)?;
        push_marker(&mut items, life, moment, &self.duration)?;
        push_marker(&mut items, life, moment, &self.scraped)?;
        push_marker(&mut items, life, moment, &self.left)?;
        push_marker(&mut items, life, moment, &self.added)?;
        Ok(items)
    }

    /// Adds those of the extra ones.
    fn push_extra_markers(
        &self,
        alloc: Global,
        to: &mut Vec<Entry>,
        life: u64,
        moment: i64,
    ) -> Result<(), NoMemory>
        ensures { IfOk result (λ _. to.new.items ≡ to.old.items ++ markers.extra_markers life self.now moment) }
    {
        match &self.extra {
            Some(sets) => sets.push_markers(to, life, moment)?,
            None => {
                let sets = ExtraSets::of(alloc, &self.target)?;
                sets.push_markers(to, life, moment)?;
            }
        }
        Ok(())
    }
}
