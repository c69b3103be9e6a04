//! The entries of the series of reports.
ghost use Rattle.std.specs.Prelude.{◌≡◌, [], ◌∷◌, ◌++◌, IfOk};
ghost use Rattle.report_samples.specs.Markers as markers;
ghost use Rattle.report_samples.specs.Reports as spec;

use crate::entries::{Entry, Kind};
use label_set::{LabelSet, NoMemory};
use value_text::ValueText;

/// A report sample with its value, of a series with this set.
fn report_at(life: u64, moment: i64, set: &LabelSet, value: ValueText) -> Result<Entry, NoMemory>
    ensures { IfOk result (λ e. e ≡ spec.report_at life set.now moment value) }
{
    Ok(Entry {
        life,
        kind: Kind::Report,
        series: set.copy()?,
        moment,
        value: Some(value),
    })
}

/// Adds a report sample with its value, of a series with this set.
pub(crate) fn push_report(
    to: &mut Vec<Entry>,
    life: u64,
    moment: i64,
    set: &LabelSet,
    value: ValueText,
) -> Result<(), NoMemory>
    ensures { IfOk result (λ _. to.new.items ≡ to.old.items ++ (spec.report_at life set.now moment value ∷ [])) }
{
    to.push(report_at(life, moment, set, value)?)?;
    Ok(())
}

/// The stale marker of a report's series with this set.
fn marker_of(life: u64, moment: i64, set: &LabelSet) -> Result<Entry, NoMemory>
    ensures { IfOk result (λ e. e ≡ markers.marker_of life set.now moment) }
{
    Ok(Entry {
        life,
        kind: Kind::ReportStale,
        series: set.copy()?,
        moment,
        value: None,
    })
}

/// Adds the stale marker of a report's series with this set.
pub(crate) fn push_marker(
    to: &mut Vec<Entry>,
    life: u64,
    moment: i64,
    set: &LabelSet,
) -> Result<(), NoMemory>
    ensures { IfOk result (λ _. to.new.items ≡ to.old.items ++ (markers.marker_of life set.now moment ∷ [])) }
{
    to.push(marker_of(life, moment, set)?)?;
    Ok(())
}
