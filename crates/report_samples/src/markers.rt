//! Stale markers of scraped series.
ghost use Rattle.std.specs.Prelude.{◌≡◌, IfOk};
ghost use Rattle.report_samples.specs.Markers as spec;

use crate::entries::{Entry, Kind};
use label_set::{LabelSet, NoMemory};

/// The stale marker of a set at a moment, appended by a life. The entry shares the labels of the set.
///
/// # Errors
///
/// The only error is out of memory.
pub fn stale_entry(life: u64, moment: i64, set: &LabelSet) -> Result<Entry, NoMemory>
    ensures { IfOk result (λ e. e ≡ spec.stale_entry life moment set.now) }
{
    Ok(Entry {
        life,
        kind: Kind::Stale,
        series: set.copy()?,
        moment,
        value: None,
    })
}
