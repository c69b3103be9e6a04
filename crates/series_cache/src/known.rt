//! What is remembered of one raw text.
ghost use Rattle.std.specs.Prelude.{◌≡◌, IfOk};
ghost use Rattle.series_cache.specs.Remembered as spec;

use label_set::{LabelSet, NoMemory};

/// What is known of a raw text.
#[derive(Drop, Debug)]
pub struct Known {
    /// The label set of its series; `None` where a rule dropped it.
    pub set: Option<LabelSet>,
    /// Whether it was shown since the last turn.
    pub shown: bool,
    /// Whether it was shown as tracked since the last turn.
    pub tracked: bool,
    /// Whether it was tracked in the last turn.
    pub was_tracked: bool,
}

/// The set of a series once more, if it has one: it is shared.
///
/// # Errors
///
/// The only error is out of memory.
pub fn shared(series: &Option<LabelSet>) -> Result<Option<LabelSet>, NoMemory>
    ensures { IfOk result (λ s. s ≡ series.now) }
{
    match series {
        None => Ok(None),
        Some(set) => Ok(Some(set.copy()?)),
    }
}

impl Known {
    /// What is known of a text that wasn't shown yet.
    pub(crate) fn fresh(set: Option<LabelSet>) -> Known
        ensures { result ≡ spec.fresh set }
    {
        Known {
            set,
            shown: false,
            tracked: false,
            was_tracked: false,
        }
    }

    /// Notes that the text was shown.
    pub(crate) fn mark(&mut self, tracked: bool)
        ensures { self.new ≡ spec.marked tracked self.old }
    {
        self.shown = true;
        self.tracked |= tracked;
    }

    /// Goes on to the next scrape, after a good one.
    pub(crate) fn carry(&mut self)
        ensures { self.new ≡ spec.carried self.old }
    {
        self.was_tracked = self.tracked;
        self.shown = false;
        self.tracked = false;
    }

    /// Forgets what was shown and tracked, after a failed scrape.
    pub(crate) fn forget(&mut self)
        ensures { self.new ≡ spec.fresh self.old.set }
    {
        self.shown = false;
        self.tracked = false;
        self.was_tracked = false;
    }

    /// Takes back what was shown since the last turn.
    pub(crate) fn unmark(&mut self)
        ensures { self.new ≡ spec.unmarked self.old }
    {
        self.shown = false;
        self.tracked = false;
    }
}
