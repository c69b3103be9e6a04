//! One ending.
ghost use Rattle.std.specs.Prelude.{◌≡◌, ◌==◌, IfOk, false};
ghost use Rattle.end_of_run.specs.Endings as spec;

use crate::markers::ending_entries;
use crate::moments::due_from;
use label_set::NoMemory;
use report_samples::{Closing, EntryList};
use std::alloc::Global;
use std::marker::Model;
use value_text::to_number;

/// The ending of a closed life, and whether it was taken. Contracts see it as an `EndingView`.
#[derive(Debug, Drop)]
pub struct Ending {
    closing: Closing,
    taken: bool,
}

impl Model for Ending {
    ghost use Rattle.end_of_run.specs.Endings.{EndingView, IsInLimits};

    ghost Value = { EndingView };

    ghost view = { λ e. record { closing = e.closing; taken = e.taken } };

    ghost invariant = { λ e. IsInLimits e.closing };
}

impl Ending {
    /// The ending of a closed life, not taken so far.
    pub fn new(closing: Closing) -> Ending
        requires { spec.IsInLimits closing }
        ensures { result ≡ spec.untaken closing }
    {
        Ending {
            closing,
            taken: false,
        }
    }

    /// Whether it is that of a life.
    pub fn is_of(&self, life: u64) -> bool
        ensures { result ≡ spec.is_of life self.now }
    {
        self.closing.life == life
    }

    /// Whether it is due at a moment, and was not taken.
    pub fn is_due(&self, moment: i64) -> bool
        ensures { result ≡ spec.is_due moment self.now }
    {
        !self.taken && due_from(&self.closing) <= to_number(moment)
    }

    /// Its entries; none where it was taken.
    pub fn entries(&self, alloc: Global) -> Result<EntryList, NoMemory>
        ensures { IfOk result (λ l. l ≡ spec.entries_left self.now) }
    {
        if self.taken {
            return Ok(EntryList {
                items: Vec::new(alloc),
            });
        }
        ending_entries(alloc, &self.closing)
    }

    /// Takes it, if it is due at a moment and was not taken; the answer says whether it was.
    pub fn take(&mut self, moment: i64) -> bool
        ensures answer { result ≡ spec.is_due moment self.old }
        ensures taken { self.new ≡ spec.swept moment self.old }
    {
        if !self.is_due(moment) {
            return false;
        }
        self.taken = true;
        true
    }
}
