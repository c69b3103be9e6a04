//! Targets of jobs, as a hashed set.
ghost use Rattle.std.specs.Prelude.{◌≡◌, ◌||◌, false, IfOk, OnOk, OnErr, refl};
ghost use Rattle.life_roll.specs.Seats as spec;

use indexmap::IndexSet;
use label_set::{LabelSet, NoMemory};
use std::alloc::Global;

/// A target of a job: the job's number, and the identity of the target.
#[derive(Debug, Drop, PartialEq, Eq, Hash)]
pub struct Seat {
    pub job: u64,
    pub identity: LabelSet,
}

/// Targets of jobs, each once. What a target is named is hashed with a seed.
#[derive(Drop)]
pub struct Seats {
    pub set: IndexSet<Seat>,
}

impl Seat {
    /// The same target of the job once more, which shares the labels.
    pub fn copy(&self) -> Result<Seat, NoMemory>
        ensures { IfOk result (λ s. s ≡ self.now) }
    {
        Ok(Seat {
            job: self.job,
            identity: self.identity.copy()?,
        })
    }
}

impl Seats {
    /// No targets.
    pub fn new(alloc: Global) -> Seats
        ensures { spec.IsSeats result (λ job identity. false) }
    {
        Seats {
            set: IndexSet::new(alloc),
        }
    }

    /// Whether a target of a job is there.
    pub fn has(&self, seat: &Seat) -> bool
        ensures { result ≡ spec.has_seat self.now seat.now.job seat.now.identity }
    {
        self.set.contains(seat)
    }

    /// Puts a target of a job there.
    pub fn put(&mut self, seat: Seat) -> Result<(), NoMemory>
        ensures with { OnOk result (spec.IsWith self.new self.old seat) }
        ensures err { OnErr result (self.new.set.keys ≡ self.old.set.keys) }
    {
        let _ = self.set.insert(seat)?;
        Ok(())
    }
}
