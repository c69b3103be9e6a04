//! What is wanted of targets, looked up by hash.
ghost use Rattle.std.specs.Prelude.{◌≡◌, None, Some, IfOk, OnOk, if◌then◌else◌};
ghost use Rattle.std.specs.Option.{option_or, option_copied};
ghost use Rattle.value_text.specs.Numbers.{number};
ghost use Rattle.life_roll.specs.Wants as spec;

use crate::moments::Interval;
use crate::seats::Seat;
use indexmap::IndexMap;
use label_set::{LabelSet, NoMemory};
use std::alloc::Global;
use value_text::to_number;

/// That a target of a job is to be scraped: its identity, how the settings of its job stand to the earlier ones, and the interval.
#[derive(Debug, Drop)]
pub struct Wanted {
    pub job: u64,
    pub identity: LabelSet,
    /// Whether the settings are the earlier ones.
    pub same: bool,
    /// Whether a life that began under the earlier settings may go on under these.
    pub compatible: bool,
    /// The scrape interval in milliseconds.
    pub interval: i64,
}

/// The terms on which a target is wanted.
#[derive(Clone, Copy, Debug)]
pub struct Terms {
    pub same: bool,
    pub compatible: bool,
    pub interval: Interval,
}

/// The terms on which targets are wanted. What a target is named is hashed with a seed.
#[derive(Drop)]
pub struct Wishes {
    pub map: IndexMap<Seat, Terms>,
}

impl Wanted {
    /// The target that is wanted.
    pub fn seat(&self) -> Result<Seat, NoMemory>
        ensures { IfOk result (λ s. s ≡ spec.seat_of self.now) }
    {
        Ok(Seat {
            job: self.job,
            identity: self.identity.copy()?,
        })
    }

    /// The scrape interval.
    pub fn interval(&self) -> Interval
        requires { spec.HasInterval self.now }
        ensures { result ≡ number self.now.interval }
    {
        Interval::new(to_number(self.interval))
    }

    /// The terms.
    pub fn terms(&self) -> Terms
        requires { spec.HasInterval self.now }
        ensures { result ≡ spec.terms_of self.now }
    {
        Terms {
            same: self.same,
            compatible: self.compatible,
            interval: self.interval(),
        }
    }
}

impl Wishes {
    /// The terms on which targets are wanted; the first of a target stand.
    pub fn of(alloc: Global, wanted: &[Wanted]) -> Result<Wishes, NoMemory>
        requires { spec.HaveIntervals wanted.now }
        ensures { IfOk result (λ wishes. spec.AreWishes wishes wanted.now) }
    {
        let mut wishes = Wishes {
            map: IndexMap::new(alloc),
        };
        for entry in wanted {
            wishes.put(entry.seat()?, entry.terms())?;
        }
        Ok(wishes)
    }

    /// The terms on which a target is wanted, if it is.
    pub fn get(&self, seat: &Seat) -> Option<Terms>
        ensures { result ≡ spec.found self.now seat.now }
    {
        self.map.get(seat).copied()
    }

    /// Notes the terms of a target that has none.
    fn put(&mut self, seat: Seat, terms: Terms) -> Result<(), NoMemory>
        ensures { OnOk result (spec.IsWithTerms self.new self.old seat terms) }
    {
        if !self.map.contains_key(&seat) {
            let _ = self.map.insert(seat, terms)?;
        }
        Ok(())
    }
}
