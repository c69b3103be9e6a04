//! Moments and intervals with their limits.
ghost use Rattle.std.specs.Prelude.{◌≡◌, ◌≤◌, ◌<◌, ◌+◌, ◌^◌, pos, min, max};
ghost use Rattle.journal_text.specs.Lines.{IsMoment, number};
ghost use Rattle.life_roll.specs.Schedules as spec;

use std::marker::Model;

/// A moment of an event, from 0 to 2^52 - 1 milliseconds; seen as that number.
#[derive(Clone, Copy, Debug)]
pub struct Moment {
    ms: i64,
}

impl Model for Moment {
    ghost use Rattle.std.specs.Prelude.{ℤ};
    ghost use Rattle.journal_text.specs.Lines.{IsMoment};

    ghost Value = { ℤ };

    ghost view = { λ m. m.ms };

    ghost inverse = { λ m. record { ms = m } };

    ghost invariant = { λ m. IsMoment m.ms };
}

impl Moment {
    /// The moment of so many milliseconds.
    pub fn new(ms: i64) -> Moment
        requires { IsMoment ms }
        ensures { result ≡ ms }
    {
        Moment { ms }
    }

    /// The milliseconds.
    pub fn ms(&self) -> i64
        ensures value { result ≡ self.now }
        ensures limits { IsMoment result }
    {
        self.ms
    }

    /// The milliseconds as a number that has no sign.
    pub fn number(&self) -> u64
        ensures value { result ≡ number self.now }
        ensures small { result < 2 ^ 52 }
    {
        self.ms as u64
    }
}

/// A scrape interval, from 1 to 2^40 milliseconds; seen as that number.
#[derive(Clone, Copy, Debug)]
pub struct Interval {
    ms: u64,
}

impl Model for Interval {
    ghost use Rattle.std.specs.Prelude.{ℕ, ◌≤◌, ◌^◌};

    ghost Value = { ℕ };

    ghost view = { λ i. i.ms };

    ghost inverse = { λ i. record { ms = i } };

    ghost invariant = { λ i. (1 ≤ i.ms) × (i.ms ≤ 2 ^ 40) };
}

impl Interval {
    /// The interval of so many milliseconds.
    pub fn new(ms: u64) -> Interval
        requires some { 1 ≤ ms }
        requires short { ms ≤ 2 ^ 40 }
        ensures { result ≡ ms }
    {
        Interval { ms }
    }

    /// The milliseconds.
    pub fn ms(&self) -> u64
        ensures value { result ≡ self.now }
        ensures some { 1 ≤ result }
        ensures short { result ≤ 2 ^ 40 }
    {
        self.ms
    }
}

/// The moment of a planned scrape, at most 2^53 milliseconds; seen as that number.
#[derive(Clone, Copy, Debug)]
pub struct Planned {
    ms: u64,
}

impl Model for Planned {
    ghost use Rattle.std.specs.Prelude.{ℕ, ◌≤◌, ◌^◌};

    ghost Value = { ℕ };

    ghost view = { λ p. p.ms };

    ghost inverse = { λ p. record { ms = p } };

    ghost invariant = { λ p. p.ms ≤ 2 ^ 53 };
}

impl Planned {
    /// A scrape that is planned at a moment.
    pub fn at(moment: Moment) -> Planned
        ensures { result ≡ number moment }
    {
        Planned {
            ms: moment.number(),
        }
    }

    /// The milliseconds.
    pub fn ms(&self) -> u64
        ensures value { result ≡ self.now }
        ensures small { result ≤ 2 ^ 53 }
    {
        self.ms
    }

    /// The planned scrape after one that is made at a moment, which is at or after this one.
    pub fn after(&self, moment: Moment, interval: Interval) -> Planned
        requires { self.now ≤ number moment }
        ensures { result ≡ spec.next_of (number moment) self.now interval }
    {
        let (now, step) = (moment.number(), interval.ms());
        Planned {
            ms: now + step - (now - self.ms) % step,
        }
    }

    /// The planned scrape after a change at a moment to another interval: the lesser of this one and one interval from then on.
    pub fn changed(&self, moment: Moment, interval: Interval) -> Planned
        ensures { result ≡ min self.now (number moment + interval) }
    {
        Planned {
            ms: self.ms.min(moment.number() + interval.ms()),
        }
    }
}
