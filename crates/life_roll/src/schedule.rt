//! The schedule of one life.
ghost use Rattle.std.specs.Prelude.{◌≡◌, None, Some};
ghost use Rattle.journal_text.specs.Lines.{number};
ghost use Rattle.life_roll.specs.Schedules as spec;

use crate::moments::{Interval, Moment, Planned};

/// A scrape in flight: its ticket, and the moment of its start.
#[derive(Clone, Copy, Debug)]
pub struct InFlight {
    pub ticket: u64,
    pub moment: Moment,
}

/// When a life's target is scraped.
#[derive(Clone, Copy, Debug)]
pub struct Schedule {
    /// How far apart the planned scrapes are.
    pub interval: Interval,
    /// The next planned scrape.
    pub planned: Planned,
    /// The scrape in flight.
    pub flight: Option<InFlight>,
    /// The moment at which the life was closed, if it was.
    pub closed: Option<Moment>,
}

/// What a scan does.
#[derive(Clone, Copy, Debug, PartialEq, Eq)]
pub enum Scanned {
    /// No scrape is made.
    Nothing,
    /// A scrape starts.
    Started,
    /// A scrape is forced: it isn't made, and counts as failed at once.
    Forced,
}

impl Schedule {
    /// The schedule of a life that begins at a moment: its first scrape is planned then.
    pub fn begun(moment: Moment, interval: Interval) -> Schedule
        ensures { result ≡ spec.begun_at (number moment) interval }
    {
        Schedule {
            interval,
            planned: Planned::at(moment),
            flight: None,
            closed: None,
        }
    }

    /// Whether the life is open.
    pub fn is_open(&self) -> bool
        ensures { result ≡ spec.is_open self.now }
    {
        self.closed.is_none()
    }

    /// Whether the planned scrape has come at a moment, of a life that is open and has none in flight.
    pub fn is_due(&self, moment: Moment) -> bool
        ensures { result ≡ spec.is_due (number moment) self.now }
    {
        self.is_open() && self.flight.is_none() && moment.number() >= self.planned.ms()
    }

    /// What a scan does, where the job is over its limit of targets or isn't.
    pub fn scan_of(&self, moment: Moment, over: bool) -> Scanned
        ensures { result ≡ spec.scan_of (number moment) over self.now }
    {
        if !self.is_due(moment) {
            return Scanned::Nothing;
        }
        if over {
            Scanned::Forced
        } else {
            Scanned::Started
        }
    }

    /// Scans at a moment, where this is the next ticket.
    pub fn scan(&mut self, moment: Moment, ticket: u64, over: bool) -> Scanned
        ensures schedule { self.new ≡ spec.scanned moment ticket over self.old }
        ensures does { result ≡ spec.scan_of (number moment) over self.old }
    {
        if !self.is_due(moment) {
            return Scanned::Nothing;
        }
        self.planned = self.planned.after(moment, self.interval);
        if over {
            return Scanned::Forced;
        }
        self.flight = Some(InFlight { ticket, moment });
        Scanned::Started
    }

    /// The scrape in flight has its finish.
    pub fn land(&mut self)
        ensures { self.new ≡ spec.landed self.old }
    {
        self.flight = None;
    }

    /// The settings change at a moment, and this is the interval then: the scrape in flight is cancelled.
    pub fn change(&mut self, moment: Moment, interval: Interval)
        ensures { self.new ≡ spec.changed_at (number moment) interval self.old }
    {
        self.planned = self.planned.changed(moment, interval);
        self.interval = interval;
        self.flight = None;
    }

    /// The life is closed at a moment: the scrape in flight is cancelled.
    pub fn close(&mut self, moment: Moment)
        ensures { self.new ≡ spec.closed_at moment self.old }
    {
        self.closed = Some(moment);
        self.flight = None;
    }
}
