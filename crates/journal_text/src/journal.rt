//! Journals.
ghost use Rattle.std.specs.Prelude.{◌≡◌, ◌≤◌, ◌+◌, ◌++◌, ◌==◌, [], ◌∷◌, OnOk, length, pos};
ghost use Rattle.journal_text.specs.Events.{IsInLimits, HasNames, IsJournal, MayFollow};
ghost use Rattle.journal_text.specs.Events as spec;

use crate::events::Event;
use label_set::NoMemory;
use std::alloc::Global;
use std::marker::Model;
use value_text::to_number;

/// The events of a run so far. Each keeps its limits, and moments never go back.
/// Contracts see the list of its events, and for how many more it has room.
#[derive(Drop, Debug)]
pub struct Journal {
    events: Vec<Event>,
    last: u64,
}

impl Model for Journal {
    ghost use Rattle.std.specs.Prelude.{◌-◌, vec_len, vec_capacity};
    ghost use Rattle.journal_text.specs.Events.{JournalView};

    ghost Value = { JournalView };

    ghost use Rattle.journal_text.specs.Events.{IsKept};

    ghost view = { λ j. record { events = j.events.items; spare = vec_capacity j.events - vec_len j.events } };

    ghost invariant = { λ j. IsKept j.events.items j.last };
}

/// The last moment after an event, where `now` is the last one before it.
pub(crate) fn now_after(now: u64, event: &Event) -> u64
    ensures value { result ≡ spec.now_after now event.now }
    ensures names { HasNames event.now }
{
    match event {
        Event::Load { moment, .. } => to_number(*moment),
        Event::Targets {
            moment,
            job,
            file,
            ..
        } => {
            let _job = job.as_str();
            let _file = file.as_str();
            to_number(*moment)
        }
        Event::Tick { moment, .. } => to_number(*moment),
        Event::Sweep { moment } => to_number(*moment),
        Event::Finish { .. } => now,
        Event::Halt { moment } => to_number(*moment),
    }
}

impl Journal {
    /// A journal with no events.
    pub fn new(alloc: Global) -> Journal
        ensures { result.events ≡ [] }
    {
        Journal {
            events: Vec::new(alloc),
            last: 0,
        }
    }

    /// Makes room for more events.
    pub fn reserve(&mut self, more: usize) -> Result<(), NoMemory>
        ensures room { OnOk result (more ≤ self.new.spare) }
        ensures same { self.new.events ≡ self.old.events }
        ensures kept { self.old.spare ≤ self.new.spare }
    {
        Ok(self.events.reserve(more)?)
    }

    /// Adds an event, for which there has to be room.
    pub fn push(&mut self, event: Event)
        requires room { 1 ≤ self.old.spare }
        requires limits { IsInLimits event }
        requires order { MayFollow (spec.now_of self.old.events) event }
        ensures joined { self.new.events ≡ self.old.events ++ event ∷ [] }
        ensures journal { IsJournal self.new.events }
        ensures room { self.old.spare ≤ self.new.spare + 1 }
    {
        self.last = now_after(self.last, &event);
        self.events.push_reserved(event);
    }

    /// The events, in order.
    pub fn events(&self) -> &[Event]
        ensures events { result.now ≡ self.now.events }
        ensures journal { IsJournal self.now.events }
    {
        &self.events
    }

    /// The events, in order. It takes no memory.
    pub fn into_events(self) -> Vec<Event>
        ensures events { result.items ≡ self.events }
        ensures journal { IsJournal self.events }
    {
        self.events
    }

    /// How many events there are.
    pub fn len(&self) -> usize
        ensures { result ≡ length self.now.events }
    {
        self.events.len()
    }

    /// Whether there is no event.
    pub fn is_empty(&self) -> bool
        ensures { result ≡ (length self.now.events == 0) }
    {
        self.events.is_empty()
    }

    /// The last moment as a number, 0 before any.
    pub(crate) fn last_moment(&self) -> u64
        ensures { result ≡ spec.now_of self.now.events }
    {
        self.last
    }

    /// The last moment, 0 before any.
    pub fn now(&self) -> i64
        ensures { result ≡ pos (spec.now_of self.now.events) }
    {
        self.last as i64
    }
}
