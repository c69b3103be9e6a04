//! Events whose replies are read.
ghost use Rattle.std.specs.Prelude.{◌≡◌, false, IfOk};
ghost use Rattle.journal_text.specs.declared.events.Event.TheVariants.{Finish};
ghost use Rattle.scrape_core.specs.ReadEvents.{IsUnread, event_of};
ghost use Rattle.scrape_core.specs.Records.{is_finish};

use journal_text::Event;
use label_set::NoMemory;
use outside::Reply;
use scrape_loop::{LifeState, ReadReply};
use std::alloc::Global;
use std::marker::Model;

/// An event with what the body of its reply says, if it is a finish.
#[derive(Drop)]
pub(crate) enum EventParts {
    Finish {
        ticket: u64,
        took: i64,
        reply: ReadReply,
    },
    /// Any other event.
    Other(Event),
}

/// An event whose reply is read, if it is a finish. Contracts see the event.
#[derive(Drop)]
pub struct ReadEvent {
    parts: EventParts,
}

impl Model for ReadEvent {
    ghost use Rattle.journal_text.specs.declared.events.Event.{Event};

    ghost Value = { Event };

    ghost use Rattle.scrape_core.specs.ReadEvents.{IsUnread, event_of};

    ghost view = { λ e. event_of e.parts };

    ghost invariant = { λ e. IsUnread e.parts };
}

impl ReadEvent {
    /// An event, whose reply is read if it is a finish.
    ///
    /// # Errors
    ///
    /// The only error is out of memory; the event is then let go.
    pub fn of(alloc: Global, event: Event) -> Result<ReadEvent, NoMemory>
        ensures { IfOk result (λ e. e ≡ event) }
    {
        ReadEvent::by(alloc, event, None)
    }

    /// The same, where the reply is read by what a life knows of raw texts, if there is one.
    pub(crate) fn by(
        alloc: Global,
        event: Event,
        life: Option<&LifeState>,
    ) -> Result<ReadEvent, NoMemory>
        ensures { IfOk result (λ e. e ≡ event) }
    {
        match event {
            Event::Finish {
                ticket,
                took,
                reply,
            } => {
                let reply = read(alloc, reply, life)?;
                Ok(ReadEvent::finish(ticket, took, reply))
            }
            Event::Load { moment, text } => Ok(other(Event::Load { moment, text })),
            Event::Targets {
                moment,
                job,
                file,
                text,
            } => Ok(other(Event::Targets {
                moment,
                job,
                file,
                text,
            })),
            Event::Tick { moment, life } => Ok(other(Event::Tick { moment, life })),
            Event::Sweep { moment } => Ok(other(Event::Sweep { moment })),
            Event::Halt { moment } => Ok(other(Event::Halt { moment })),
        }
    }

    /// The finish of a ticket after so many milliseconds, with a reply that is read.
    pub fn finish(ticket: u64, took: i64, reply: ReadReply) -> ReadEvent
        ensures { result ≡ Finish ticket took reply }
    {
        ReadEvent {
            parts: EventParts::Finish {
                ticket,
                took,
                reply,
            },
        }
    }

    /// What it is.
    pub(crate) fn parts(&self) -> &EventParts
        ensures event { event_of result.now ≡ self.now }
        ensures unread { IsUnread result.now }
    {
        &self.parts
    }

    /// Gives the event back, its bytes as they were.
    pub fn into_event(self) -> Event
        ensures { result ≡ self }
    {
        match self.parts {
            EventParts::Finish {
                ticket,
                took,
                reply,
            } => Event::Finish {
                ticket,
                took,
                reply: reply.into_reply(),
            },
            EventParts::Other(event) => event,
        }
    }
}

/// A reply that is read, by what a life knows, if there is one.
fn read(alloc: Global, reply: Reply, life: Option<&LifeState>) -> Result<ReadReply, NoMemory>
    ensures { IfOk result (λ r. r ≡ reply) }
{
    match life {
        None => ReadReply::of(alloc, reply),
        Some(life) => life.read(alloc, reply),
    }
}

/// An event that is no finish.
fn other(event: Event) -> ReadEvent
    requires { is_finish event ≡ false }
    ensures { result ≡ event }
{
    ReadEvent {
        parts: EventParts::Other(event),
    }
}
