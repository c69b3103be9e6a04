//! The core: what a scrape manager has taken so far, and the call that takes an event.
ghost use Rattle.std.specs.Prelude.{◌≡◌, ◌+◌, ◌≤◌, ◌^◌, nat_lt, ◌++◌, [], ◌∷◌, length, option_map, pos, true, is_some, IfOk, IfSome, OnOk, OnErr};
ghost use Rattle.journal_text.specs.declared.events.Event.{Event};
ghost use Rattle.journal_text.specs.declared.events.Event.TheVariants.{Finish, Halt};
ghost use Rattle.journal_text.specs.Events.{IsInLimits, IsJournal, MayFollow, now_of};
ghost use Rattle.journal_text.specs.Lines.{IsMoment, number};
ghost use Rattle.scrape_core.specs.OpenLives as opens;
ghost use Rattle.scrape_core.specs.Readers.{IsWake, MayFetch, awaits, is_due, request};
ghost use Rattle.scrape_core.specs.Records.{is_live, started_of};
ghost use Rattle.scrape_machine.specs.Machine as spec;
ghost use Rattle.scrape_machine.specs.Runs as relabelling;

use crate::events::take;
use crate::finishes::life_of;
use crate::open_lives::{OpenLife, open_count_in, open_life_in};
use crate::read_events::ReadEvent;
use crate::readers::{due_in, request_in, wake_in};
use crate::state::State;
use appender_book::Book;
use jobs_in_force::jobs::InForce;
use journal_text::{Event, Journal};
use label_set::{NoMemory, Steps};
use life_roll::Moment;
use outside::Request;
use scrape_loop::ReadReply;
use scrape_machine::Answer;
use scrape_steps::endings::Endings;
use std::alloc::Global;
use std::hash::RandomState;
use std::marker::Model;
use std::sync::ledger::Ledger;

mod stepping;

/// The core of a scrape manager, as the events that it took.
#[derive(Drop)]
pub struct Core {
    journal: Journal,
    book: Book,
    state: State,
    /// How often relabelling rules were run.
    runs: u128,
}

impl Model for Core {
    ghost use Rattle.std.specs.Prelude.{◌≡◌, List};
    ghost use Rattle.journal_text.specs.declared.events.Event.{Event};

    ghost Value = { List Event };

    ghost use Rattle.scrape_core.specs.Kept.{IsKept, HasRoom};

    ghost view = { λ c. c.journal.events };

    ghost invariant = { λ c. IsKept c.journal.events c.book.entries c.state c.runs × HasRoom c.state c.journal };
}

/// The halt at a moment.
fn halt_at(moment: Moment) -> Event
    ensures { result ≡ Halt moment }
{
    Event::Halt {
        moment: moment.ms(),
    }
}

/// The last moment of a journal, 0 before any.
#[tactic(auto, using(crate::proofs::NowLemmas::now_small))]
fn last_moment(journal: &Journal) -> Moment
    ensures { result ≡ pos (now_of journal.now.events) }
{
    let _events = journal.events();
    Moment::new(journal.now())
}

/// Whether the runs of any event can be added to these without a number of more than 128 bits.
fn has_room_for_runs(runs: u128) -> bool
    ensures { result ≡ nat_lt (runs + 2 ^ 64) (2 ^ 128) }
{
    runs < u128::MAX - u64::MAX as u128
}

impl Core {
    /// A core to which nothing has happened. The hashes of its book have a fixed seed: for series that no stranger names.
    pub fn new(alloc: Global) -> Result<Core, NoMemory>
        ensures { IfOk result (λ c. c ≡ []) }
    {
        Core::over(alloc, Book::new(alloc)?)
    }

    /// The same, with a seed for the hashes of its book: who doesn't know it can't name many series that share a hash.
    pub fn seeded(alloc: Global, seed: RandomState) -> Result<Core, NoMemory>
        ensures { IfOk result (λ c. c ≡ []) }
    {
        Core::over(alloc, Book::seeded(alloc, seed)?)
    }

    /// A core over a book without entries, with room for the halt.
    fn over(alloc: Global, book: Book) -> Result<Core, NoMemory>
        requires { book.entries ≡ [] }
        ensures { IfOk result (λ c. c ≡ []) }
    {
        let mut journal = Journal::new(alloc);
        journal.reserve(1)?;
        Ok(Core {
            journal,
            book,
            state: State {
                jobs: Vec::new(alloc),
                lives: Vec::new(alloc),
                open_lives: Vec::new(alloc),
                endings: Endings::new(alloc),
                started: Vec::new(alloc),
                halted: false,
            },
            runs: 0,
        })
    }

    /// Lets the core go. A crate that drops a core proves the drops of all its parts anew, so who holds one hands it back here.
    pub fn let_go(self) {}

    /// Takes an event whose reply is read. `take` and `take_read` are its entrances.
    fn take_read_event<L: Ledger>(
        &mut self,
        alloc: Global,
        event: ReadEvent,
        steps: &mut Steps<L>,
    ) -> Result<Answer, NoMemory>
        requires limits { IsInLimits event }
        requires order { MayFollow (now_of self.old) event }
        ensures answer { IfOk result (λ a. a ≡ spec.answer (spec.world_of self.old) event) }
        ensures joined { OnOk result (self.new ≡ self.old ++ event ∷ []) }
        ensures err { OnErr result (self.new ≡ self.old) }
        ensures steps { OnOk result (steps.new ≡ steps.old + relabelling.runs (spec.world_of self.old) event) }
        ensures at_least { steps.old ≤ steps.new }
        ensures at_most { steps.new ≤ steps.old + relabelling.runs (spec.world_of self.old) event }
    {
        if !has_room_for_runs(self.runs) {
            return Err(NoMemory);
        }
        self.journal.reserve(2)?;
        let taken = take(alloc, &mut self.state, &mut self.book, &event, steps)?;
        self.runs += taken.runs as u128;
        self.journal.push(event.into_event());
        Ok(taken.answer)
    }

    /// Takes an event: the answer is the defined one after the journal, which then ends with the event, and the book is that of the new journal.
    /// Where memory runs out, the event is dropped and the core is as before.
    /// The moment is at least `now`, and the event keeps the limits of a journal's events.
    ///
    /// This is `step` for who carries the journal on: what the laws say of a journal they say of each, so a caller that promises them cites
    /// `scrape_laws::laws`.
    pub fn take<L: Ledger>(
        &mut self,
        alloc: Global,
        event: Event,
        steps: &mut Steps<L>,
    ) -> Result<Answer, NoMemory>
        requires limits { IsInLimits event }
        requires order { MayFollow (now_of self.old) event }
        ensures answer { IfOk result (λ a. a ≡ spec.answer (spec.world_of self.old) event) }
        ensures joined { OnOk result (self.new ≡ self.old ++ event ∷ []) }
        ensures err { OnErr result (self.new ≡ self.old) }
        ensures steps { OnOk result (steps.new ≡ steps.old + relabelling.runs (spec.world_of self.old) event) }
        ensures at_least { steps.old ≤ steps.new }
        ensures at_most { steps.new ≤ steps.old + relabelling.runs (spec.world_of self.old) event }
    {
        let life = life_of(&self.state, &event);
        let event = ReadEvent::by(alloc, event, life)?;
        self.take_read_event(alloc, event, steps)
    }

    /// Takes the finish of a ticket after so many milliseconds, whose reply is read already, as `take` takes it: with the same answer, journal and
    /// book. A finish carries no moment, so it may always follow.
    /// Where memory runs out, the reply is dropped and the core is as before.
    pub fn take_read<L: Ledger>(
        &mut self,
        alloc: Global,
        ticket: u64,
        took: i64,
        reply: ReadReply,
        steps: &mut Steps<L>,
    ) -> Result<Answer, NoMemory>
        requires limits { IsInLimits (Finish ticket took reply) }
        ensures answer { IfOk result (λ a. a ≡ spec.answer (spec.world_of self.old) (Finish ticket took reply)) }
        ensures joined { OnOk result (self.new ≡ self.old ++ Finish ticket took reply ∷ []) }
        ensures err { OnErr result (self.new ≡ self.old) }
        ensures steps { OnOk result (steps.new ≡ steps.old + relabelling.runs (spec.world_of self.old) (Finish ticket took reply)) }
        ensures at_least { steps.old ≤ steps.new }
        ensures at_most { steps.new ≤ steps.old + relabelling.runs (spec.world_of self.old) (Finish ticket took reply) }
    {
        self.take_read_event(alloc, ReadEvent::finish(ticket, took, reply), steps)
    }

    /// The moment of the last event that carries one, 0 before any, in milliseconds.
    pub fn now(&self) -> i64
        ensures { result ≡ pos (now_of self.now) }
    {
        self.journal.now()
    }

    /// The same, as a moment.
    pub fn moment(&self) -> Moment
        ensures { result ≡ pos (now_of self.now) }
    {
        last_moment(&self.journal)
    }

    /// How many events the journal has.
    pub fn events(&self) -> u64
        ensures { result ≡ length self.now }
    {
        self.journal.len() as u64
    }

    /// The book of the journal.
    pub fn book(&self) -> &Book
        ensures { result.now.entries ≡ spec.book_of self.now }
    {
        &self.book
    }

    /// The events that were taken.
    pub fn journal(&self) -> &Journal
        ensures { result.now.events ≡ self.now }
    {
        &self.journal
    }

    /// A halt at `now`, for which room is kept from the start. No halt came before.
    pub fn halt(&mut self)
        requires { is_live self.old ≡ true }
        ensures halted { self.new ≡ self.old ++ Halt (pos (now_of self.old)) ∷ [] }
        ensures journal { IsJournal self.new }
    {
        let moment = last_moment(&self.journal);
        self.state.halted = true;
        self.journal.push(halt_at(moment));
    }

    /// Whether a sweep at a moment would start or force a scrape, or take an ending.
    pub fn due(&self, moment: i64) -> bool
        requires { IsMoment moment }
        ensures { result ≡ is_due self.now (number moment) }
    {
        due_in(&self.state, Moment::new(moment))
    }

    /// The least moment from `now` on at which a sweep would start or force a scrape, or take an ending; none where no moment does.
    pub fn wake(&self) -> Option<i64>
        ensures { IsWake self.now result }
    {
        wake_in(&self.state, self.moment().number())
    }

    /// The request of the scrape with a ticket, as it was at the start of the scrape. There is none exactly where no scrape with the ticket was
    /// started, or where it had its finish. It may be fetched: its limit and its timeout are in their ranges.
    pub fn request(&self, alloc: Global, ticket: u64) -> Result<Option<Request>, NoMemory>
        ensures request { IfOk result (λ o. o ≡ request self.now ticket) }
        ensures awaited { IfOk result (λ o. is_some o ≡ awaits self.now ticket) }
        ensures fetched { IfOk result (λ o. IfSome o (λ r. MayFetch r)) }
    {
        request_in(alloc, &self.state.lives, &self.state.started, ticket)
    }

    /// How often relabelling rules were run for the events of the journal: for each target that a load or an update lists, and for each raw text of a
    /// body that the last good scrape of its life didn't have.
    pub fn runs(&self) -> u128
        ensures { result ≡ relabelling.runs_of self.now }
    {
        self.runs
    }

    /// How many scrapes were started.
    pub fn started(&self) -> u64
        ensures { result ≡ started_of self.now }
    {
        self.state.started.len() as u64
    }

    /// How many targets are scraped: the open lives. It takes no memory.
    pub fn open_count(&self) -> usize
        ensures { result ≡ opens.open_count self.now }
    {
        open_count_in(&self.state)
    }

    /// The open life at a place, by rising number: that number, the labels of its target, and how the target is. There is none exactly where the
    /// place is at or past `open_count`. It takes no memory.
    pub fn open_life(&self, place: usize) -> Option<OpenLife<'_>>
        ensures { option_map opens.seen result ≡ opens.open_life self.now place }
    {
        open_life_in(&self.state, place)
    }

    /// The configuration in force: its jobs, in the order in which they are written.
    pub fn jobs(&self) -> &[InForce]
        ensures { result.now ≡ (spec.world_of self.now).jobs }
    {
        &self.state.jobs
    }
}
