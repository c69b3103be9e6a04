//! The roll of all lives and started scrapes.
ghost use Rattle.std.specs.Prelude.{◌≡◌, ◌≢◌, ℕ, ◌<◌, ◌≤◌, ◌+◌, ◌==◌, ◌++◌, [], length, map, filter, slice_get, None, option_map, if◌then◌else◌, IfOk, OnOk, OnErr, IsErrOf, IsSome};
ghost use Rattle.journal_text.specs.Lines.{IsMoment, number};
ghost use Rattle.life_roll.specs.Schedules.{scanned, landed as freed_schedule};
ghost use Rattle.life_roll.specs.Wants.{HaveIntervals, AreWishes, terms_at, found};
ghost use Rattle.life_roll.specs.Counts.{AreDifferent, HaveOneEach, AreOpen};
ghost use Rattle.life_roll.specs.Rolls.{AnswersAs, room_of};
ghost use Rattle.life_roll.specs.Rolls as spec;
ghost use Rattle.life_roll.specs.Flights as flights;

use crate::answers::{Began, Flight, Synced, TickRefusal};
use crate::lives::{
    Life, Start, begun, count_closed, flies, free, open_seats, refusal, scan, sync_all,
};
use crate::moments::Moment;
use crate::wanted::{Wanted, Wishes};
use label_set::NoMemory;
use std::alloc::Global;
use std::marker::Model;

/// The lives by number and the started scrapes by ticket. Neither number is used again.
/// Contracts see both lists, and for how many more started scrapes there is room.
#[derive(Drop)]
pub struct Roll {
    lives: Vec<Life>,
    started: Vec<Start>,
}

impl Model for Roll {
    ghost use Rattle.life_roll.specs.Rolls.{RollView, room_of};

    ghost Value = { RollView };

    ghost view = { λ r. record { lives = r.lives.items; started = r.started.items; spare = room_of r.started } };
}

/// Makes of lives what the wanted targets make of them, and adds those that begin.
fn commit(
    lives: &mut Vec<Life>,
    moment: Moment,
    wishes: &Wishes,
    begun: Vec<Life>,
) -> Result<(), NoMemory>
    ensures ok { OnOk result (lives.new.items ≡ map (spec.life_after moment (found wishes.now)) lives.old.items ++ begun.items) }
    ensures err { OnErr result (lives.new.items ≡ lives.old.items) }
{
    let mut begun = begun;
    lives.reserve(begun.len())?;
    sync_all(lives, moment, wishes);
    lives.append(&mut begun)?;
    Ok(())
}

/// The lives that begin: those of the wanted targets without an open life.
fn news(
    alloc: Global,
    moment: Moment,
    wanted: &[Wanted],
    wishes: &Wishes,
    lives: &[Life],
) -> Result<Vec<Life>, NoMemory>
    requires intervals { HaveIntervals wanted.now }
    requires wishes { AreWishes wishes.now wanted.now }
    ensures { IfOk result (λ v. v.items ≡ spec.news_after moment wanted.now lives.now) }
{
    let taken = open_seats(alloc, moment, wishes, lives)?;
    begun(alloc, moment, wanted, &taken)
}

/// How many lives closed and began, where both are below 2^32.
fn counted(closed: usize, begun: usize) -> Result<Synced, NoMemory>
    ensures closed { IfOk result (λ s. s.closed ≡ closed) }
    ensures begun { IfOk result (λ s. s.begun ≡ begun) }
{
    match (u32::try_from(closed), u32::try_from(begun)) {
        (Ok(closed), Ok(begun)) => Ok(Synced { closed, begun }),
        _ => Err(NoMemory),
    }
}

/// Compares lives with the wanted targets, and says how many lives closed and began.
fn sync(
    lives: &mut Vec<Life>,
    alloc: Global,
    moment: Moment,
    wanted: &[Wanted],
) -> Result<Synced, NoMemory>
    requires { HaveIntervals wanted.now }
    ensures lives { OnOk result (lives.new.items ≡ spec.lives_after moment wanted.now lives.old.items) }
    ensures closed { IfOk result (λ s. s.closed ≡ length (filter (spec.closes (terms_at wanted.now)) lives.old.items)) }
    ensures begun { IfOk result (λ s. s.begun ≡ length (spec.news_after moment wanted.now lives.old.items)) }
    ensures err { OnErr result (lives.new.items ≡ lives.old.items) }
{
    let wishes = Wishes::of(alloc, wanted)?;
    let news = news(alloc, moment, wanted, &wishes, lives)?;
    let synced = counted(count_closed(&wishes, lives), news.len())?;
    commit(lives, moment, &wishes, news)?;
    Ok(synced)
}

/// Makes the scrape of a tick that is not refused.
fn made(
    lives: &mut [Life],
    started: &mut Vec<Start>,
    moment: Moment,
    life: u64,
    over: bool,
) -> Result<Began, TickRefusal>
    requires { life < length lives.old }
    ensures answer { AnswersAs result (spec.answer_by (length started.old.items) over None) }
    ensures lives { OnOk result (lives.new ≡ spec.rescheduled life (scanned moment (length started.old.items) over) lives.old) }
    ensures started { IfOk result (λ b. started.new.items ≡ started.old.items ++ spec.starts_of moment life b) }
    ensures room { room_of started.old ≤ room_of started.new + 1 }
    ensures lives_err { OnErr result (lives.new ≡ lives.old) }
    ensures started_err { OnErr result (started.new.items ≡ started.old.items) }
    ensures room_err { OnErr result (room_of started.new ≡ room_of started.old) }
    ensures memory { IsErrOf result TickRefusal.NoMemory → room_of started.old ≡ 0 }
{
    let ticket = started.len() as u64;
    if over {
        scan(lives, life as usize, moment, ticket, true);
        return Ok(Began::Forced);
    }
    started.reserve(1)?;
    started.push_reserved(Start {
        life,
        moment,
        landed: false,
    });
    scan(lives, life as usize, moment, ticket, false);
    Ok(Began::Started(ticket))
}

/// A tick of a life at a moment, where the job is over its limit of targets or isn't.
fn tick(
    lives: &mut [Life],
    started: &mut Vec<Start>,
    moment: Moment,
    life: u64,
    over: bool,
) -> Result<Began, TickRefusal>
    ensures answer { AnswersAs result (spec.answer_by (length started.old.items) over (spec.refusal (number moment) (slice_get lives.old life))) }
    ensures lives { OnOk result (lives.new ≡ spec.rescheduled life (scanned moment (length started.old.items) over) lives.old) }
    ensures started { IfOk result (λ b. started.new.items ≡ started.old.items ++ spec.starts_of moment life b) }
    ensures room { room_of started.old ≤ room_of started.new + 1 }
    ensures lives_err { OnErr result (lives.new ≡ lives.old) }
    ensures started_err { OnErr result (started.new.items ≡ started.old.items) }
    ensures room_err { OnErr result (room_of started.new ≡ room_of started.old) }
    ensures memory { IsErrOf result TickRefusal.NoMemory → room_of started.old ≡ 0 }
{
    match refusal(moment, lives.get(life as usize)) {
        Some(cause) => Err(cause),
        None => made(lives, started, moment, life, over),
    }
}

/// The started scrape with a ticket, where it hasn't had its finish.
fn flight_from(lives: &[Life], ticket: u64, start: Start) -> Option<Flight>
    ensures { result ≡ flights.flight_from lives.now ticket start }
{
    if start.landed {
        return None;
    }
    Some(Flight {
        life: start.life,
        moment: start.moment.ms(),
        valid: flies(ticket, lives.get(start.life as usize)),
    })
}

/// The life of a flight, where it is valid, has nothing in flight.
fn free_life_of(lives: &mut [Life], flight: Option<Flight>)
    ensures { lives.new ≡ flights.freed flight lives.old }
{
    if let Some(flight) = flight {
        if flight.valid {
            free(lives, flight.life as usize);
        }
    }
}

/// The scrape with a ticket, where it started, has had its finish.
fn finish(started: &mut [Start], ticket: usize)
    ensures { started.new ≡ flights.finished ticket started.old }
{
    if ticket < started.len() {
        started[ticket].landed = true;
    }
}

impl Roll {
    /// A roll with no lives.
    pub fn new(alloc: Global) -> Result<Roll, NoMemory>
        ensures lives { IfOk result (λ r. r.lives ≡ []) }
        ensures started { IfOk result (λ r. r.started ≡ []) }
    {
        Ok(Roll {
            lives: Vec::new(alloc),
            started: Vec::new(alloc),
        })
    }

    /// Makes room for so many more started scrapes.
    pub fn reserve(&mut self, more: usize) -> Result<(), NoMemory>
        ensures room { OnOk result (more ≤ self.new.spare) }
        ensures kept { self.old.spare ≤ self.new.spare }
        ensures lives { self.new.lives ≡ self.old.lives }
        ensures started { self.new.started ≡ self.old.started }
    {
        Ok(self.started.reserve(more)?)
    }

    /// The lives, by number.
    pub fn lives(&self) -> &[Life]
        ensures { result.now ≡ self.now.lives }
    {
        &self.lives
    }

    /// The ticket of the next scrape that starts.
    pub fn next_ticket(&self) -> u64
        ensures { result ≡ length self.now.started }
    {
        self.started.len() as u64
    }

    /// Compares the open lives with the wanted targets: those stay open that are wanted on compatible terms, the others close at the moment,
    /// and each wanted target without an open life begins one. `NoMemory` comes also where 2^32 lives close or begin at once.
    pub fn sync(
        &mut self,
        alloc: Global,
        moment: i64,
        wanted: &[Wanted],
    ) -> Result<Synced, NoMemory>
        requires moment { IsMoment moment }
        requires intervals { HaveIntervals wanted.now }
        ensures lives { OnOk result (self.new.lives ≡ spec.lives_after moment wanted.now self.old.lives) }
        ensures closed { IfOk result (λ s. s.closed ≡ length (filter (spec.closes (terms_at wanted.now)) self.old.lives)) }
        ensures begun { IfOk result (λ s. s.begun ≡ length (spec.news_after moment wanted.now self.old.lives)) }
        ensures single { AreDifferent wanted.now → HaveOneEach self.old.lives → OnOk result (AreOpen wanted.now self.new.lives) }
        ensures started { self.new.started ≡ self.old.started }
        ensures flights { OnOk result ((k : ℕ) →
            flights.flight_of self.new k ≡ option_map (flights.flight_after (terms_at wanted.now) self.old.lives)
            (flights.flight_of self.old k)) }
        ensures room { self.new.spare ≡ self.old.spare }
        ensures err { OnErr result (self.new ≡ self.old) }
    {
        sync(&mut self.lives, alloc, Moment::new(moment), wanted)
    }

    /// A tick of a life at a moment: it starts a scrape, or forces one where the job is over its limit of targets.
    pub fn begin(&mut self, moment: i64, life: u64, over: bool) -> Result<Began, TickRefusal>
        requires { IsMoment moment }
        ensures answer { AnswersAs result (spec.tick_answer self.old moment life over) }
        ensures lives { OnOk result (self.new.lives ≡ spec.rescheduled life (scanned moment (length self.old.started) over) self.old.lives) }
        ensures started { IfOk result (λ b. self.new.started ≡ self.old.started ++ spec.starts_of moment life b) }
        ensures room { self.old.spare ≤ self.new.spare + 1 }
        ensures err { OnErr result (self.new ≡ self.old) }
        ensures memory { IsErrOf result TickRefusal.NoMemory → self.old.spare ≡ 0 }
        ensures flight { IfOk result (λ b. flights.IsInFlight self.new moment life b) }
        ensures others { (k : ℕ) → k ≢ length self.old.started → flights.flight_of self.new k ≡ flights.flight_of self.old k }
    {
        tick(
            &mut self.lives,
            &mut self.started,
            Moment::new(moment),
            life,
            over,
        )
    }

    /// The started scrape with a ticket; `None` exactly where no scrape has it, or it had its finish.
    pub fn flight_of(&self, ticket: u64) -> Option<Flight>
        ensures { result ≡ flights.flight_of self.now ticket }
    {
        let start = self.started.get(ticket as usize).copied()?;
        flight_from(&self.lives, ticket, start)
    }

    /// The scrape with a ticket has its finish. Where it is valid, its life then has nothing in flight.
    pub fn land(&mut self, ticket: u64)
        requires { IsSome (flights.flight_of self.old ticket) }
        ensures started { self.new.started ≡ flights.finished ticket self.old.started }
        ensures lives { self.new.lives ≡ flights.freed (flights.flight_of self.old ticket) self.old.lives }
        ensures flights { (k : ℕ) → flights.flight_of self.new k ≡ (if k == ticket then None else flights.flight_of self.old k) }
        ensures room { self.new.spare ≡ self.old.spare }
    {
        let flight = self.flight_of(ticket);
        free_life_of(&mut self.lives, flight);
        finish(&mut self.started, ticket as usize);
    }

    /// The scrape of a life in flight, where there is one, is no longer valid.
    pub fn cancel(&mut self, life: u64)
        ensures lives { self.new.lives ≡ spec.rescheduled life freed_schedule self.old.lives }
        ensures started { self.new.started ≡ self.old.started }
        ensures flights { (k : ℕ) → flights.flight_of self.new k ≡ option_map (flights.cancelled life) (flights.flight_of self.old k) }
        ensures room { self.new.spare ≡ self.old.spare }
    {
        free(&mut self.lives, life as usize);
    }
}
