//! Lives by number, and started scrapes by ticket.
ghost use Rattle.std.specs.Prelude.{◌≡◌, ◌<◌, [], ◌∷◌, ◌++◌, length, map, filter, not, IfOk, OnOk, if◌then◌else◌};
ghost use Rattle.std.specs.Option.{option_copied};
ghost use Rattle.std.specs.List.{list_any};
ghost use Rattle.journal_text.specs.Lines.{number};
ghost use Rattle.life_roll.specs.Schedules as schedules;
ghost use Rattle.life_roll.specs.Seats.{IsSeats, has_seat};
ghost use Rattle.life_roll.specs.Wants.{found, HasInterval, HaveIntervals};
ghost use Rattle.life_roll.specs.Rolls as spec;
ghost use Rattle.life_roll.specs.Flights as flights;

use crate::answers::TickRefusal;
use crate::moments::Moment;
use crate::schedule::{Scanned, Schedule};
use crate::seats::{Seat, Seats};
use crate::wanted::{Terms, Wanted, Wishes};
use label_set::NoMemory;
use std::alloc::Global;

/// A life: a stretch of time in which a target of a job is scraped.
#[derive(Debug, Drop)]
pub struct Life {
    pub seat: Seat,
    pub schedule: Schedule,
}

/// A started scrape: the number of its life, the moment of its start, and whether it had its finish.
#[derive(Clone, Copy, Debug)]
pub struct Start {
    pub life: u64,
    pub moment: Moment,
    pub landed: bool,
}

/// Whether a life stays open on these terms.
fn stays(terms: Option<Terms>) -> bool
    ensures { result ≡ spec.stays terms }
{
    match terms {
        None => false,
        Some(terms) => terms.compatible,
    }
}

/// The schedule of a life after the wanted targets are looked at, at a moment.
fn schedule_after(moment: Moment, wishes: &Wishes, life: &Life) -> Schedule
    ensures { result ≡ (spec.life_after moment (found wishes.now) life.now).schedule }
{
    let mut after = life.schedule;
    if !after.is_open() {
        return after;
    }
    match wishes.get(&life.seat) {
        None => after.close(moment),
        Some(terms) => {
            if !terms.compatible {
                after.close(moment);
            } else if !terms.same {
                after.change(moment, terms.interval);
            }
        }
    }
    after
}

/// Whether the wanted targets close a life.
fn closes(wishes: &Wishes, life: &Life) -> bool
    ensures { result ≡ spec.closes (found wishes.now) life.now }
{
    life.schedule.is_open() && !stays(wishes.get(&life.seat))
}

/// How many lives the wanted targets close.
pub(crate) fn count_closed(wishes: &Wishes, lives: &[Life]) -> usize
    ensures { result ≡ length (filter (spec.closes (found wishes.now)) lives.now) }
{
    lives.iter().filter(|life| closes(wishes, life)).count()
}

/// The targets of the lives that are open after the wanted targets are looked at.
pub(crate) fn open_seats(
    alloc: Global,
    moment: Moment,
    wishes: &Wishes,
    lives: &[Life],
) -> Result<Seats, NoMemory>
    ensures { IfOk result (λ seats. IsSeats seats
        (λ job identity. list_any (spec.is_open_at job identity)
        (map (spec.life_after moment (found wishes.now)) lives.now))) }
{
    let mut seats = Seats::new(alloc);
    for life in lives {
        if schedule_after(moment, wishes, life).is_open() {
            seats.put(life.seat.copy()?)?;
        }
    }
    Ok(seats)
}

/// Begins a life of a wanted target, where it isn't among those that have one.
fn push_begun(
    lives: &mut Vec<Life>,
    moment: Moment,
    entry: &Wanted,
    taken: &Seats,
) -> Result<(), NoMemory>
    requires { HasInterval entry.now }
    ensures { OnOk result (lives.new.items
        ≡ (if has_seat taken.now entry.now.job entry.now.identity then lives.old.items
        else lives.old.items ++ spec.begun_life moment entry.now ∷ [])) }
{
    let seat = entry.seat()?;
    if !taken.has(&seat) {
        lives.reserve(1)?;
        let schedule = Schedule::begun(moment, entry.interval());
        lives.push_reserved(Life { seat, schedule });
    }
    Ok(())
}

/// The lives that begin, of the wanted targets that aren't among those that have one.
pub(crate) fn begun(
    alloc: Global,
    moment: Moment,
    wanted: &[Wanted],
    taken: &Seats,
) -> Result<Vec<Life>, NoMemory>
    requires { HaveIntervals wanted.now }
    ensures { IfOk result (λ v. v.items ≡ map (spec.begun_life moment) (filter (λ w. not (has_seat taken.now w.job w.identity)) wanted.now)) }
{
    let mut lives = Vec::new(alloc);
    for entry in wanted {
        push_begun(&mut lives, moment, entry, taken)?;
    }
    Ok(lives)
}

/// Each life as the wanted targets make it.
pub(crate) fn sync_all(lives: &mut [Life], moment: Moment, wishes: &Wishes)
    ensures { lives.new ≡ map (spec.life_after moment (found wishes.now)) lives.old }
{
    for life in lives.iter_mut() {
        life.schedule = schedule_after(moment, wishes, life);
    }
}

/// Why a tick makes no scrape of a life, if it makes none.
pub(crate) fn refusal(moment: Moment, life: Option<&Life>) -> Option<TickRefusal>
    ensures { result ≡ spec.refusal (number moment) (option_copied life.entry) }
{
    let Some(life) = life else {
        return Some(TickRefusal::NoLife);
    };
    let schedule = &life.schedule;
    if !schedule.is_open() {
        Some(TickRefusal::NoLife)
    } else if schedule.flight.is_some() {
        Some(TickRefusal::Busy)
    } else if moment.number() < schedule.planned.ms() {
        Some(TickRefusal::NotDue)
    } else {
        None
    }
}

/// Scans a life at a moment, where this is the next ticket.
pub(crate) fn scan(lives: &mut [Life], life: usize, moment: Moment, ticket: u64, over: bool)
    requires { life < length lives.old }
    ensures { lives.new ≡ spec.rescheduled life (schedules.scanned moment ticket over) lives.old }
{
    let _ = lives[life].schedule.scan(moment, ticket, over);
}

/// Whether a life has a scrape in flight, by its ticket.
pub(crate) fn flies(ticket: u64, life: Option<&Life>) -> bool
    ensures { result ≡ flights.flies ticket (option_copied life.entry) }
{
    let Some(life) = life else {
        return false;
    };
    match life.schedule.flight {
        None => false,
        Some(flight) => flight.ticket == ticket,
    }
}

/// A life, if there is one, has nothing in flight.
pub(crate) fn free(lives: &mut [Life], life: usize)
    ensures { lives.new ≡ spec.rescheduled life schedules.landed lives.old }
{
    if life < lives.len() {
        lives[life].schedule.land();
    }
}
