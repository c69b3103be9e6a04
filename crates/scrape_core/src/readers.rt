//! What a core says of its journal between events.
ghost use Rattle.std.specs.Prelude.{◌≡◌, ◌<◌, ◌^◌, ℕ, slice_get, option_copied, IfOk, IfSome};
ghost use Rattle.std.specs.List.{list_any};
ghost use Rattle.journal_text.specs.Lines.{number};
ghost use Rattle.scrape_core.specs.Kept as kept;
ghost use Rattle.scrape_core.specs.Readers as spec;
ghost use Rattle.scrape_core.specs.Wakes as wakes;
ghost use Rattle.scrape_steps.specs.Concerned as concerned;

use crate::state::State;
use end_of_run::due_at;
use label_set::NoMemory;
use life_roll::Moment;
use outside::Request;
use scrape_machine::lives::{Life, StartedScrape};
use scrape_steps::acts::ends;
use scrape_steps::concerned::Lives;
use std::alloc::Global;
use target_set::request_of;

/// Whether a sweep at a moment would make a scrape of a life, or take its ending.
fn acts(moment: Moment, life: &Life) -> bool
    ensures { result ≡ spec.acts (number moment) life.now }
{
    life.schedule.is_due(moment) || ends(moment, life)
}

/// Whether a sweep at a moment would do so for one of those of these lives that are concerned.
fn any_due(lives: &Lives<'_>, moment: Moment) -> bool
    ensures { result ≡ list_any (spec.acts (number moment)) (concerned.concerned lives.now) }
{
    for index in 0..lives.count() {
        if acts(moment, lives.at(index)) {
            return true;
        }
    }
    false
}

/// The moment from which on a sweep would end a closed life, or make a scrape of an open one; none where that comes with no moment.
fn wake_of(life: &Life) -> Option<u64>
    ensures { result ≡ wakes.wake_of life.now }
{
    let schedule = &life.schedule;
    match schedule.closed {
        None => {
            if schedule.flight.is_some() {
                return None;
            }
            Some(schedule.planned.ms())
        }
        Some(closed) => {
            if life.ended {
                return None;
            }
            Some(due_at(
                schedule.planned.ms(),
                closed.number(),
                schedule.interval.ms(),
            ))
        }
    }
}

/// The lesser of two moments, where there are two.
fn sooner(one: Option<u64>, other: Option<u64>) -> Option<u64>
    ensures { result ≡ wakes.sooner one other }
{
    match (one, other) {
        (None, _) => other,
        (Some(_), None) => one,
        (Some(a), Some(b)) => Some(a.min(b)),
    }
}

/// The moment from which on a sweep would act on one of those of these lives that are concerned.
fn first_wake(lives: &Lives<'_>) -> Option<u64>
    ensures { (n : ℕ) → list_any (spec.acts n) (concerned.concerned lives.now) ≡ wakes.reached n result }
{
    let mut first = None;
    for index in 0..lives.count() {
        first = sooner(first, wake_of(lives.at(index)));
    }
    first
}

/// The moments that there are, from 0 on.
const MOMENTS: u64 = 1 << 52;

/// The least moment from `now` on that has reached the first one, if there is one.
fn wake_from(first: Option<u64>, now: u64) -> Option<i64>
    requires { now < 2 ^ 52 }
    ensures { wakes.IsWakeBy (λ n. wakes.reached n first) now result }
{
    match first {
        None => None,
        Some(first) => {
            let moment = first.max(now);
            if moment < MOMENTS {
                Some(moment as i64)
            } else {
                None
            }
        }
    }
}

/// Whether a sweep at a moment would act on a life, unless a halt came.
pub fn due_in(state: &State, moment: Moment) -> bool
    requires { kept.IsListed state.now }
    ensures { result ≡ spec.due_in state.now (number moment) }
{
    let lives = Lives::open(&state.lives, &state.open_lives);
    !state.halted && (any_due(&lives, moment) || state.endings.is_due(moment.number()))
}

/// The least moment from `now` on at which a sweep would act on a life.
pub fn wake_in(state: &State, now: u64) -> Option<i64>
    requires small { now < 2 ^ 52 }
    requires listed { kept.IsListed state.now }
    ensures { wakes.IsWakeBy (spec.due_in state.now) now result }
{
    if state.halted {
        return None;
    }
    let lives = Lives::open(&state.lives, &state.open_lives);
    wake_from(sooner(first_wake(&lives), state.endings.first()), now)
}

/// The request of a scrape of a life, by the settings at its start.
fn request_for(
    alloc: Global,
    start: &StartedScrape,
    life: Option<&Life>,
) -> Result<Option<Request>, NoMemory>
    ensures request { IfOk result (λ o. o ≡ spec.life_request start.now.settings.conf (option_copied life.entry)) }
    ensures fetched { IfOk result (λ o. IfSome o (λ r. spec.MayFetch r)) }
{
    match life {
        None => Ok(None),
        Some(life) => {
            let request = request_of(alloc, &start.settings.job().conf, &life.identity)?;
            Ok(request)
        }
    }
}

/// The life with this number, if there is one.
fn life_at(lives: &[Life], life: u64) -> Option<&Life>
    ensures { option_copied result ≡ slice_get lives.now life }
{
    lives.get(life as usize)
}

/// The started scrape with this ticket, if there is one.
fn start_at(started: &[StartedScrape], ticket: u64) -> Option<&StartedScrape>
    ensures { option_copied result ≡ slice_get started.now ticket }
{
    started.get(ticket as usize)
}

/// The request of a started scrape that had no finish so far, as it was at the start of the scrape.
pub fn request_in(
    alloc: Global,
    lives: &[Life],
    started: &[StartedScrape],
    ticket: u64,
) -> Result<Option<Request>, NoMemory>
    ensures request { IfOk result (λ o. o ≡ spec.start_request lives.now (slice_get started.now ticket)) }
    ensures fetched { IfOk result (λ o. IfSome o (λ r. spec.MayFetch r)) }
{
    match start_at(started, ticket) {
        None => Ok(None),
        Some(start) => {
            if start.finished {
                return Ok(None);
            }
            request_for(alloc, start, life_at(lives, start.life))
        }
    }
}
