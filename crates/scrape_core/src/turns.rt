//! Sweeps and ticks.
ghost use Rattle.std.specs.Prelude.{◌≡◌, ◌≤◌, ◌<◌, ◌+◌, ◌^◌, ◌++◌, length, vec_len, vec_capacity, true, map, filter, slice_get, option_copied, Some, IfOk, OnOk, OnErr};
ghost use Rattle.journal_text.specs.declared.events.Event.TheVariants.{Sweep, Tick};
ghost use Rattle.journal_text.specs.Lines.{number};
ghost use Rattle.scrape_machine.specs.Lives as lives_of;
ghost use Rattle.scrape_machine.specs.Machine as spec;
ghost use Rattle.scrape_steps.specs.Concerned as concerned;
ghost use Rattle.scrape_steps.specs.Endings as ends;
ghost use Rattle.scrape_steps.specs.Scans as scanned;
ghost use Rattle.scrape_core.specs.Kept as kept;

use crate::state::State;
use appender_book::Book;
use label_set::NoMemory;
use life_roll::{JobNames, Moment};
use report_samples::EntryList;
use scrape_machine::Answer;
use scrape_machine::lives::{Life, StartedScrape};
use scrape_steps::acts::{is_open, push_scan, scan};
use scrape_steps::concerned::{Lives, swept_places};
use scrape_steps::reloads::names_of;
use scrape_steps::scans::{
    NamedJobs, count_ends, count_forced, count_starts, entries_of, is_over_in, starts_of,
    sweep_lives, tick_answer, ticked,
};
use std::alloc::Global;

/// Adds started scrapes, into room that was made before.
fn push_starts(started: &mut Vec<StartedScrape>, begun: Vec<StartedScrape>)
    requires { vec_len started.old + length begun.items ≤ vec_capacity started.old }
    ensures { started.new.items ≡ started.old.items ++ begun.items }
{
    for start in begun {
        started.push_reserved(start);
    }
}

/// The answer to a sweep at a moment, by the places of the lives that it concerns.
fn sweep_answer(names: &JobNames, state: &State, places: &[usize], moment: Moment) -> Answer
    requires names { names.now ≡ map spec.name_of state.now.jobs.items }
    requires few { kept.HasFew state.now }
    requires places { places.now ≡ concerned.places_where (concerned.concerns (Some moment)) 0 state.now.lives.items }
    ensures { result ≡ spec.sweep_answer (kept.live state.now) (number moment) }
{
    let lives = Lives::swept(&state.lives, places, moment);
    Answer::Swept {
        first: state.started.len() as u64,
        started: count_starts(names, &state.jobs, moment, &lives) as u32,
        forced: count_forced(names, &state.jobs, moment, &lives) as u32,
        ended: count_ends(moment, &lives) as u64,
    }
}

/// Appends the entries that a sweep at a moment gives, before the lives are swept.
fn append_swept(
    alloc: Global,
    names: &JobNames,
    state: &State,
    places: &[usize],
    book: &mut Book,
    moment: Moment,
) -> Result<(), NoMemory>
    requires names { names.now ≡ map spec.name_of state.now.jobs.items }
    requires places { places.now ≡ concerned.places_where (concerned.concerns (Some moment)) 0 state.now.lives.items }
    ensures book { OnOk result (kept.Appends (kept.live state.now) (Sweep moment) book.old.entries book.new.entries) }
    ensures err { OnErr result (book.new ≡ book.old) }
{
    let lives = Lives::swept(&state.lives, places, moment);
    let items = entries_of(alloc, names, &state.jobs, moment, &lives)?;
    book.append_all(EntryList { items })
}

/// A sweep at a moment, by the places of the lives that it concerns.
fn sweep(
    alloc: Global,
    state: &mut State,
    book: &mut Book,
    moment: Moment,
    places: &[usize],
) -> Result<Answer, NoMemory>
    requires few { kept.HasFew state.old }
    requires places { places.now ≡ concerned.places_where (concerned.concerns (Some moment)) 0 state.old.lives.items }
    ensures answer { IfOk result (λ a. a ≡ spec.answer (kept.live state.old) (Sweep moment)) }
    ensures lives { OnOk result (state.new.lives.items ≡ spec.lives_from (kept.live state.old) (Sweep moment) 0 state.old.lives.items) }
    ensures state { OnOk result (kept.live state.new ≡ spec.step (kept.live state.old) (Sweep moment)) }
    ensures book { OnOk result (kept.Appends (kept.live state.old) (Sweep moment) book.old.entries book.new.entries) }
    ensures few { OnOk result (kept.HasFew state.new) }
    ensures opens { state.new.open_lives ≡ state.old.open_lives }
    ensures endings { state.new.endings ≡ state.old.endings }
    ensures same { state.new.halted ≡ state.old.halted }
    ensures err { OnErr result (kept.live state.new ≡ kept.live state.old) }
    ensures err_book { OnErr result (book.new.entries ≡ book.old.entries) }
{
    let names = names_of(alloc, &state.jobs)?;
    let answer = sweep_answer(&names, state, places, moment);
    let lives = Lives::swept(&state.lives, places, moment);
    let begun = starts_of(alloc, &names, &state.jobs, moment, &lives)?;
    state.started.reserve(begun.len())?;
    append_swept(alloc, &names, state, places, book, moment)?;
    let named = NamedJobs {
        names: &names,
        jobs: &state.jobs,
    };
    sweep_lives(&named, &mut state.lives, places, &state.started, moment);
    push_starts(&mut state.started, begun);
    Ok(answer)
}

/// A sweep at a moment, by the endings that are due then.
fn sweep_due(
    alloc: Global,
    state: &mut State,
    book: &mut Book,
    moment: Moment,
    due: &[(u64, usize)],
) -> Result<Answer, NoMemory>
    requires few { kept.HasFew state.old }
    requires opens { state.old.open_lives.items ≡ concerned.places_where lives_of.is_open 0 state.old.lives.items }
    requires due { ends.HoldSame (filter (ends.is_due (number moment)) (ends.endings_from 0 state.old.lives.items)) due.now }
    ensures answer { IfOk result (λ a. a ≡ spec.answer (kept.live state.old) (Sweep moment)) }
    ensures lives { OnOk result (state.new.lives.items ≡ spec.lives_from (kept.live state.old) (Sweep moment) 0 state.old.lives.items) }
    ensures state { OnOk result (kept.live state.new ≡ spec.step (kept.live state.old) (Sweep moment)) }
    ensures book { OnOk result (kept.Appends (kept.live state.old) (Sweep moment) book.old.entries book.new.entries) }
    ensures few { OnOk result (kept.HasFew state.new) }
    ensures opens { state.new.open_lives ≡ state.old.open_lives }
    ensures endings { state.new.endings ≡ state.old.endings }
    ensures same { state.new.halted ≡ state.old.halted }
    ensures err { OnErr result (kept.live state.new ≡ kept.live state.old) }
    ensures err_book { OnErr result (book.new.entries ≡ book.old.entries) }
{
    let places = swept_places(alloc, &state.open_lives, due)?;
    sweep(alloc, state, book, moment, &places)
}

/// A sweep at a moment: it takes the endings that are due out of those that wait, and puts them back where it is refused.
pub fn take_sweep(
    alloc: Global,
    state: &mut State,
    book: &mut Book,
    moment: Moment,
) -> Result<Answer, NoMemory>
    requires few { kept.HasFew state.old }
    requires listed { kept.IsListed state.old }
    ensures answer { IfOk result (λ a. a ≡ spec.answer (kept.live state.old) (Sweep moment)) }
    ensures state { OnOk result (kept.live state.new ≡ spec.step (kept.live state.old) (Sweep moment)) }
    ensures book { OnOk result (kept.Appends (kept.live state.old) (Sweep moment) book.old.entries book.new.entries) }
    ensures few { OnOk result (kept.HasFew state.new) }
    ensures listed { kept.IsListed state.new }
    ensures same { state.new.halted ≡ state.old.halted }
    ensures err { OnErr result (kept.live state.new ≡ kept.live state.old) }
    ensures err_book { OnErr result (book.new.entries ≡ book.old.entries) }
{
    let due = state.endings.take_due(alloc, moment.number())?;
    match sweep_due(alloc, state, book, moment, &due) {
        Ok(answer) => Ok(answer),
        Err(error) => {
            state.endings.put_back(due);
            Err(error)
        }
    }
}

/// A tick at a moment of an open life.
fn tick_open(
    alloc: Global,
    state: &mut State,
    book: &mut Book,
    moment: Moment,
    life: u64,
) -> Result<(), NoMemory>
    requires there { scanned.is_open_at (kept.live state.old) life ≡ true }
    requires few { kept.HasFew state.old }
    requires listed { kept.IsListed state.old }
    ensures state { OnOk result (kept.live state.new ≡ spec.step (kept.live state.old) (Tick moment life)) }
    ensures book { OnOk result (kept.Appends (kept.live state.old) (Tick moment life) book.old.entries book.new.entries) }
    ensures few { OnOk result (kept.HasFew state.new) }
    ensures listed { kept.IsListed state.new }
    ensures same { state.new.halted ≡ state.old.halted }
    ensures err { OnErr result (kept.live state.new ≡ kept.live state.old) }
    ensures err_book { OnErr result (book.new.entries ≡ book.old.entries) }
{
    let one = &state.lives[life as usize];
    let over = is_over_in(&state.jobs, one);
    let begun = ticked(alloc, over, moment, one, life)?;
    let mut items = Vec::new(alloc);
    push_scan(alloc, &mut items, moment, over, one)?;
    state.started.reserve(begun.len())?;
    book.append_all(EntryList { items })?;
    let ticket = state.started.len() as u64;
    scan(&mut state.lives[life as usize], moment, ticket, over);
    push_starts(&mut state.started, begun);
    Ok(())
}

/// The life with this number, if there is one.
fn life_at(lives: &[Life], life: u64) -> Option<&Life>
    ensures { option_copied result ≡ slice_get lives.now life }
{
    lives.get(life as usize)
}

/// Whether there is an open life with this number.
fn is_open_at(lives: &[Life], life: u64) -> bool
    ensures { result ≡ scanned.is_open_life (slice_get lives.now life) }
{
    match life_at(lives, life) {
        None => false,
        Some(life) => is_open(life),
    }
}

/// A tick at a moment of the life with this number.
pub fn take_tick(
    alloc: Global,
    state: &mut State,
    book: &mut Book,
    moment: Moment,
    life: u64,
) -> Result<Answer, NoMemory>
    requires few { kept.HasFew state.old }
    requires listed { kept.IsListed state.old }
    ensures answer { IfOk result (λ a. a ≡ spec.answer (kept.live state.old) (Tick moment life)) }
    ensures state { OnOk result (kept.live state.new ≡ spec.step (kept.live state.old) (Tick moment life)) }
    ensures book { OnOk result (kept.Appends (kept.live state.old) (Tick moment life) book.old.entries book.new.entries) }
    ensures few { OnOk result (kept.HasFew state.new) }
    ensures listed { kept.IsListed state.new }
    ensures same { state.new.halted ≡ state.old.halted }
    ensures err { OnErr result (kept.live state.new ≡ kept.live state.old) }
    ensures err_book { OnErr result (book.new.entries ≡ book.old.entries) }
{
    let ticket = state.started.len() as u64;
    let answer = tick_answer(&state.jobs, moment, ticket, life_at(&state.lives, life));
    if is_open_at(&state.lives, life) {
        tick_open(alloc, state, book, moment, life)?;
    }
    Ok(answer)
}
