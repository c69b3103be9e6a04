//! Loads of a configuration and updates of a file's targets.
ghost use Rattle.std.specs.Prelude.{◌≡◌, ◌≤◌, ◌<◌, ◌+◌, ◌^◌, ◌++◌, [], List, length, map, filter, vec_len, vec_capacity, None, Ok, IfOk, OnOk, OnErr};
ghost use Rattle.std.specs.List.{range_with_len};
ghost use Rattle.journal_text.specs.declared.events.Event.TheVariants.{Load};
ghost use Rattle.scrape_machine.specs.Lives as lives_of;
ghost use Rattle.scrape_machine.specs.Machine as spec;
ghost use Rattle.scrape_steps.specs.Plans as plan;
ghost use Rattle.scrape_steps.specs.Reloads as reloads;
ghost use Rattle.scrape_machine.specs.Runs.{runs};
ghost use Rattle.scrape_steps.specs.Concerned as concerned;
ghost use Rattle.scrape_core.specs.Kept as kept;

use crate::state::State;
use crate::taken::{Taken, without_runs};
use jobs_in_force::jobs::InForce;
use jobs_in_force::listed::{listed_by, listed_by_named};
use jobs_in_force::loads::{in_force_all, load_of};
use jobs_in_force::updates::{UpdateError, jobs_updated, update_of};
use label_set::{Blob, Name, NoMemory, Steps};
use life_roll::{JobNames, Moment};
use scrape_config::ConfError;
use scrape_machine::Answer;
use scrape_machine::lives::Life;
use scrape_steps::acts::{Transition, apply_all};
use scrape_steps::closings::push_endings;
use scrape_steps::concerned::{Lives, drop_closed};
use scrape_steps::reloads::{
    births_of, count_closed, differences_of, held_of, names_of, transitions_of,
};
use std::alloc::Global;
use std::sync::ledger::Ledger;

/// The most lives that there can be, plus one.
const LIVES: u64 = 1 << 32;

/// A change of the configuration in force: what becomes of each open life, and the lives that begin.
#[derive(Drop)]
pub struct Change {
    transitions: Vec<Transition>,
    begun: Vec<Life>,
}

/// How many lives a change closes and begins.
#[derive(Clone, Copy, Debug)]
pub struct Synced {
    pub closed: u32,
    pub begun: u32,
}

/// What becomes of each life that is concerned, where some jobs give way to others; nothing changes yet.
fn transitions_to(
    alloc: Global,
    olds: &[InForce],
    names: &JobNames,
    news: &[InForce],
    lives: &Lives<'_>,
) -> Result<Vec<Transition>, NoMemory>
    ensures { IfOk result (λ v. v.items ≡
        map (plan.transition_of names.now news.now (map (spec.difference olds.now) news.now)) (concerned.concerned lives.now)) }
{
    let old_names = names_of(alloc, olds)?;
    let differences = differences_of(alloc, &old_names, olds, news)?;
    transitions_of(alloc, names, news, &differences, lives)
}

/// What a change at a moment from some jobs to others comes to; nothing changes yet.
fn change_to(
    alloc: Global,
    moment: Moment,
    olds: &[InForce],
    lives: &Lives<'_>,
    news: &[InForce],
) -> Result<Change, NoMemory>
    requires few { length lives.now.all < 2 ^ 32 }
    requires opens { lives.now.moment ≡ None }
    ensures each { IfOk result (λ c. length c.transitions.items ≡ length (filter lives_of.is_open lives.now.all)) }
    ensures lives { IfOk result (λ c. plan.after_each moment (concerned.all_transitions lives_of.is_open c.transitions.items lives.now.all) lives.now.all
        ≡ reloads.reload_lives moment news.now (spec.world olds.now lives.now.all [])) }
    ensures closed { IfOk result (λ c. length (filter plan.closes c.transitions.items)
        ≡ reloads.closed_by moment news.now (spec.world olds.now lives.now.all [])) }
    ensures begun { IfOk result (λ c. c.begun.items ≡ reloads.reload_births moment news.now (spec.world olds.now lives.now.all [])) }
{
    let names = names_of(alloc, news)?;
    let transitions = transitions_to(alloc, olds, &names, news, lives)?;
    let held = held_of(alloc, &names, &transitions, lives)?;
    let first = lives.len() as u64;
    let begun = births_of(alloc, moment, first, &names, news, &held)?;
    Ok(Change { transitions, begun })
}

/// Adds lives, into room that was made before.
fn push_lives(lives: &mut Vec<Life>, begun: Vec<Life>)
    requires { vec_len lives.old + length begun.items ≤ vec_capacity lives.old }
    ensures { lives.new.items ≡ lives.old.items ++ begun.items }
{
    for life in begun {
        lives.push_reserved(life);
    }
}

/// Adds so many places from the first one on, into room that was made before.
fn push_places(places: &mut Vec<usize>, first: usize, count: usize)
    requires room { vec_len places.old + count ≤ vec_capacity places.old }
    requires few { first + count < 2 ^ 32 }
    ensures { places.new.items ≡ places.old.items ++ range_with_len first count }
{
    for more in 0..count {
        places.push_reserved(first + more);
    }
}

/// Makes a change at a moment: how many lives close and begin.
fn reload(
    alloc: Global,
    state: &mut State,
    moment: Moment,
    jobs: Vec<InForce>,
) -> Result<Synced, NoMemory>
    requires few { kept.HasFew state.old }
    requires listed { kept.IsListed state.old }
    ensures closed { IfOk result (λ s. s.closed ≡ reloads.closed_by moment jobs.items (kept.live state.old)) }
    ensures begun { IfOk result (λ s. s.begun ≡ reloads.begun_by moment jobs.items (kept.live state.old)) }
    ensures state { OnOk result (kept.live state.new ≡ reloads.reloaded moment jobs.items (kept.live state.old)) }
    ensures few { OnOk result (kept.HasFew state.new) }
    ensures listed { kept.IsListed state.new }
    ensures same { state.new.halted ≡ state.old.halted }
    ensures err { OnErr result (kept.live state.new ≡ kept.live state.old) }
{
    let lives = Lives::open(&state.lives, &state.open_lives);
    let change = change_to(alloc, moment, &state.jobs, &lives, &jobs)?;
    let (transitions, begun) = (change.transitions, change.begun);
    let first = state.lives.len();
    if (first as u64).saturating_add(begun.len() as u64) >= LIVES {
        return Err(NoMemory);
    }
    let synced = Synced {
        closed: count_closed(&transitions) as u32,
        begun: begun.len() as u32,
    };
    state.lives.reserve(begun.len())?;
    state.open_lives.reserve(begun.len())?;
    state.endings.reserve(state.open_lives.len())?;
    apply_all(&mut state.lives, &state.open_lives, moment, transitions);
    push_endings(&mut state.endings, &state.open_lives, &state.lives);
    drop_closed(&mut state.open_lives, &state.lives);
    push_places(&mut state.open_lives, first, begun.len());
    push_lives(&mut state.lives, begun);
    state.jobs = jobs;
    Ok(synced)
}

/// A load of a configuration at a moment.
pub fn take_load<L: Ledger>(
    alloc: Global,
    state: &mut State,
    moment: Moment,
    text: &Blob,
    steps: &mut Steps<L>,
) -> Result<Taken, NoMemory>
    requires few { kept.HasFew state.old }
    requires listed { kept.IsListed state.old }
    ensures answer { IfOk result (λ t. t.answer ≡ spec.answer (kept.live state.old) (Load moment text.now)) }
    ensures runs { IfOk result (λ t. t.runs ≡ runs (kept.live state.old) (Load moment text.now)) }
    ensures steps { OnOk result (steps.new ≡ steps.old + runs (kept.live state.old) (Load moment text.now)) }
    ensures at_least { steps.old ≤ steps.new }
    ensures at_most { steps.new ≤ steps.old + runs (kept.live state.old) (Load moment text.now) }
    ensures state { OnOk result (kept.live state.new ≡ spec.step (kept.live state.old) (Load moment text.now)) }
    ensures few { OnOk result (kept.HasFew state.new) }
    ensures listed { kept.IsListed state.new }
    ensures same { state.new.halted ≡ state.old.halted }
    ensures err { OnErr result (kept.live state.new ≡ kept.live state.old) }
{
    match load_of(alloc, &state.jobs, text.as_slice()) {
        Ok(filed) => {
            let jobs = in_force_all(alloc, filed, steps)?;
            let runs = listed_by(&jobs)?;
            let synced = reload(alloc, state, moment, jobs)?;
            let answer = Answer::Loaded {
                closed: synced.closed,
                begun: synced.begun,
            };
            Ok(Taken { answer, runs })
        }
        Err(ConfError::Bad(fault)) => Ok(without_runs(Answer::Refused(fault))),
        Err(ConfError::NoMemory) => Err(NoMemory),
    }
}

/// A text of targets, and the job and the file that it is of.
#[derive(Clone, Copy)]
pub struct TargetsFile<'e> {
    pub job: &'e Name,
    pub file: &'e Name,
    pub text: &'e Blob,
}

/// An update of the targets of a job's file at a moment.
pub fn take_update<L: Ledger>(
    alloc: Global,
    state: &mut State,
    moment: Moment,
    update: &TargetsFile<'_>,
    steps: &mut Steps<L>,
) -> Result<Taken, NoMemory>
    requires few { kept.HasFew state.old }
    requires listed { kept.IsListed state.old }
    ensures answer { IfOk result (λ t. t.answer ≡ spec.answer (kept.live state.old) (kept.update_event moment update.now)) }
    ensures runs { IfOk result (λ t. t.runs ≡ runs (kept.live state.old) (kept.update_event moment update.now)) }
    ensures steps { OnOk result (steps.new ≡ steps.old + runs (kept.live state.old) (kept.update_event moment update.now)) }
    ensures at_least { steps.old ≤ steps.new }
    ensures at_most { steps.new ≤ steps.old + runs (kept.live state.old) (kept.update_event moment update.now) }
    ensures state { OnOk result (kept.live state.new ≡ spec.step (kept.live state.old) (kept.update_event moment update.now)) }
    ensures few { OnOk result (kept.HasFew state.new) }
    ensures listed { kept.IsListed state.new }
    ensures same { state.new.halted ≡ state.old.halted }
    ensures err { OnErr result (kept.live state.new ≡ kept.live state.old) }
{
    let text = update.text.as_slice();
    match update_of(alloc, &state.jobs, update.job, update.file, text) {
        Ok(taken) => {
            let jobs = jobs_updated(alloc, &state.jobs, &taken, steps)?;
            let runs = listed_by_named(update.job, &jobs)?;
            let synced = reload(alloc, state, moment, jobs)?;
            let answer = Answer::Updated {
                closed: synced.closed,
                begun: synced.begun,
            };
            Ok(Taken { answer, runs })
        }
        Err(UpdateError::NoJob) => Ok(without_runs(Answer::NoJob)),
        Err(UpdateError::NoFile) => Ok(without_runs(Answer::NoFile)),
        Err(UpdateError::Bad(fault)) => Ok(without_runs(Answer::Refused(fault))),
        Err(UpdateError::NoMemory) => Err(NoMemory),
    }
}
