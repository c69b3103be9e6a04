//! What becomes of the lives when the configuration in force changes.
ghost use Rattle.std.specs.Prelude.{◌≡◌, ◌≤◌, ◌<◌, ◌+◌, ◌++◌, ◌^◌, [], map, length, filter, not, option_copied, IfOk, OnOk, OnErr, ℤ, pos, false};
ghost use Rattle.std.specs.List.{list_any};
ghost use Rattle.journal_text.specs.Lines.{number};
ghost use Rattle.label_conflict.specs.Merging.{bears};
ghost use Rattle.label_set.specs.SetText.{metric_label};
ghost use Rattle.life_roll.specs.Names.{place_in};
ghost use Rattle.jobs_in_force.specs.Jobs as jobs_of;
ghost use Rattle.jobs_in_force.specs.TargetWords.{HasNoName};
ghost use Rattle.scrape_machine.specs.Lives as lives_of;
ghost use Rattle.scrape_machine.specs.Machine as spec;
ghost use Rattle.scrape_steps.specs.Plans as plan;
ghost use Rattle.scrape_steps.specs.Concerned as concerned;
ghost use Rattle.jobs_in_force.specs.Settings.{settings_of};

use crate::acts::{Transition, is_open};
use crate::concerned::Lives;
use jobs_in_force::jobs::{InForce, Settings};
use jobs_in_force::loads::job_named;
use label_set::{Name, NoMemory};
use life_roll::{JobNames, Moment, Schedule, Seat, Seats};
use scrape_loop::LifeState;
use scrape_machine::lives::{Difference, Life};
use std::alloc::Global;
use target_set::Target;

/// The names of jobs, with their places.
pub fn names_of(alloc: Global, jobs: &[InForce]) -> Result<JobNames, NoMemory>
    ensures { IfOk result (λ n. n ≡ map spec.name_of jobs.now) }
{
    let mut names = JobNames::new(alloc);
    for job in jobs {
        names.push(alloc, &job.job.job().conf.job_name)?;
    }
    Ok(names)
}

fn difference_on(before: Option<&InForce>, after: &InForce) -> Result<Difference, NoMemory>
    ensures { IfOk result (λ v. v ≡ spec.difference_on after.now (option_copied before.entry)) }
{
    let Some(before) = before else {
        return Ok(Difference::Incompatible);
    };
    let (old, new) = (&before.job.job().conf, &after.job.job().conf);
    if !old.compatible(new) {
        return Ok(Difference::Incompatible);
    }
    if old.same(new) {
        return Ok(Difference::Same);
    }
    Ok(Difference::Changed(Settings::of(&after.job)?))
}

/// How the settings of each job compare with those of the job of the same name before.
pub fn differences_of(
    alloc: Global,
    names: &JobNames,
    jobs: &[InForce],
    news: &[InForce],
) -> Result<Vec<Difference>, NoMemory>
    requires { names.now ≡ map spec.name_of jobs.now }
    ensures { IfOk result (λ v. v.items ≡ map (spec.difference jobs.now) news.now) }
{
    let mut differences = Vec::with_capacity(alloc, news.len())?;
    for job in news {
        let before = job_at(names, jobs, &job.job.job().conf.job_name);
        let difference = difference_on(before, job)?;
        differences.push(difference)?;
    }
    Ok(differences)
}

/// The job of a name, by the places of the names.
#[tactic(auto, using(crate::proofs::ReloadLemmas::named_at))]
pub fn job_at<'a>(names: &JobNames, jobs: &'a [InForce], name: &Name) -> Option<&'a InForce>
    requires { names.now ≡ map spec.name_of jobs.now }
    ensures { option_copied result ≡ jobs_of.job_named name.now jobs.now }
{
    look_job(jobs, names.place(name))
}

fn transition_by(difference: &Difference) -> Result<Transition, NoMemory>
    ensures { IfOk result (λ f. f ≡ plan.transition_by difference.now) }
{
    match difference {
        Difference::Incompatible => Ok(Transition::Closes),
        Difference::Same => Ok(Transition::Stays),
        Difference::Changed(settings) => Ok(Transition::Changes(settings.share()?)),
    }
}

fn transition_at(
    life: &Life,
    after: Option<&InForce>,
    difference: Option<&Difference>,
) -> Result<Transition, NoMemory>
    ensures { IfOk result (λ f. f ≡ plan.transition_at life.now (option_copied after.entry) (option_copied difference.entry)) }
{
    match after {
        None => Ok(Transition::Closes),
        Some(job) => match difference {
            None => Ok(Transition::Closes),
            Some(difference) => {
                if job.kept.has(&life.identity) {
                    transition_by(difference)
                } else {
                    Ok(Transition::Closes)
                }
            }
        },
    }
}

fn look_job(jobs: &[InForce], place: Option<usize>) -> Option<&InForce>
    ensures { option_copied result ≡ plan.look jobs.now place }
{
    match place {
        None => None,
        Some(place) => jobs.get(place),
    }
}

fn look_difference(differences: &[Difference], place: Option<usize>) -> Option<&Difference>
    ensures { option_copied result ≡ plan.look differences.now place }
{
    match place {
        None => None,
        Some(place) => differences.get(place),
    }
}

/// The name of a life's job.
pub fn job_name(life: &Life) -> &Name
    ensures { result.now ≡ spec.job_name life.now }
{
    &life.settings.job().conf.job_name
}

fn transition_of(
    names: &JobNames,
    news: &[InForce],
    differences: &[Difference],
    life: &Life,
) -> Result<Transition, NoMemory>
    ensures { IfOk result (λ f. f ≡ plan.transition_of names.now news.now differences.now life.now) }
{
    if !is_open(life) {
        return Ok(Transition::Stays);
    }
    let place = names.place(job_name(life));
    let after = look_job(news, place);
    let difference = look_difference(differences, place);
    transition_at(life, after, difference)
}

/// What becomes of each life that is concerned.
pub fn transitions_of(
    alloc: Global,
    names: &JobNames,
    news: &[InForce],
    differences: &[Difference],
    lives: &Lives<'_>,
) -> Result<Vec<Transition>, NoMemory>
    ensures { IfOk result (λ v. v.items ≡ map (plan.transition_of names.now news.now differences.now) (concerned.concerned lives.now)) }
{
    let mut transitions = Vec::with_capacity(alloc, lives.count())?;
    for index in 0..lives.count() {
        let transition = transition_of(names, news, differences, lives.at(index))?;
        transitions.push(transition)?;
    }
    Ok(transitions)
}

fn closes(transition: &Transition) -> bool
    ensures { result ≡ plan.closes transition.now }
{
    match transition {
        Transition::Stays => false,
        Transition::Changes(_) => false,
        Transition::Closes => true,
    }
}

/// How many lives are closed.
pub fn count_closed(transitions: &[Transition]) -> usize
    ensures value { result ≡ length (filter plan.closes transitions.now) }
    ensures few { result ≤ length transitions.now }
{
    let mut count: usize = 0;
    for transition in transitions {
        if closes(transition) {
            count += 1;
        }
    }
    count
}

fn name_after<'a>(transition: &'a Transition, life: &'a Life) -> &'a Name
    ensures { result.now ≡ spec.job_name (lives_of.life_after (plan.local_of (pos 0) transition.now) life.now) }
{
    match transition {
        Transition::Changes(settings) => &settings.job().conf.job_name,
        Transition::Stays => job_name(life),
        Transition::Closes => job_name(life),
    }
}

/// Puts the target of a life into the held ones, if the life stays open.
fn hold(
    held: &mut Seats,
    names: &JobNames,
    transition: &Transition,
    life: &Life,
) -> Result<(), NoMemory>
    ensures { OnOk result ((moment : ℤ) →
        plan.IsHeldWith held.new held.old names.now (lives_of.life_after (plan.local_of moment transition.now) life.now)) }
{
    if closes(transition) || !is_open(life) {
        return Ok(());
    }
    match names.place(name_after(transition, life)) {
        None => Ok(()),
        Some(place) => {
            let job = place as u64;
            let identity = life.identity.copy()?;
            held.put(Seat { job, identity })
        }
    }
}

/// The targets that lives have which stay open, by what becomes of those that are concerned.
pub fn held_of(
    alloc: Global,
    names: &JobNames,
    transitions: &[Transition],
    lives: &Lives<'_>,
) -> Result<Seats, NoMemory>
    requires { length transitions.now ≡ length (concerned.concerned lives.now) }
    ensures { IfOk result (λ s. (moment : ℤ) →
        plan.IsHeld s names.now (plan.after_each moment
        (concerned.all_transitions (concerned.concerns lives.now.moment) transitions.now lives.now.all) lives.now.all)) }
{
    let mut held = Seats::new(alloc);
    let mut place: usize = 0;
    for transition in transitions {
        hold(&mut held, names, transition, lives.at(place))?;
        place += 1;
    }
    Ok(held)
}

/// A life of a target that begins at a moment.
#[tactic(auto, unfolding(scrape_machine::specs::Lives::born))]
fn born(
    alloc: Global,
    moment: Moment,
    life: u64,
    job: &InForce,
    target: &Target,
) -> Result<Life, NoMemory>
    requires { bears target.now.labels metric_label ≡ false }
    ensures { IfOk result (λ l. l ≡ lives_of.born (number moment) life (settings_of job.now.job) target.now) }
{
    let settings = Settings::of(&job.job)?;
    let schedule = Schedule::begun(moment, settings.interval());
    let extra = job.job.job().conf.extra_scrape_metrics;
    Ok(Life {
        state: LifeState::new(alloc, life, target.labels.copy()?, extra)?,
        identity: target.identity.copy()?,
        settings,
        schedule,
        ended: false,
    })
}

/// Whether an open life has a target of a job, by the place of the job's name.
fn is_held(held: &Seats, place: Option<usize>, target: &Target) -> Result<bool, NoMemory>
    ensures { IfOk result (λ b. b ≡ plan.is_seated held.now target.now.identity place) }
{
    match place {
        None => Ok(false),
        Some(place) => {
            let job = place as u64;
            let identity = target.identity.copy()?;
            Ok(held.has(&Seat { job, identity }))
        }
    }
}

/// The targets of which a life is held, and the place of a job.
#[derive(Clone, Copy)]
struct HeldTargets<'s> {
    seats: &'s Seats,
    place: Option<usize>,
}

/// Adds the lives of targets of a job that begin at a moment: those of which no life is held.
fn push_born(
    alloc: Global,
    lives: &mut Vec<Life>,
    moment: Moment,
    first: u64,
    job: &InForce,
    held: &HeldTargets<'_>,
) -> Result<(), NoMemory>
    requires { first < 2 ^ 32 }
    ensures { OnOk result (lives.new.items ≡ lives.old.items
        ++ spec.born_all (number moment) (first + length lives.old.items) job.now
        (filter (λ (t : Target). not (plan.is_seated held.now.seats.now t.identity held.now.place)) job.now.kept)) }
{
    for target in job.kept.as_slice() {
        if !is_held(held.seats, held.place, target)? {
            let number = first + lives.len() as u64;
            let life = born(alloc, moment, number, job, target)?;
            lives.reserve(1)?;
            lives.push_reserved(life);
        }
    }
    Ok(())
}

/// The lives that begin at a moment, where the first has number `first`.
pub fn births_of(
    alloc: Global,
    moment: Moment,
    first: u64,
    names: &JobNames,
    news: &[InForce],
    held: &Seats,
) -> Result<Vec<Life>, NoMemory>
    requires { first < 2 ^ 32 }
    ensures { IfOk result (λ v. v.items ≡ plan.births_by (number moment) first held.now names.now news.now) }
{
    let mut lives = Vec::new(alloc);
    for job in news {
        let place = names.place(&job.job.job().conf.job_name);
        let held = HeldTargets { seats: held, place };
        push_born(alloc, &mut lives, moment, first, job, &held)?;
    }
    Ok(lives)
}
