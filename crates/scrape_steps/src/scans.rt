//! What sweeps and ticks do to the lives and to the started scrapes.
ghost use Rattle.std.specs.List.{flat_map};
ghost use Rattle.std.specs.Prelude.{◌≡◌, ◌≤◌, ◌<◌, ◌+◌, ◌^◌, ◌++◌, map, length, filter, slice_get, option_copied, Some, IfOk, OnOk, OnErr};
ghost use Rattle.journal_text.specs.declared.events.Event.TheVariants.{Sweep};
ghost use Rattle.journal_text.specs.Lines.{number};
ghost use Rattle.jobs_in_force.specs.Jobs as jobs_of;
ghost use Rattle.scrape_machine.specs.Lives as lives_of;
ghost use Rattle.scrape_machine.specs.Machine as spec;
ghost use Rattle.scrape_steps.specs.Scans as scanned;
ghost use Rattle.scrape_steps.specs.Concerned as concerned;

use crate::acts::{ends, forces, is_open, life_at, push_scan, scan_at, starts};
use crate::concerned::Lives;
use crate::reloads::{job_at, job_name};
use jobs_in_force::jobs::InForce;
use jobs_in_force::loads::job_named;
use label_set::NoMemory;
use life_roll::{JobNames, Moment};
use report_samples::Entry;
use scrape_machine::Answer;
use scrape_machine::lives::{Life, StartedScrape};
use std::alloc::Global;

fn is_crowded(job: Option<&InForce>) -> bool
    ensures { result ≡ jobs_of.is_crowded (option_copied job.entry) }
{
    match job {
        None => false,
        Some(job) => job.over,
    }
}

/// Whether the scrape of a life is forced, where one is due.
fn is_over(names: &JobNames, jobs: &[InForce], life: &Life) -> bool
    requires { names.now ≡ map spec.name_of jobs.now }
    ensures { result ≡ spec.is_over jobs.now life.now }
{
    is_open(life) && is_crowded(job_at(names, jobs, job_name(life)))
}

fn starts_in(names: &JobNames, jobs: &[InForce], moment: Moment, life: &Life) -> bool
    requires { names.now ≡ map spec.name_of jobs.now }
    ensures { result ≡ spec.starts_in jobs.now (number moment) life.now }
{
    starts(moment, is_over(names, jobs, life), life)
}

fn forces_in(names: &JobNames, jobs: &[InForce], moment: Moment, life: &Life) -> bool
    requires { names.now ≡ map spec.name_of jobs.now }
    ensures { result ≡ spec.forces_in jobs.now (number moment) life.now }
{
    forces(moment, is_over(names, jobs, life), life)
}

/// How many lives a sweep starts a scrape of.
pub fn count_starts(names: &JobNames, jobs: &[InForce], moment: Moment, lives: &Lives<'_>) -> usize
    requires { names.now ≡ map spec.name_of jobs.now }
    ensures value { result ≡ length (filter (spec.starts_in jobs.now (number moment)) lives.now.all) }
    ensures few { result ≤ length lives.now.all }
{
    let mut count: usize = 0;
    for index in 0..lives.count() {
        if starts_in(names, jobs, moment, lives.at(index)) {
            count += 1;
        }
    }
    count
}

/// How many lives a sweep forces a scrape of.
pub fn count_forced(names: &JobNames, jobs: &[InForce], moment: Moment, lives: &Lives<'_>) -> usize
    requires { names.now ≡ map spec.name_of jobs.now }
    ensures value { result ≡ length (filter (spec.forces_in jobs.now (number moment)) lives.now.all) }
    ensures few { result ≤ length lives.now.all }
{
    let mut count: usize = 0;
    for index in 0..lives.count() {
        if forces_in(names, jobs, moment, lives.at(index)) {
            count += 1;
        }
    }
    count
}

/// How many endings a sweep takes.
pub fn count_ends(moment: Moment, lives: &Lives<'_>) -> usize
    requires { lives.now.moment ≡ Some moment }
    ensures value { result ≡ length (filter (lives_of.ends (number moment)) lives.now.all) }
    ensures few { result ≤ length lives.now.all }
{
    let mut count: usize = 0;
    for index in 0..lives.count() {
        if ends(moment, lives.at(index)) {
            count += 1;
        }
    }
    count
}

/// Adds the scrape of a life that starts at a moment, if one does, by whether it is over the target limit of its job.
fn push_start(
    begun: &mut Vec<StartedScrape>,
    over: bool,
    moment: Moment,
    life: &Life,
    place: u64,
) -> Result<(), NoMemory>
    ensures { OnOk result (begun.new.items
        ≡ begun.old.items ++ spec.started_by (lives_of.starts (number moment) over life.now) place life.now) }
{
    if starts(moment, over, life) {
        let settings = life.settings.share()?;
        begun.reserve(1)?;
        begun.push_reserved(StartedScrape {
            life: place,
            settings,
            finished: false,
        });
    }
    Ok(())
}

/// The scrapes that a sweep starts.
pub fn starts_of(
    alloc: Global,
    names: &JobNames,
    jobs: &[InForce],
    moment: Moment,
    lives: &Lives<'_>,
) -> Result<Vec<StartedScrape>, NoMemory>
    requires { names.now ≡ map spec.name_of jobs.now }
    ensures { IfOk result (λ v. v.items ≡ spec.starts_from jobs.now (number moment) 0 lives.now.all) }
{
    let mut begun = Vec::new(alloc);
    for index in 0..lives.count() {
        let place = lives.place(index) as u64;
        let life = lives.at(index);
        let over = is_over(names, jobs, life);
        push_start(&mut begun, over, moment, life, place)?;
    }
    Ok(begun)
}

/// The entries of a sweep: of each scrape that it forces, and of each ending that it takes.
pub fn entries_of(
    alloc: Global,
    names: &JobNames,
    jobs: &[InForce],
    moment: Moment,
    lives: &Lives<'_>,
) -> Result<Vec<Entry>, NoMemory>
    requires names { names.now ≡ map spec.name_of jobs.now }
    requires moment { lives.now.moment ≡ Some moment }
    ensures { IfOk result (λ v. v.items ≡ flat_map (scanned.swept_entries jobs.now moment) lives.now.all) }
{
    let mut entries = Vec::new(alloc);
    for index in 0..lives.count() {
        let life = lives.at(index);
        let over = is_over(names, jobs, life);
        push_scan(alloc, &mut entries, moment, over, life)?;
    }
    Ok(entries)
}

/// The jobs in force, and their names.
#[derive(Clone, Copy)]
pub struct NamedJobs<'n, 'j> {
    pub names: &'n JobNames,
    pub jobs: &'j [InForce],
}

/// Scans each life that a sweep concerns, by their places.
pub fn sweep_lives(
    named: &NamedJobs<'_, '_>,
    lives: &mut [Life],
    places: &[usize],
    started: &[StartedScrape],
    moment: Moment,
)
    requires names { named.now.names.now ≡ map spec.name_of named.now.jobs.now }
    requires places { places.now ≡ concerned.places_where (concerned.concerns (Some moment)) 0 lives.old }
    ensures { lives.new ≡ spec.lives_from (spec.world named.now.jobs.now lives.old started.now) (Sweep moment) 0 lives.old }
{
    let mut ticket = started.len() as u64;
    for place in places {
        let life = life_at(lives, *place);
        let over = is_over(named.names, named.jobs, life);
        let one = starts(moment, over, life);
        scan_at(lives, *place, moment, ticket, over);
        if one {
            ticket += 1;
        }
    }
}

/// The answer to a tick of a life, where the ticket is the next one.
pub fn tick_answer(jobs: &[InForce], moment: Moment, ticket: u64, life: Option<&Life>) -> Answer
    ensures { result ≡ spec.tick_answer jobs.now (number moment) ticket (option_copied life.entry) }
{
    let Some(life) = life else {
        return Answer::NoLife;
    };
    if !is_open(life) {
        Answer::NoLife
    } else if life.schedule.flight.is_some() {
        Answer::Busy
    } else if moment.number() < life.schedule.planned.ms() {
        Answer::NotDue
    } else if is_over_in(jobs, life) {
        Answer::Forced
    } else {
        Answer::Started { ticket }
    }
}

/// Whether the scrape of a life is forced, where one is due; the job is looked up among all.
pub fn is_over_in(jobs: &[InForce], life: &Life) -> bool
    ensures { result ≡ spec.is_over jobs.now life.now }
{
    is_open(life) && is_crowded(job_named(job_name(life), jobs))
}

/// The scrape that a tick starts, if any.
pub fn ticked(
    alloc: Global,
    over: bool,
    moment: Moment,
    life: &Life,
    place: u64,
) -> Result<Vec<StartedScrape>, NoMemory>
    ensures { IfOk result (λ v. v.items ≡ spec.started_by (lives_of.starts (number moment) over life.now) place life.now) }
{
    let mut begun = Vec::new(alloc);
    push_start(&mut begun, over, moment, life, place)?;
    Ok(begun)
}
