//! What an event makes of a life, and the entries that it gives.
ghost use Rattle.std.specs.Prelude.{◌≡◌, ◌<◌, ◌≤◌, ◌++◌, [], map, length, get_or, filter, false, Some, None, IfOk, OnOk};
ghost use Rattle.end_of_run.specs.Endings.{IsInLimits};
ghost use Rattle.journal_text.specs.Lines.{number};
ghost use Rattle.scrape_machine.specs.declared.lives.Life.{Life};
ghost use Rattle.scrape_machine.specs.Lives as spec;
ghost use Rattle.scrape_machine.specs.Machine.{closes};
ghost use Rattle.scrape_steps.specs.Plans as plan;
ghost use Rattle.scrape_steps.specs.Concerned as concerned;

use crate::finishes::rules_of;
use end_of_run::{due_at, ending_entries};
use jobs_in_force::jobs::Settings;
use label_set::NoMemory;
use life_roll::Moment;
use report_samples::{Closing, Entry};
use scrape_machine::lives::Life;
use std::alloc::Global;

/// What becomes of a life when the configuration in force changes.
#[derive(Drop)]
pub enum Transition {
    /// It stays as it is.
    Stays,
    /// It stays open, with these settings.
    Changes(Settings),
    /// It is closed.
    Closes,
}

/// Whether the life is open.
pub fn is_open(life: &Life) -> bool
    ensures { result ≡ spec.is_open life.now }
{
    life.schedule.is_open()
}

/// Whether a sweep at a moment takes the ending of a life that was closed at another.
pub fn ends_at(moment: Moment, closed: Moment, life: &Life) -> bool
    ensures { result ≡ spec.ends_at (number moment) closed life.now }
{
    let schedule = &life.schedule;
    let due = due_at(
        schedule.planned.ms(),
        closed.number(),
        schedule.interval.ms(),
    );
    !life.ended && moment.number() >= due
}

/// Whether a sweep at a moment takes the life's ending.
pub fn ends(moment: Moment, life: &Life) -> bool
    ensures { result ≡ spec.ends (number moment) life.now }
{
    match life.schedule.closed {
        None => false,
        Some(closed) => ends_at(moment, closed, life),
    }
}

/// Whether a scan at a moment starts a scrape of a life, where its job is over its limit of targets or isn't.
pub fn starts(moment: Moment, over: bool, life: &Life) -> bool
    ensures { result ≡ spec.starts (number moment) over life.now }
{
    life.schedule.is_due(moment) && !over
}

/// Whether a scan at a moment forces a scrape of a life.
pub fn forces(moment: Moment, over: bool, life: &Life) -> bool
    ensures { result ≡ spec.forces (number moment) over life.now }
{
    life.schedule.is_due(moment) && over
}

fn scan_open(life: &mut Life, moment: Moment, ticket: u64, over: bool)
    ensures { life.new ≡ spec.scanned_life moment ticket over life.old None }
{
    let forced = forces(moment, over, life);
    let _ = life.schedule.scan(moment, ticket, over);
    if forced {
        life.state.force();
    }
}

fn scan_closed(life: &mut Life, moment: Moment, _ticket: u64, _over: bool, closed: Moment)
    ensures { life.new ≡ spec.scanned_life moment _ticket _over life.old (Some closed) }
{
    if ends_at(moment, closed, life) {
        life.state.release();
        life.ended = true;
    }
}

/// Scans a life.
pub fn scan(life: &mut Life, moment: Moment, ticket: u64, over: bool)
    ensures { life.new ≡ spec.scanned_life moment ticket over life.old life.old.schedule.closed }
{
    match life.schedule.closed {
        None => scan_open(life, moment, ticket, over),
        Some(closed) => scan_closed(life, moment, ticket, over, closed),
    }
}

fn change(life: &mut Life, moment: Moment, settings: Settings)
    ensures { life.new ≡ spec.changed moment settings life.old }
{
    life.schedule.change(moment, settings.interval());
    life.settings = settings;
}

fn close(life: &mut Life, moment: Moment)
    ensures { life.new ≡ spec.closed moment life.old }
{
    life.schedule.close(moment);
}

/// The life after what becomes of it at a moment.
fn apply(life: &mut Life, moment: Moment, transition: Transition)
    ensures { life.new ≡ spec.life_after (plan.local_of moment transition) life.old }
{
    match transition {
        Transition::Stays => {}
        Transition::Changes(settings) => change(life, moment, settings),
        Transition::Closes => close(life, moment),
    }
}

/// The life at a place.
pub fn life_at(lives: &[Life], place: usize) -> &Life
    requires { place < length lives.now }
    ensures { result.now ≡ get_or lives.now place result.now }
{
    &lives[place]
}

/// The place that stands at an index.
pub fn place_at(places: &[usize], index: usize) -> usize
    requires { index < length places.now }
    ensures { result ≡ get_or places.now index result }
{
    places[index]
}

/// Scans the life at a place.
pub fn scan_at(lives: &mut [Life], place: usize, moment: Moment, ticket: u64, over: bool)
    requires { place < length lives.old }
    ensures { lives.new ≡ concerned.changed_at place (λ (l : Life). spec.scanned_life moment ticket over l l.schedule.closed) lives.old }
{
    scan(&mut lives[place], moment, ticket, over);
}

/// The life at a place meets what becomes of it at a moment.
fn apply_at(lives: &mut [Life], place: usize, moment: Moment, transition: Transition)
    requires { place < length lives.old }
    ensures { lives.new ≡ concerned.changed_at place (λ (l : Life). spec.life_after (plan.local_of moment transition) l) lives.old }
{
    apply(&mut lives[place], moment, transition);
}

/// The lives after what becomes of each at a moment, by the places of the open ones and by what becomes of these.
pub fn apply_all(lives: &mut [Life], places: &[usize], moment: Moment, transitions: Vec<Transition>)
    requires places { places.now ≡ concerned.places_where spec.is_open 0 lives.old }
    requires each { length transitions.items ≡ length places.now }
    ensures { lives.new ≡ plan.after_each moment (concerned.all_transitions spec.is_open transitions.items lives.old) lives.old }
{
    let mut index: usize = 0;
    for transition in transitions {
        let place = place_at(places, index);
        apply_at(lives, place, moment, transition);
        index += 1;
    }
}

fn ending_of(alloc: Global, closed: Moment, life: &Life) -> Result<Closing, NoMemory>
    ensures closing { IfOk result (λ c. c ≡ spec.closing_at closed life.now) }
    ensures limits { IfOk result (λ c. IsInLimits c) }
{
    let planned = life.schedule.planned.ms() as i64;
    let interval = life.schedule.interval.ms() as i64;
    life.state.closing(alloc, planned, closed.ms(), interval)
}

fn push_forced(
    alloc: Global,
    entries: &mut Vec<Entry>,
    moment: Moment,
    over: bool,
    life: &Life,
) -> Result<(), NoMemory>
    ensures { OnOk result (entries.new.items ≡ entries.old.items ++ spec.scan_entries moment over life.now None) }
{
    if forces(moment, over, life) {
        let mut more = life
            .state
            .force_entries(alloc, &rules_of(life.settings.job()), moment.ms())?;
        entries.append(&mut more.items)?;
    }
    Ok(())
}

fn push_ending(
    alloc: Global,
    entries: &mut Vec<Entry>,
    moment: Moment,
    closed: Moment,
    life: &Life,
) -> Result<(), NoMemory>
    ensures { OnOk result (entries.new.items ≡ entries.old.items ++ spec.scan_entries moment false life.now (Some closed)) }
{
    if ends_at(moment, closed, life) {
        let closing = ending_of(alloc, closed, life)?;
        let mut more = ending_entries(alloc, &closing)?;
        entries.append(&mut more.items)?;
    }
    Ok(())
}

/// Adds the entries of a scan: those of a scrape that it forces, or of the ending that it takes.
pub fn push_scan(
    alloc: Global,
    entries: &mut Vec<Entry>,
    moment: Moment,
    over: bool,
    life: &Life,
) -> Result<(), NoMemory>
    ensures { OnOk result (entries.new.items ≡ entries.old.items ++ spec.scan_entries moment over life.now life.now.schedule.closed) }
{
    match life.schedule.closed {
        None => push_forced(alloc, entries, moment, over, life),
        Some(closed) => push_ending(alloc, entries, moment, closed, life),
    }
}
