//! The lives that an event concerns, among all lives.
ghost use Rattle.std.specs.Prelude.{◌≡◌, ◌<◌, ◌≤◌, ◌++◌, length, map, filter, get_or, vec_len, vec_capacity, IfOk};
ghost use Rattle.std.specs.List.Sorted.{IsNonDecreasing};
ghost use Rattle.scrape_machine.specs.Lives as lives_of;
ghost use Rattle.scrape_steps.specs.Concerned as spec;
ghost use Rattle.scrape_steps.specs.Endings as ends;

use crate::acts::{is_open, life_at, place_at};
use label_set::NoMemory;
use life_roll::Moment;
use scrape_machine::lives::Life;
use std::alloc::Global;
use std::marker::Model;

/// All lives, borrowed with the places of those that an event concerns, rising: of the open ones, or of those that a sweep at a moment concerns.
#[derive(Drop)]
pub struct Lives<'a> {
    all: &'a [Life],
    places: &'a [usize],
    moment: Option<Moment>,
}

impl<'a> Model for Lives<'a> {
    ghost use Rattle.std.specs.Prelude.{◌≡◌};
    ghost use Rattle.scrape_steps.specs.Concerned.{LivesView, concerns, places_where};

    ghost Value = { LivesView };

    ghost view = { λ l. record { all = l.all.now; moment = l.moment } };

    ghost invariant = { λ l. l.places.now ≡ places_where (concerns l.moment) 0 l.all.now };
}

impl<'a> Lives<'a> {
    /// Lives, by the places of those that are open.
    pub fn open(all: &'a [Life], places: &'a [usize]) -> Lives<'a>
        requires { places.now ≡ spec.places_where lives_of.is_open 0 all.now }
        ensures all { result.all ≡ all.now }
        ensures moment { result.moment ≡ None }
    {
        Lives {
            all,
            places,
            moment: None,
        }
    }

    /// Lives, by the places of those that a sweep at a moment concerns.
    pub fn swept(all: &'a [Life], places: &'a [usize], moment: Moment) -> Lives<'a>
        requires { places.now ≡ spec.places_where (spec.concerns (Some moment)) 0 all.now }
        ensures all { result.all ≡ all.now }
        ensures moment { result.moment ≡ Some moment }
    {
        Lives {
            all,
            places,
            moment: Some(moment),
        }
    }

    /// How many lives there are, concerned or not.
    pub fn len(&self) -> usize
        ensures { result ≡ length self.now.all }
    {
        self.all.len()
    }

    /// How many are concerned.
    pub fn count(&self) -> usize
        ensures { result ≡ length (spec.concerned self.now) }
    {
        self.places.len()
    }

    /// One of those that are concerned.
    pub fn at(&self, index: usize) -> &'a Life
        requires { index < length (spec.concerned self.now) }
        ensures { result.now ≡ get_or (spec.concerned self.now) index result.now }
    {
        life_at(self.all, place_at(self.places, index))
    }

    /// Its place among all lives.
    pub fn place(&self, index: usize) -> usize
        requires { index < length (spec.concerned self.now) }
        ensures { result ≡ get_or (spec.places self.now) index result }
    {
        place_at(self.places, index)
    }
}

/// Whether the life at a place is open.
fn is_open_place(lives: &[Life], place: usize) -> bool
    ensures { result ≡ spec.is_open_place lives.now place }
{
    match lives.get(place) {
        None => false,
        Some(life) => is_open(life),
    }
}

/// Leaves out the places of lives that are closed.
pub fn drop_closed(places: &mut Vec<usize>, lives: &[Life])
    ensures shorter { vec_len places.new ≤ vec_len places.old }
    ensures capacity { vec_capacity places.new ≡ vec_capacity places.old }
    ensures left { places.new.items ≡ filter (spec.is_open_place lives.now) places.old.items }
{
    places.retain(|place| is_open_place(lives, *place));
}

/// The places of open lives, and behind them those of lives whose endings are due.
fn joined_places(
    alloc: Global,
    listed: &[usize],
    due: &[(u64, usize)],
) -> Result<Vec<usize>, NoMemory>
    ensures { IfOk result (λ v. v.items ≡ listed.now ++ map ends.life_of due.now) }
{
    let mut places = Vec::new(alloc);
    places.extend_from_slice(listed)?;
    for ending in due {
        places.push(ending.1)?;
    }
    Ok(places)
}

/// The places of the lives that a sweep concerns, rising: of the open ones, which rise, and of those whose endings are due.
pub fn swept_places(
    alloc: Global,
    listed: &[usize],
    due: &[(u64, usize)],
) -> Result<Vec<usize>, NoMemory>
    requires { IsNonDecreasing listed.now }
    ensures same { IfOk result (λ v. ends.HoldSame (listed.now ++ map ends.life_of due.now) v.items) }
    ensures rising { IfOk result (λ v. IsNonDecreasing v.items) }
{
    let mut places = joined_places(alloc, listed, due)?;
    if due.is_empty() {
        return Ok(places);
    }
    places.sort_unstable();
    Ok(places)
}
