//! The steps at the table of atomic words, of which the lock is made: a ticket is drawn, looked for and passed on,
//! entries are counted, and seats are split and joined.
ghost use Rattle.std.specs.Prelude.{◌≡◌, ℕ, ◌<◌, ◌+◌, ◌%◌, ◌^◌, [], length};
ghost use Rattle.turn_lock.specs.declared.views.Stage.TheVariants.{Idle, Waiting, Turn};
ghost use Rattle.turn_lock.specs.Turns.{drew, looked, counted, passed, split_off, remainder, joined, spent, ticket_of, staged, grown, list_in};
ghost use Rattle.turn_lock.specs.Turns.{HasCounted, HasMore, Looked};

use crate::views::{Board, Kept, Place, View};
use atomic_table::{Join, Play, Split};
use std::marker::PhantomData;

struct Draws;

impl<T, E> Play<Option<T>, View<E>> for Draws {
    ghost then = { drew };
}

struct Looks<T> {
    of: PhantomData<T>,
}

impl<T: Kept> Play<Option<T>, View<T::Entry>> for Looks<T> {
    ghost then = { looked T.entries T.number };
}

struct Counts<T> {
    of: PhantomData<T>,
}

impl<T: Kept> Play<Option<T>, View<T::Entry>> for Counts<T> {
    ghost then = { counted T.entries T.number };
}

struct Passes;

impl<T, E> Play<Option<T>, View<E>> for Passes {
    ghost then = { passed };
}

struct Cut;

impl<E> Split<View<E>> for Cut {
    ghost left = { remainder };

    ghost right = { split_off };
}

struct Glue;

impl<E> Join<View<E>> for Glue {
    ghost both = { joined };

    ghost spent = { spent };
}

/// Draws a ticket.
pub(crate) fn draw<T: Kept>(board: &Board<T, T::Entry>, place: &mut Place<T, T::Entry>) -> u64
    requires table { place.old.table_id ≡ board.now.table_id }
    requires words { board.now.table_id.words ≡ 3 }
    requires idle { place.old.me.0.stage ≡ Idle }
    requires some { 0 < length place.old.me.0.parts }
    ensures table { place.new.table_id ≡ place.old.table_id }
    ensures drawn { (t : ℕ) × (0 < t) × (result ≡ t % 2 ^ 64) × (place.new.me ≡ (staged (Waiting t) place.old.me.0, place.old.me.1)) }
{
    board.fetch_add::<Draws>(place, 0, 1)
}

/// Looks which ticket is served, and takes the slot if it is that of the seat.
pub(crate) fn look<T: Kept>(board: &Board<T, T::Entry>, place: &mut Place<T, T::Entry>) -> u64
    requires table { place.old.table_id ≡ board.now.table_id }
    requires words { board.now.table_id.words ≡ 3 }
    requires waits { place.old.me.0.stage ≡ Waiting (ticket_of place.old.me.0.stage) }
    requires empty { place.old.me.1 ≡ [] }
    ensures table { place.new.table_id ≡ place.old.table_id }
    ensures first { ticket_of place.old.me.0.stage ≡ 0 → result ≡ 0 }
    ensures looked { Looked T.entries T.number (ticket_of place.old.me.0.stage) result place.old.me place.new.me }
{
    board.load::<Looks<T>>(place, 1)
}

/// Counts the entries that the value in hand has gained.
pub(crate) fn count<T: Kept>(board: &Board<T, T::Entry>, place: &mut Place<T, T::Entry>, more: u64)
    requires table { place.old.table_id ≡ board.now.table_id }
    requires words { board.now.table_id.words ≡ 3 }
    requires turn { place.old.me.0.stage ≡ Turn (ticket_of place.old.me.0.stage) }
    requires hand { HasMore T.entries T.number more place.old.me }
    ensures table { place.new.table_id ≡ place.old.table_id }
    ensures counted { place.new.me ≡ (grown (list_in T.entries T.number place.old.me.1) place.old.me.0, place.old.me.1) }
{
    board.fetch_add::<Counts<T>>(place, 2, more);
}

/// Passes the turn on, and the slot goes home with this value.
pub(crate) fn pass_on<T: Kept>(board: &Board<T, T::Entry>, place: &mut Place<T, T::Entry>)
    requires table { place.old.table_id ≡ board.now.table_id }
    requires words { board.now.table_id.words ≡ 3 }
    requires slots { 0 < board.now.table_id.slots }
    requires turn { place.old.me.0.stage ≡ Turn (ticket_of place.old.me.0.stage) }
    requires hand { HasCounted T.entries T.number place.old.me }
    ensures table { place.new.table_id ≡ place.old.table_id }
    ensures passed { place.new.me ≡ (staged Idle place.old.me.0, []) }
{
    board.fetch_add::<Passes>(place, 1, 1);
}

/// Splits off a seat of the first number.
pub(crate) fn split<T: Kept>(
    board: &Board<T, T::Entry>,
    place: &mut Place<T, T::Entry>,
) -> Place<T, T::Entry>
    requires table { place.old.table_id ≡ board.now.table_id }
    requires words { board.now.table_id.words ≡ 3 }
    requires idle { place.old.me.0.stage ≡ Idle }
    requires some { 0 < length place.old.me.0.parts }
    ensures table { place.new.table_id ≡ place.old.table_id }
    ensures remainder { place.new.me ≡ (remainder place.old.me.0, place.old.me.1) }
    ensures given { (result.table_id ≡ place.old.table_id) × (result.me ≡ (split_off place.old.me.0, [])) }
{
    board.split_seat::<Cut>(place)
}

/// Takes in a seat of the numbers that follow.
pub(crate) fn join<T: Kept>(
    board: &Board<T, T::Entry>,
    place: &mut Place<T, T::Entry>,
    other: Place<T, T::Entry>,
)
    requires table { place.old.table_id ≡ board.now.table_id }
    requires other { other.table_id ≡ board.now.table_id }
    requires words { board.now.table_id.words ≡ 3 }
    requires empty { other.me.1 ≡ [] }
    requires idle { place.old.me.0.stage ≡ Idle }
    requires idle_other { other.me.0.stage ≡ Idle }
    requires next { place.old.me.0.number + length place.old.me.0.parts ≡ other.me.0.number }
    ensures table { place.new.table_id ≡ place.old.table_id }
    ensures joined { place.new.me ≡ (joined place.old.me.0 other.me.0, place.old.me.1) }
{
    board.join_seat::<Glue>(place, other)
}
