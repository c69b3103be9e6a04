//! One turn: how it is waited for, how the value is taken, and how it is given back.
ghost use Rattle.std.specs.Prelude.{◌≡◌, ℕ, ◌<◌, ◌+◌, ◌%◌, ◌^◌, [], ◌∷◌, length, None};
ghost use Rattle.turn_lock.specs.declared.views.Stage.TheVariants.{Idle, Waiting, Turn};
ghost use Rattle.turn_lock.specs.Turns.{ticket_of, staged, learned, grown, Found, PartsFit, Continues, seen_count};

use crate::steps::{count, draw, look, pass_on};
use crate::views::{Board, Kept, Place};
use std::sync::Wait;

/// Waits until the ticket is served, and takes the slot.
pub(crate) fn wait<T: Kept, W: Wait>(
    rt: &W,
    board: &Board<T, T::Entry>,
    place: &mut Place<T, T::Entry>,
    ticket: u64,
)
    requires table { place.old.table_id ≡ board.now.table_id }
    requires words { board.now.table_id.words ≡ 3 }
    requires waits { place.old.me.0.stage ≡ Waiting (ticket_of place.old.me.0.stage) }
    requires ticket { ticket ≡ ticket_of place.old.me.0.stage % 2 ^ 64 }
    requires empty { place.old.me.1 ≡ [] }
    ensures table { place.new.table_id ≡ place.old.table_id }
    ensures found { Found T.entries T.number (ticket_of place.old.me.0.stage) place.old.me place.new.me }
{
    for _ in rt.forever() {
        let found = look(board, place);
        if found == ticket {
            return;
        }
        board.park(rt, 1, (found % (1 << 32)) as u32);
    }
    unreachable!()
}

/// Takes the value at the seat's turn.
pub(crate) fn enter<T: Kept, W: Wait>(
    rt: &W,
    board: &Board<T, T::Entry>,
    place: &mut Place<T, T::Entry>,
) -> T
    requires table { place.old.table_id ≡ board.now.table_id }
    requires words { board.now.table_id.words ≡ 3 }
    requires idle { place.old.me.0.stage ≡ Idle }
    requires some { 0 < length place.old.me.0.parts }
    requires empty { place.old.me.1 ≡ [] }
    ensures table { place.new.table_id ≡ place.old.table_id }
    ensures fits { PartsFit T.number (T.entries result) place.old.me.0.number place.old.me.0.parts }
    ensures turn { place.new.me ≡ (learned (T.entries result) (Turn (ticket_of place.new.me.0.stage)) place.old.me.0, (0, None) ∷ []) }
{
    let ticket = draw(board, place);
    wait(rt, board, place, ticket);
    match board.exchange(place, 0, None) {
        Some(value) => value,
        None => unreachable!(),
    }
}

/// Puts the value back, with so many entries more, passes the turn on, and wakes the threads that wait for it.
pub(crate) fn leave<T: Kept>(
    board: &Board<T, T::Entry>,
    place: &mut Place<T, T::Entry>,
    value: T,
    more: u64,
)
    requires table { place.old.table_id ≡ board.now.table_id }
    requires words { board.now.table_id.words ≡ 3 }
    requires slots { 0 < board.now.table_id.slots }
    requires turn { place.old.me.0.stage ≡ Turn (ticket_of place.old.me.0.stage) }
    requires hand { place.old.me.1 ≡ (0, None) ∷ [] }
    requires goes_on { Continues T.number place.old.me.0.number place.old.me.0.parts (T.entries value) }
    requires more { seen_count place.old.me.0.parts + more ≡ length (T.entries value) }
    ensures table { place.new.table_id ≡ place.old.table_id }
    ensures passed { place.new.me ≡ (staged Idle (grown (T.entries value) place.old.me.0), []) }
{
    match board.exchange(place, 0, Some(value)) {
        Some(_) => unreachable!(),
        None => {}
    }
    count(board, place, more);
    pass_on(board, place);
    board.wake_all(1);
}
