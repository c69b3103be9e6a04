//! The start of a lock: its value is brought in the first turn, under the number 0, and a pass is made for each
//! number.
ghost use Rattle.std.specs.Prelude.{◌≡◌, ◌≤◌, ◌<◌, ◌+◌, ◌-◌, ◌++◌, ◌∷◌, ℕ, [], All, IfOk, IfErr};
ghost use Rattle.std.specs.Prelude.{map, length, replicate, drop};
ghost use Rattle.std.specs.Vec.{vec_capacity};
ghost use Rattle.turn_lock.specs.declared.views.Stage.TheVariants.{Idle};
ghost use Rattle.turn_lock.specs.Turns.{part, learned, grown, HasSeen};
ghost use Rattle.turn_lock.specs.Passes.{part_of, seen_in, made_of, fresh_parts, AreAll, InOrder, start_view, home_view};

use crate::lock::{Pass, PassList, TurnLock};
use crate::steps::{look, split};
use crate::turns::leave;
use crate::views::{Board, Kept, Place};
use atomic_table::Table;
use std::alloc::Global;

/// There was no memory. The value comes back.
#[derive(Drop)]
pub struct Unmade<T> {
    pub value: T,
}

/// Makes the passes of all numbers.
fn deal<T: Kept>(
    board: &Board<T, T::Entry>,
    place: Place<T, T::Entry>,
    passes: &mut Vec<Pass<T>>,
    count: usize,
)
    requires words { board.now.table_id.words ≡ 3 }
    requires table { place.table_id ≡ board.now.table_id }
    requires idle { (place.me.0.stage ≡ Idle) × (place.me.1 ≡ []) × (place.me.0.number ≡ 0) }
    requires parts { place.me.0.parts ≡ part (seen_in place.me.0.parts) (seen_in place.me.0.parts) ∷ replicate (count - 1) (part [] []) }
    requires some { 0 < count }
    requires room { (passes.old.items ≡ []) × (count ≤ vec_capacity passes.old) }
    ensures room { vec_capacity passes.new ≡ vec_capacity passes.old }
    ensures order { InOrder board.now.table_id 0 passes.new.items }
    ensures count { length passes.new.items ≡ count }
    ensures parts { map part_of passes.new.items ≡ fresh_parts (seen_in place.me.0.parts) count }
{
    let mut place = place;
    while passes.len() + 1 < count {
        let first = split(board, &mut place);
        passes.push_reserved(Pass {
            place: first,
            counted: 0,
        });
    }
    passes.push_reserved(Pass { place, counted: 0 });
}

/// The first turn, which brings the value.
fn begin<T: Kept>(board: &Board<T, T::Entry>, place: &mut Place<T, T::Entry>, value: T)
    requires table { place.old.table_id ≡ board.now.table_id }
    requires words { board.now.table_id.words ≡ 3 }
    requires slots { 0 < board.now.table_id.slots }
    requires start { place.old.me ≡ (start_view (drop 1 place.old.me.0.parts), []) }
    requires own { All (λ e. T.number e ≡ 0) (T.entries value) }
    ensures table { place.new.table_id ≡ place.old.table_id }
    ensures home { place.new.me ≡ (home_view (T.entries value) (drop 1 place.old.me.0.parts), []) }
{
    let _served = look(board, place);
    let more = value.count();
    leave(board, place, value, more);
}

impl<T: Kept> TurnLock<T> {
    /// A lock over this value, and so many passes, with the numbers from 0 on.
    /// The entries of the value bear the number 0, and each pass has seen them.
    pub fn new(
        alloc: Global,
        value: T,
        passes: u32,
    ) -> Result<(TurnLock<T>, PassList<T>), Unmade<T>>
        requires some { 0 < passes }
        requires own { All (λ e. T.number e ≡ 0) (T.entries value) }
        ensures all { IfOk result (λ r. AreAll r.0 r.1.items) }
        ensures count { IfOk result (λ r. length r.1.items ≡ passes) }
        ensures seen { IfOk result (λ r. map part_of r.1.items ≡ fresh_parts (T.entries value) passes) }
        ensures room { IfOk result (λ r. passes ≤ vec_capacity r.1) }
        ensures refused { IfErr result (λ e. e.value ≡ value) }
    {
        let count = passes as usize;
        let Ok(mut list) = Vec::with_capacity(alloc, count) else {
            return Err(Unmade { value });
        };
        let Ok((table, mut place)) = Table::vacant(alloc, &[1, 0, 0], 1, &passes) else {
            return Err(Unmade { value });
        };
        begin(&table.shared, &mut place, value);
        deal(&table.shared, place, &mut list, count);
        Ok((TurnLock { table }, list))
    }
}
