//! The end of a lock: all passes are joined, and the value comes out.
ghost use Rattle.std.specs.Prelude.{◌≡◌, ◌≤◌, ◌<◌, ◌++◌, ℕ, [], map, length};
ghost use Rattle.turn_lock.specs.declared.views.Stage.TheVariants.{Idle};
ghost use Rattle.turn_lock.specs.Turns.{own, PartsFit};
ghost use Rattle.turn_lock.specs.Passes.{part_of, made_of, AreAll, InOrder, Gathers};

use crate::lock::{Pass, PassList, TurnLock};
use crate::steps::join;
use crate::views::{Board, Kept, Place};

/// One seat for all passes. They are joined from the last on, so that the numbers of each two follow one another.
pub(crate) fn gather<T: Kept>(
    board: &Board<T, T::Entry>,
    passes: Vec<Pass<T>>,
) -> Place<T, T::Entry>
    requires words { board.now.table_id.words ≡ 3 }
    requires order { InOrder board.now.table_id 0 passes.items }
    requires some { 0 < length passes.items }
    ensures table { result.table_id ≡ board.now.table_id }
    ensures idle { (result.me.0.stage ≡ Idle) × (result.me.1 ≡ []) }
    ensures number { result.me.0.number ≡ 0 }
    ensures parts { result.me.0.parts ≡ map part_of passes.items }
{
    let mut passes = passes;
    let Some(last) = passes.pop() else {
        unreachable!()
    };
    let Pass { place, counted: _ } = last;
    let mut all = place;
    while let Some(pass) = passes.pop() {
        let Pass {
            mut place,
            counted: _,
        } = pass;
        join(board, &mut place, all);
        all = place;
    }
    all
}

impl<T: Kept> TurnLock<T> {
    /// Takes all passes, in the order of their numbers, and hands the value back.
    pub fn close(self, passes: PassList<T>) -> T
        requires all { AreAll self passes.items }
        requires some { 0 < length passes.items }
        ensures gathers { Gathers T.number (T.entries result) 0 passes.items }
        ensures others { (n : ℕ) → length passes.items ≤ n → own T.number n (T.entries result) ≡ [] }
    {
        let place = gather(&self.table.shared, passes);
        let TurnLock { table } = self;
        let mut closed = table.close_with(place);
        let slot = closed.take(0);
        closed.free();
        match slot {
            Some(value) => value,
            None => unreachable!(),
        }
    }
}
