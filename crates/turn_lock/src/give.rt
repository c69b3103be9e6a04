//! Turns of a pass.
ghost use Rattle.std.specs.Prelude.{◌≡◌, ◌++◌, List, length, All, drop};
ghost use mathlib.Core.List.{IsPrefix};
ghost use Rattle.turn_lock.specs.Turns.{own};
ghost use Rattle.turn_lock.specs.Passes.{number_of, seen_by, own_of, IsIdle, HasItsTurn, IsPassOf};

use crate::lock::{Pass, TurnLock};
use crate::turns::{enter, leave};
use crate::views::Kept;
use std::sync::Wait;

impl<T: Kept> TurnLock<T> {
    /// Waits for the pass's turn, and takes the value out.
    pub fn take<W: Wait>(&self, rt: &W, pass: &mut Pass<T>) -> T
        requires lock { IsPassOf self.now pass.old }
        requires idle { IsIdle pass.old }
        ensures lock { IsPassOf self.now pass.new }
        ensures turn { HasItsTurn pass.new }
        ensures begins { IsPrefix (seen_by pass.old) (T.entries result) }
        ensures own { own T.number (number_of pass.old) (T.entries result) ≡ own_of pass.old }
        ensures number { number_of pass.new ≡ number_of pass.old }
        ensures seen { seen_by pass.new ≡ T.entries result }
        ensures mine { own_of pass.new ≡ own_of pass.old }
    {
        let value = enter(rt, &self.table.shared, &mut pass.place);
        pass.counted = value.count();
        value
    }

    /// Gives the value back, with further entries of the pass's number or none, and passes the turn on.
    pub fn give(&self, pass: &mut Pass<T>, value: T)
        requires lock { IsPassOf self.now pass.old }
        requires turn { HasItsTurn pass.old }
        requires goes_on { (more : List T.Entry) × (T.entries value ≡ seen_by pass.old ++ more) × All (λ e. T.number e ≡ number_of pass.old) more }
        ensures lock { IsPassOf self.now pass.new }
        ensures idle { IsIdle pass.new }
        ensures number { number_of pass.new ≡ number_of pass.old }
        ensures seen { seen_by pass.new ≡ T.entries value }
        ensures own { own_of pass.new ≡ own_of pass.old ++ drop (length (seen_by pass.old)) (T.entries value) }
    {
        let now = value.count();
        let more = now - pass.counted;
        pass.counted = now;
        leave(&self.table.shared, &mut pass.place, value, more);
    }

    /// Sleeps until `wake`, where the journal is as long as it was when the pass gave the value back last.
    /// It may also return for no reason.
    pub fn rest<W: Wait>(&self, rt: &W, pass: &Pass<T>) {
        let known = pass.counted % (1 << 32);
        self.table.shared.park(rt, 2, known as u32);
    }

    /// Wakes each pass that rests.
    pub fn wake(&self) {
        self.table.shared.wake_all(2);
    }
}
