//! A list of items, to which each thread adds its own in its turns.
ghost use Rattle.std.specs.Prelude.{◌≡◌, ◌++◌, ◌∷◌, [], MatchBool};
ghost use Rattle.turn_lock.specs.Logs.{entry};
ghost use Rattle.turn_lock.specs.Passes.{number_of, own_of, IsIdle, IsPassOf};

use crate::lock::{Pass, TurnLock};
use crate::views::Kept;
use std::sync::Wait;

/// An item, with the number of the pass that added it.
#[derive(Drop, Debug)]
pub struct Entry<I> {
    pub by: u64,
    pub item: I,
}

/// The items that were added, in their order.
#[derive(Drop, Debug)]
pub struct Log<I> {
    pub entries: Vec<Entry<I>>,
}

impl<I> Kept for Log<I> {
    type Entry = Entry<I>;

    ghost entries = { λ log. log.entries.items };

    ghost number = { λ e. e.by };

    fn count(&self) -> u64 {
        self.entries.len() as u64
    }
}

impl<I: Drop> TurnLock<Log<I>> {
    /// Adds an item in a turn of the pass with this number, and wakes each pass that rests.
    /// False where memory runs out.
    pub fn add<W: Wait>(&self, rt: &W, pass: &mut Pass<Log<I>>, by: u64, item: I) -> bool
        requires lock { IsPassOf self.now pass.old }
        requires idle { IsIdle pass.old }
        requires by { number_of pass.old ≡ by }
        ensures lock { IsPassOf self.now pass.new }
        ensures idle { IsIdle pass.new }
        ensures by { number_of pass.new ≡ by }
        ensures own { MatchBool result (own_of pass.new ≡ own_of pass.old ++ entry by item ∷ []) (own_of pass.new ≡ own_of pass.old) }
    {
        let mut log = self.take(rt, pass);
        let added = log.entries.push(Entry { by, item }).is_ok();
        self.give(pass, log);
        self.wake();
        added
    }
}
