//! What a turn lock keeps, what a pass knows of it, and the table of atomic words that the lock stands on. Word 0 of the
//! table is how many tickets were drawn, word 1 which one is served, word 2 how many entries the journal has. Slot 0
//! holds the value while no pass has it.
ghost use Rattle.std.specs.Prelude.{◌≡◌, ℕ, List, length};

use atomic_table::{Seat, Shared, TableRule};
use std::collections::LinkedList;
use std::marker::PhantomData;

/// A value that stands for a journal: a list of entries, each with the number of the pass that brought it.
pub trait Kept {
    type Entry;

    /// The journal.
    ghost entries: { Self → List Self.Entry };

    /// The number of the pass that brought an entry.
    ghost number: { Self.Entry → ℕ };

    /// How many entries the journal has.
    fn count(&self) -> u64
        ensures { result ≡ length (entries self.now) };
}

/// What was seen of the journal, and the entries of one number. No value of it is made.
pub struct Part<E> {
    pub seen: LinkedList<E>,
    pub mine: LinkedList<E>,
}

/// Where a pass stands. Tickets are counted without end. No value of it is made.
pub enum Stage {
    /// It wants no turn.
    Idle,
    /// It drew this ticket.
    Waiting(u64),
    /// It has the turn, by this ticket.
    Turn(u64),
}

/// What a seat at the table knows: the part of its number, and those of the numbers that follow, where it bears them
/// too. No value of it is made.
pub struct View<E> {
    pub number: u64,
    pub parts: LinkedList<Part<E>>,
    pub stage: Stage,
}

/// The rule that each step at the table keeps: `specs/Turns.antt`.
pub struct TurnRule<T> {
    of: PhantomData<T>,
}

impl<T: Kept> TableRule<Option<T>, View<T::Entry>, u32> for TurnRule<T> {
    ghost use Rattle.turn_lock.specs.Turns.{Turns, first_view};

    ghost holds = { λ passes. Turns T.entries T.number passes };

    ghost first = { λ passes. first_view passes };
}

/// A seat at the table.
pub type Place<T, E> = Seat<Option<T>, View<E>>;

/// The table, as threads share it.
pub type Board<T, E> = Shared<Option<T>, View<E>, u32, TurnRule<T>>;
