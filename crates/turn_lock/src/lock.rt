//! The lock and its passes.
ghost use Rattle.std.specs.Prelude.{◌≡◌};

use crate::views::{Kept, Place, TurnRule, View};
use atomic_table::Table;
use std::alloc::Global;

/// The right to take turns under a number. A thread brings entries with this number alone.
#[derive(Drop)]
pub struct Pass<T: Kept> {
    pub(crate) place: Place<T, T::Entry>,
    /// How many entries the journal had when the pass took or gave the value last.
    pub(crate) counted: u64,
}

/// The passes of a lock, in the order of their numbers.
pub type PassList<T> = Vec<Pass<T>>;

/// A value that threads take out in turns. It can't be let go: `close` hands the value back.
pub struct TurnLock<T: Kept> {
    pub(crate) table: Table<Option<T>, View<T::Entry>, u32, TurnRule<T>, Global>,
    ghost counts: { (table.shared.table_id.words ≡ 3) × (table.shared.table_id.slots ≡ 1) },
}
