//! What a roll answers.

use std::alloc::AllocError;

/// How many lives the wanted targets closed and began.
#[derive(Clone, Copy, Debug, PartialEq, Eq)]
pub struct Synced {
    pub closed: u32,
    pub begun: u32,
}

/// A started scrape that hasn't had its finish.
#[derive(Clone, Copy, Debug, PartialEq, Eq)]
pub struct Flight {
    /// The number of its life.
    pub life: u64,
    /// The moment of its start.
    pub moment: i64,
    /// Whether it wasn't cancelled.
    pub valid: bool,
}

/// The scrape that a tick makes.
#[derive(Clone, Copy, Debug, PartialEq, Eq)]
pub enum Began {
    /// It started, with this ticket.
    Started(u64),
    /// It was forced: it isn't made, and counts as failed at once.
    Forced,
}

/// Why a tick makes no scrape.
#[derive(Clone, Copy, Debug, PartialEq, Eq)]
pub enum TickRefusal {
    /// The life isn't open.
    NoLife,
    /// A scrape of the life is in flight.
    Busy,
    /// The planned moment hasn't come.
    NotDue,
    /// An allocation failed.
    NoMemory,
}

impl From<AllocError> for TickRefusal {
    ghost use Rattle.std.specs.Prelude.{◌≡◌};
    ghost use Rattle.life_roll.specs.declared.answers.TickRefusal.TheVariants as variants;

    ghost from_gives = { λ _ refusal. refusal ≡ variants.NoMemory };

    fn from(_: AllocError) -> TickRefusal {
        TickRefusal::NoMemory
    }
}
