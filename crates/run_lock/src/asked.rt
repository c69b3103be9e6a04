//! What a run was asked for, as contracts see it.
use std::marker::Brand;

/// Names one run: how many workers it has, how many sweeps it is to make, and which events came before it.
pub trait Asked {
    ghost use Rattle.std.specs.Prelude.{ℕ, List};
    ghost use Rattle.journal_text.specs.declared.events.Event.{Event};

    /// How many workers it has.
    ghost workers: { ℕ };

    /// How many sweeps it is to make.
    ghost turns: { ℕ };

    /// The events that came before it.
    ghost start: { List Event };
}

impl Asked for Brand {
    ghost use Rattle.std.specs.Prelude.{[]};

    ghost workers = { 0 };

    ghost turns = { 0 };

    ghost start = { [] };
}
