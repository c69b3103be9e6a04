//! Why a text is no journal's.

use label_set::NoMemory;

/// What is wrong where a text stops to be a journal's.
#[derive(Clone, Copy, PartialEq, Eq, Debug)]
pub enum ScriptCause {
    /// The text begins with the first line of no version of a journal's text.
    Header,
    /// No line of an event begins here.
    Line,
    /// What follows the line isn't as long as the line says, no line feed ends it, or a name isn't UTF-8.
    Rest,
    /// The event's moment is before that of an earlier one.
    Order,
}

/// Where a text stops to be a journal's, in bytes from its start, and why.
#[derive(Clone, Copy, PartialEq, Eq, Debug)]
pub struct ScriptFault {
    pub offset: u64,
    pub cause: ScriptCause,
}

/// Why a journal was not read.
#[derive(Clone, Copy, PartialEq, Eq, Debug)]
pub enum ScriptError {
    /// The text is no journal's.
    Bad(ScriptFault),
    /// An allocation failed.
    NoMemory,
}

impl From<NoMemory> for ScriptError {
    ghost use Rattle.std.specs.Prelude.{◌≡◌};
    ghost use Rattle.journal_text.specs.declared.faults.ScriptError.TheVariants as variants;

    ghost from_gives = { λ _ error. error ≡ variants.NoMemory };

    fn from(_: NoMemory) -> ScriptError {
        ScriptError::NoMemory
    }
}
