//! How serving ends.
use journal_text::ScriptFault;

/// Why a script was not replayed.
#[derive(Clone, Copy, PartialEq, Eq, Debug)]
pub enum ScriptEnd {
    /// The shelf has no file of the name.
    Absent,
    /// The file is longer than a script may be.
    TooLong,
    /// Reading the file failed.
    ReadFault,
    /// The file has the text of no journal, for this fault.
    Script(ScriptFault),
    /// An allocation failed.
    NoMemory,
}

/// How serving ended.
#[derive(Clone, Copy, PartialEq, Eq, Debug)]
pub enum ServerEnd {
    /// The connection ended, and the journal is written.
    Done,
    /// Nothing was served: the script was not replayed.
    Unreplayed(ScriptEnd),
    /// The journal is written, but reading the connection failed, or the file of the configuration.
    ReadFault,
    /// The journal is written, but the connection gave more than 1 MiB.
    TooLong,
    /// Writing failed: of a reply, and nothing is written of the journal; or of the journal.
    WriteFault,
    /// An allocation failed, and nothing is written of the journal.
    NoMemory,
}
