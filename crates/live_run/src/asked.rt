//! What is asked of a run, how it ended, and what it hands back.
use config_fields::ConfFault;

/// A run that is asked for.
#[derive(Clone, Copy)]
pub struct Asked<'a> {
    /// The file of its first configuration.
    pub file: &'a str,
    /// How many sweeps it makes, at most 1,000,000.
    pub turns: u32,
    /// Whether its book is printed with verdicts.
    pub kept: bool,
}

/// How a run ended.
#[derive(Drop, Debug)]
pub enum LiveEnd {
    /// Control was read to its end; the journal and the book are written.
    Done,
    /// Both are written, but reading control, or a file that it names, failed.
    ControlFault,
    /// Both are written, but control gave more than 1 MiB.
    ControlLong,
    /// The shelf has no file of the name.
    Absent,
    /// The file is longer than a configuration may be.
    TooLong,
    /// The configuration is refused.
    Config(ConfFault),
    /// Reading the file failed.
    ReadFault,
    /// Writing failed: to the error output while the run lasted, or of the journal or the book at its end.
    WriteFault,
    /// An allocation failed, before anything was written of the journal and the book.
    NoMemory,
}

/// What a run hands back.
#[derive(Drop)]
pub struct Lived<C, K, F> {
    pub end: LiveEnd,
    pub control: Option<C>,
    pub clock: Option<K>,
    pub fetchers: Vec<F>,
}
