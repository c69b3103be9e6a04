//! Why the program didn't do what it was asked for.
use journal_text::ScriptFault;
use scrape_config::ConfFault;

/// Why a text is no selector.
#[derive(Clone, Copy, PartialEq, Eq, Debug)]
pub enum SelectorFault {
    /// It isn't written as one.
    Syntax,
    /// A pattern of it isn't one, or nests too deep.
    Pattern,
    /// It has no name, and each of its matchers holds for the empty text.
    Bare,
}

/// Why a command ended without its whole output.
#[derive(Drop, Debug)]
pub enum Refusal {
    /// The words are none of the program's.
    BadWords,
    /// The text that `at` was given is no selector, for this fault.
    Selector(SelectorFault),
    /// There is no file of the name.
    Absent,
    /// The configuration has this fault.
    Config(ConfFault),
    /// The script is the text of no journal, for this fault.
    Script(ScriptFault),
    /// The body of OpenMetrics has a faulty line, the first of this number.
    OpenMetrics(u64),
    /// Reading the file failed.
    ReadFault,
    /// Writing the output failed.
    WriteFault,
    /// An allocation failed.
    NoMemory,
    /// The file is longer than its limit.
    TooLong,
}
