//! The commands that make no run and serve nothing, over whatever has files and takes bytes.
ghost use Rattle.std.specs.Prelude.{◌≡◌, ℕ, Bool, List, map, string_bytes};
ghost use Rattle.journal_text.specs.declared.events.Event.{Event};
ghost use Rattle.outside.specs.Objects.{SinkSeen, Use, used};
ghost use Rattle.scrape_commands.specs.Cuts.{CutLaw, IsCutOf};
ghost use Rattle.scrape_commands.specs.Ends as spec;
ghost use Rattle.scrape_commands.specs.Laws.{Causes, EndedStill, IsStatus};
ghost use Rattle.command_words.specs.Words.{asked_in, file_in, file_asked};

use crate::commands::perform;
use crate::messages::say;
use crate::refusals::Refusal;
use command_words::{Asked, WordsError, asked_in};
use outside::{Shelf, Sink};
use scrape_core::Means;

/// How the work ended, and the name of the file that was asked for; no name where the words were not read.
#[derive(Drop)]
struct Ending<'a> {
    end: Result<(), Refusal>,
    file: &'a str,
}

/// The name of the file that is asked for; none where there is no file.
fn file_of<'a>(asked: &Asked<'a>) -> &'a str
    ensures { result.now ≡ file_asked asked.now }
{
    match asked {
        Asked::File(of_file) => of_file.file,
        Asked::Synth(_) => "",
    }
}

/// Does what the words say. What is said of its end by the name is what is said by the file in the words.
fn run<'a, S: Shelf, O: Sink>(
    means: Means,
    words: &'a [String],
    shelf: &mut S,
    out: &mut O,
) -> Ending<'a>
    ensures ends { spec.WorkEnds result.end
        (spec.work (asked_in (map string_bytes words.entry.now)) (used (S.seen shelf.old) (S.seen shelf.new)) (used (O.seen out.old) (O.seen out.new))) }
    ensures speaks { (err : Use SinkSeen) → spec.Speaks result.end result.file.now err →
        spec.Speaks result.end (file_in (map string_bytes words.entry.now)) err }
{
    match asked_in(means.alloc, words) {
        Ok(asked) => Ending {
            end: perform(means, &asked, shelf, out),
            file: file_of(&asked),
        },
        Err(WordsError::Bad) => Ending {
            end: Err(Refusal::BadWords),
            file: "",
        },
        Err(WordsError::NoMemory) => Ending {
            end: Err(Refusal::NoMemory),
            file: "",
        },
    }
}

/// Tells of a refusal.
pub fn tell<E: Sink>(err: &mut E, file: &str, end: &Result<(), Refusal>)
    ensures { spec.Speaks end.now file.now (used (E.seen err.old) (E.seen err.new)) }
{
    match end {
        Ok(()) => {}
        Err(refusal) => say(err, file, refusal),
    }
}

/// The status of a refusal.
fn status_of(refusal: &Refusal) -> u8
    ensures { result ≡ spec.status_of refusal.now }
{
    match refusal {
        Refusal::BadWords => 2,
        Refusal::Selector(_) => 12,
        Refusal::Absent => 3,
        Refusal::Config(_) => 4,
        Refusal::Script(_) => 5,
        Refusal::OpenMetrics(_) => 13,
        Refusal::ReadFault => 6,
        Refusal::WriteFault => 7,
        Refusal::NoMemory => 8,
        Refusal::TooLong => 9,
    }
}

pub fn status_at(end: &Result<(), Refusal>) -> u8
    ensures { result ≡ spec.status_at end.now }
{
    match end {
        Ok(()) => 0,
        Err(refusal) => status_of(refusal),
    }
}

/// The commands that make no run and serve nothing, whose words are others': takes the words after the program's name, and answers the exit status.
/// How it ends is one table, `specs/Ends.antt`.
///
/// | status | comes |
/// |---|---|
/// | 0 | `replay`: the script was replayed, or with `--cut` the events before the first that isn't read, and the whole text of its book, with verdicts where `--kept` was given, added to `out`; `check`: the configuration has no fault, and the line with the number of its jobs was added; `convert`: each line was read, and the body of the text exposition format with the same rows added; `at`: the script was replayed, and a line added for each series that the selector sees at the moment; `synth`: the script of the numbers was made and replayed, and the summary of its book added, with the number of its relabelling runs |
/// | 2 | exactly where the words are none of these commands', unless memory runs out |
/// | 3 | the shelf has no file of the name, and counted that |
/// | 4 | `check`: the configuration has a fault, which the message names |
/// | 5 | `replay`, `at`: the file has the text of no journal, for the fault that the message names, with its offset; with `--cut`: it doesn't begin with the first line of a journal |
/// | 6, 7 | reading or writing failed, and was counted |
/// | 8 | memory ran out |
/// | 9 | the file is longer than its command takes, and the shelf counted that |
/// | 12 | `at`: the text is no selector: it isn't written as one (`Syntax`), a pattern of it isn't one or nests too deep (`Pattern`), or it asks for nothing (`Bare`); looked for before the file |
/// | 13 | `convert`: a line of the file is faulty, the first of the number that the message names |
///
/// The clause is that table; what each status says, taken alone, is `causes`. What a run whose trail was cut leaves behind replays to a front of what
/// the run would have printed (`cuts`).
pub fn tool_plain<S: Shelf, O: Sink, E: Sink>(
    means: Means,
    words: &[String],
    shelf: &mut S,
    out: &mut O,
    err: &mut E,
) -> u8
    ensures { EndedStill result (spec.call (map string_bytes words.now)
        (used (S.seen shelf.old) (S.seen shelf.new)) (used (O.seen out.old) (O.seen out.new)) (used (E.seen err.old) (E.seen err.new))) }
{
    let ending = run(means, words, shelf, out);
    tell(err, ending.file, &ending.end);
    status_at(&ending.end)
}

/// What each status says of a call that ended, whatever its objects are: the cause of each refusal, and its message.
pub fn causes()
    ensures causes { (c : spec.Call) → Causes c }
    ensures statuses { (status : ℕ) (c : spec.Call) → spec.Ended status c → IsStatus status }
{}

/// Where a text begins that of a journal and holds its first line, the journal of its events (`read_front`) begins that journal, and what is
/// printed of it is the beginning of what is printed of the whole one, with verdicts or without.
pub fn cuts()
    ensures { (journal front : List Event) (kept : Bool) → IsCutOf journal front → CutLaw journal front kept }
{}
