//! The commands of the program.
ghost use Rattle.std.specs.Prelude.{◌≡◌, ◌≤◌, ◌++◌, Bool, codes, length, Some, IfOk, IfErr, OnOk};
ghost use Rattle.outside.specs.Objects.{ShelfSeen, SinkSeen, used, HasFile, IsUntouched};
ghost use Rattle.scrape_commands.specs.Ends.{work, WorkEnds, IsRefused, IsTextOf};
ghost use Rattle.scrape_commands.specs.Instants.{IsReady, IsSelectorOf};
ghost use Rattle.command_words.specs.Askings.{asking};
ghost use Rattle.command_words.specs.Words as words;
ghost use Rattle.command_words.specs.declared.words.Asked.TheVariants.{File, Synth};
ghost use Rattle.book_text.specs.Summaries.{number_line};
ghost use Rattle.scrape_commands.specs.Synths as synths;
ghost use Rattle.scrape_commands.specs.Synths.{synth_text};
ghost use Rattle.command_words.specs.declared.words.Command.TheVariants.{Replay, Check, Convert, At};

use crate::checks::{conf_of, print_ok};
use crate::instants::{refusal_of, view_text};
use crate::refusals::Refusal;
use crate::replays::replayed;
use book_text::{PrintError, print_book, summary_of};
use command_words::{Asked, Command, OfFile, Viewing, Workload, limit_of};
use instant_view::Selector;
use itoa::Buffer;
use journal_text::ScriptError;
use label_set::{Blob, NoMemory};
use om_reader::OmError;
use outside::{Shelf, ShelfError, Sink};
use scrape_config::ConfError;
use scrape_core::{Core, Means};
use std::alloc::Global;
use synth::make_script;

/// Reads the file of a command, whose selector was read where it has one.
fn read_file<S: Shelf>(
    alloc: Global,
    command: &Command<'_>,
    file: &str,
    shelf: &mut S,
) -> Result<Blob, Refusal>
    requires ready { IsReady command.now }
    ensures has { IfOk result (λ bytes. HasFile (S.seen shelf.old) file.now bytes) }
    ensures short { IfOk result (λ bytes. length bytes ≤ words.limit_of command.now) }
    ensures untouched { OnOk result (IsUntouched (used (S.seen shelf.old) (S.seen shelf.new))) }
    ensures refused { (kept : Bool) (out : SinkSeen) → IfErr result (λ r. IsRefused r
        (work (Some (File (asking kept file.now command.now))) (used (S.seen shelf.old) (S.seen shelf.new)) (used out out))) }
{
    match shelf.read_file(alloc, file, limit_of(command)) {
        Ok(bytes) => Ok(bytes),
        Err(ShelfError::Absent) => Err(Refusal::Absent),
        Err(ShelfError::TooLong) => Err(Refusal::TooLong),
        Err(ShelfError::Failed) => Err(Refusal::ReadFault),
        Err(ShelfError::NoMemory) => Err(Refusal::NoMemory),
    }
}

/// The flags of a replay.
#[derive(Clone, Copy)]
struct Flags {
    cut: bool,
    kept: bool,
}

/// Replays a script, of one that may have been cut what it begins with, and prints the book of its journal, each line with its verdict where that
/// is wanted.
fn replay<S: Shelf, O: Sink>(
    means: Means,
    flags: Flags,
    script: &str,
    shelf: &mut S,
    out: &mut O,
) -> Result<(), Refusal>
    ensures { WorkEnds result
        (work (Some (File (asking flags.kept script.now (Replay flags.cut))))
        (used (S.seen shelf.old) (S.seen shelf.new)) (used (O.seen out.old) (O.seen out.new))) }
{
    let Flags { cut, kept } = flags;
    let bytes = match read_file(means.alloc, &Command::Replay { cut }, script, shelf) {
        Ok(bytes) => bytes,
        Err(refusal) => return Err(refusal),
    };
    let core = match replayed(means, cut, bytes.as_slice()) {
        Ok(core) => core,
        Err(ScriptError::Bad(fault)) => return Err(Refusal::Script(fault)),
        Err(ScriptError::NoMemory) => return Err(Refusal::NoMemory),
    };
    match print_book(means.alloc, kept, core.book(), out) {
        Ok(()) => {
            core.let_go();
            Ok(())
        }
        Err(PrintError::WriteFault) => {
            core.let_go();
            Err(Refusal::WriteFault)
        }
        Err(PrintError::NoMemory) => {
            core.let_go();
            Err(Refusal::NoMemory)
        }
    }
}

/// Checks the configuration in a file and prints the number of its jobs.
fn check<S: Shelf, O: Sink>(
    alloc: Global,
    file: &str,
    shelf: &mut S,
    out: &mut O,
) -> Result<(), Refusal>
    ensures { (kept : Bool) → WorkEnds result
        (work (Some (File (asking kept file.now Check))) (used (S.seen shelf.old) (S.seen shelf.new)) (used (O.seen out.old) (O.seen out.new))) }
{
    let bytes = match read_file(alloc, &Command::Check, file, shelf) {
        Ok(bytes) => bytes,
        Err(refusal) => return Err(refusal),
    };
    let jobs = match conf_of(alloc, bytes.as_slice()) {
        Ok(jobs) => jobs,
        Err(ConfError::Bad(fault)) => return Err(Refusal::Config(fault)),
        Err(ConfError::NoMemory) => return Err(Refusal::NoMemory),
    };
    match print_ok(alloc, jobs.len(), out) {
        Ok(()) => Ok(()),
        Err(PrintError::WriteFault) => Err(Refusal::WriteFault),
        Err(PrintError::NoMemory) => Err(Refusal::NoMemory),
    }
}

/// Prints the body that one of OpenMetrics in a file becomes.
fn convert<S: Shelf, O: Sink>(
    alloc: Global,
    file: &str,
    shelf: &mut S,
    out: &mut O,
) -> Result<(), Refusal>
    ensures { (kept : Bool) → WorkEnds result
        (work (Some (File (asking kept file.now Convert))) (used (S.seen shelf.old) (S.seen shelf.new)) (used (O.seen out.old) (O.seen out.new))) }
{
    let bytes = match read_file(alloc, &Command::Convert, file, shelf) {
        Ok(bytes) => bytes,
        Err(refusal) => return Err(refusal),
    };
    let text = match om_reader::convert(alloc, bytes.as_slice()) {
        Ok(text) => text,
        Err(OmError::Line(line)) => return Err(Refusal::OpenMetrics(line)),
        Err(OmError::NoMemory) => return Err(Refusal::NoMemory),
    };
    match out.put(text.as_slice()) {
        Ok(()) => Ok(()),
        Err(_) => Err(Refusal::WriteFault),
    }
}

/// The text of what a selector sees at a moment in the book of the script in a file, for the command that asks for it.
fn seen_text<S: Shelf>(
    means: Means,
    command: &Command<'_>,
    viewing: &Viewing<'_>,
    selector: &Selector,
    script: &str,
    shelf: &mut S,
) -> Result<Vec<u8>, Refusal>
    requires command { command.now ≡ At viewing.now }
    requires selector { IsSelectorOf viewing.now.selector selector.now }
    ensures text { (kept : Bool) → IfOk result (λ text. IsTextOf text.items (asking kept script.now command.now) (S.seen shelf.old)) }
    ensures untouched { OnOk result (IsUntouched (used (S.seen shelf.old) (S.seen shelf.new))) }
    ensures refused { (kept : Bool) (out : SinkSeen) → IfErr result (λ r. IsRefused r
        (work (Some (File (asking kept script.now command.now))) (used (S.seen shelf.old) (S.seen shelf.new)) (used out out))) }
{
    let bytes = match read_file(means.alloc, command, script, shelf) {
        Ok(bytes) => bytes,
        Err(refusal) => return Err(refusal),
    };
    match view_text(means, viewing.moment(), selector, bytes.as_slice()) {
        Ok(text) => Ok(text),
        Err(ScriptError::Bad(fault)) => Err(Refusal::Script(fault)),
        Err(ScriptError::NoMemory) => Err(Refusal::NoMemory),
    }
}

/// Prints what a selector sees at a moment in the book of the script in a file, for the command that asks for it.
fn at<S: Shelf, O: Sink>(
    means: Means,
    command: &Command<'_>,
    viewing: &Viewing<'_>,
    script: &str,
    shelf: &mut S,
    out: &mut O,
) -> Result<(), Refusal>
    requires { command.now ≡ At viewing.now }
    ensures { (kept : Bool) → WorkEnds result
        (work (Some (File (asking kept script.now command.now))) (used (S.seen shelf.old) (S.seen shelf.new)) (used (O.seen out.old) (O.seen out.new))) }
{
    let selector = match Selector::read(means.alloc, viewing.selector()) {
        Ok(selector) => selector,
        Err(error) => return Err(refusal_of(error)),
    };
    let text = match seen_text(means, command, viewing, &selector, script, shelf) {
        Ok(text) => text,
        Err(refusal) => return Err(refusal),
    };
    match out.put(&text) {
        Ok(()) => Ok(()),
        Err(_) => Err(Refusal::WriteFault),
    }
}

/// Adds the line that says how often relabelling rules were run.
fn push_runs(text: &mut Vec<u8>, runs: u128) -> Result<(), NoMemory>
    ensures { OnOk result (text.new.items ≡ text.old.items ++ number_line (codes "runs") runs) }
{
    let mut digits = Buffer::new();
    text.extend_from_slice(b"runs ")?;
    text.extend_from_slice(digits.format(runs).as_bytes())?;
    text.extend_from_slice(b"\n")?;
    Ok(())
}

/// The summary of the book of a core, with the number of its relabelling runs.
fn summary_with_runs(alloc: Global, core: &Core) -> Result<Vec<u8>, NoMemory>
    ensures { IfOk result (λ text. text.items ≡ synths.summary_with_runs core.now) }
{
    let mut text = summary_of(alloc, core.events(), core.book())?;
    push_runs(&mut text, core.runs())?;
    Ok(text)
}

/// The summary of a script that is made, with the number of its relabelling runs: its text goes the way of a replayed script.
fn summary_for(means: Means, load: &Workload) -> Result<Vec<u8>, NoMemory>
    ensures { IfOk result (λ text. text.items ≡ synth_text load.now) }
{
    let script = make_script(means.alloc, load.seed(), load.targets(), load.scrapes())?;
    match replayed(means, false, script.as_slice()) {
        Ok(core) => {
            let text = summary_with_runs(means.alloc, &core);
            core.let_go();
            text
        }
        Err(_) => Err(NoMemory),
    }
}

/// Prints the summary of a script that is made, and the number of its relabelling runs.
fn synth<O: Sink>(means: Means, load: &Workload, out: &mut O) -> Result<(), Refusal>
    ensures { (shelf : ShelfSeen) → WorkEnds result (work (Some (Synth load.now)) (used shelf shelf) (used (O.seen out.old) (O.seen out.new))) }
{
    let text = match summary_for(means, load) {
        Ok(text) => text,
        Err(NoMemory) => return Err(Refusal::NoMemory),
    };
    match out.put(&text) {
        Ok(()) => Ok(()),
        Err(_) => Err(Refusal::WriteFault),
    }
}

/// Does what a command over a file was asked for.
fn perform_file<S: Shelf, O: Sink>(
    means: Means,
    asked: &OfFile<'_>,
    shelf: &mut S,
    out: &mut O,
) -> Result<(), Refusal>
    ensures { WorkEnds result
        (work (Some (File asked.now)) (used (S.seen shelf.old) (S.seen shelf.new)) (used (O.seen out.old) (O.seen out.new))) }
{
    match &asked.command {
        Command::Replay { cut } => {
            let (cut, kept) = (*cut, asked.kept);
            replay(means, Flags { cut, kept }, asked.file, shelf, out)
        }
        Command::Check => check(means.alloc, asked.file, shelf, out),
        Command::Convert => convert(means.alloc, asked.file, shelf, out),
        Command::At(viewing) => at(means, &asked.command, viewing, asked.file, shelf, out),
    }
}

/// Does what was asked for.
pub fn perform<S: Shelf, O: Sink>(
    means: Means,
    asked: &Asked<'_>,
    shelf: &mut S,
    out: &mut O,
) -> Result<(), Refusal>
    ensures { WorkEnds result
        (work (Some asked.now) (used (S.seen shelf.old) (S.seen shelf.new)) (used (O.seen out.old) (O.seen out.new))) }
{
    match asked {
        Asked::File(of_file) => perform_file(means, of_file, shelf, out),
        Asked::Synth(load) => synth(means, load, out),
    }
}
