//! A connection that the core of a script answers, and the journal behind it.
ghost use Rattle.std.specs.Prelude.{◌≡◌, ◌≤◌, length, IfOk, IfErr, OnOk, IsErrOf};
ghost use Rattle.journal_text.specs.Events.{journal_text};
ghost use Rattle.journal_text.specs.declared.versions.Version.TheVariants.{Two};
ghost use Rattle.outside.specs.Objects.{Cut, HasFile, IsUntouched, Took, used};
ghost use Rattle.serve_command.specs.Serves as spec;

use crate::ends::{ScriptEnd, ServerEnd};
use book_text::PrintError;
use command_words::{Command, Serving, limit_of};
use journal_text::{ScriptError, write_journal};
use label_set::Blob;
use outside::{Shelf, ShelfError, Sink, Source};
use scrape_commands::replays::replayed;
use scrape_core::{Core, Means};
use status_server::{ServeEnd, Served, serve};
use std::alloc::Global;

/// Reads the file of a script.
fn read_script<S: Shelf>(alloc: Global, script: &str, shelf: &mut S) -> Result<Blob, ScriptEnd>
    ensures has { IfOk result (λ bytes. HasFile (S.seen shelf.old) script.now bytes) }
    ensures short { IfOk result (λ bytes. length bytes ≤ spec.most_script_bytes) }
    ensures untouched { OnOk result (IsUntouched (used (S.seen shelf.old) (S.seen shelf.new))) }
    ensures refused { IfErr result (λ e. spec.IsUnreplayed e script.now (used (S.seen shelf.old) (S.seen shelf.new))) }
{
    match shelf.read_file(alloc, script, limit_of(&Command::Replay { cut: false })) {
        Ok(bytes) => Ok(bytes),
        Err(ShelfError::Absent) => Err(ScriptEnd::Absent),
        Err(ShelfError::TooLong) => Err(ScriptEnd::TooLong),
        Err(ShelfError::Failed) => Err(ScriptEnd::ReadFault),
        Err(ShelfError::NoMemory) => Err(ScriptEnd::NoMemory),
    }
}

/// The core after the journal that a script spells.
fn core_of<S: Shelf>(means: Means, script: &str, shelf: &mut S) -> Result<Core, ScriptEnd>
    ensures core { IfOk result (λ core. spec.IsReplayed script.now (S.seen shelf.old) core) }
    ensures untouched { OnOk result (IsUntouched (used (S.seen shelf.old) (S.seen shelf.new))) }
    ensures refused { IfErr result (λ e. spec.IsUnreplayed e script.now (used (S.seen shelf.old) (S.seen shelf.new))) }
{
    let bytes = match read_script(means.alloc, script, shelf) {
        Ok(bytes) => bytes,
        Err(end) => return Err(end),
    };
    match replayed(means, false, bytes.as_slice()) {
        Ok(core) => Ok(core),
        Err(ScriptError::Bad(fault)) => Err(ScriptEnd::Script(fault)),
        Err(ScriptError::NoMemory) => Err(ScriptEnd::NoMemory),
    }
}

/// Writes the journal of a core to a trail. All memory is taken before the put.
fn write_trail<R: Sink>(alloc: Global, core: &Core, trail: &mut R) -> Result<(), PrintError>
    ensures whole { OnOk result (Took (journal_text Two core.now) (used (R.seen trail.old) (R.seen trail.new))) }
    ensures cut { IsErrOf result PrintError.WriteFault → Cut (journal_text Two core.now) (used (R.seen trail.old) (R.seen trail.new)) }
    ensures same { IsErrOf result PrintError.NoMemory → IsUntouched (used (R.seen trail.old) (R.seen trail.new)) }
{
    let text = write_journal(alloc, core.journal())?;
    match trail.put(text.as_slice()) {
        Ok(()) => Ok(()),
        Err(_) => Err(PrintError::WriteFault),
    }
}

/// The end of serving where the journal is written, by that of the connection.
fn written_end(end: ServeEnd) -> ServerEnd
    ensures { result ≡ spec.written_end end }
{
    match end {
        ServeEnd::Done => ServerEnd::Done,
        ServeEnd::ReadFault => ServerEnd::ReadFault,
        ServeEnd::TooLong => ServerEnd::TooLong,
        ServeEnd::WriteFault => ServerEnd::WriteFault,
        ServeEnd::NoMemory => ServerEnd::NoMemory,
    }
}

/// Writes the journal behind a connection: nothing where memory ran out, or a reply was not put.
fn finish<R: Sink>(alloc: Global, end: ServeEnd, core: &Core, trail: &mut R) -> ServerEnd
    ensures { spec.Finishes end core.now result (used (R.seen trail.old) (R.seen trail.new)) }
{
    match end {
        ServeEnd::NoMemory => ServerEnd::NoMemory,
        ServeEnd::WriteFault => ServerEnd::WriteFault,
        _ => match write_trail(alloc, core, trail) {
            Ok(()) => written_end(end),
            Err(PrintError::WriteFault) => ServerEnd::WriteFault,
            Err(PrintError::NoMemory) => ServerEnd::NoMemory,
        },
    }
}

/// Replays the script that is named, lets the core answer the connection that `control` gives, with replies to `out`,
/// and writes the journal behind it, with the loads that were made, to `trail`.
pub fn serve_script<S: Shelf, O: Sink, R: Sink, C: Source>(
    means: Means,
    asked: &Serving<'_>,
    shelf: &mut S,
    out: &mut O,
    trail: &mut R,
    control: &mut C,
) -> ServerEnd
    ensures { spec.Ends result asked.now (spec.touched (used (S.seen shelf.old) (S.seen shelf.new)) (used (O.seen out.old) (O.seen out.new))
        (used (R.seen trail.old) (R.seen trail.new)) (used (C.seen control.old) (C.seen control.new))) }
{
    let core = match core_of(means, asked.script, shelf) {
        Ok(core) => core,
        Err(end) => return ServerEnd::Unreplayed(end),
    };
    let Served { end, core } = serve(means.alloc, core, asked.file, shelf, control, out);
    let ended = finish(means.alloc, end, &core, trail);
    core.let_go();
    ended
}
