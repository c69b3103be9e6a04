//! What is written of a run at its end.
ghost use Rattle.std.specs.Prelude.{◌≡◌, IfOk, OnOk, IsErrOf};
ghost use Rattle.journal_text.specs.Events.{journal_text};
ghost use Rattle.journal_text.specs.declared.versions.Version.TheVariants.{Two};
ghost use Rattle.outside.specs.Objects.{Took, IsUntouched, used};
ghost use Rattle.book_text.specs.Texts.{printed};
ghost use Rattle.scrape_machine.specs.Machine.{book_of};
ghost use Rattle.live_run.specs.Runs.{WroteFront};

use book_text::{PrintError, Printer};
use journal_text::write_journal;
use outside::Sink;
use scrape_core::Core;
use std::alloc::Global;

/// Writes the journal of a core to a trail, and then its book to an output. All memory is taken before the first put.
pub fn write_run<R: Sink, O: Sink>(
    alloc: Global,
    kept: bool,
    core: &Core,
    trail: &mut R,
    out: &mut O,
) -> Result<(), PrintError>
    ensures trail { OnOk result (Took (journal_text Two core.now) (used (R.seen trail.old) (R.seen trail.new))) }
    ensures book { OnOk result (Took (printed kept (book_of core.now)) (used (O.seen out.old) (O.seen out.new))) }
    ensures cut { IsErrOf result PrintError.WriteFault →
        WroteFront kept core.now (used (R.seen trail.old) (R.seen trail.new)) (used (O.seen out.old) (O.seen out.new)) }
    ensures trail_kept { IsErrOf result PrintError.NoMemory → IsUntouched (used (R.seen trail.old) (R.seen trail.new)) }
    ensures book_kept { IsErrOf result PrintError.NoMemory → IsUntouched (used (O.seen out.old) (O.seen out.new)) }
{
    let text = write_journal(alloc, core.journal())?;
    let printer = Printer::open(alloc, core.book())?;
    match trail.put(text.as_slice()) {
        Ok(()) => {}
        Err(_) => return Err(PrintError::WriteFault),
    }
    match printer.print(kept, out) {
        Ok(()) => Ok(()),
        Err(_) => Err(PrintError::WriteFault),
    }
}
