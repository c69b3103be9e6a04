//! The core that a script comes to.
ghost use Rattle.std.specs.Prelude.{IfOk, IfErr};
ghost use Rattle.scrape_commands.specs.Scripts.{IsScriptOf, RefusesScript};

use journal_text::{Front, Journal, ScriptError, read_front, read_journal};
use scrape_core::{Core, Means, replay};
use std::alloc::Global;

/// The journal that a script stands for: the one that it spells, or with `--cut` the one of the events before the first that isn't read.
fn journal_of(alloc: Global, cut: bool, bytes: &[u8]) -> Result<Journal, ScriptError>
    ensures journal { IfOk result (λ j. IsScriptOf cut bytes.now j.events) }
    ensures refused { IfErr result (λ e. RefusesScript cut bytes.now e) }
{
    if !cut {
        return read_journal(alloc, bytes);
    }
    match read_front(alloc, bytes) {
        Ok(Front { journal, .. }) => Ok(journal),
        Err(error) => Err(error),
    }
}

/// The core after the journal that a script stands for.
pub fn replayed(means: Means, cut: bool, bytes: &[u8]) -> Result<Core, ScriptError>
    ensures replayed { IfOk result (λ core. IsScriptOf cut bytes.now core) }
    ensures refused { IfErr result (λ e. RefusesScript cut bytes.now e) }
{
    let journal = match journal_of(means.alloc, cut, bytes) {
        Ok(journal) => journal,
        Err(error) => return Err(error),
    };
    Ok(replay(means, journal)?)
}
