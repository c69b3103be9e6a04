//! Checking a configuration.
ghost use Rattle.std.specs.Prelude.{◌≡◌, [], IfOk, IfErr, OnOk, IsErrOf};
ghost use Rattle.outside.specs.Objects.{used, Took, Cut, IsUntouched};
ghost use Rattle.jobs_in_force.specs.Jobs.{IsLoadCause, loaded};
ghost use Rattle.scrape_commands.specs.Checks as spec;

use book_text::PrintError;
use itoa::Buffer;
use jobs_in_force::jobs::{Filed, InForce};
use jobs_in_force::loads::load_of;
use label_set::NoMemory;
use outside::Sink;
use scrape_config::ConfError;
use std::alloc::Global;

/// The jobs of a configuration, which is to have no fault: what a first load says.
pub fn conf_of(alloc: Global, bytes: &[u8]) -> Result<Vec<Filed>, ConfError>
    ensures taken { IfOk result (λ jobs. spec.IsConf bytes.now jobs.items) }
    ensures fault { IfErr result (λ e. IsLoadCause (loaded [] bytes.now) e) }
{
    let none: Vec<InForce> = Vec::new(alloc);
    load_of(alloc, &none, bytes)
}

/// The line for a configuration of so many jobs.
fn ok_line(alloc: Global, jobs: usize) -> Result<Vec<u8>, NoMemory>
    ensures { IfOk result (λ line. line.items ≡ spec.ok_line jobs) }
{
    let mut buffer = Buffer::new();
    let mut line = Vec::new(alloc);
    line.extend_from_slice(b"ok ")?;
    line.extend_from_slice(buffer.format(jobs).as_bytes())?;
    line.extend_from_slice(b"\n")?;
    Ok(line)
}

/// Prints the line for a configuration of so many jobs.
pub fn print_ok<O: Sink>(alloc: Global, jobs: usize, out: &mut O) -> Result<(), PrintError>
    ensures whole { OnOk result (Took (spec.ok_line jobs) (used (O.seen out.old) (O.seen out.new))) }
    ensures cut { IsErrOf result PrintError.WriteFault → Cut (spec.ok_line jobs) (used (O.seen out.old) (O.seen out.new)) }
    ensures kept { IsErrOf result PrintError.NoMemory → IsUntouched (used (O.seen out.old) (O.seen out.new)) }
{
    let line = ok_line(alloc, jobs)?;
    match out.put(line.as_slice()) {
        Ok(()) => Ok(()),
        Err(_) => Err(PrintError::WriteFault),
    }
}
