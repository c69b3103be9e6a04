//! What a line of the control input asks for.
ghost use Rattle.std.specs.Prelude.{◌≡◌, true, length, option_map, IfOk, IfSome};
ghost use Rattle.control_lines.specs.Commands as spec;
ghost use Rattle.control_lines.specs.Commands.{IsNamed};
ghost use Rattle.journal_text.specs.Lines.{IsNameLength};

use label_set::{Name, NoMemory};
use outside::MOST_NAME_BYTES;
use std::alloc::Global;
use std::str;

/// What a line of the control input asks for.
#[derive(Drop, Debug)]
pub enum Command {
    /// `load FILE`: to load the configuration of a file.
    Load { file: Name },
    /// `targets JOB FILE`: to read a file of a job anew.
    Targets { job: Name, file: Name },
}

/// Whether a name has from 1 to 4,096 bytes.
pub fn is_name(text: &str) -> bool
    ensures is { result ≡ spec.is_name text.now }
    ensures fit { result ≡ true → IsNameLength (length text.now) }
{
    !text.is_empty() && text.len() as u64 <= MOST_NAME_BYTES
}

/// What follows a word, where the line begins with it.
#[tactic(auto, unfolding(crate::specs::Commands::after))]
fn after<'a>(word: &[u8], line: &'a [u8]) -> Option<&'a [u8]>
    ensures { option_map (λ rest. rest.now) result ≡ spec.after word.now line.now }
{
    line.strip_prefix(word)
}

/// A load of a file.
fn load_in(alloc: Global, file: &[u8]) -> Result<Option<Command>, NoMemory>
    ensures command { IfOk result (λ o. o ≡ spec.load_in file.now) }
    ensures named { IfOk result (λ o. IfSome o IsNamed) }
{
    let Ok(file) = str::from_utf8(file) else {
        return Ok(None);
    };
    if !is_name(file) {
        return Ok(None);
    }
    let file = Name::from_str(alloc, file)?;
    Ok(Some(Command::Load { file }))
}

/// The targets of a job in a file, where both names keep their lengths.
fn named_targets(alloc: Global, job: &str, file: &str) -> Result<Option<Command>, NoMemory>
    ensures command { IfOk result (λ o. o ≡ spec.named_targets job.now file.now) }
    ensures named { IfOk result (λ o. IfSome o IsNamed) }
{
    if !is_name(job) {
        return Ok(None);
    }
    if !is_name(file) {
        return Ok(None);
    }
    let job = Name::from_str(alloc, job)?;
    let file = Name::from_str(alloc, file)?;
    Ok(Some(Command::Targets { job, file }))
}

/// The targets of a job in a file: the job's name ends at the first blank.
fn targets_in(alloc: Global, names: &[u8]) -> Result<Option<Command>, NoMemory>
    ensures command { IfOk result (λ o. o ≡ spec.targets_in names.now) }
    ensures named { IfOk result (λ o. IfSome o IsNamed) }
{
    let Ok(names) = str::from_utf8(names) else {
        return Ok(None);
    };
    match names.split_once(' ') {
        Some((job, file)) => named_targets(alloc, job, file),
        None => Ok(None),
    }
}

/// What a line asks for; none where it isn't a command. Its last name is the rest of the line.
#[tactic(auto, unfolding(crate::specs::Commands::command_in))]
pub fn command_in(alloc: Global, line: &[u8]) -> Result<Option<Command>, NoMemory>
    ensures command { IfOk result (λ o. o ≡ spec.command_in line.now) }
    ensures named { IfOk result (λ o. IfSome o IsNamed) }
{
    if let Some(file) = after(b"load ", line) {
        return load_in(alloc, file);
    }
    match after(b"targets ", line) {
        Some(names) => targets_in(alloc, names),
        None => Ok(None),
    }
}
