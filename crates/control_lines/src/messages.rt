//! What is said of control lines that don't succeed.
ghost use Rattle.std.specs.Prelude.{◌≡◌, ◌++◌, string_bytes, IfOk, OnOk};
ghost use Rattle.control_lines.specs.Messages as spec;

use crate::faults::push_fault;
use config_fields::ConfFault;
use itoa::Buffer;
use label_set::NoMemory;
use std::alloc::Global;

/// Why a control line doesn't succeed.
#[derive(Drop, Debug)]
pub enum Refusal {
    NotACommand,
    Absent,
    TooLong,
    Refused(ConfFault),
    NoJob,
    NoFile,
}

/// Adds the words of a refusal.
fn push_refusal(text: &mut String, refusal: &Refusal) -> Result<(), NoMemory>
    ensures { OnOk result (string_bytes text.new ≡ string_bytes text.old ++ spec.refusal_text refusal.now) }
{
    match refusal {
        Refusal::NotACommand => text.push_str("not a command")?,
        Refusal::Absent => text.push_str("absent")?,
        Refusal::TooLong => text.push_str("too long")?,
        Refusal::Refused(fault) => {
            text.push_str("refused ")?;
            push_fault(text, fault)?;
        }
        Refusal::NoJob => text.push_str("no job")?,
        Refusal::NoFile => text.push_str("no file")?,
    }
    Ok(())
}

/// `control <n>: ` and the words of a refusal, as a line.
pub fn message_of(alloc: Global, line: u64, refusal: &Refusal) -> Result<String, NoMemory>
    ensures { IfOk result (λ text. string_bytes text ≡ spec.message line refusal.now) }
{
    let mut buffer = Buffer::new();
    let mut text = String::new(alloc);
    text.push_str("control ")?;
    text.push_str(buffer.format(line))?;
    text.push_str(": ")?;
    push_refusal(&mut text, refusal)?;
    text.push_str("\n")?;
    Ok(text)
}
