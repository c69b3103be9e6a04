//! Reloads: the file of the configuration is read anew, and a load of it made.
ghost use Rattle.std.specs.Prelude.{◌≡◌, ◌++◌, string_bytes, IfOk, OnOk};
ghost use Rattle.status_server.specs.Reloads as spec;
ghost use Rattle.status_server.specs.declared.reloads.Reload.TheVariants as reloads;

use crate::replies::{Status, push_reply};
use config_fields::ConfFault;
use control_lines::faults::push_fault;
use label_set::NoMemory;
use scrape_core::Answer;
use std::alloc::Global;

/// What a reload came to.
#[derive(Drop, Debug)]
pub enum Reload {
    /// The configuration is in force.
    Loaded,
    /// There is no such file.
    Absent,
    /// The file is longer than a configuration may be.
    TooLong,
    /// The configuration has this fault; the one before stays in force.
    Refused(ConfFault),
    /// The journal has its halt.
    Halted,
}

/// What a load came to, by its answer.
pub fn loaded(answer: Answer) -> Reload
    ensures { result ≡ spec.loaded answer }
{
    match answer {
        Answer::Refused(fault) => Reload::Refused(fault),
        Answer::Halted => Reload::Halted,
        _ => Reload::Loaded,
    }
}

/// The status of a reload's reply.
fn status_of(reload: &Reload) -> Status
    ensures { result ≡ spec.status_of reload.now }
{
    match reload {
        Reload::Loaded => Status::Done,
        _ => Status::Failed,
    }
}

/// The line of a fault.
fn refused(alloc: Global, fault: &ConfFault) -> Result<String, NoMemory>
    ensures { IfOk result (λ s. string_bytes s ≡ spec.body_of (reloads.Refused fault.now)) }
{
    let mut text = String::new(alloc);
    text.push_str("refused ")?;
    push_fault(&mut text, fault)?;
    text.push_str("\n")?;
    Ok(text)
}

/// Appends the reply to a reload; `closes` says whether the connection ends behind it.
pub fn push_reload(
    alloc: Global,
    text: &mut Vec<u8>,
    closes: bool,
    reload: &Reload,
) -> Result<(), NoMemory>
    ensures added { OnOk result (text.new.items ≡ text.old.items ++ spec.reload_reply closes reload.now) }
{
    let status = status_of(reload);
    match reload {
        Reload::Loaded => push_reply(text, status, closes, b""),
        Reload::Absent => push_reply(text, status, closes, b"absent\n"),
        Reload::TooLong => push_reply(text, status, closes, b"too long\n"),
        Reload::Halted => push_reply(text, status, closes, b"halted\n"),
        Reload::Refused(fault) => {
            let body = refused(alloc, fault)?;
            push_reply(text, status, closes, body.as_bytes())
        }
    }
}
