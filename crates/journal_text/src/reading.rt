//! Reading the text of a journal.
ghost use Rattle.std.specs.Prelude.{◌≡◌, ◌≤◌, ◌<◌, ◌+◌, ◌^◌, ℕ, ℤ, List, length, option_map, IfOk, IfErr, IfSome, MatchResult, Ok};
ghost use Rattle.journal_text.specs.Lines.{InRange};
ghost use Rattle.journal_text.specs.EventReadings as spec;
ghost use Rattle.journal_text.specs.EventReadings.{content_after, content_len, event_in, targets_with};
ghost use Rattle.journal_text.specs.declared.events.Event.TheVariants.{Finish};
ghost use Rattle.journal_text.specs.declared.faults.ScriptError.TheVariants.{Bad};
ghost use Rattle.journal_text.specs.Faults.{IsJournalOf, Refuses, StopsFor};
ghost use Rattle.journal_text.specs.Fronts.{IsFrontOf, IsWrong, LacksHeader};

use crate::events::Event;
use crate::faults::{ScriptCause, ScriptError, ScriptFault};
use crate::journal::{Journal, now_after};
use crate::lines::{Line, read_line};
use crate::versions::{Version, version_of};
use label_set::{Blob, Name, NoMemory};
use outside::Reply;
use std::alloc::Global;

/// So many bytes that a line feed ends, and what follows it.
#[tactic(auto, unfolding(crate::specs::EventReadings::block))]
fn block(bytes: &[u8], len: usize) -> Option<(&[u8], &[u8])>
    ensures value { option_map {U = List ℕ × List ℕ} (λ p. (p.0.now, p.1.now)) result ≡ spec.block len bytes.now }
    ensures long { IfSome result (λ p. length p.0.now ≡ len) }
{
    if len < bytes.len() && bytes[len] == b'\n' {
        Some((&bytes[..len], &bytes[len + 1..]))
    } else {
        None
    }
}

/// The content that a line announces, and what follows it.
fn content(line: Line, bytes: &[u8]) -> Option<(&[u8], &[u8])>
    requires { InRange line }
    ensures value { option_map {U = List ℕ × List ℕ} (λ p. (p.0.now, p.1.now)) result ≡ content_after line bytes.now }
    ensures long { IfSome result (λ p. length p.0.now ≡ content_len line) }
{
    match line {
        Line::Load { len, .. } => block(bytes, len),
        Line::Targets { job, file, len, .. } => block(bytes, job + file + len),
        Line::Body { len, .. } => block(bytes, len),
        Line::Quoted { len, .. } => block(bytes, len),
        Line::Tick { .. } => Some((&bytes[..0], bytes)),
        Line::Sweep { .. } => Some((&bytes[..0], bytes)),
        Line::Lost { .. } => Some((&bytes[..0], bytes)),
        Line::Garbled { .. } => Some((&bytes[..0], bytes)),
        Line::Unsent { .. } => Some((&bytes[..0], bytes)),
        Line::Oversize { .. } => Some((&bytes[..0], bytes)),
        Line::Halt { .. } => Some((&bytes[..0], bytes)),
    }
}

/// The event of a list of targets, unless a name isn't UTF-8.
#[tactic(auto, unfolding(crate::specs::EventReadings::targets_with))]
fn targets(
    alloc: Global,
    moment: i64,
    job: &[u8],
    file: &[u8],
    text: &[u8],
) -> Result<Option<Event>, NoMemory>
    ensures { IfOk result (λ e. e ≡ targets_with moment job.now file.now text.now) }
{
    let Ok(job) = str::from_utf8(job) else {
        return Ok(None);
    };
    let Ok(file) = str::from_utf8(file) else {
        return Ok(None);
    };
    Ok(Some(Event::Targets {
        moment,
        job: Name::from_str(alloc, job)?,
        file: Name::from_str(alloc, file)?,
        text: Blob::from_slice(alloc, text)?,
    }))
}

/// The event of a line and its content, unless a name isn't UTF-8.
fn event_with(alloc: Global, line: Line, content: &[u8]) -> Result<Option<Event>, NoMemory>
    requires { length content.now ≡ content_len line }
    ensures { IfOk result (λ e. e ≡ spec.event_with line content.now) }
{
    let event = match line {
        Line::Load { moment, .. } => Event::Load {
            moment,
            text: Blob::from_slice(alloc, content)?,
        },
        Line::Targets {
            moment,
            job,
            file,
            ..
        } => {
            let (job, rest) = content.split_at(job);
            let (file, text) = rest.split_at(file);
            return targets(alloc, moment, job, file, text);
        }
        Line::Tick { moment, life } => Event::Tick { moment, life },
        Line::Sweep { moment } => Event::Sweep { moment },
        Line::Halt { moment } => Event::Halt { moment },
        Line::Body {
            took,
            ticket,
            status,
            ..
        } => {
            let bytes = Blob::from_slice(alloc, content)?;
            finish(took, ticket, Reply::Body { status, bytes })
        }
        Line::Quoted {
            took,
            ticket,
            status,
            ..
        } => {
            let bytes = Blob::from_slice(alloc, content)?;
            finish(took, ticket, Reply::Quoted { status, bytes })
        }
        Line::Lost { took, ticket } => finish(took, ticket, Reply::Lost),
        Line::Garbled { took, ticket } => finish(took, ticket, Reply::Garbled),
        Line::Unsent { took, ticket } => finish(took, ticket, Reply::Unsent),
        Line::Oversize { took, ticket } => finish(took, ticket, Reply::Oversize),
    };
    Ok(Some(event))
}

/// A finish.
fn finish(took: i64, ticket: u64, reply: Reply) -> Event
    ensures { result ≡ Finish ticket took reply }
{
    Event::Finish {
        ticket,
        took,
        reply,
    }
}

/// The fault of a text at an offset.
fn fault(offset: u64, cause: ScriptCause) -> ScriptError
    ensures { result ≡ Bad (record { offset = offset; cause = cause }) }
{
    ScriptError::Bad(ScriptFault { offset, cause })
}

/// The first event of what stands at an offset, and what follows it.
#[tactic(auto, unfolding(crate::specs::EventReadings::event_in))]
fn next_event(
    alloc: Global,
    version: Version,
    now: u64,
    offset: u64,
    bytes: &[u8],
) -> Result<(Event, &[u8]), ScriptError>
    ensures { MatchResult result (λ p. event_in version now bytes.now ≡ Ok (p.0, p.1.now)) (λ e. StopsFor offset (event_in version now bytes.now) e) }
{
    let Some((line, rest)) = read_line(version, bytes) else {
        return Err(fault(offset, ScriptCause::Line));
    };
    let Some((content, more)) = content(line, rest) else {
        return Err(fault(offset, ScriptCause::Rest));
    };
    let Some(event) = event_with(alloc, line, content)? else {
        return Err(fault(offset, ScriptCause::Rest));
    };
    if now_after(now, &event) < now {
        return Err(fault(offset, ScriptCause::Order));
    }
    Ok((event, more))
}

/// What a text begins with: the journal of its whole events, what is left of it, and the fault that stands there.
#[derive(Drop)]
struct Beginning<'a> {
    journal: Journal,
    rest: &'a [u8],
    fault: Option<ScriptFault>,
}

/// Reads events to the end of a text, or to the first that isn't read.
fn read_events(alloc: Global, bytes: &[u8]) -> Result<Beginning<'_>, ScriptError>
    ensures front { IfOk result (λ b. IsFrontOf bytes.now b.journal.events (length b.rest.now)) }
    ensures fault { IfOk result (λ b. IsWrong bytes.now b.journal.events b.fault) }
    ensures refused { IfErr result (λ e. LacksHeader bytes.now e) }
{
    let Some((version, mut rest)) = version_of(bytes) else {
        return Err(fault(0, ScriptCause::Header));
    };
    let mut journal = Journal::new(alloc);
    while !rest.is_empty() {
        let offset = (bytes.len() - rest.len()) as u64;
        match next_event(alloc, version, journal.last_moment(), offset, rest) {
            Err(ScriptError::NoMemory) => return Err(ScriptError::NoMemory),
            Err(ScriptError::Bad(fault)) => {
                let fault = Some(fault);
                return Ok(Beginning {
                    journal,
                    rest,
                    fault,
                });
            }
            Ok((event, more)) => {
                journal.reserve(1)?;
                journal.push(event);
                rest = more;
            }
        }
    }
    let fault = None;
    Ok(Beginning {
        journal,
        rest,
        fault,
    })
}

/// The journal that a text spells.
pub fn read_journal(alloc: Global, bytes: &[u8]) -> Result<Journal, ScriptError>
    ensures read { IfOk result (λ j. IsJournalOf bytes.now j.events) }
    ensures refused { IfErr result (λ e. Refuses bytes.now e) }
{
    match read_events(alloc, bytes) {
        Err(error) => Err(error),
        Ok(Beginning { journal, fault, .. }) => match fault {
            None => Ok(journal),
            Some(fault) => Err(ScriptError::Bad(fault)),
        },
    }
}

/// The front of a text: the journal of the events before the first that isn't read.
#[derive(Drop, Debug)]
pub struct Front {
    pub journal: Journal,
    /// How many bytes of the text stand behind these events.
    pub rest: u64,
}

/// The front of a text that was cut, or that goes wrong somewhere. Only a text that begins with the first line of no version has none:
/// its fault is `Header` at 0.
pub fn read_front(alloc: Global, bytes: &[u8]) -> Result<Front, ScriptError>
    ensures front { IfOk result (λ f. IsFrontOf bytes.now f.journal.events f.rest) }
    ensures refused { IfErr result (λ e. LacksHeader bytes.now e) }
{
    match read_events(alloc, bytes) {
        Err(error) => Err(error),
        Ok(Beginning { journal, rest, .. }) => {
            let rest = rest.len() as u64;
            Ok(Front { journal, rest })
        }
    }
}
