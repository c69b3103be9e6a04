//! Writing the text of a journal.
ghost use Rattle.std.specs.Prelude.{◌≡◌, ◌++◌, ◌∷◌, [], IfOk, OnOk, string_bytes};
ghost use Rattle.journal_text.specs.Lines as lines;
ghost use Rattle.journal_text.specs.Events as spec;
ghost use Rattle.journal_text.specs.Events.{journal_text, rest_of};
ghost use Rattle.journal_text.specs.Laws.{BeginAlike, SpellsOne, StandApart};

use crate::events::Event;
use crate::journal::Journal;
use crate::lines::Line;
use crate::versions::{Version, first_line};
use label_set::{Blob, NoMemory};
use outside::Reply;
use std::alloc::Global;
use value_text::to_number;

/// The line of a finish.
fn finish_line(ticket: u64, took: i64, reply: &Reply) -> Line
    ensures { result ≡ spec.finish_line ticket took reply.now }
{
    match reply {
        Reply::Body { status, bytes } => Line::Body {
            took,
            ticket,
            status: *status,
            len: bytes.as_slice().len(),
        },
        Reply::Quoted { status, bytes } => Line::Quoted {
            took,
            ticket,
            status: *status,
            len: bytes.as_slice().len(),
        },
        Reply::Lost => Line::Lost { took, ticket },
        Reply::Garbled => Line::Garbled { took, ticket },
        Reply::Unsent => Line::Unsent { took, ticket },
        Reply::Oversize => Line::Oversize { took, ticket },
    }
}

/// The line that an event begins with.
fn line_of(event: &Event) -> Line
    ensures { result ≡ spec.line_of event.now }
{
    match event {
        Event::Load { moment, text } => Line::Load {
            moment: *moment,
            len: text.as_slice().len(),
        },
        Event::Targets {
            moment,
            job,
            file,
            text,
        } => Line::Targets {
            moment: *moment,
            job: job.as_str().len(),
            file: file.as_str().len(),
            len: text.as_slice().len(),
        },
        Event::Tick { moment, life } => Line::Tick {
            moment: *moment,
            life: *life,
        },
        Event::Sweep { moment } => Line::Sweep { moment: *moment },
        Event::Finish {
            ticket,
            took,
            reply,
        } => finish_line(*ticket, *took, reply),
        Event::Halt { moment } => Line::Halt { moment: *moment },
    }
}

/// The text of a line of a word and numbers.
fn worded(alloc: Global, word: &str, numbers: &[u64]) -> Result<String, NoMemory>
    ensures { IfOk result (λ t. string_bytes t ≡ lines.worded word.now numbers.now) }
{
    let mut text = String::from_str(alloc, word)?;
    for number in numbers {
        write!(text, " {number}")?;
    }
    text.push('\n')?;
    Ok(text)
}

/// The text of a line.
fn line_text(alloc: Global, line: Line) -> Result<String, NoMemory>
    ensures { IfOk result (λ t. string_bytes t ≡ lines.line_text line) }
{
    match line {
        Line::Load { moment, len } => worded(alloc, "load", &[to_number(moment), len as u64]),
        Line::Targets {
            moment,
            job,
            file,
            len,
        } => worded(
            alloc,
            "targets",
            &[to_number(moment), job as u64, file as u64, len as u64],
        ),
        Line::Tick { moment, life } => worded(alloc, "tick", &[to_number(moment), life]),
        Line::Sweep { moment } => worded(alloc, "sweep", &[to_number(moment)]),
        Line::Body {
            took,
            ticket,
            status,
            len,
        } => worded(
            alloc,
            "body",
            &[to_number(took), ticket, u64::from(status), len as u64],
        ),
        Line::Quoted {
            took,
            ticket,
            status,
            len,
        } => worded(
            alloc,
            "quoted",
            &[to_number(took), ticket, u64::from(status), len as u64],
        ),
        Line::Lost { took, ticket } => worded(alloc, "lost", &[to_number(took), ticket]),
        Line::Garbled { took, ticket } => worded(alloc, "garbled", &[to_number(took), ticket]),
        Line::Unsent { took, ticket } => worded(alloc, "unsent", &[to_number(took), ticket]),
        Line::Oversize { took, ticket } => worded(alloc, "oversize", &[to_number(took), ticket]),
        Line::Halt { moment } => worded(alloc, "halt", &[to_number(moment)]),
    }
}

/// Adds bytes and a line feed.
fn push_block(text: &mut Vec<u8>, bytes: &[u8]) -> Result<(), NoMemory>
    ensures { OnOk result (text.new.items ≡ text.old.items ++ (bytes.now ++ 10 ∷ [])) }
{
    text.extend_from_slice(bytes)?;
    Ok(text.push(b'\n')?)
}

/// Adds what follows the line of an event.
fn push_rest(text: &mut Vec<u8>, event: &Event) -> Result<(), NoMemory>
    ensures { OnOk result (text.new.items ≡ text.old.items ++ rest_of event.now) }
{
    match event {
        Event::Load { text: content, .. } => push_block(text, content.as_slice()),
        Event::Targets {
            job,
            file,
            text: content,
            ..
        } => {
            text.extend_from_slice(job.as_str().as_bytes())?;
            text.extend_from_slice(file.as_str().as_bytes())?;
            push_block(text, content.as_slice())
        }
        Event::Finish { reply, .. } => match reply {
            Reply::Body { bytes, .. } => push_block(text, bytes.as_slice()),
            Reply::Quoted { bytes, .. } => push_block(text, bytes.as_slice()),
            Reply::Lost | Reply::Garbled | Reply::Unsent | Reply::Oversize => Ok(()),
        },
        Event::Tick { .. } | Event::Sweep { .. } | Event::Halt { .. } => Ok(()),
    }
}

/// Adds an event.
fn push_event(alloc: Global, text: &mut Vec<u8>, event: &Event) -> Result<(), NoMemory>
    ensures { OnOk result (text.new.items ≡ text.old.items ++ spec.spelling event.now) }
{
    let line = line_text(alloc, line_of(event))?;
    text.extend_from_slice(line.as_str().as_bytes())?;
    push_rest(text, event)
}

/// The text of a journal, of version 2.
pub fn write_journal(alloc: Global, journal: &Journal) -> Result<Blob, NoMemory>
    ensures { IfOk result (λ text. text ≡ journal_text Version.Two journal.now.events) }
{
    write_version(alloc, Version::Two, journal)
}

/// The text of a journal, of that version. It is read as that journal again where the version has each of its events.
pub fn write_version(alloc: Global, version: Version, journal: &Journal) -> Result<Blob, NoMemory>
    ensures { IfOk result (λ text. text ≡ journal_text version journal.now.events) }
{
    let mut text = Vec::new(alloc);
    text.extend_from_slice(first_line(version))?;
    for event in journal.events() {
        push_event(alloc, &mut text, event)?;
    }
    Ok(Blob { bytes: text })
}

/// The laws that texts differ: none is that of two journals, whatever their versions, a journal whose text begins another's begins that journal, and an event's
/// spelling begins with that of no other event. It does nothing.
pub fn texts_tell_apart()
    ensures journals { SpellsOne }
    ensures fronts { BeginAlike }
    ensures events { StandApart }
{}
