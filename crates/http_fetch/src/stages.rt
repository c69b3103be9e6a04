//! The places in a reply.
ghost use Rattle.std.specs.Prelude.{◌≡◌, ℕ, ◌+◌, ◌-◌, ◌<◌, ◌≤◌, ◌++◌, List, length, drop, take, min, true, false};
ghost use Rattle.http_fetch.specs.Kinds as kinds;
ghost use Rattle.http_fetch.specs.Kinds.{KeepsKind, is_heads};
ghost use Rattle.http_fetch.specs.Steps as spec;
ghost use Rattle.http_fetch.specs.Steps.{LeadsBehind, LeadsInside};

use crate::fields::{Framing, Kind};
use crate::frames::{End, Line, Trailer, end_at, line_at, trailer_at};
use crate::heads::{Head, head_at};

/// The most bytes of the trailer lines.
const MOST_TRAILER: usize = 65536;

/// Where in a reply the next byte stands.
#[derive(Clone, Copy, PartialEq, Eq, Debug)]
pub enum Stage {
    /// Before a head, and so many may still be passed over.
    Heads { left: u8 },
    /// In a body of which so many bytes are to come, at least one.
    Length { left: u64 },
    /// Before a chunk line.
    Line,
    /// In a chunk of which so many bytes are to come, and then its end.
    Data { left: u64 },
    /// Before a trailer line or the empty line; the lines have so much room.
    Trailer { room: usize },
    /// In a body that goes to the end of the link.
    Open,
    /// Behind a whole reply.
    Whole { status: u16 },
    /// The body is longer than the limit.
    Over,
    /// No reply, whatever follows.
    Never,
}

/// One step: where it leads, how many bytes it takes, and, where it is one over a head, whether that says that the body is of OpenMetrics.
#[derive(Clone, Copy, PartialEq, Eq, Debug)]
pub struct Step {
    pub next: Stage,
    pub used: usize,
    pub kind: Kind,
}

/// Whether what follows changes nothing.
pub fn is_done(stage: Stage) -> bool
    ensures { result ≡ spec.is_done stage }
{
    matches!(stage, Stage::Whole { .. } | Stage::Over | Stage::Never)
}

/// Whether the place is before a head.
pub fn is_heads(stage: Stage) -> bool
    ensures { result ≡ kinds.is_heads stage }
{
    matches!(stage, Stage::Heads { .. })
}

/// Whether the next byte is the body's.
pub fn is_body(stage: Stage) -> bool
    ensures { result ≡ spec.is_body stage }
{
    match stage {
        Stage::Length { left } => left > 0,
        Stage::Open => true,
        Stage::Data { left } => left > 0,
        _ => false,
    }
}

/// The stage behind a head.
fn after_head(status: u16, framing: Framing, left: u8, limit: u64) -> Stage
    ensures { result ≡ spec.after_head status framing left limit }
{
    if status < 100 {
        return Stage::Never;
    }
    if status < 200 {
        if left == 0 {
            return Stage::Never;
        }
        return Stage::Heads { left: left - 1 };
    }
    if status != 200 {
        return Stage::Whole { status };
    }
    match framing {
        Framing::Refused => Stage::Never,
        Framing::Length(size) => after_length(size, limit),
        Framing::Chunks => Stage::Line,
        Framing::ToEnd => Stage::Open,
    }
}

/// The stage before a body of this length.
fn after_length(size: u64, limit: u64) -> Stage
    ensures { result ≡ spec.after_length size limit }
{
    if limit < size {
        return Stage::Over;
    }
    if size == 0 {
        Stage::Whole { status: 200 }
    } else {
        Stage::Length { left: size }
    }
}

/// The stage behind a chunk line.
fn after_line(size: u64, room: u64) -> Stage
    ensures { result ≡ spec.after_line size room }
{
    if room < size {
        return Stage::Over;
    }
    if size == 0 {
        Stage::Trailer { room: MOST_TRAILER }
    } else {
        Stage::Data { left: size }
    }
}

/// The step that leads nowhere.
fn lost(text: &[u8]) -> Step
    ensures next { result.next ≡ Stage.Never }
    ensures used { result.used ≡ length text.now }
{
    Step {
        next: Stage::Never,
        used: text.len(),
        kind: Kind::Plain,
    }
}

/// A step over a head.
fn head_step(left: u8, limit: u64, got: u64, text: &[u8]) -> Option<Step>
    requires { 0 < length text.now }
    ensures leads { LeadsBehind (Stage.Heads left) limit got text.now result }
    ensures kind { KeepsKind (Stage.Heads left) text.now result }
{
    match head_at(text) {
        Head::Found {
            status,
            len,
            framing,
            kind,
        } => Some(Step {
            next: after_head(status, framing, left, limit),
            used: len,
            kind,
        }),
        Head::Waiting => None,
        Head::Never => Some(lost(text)),
    }
}

/// A step over a chunk line.
fn line_step(limit: u64, got: u64, text: &[u8]) -> Option<Step>
    requires { 0 < length text.now }
    ensures leads { LeadsBehind Stage.Line limit got text.now result }
    ensures kind { KeepsKind Stage.Line text.now result }
{
    match line_at(text) {
        Line::Found { len, size } => Some(Step {
            next: after_line(size, limit.saturating_sub(got)),
            used: len,
            kind: Kind::Plain,
        }),
        Line::Waiting => None,
        Line::Never => Some(lost(text)),
    }
}

/// A step over the end of a chunk.
fn end_step(limit: u64, got: u64, text: &[u8]) -> Option<Step>
    requires { 0 < length text.now }
    ensures leads { LeadsBehind (Stage.Data 0) limit got text.now result }
    ensures kind { KeepsKind (Stage.Data 0) text.now result }
{
    match end_at(text) {
        End::Found => Some(Step {
            next: Stage::Line,
            used: 2,
            kind: Kind::Plain,
        }),
        End::Waiting => None,
        End::Never => Some(lost(text)),
    }
}

/// A step over a trailer line.
fn trailer_step(limit: u64, got: u64, room: usize, text: &[u8]) -> Option<Step>
    requires { 0 < length text.now }
    ensures leads { LeadsBehind (Stage.Trailer room) limit got text.now result }
    ensures kind { KeepsKind (Stage.Trailer room) text.now result }
{
    match trailer_at(text, room) {
        Trailer::Found { len } => Some(Step {
            next: Stage::Trailer {
                room: room - len - 1,
            },
            used: len + 1,
            kind: Kind::Plain,
        }),
        Trailer::Last { len } => Some(Step {
            next: Stage::Whole { status: 200 },
            used: len + 1,
            kind: Kind::Plain,
        }),
        Trailer::Waiting => None,
        Trailer::Never => Some(lost(text)),
    }
}

/// A step between the bytes of a body.
pub fn frame_step(stage: Stage, limit: u64, got: u64, text: &[u8]) -> Option<Step>
    requires some { 0 < length text.now }
    requires going { spec.is_done stage ≡ false }
    requires frame { spec.is_body stage ≡ false }
    ensures leads { LeadsBehind stage limit got text.now result }
    ensures kind { KeepsKind stage text.now result }
{
    match stage {
        Stage::Heads { left } => head_step(left, limit, got, text),
        Stage::Line => line_step(limit, got, text),
        Stage::Data { .. } => end_step(limit, got, text),
        Stage::Trailer { room } => trailer_step(limit, got, room, text),
        _ => None,
    }
}

/// The lesser number.
fn at_most(count: usize, left: u64) -> usize
    ensures { result ≡ min count left }
{
    if (count as u64) < left {
        count
    } else {
        left as usize
    }
}

/// A step over bytes of a body.
pub fn body_step(stage: Stage, limit: u64, got: u64, count: usize) -> Step
    requires some { 0 < count }
    requires body { spec.is_body stage ≡ true }
    ensures used { (0 < result.used) × (result.used ≤ count) }
    ensures leads { LeadsInside stage limit got count result }
    ensures kind { is_heads result.next ≡ false }
{
    match stage {
        Stage::Length { left } => {
            let used = at_most(count, left);
            let next = if used as u64 == left {
                Stage::Whole { status: 200 }
            } else {
                Stage::Length {
                    left: left - used as u64,
                }
            };
            Step {
                next,
                used,
                kind: Kind::Plain,
            }
        }
        Stage::Data { left } => {
            let used = at_most(count, left);
            Step {
                next: Stage::Data {
                    left: left - used as u64,
                },
                used,
                kind: Kind::Plain,
            }
        }
        _ => {
            let next = if limit.saturating_sub(got) < count as u64 {
                Stage::Over
            } else {
                Stage::Open
            };
            Step {
                next,
                used: count,
                kind: Kind::Plain,
            }
        }
    }
}
