//! Lines.
ghost use Rattle.std.specs.Prelude.{◌≡◌, ℕ, ℤ, List, option_map, IfSome};
ghost use Rattle.journal_text.specs.Lines.{InRange};
ghost use Rattle.journal_text.specs.LineReadings as spec;
ghost use Rattle.journal_text.specs.declared.lines.Line.{Line};

use crate::numbers::{field, moment};
use crate::versions::Version;
use outside::{MOST_BODY_BYTES, MOST_NAME_BYTES, MOST_TEXT_BYTES};

/// The line that an event begins with. Lengths are in bytes.
#[derive(Clone, Copy, PartialEq, Eq, Debug)]
pub enum Line {
    Load {
        moment: i64,
        len: usize,
    },
    Targets {
        moment: i64,
        job: usize,
        file: usize,
        len: usize,
    },
    Tick {
        moment: i64,
        life: u64,
    },
    Sweep {
        moment: i64,
    },
    Body {
        took: i64,
        ticket: u64,
        status: u16,
        len: usize,
    },
    Quoted {
        took: i64,
        ticket: u64,
        status: u16,
        len: usize,
    },
    Lost {
        took: i64,
        ticket: u64,
    },
    Garbled {
        took: i64,
        ticket: u64,
    },
    Unsent {
        took: i64,
        ticket: u64,
    },
    Oversize {
        took: i64,
        ticket: u64,
    },
    Halt {
        moment: i64,
    },
}

/// A moment and a number, and the end of the line.
#[tactic(auto, unfolding(crate::specs::LineReadings::pair_fields))]
fn pair_fields(bytes: &[u8]) -> Option<(i64, u64, &[u8])>
    ensures { option_map {U = ℤ × ℕ × List ℕ} (λ p. (p.0, p.1, p.2.now)) result ≡ spec.pair_fields bytes.now }
{
    let (moment, rest) = moment(bytes, b' ')?;
    let (number, rest) = field(rest, 0, u64::MAX, b'\n')?;
    Some((moment, number, rest))
}

/// The numbers of a load.
#[tactic(auto, unfolding(crate::specs::LineReadings::load_line))]
fn load_line(bytes: &[u8]) -> Option<(Line, &[u8])>
    ensures { option_map {U = Line × List ℕ} (λ p. (p.0, p.1.now)) result ≡ spec.load_line bytes.now }
{
    let (moment, rest) = moment(bytes, b' ')?;
    let (len, rest) = field(rest, 0, MOST_TEXT_BYTES, b'\n')?;
    let len = len as usize;
    Some((Line::Load { moment, len }, rest))
}

/// The numbers of a list of targets.
#[tactic(auto, unfolding(crate::specs::LineReadings::targets_line))]
fn targets_line(bytes: &[u8]) -> Option<(Line, &[u8])>
    ensures { option_map {U = Line × List ℕ} (λ p. (p.0, p.1.now)) result ≡ spec.targets_line bytes.now }
{
    let (moment, rest) = moment(bytes, b' ')?;
    let (job, rest) = field(rest, 1, MOST_NAME_BYTES, b' ')?;
    let (file, rest) = field(rest, 1, MOST_NAME_BYTES, b' ')?;
    let (len, rest) = field(rest, 0, MOST_TEXT_BYTES, b'\n')?;
    let line = Line::Targets {
        moment,
        job: job as usize,
        file: file as usize,
        len: len as usize,
    };
    Some((line, rest))
}

/// The numbers of a finish with a body.
#[tactic(auto, unfolding(crate::specs::LineReadings::body_line))]
fn body_line(bytes: &[u8]) -> Option<(Line, &[u8])>
    ensures { option_map {U = Line × List ℕ} (λ p. (p.0, p.1.now)) result ≡ spec.body_line bytes.now }
{
    let (took, rest) = moment(bytes, b' ')?;
    let (ticket, rest) = field(rest, 0, u64::MAX, b' ')?;
    let (status, rest) = field(rest, 100, 999, b' ')?;
    let (len, rest) = field(rest, 0, MOST_BODY_BYTES, b'\n')?;
    let line = Line::Body {
        took,
        ticket,
        status: status as u16,
        len: len as usize,
    };
    Some((line, rest))
}

/// The numbers of a finish with a body that may have names in quotes.
#[tactic(auto, unfolding(crate::specs::LineReadings::quoted_line))]
fn quoted_line(bytes: &[u8]) -> Option<(Line, &[u8])>
    ensures { option_map {U = Line × List ℕ} (λ p. (p.0, p.1.now)) result ≡ spec.quoted_line bytes.now }
{
    let (took, rest) = moment(bytes, b' ')?;
    let (ticket, rest) = field(rest, 0, u64::MAX, b' ')?;
    let (status, rest) = field(rest, 100, 999, b' ')?;
    let (len, rest) = field(rest, 0, MOST_BODY_BYTES, b'\n')?;
    let line = Line::Quoted {
        took,
        ticket,
        status: status as u16,
        len: len as usize,
    };
    Some((line, rest))
}

/// The numbers of a tick.
#[tactic(auto, unfolding(crate::specs::LineReadings::tick_line))]
fn tick_line(bytes: &[u8]) -> Option<(Line, &[u8])>
    ensures { option_map {U = Line × List ℕ} (λ p. (p.0, p.1.now)) result ≡ spec.tick_line bytes.now }
{
    let (moment, life, rest) = pair_fields(bytes)?;
    Some((Line::Tick { moment, life }, rest))
}

/// The numbers of a finish with no body, `lost`.
#[tactic(auto, unfolding(crate::specs::LineReadings::lost_line))]
fn lost_line(bytes: &[u8]) -> Option<(Line, &[u8])>
    ensures { option_map {U = Line × List ℕ} (λ p. (p.0, p.1.now)) result ≡ spec.lost_line bytes.now }
{
    let (took, ticket, rest) = pair_fields(bytes)?;
    Some((Line::Lost { took, ticket }, rest))
}

/// The numbers of a finish with no body, `garbled`.
#[tactic(auto, unfolding(crate::specs::LineReadings::garbled_line))]
fn garbled_line(bytes: &[u8]) -> Option<(Line, &[u8])>
    ensures { option_map {U = Line × List ℕ} (λ p. (p.0, p.1.now)) result ≡ spec.garbled_line bytes.now }
{
    let (took, ticket, rest) = pair_fields(bytes)?;
    Some((Line::Garbled { took, ticket }, rest))
}

/// The numbers of a finish with no body, `unsent`.
#[tactic(auto, unfolding(crate::specs::LineReadings::unsent_line))]
fn unsent_line(bytes: &[u8]) -> Option<(Line, &[u8])>
    ensures { option_map {U = Line × List ℕ} (λ p. (p.0, p.1.now)) result ≡ spec.unsent_line bytes.now }
{
    let (took, ticket, rest) = pair_fields(bytes)?;
    Some((Line::Unsent { took, ticket }, rest))
}

/// The numbers of a finish with no body, `oversize`.
#[tactic(auto, unfolding(crate::specs::LineReadings::oversize_line))]
fn oversize_line(bytes: &[u8]) -> Option<(Line, &[u8])>
    ensures { option_map {U = Line × List ℕ} (λ p. (p.0, p.1.now)) result ≡ spec.oversize_line bytes.now }
{
    let (took, ticket, rest) = pair_fields(bytes)?;
    Some((Line::Oversize { took, ticket }, rest))
}

/// The moment of a sweep.
#[tactic(auto, unfolding(crate::specs::LineReadings::sweep_line))]
fn sweep_line(bytes: &[u8]) -> Option<(Line, &[u8])>
    ensures { option_map {U = Line × List ℕ} (λ p. (p.0, p.1.now)) result ≡ spec.sweep_line bytes.now }
{
    let (moment, rest) = moment(bytes, b'\n')?;
    Some((Line::Sweep { moment }, rest))
}

/// The moment of a halt.
#[tactic(auto, unfolding(crate::specs::LineReadings::halt_line))]
fn halt_line(bytes: &[u8]) -> Option<(Line, &[u8])>
    ensures { option_map {U = Line × List ℕ} (λ p. (p.0, p.1.now)) result ≡ spec.halt_line bytes.now }
{
    let (moment, rest) = moment(bytes, b'\n')?;
    Some((Line::Halt { moment }, rest))
}

/// What follows a word, where the bytes begin with it.
#[tactic(auto, unfolding(crate::specs::LineReadings::after))]
fn after<'a>(word: &[u8], bytes: &'a [u8]) -> Option<&'a [u8]>
    ensures { option_map (λ rest. rest.now) result ≡ spec.after word.now bytes.now }
{
    bytes.strip_prefix(word)
}

/// The line of a finish that bytes begin with, and what follows it.
#[tactic(auto, unfolding(crate::specs::LineReadings::finish_line_in))]
fn read_finish_line(bytes: &[u8]) -> Option<(Line, &[u8])>
    ensures { option_map {U = Line × List ℕ} (λ p. (p.0, p.1.now)) result ≡ spec.finish_line_in bytes.now }
{
    if let Some(rest) = after(b"body ", bytes) {
        return body_line(rest);
    }
    if let Some(rest) = after(b"lost ", bytes) {
        return lost_line(rest);
    }
    if let Some(rest) = after(b"garbled ", bytes) {
        return garbled_line(rest);
    }
    if let Some(rest) = after(b"unsent ", bytes) {
        return unsent_line(rest);
    }
    oversize_line(after(b"oversize ", bytes)?)
}

/// The line of any kind that bytes of version 1 begin with, and what follows it.
#[tactic(auto, unfolding(crate::specs::LineReadings::first_line_in))]
fn read_first_line(bytes: &[u8]) -> Option<(Line, &[u8])>
    ensures { option_map {U = Line × List ℕ} (λ p. (p.0, p.1.now)) result ≡ spec.first_line_in bytes.now }
{
    if let Some(rest) = after(b"load ", bytes) {
        return load_line(rest);
    }
    if let Some(rest) = after(b"targets ", bytes) {
        return targets_line(rest);
    }
    if let Some(rest) = after(b"tick ", bytes) {
        return tick_line(rest);
    }
    if let Some(rest) = after(b"sweep ", bytes) {
        return sweep_line(rest);
    }
    if let Some(rest) = after(b"halt ", bytes) {
        return halt_line(rest);
    }
    read_finish_line(bytes)
}

/// The line of any kind that bytes of a version begin with, and what follows it.
#[tactic(auto, unfolding(crate::specs::LineReadings::line_in))]
fn read_any_line(version: Version, bytes: &[u8]) -> Option<(Line, &[u8])>
    ensures { option_map {U = Line × List ℕ} (λ p. (p.0, p.1.now)) result ≡ spec.line_in version bytes.now }
{
    match version {
        Version::One => read_first_line(bytes),
        Version::Two => match after(b"quoted ", bytes) {
            Some(rest) => quoted_line(rest),
            None => read_first_line(bytes),
        },
    }
}

/// The line that bytes of a version begin with, and what follows it.
pub(crate) fn read_line(version: Version, bytes: &[u8]) -> Option<(Line, &[u8])>
    ensures value { option_map {U = Line × List ℕ} (λ p. (p.0, p.1.now)) result ≡ spec.line_in version bytes.now }
    ensures range { IfSome result (λ p. InRange p.0) }
{
    read_any_line(version, bytes)
}
