//! Whole bodies.
ghost use Rattle.std.specs.Prelude.{◌≡◌, ◌≤◌, ◌<◌, ◌++◌, ◌^◌, ◌==◌, [], drop, length, IfErr, IfOk, MatchResult, Ok, OnOk, option_map, slice_index};
ghost use Rattle.std.specs.Str.{bytes_eq};
ghost use Rattle.expo_reader.specs.Bodies.{line_len, lines_of};
ghost use Rattle.om_reader.specs.Bodies as spec;
ghost use Rattle.om_reader.specs.Bodies.{converted};
ghost use Rattle.om_reader.specs.Reads.{AddsRow, AddsRows};
ghost use Rattle.om_reader.specs.Timestamps.{millis_of};
ghost use Rattle.om_reader.specs.Laws.{CauseIs, HasOneReading, IsCauseOf, IsConverted, KeepsRows, ReadsTheFormat};

use crate::labels::Room;
use crate::lines::{Line, sample_at};
use crate::stamps::push_millis;
use expo_reader::faults::Fault;
use label_set::{Blob, NoMemory};
use memchr::memchr;
use std::alloc::{AllocError, Global};

/// Why a body was not converted.
#[derive(Clone, Copy, PartialEq, Eq, Debug)]
pub enum OmError {
    /// The line of that number is the first faulty one; where `# EOF` is missing, the one behind the last.
    Line(u64),
    /// An allocation failed.
    NoMemory,
}

impl From<AllocError> for OmError {
    ghost use Rattle.std.specs.Prelude.{◌≡◌};
    ghost use Rattle.om_reader.specs.declared.bodies.OmError.TheVariants.{NoMemory};

    ghost from_gives = { λ _ error. error ≡ NoMemory };

    fn from(_: AllocError) -> OmError {
        OmError::NoMemory
    }
}

impl From<NoMemory> for OmError {
    ghost use Rattle.std.specs.Prelude.{◌≡◌};
    ghost use Rattle.om_reader.specs.declared.bodies.OmError.TheVariants.{NoMemory};

    ghost from_gives = { λ _ error. error ≡ NoMemory };

    fn from(_: NoMemory) -> OmError {
        OmError::NoMemory
    }
}

/// How many bytes stand before the first line feed.
fn line_end(bytes: &[u8]) -> usize
    ensures value { result ≡ line_len bytes.now }
    ensures within { result ≤ length bytes.now }
{
    match memchr(b'\n', bytes) {
        Some(end) => end,
        None => bytes.len(),
    }
}

/// The bytes from a place on.
fn behind(bytes: &[u8], place: usize) -> &[u8]
    requires { place ≤ length bytes.now }
    ensures { result.now ≡ drop place bytes.now }
{
    &bytes[place..]
}

/// Adds a sample as a line.
fn push_line(text: &mut Vec<u8>, line: Line<'_>) -> Result<(), NoMemory>
    ensures { OnOk result (text.new.items
        ≡ text.old.items ++ spec.line_text line.entry.raw.now line.entry.value.now
        (option_map millis_of line.entry.stamp)) }
{
    text.extend_from_slice(line.raw)?;
    text.push(b' ')?;
    text.extend_from_slice(line.value)?;
    if let Some(millis) = line.stamp {
        text.push(b' ')?;
        push_millis(text, millis)?;
    }
    text.push(b'\n')?;
    Ok(())
}

/// Whether a line begins with `#`.
fn is_comment(line: &[u8]) -> bool
    ensures { result ≡ (slice_index line.now 0 == 35) }
{
    !line.is_empty() && line[0] == b'#'
}

/// Whether a line is the one that a body ends with.
fn is_eof(line: &[u8]) -> bool
    ensures { result ≡ bytes_eq line.now spec.eof }
{
    line == b"# EOF".as_slice()
}

/// Adds what a line becomes: nothing where it is skipped.
fn convert_line<'b>(
    alloc: Global,
    number: u64,
    line: &'b [u8],
    room: &mut Room<'b>,
    text: &mut Vec<u8>,
) -> Result<(), OmError>
    ensures { let said = spec.line_reading number line.now in MatchResult result (λ _. AddsRow said text.old.items text.new.items) (λ e. CauseIs e said) }
{
    if is_comment(line) {
        return Ok(());
    }
    match sample_at(alloc, line, room) {
        Ok(line) => Ok(push_line(text, line)?),
        Err(Fault::Faulty) => Err(OmError::Line(number)),
        Err(Fault::NoMemory) => Err(OmError::NoMemory),
    }
}

/// Adds what the lines of a body become.
fn convert_lines<'b>(
    alloc: Global,
    body: &'b [u8],
    room: &mut Room<'b>,
    text: &mut Vec<u8>,
) -> Result<(), OmError>
    ensures { let said = spec.reading body.now in MatchResult result (λ _. AddsRows said text.old.items text.new.items) (λ e. CauseIs e said) }
{
    let mut place = 0;
    let mut number = 1;
    while place < body.len() {
        let rest = behind(body, place);
        let end = line_end(rest);
        let line = &rest[..end];
        place += end + 1;
        if is_eof(line) {
            return ended(number, body, place);
        }
        match convert_line(alloc, number, line, room, text) {
            Ok(()) => number += 1,
            Err(error) => return Err(error),
        }
    }
    Err(OmError::Line(number))
}

/// Whether a body ends at a place behind `# EOF`, the line of that number.
fn ended(number: u64, body: &[u8], place: usize) -> Result<(), OmError>
    requires { number < 2 ^ 63 }
    ensures { let said = spec.ended number (lines_of (drop place body.now)) in MatchResult result (λ _. said ≡ Ok []) (λ e. CauseIs e said) }
{
    if place < body.len() {
        Err(OmError::Line(number + 1))
    } else {
        Ok(())
    }
}

/// Turns a body of OpenMetrics into one of the text exposition format that has its rows, in lines of their own. It has for each sample line the raw
/// sample text, a space, the bytes of the value, a space and the milliseconds where there is a timestamp, and a line feed.
/// `Line` comes exactly where that line is the first faulty one, counted from 1.
pub fn convert(alloc: Global, bytes: &[u8]) -> Result<Blob, OmError>
    ensures text { IfOk result (λ c. converted bytes.now ≡ Ok c) }
    ensures cause { IfErr result (λ e. CauseIs e (converted bytes.now)) }
    ensures rows { IfOk result (λ c. IsConverted bytes.now c) }
    ensures fault { IfErr result (λ e. IsCauseOf e bytes.now) }
{
    let mut text = Vec::with_capacity(alloc, bytes.len())?;
    let mut room = Room::new(alloc);
    match convert_lines(alloc, bytes, &mut room, &mut text) {
        Ok(()) => Ok(Blob { bytes: text }),
        Err(error) => Err(error),
    }
}

/// The law that ties the conversion to the format: a body is converted exactly where its lines through `# EOF` are skipped or sample lines and no line
/// follows, with just these rows, and line n is named exactly where it is the first faulty one. It does nothing.
pub fn reads_the_format()
    ensures { ReadsTheFormat }
{}

/// The law that each body has exactly one reading: its rows, or the number of its first faulty line. It does nothing.
pub fn has_one_reading()
    ensures { HasOneReading }
{}

/// The law that the text that is made of a body's rows reads as just these rows, but for their lines. It does nothing.
pub fn keeps_rows()
    ensures { KeepsRows }
{}
