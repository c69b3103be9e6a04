//! Messages of refusals.
ghost use Rattle.std.specs.Fmt.{decimal};
ghost use Rattle.std.specs.Prelude.{◌≡◌, ◌++◌, codes, OnOk, OnErr};
ghost use Rattle.control_lines.specs.Faults.{fault_limit};
ghost use Rattle.outside.specs.Objects.{used, Took, Cut};
ghost use Rattle.scrape_commands.specs.Checks as checks;
ghost use Rattle.scrape_commands.specs.Ends.{IsSaid, line_message, message_of};
ghost use Rattle.scrape_commands.specs.Instants as instants;
ghost use Rattle.scrape_commands.specs.Scripts as scripts;

use crate::refusals::{Refusal, SelectorFault};
use control_lines::faults::{fault_place, fault_word};
use itoa::Buffer;
use journal_text::{ScriptCause, ScriptFault};
use outside::{Sink, SinkFault};
use scrape_config::ConfFault;

/// Tries a text.
fn say_text<E: Sink>(err: &mut E, text: &[u8])
    ensures { IsSaid text.now (used (E.seen err.old) (E.seen err.new)) }
{
    match err.put(text) {
        Ok(()) => {}
        Err(_) => {}
    }
}

/// Puts three texts, until one isn't taken.
fn put_three<E: Sink>(
    err: &mut E,
    first: &[u8],
    second: &[u8],
    third: &[u8],
) -> Result<(), SinkFault>
    ensures whole { OnOk result (Took (first.now ++ (second.now ++ third.now)) (used (E.seen err.old) (E.seen err.new))) }
    ensures cut { OnErr result (Cut (first.now ++ (second.now ++ third.now)) (used (E.seen err.old) (E.seen err.new))) }
{
    match err.put(first) {
        Ok(()) => {}
        Err(fault) => return Err(fault),
    }
    match err.put(second) {
        Ok(()) => err.put(third),
        Err(fault) => Err(fault),
    }
}

/// Tries three texts.
fn say_three<E: Sink>(err: &mut E, first: &[u8], second: &[u8], third: &[u8])
    ensures { IsSaid (first.now ++ (second.now ++ third.now)) (used (E.seen err.old) (E.seen err.new)) }
{
    match put_three(err, first, second, third) {
        Ok(()) => {}
        Err(_) => {}
    }
}

/// Tries the end of a fault's message: the limit behind a blank, where the fault has one.
fn say_limit<E: Sink>(err: &mut E, fault: &ConfFault)
    ensures { IsSaid (fault_limit fault.now ++ codes "\n") (used (E.seen err.old) (E.seen err.new)) }
{
    match fault {
        ConfFault::TooMany { limit, .. } => {
            let mut buffer = Buffer::new();
            say_three(err, b" ", buffer.format(*limit).as_bytes(), b"\n");
        }
        _ => say_text(err, b"\n"),
    }
}

/// Tries the message of a fault.
fn say_fault<E: Sink>(err: &mut E, fault: &ConfFault)
    ensures { IsSaid (checks.fault_message fault.now) (used (E.seen err.old) (E.seen err.new)) }
{
    let word = fault_word(fault).as_bytes();
    let place = fault_place(fault).as_bytes();
    match put_three(err, b"scrape: config ", word, place) {
        Ok(()) => say_limit(err, fault),
        Err(_) => {}
    }
}

fn cause_word(cause: ScriptCause) -> &'static str
    ensures { result.now ≡ scripts.cause_word cause }
{
    match cause {
        ScriptCause::Header => "Header",
        ScriptCause::Line => "Line",
        ScriptCause::Rest => "Rest",
        ScriptCause::Order => "Order",
    }
}

/// Tries a number and a line feed.
fn say_number<E: Sink>(err: &mut E, number: u64)
    ensures { IsSaid (decimal number ++ codes "\n") (used (E.seen err.old) (E.seen err.new)) }
{
    let mut buffer = Buffer::new();
    match err.put(buffer.format(number).as_bytes()) {
        Ok(()) => say_text(err, b"\n"),
        Err(_) => {}
    }
}

/// Tries the message of a script's fault.
fn say_script<E: Sink>(err: &mut E, fault: &ScriptFault)
    ensures { IsSaid (scripts.fault_message fault.now) (used (E.seen err.old) (E.seen err.new)) }
{
    let word = cause_word(fault.cause).as_bytes();
    match put_three(err, b"scrape: script ", word, b" at ") {
        Ok(()) => say_number(err, fault.offset),
        Err(_) => {}
    }
}

/// Tries the message of a faulty line.
fn say_line<E: Sink>(err: &mut E, line: u64)
    ensures { IsSaid (line_message line) (used (E.seen err.old) (E.seen err.new)) }
{
    match err.put(b"scrape: openmetrics line ") {
        Ok(()) => say_number(err, line),
        Err(_) => {}
    }
}

fn selector_word(fault: SelectorFault) -> &'static str
    ensures { result.now ≡ instants.fault_word fault }
{
    match fault {
        SelectorFault::Syntax => "Syntax",
        SelectorFault::Pattern => "Pattern",
        SelectorFault::Bare => "Bare",
    }
}

/// Tries the message of a selector's fault.
fn say_selector<E: Sink>(err: &mut E, fault: SelectorFault)
    ensures { IsSaid (instants.fault_message fault) (used (E.seen err.old) (E.seen err.new)) }
{
    let word = selector_word(fault).as_bytes();
    say_three(err, b"scrape: selector ", word, b"\n");
}

/// Tries the message of a refusal.
pub fn say<E: Sink>(err: &mut E, file: &str, refusal: &Refusal)
    ensures { IsSaid (message_of file.now refusal.now) (used (E.seen err.old) (E.seen err.new)) }
{
    match refusal {
        Refusal::BadWords => say_text(err, b"scrape: bad words\n"),
        Refusal::Selector(fault) => say_selector(err, *fault),
        Refusal::Absent => say_three(err, b"scrape: absent ", file.as_bytes(), b"\n"),
        Refusal::Config(fault) => say_fault(err, fault),
        Refusal::Script(fault) => say_script(err, fault),
        Refusal::OpenMetrics(line) => say_line(err, *line),
        Refusal::ReadFault => say_text(err, b"scrape: read fault\n"),
        Refusal::WriteFault => say_text(err, b"scrape: write fault\n"),
        Refusal::NoMemory => say_text(err, b"scrape: no memory\n"),
        Refusal::TooLong => say_three(err, b"scrape: too long ", file.as_bytes(), b"\n"),
    }
}
