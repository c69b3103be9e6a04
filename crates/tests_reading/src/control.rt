//! Control lines. Those that don't succeed, and what is said of them, a live run of the program's tests shows.

use crate::shared::{are_bytes, holds};
use control_lines::{Command, Refusal, command_in, is_name, message_of};
use label_set::NoMemory;
use std::alloc::Global;
use std::process::Abort;

/// Lines, what each asks for in a word, and its file; no word where it asks for nothing.
const LINES: &[(&[u8], &str, &str)] = &[
    (b"load a b.json", "load", "a b.json"),
    (b"targets j a b.json", "targets", "a b.json"),
    (b"load ", "", ""),
    (b"targets j", "", ""),
    (b"stop", "", ""),
    (b"load \xff", "", ""),
];

/// The word and the file of what is asked for.
fn asked(command: &Option<Command>) -> (&str, &str) {
    match command {
        Some(Command::Load { file }) => ("load", file.as_str()),
        Some(Command::Targets { file, .. }) => ("targets", file.as_str()),
        None => ("", ""),
    }
}

pub(crate) fn lines_are_commands(rt: &impl Abort, alloc: Global) -> Result<(), NoMemory> {
    for &(line, word, file) in LINES {
        let command = command_in(alloc, line)?;
        let (found_word, found_file) = asked(&command);
        are_bytes(rt, found_word.as_bytes(), word.as_bytes());
        are_bytes(rt, found_file.as_bytes(), file.as_bytes());
    }
    holds(rt, is_name("a") && !is_name(""), "names");
    let text = message_of(alloc, 12, &Refusal::TooLong)?;
    are_bytes(rt, text.as_bytes(), b"control 12: too long\n");
    Ok(())
}
