//! Cases as text: each block of the files in `crates/scrape_cases/src/` is one call of the program over objects in
//! memory. `checks/cases` runs the same blocks on the built program, and tells in which line one differs.
//!
//!     == NAME           a case, up to the next such line
//!     $ WORD WORD       its words, with one blank between them; '' is the empty word
//!     -- file NAME      a file that the shelf has, and then its lines
//!     -- out, -- err    what is printed, what is said, and then its lines; nothing where there is no such part
//!     -- status N       the exit status, at the end of each case
//!
//! In a part a line `\ 0d ff` stands for the bytes that it names, with no line feed behind them; a line `\` alone takes
//! the line feed before it away.
use super::{means_of, run_over, stored};
use outside::{FileList, SureShelf};
use scrape_core::Means;
use std::alloc::Global;
use std::test::Fail;

/// All cases, by subject.
const TEXTS: [&str; 24] = [
    scrape_cases::quoted::CASES,
    scrape_cases::words::CASES,
    scrape_cases::flags::CASES,
    scrape_cases::scripts::CASES,
    scrape_cases::synths::CASES,
    scrape_cases::broken::CASES,
    scrape_cases::cuts::CASES,
    scrape_cases::conversions::CASES,
    scrape_cases::instants::CASES,
    scrape_cases::selectors::CASES,
    scrape_cases::served::CASES,
    scrape_cases::reloads::CASES,
    scrape_cases::updates::CASES,
    scrape_cases::endings::CASES,
    scrape_cases::verdicts::CASES,
    scrape_cases::bodies::CASES,
    scrape_cases::texts::CASES,
    scrape_cases::tracked::CASES,
    scrape_cases::targets::CASES,
    scrape_cases::conflicts::CASES,
    scrape_cases::relabelling::CASES,
    scrape_cases::limits::CASES,
    scrape_cases::checked::CASES,
    scrape_cases::fields::CASES,
];

/// One call of the program: its words and files, and what it must leave.
#[derive(Drop)]
struct Case {
    words: Vec<String>,
    files: FileList,
    out: Vec<u8>,
    err: Vec<u8>,
    status: Option<u8>,
}

/// The part of a case that a line belongs to.
#[derive(Clone, Copy, PartialEq, Eq)]
enum Part {
    Head,
    File,
    Out,
    Err,
    End,
}

fn push_words(alloc: Global, words: &mut Vec<String>, line: &str) -> Result<(), Fail> {
    for word in line.split(' ') {
        let word = if word == "''" { "" } else { word };
        words.push(String::from_str(alloc, word)?)?;
    }
    Ok(())
}

/// Adds the bytes that are named by two hexadecimal digits each.
fn push_named(text: &mut Vec<u8>, line: &str) -> Result<(), Fail> {
    for digits in line.split(' ') {
        match u8::from_str_radix(digits, 16) {
            Ok(byte) => text.push(byte)?,
            Err(_) => return Err(Fail::new("a byte is two hexadecimal digits")),
        }
    }
    Ok(())
}

fn push_line(text: &mut Vec<u8>, line: &str) -> Result<(), Fail> {
    if line == "\\" {
        let _last = text.pop();
        return Ok(());
    }
    if let Some(named) = line.strip_prefix("\\ ") {
        return push_named(text, named);
    }
    text.extend_from_slice(line.as_bytes())?;
    text.push(b'\n')?;
    Ok(())
}

/// Takes a line of a part.
fn take_text(case: &mut Case, part: Part, line: &str) -> Result<(), Fail> {
    match part {
        Part::File => match case.files.items.last_mut() {
            Some(file) => push_line(&mut file.bytes.bytes, line),
            None => Err(Fail::new("a file has a name")),
        },
        Part::Out => push_line(&mut case.out, line),
        Part::Err => push_line(&mut case.err, line),
        Part::Head | Part::End if line.is_empty() => Ok(()),
        Part::Head | Part::End => Err(Fail::new("a line stands in no part")),
    }
}

/// The part that a line begins, where it begins one.
fn part_begun(alloc: Global, case: &mut Case, line: &str) -> Result<Part, Fail> {
    if let Some(name) = line.strip_prefix("file ") {
        case.files.items.push(stored(alloc, name, b"")?)?;
        return Ok(Part::File);
    }
    if let Some(number) = line.strip_prefix("status ") {
        case.status = number.parse::<u8>().ok();
        return Ok(Part::End);
    }
    match line {
        "out" => Ok(Part::Out),
        "err" => Ok(Part::Err),
        _ => Err(Fail::new("a part is a file, out, err or status")),
    }
}

/// Takes a line, and tells to which part the next one belongs.
fn take_line(alloc: Global, case: &mut Case, part: Part, line: &str) -> Result<Part, Fail> {
    if part != Part::End {
        if let Some(begun) = line.strip_prefix("-- ") {
            return part_begun(alloc, case, begun);
        }
    }
    if part == Part::Head {
        if let Some(words) = line.strip_prefix("$ ") {
            push_words(alloc, &mut case.words, words)?;
            return Ok(Part::Head);
        }
    }
    take_text(case, part, line)?;
    Ok(part)
}

/// Reads a case behind its name.
fn case_of(alloc: Global, text: &str) -> Result<Case, Fail> {
    let mut case = Case {
        words: Vec::new(alloc),
        files: FileList {
            items: Vec::new(alloc),
        },
        out: Vec::new(alloc),
        err: Vec::new(alloc),
        status: None,
    };
    let mut part = Part::Head;
    for line in text.lines() {
        part = take_line(alloc, &mut case, part, line)?;
    }
    if part != Part::End || case.status.is_none() {
        return Err(Fail::new("a case ends with its status"));
    }
    Ok(case)
}

/// Runs a case, and tells whether it ends as it says. One that is misread ends the test.
fn is_so(means: Means, text: &str) -> Result<bool, Fail> {
    let Case {
        words,
        files,
        out,
        err,
        status,
    } = case_of(means.alloc, text)?;
    let mut shelf = SureShelf::new(files)?;
    let ran = run_over(means, words.as_slice(), &mut shelf)?;
    let is_said = ran.err.bytes() == err.as_slice() && status == Some(ran.status);
    Ok(is_said && ran.out.bytes() == out.as_slice())
}

#[test]
fn cases_end_as_they_say(rt: HostRuntime) -> Result<(), Fail> {
    let means = means_of(&rt)?;
    let mut count: u64 = 0;
    let mut failed: u64 = 0;
    for text in TEXTS {
        for block in text.split("\n== ").skip(1) {
            let (name, rest) = block.split_once('\n').unwrap_or((block, ""));
            count = count.saturating_add(1);
            if !is_so(means, rest)? {
                failed = failed.saturating_add(1);
                println!(rt; "case {name} ends otherwise")?;
            }
        }
    }
    assert_eq!(rt; failed, 0, "of {count} cases so many differ");
    assert!(rt; 0 < count);
    Ok(())
}
