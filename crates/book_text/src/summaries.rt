//! The summary of a book: how many entries it has of each kind, and the digest of its text.
ghost use Rattle.std.specs.Prelude.{◌≡◌, ◌<◌, ◌≤◌, ◌+◌, ◌^◌, ◌++◌, [], ℕ, List, IfOk, OnOk, cond};
ghost use Rattle.md5.specs.Md5.{md5, Holds};
ghost use Rattle.report_samples.specs.declared.entries.Kind.{Kind};
ghost use Rattle.book_text.specs.Kept.{AreReady};
ghost use Rattle.book_text.specs.Summaries as spec;
ghost use Rattle.book_text.specs.Texts.{book_text, line_at, kind_word};

use crate::lines::Lines;
use crate::pieces::{kind_word, push};
use appender_book::Book;
use itoa::Buffer;
use label_set::NoMemory;
use md5::{Digest, Md5};
use report_samples::Kind;
use std::alloc::Global;

/// How many entries there are of each kind.
#[derive(Clone, Copy)]
struct Counts {
    samples: u64,
    stale: u64,
    reports: u64,
    report_stale: u64,
}

/// Counts one entry more of a kind.
fn count(counts: Counts, kind: Kind) -> Counts
    requires few { (k : Kind) → spec.count_in counts k + 1 < 2 ^ 64 }
    ensures { (k : Kind) → spec.count_in result k ≡ spec.count_in counts k + cond (spec.is_kind k kind) 1 0 }
{
    match kind {
        Kind::Scraped => Counts {
            samples: counts.samples + 1,
            ..counts
        },
        Kind::Stale => Counts {
            stale: counts.stale + 1,
            ..counts
        },
        Kind::Report => Counts {
            reports: counts.reports + 1,
            ..counts
        },
        Kind::ReportStale => Counts {
            report_stale: counts.report_stale + 1,
            ..counts
        },
    }
}

/// The counts and the digest of a book.
#[derive(Clone, Copy)]
struct Summary {
    counts: Counts,
    digest: [u8; 16],
}

/// Adds the line of the entry at a place to what is digested.
fn digest_line(
    hasher: &mut Md5,
    line: &mut Vec<u8>,
    lines: &mut Lines,
    book: &Book,
    place: usize,
) -> Result<(), NoMemory>
    requires { AreReady book.now.entries lines.old }
    ensures ready { AreReady book.now.entries lines.new }
    ensures digest { OnOk result ((m : List ℕ) → Holds hasher.old m → Holds hasher.new (m ++ line_at book.now.entries place)) }
{
    line.clear();
    lines.push(line, book, place)?;
    hasher.update(line.as_slice());
    Ok(())
}

/// Counts and digests a book, line by line: its text is never held whole.
fn summed(alloc: Global, book: &Book) -> Result<Summary, NoMemory>
    ensures counts { IfOk result (λ s. (k : Kind) → spec.count_in s.counts k ≡ spec.count_of k book.now.entries) }
    ensures digest { IfOk result (λ s. s.digest ≡ md5 (book_text book.now.entries)) }
{
    let mut lines = Lines::of(alloc, book)?;
    let mut line = Vec::new(alloc);
    let mut hasher = Md5::new();
    let mut counts = Counts {
        samples: 0,
        stale: 0,
        reports: 0,
        report_stale: 0,
    };
    for place in 0..book.len() {
        if let Some(entry) = book.entry(place) {
            counts = count(counts, entry.kind);
            digest_line(&mut hasher, &mut line, &mut lines, book, place)?;
        }
    }
    Ok(Summary {
        counts,
        digest: hasher.finalize(),
    })
}

/// Adds a word and a number as a line.
fn push_number(text: &mut Vec<u8>, word: &str, number: u64) -> Result<(), NoMemory>
    ensures { OnOk result (text.new.items ≡ text.old.items ++ spec.number_line word.now number) }
{
    let mut digits = Buffer::new();
    push(text, word.as_bytes())?;
    push(text, b" ")?;
    push(text, digits.format(number).as_bytes())?;
    push(text, b"\n")
}

/// Adds the lines of the kinds.
fn push_kinds(text: &mut Vec<u8>, counts: Counts) -> Result<(), NoMemory>
    ensures { OnOk result (text.new.items ≡ text.old.items ++ spec.kind_lines (spec.count_in counts)) }
{
    push_number(text, kind_word(Kind::Scraped), counts.samples)?;
    push_number(text, kind_word(Kind::Stale), counts.stale)?;
    push_number(text, kind_word(Kind::Report), counts.reports)?;
    push_number(text, kind_word(Kind::ReportStale), counts.report_stale)
}

/// Adds the line of the digest.
fn push_digest(alloc: Global, text: &mut Vec<u8>, digest: &[u8]) -> Result<(), NoMemory>
    ensures { OnOk result (text.new.items ≡ text.old.items ++ spec.digest_line digest.now) }
{
    let digits = hex::encode(alloc, digest)?;
    push(text, b"digest ")?;
    push(text, digits.as_bytes())?;
    push(text, b"\n")
}

/// The summary of a book, behind the number of the events that it came of.
#[tactic(auto, unfolding(crate::specs::Summaries::summary_text))]
pub fn summary_of(alloc: Global, events: u64, book: &Book) -> Result<Vec<u8>, NoMemory>
    ensures { IfOk result (λ text. text.items ≡ spec.summary_text events book.now.entries) }
{
    let summary = summed(alloc, book)?;
    let mut text = Vec::new(alloc);
    push_number(&mut text, "events", events)?;
    push_number(&mut text, "entries", book.len() as u64)?;
    push_kinds(&mut text, summary.counts)?;
    push_digest(alloc, &mut text, summary.digest.as_slice())?;
    Ok(text)
}
