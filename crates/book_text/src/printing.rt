//! Printing a book to a sink, page by page.
ghost use Rattle.std.specs.Prelude.{◌≡◌, ◌++◌, ◌+◌, ◌≤◌, ◌<◌, ◌^◌, [], ℕ, length, vec_len, vec_capacity, slice_get, IfOk, IfSome, OnOk, OnErr, IsErrOf};
ghost use Rattle.outside.specs.Objects.{used, Took, Cut, IsUntouched};
ghost use Rattle.book_text.specs.Flows.{Flows, Stops};
ghost use Rattle.book_text.specs.Kept.{AreReady};
ghost use Rattle.book_text.specs.Texts as spec;

use crate::lines::Lines;
use crate::pieces::{push, verdict_mark};
use appender_book::Book;
use label_set::NoMemory;
use outside::{Sink, SinkFault};
use std::alloc::Global;
use std::marker::Model;

/// A page is put when it has at least so many bytes.
const PAGE: usize = 65_536;

/// What stands in front of a line has at most so many bytes.
const MARK: usize = 11;

/// Why a book was not printed.
#[derive(Clone, Copy, PartialEq, Eq, Debug)]
pub enum PrintError {
    /// A put failed.
    WriteFault,
    /// An allocation failed, before anything was put.
    NoMemory,
}

impl From<NoMemory> for PrintError {
    ghost use Rattle.std.specs.Prelude.{◌≡◌};
    ghost use Rattle.book_text.specs.declared.printing.PrintError.TheVariants as variants;

    ghost from_gives = { λ _ error. error ≡ variants.NoMemory };

    fn from(_: NoMemory) -> PrintError {
        PrintError::NoMemory
    }
}

/// Puts the page and clears it.
fn put_page<O: Sink>(page: &mut Vec<u8>, out: &mut O) -> Result<(), SinkFault>
    ensures flows { OnOk result (Flows [] page.old.items page.new.items (used (O.seen out.old) (O.seen out.new))) }
    ensures stops { OnErr result (Stops [] page.old.items (used (O.seen out.old) (O.seen out.new))) }
    ensures clear { OnOk result (page.new.items ≡ []) }
    ensures capacity { vec_capacity page.old ≤ vec_capacity page.new }
{
    out.put(page)?;
    page.clear();
    Ok(())
}

/// Puts the page where it is full.
fn make_room<O: Sink>(page: &mut Vec<u8>, out: &mut O) -> Result<(), SinkFault>
    ensures flows { OnOk result (Flows [] page.old.items page.new.items (used (O.seen out.old) (O.seen out.new))) }
    ensures stops { OnErr result (Stops [] page.old.items (used (O.seen out.old) (O.seen out.new))) }
    ensures room { OnOk result (vec_len page.new ≤ PAGE) }
    ensures capacity { vec_capacity page.old ≤ vec_capacity page.new }
{
    if page.len() >= PAGE {
        put_page(page, out)
    } else {
        Ok(())
    }
}

/// What stands in front of the line at a place: the verdict and a blank, where that is wanted.
fn mark_at(kept: bool, book: &Book, place: usize) -> &'static str
    ensures mark { result.now ≡ spec.mark_at kept book.now.entries place }
    ensures short { length result.now ≤ MARK }
{
    if !kept {
        return "";
    }
    match book.verdict(place) {
        Some(verdict) => verdict_mark(verdict),
        None => "",
    }
}

/// Writes the line of the entry at a place behind its mark, on a page that has room for both.
fn write_line(page: &mut Vec<u8>, lines: &mut Lines, mark: &str, book: &Book, place: usize)
    requires ready { AreReady book.now.entries lines.old }
    requires short { length mark.now ≤ MARK }
    requires room { vec_len page.old + (MARK + lines.old.most) ≤ vec_capacity page.old }
    ensures written { page.new.items ≡ page.old.items ++ (mark.now ++ spec.line_at book.now.entries place) }
    ensures capacity { vec_capacity page.old ≤ vec_capacity page.new }
    ensures ready { AreReady book.now.entries lines.new }
    ensures most { lines.new.most ≡ lines.old.most }
{
    match push(page, mark.as_bytes()) {
        Ok(()) => {}
        Err(_) => unreachable!(),
    }
    match lines.push(page, book, place) {
        Ok(()) => {}
        Err(_) => unreachable!(),
    }
}

/// Prints the lines of a book.
fn print_pages<O: Sink>(
    page: &mut Vec<u8>,
    lines: &mut Lines,
    kept: bool,
    book: &Book,
    out: &mut O,
) -> Result<(), SinkFault>
    requires blank { page.old.items ≡ [] }
    requires ready { AreReady book.now.entries lines.old }
    requires room { PAGE + (MARK + lines.old.most) ≤ vec_capacity page.old }
    ensures whole { OnOk result (Took (spec.printed kept book.now.entries) (used (O.seen out.old) (O.seen out.new))) }
    ensures cut { OnErr result (Cut (spec.printed kept book.now.entries) (used (O.seen out.old) (O.seen out.new))) }
{
    for place in 0..book.len() {
        let mark = mark_at(kept, book, place);
        match make_room(page, out) {
            Ok(()) => write_line(page, lines, mark, book, place),
            Err(fault) => return Err(fault),
        }
    }
    put_page(page, out)
}

/// A book that is ready to be printed: all memory for that is taken. Contracts see its entries.
#[derive(Drop)]
pub struct Printer<'b> {
    page: Vec<u8>,
    lines: Lines,
    book: &'b Book,
}

impl<'b> Model for Printer<'b> {
    ghost use Rattle.std.specs.Prelude.{List};
    ghost use Rattle.report_samples.specs.declared.entries.Entry.{Entry as EntryView};

    ghost Value = { List EntryView };

    ghost use Rattle.std.specs.Prelude.{◌≡◌, ◌≤◌, ◌+◌, [], vec_capacity};
    ghost use Rattle.book_text.specs.Kept.{AreReady};

    ghost view = { λ p. p.book.now.entries };

    ghost invariant = { λ p. (p.page.items ≡ []) × AreReady p.book.now.entries p.lines × (65536 + (11 + p.lines.most) ≤ vec_capacity p.page) };
}

/// A page with room for lines of so many bytes.
fn page_for(alloc: Global, most: usize) -> Result<Vec<u8>, NoMemory>
    requires { most < 2 ^ 63 }
    ensures blank { IfOk result (λ page. page.items ≡ []) }
    ensures room { IfOk result (λ page. PAGE + (MARK + most) ≤ vec_capacity page) }
{
    let mut page = Vec::new(alloc);
    page.reserve(PAGE + (MARK + most)).map_err(NoMemory::from)?;
    Ok(page)
}

impl<'b> Printer<'b> {
    /// Takes the memory for printing a book.
    pub fn open(alloc: Global, book: &'b Book) -> Result<Printer<'b>, NoMemory>
        ensures { IfOk result (λ p. p ≡ book.now.entries) }
    {
        let lines = Lines::of(alloc, book)?;
        let page = page_for(alloc, lines.most())?;
        Ok(Printer { page, lines, book })
    }

    /// Prints the book, each line with its verdict in front where that is wanted. No memory.
    pub fn print<O: Sink>(self, kept: bool, out: &mut O) -> Result<(), SinkFault>
        ensures whole { OnOk result (Took (spec.printed kept self.entry) (used (O.seen out.old) (O.seen out.new))) }
        ensures cut { OnErr result (Cut (spec.printed kept self.entry) (used (O.seen out.old) (O.seen out.new))) }
    {
        let mut page = self.page;
        let mut lines = self.lines;
        print_pages(&mut page, &mut lines, kept, self.book, out)
    }
}

/// Prints a book, each line with its verdict in front where that is wanted. All memory is taken before the first put.
pub fn print_book<O: Sink>(
    alloc: Global,
    kept: bool,
    book: &Book,
    out: &mut O,
) -> Result<(), PrintError>
    ensures whole { OnOk result (Took (spec.printed kept book.now.entries) (used (O.seen out.old) (O.seen out.new))) }
    ensures cut { IsErrOf result PrintError.WriteFault → Cut (spec.printed kept book.now.entries) (used (O.seen out.old) (O.seen out.new)) }
    ensures kept { IsErrOf result PrintError.NoMemory → IsUntouched (used (O.seen out.old) (O.seen out.new)) }
{
    let printer = Printer::open(alloc, book)?;
    match printer.print(kept, out) {
        Ok(()) => Ok(()),
        Err(_) => Err(PrintError::WriteFault),
    }
}
