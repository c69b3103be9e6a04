//! What a selector sees at a moment in the book of a script.
ghost use Rattle.std.specs.Prelude.{◌≡◌, ◌<◌, ◌^◌, ◌++◌, List, pos, false, IfOk, IfErr, OnOk};
ghost use Rattle.journal_text.specs.declared.events.Event.{Event};
ghost use Rattle.scrape_commands.specs.Instants as spec;
ghost use Rattle.scrape_commands.specs.Scripts.{IsScriptOf, RefusesScript};
ghost use Rattle.scrape_machine.specs.Machine.{book_of};

use crate::refusals::{Refusal, SelectorFault};
use crate::replays::replayed;
use appender_book::Book;
use instant_view::{Selector, SelectorError, View, ViewRow};
use itoa::Buffer;
use journal_text::ScriptError;
use label_set::NoMemory;
use scrape_core::Means;
use std::alloc::Global;

/// What is said where the text of a selector isn't one.
pub fn refusal_of(error: SelectorError) -> Refusal
    ensures { result ≡ spec.refusal_of error }
{
    match error {
        SelectorError::Syntax => Refusal::Selector(SelectorFault::Syntax),
        SelectorError::Pattern => Refusal::Selector(SelectorFault::Pattern),
        SelectorError::Bare => Refusal::Selector(SelectorFault::Bare),
        SelectorError::NoMemory => Refusal::NoMemory,
    }
}

/// Adds the line of a row.
#[tactic(auto, unfolding(crate::specs::Instants::row_line))]
fn push_row(text: &mut Vec<u8>, row: &ViewRow) -> Result<(), NoMemory>
    ensures { OnOk result (text.new.items ≡ text.old.items ++ spec.row_line row.now) }
{
    let mut digits = Buffer::new();
    text.extend_from_slice(digits.format(row.moment).as_bytes())?;
    text.extend_from_slice(b" ")?;
    row.series.append_text(text)?;
    text.extend_from_slice(b" ")?;
    text.extend_from_slice(row.value.bytes())?;
    text.extend_from_slice(b"\n")?;
    Ok(())
}

/// The lines of rows.
fn rows_text(alloc: Global, rows: &[ViewRow]) -> Result<Vec<u8>, NoMemory>
    ensures { IfOk result (λ text. text.items ≡ spec.rows_text rows.now) }
{
    let mut text = Vec::new(alloc);
    for row in rows {
        push_row(&mut text, row)?;
    }
    Ok(text)
}

/// What a selector sees at a moment in a book.
#[tactic(auto, unfolding(crate::specs::Instants::IsViewText))]
fn book_view(
    alloc: Global,
    selector: &Selector,
    moment: i64,
    book: &Book,
) -> Result<Vec<u8>, NoMemory>
    ensures { IfOk result (λ text. spec.IsViewText book.now.entries selector.now moment text.items) }
{
    let mut view = View::new(alloc);
    view.follow(alloc, book)?;
    let rows = view.instant(alloc, selector, moment)?;
    rows_text(alloc, rows.items.as_slice())
}

/// What a selector sees at a moment in the book of a script.
pub fn view_text(
    means: Means,
    moment: u64,
    selector: &Selector,
    script: &[u8],
) -> Result<Vec<u8>, ScriptError>
    requires { moment < 2 ^ 52 }
    ensures text { IfOk result (λ text. (journal : List Event) × IsScriptOf false script.now journal
        × spec.IsViewText (book_of journal) selector.now (pos moment) text.items) }
    ensures refused { IfErr result (λ e. RefusesScript false script.now e) }
{
    let core = match replayed(means, false, script) {
        Ok(core) => core,
        Err(error) => return Err(error),
    };
    let text = book_view(means.alloc, selector, moment as i64, core.book());
    core.let_go();
    match text {
        Ok(text) => Ok(text),
        Err(NoMemory) => Err(ScriptError::NoMemory),
    }
}
