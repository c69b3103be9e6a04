//! Instant views: selectors with blanks, and what is seen of a book that grew after it was followed. The rest the cases
//! show.

use crate::books::{FIRST, LATER, entries_of};
use crate::shared::{are_bytes, holds, set_of};
use appender_book::Book;
use instant_view::{Selector, SelectorError, View, ViewRow, laws_of_views};
use label_set::NoMemory;
use std::alloc::Global;
use std::process::Abort;
use std::test::Fail;

/// Texts with blanks and line feeds that give no selector, and why.
const REFUSED: &[(&str, SelectorError)] = &[
    (" x", SelectorError::Syntax),
    ("x ", SelectorError::Syntax),
    ("x y", SelectorError::Syntax),
    ("{} ", SelectorError::Syntax),
    (" {}", SelectorError::Syntax),
    ("x{a=\"b\" c=\"d\"}", SelectorError::Syntax),
    ("x{a= ~\"b\"}", SelectorError::Syntax),
    ("x{a=\"b\nc\"}", SelectorError::Syntax),
    ("x{a=\"b\\\nc\"}", SelectorError::Syntax),
    ("{ \t}", SelectorError::Bare),
];

/// Selectors with blanks, and whether they select the series `x{a="b c"}`.
const SELECTED: &[(&str, bool)] = &[
    ("x { }", true),
    ("{ a\t=\"b c\" , }", true),
    ("x\t{ a != \"\" , c = \"\" }", true),
    ("y { a =~ \"b.*\" }", false),
    ("x { a !~ \"b c\" }", false),
];

fn texts_are_selectors(rt: &impl Abort, alloc: Global) {
    for &(text, error) in REFUSED {
        let found = Selector::read(alloc, text).err();
        holds(rt, found == Some(error), text);
    }
}

fn sets_are_selected(rt: &impl Abort, alloc: Global) -> Result<(), NoMemory> {
    let set = set_of(alloc, "__name__=x")?.with(alloc, "a", "b c");
    let set = set.map_err(|_| NoMemory)?;
    for &(text, selected) in SELECTED {
        let Ok(selector) = Selector::read(alloc, text) else {
            panic!(rt; "no selector: {text}");
        };
        holds(rt, selector.selects(alloc, &set)? == selected, text);
    }
    Ok(())
}

/// Selectors, moments, and the place, the moment and the value of the row that is seen.
const SEEN: &[(&str, i64, &str)] = &[
    ("x", 59_999, "0 0 1;"),
    ("x", 60_000, "2 60000 3;"),
    ("x", 130_000, "5 120000 5;"),
    ("y", 59_999, "1 0 2;"),
    ("y", 60_000, ""),
    ("{__name__=~\"x|y\"}", 59_999, "0 0 1;1 0 2;"),
    ("w", i64::MIN, "6 -9223372036854775808 6;"),
    ("w", i64::MIN + 299_999, "6 -9223372036854775808 6;"),
    ("w", i64::MIN + 300_000, ""),
    ("w", i64::MAX, "7 9223372036854775807 7;"),
];

fn shown(alloc: Global, rows: &[ViewRow]) -> Result<String, NoMemory> {
    let mut text = String::new(alloc);
    for row in rows {
        let value = row.value.bytes();
        let line = format!(in alloc; "{} {} {};", row.place, row.moment, value.escape_ascii())?;
        text.push_str(line.as_str())?;
    }
    Ok(text)
}

/// What a selector sees at a moment.
fn seen(alloc: Global, view: &mut View, text: &str, moment: i64) -> Result<String, NoMemory> {
    let Ok(selector) = Selector::read(alloc, text) else {
        return Err(NoMemory);
    };
    let rows = view.instant(alloc, &selector, moment)?;
    shown(alloc, rows.items.as_slice())
}

/// Appends entries to a book, while a view follows it, and asks the view.
fn is_followed(rt: &impl Abort, alloc: Global, book: &mut Book) -> Result<(), NoMemory> {
    let mut view = View::new(alloc);
    book.append_all(entries_of(alloc, FIRST)?)?;
    view.follow(alloc, book)?;
    book.append_all(entries_of(alloc, LATER)?)?;
    laws_of_views();
    view.follow(alloc, book)?;
    for &(text, moment, wanted) in SEEN {
        let found = seen(alloc, &mut view, text, moment)?;
        are_bytes(rt, found.as_bytes(), wanted.as_bytes());
    }
    Ok(())
}

#[test]
fn selectors_are_read_and_a_growing_book_is_seen(rt: HostRuntime) -> Result<(), Fail> {
    texts_are_selectors(&rt, rt.alloc());
    sets_are_selected(&rt, rt.alloc())?;
    is_followed(&rt, rt.alloc(), &mut Book::new(rt.alloc())?)?;
    Ok(())
}
