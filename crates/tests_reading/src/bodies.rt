//! Bodies in, rows out, also in pieces. Which lines are of the format, and which are faulty, the cases show.

use crate::openmetrics::faulty_lines_are_told;
use crate::shared::{are_bytes, holds};
use crate::tokens::tokens_have_kinds_and_spans;
use expo_reader::{
    BodyReader, Form, LikeBody, ReadBody, SampleRow, Unread, read_body, read_form, read_like,
};
use label_set::Form::{Plain, Quoted};
use label_set::{Blob, NoMemory};
use std::alloc::{AllocError, Global};
use std::process::Abort;
use std::test::Fail;

/// Adds bytes and what stands behind them.
fn push_bytes(text: &mut Vec<u8>, bytes: &[u8], end: &[u8]) -> Result<(), AllocError> {
    text.extend_from_slice(bytes)?;
    text.extend_from_slice(end)
}

/// Adds a row: raw text, name, labels and value, and then the line and the timestamp, where there is one.
fn push_row(alloc: Global, text: &mut Vec<u8>, row: &SampleRow<'_>) -> Result<(), NoMemory> {
    push_bytes(text, row.raw(), b" ")?;
    push_bytes(text, row.name(alloc)?.as_str().as_bytes(), b" ")?;
    for label in row.labels(alloc)?.as_slice() {
        push_bytes(text, label.name().as_bytes(), b"=[")?;
        push_bytes(text, label.value().as_bytes(), b"] ")?;
    }
    push_bytes(text, row.value(), b" ")?;
    push_bytes(text, row.line().to_string(alloc)?.as_bytes(), b" ")?;
    if let Some(stamp) = row.stamp() {
        push_bytes(text, stamp.to_string(alloc)?.as_bytes(), b" ")?;
    }
    Ok(())
}

fn shown(alloc: Global, body: &ReadBody) -> Result<Vec<u8>, NoMemory> {
    let mut text = Vec::new(alloc);
    for place in 0..body.len() {
        push_row(alloc, &mut text, &body.row(place))?;
    }
    Ok(text)
}

/// Why a text was not read, and whether its bytes came back.
fn shown_fault(alloc: Global, text: &[u8], unread: &Unread) -> Result<Vec<u8>, NoMemory> {
    let is_back = unread.bytes.as_slice() == text;
    let cause = format!(in alloc; "{:?} {is_back}", unread.cause)?;
    Ok(cause.into_bytes())
}

/// A comment, blanks where they may stand, a label with an empty value, a timestamp, and a last line that no line feed
/// ends.
const BODY: &[u8] =
    b"# c\n\tx:y \t { a = \"}, \" , b=\"\" }\tNaN\t-9223372036854775808 \nz{p=\"C:\\\\D\"} .5e+3 5\nz 2";

/// Its rows.
const ROWS: &str = "x:y \t { a = \"}, \" , b=\"\" } x:y a=[}, ] b=[] NaN 2 -9223372036854775808 \
z{p=\"C:\\\\D\"} z p=[C:\\D] .5e+3 3 5 z z 2 4 ";

/// Lines with names in quotes: blanks, commas and escapes, a name of two bytes, and labels of both spellings.
const QUOTED: &[u8] =
    b" \t{ \"a b\" , c = \"d\" , } 1\n{\"a\"}1\n{\"\\\\\\\"\\n\\q\",\"\\\\\"=\"\\n\"} 2 -3\n\
x{a=\"1\",\"c.d\"=\"y\"} 4\n{\"\xc3\xa4\",} 5\n";

/// Their rows.
const QUOTED_ROWS: &str = "{ \"a b\" , c = \"d\" , } a b c=[d] 1 1 {\"a\"} a 1 2 \
{\"\\\\\\\"\\n\\q\",\"\\\\\"=\"\\n\"} \\\"\n\\q \\=[\n] 2 3 -3 \
x{a=\"1\",\"c.d\"=\"y\"} x a=[1] c.d=[y] 4 4 {\"ä\",} ä 5 5 ";

/// Texts with their forms, and what each shows.
const TEXTS: &[(Form, &[u8], &str)] = &[
    (Plain, BODY, ROWS),
    (Quoted, BODY, ROWS),
    (Quoted, QUOTED, QUOTED_ROWS),
    (Plain, QUOTED, "Line(1) true"),
    (Plain, b"x 1\n\n# c\nx{,} 1\nx{", "Line(4) true"),
    (Plain, b"x{a=\"\xff\"} 1\n", "Line(1) true"),
    (Quoted, b"{\"\xff\"} 1", "Line(1) true"),
    (Quoted, b"x{\"\xff\"=\"1\"} 1", "Line(1) true"),
    (Quoted, b"x{a=\"1\",\"a\"=\"2\"} 1", "Line(1) true"),
    (Quoted, b"{\"a\" \"b\"} 1", "Line(1) true"),
    (Quoted, b"{\"a\",,} 1", "Line(1) true"),
    (Quoted, b"{\"a\"=\"x\"} 1", "Line(1) true"),
    (Quoted, b"{\"a\",\"b\"} 1", "Line(1) true"),
    (Quoted, b"{\"a} 1", "Line(1) true"),
    (Quoted, b"{c=\"x\"} 1", "Line(1) true"),
];

/// What a text shows that comes in two pieces.
fn shown_cut(alloc: Global, form: Form, text: &[u8], cut: usize) -> Result<Vec<u8>, NoMemory> {
    let (first, second) = text.split_at(cut.min(text.len()));
    let mut reader = BodyReader::of(alloc, form)?;
    reader.feed(first)?;
    reader.feed(second)?;
    match reader.finish(alloc) {
        Ok(body) => shown(alloc, &body),
        Err(unread) => shown_fault(alloc, text, &unread),
    }
}

fn where_a_body_is_cut_makes_no_difference(rt: &impl Abort, alloc: Global) -> Result<(), NoMemory> {
    for &(form, text, wanted) in TEXTS {
        for cut in 0..=text.len() {
            are_bytes(rt, &shown_cut(alloc, form, text, cut)?, wanted.as_bytes());
        }
    }
    Ok(())
}

fn a_body_has_its_bytes_and_rows(rt: &impl Abort, alloc: Global) -> Result<(), NoMemory> {
    let Ok(body) = read_body(alloc, Blob::from_slice(alloc, BODY)?) else {
        panic!(rt; "its lines are of the format");
    };
    holds(rt, body.form() == Plain, "its form");
    holds(rt, body.rows(alloc)?.len() == 3, "copies of its rows");
    are_bytes(rt, body.bytes(), BODY);
    are_bytes(rt, body.into_bytes().as_slice(), BODY);
    Ok(())
}

/// The rows of a body, and their places among those of another one, each with one more than it is.
fn shown_like(alloc: Global, read: &LikeBody) -> Result<Vec<u8>, NoMemory> {
    let mut text = shown(alloc, &read.body)?;
    for place in read.places.as_slice() {
        let place = *place as u64;
        push_bytes(&mut text, place.to_string(alloc)?.as_bytes(), b" ")?;
    }
    Ok(text)
}

/// A text in a form, another one in its form, and what the first shows when it is read like the other.
type Pair = (Form, &'static str, Form, &'static str, &'static str);

fn shown_alike(
    alloc: Global,
    (form, text, other_form, other, _): Pair,
) -> Result<Vec<u8>, NoMemory> {
    let other = Blob::from_slice(alloc, other.as_bytes())?;
    let like = read_form(alloc, other, other_form).map_err(|_| NoMemory)?;
    let bytes = Blob::from_slice(alloc, text.as_bytes())?;
    match read_like(alloc, form, bytes, &like) {
        Ok(read) => shown_like(alloc, &read),
        Err(unread) => shown_fault(alloc, text.as_bytes(), &unread),
    }
}

/// The same page, one that is moved by a line, one whose first name begins as another, another order, a blank more, one
/// text twice, a faulty line, and pages of both forms.
const ALIKE: &[Pair] = &[
    (Plain, "a 1\nb 2", Plain, "a 5\nb 6", "a a 1 1 b b 2 2 1 2 "),
    (Plain, "n 0\na 1", Plain, "a 3\nb 4", "n n 0 1 a a 1 2 0 1 "),
    (Plain, "ab 1\na 2", Plain, "a 1", "ab ab 1 1 a a 2 2 0 1 "),
    (Plain, "b 1\na 1", Plain, "a 1\nb 1", "b b 1 1 a a 1 2 2 0 "),
    (Plain, "a{} 1\n", Plain, "a{ } 1\n", "a{} a 1 1 0 "),
    (Plain, "a 1\na 2\n", Plain, "a 1\n", "a a 1 1 a a 2 2 1 0 "),
    (Plain, "a x\n", Plain, "a 1\n", "Line(1) true"),
    (Quoted, "{\"a\"}1\n", Quoted, "{\"a\"}2", "{\"a\"} a 1 1 1 "),
    (Quoted, "x 1\n", Plain, "x 2\n", "x x 1 1 1 "),
    (Plain, "x 1\n", Quoted, "{\"a\"} 3\nx 2\n", "x x 1 1 2 "),
    (Plain, "{\"a\"} 1\n", Quoted, "{\"a\"} 1\n", "Line(1) true"),
];

fn a_body_like_another_is_read_as_alone(rt: &impl Abort, alloc: Global) -> Result<(), NoMemory> {
    for &pair in ALIKE {
        are_bytes(rt, &shown_alike(alloc, pair)?, pair.4.as_bytes());
    }
    Ok(())
}

#[test]
fn bodies_are_read_or_handed_back(rt: HostRuntime) -> Result<(), Fail> {
    tokens_have_kinds_and_spans(&rt);
    where_a_body_is_cut_makes_no_difference(&rt, rt.alloc())?;
    a_body_has_its_bytes_and_rows(&rt, rt.alloc())?;
    a_body_like_another_is_read_as_alone(&rt, rt.alloc())?;
    faulty_lines_are_told(&rt, rt.alloc());
    Ok(())
}
