//! The replies of targets: whole, in two pieces cut at each place, byte by byte, and from a link.

use crate::holds;
use crate::hostile::HOSTILE;
use http_fetch::receive::receive;
use http_fetch::{Decoder, Fed, decode};
use label_set::{Blob, NoMemory};
use outside::{Reply, SureLink};
use std::alloc::Global;
use std::process::Abort;
use std::test::Fail;

/// What a mark of a row stands for; nothing where it is none.
fn meaning(mark: u8) -> &'static [u8] {
    match mark {
        b'~' => b"\r\n",
        b'^' => b"\n",
        b'$' => b"\t",
        b'!' => b"HTTP/1.1 ",
        b'%' => b"Transfer-Encoding: chunked",
        b'@' => b"application/openmetrics-text",
        _ => b"",
    }
}

/// A row for each reply: the limit of its body, a word for what it comes to, the status, the body, and behind `|` the
/// bytes of the reply. `<N:PIECE>` is a piece so many times.
const REPLIES: &str = r##"
4 body 200 x 1^|!200 OK~%~~4~x 1^~0~~
3 oversize 0 |!200 OK~%~~4~x 1^~0~~
9 garbled 0 |!200 OK~%~~4~x 1
9 body 404 |!404 Not Found~Content-Length: 7~~
9 body 200 hi|!100 Continue~~!200 OK~Content-Length: 2~~him
9 body 200 hi|!200 OK~Content-Length: 2~content-length: 2~~him
9 garbled 0 |!200 OK~Content-Length: 2~Content-Length: 3~~him
9 body 200 hi|!200 OK~Content-Length: 2~Content-Length: 02~~him
9 garbled 0 |!200 OK~Content-Length: 3~~hi
9 oversize 0 |!200 OK~Content-Length: 10~~hi
9 oversize 0 |!200 OK~Content-Length: 9223372036854775807~~hi
9 garbled 0 |!200 OK~Content-Length: 9223372036854775808~~hi
9 garbled 0 |!200 OK~Content-Length: +2~~hi
2 body 200 hi|!200 OK~~hi
2 oversize 0 |!200 OK~~him
2 garbled 0 |!200 OK~Content-Encoding: gzip~Content-Length: 10~~him
2 body 200 |!200 OK~Content-Encoding: Identity~Content-Length: 0~~him
2 garbled 0 |!200 OK~%~transfer-encoding: chunked~~0~~
2 garbled 0 |!200 OK~Transfer-Encoding: gzip~~0~~
2 body 200 a|!200 OK~Transfer-Encoding: Chunked~Content-Length: 99~~1;x~a~0~A: b~~
2 oversize 0 |!200 OK~%~~1~a~fff~
2 garbled 0 |!200 OK~%~~1~a~fff 
2 garbled 0 |!099 OK~~!200 OK~~
-- bodies of OpenMetrics
19 body 200 a 1 2000^|!200 OK~Content-Type: @; version=1.0.0~~a 1 2 # {} 1^# EOF^
9 body 200 |!200 OK~content-type: $ Application/OpenMetrics-Text $ ;~Content-Length: 5~~# EOF
19 body 200 a 1^|!100 Go on~Content-Type: text/plain~~!200 OK~Content-Type: @~%~~4~a 1^~6~# EOF^~0~~
9 garbled 0 |!200 OK~Content-Type: @~~a 1^
13 oversize 0 |!200 OK~Content-Type: @~~a 1 9e9^# EOF
9 oversize 0 |!200 OK~Content-Type: @~~a 1^# EOF^
9 body 200 a 1^|!200 OK~Content-Type: text/plain~Content-Type: @~~a 1^
9 body 200 a 1^|!200 OK~Content-Type: @s~~a 1^
9 body 404 |!404 Not Found~Content-Type: @~~a 1^
2 garbled 0 |
-- bodies whose names may stand in quotes, and those that look like it
19 quoted 200 {"a.b"} 1^|!200 OK~Content-Type: text/plain; version=1.0.0; escaping=allow-utf-8~~{"a.b"} 1^
-- the first header counts
9 quoted 200 a 1^|!200 OK~Content-Type: text/plain;escaping=allow-utf-8~Content-Type: text/plain~~a 1^
9 body 200 a 1^|!200 OK~Content-Type: text/plain~Content-Type: text/plain;escaping=allow-utf-8~~a 1^
9 body 200 a 1^|!100 Go on~Content-Type: a;escaping=allow-utf-8~~!200 OK~~a 1^
-- any case, blanks at the ends of the part, and a part behind it
9 quoted 200 a 1^|!200 OK~content-type: text/plain;$ ESCAPING=Allow-UTF-8 $;charset=utf-8~Content-Length: 4~~a 1^
-- another position among the parts
9 quoted 200 a 1^|!200 OK~Content-Type: escaping=allow-utf-8;text/plain~%~~4~a 1^~0~~
9 quoted 200 a 1^|!200 OK~Content-Type: ;;escaping=allow-utf-8;escaping=underscores~~a 1^
-- other words
9 body 200 a 1^|!200 OK~Content-Type: text/plain;escaping=underscores~~a 1^
9 body 200 a 1^|!200 OK~Content-Type: text/plain;escaping=allow-utf-8x~~a 1^
9 body 200 a 1^|!200 OK~Content-Type: text/plain;escaping = allow-utf-8~~a 1^
-- another status
9 body 404 |!404 Not Found~Content-Type: text/plain;escaping=allow-utf-8~~a 1^
-- OpenMetrics goes before where it is named first
19 body 200 a 1^|!200 OK~Content-Type: @;escaping=allow-utf-8~~a 1^# EOF^
19 quoted 200 a 1^# EOF^|!200 OK~Content-Type: escaping=allow-utf-8;@~~a 1^# EOF^
-- past the limit
3 oversize 0 |!200 OK~Content-Type: text/plain;escaping=allow-utf-8~~a 1^
"##;

/// How long a reply may be that is cut at each place.
const MOST_CUT: usize = 500;

/// A row, with its marks.
#[derive(Clone, Copy)]
struct Row<'a> {
    limit: u64,
    word: &'a str,
    status: u16,
    body: &'a str,
    reply: &'a str,
}

fn row_of(line: &str) -> Option<Row<'_>> {
    let (front, reply) = line.split_once('|')?;
    let (limit, front) = front.split_once(' ')?;
    let (word, front) = front.split_once(' ')?;
    let (status, body) = front.split_once(' ')?;
    Some(Row {
        limit: limit.parse::<u64>().ok()?,
        word,
        status: status.parse::<u16>().ok()?,
        body,
        reply,
    })
}

/// Adds what a text with marks stands for.
fn push_marked(bytes: &mut Vec<u8>, text: &str) -> Result<(), NoMemory> {
    for byte in text.as_bytes() {
        match meaning(*byte) {
            b"" => bytes.push(*byte)?,
            meaning => bytes.extend_from_slice(meaning)?,
        }
    }
    Ok(())
}

fn bytes_of(alloc: Global, text: &str) -> Result<Vec<u8>, NoMemory> {
    let mut bytes = Vec::new(alloc);
    for part in text.split('>') {
        let (plain, again) = part.split_once('<').unwrap_or((part, ""));
        push_marked(&mut bytes, plain)?;
        let (count, piece) = again.split_once(':').unwrap_or(("0", ""));
        for _ in 0..count.parse::<u64>().unwrap_or(0) {
            push_marked(&mut bytes, piece)?;
        }
    }
    Ok(bytes)
}

/// The word of a reply, its status, and its body.
fn shown(reply: &Reply) -> (&'static str, u16, &[u8]) {
    match reply {
        Reply::Body { status, bytes } => ("body", *status, bytes.as_slice()),
        Reply::Quoted { status, bytes } => ("quoted", *status, bytes.as_slice()),
        Reply::Lost => ("lost", 0, b""),
        Reply::Garbled => ("garbled", 0, b""),
        Reply::Unsent => ("unsent", 0, b""),
        Reply::Oversize => ("oversize", 0, b""),
    }
}

/// Ends the test where a reply isn't that of its row.
fn is_of(rt: &impl Abort, reply: &Reply, row: Row<'_>, body: &[u8]) {
    holds(rt, shown(reply) == (row.word, row.status, body), row.reply);
}

fn reply_of_pieces(
    alloc: Global,
    first: &[u8],
    second: &[u8],
    limit: u64,
) -> Result<Reply, NoMemory> {
    let mut decoder = Decoder::new(alloc, limit)?;
    decoder.feed(first)?;
    decoder.feed(second)?;
    decoder.end(alloc)
}

/// The reply of bytes that come one by one, and at which the decoder says first that nothing changes any more.
fn reply_of_bytes(
    alloc: Global,
    bytes: &[u8],
    limit: u64,
) -> Result<(Reply, Option<usize>), NoMemory> {
    let mut decoder = Decoder::new(alloc, limit)?;
    let mut done = None;
    for count in 0..bytes.len() {
        if decoder.feed(&bytes[count..=count])? == Fed::Done && done.is_none() {
            done = Some(count);
        }
    }
    Ok((decoder.end(alloc)?, done))
}

fn received(alloc: Global, bytes: &[u8], limit: u64) -> Result<Reply, NoMemory> {
    let mut link = SureLink::new(Blob::from_slice(alloc, bytes)?)?;
    receive(alloc, &mut link, limit.min(19))
}

/// Ends the test where a reply is another: whole, from a link, byte by byte, or in two pieces.
fn is_so(
    rt: &impl Abort,
    alloc: Global,
    bytes: &[u8],
    row: Row<'_>,
    body: &[u8],
) -> Result<(), NoMemory> {
    is_of(rt, &decode(alloc, bytes, row.limit)?, row, body);
    is_of(rt, &received(alloc, bytes, row.limit)?, row, body);
    if bytes.len() <= MOST_CUT {
        is_of(rt, &reply_of_bytes(alloc, bytes, row.limit)?.0, row, body);
        for at in 0..bytes.len() {
            let (first, second) = bytes.split_at(at);
            let reply = reply_of_pieces(alloc, first, second, row.limit)?;
            is_of(rt, &reply, row, body);
        }
    }
    Ok(())
}

/// Ends the test where the reply of a row is another.
fn row_is_so(rt: &impl Abort, alloc: Global, line: &str) -> Result<(), NoMemory> {
    let Some(row) = row_of(line) else {
        panic!(rt; "misread: {line}");
    };
    let bytes = bytes_of(alloc, row.reply)?;
    let body = bytes_of(alloc, row.body)?;
    is_so(rt, alloc, &bytes, row, &body)
}

/// Ends the test where a reply is whole at another byte.
fn is_done_at(
    rt: &impl Abort,
    alloc: Global,
    text: &str,
    limit: u64,
    count: Option<usize>,
) -> Result<(), NoMemory> {
    let bytes = bytes_of(alloc, text)?;
    let (_reply, done) = reply_of_bytes(alloc, &bytes, limit)?;
    holds(rt, done == count, text);
    Ok(())
}

/// Replies, their limits, and at which byte, counted from 0, each is whole; none where the end of the link has to be
/// met. The first has 61 bytes and the third 40.
const DONE: [(&str, u64, Option<usize>); 4] = [
    ("!200 OK~%~~4~x 1^~0~~", 4, Some(60)),
    ("!200 OK~%~~4~x 1^~0~~", 3, Some(49)),
    ("!200 OK~Content-Length: 2~~hi", 2, Some(39)),
    ("!200 OK~~hi", 2, None),
];

#[test]
fn replies_whole_and_cut_at_each_place(rt: HostRuntime) -> Result<(), Fail> {
    for (text, limit, count) in DONE {
        is_done_at(&rt, rt.alloc(), text, limit, count)?;
    }
    for rows in [REPLIES, HOSTILE] {
        for line in rows.lines() {
            if !line.is_empty() && !line.starts_with("--") {
                row_is_so(&rt, rt.alloc(), line)?;
            }
        }
    }
    Ok(())
}
