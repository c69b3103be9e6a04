//! The requests that a status server is sent.

use crate::shared::{are_bytes, holds};
use label_set::NoMemory;
use request_heads::{Front, Page, front_at, selectors_of};
use std::alloc::Global;
use std::process::Abort;
use std::test::Fail;

/// Whole heads, the page that each asks for, its query, and whether it ends the connection.
const REQUESTS: &[(&[u8], Page, &[u8], bool)] = &[
    (b"GET /targets HTTP/1.1\r\n\r\n", Page::Targets, b"", false),
    (
        b"GET /targets?a?b HTTP/1.0\r\nConnection: CLOSE\r\n\r\n",
        Page::Targets,
        b"a?b",
        true,
    ),
    (
        b"GET /federate?match[]=x HTTP/1.1\nContent-Length: 0\n\n",
        Page::Federate,
        b"match[]=x",
        false,
    ),
    (
        b"POST /-/reload HTTP/1.1\r\nconnection: keep-alive\r\n\r\n",
        Page::Reload,
        b"",
        false,
    ),
    (b"PUT /-/reload HTTP/1.1\r\n\r\n", Page::Reload, b"", false),
    (
        b"GET /-/reload HTTP/1.1\r\n\r\n",
        Page::OtherMethod,
        b"",
        false,
    ),
    (
        b"get /targets HTTP/1.1\r\n\r\n",
        Page::OtherMethod,
        b"",
        false,
    ),
    (
        b"GET http://a:1/targets HTTP/1.1\r\n\r\n",
        Page::OtherPath,
        b"",
        false,
    ),
    (
        b"GET /x HTTP/1.1\r\nContent-Length: 00\r\n\r\n",
        Page::Body,
        b"",
        false,
    ),
    (
        b"GET /targets HTTP/1.1\r\ntransfer-encoding: chunked\r\n\r\n",
        Page::Body,
        b"",
        false,
    ),
];

fn requests_are_read(rt: &impl Abort) {
    for &(text, page, query, closes) in REQUESTS {
        match front_at(text) {
            Front::Whole { request, len } => {
                holds(rt, len == text.len(), "the length of a head");
                holds(
                    rt,
                    request.page == page && request.closes == closes,
                    "a request",
                );
                are_bytes(rt, request.query, query);
            }
            _ => holds(rt, false, "a whole head"),
        }
    }
    let torn = front_at(b"GET /targets HTTP/1.1\r\nHost: a\r\n");
    holds(rt, matches!(torn, Front::Waiting), "a torn head");
    let wrong = front_at(b"GET /targets HTTP/2.0\r\n\r\n");
    holds(rt, matches!(wrong, Front::Never), "no head");
}

/// Queries that have no selectors, since something in them doesn't decode.
const REFUSED: &[&[u8]] = &[
    b"match%5=x",
    b"match[]=%",
    b"match[]=%zz",
    b"match[]=%ff",
    b"%ff=x",
];

fn selectors_are_decoded(rt: &impl Abort, alloc: Global) -> Result<(), NoMemory> {
    for query in REFUSED {
        holds(rt, selectors_of(alloc, query)?.is_none(), "a refused query");
    }
    let query = b"a=%zz&match%5B%5D=x%7Ba%3D%221%22%7D&match[]&&match[]=&match[]=a+b";
    match selectors_of(alloc, query)? {
        None => holds(rt, false, "selectors"),
        Some(texts) => {
            let mut all = String::new(alloc);
            for text in texts.as_slice() {
                all.push_str(text)?;
                all.push(';')?;
            }
            are_bytes(rt, all.as_bytes(), b"x{a=\"1\"};;a b;");
        }
    }
    Ok(())
}

#[test]
fn requests_and_their_selectors_are_read(rt: HostRuntime) -> Result<(), Fail> {
    requests_are_read(&rt);
    selectors_are_decoded(&rt, rt.alloc())?;
    Ok(())
}
