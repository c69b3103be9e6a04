//! Fetches over links in memory: what is sent, how long it took, and links that fail at a call.
ghost use Rattle.std.specs.Prelude.{◌≤◌, IfOk, All};
ghost use Rattle.outside.specs.Fetches.{IsTimeout};
ghost use Rattle.outside.specs.Clocks.{IsReading};
ghost use Rattle.outside.specs.Sizes.{most_body_bytes};

use crate::holds;
use http_fetch::HttpFetch;
use label_set::{Blob, Name, NoMemory};
use outside::{CallList, Fetch, Fetched, MemClock, MemLink, MomentList, Reply, Request, Scheme};
use std::alloc::Global;
use std::process::Abort;
use std::test::Fail;

const TEXT: &str = "GET /metrics?a=b HTTP/1.1\r\nHost: a:1\r\n\
Accept: application/openmetrics-text;version=1.0.0;q=1,text/plain;version=1.0.0;escaping=allow-utf-8;q=0.9,\
text/plain;version=0.0.4;q=0.8,*/*;q=0.1\r\n\
Accept-Encoding: identity\r\nUser-Agent: scrape/1\r\nX-Prometheus-Scrape-Timeout-Seconds: 1.500\r\n\
Connection: close\r\n\r\n";

/// A reply that ends by itself, and one that ends where its link does.
const BODY: &str = "HTTP/1.1 200 OK\r\nContent-Length: 4\r\n\r\nx 1\n";

const ENDS: &str = "HTTP/1.1 200 OK\r\n\r\nx 1\n";

fn request(alloc: Global, scheme: Scheme) -> Result<Request, NoMemory>
    ensures limit { IfOk result (λ r. r.limit ≤ most_body_bytes) }
    ensures timeout { IfOk result (λ r. IsTimeout r.timeout) }
{
    Ok(Request {
        scheme,
        authority: Name::from_str(alloc, "a:1")?,
        host: Name::from_str(alloc, "127.0.0.1")?,
        port: 1,
        target: Name::from_str(alloc, "/metrics?a=b")?,
        timeout: 1500,
        limit: 100,
    })
}

/// A link that gives this text, takes so much less than the request, and fails at this call.
fn link(alloc: Global, text: &str, less: usize, fails: u64) -> Result<MemLink, NoMemory> {
    let fails = CallList {
        items: vec![in alloc; fails]?,
    };
    let bytes = Blob::from_slice(alloc, text.as_bytes())?;
    MemLink::new(alloc, bytes, TEXT.len().saturating_sub(less), fails)
}

/// A clock of two readings.
fn clock(alloc: Global, first: i64, second: i64) -> Result<MemClock, NoMemory>
    requires first { IsReading first }
    requires second { IsReading second }
{
    MemClock::new(MomentList {
        items: vec![in alloc; first, second]?,
    })
}

type MemHttp = HttpFetch<MemLink, MemClock>;

/// What was fetched, in a word; the body is one that comes after 15 milliseconds.
fn shown(fetched: &Fetched) -> &'static str {
    match &fetched.reply {
        Reply::Body { status: 200, bytes } if bytes.as_slice() == b"x 1\n".as_slice() => "body",
        Reply::Lost => "lost",
        Reply::Unsent => "unsent",
        _ => "something else",
    }
}

/// Ends the test where a fetch for a scheme takes another time or has another reply.
fn is_answered(
    rt: &impl Abort,
    alloc: Global,
    fetch: &mut MemHttp,
    scheme: Scheme,
    wanted: (i64, &str),
) -> Result<(), NoMemory> {
    let fetched = fetch.fetch(alloc, &request(alloc, scheme)?)?;
    holds(rt, (fetched.took, shown(&fetched)) == wanted, wanted.1);
    Ok(())
}

/// A fetch whose scheme isn't spoken, one that takes its time, and one by a clock that goes back.
fn is_unsent_taken_and_lost(
    rt: &impl Abort,
    alloc: Global,
    fetch: &mut MemHttp,
) -> Result<(), NoMemory> {
    is_answered(rt, alloc, fetch, Scheme::Https, (0, "unsent"))?;
    holds(rt, fetch.link.sent().is_empty(), "nothing is sent");
    is_answered(rt, alloc, fetch, Scheme::Http, (15, "body"))?;
    holds(rt, fetch.link.sent() == TEXT.as_bytes(), "what is sent");
    fetch.clock = clock(alloc, 20, 5)?;
    is_answered(rt, alloc, fetch, Scheme::Http, (0, "lost"))
}

/// What a link gives, how much less than the request it takes, the call that fails, and what comes.
const LINKS: &[(&str, usize, u64, &str)] = &[
    // the dial, the write, the read, and the read that meets the end
    (ENDS, 0, 0, "lost"),
    (ENDS, 0, 1, "lost"),
    (ENDS, 0, 2, "lost"),
    (ENDS, 0, 3, "lost"),
    (ENDS, 0, 4, "body"),
    // a reply that ends by itself asks for no further read
    (BODY, 0, 3, "body"),
    // a link that takes not all of the request
    (BODY, 1, 99, "lost"),
];

/// What fetches over a link of its own.
fn over(alloc: Global, text: &str, less: usize, fails: u64) -> Result<MemHttp, NoMemory> {
    let link = link(alloc, text, less, fails)?;
    Ok(HttpFetch::new(alloc, link, clock(alloc, 5, 20)?))
}

#[test]
fn replies_are_taken_or_lost(rt: HostRuntime) -> Result<(), Fail> {
    let alloc = rt.alloc();
    is_unsent_taken_and_lost(&rt, alloc, &mut over(alloc, BODY, 0, 99)?)?;
    for &(text, less, fails, word) in LINKS {
        let mut fetch = over(alloc, text, less, fails)?;
        is_answered(&rt, alloc, &mut fetch, Scheme::Http, (15, word))?;
    }
    Ok(())
}
