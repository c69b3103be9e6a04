//! What a status server answers to a connection, whole and cut at each byte.

use super::{ROOM, fails, files_of, holds, means_of};
use journal_text::read_journal;
use label_set::{Blob, NoMemory};
use outside::{MemShelf, MemSink, MemSource, SureShelf, SureSource};
use scrape_core::{Core, Means, replay};
use status_server::{ServeEnd, serve};
use std::alloc::Global;
use std::process::Abort;
use std::test::Fail;

/// A journal with one scrape of one of two targets.
const SCRIPT: &[u8] = br#"scrape-journal 1
load 0 82
{"scrape_configs":[{"job_name":"j","static_configs":[{"targets":["a:1","b:1"]}]}]}
sweep 0
body 15 0 200 8
x 1
y 2

"#;

/// The reply with all series of the journal's scrape, for selectors that take some of them twice.
const SERIES: &[u8] =
    b"HTTP/1.1 200 OK\r\nContent-Type: text/plain; version=1.0.0; escaping=allow-utf-8\r\nContent-Length: 312\r\n\r\n\
scrape_duration_seconds{instance=\"a:1\",job=\"j\"} 0.015 0\n\
scrape_samples_post_metric_relabeling{instance=\"a:1\",job=\"j\"} 2 0\n\
scrape_samples_scraped{instance=\"a:1\",job=\"j\"} 2 0\n\
scrape_series_added{instance=\"a:1\",job=\"j\"} 2 0\n\
up{instance=\"a:1\",job=\"j\"} 1 0\n\
x{instance=\"a:1\",job=\"j\"} 1 0\n\
y{instance=\"a:1\",job=\"j\"} 2 0\n";

/// Requests of one connection, and what each is answered; the last one ends it.
const EXCHANGES: &[(&[u8], &[u8])] = &[
    (
        b"GET /targets?x HTTP/1.1\r\n\r\n",
        b"HTTP/1.1 200 OK\r\nContent-Type: text/plain; version=1.0.0; escaping=allow-utf-8\r\nContent-Length: 65\r\n\r\n0 up {instance=\"a:1\",job=\"j\"}\n1 unknown {instance=\"b:1\",job=\"j\"}\n",
    ),
    (
        b"GET /federate?match%5B%5D=x HTTP/1.1\r\n\r\n",
        b"HTTP/1.1 200 OK\r\nContent-Type: text/plain; version=1.0.0; escaping=allow-utf-8\r\nContent-Length: 30\r\n\r\nx{instance=\"a:1\",job=\"j\"} 1 0\n",
    ),
    (
        b"GET /federate?match[]={job=\"j\"}&match[]=y&match[]=up HTTP/1.1\r\n\r\n",
        SERIES,
    ),
    (
        b"GET /federate HTTP/1.1\r\n\r\n",
        b"HTTP/1.1 400 Bad Request\r\nContent-Type: text/plain; version=1.0.0; escaping=allow-utf-8\r\nContent-Length: 0\r\n\r\n",
    ),
    (
        b"POST /targets HTTP/1.1\r\n\r\n",
        b"HTTP/1.1 405 Method Not Allowed\r\nContent-Type: text/plain; version=1.0.0; escaping=allow-utf-8\r\nContent-Length: 0\r\n\r\n",
    ),
    (
        b"GET /x HTTP/1.1\r\n\r\n",
        b"HTTP/1.1 404 Not Found\r\nContent-Type: text/plain; version=1.0.0; escaping=allow-utf-8\r\nContent-Length: 0\r\n\r\n",
    ),
    (
        b"POST /-/reload HTTP/1.1\r\n\r\n",
        b"HTTP/1.1 200 OK\r\nContent-Type: text/plain; version=1.0.0; escaping=allow-utf-8\r\nContent-Length: 0\r\n\r\n",
    ),
    (
        b"GET /targets HTTP/1.1\r\n\r\n",
        b"HTTP/1.1 200 OK\r\nContent-Type: text/plain; version=1.0.0; escaping=allow-utf-8\r\nContent-Length: 0\r\n\r\n",
    ),
    (
        b"GET /targets HTTP/1.1\r\nContent-Length: 1\r\n\r\n",
        b"HTTP/1.1 400 Bad Request\r\nContent-Type: text/plain; version=1.0.0; escaping=allow-utf-8\r\nContent-Length: 0\r\nConnection: close\r\n\r\n",
    ),
];

/// A core that took the journal.
fn core_of(means: Means) -> Result<Core, NoMemory> {
    match read_journal(means.alloc, SCRIPT) {
        Ok(journal) => replay(means, journal),
        Err(_) => Err(NoMemory),
    }
}

/// The bytes of all requests, one after another.
fn requests(alloc: Global) -> Result<Vec<u8>, NoMemory> {
    let mut text = Vec::new(alloc);
    for exchange in EXCHANGES {
        text.extend_from_slice(exchange.0)?;
    }
    Ok(text)
}

/// The replies to those that end within so many bytes.
fn replies(alloc: Global, count: usize) -> Result<Vec<u8>, NoMemory> {
    let mut text = Vec::new(alloc);
    let mut end: usize = 0;
    for exchange in EXCHANGES {
        end = end.saturating_add(exchange.0.len());
        if end <= count {
            text.extend_from_slice(exchange.1)?;
        }
    }
    Ok(text)
}

/// What is put out for a connection, by a server whose configuration's file has no jobs; nothing where it isn't served to its end.
fn put_for(means: Means, bytes: &[u8]) -> Result<MemSink, NoMemory> {
    let mut shelf = SureShelf::new(files_of(means.alloc, &[("c.json", "{}")])?)?;
    let mut source = SureSource::new(Blob::from_slice(means.alloc, bytes)?)?;
    let mut sink = MemSink::new(means.alloc, ROOM, fails(means.alloc, &[])?)?;
    let core = core_of(means)?;
    let served = serve(
        means.alloc,
        core,
        "c.json",
        &mut shelf,
        &mut source,
        &mut sink,
    );
    served.core.let_go();
    if served.end != ServeEnd::Done {
        return Err(NoMemory);
    }
    Ok(sink)
}

/// The calls at which each object of a connection fails, how that ends, and to how many requests whole replies are put then.
#[derive(Clone, Copy)]
struct Fault<'a> {
    source: &'a [u64],
    shelf: &'a [u64],
    sink: &'a [u64],
    end: ServeEnd,
    whole: usize,
}

const FAULTS: &[Fault<'static>] = &[
    Fault {
        source: &[0],
        shelf: &[],
        sink: &[],
        end: ServeEnd::ReadFault,
        whole: 0,
    },
    Fault {
        source: &[1],
        shelf: &[],
        sink: &[],
        end: ServeEnd::ReadFault,
        whole: 8,
    },
    Fault {
        source: &[],
        shelf: &[0],
        sink: &[],
        end: ServeEnd::ReadFault,
        whole: 6,
    },
    Fault {
        source: &[],
        shelf: &[],
        sink: &[0],
        end: ServeEnd::WriteFault,
        whole: 0,
    },
    Fault {
        source: &[],
        shelf: &[],
        sink: &[7],
        end: ServeEnd::WriteFault,
        whole: 7,
    },
];

/// How long the first requests are.
fn length_of(count: usize) -> usize {
    let mut length: usize = 0;
    for exchange in &EXCHANGES[..count.min(EXCHANGES.len())] {
        length = length.saturating_add(exchange.0.len());
    }
    length
}

/// How a connection ends of which an object fails, without the request that ends it.
fn end_with(means: Means, fault: Fault<'_>, sink: &mut MemSink) -> Result<ServeEnd, NoMemory> {
    let text = requests(means.alloc)?;
    let text = Blob::from_slice(means.alloc, &text[..length_of(8).min(text.len())])?;
    let files = files_of(means.alloc, &[("c.json", "{}")])?;
    let mut shelf = MemShelf::new(files, fails(means.alloc, fault.shelf)?)?;
    let mut source = MemSource::new(text, fails(means.alloc, fault.source)?)?;
    let core = core_of(means)?;
    let served = serve(means.alloc, core, "c.json", &mut shelf, &mut source, sink);
    served.core.let_go();
    Ok(served.end)
}

/// Ends the test where a connection of which an object fails ends otherwise.
fn ends_so(rt: &impl Abort, means: Means, fault: Fault<'_>) -> Result<(), NoMemory> {
    let mut sink = MemSink::new(means.alloc, ROOM, fails(means.alloc, fault.sink)?)?;
    let end = end_with(means, fault, &mut sink)?;
    holds(rt, end == fault.end, "the end of a fault");
    let wanted = replies(means.alloc, length_of(fault.whole))?;
    holds(
        rt,
        sink.bytes() == wanted.as_slice(),
        "the replies before a fault",
    );
    Ok(())
}

#[test]
fn a_fault_ends_a_connection(rt: HostRuntime) -> Result<(), Fail> {
    let means = means_of(&rt)?;
    for fault in FAULTS {
        ends_so(&rt, means, *fault)?;
    }
    Ok(())
}

#[test]
fn connections_are_answered(rt: HostRuntime) -> Result<(), Fail> {
    let means = means_of(&rt)?;
    let text = requests(means.alloc)?;
    for count in 0..text.len() + 1 {
        let put = put_for(means, &text[..count])?;
        let wanted = replies(means.alloc, count)?;
        holds(
            &rt,
            put.bytes() == wanted.as_slice(),
            "a connection that was cut",
        );
    }
    Ok(())
}
