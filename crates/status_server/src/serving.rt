//! A connection, from its first byte to its end.
ghost use Rattle.std.specs.Prelude.{◌≡◌, ◌≤◌, ◌<◌, length, drop};
ghost use Rattle.outside.specs.Objects.{used};
ghost use Rattle.status_server.specs.Serving.{Serves, ServesAll, touched};
ghost use Rattle.status_server.specs.Serving as spec;

use crate::connections::{Stop, answer_all};
use crate::server::Server;
use label_set::Steps;
use outside::{Shelf, Sink, Source};
use scrape_core::Core;
use std::alloc::Global;
use std::marker::Brand;
use std::sync::ledger::{Blank, Ledger};

/// The most bytes that a connection may give, if it doesn't end before: 1 MiB.
const MOST_BYTES: usize = 1 << 20;

/// How many bytes one read asks for.
const ROOM: usize = 65_536;

/// How serving a connection ended.
#[derive(Clone, Copy, PartialEq, Eq, Debug)]
pub enum ServeEnd {
    /// The connection ended: by a request, by what is none, or with its last byte.
    Done,
    /// Reading the connection failed, or the file of the configuration.
    ReadFault,
    /// Writing a reply failed.
    WriteFault,
    /// The connection gave more than 1 MiB.
    TooLong,
    /// An allocation failed.
    NoMemory,
}

/// A connection that was served, and the core behind it.
#[derive(Drop)]
pub struct Served {
    pub end: ServeEnd,
    pub core: Core,
}

/// How serving ends with a stop.
fn end_of(stop: Stop) -> ServeEnd
    ensures { result ≡ spec.end_of stop }
{
    match stop {
        Stop::ReadFault => ServeEnd::ReadFault,
        Stop::WriteFault => ServeEnd::WriteFault,
        Stop::NoMemory => ServeEnd::NoMemory,
    }
}

/// Drops so many bytes at the front.
fn drop_front(waiting: &mut Vec<u8>, len: usize)
    requires { len ≤ length waiting.old.items }
    ensures { waiting.new.items ≡ drop len waiting.old.items }
{
    let left = waiting.len() - len;
    waiting.rotate_left(len);
    waiting.truncate(left);
}

/// Serves a connection.
fn serve_all<L: Ledger, S: Shelf, C: Source, O: Sink>(
    server: &mut Server<L>,
    file: &str,
    shelf: &mut S,
    source: &mut C,
    sink: &mut O,
) -> ServeEnd
    ensures { Serves result server.old file.now (touched (used (S.seen shelf.old) (S.seen shelf.new))
        (used (C.seen source.old) (C.seen source.new)) (used (O.seen sink.old) (O.seen sink.new))) server.new }
{
    let Ok(mut room) = Vec::from_elem(server.alloc(), 0u8, ROOM) else {
        return ServeEnd::NoMemory;
    };
    let mut waiting = Vec::new(server.alloc());
    let mut given: usize = 0;
    for _ in 0..MOST_BYTES + 1 {
        let Ok(count) = source.read(&mut room) else {
            return ServeEnd::ReadFault;
        };
        if count == 0 {
            return ServeEnd::Done;
        }
        let kept = count.min(MOST_BYTES - given);
        let Ok(()) = waiting.extend_from_slice(&room[..kept]) else {
            return ServeEnd::NoMemory;
        };
        match answer_all(server, file, shelf, &waiting, sink) {
            Err(stop) => return end_of(stop),
            Ok(None) => return ServeEnd::Done,
            Ok(Some(len)) => drop_front(&mut waiting, len),
        }
        if kept < count {
            return ServeEnd::TooLong;
        }
        given += kept;
    }
    unreachable!()
}

/// A core that is to be served, and the file of its configuration.
#[derive(Drop)]
struct Start<'a> {
    core: Core,
    file: &'a str,
}

/// Serves a connection, with a count of steps that nobody reads.
fn serve_from<L: Ledger, S: Shelf, C: Source, O: Sink>(
    alloc: Global,
    blank: Blank,
    start: Start<'_>,
    shelf: &mut S,
    source: &mut C,
    sink: &mut O,
) -> Served
    requires blank { (blank.name ≡ L.name) × (blank.parts ≡ L.parts) × (0 < blank.parts) }
    ensures { Serves result.end start.entry.core start.entry.file.now (touched (used (S.seen shelf.old) (S.seen shelf.new))
        (used (C.seen source.old) (C.seen source.new)) (used (O.seen sink.old) (O.seen sink.new))) result.core }
{
    let steps: Steps<L> = Steps::open(blank);
    let mut server = Server::over(alloc, start.core, steps);
    let end = serve_all(&mut server, start.file, shelf, source, sink);
    Served {
        end,
        core: server.into_core(),
    }
}

/// Serves a connection: answers the requests that a source gives, one after another, until one of them ends it, until something comes that is no
/// request, or until the source is at its end. `GET /targets` lists the targets that are scraped; `POST` or `PUT` of `/-/reload` reads the
/// configuration of a file of the shelf anew and makes a load of it at the last moment of the core.
///
/// | end | comes |
/// |---|---|
/// | `Done` | the connection is over: whole replies were put to all of its requests |
/// | `ReadFault` | the source failed, and counted that: whole replies were put to all that it gave; or reading the file did, and the shelf counted that: the request for it has no reply |
/// | `WriteFault` | the sink failed, and counted that: it took a front of the replies |
/// | `TooLong` | the source gave more than 1 MiB, within which the connection hasn't ended: whole replies were put to its requests |
/// | `NoMemory` | an allocation failed: whole replies were put to the first requests |
///
/// The core comes back with the loads that were made.
pub fn serve<S: Shelf, C: Source, O: Sink>(
    alloc: Global,
    core: Core,
    file: &str,
    shelf: &mut S,
    source: &mut C,
    sink: &mut O,
) -> Served
    ensures { Serves result.end core file.now (touched (used (S.seen shelf.old) (S.seen shelf.new))
        (used (C.seen source.old) (C.seen source.new)) (used (O.seen sink.old) (O.seen sink.new))) result.core }
{
    let start = Start { core, file };
    serve_from::<Brand, S, C, O>(alloc, Blank::new(1), start, shelf, source, sink)
}

/// The law that a connection which was served to its end is answered by all that its source had, where that is known. It does nothing.
pub fn serves_all()
    ensures { ServesAll }
{}
