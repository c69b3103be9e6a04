//! The program `scrape`: it scrapes the targets of a configuration and prints the book of that, samples, stale markers and reports; it replays a recorded
//! journal to the same book; it checks a configuration and prints how many jobs it has; or it makes a large journal from a number, replays that, and
//! prints the summary of its book.
//! `tool` is the whole program, generic over what has files and takes bytes; `main` hands it the real files, the standard streams, clock and fetchers.
//! `specs/Lives.antt` says how a run ends; how the other commands end stands in the crate `scrape_commands`, which words are taken in `command_words`.
#![tactic(auto)]

ghost use Rattle.std.specs.Prelude.{◌≡◌, vec_len, IfOk};

#[cfg(test)]
mod tests;
pub mod tool;

use http_fetch::HttpFetch;
use label_set::Name;
use os_streams::{StdSource, TcpLink};
use outside::{FileShelf, FileSink, StdSink, SystemClock};
use scrape_core::Means;
use std::hash::RandomState;
use std::process::ExitCode;
use std::rt::HostRuntime;
use std::{env, io};
use tool::tool;

/// Where a run writes its journal.
const TRAIL: &str = "scrape.journal";

/// The status where memory runs out.
const NO_MEMORY: u8 = 8;

/// What fetches over HTTP, by the system's clock.
type Fetcher = HttpFetch<TcpLink<HostRuntime>, SystemClock<HostRuntime>>;

fn fetcher(rt: &HostRuntime) -> Result<Fetcher, io::Error> {
    let link = TcpLink::new(rt.clone()?);
    let clock = SystemClock::new(rt.clone()?);
    Ok(HttpFetch::new(rt.alloc(), link, clock))
}

/// Four fetchers, so that as many scrapes are fetched beside one another.
fn fetchers(rt: &HostRuntime) -> Result<Vec<Fetcher>, io::Error>
    ensures { IfOk result (λ v. vec_len v ≡ 4) }
{
    let one = fetcher(rt)?;
    let two = fetcher(rt)?;
    let three = fetcher(rt)?;
    let four = fetcher(rt)?;
    Ok(vec![in rt.alloc(); one, two, three, four]?)
}

fn main(rt: HostRuntime) -> Result<ExitCode, io::Error> {
    let alloc = rt.alloc();
    let mut words = Vec::new(alloc);
    for word in env::args(&rt)? {
        words.push(word)?;
    }
    let means = Means {
        alloc,
        seed: RandomState::new(&rt)?,
    };
    let mut shelf = FileShelf::new(rt.clone()?);
    let mut out = StdSink::new(io::writer(&rt));
    let mut err = StdSink::new(rt.stderr());
    let Ok(trail_name) = Name::from_str(alloc, TRAIL) else {
        return Ok(ExitCode::from(NO_MEMORY));
    };
    let mut trail = FileSink::new(rt.clone()?, trail_name);
    let control = StdSource::new(rt.stdin());
    let clock = SystemClock::new(rt.clone()?);
    let fetchers = fetchers(&rt)?;
    // the first word is the program's name
    let words = match words.as_slice() {
        [_, rest @ ..] => rest,
        [] => &[],
    };
    let finished = tool(
        &rt, means, words, &mut shelf, &mut out, &mut err, &mut trail, control, clock, fetchers,
    );
    Ok(ExitCode::from(finished.status))
}
