//! Journals, and the text of a journal, one a version. What its events do, and where a text that is cut has its fault,
//! the program's cases and tests show.

use crate::shared::{are_bytes, holds};
use journal_text::ScriptCause::{Header, Line, Order, Rest};
use journal_text::{
    Event, Journal, ScriptCause, ScriptError, Version, read_journal, write_journal, write_version,
};
use label_set::NoMemory;
use outside::Reply;
use std::alloc::Global;
use std::process::Abort;
use std::test::Fail;

/// The journal of a text, or where the text has its fault, and why.
fn read(rt: &impl Abort, alloc: Global, text: &[u8]) -> Result<Journal, (u64, ScriptCause)> {
    match read_journal(alloc, text) {
        Ok(journal) => Ok(journal),
        Err(ScriptError::Bad(fault)) => Err((fault.offset, fault.cause)),
        Err(ScriptError::NoMemory) => panic!(rt; "no memory"),
    }
}

/// Texts that are no journal's, where they have their faults, and why.
const REFUSED: &[(&[u8], u64, ScriptCause)] = &[
    (b"scrape-journal 3\n", 0, Header),
    (b"scrape-journal 1\n\n", 17, Line),
    (b"scrape-journal 1\nload 0 00\n\n", 17, Line),
    (b"scrape-journal 1\nsweep 00\n", 17, Line),
    (b"scrape-journal 1\nsweep +1\n", 17, Line),
    (b"scrape-journal 1\nsweep  1\n", 17, Line),
    (b"scrape-journal 1\nsweep 1 \n", 17, Line),
    (b"scrape-journal 1\nsweep 1\r\n", 17, Line),
    (b"scrape-journal 1\nsweep 4503599627370496\n", 17, Line),
    (b"scrape-journal 1\ntick 0 18446744073709551616\n", 17, Line),
    (b"scrape-journal 1\nload 0 4194305\n", 17, Line),
    (b"scrape-journal 1\nbody 0 0 99 0\n\n", 17, Line),
    (b"scrape-journal 1\nbody 0 0 1000 0\n\n", 17, Line),
    (b"scrape-journal 1\nbody 0 0 200 67108865\n", 17, Line),
    (b"scrape-journal 1\ntargets 0 0 1 0\nf\n", 17, Line),
    (b"scrape-journal 1\ntargets 0 4097 1 0\n", 17, Line),
    (b"scrape-journal 1\ntargets 0 1 1 0\n\xfff\n", 17, Rest),
    (b"scrape-journal 1\nload 0 1\nabc\n", 17, Rest),
    (b"scrape-journal 1\nhalt 5\nload 4 1\nabc\n", 24, Rest),
    (b"scrape-journal 1\nhalt 5\nlost 0 0\nsweep 4\n", 33, Order),
];

fn texts_are_refused(rt: &impl Abort, alloc: Global) {
    for &(text, offset, cause) in REFUSED {
        let fault = read(rt, alloc, text).err();
        holds(rt, fault == Some((offset, cause)), "no journal");
    }
}

/// Each kind of event, with numbers at their limits, and an event after a halt.
const EACH_KIND: &[u8] =
    b"scrape-journal 1\nload 0 0\n\ntargets 7 1 2 3\njf1[]\n\ntick 7 18446744073709551615\n\
sweep 4503599627370495\nbody 0 0 100 0\n\nbody 4503599627370495 18446744073709551615 999 1\n\n\nlost 1 2\n\
garbled 3 4\nunsent 5 6\noversize 7 8\nhalt 4503599627370495\nsweep 4503599627370495\n";

/// A finish with a body whose names may stand in quotes, and one with an empty body.
const QUOTED: &[u8] = b"scrape-journal 2\nquoted 1 2 200 4\nx 1\n\nbody 1 2 200 0\n\n";

/// Ends the test where the journal of a text isn't written, in a version, as another text.
fn is_written(rt: &impl Abort, alloc: Global, text: &[u8], version: Version, wanted: &[u8]) {
    let Ok(journal) = read(rt, alloc, text) else {
        panic!(rt; "not read");
    };
    match write_version(alloc, version, &journal) {
        Ok(written) => are_bytes(rt, written.as_slice(), wanted),
        Err(_) => panic!(rt; "not written"),
    }
}

/// The events of a journal that are pushed.
fn events_are_pushed(rt: &impl Abort, alloc: Global) -> Result<(), NoMemory> {
    let mut journal = Journal::new(alloc);
    holds(rt, journal.is_empty() && journal.now() == 0, "no event");
    journal.reserve(2)?;
    journal.push(Event::Sweep { moment: 3 });
    journal.push(Event::Finish {
        ticket: 0,
        took: 9,
        reply: Reply::Lost,
    });
    holds(rt, journal.len() == 2 && journal.now() == 3, "two events");
    let text = write_journal(alloc, &journal)?;
    are_bytes(
        rt,
        text.as_slice(),
        b"scrape-journal 2\nsweep 3\nlost 9 0\n",
    );
    holds(rt, journal.into_events().len() == 2, "two events");
    Ok(())
}

#[test]
fn journals_are_read_refused_and_written(rt: HostRuntime) -> Result<(), Fail> {
    texts_are_refused(&rt, rt.alloc());
    is_written(&rt, rt.alloc(), EACH_KIND, Version::One, EACH_KIND);
    is_written(&rt, rt.alloc(), QUOTED, Version::Two, QUOTED);
    let (one, two) = (b"scrape-journal 1\nhalt 5\n", b"scrape-journal 2\nhalt 5\n");
    is_written(&rt, rt.alloc(), one, Version::Two, two);
    is_written(&rt, rt.alloc(), two, Version::One, one);
    events_are_pushed(&rt, rt.alloc())?;
    Ok(())
}
