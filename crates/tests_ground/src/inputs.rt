//! An input whose reads a signal breaks off.

use crate::fetches::is_given;
use crate::holds;
use os_streams::StdSource;
use outside::Source;
use std::io::{self, Error, ErrorKind, Read};
use std::process::Abort;
use std::test::Fail;

/// A reader whose every other read a signal breaks off. The others give `a`, `b`, a fault, and then the end.
#[derive(Drop)]
struct BrokenOff {
    is_next: bool,
    reads: u8,
}

impl Read for BrokenOff {
    fn read(&mut self, room: &mut [u8]) -> io::Result<usize> {
        self.is_next = !self.is_next;
        if self.is_next {
            return Err(Error::from(ErrorKind::Interrupted));
        }
        self.reads = self.reads.saturating_add(1);
        match (self.reads, room.first_mut()) {
            (1, Some(first)) => *first = b'a',
            (2, Some(first)) => *first = b'b',
            (3, _) => return Err(Error::from(ErrorKind::BrokenPipe)),
            _ => return Ok(0),
        }
        Ok(1)
    }
}

/// Ends the test where a source gives something else.
fn gives<S: Source>(rt: &impl Abort, source: &mut S) {
    let mut room = [0u8; 2];
    for (count, byte) in [
        (Some(1), b'a'),
        (Some(1), b'b'),
        (None, b'b'),
        (Some(0), b'b'),
    ] {
        holds(rt, source.read(&mut room).ok() == count, "count");
        holds(rt, room[0] == byte, "byte");
    }
}

#[test]
fn reads_that_signals_break_off_are_made_again(rt: HostRuntime) -> Result<(), Fail> {
    let reader = BrokenOff {
        is_next: false,
        reads: 0,
    };
    gives(&rt, &mut StdSource::new(reader));
    holds(&rt, is_given(rt.alloc())?, "a reply in memory");
    Ok(())
}
