//! The adapter over an input of the standard library.
ghost use Rattle.std.specs.Prelude.{◌≡◌, ◌≤◌, None, length, IfOk};

use outside::{Source, SourceFault};
use std::io;
use std::io::{ErrorKind, Read};
use std::marker::Model;

/// How often a read is made again that signals break off.
const MOST_TRIES: u64 = 1 << 40;

/// The standard input, or another reader of the standard library.
#[derive(Drop)]
pub struct StdSource<R: Read + Drop> {
    reader: R,
    given: u64,
    faults: u64,
}

impl<R: Read + Drop> Model for StdSource<R> {
    ghost use Rattle.std.specs.Prelude.{None};
    ghost use Rattle.outside.specs.Sources.{SourceSeen};

    ghost Value = { SourceSeen };

    ghost view = { λ s. record { left = None; given = s.given; faults = s.faults } };
}

impl<R: Read + Drop> StdSource<R> {
    /// A source over the reader.
    pub fn new(reader: R) -> StdSource<R>
        ensures { result ≡ record { left = None; given = 0; faults = 0 } }
    {
        StdSource {
            reader,
            given: 0,
            faults: 0,
        }
    }
}

/// Reads; a read that a signal broke off is made again.
fn read_again<R: Read>(reader: &mut R, room: &mut [u8]) -> io::Result<usize>
    ensures { IfOk result (λ n. n ≤ length room.new) }
{
    for _ in 0..MOST_TRIES {
        match reader.read(room) {
            Err(error) if error.kind() == ErrorKind::Interrupted => {}
            done => return done,
        }
    }
    Err(io::Error::from(ErrorKind::Interrupted))
}

impl<R: Read + Drop> Source for StdSource<R> {
    ghost seen = { λ s. s };

    fn read(&mut self, room: &mut [u8]) -> Result<usize, SourceFault> {
        if let Ok(count) = read_again(&mut self.reader, room) {
            if let Some(given) = self.given.checked_add(count as u64) {
                self.given = given;
                return Ok(count);
            }
        }
        self.faults = self.faults.saturating_add(1);
        Err(SourceFault)
    }
}
