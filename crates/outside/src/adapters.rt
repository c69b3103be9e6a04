//! Adapters over the real things. Nothing is known of their content, and count what they refuse.
ghost use Rattle.std.specs.Prelude.{◌≡◌, ◌≤◌, None, length, IfOk};
ghost use Rattle.std.specs.IoError.{error_kind};
ghost use Rattle.outside.specs.Adapters as spec;

use crate::objects::{Shelf, ShelfError, Sink, SinkFault};
use label_set::{Blob, NoMemory};
use std::alloc::Global;
use std::io::{ErrorKind, Read, Write};
use std::marker::Model;
use std::rt::Files;
use std::{fs, io};

/// The files of the operating system, by their paths.
#[derive(Drop)]
pub struct FileShelf<R: Files> {
    files: R,
    misses: u64,
    overs: u64,
    faults: u64,
}

impl<R: Files> Model for FileShelf<R> {
    ghost use Rattle.std.specs.Prelude.{None};
    ghost use Rattle.outside.specs.Objects.{ShelfSeen};

    ghost Value = { ShelfSeen };

    ghost view = { λ s. record { files = None; misses = s.misses; overs = s.overs; faults = s.faults } };
}

impl<R: Files> FileShelf<R> {
    /// The files that the runtime reaches.
    pub fn new(files: R) -> FileShelf<R>
        ensures { result ≡ record { files = None; misses = 0; overs = 0; faults = 0 } }
    {
        FileShelf {
            files,
            misses: 0,
            overs: 0,
            faults: 0,
        }
    }
}

impl<R: Files> Shelf for FileShelf<R> {
    ghost seen = { λ s. s };

    fn read_file(&mut self, alloc: Global, name: &str, limit: usize) -> Result<Blob, ShelfError> {
        match read_within(&self.files, alloc, name, limit) {
            Ok(bytes) => Ok(Blob { bytes }),
            Err(error) => {
                match error {
                    ShelfError::Absent => self.misses = self.misses.saturating_add(1),
                    ShelfError::TooLong => self.overs = self.overs.saturating_add(1),
                    ShelfError::Failed => self.faults = self.faults.saturating_add(1),
                    ShelfError::NoMemory => {}
                }
                Err(error)
            }
        }
    }
}

fn read_within<R: Files>(
    files: &R,
    alloc: Global,
    name: &str,
    limit: usize,
) -> Result<Vec<u8>, ShelfError>
    ensures { IfOk result (λ bytes. length bytes.items ≤ limit) }
{
    let file = match fs::open(files, name) {
        Ok(file) => file,
        Err(error) => return Err(cause_of(&error)),
    };
    let mut bytes = Vec::new(alloc);
    // One byte over the limit shows that the file is too long.
    let most = (limit as u64).saturating_add(1);
    if let Err(error) = file.take(most).read_to_end(&mut bytes) {
        return Err(cause_of(&error));
    }
    if bytes.len() > limit {
        return Err(ShelfError::TooLong);
    }
    Ok(bytes)
}

/// What an error of the operating system comes to, by its kind.
fn cause_of(error: &io::Error) -> ShelfError
    ensures { result ≡ spec.cause_of (error_kind error.now) }
{
    match error.kind() {
        ErrorKind::NotFound => ShelfError::Absent,
        ErrorKind::OutOfMemory => ShelfError::NoMemory,
        _ => ShelfError::Failed,
    }
}

/// A standard stream, or another writer of the standard library.
#[derive(Drop)]
pub struct StdSink<W: Write + Drop> {
    writer: W,
    faults: u64,
}

impl<W: Write + Drop> Model for StdSink<W> {
    ghost use Rattle.std.specs.Prelude.{None};
    ghost use Rattle.outside.specs.Objects.{SinkSeen};

    ghost Value = { SinkSeen };

    ghost view = { λ s. record { bytes = None; faults = s.faults } };
}

impl<W: Write + Drop> StdSink<W> {
    /// A sink over the writer, which is flushed after each put.
    pub fn new(writer: W) -> StdSink<W>
        ensures { result ≡ record { bytes = None; faults = 0 } }
    {
        StdSink { writer, faults: 0 }
    }
}

impl<W: Write + Drop> Sink for StdSink<W> {
    ghost seen = { λ s. s };

    fn put(&mut self, bytes: &[u8]) -> Result<(), SinkFault> {
        if self.writer.write_all(bytes).is_err() || self.writer.flush().is_err() {
            self.faults = self.faults.saturating_add(1);
            return Err(SinkFault);
        }
        Ok(())
    }
}
