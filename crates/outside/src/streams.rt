//! Adapters over a file that is written, and the system's clock.
ghost use Rattle.std.specs.Prelude.{◌≡◌, ◌≤◌, ◌<◌, ◌^◌, None, pos, length};
ghost use Rattle.outside.specs.Clocks.{IsReading};

use crate::clocks::Clock;
use crate::objects::{Sink, SinkFault};
use label_set::Name;
use std::io::Write;
use std::marker::Model;
use std::rt::Files;
use std::time::{Duration, SystemTime};
use std::{fs, io, thread, time};

/// A file of the operating system, by its path. It is made, or cut to nothing where it is there, at the first put.
#[derive(Drop)]
pub struct FileSink<R: Files> {
    files: R,
    path: Name,
    file: Option<R::File>,
    faults: u64,
}

impl<R: Files> Model for FileSink<R> {
    ghost use Rattle.std.specs.Prelude.{None};
    ghost use Rattle.outside.specs.Objects.{SinkSeen};

    ghost Value = { SinkSeen };

    ghost view = { λ s. record { bytes = None; faults = s.faults } };
}

impl<R: Files> FileSink<R> {
    /// A sink over the file of a path, which isn't made yet.
    pub fn new(files: R, path: Name) -> FileSink<R>
        ensures { result ≡ record { bytes = None; faults = 0 } }
    {
        FileSink {
            files,
            path,
            file: None,
            faults: 0,
        }
    }
}

impl<R: Files> Sink for FileSink<R> {
    ghost seen = { λ s. s };

    fn put(&mut self, bytes: &[u8]) -> Result<(), SinkFault> {
        if write_into(&self.files, self.path.as_str(), &mut self.file, bytes).is_err() {
            self.faults = self.faults.saturating_add(1);
            return Err(SinkFault);
        }
        Ok(())
    }
}

/// Writes to the file, which is made first where it isn't open.
fn write_into<R: Files>(
    files: &R,
    path: &str,
    file: &mut Option<R::File>,
    bytes: &[u8],
) -> io::Result<()> {
    if let Some(file) = file {
        file.write_all(bytes)?;
        return file.flush();
    }
    let mut made = fs::create(files, path)?;
    made.write_all(bytes)?;
    made.flush()?;
    *file = Some(made);
    Ok(())
}

/// The clock of the operating system. Where it can't be read its reading is 0.
#[derive(Drop)]
pub struct SystemClock<R: time::Clock + Drop> {
    clock: R,
}

impl<R: time::Clock + Drop> SystemClock<R> {
    /// The clock that the runtime reaches.
    pub fn new(clock: R) -> SystemClock<R> {
        SystemClock { clock }
    }
}

/// The last moment of a clock, in milliseconds since 1970.
const LAST_MOMENT: u128 = 4503599627370495;

/// The milliseconds of a time since 1970, or the last moment where it is later.
fn reading_of(time: Duration) -> i64
    ensures { IsReading result }
{
    time.as_millis().min(LAST_MOMENT) as i64
}

impl<R: time::Clock + Drop> Clock for SystemClock<R> {
    ghost seen = { λ _. record { readings = None } };

    fn now(&mut self) -> i64 {
        match SystemTime::now(&self.clock) {
            Ok(time) => reading_of(
                time.duration_since(SystemTime::UNIX_EPOCH)
                    .unwrap_or(Duration::ZERO),
            ),
            Err(_) => 0,
        }
    }

    fn wait_until(&mut self, moment: i64) {
        let now = self.now();
        if now < moment {
            let wait = Duration::from_millis(moment.abs_diff(now));
            thread::sleep(&self.clock, wait);
        }
    }
}
