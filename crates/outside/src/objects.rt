//! Shelves of files and sinks of bytes: what their calls say, whatever stands behind them.
ghost use Rattle.std.specs.Prelude.{◌≤◌, length, OnOk, OnErr, IfOk, IsErrOf};

use label_set::{Blob, ListOf, Name, NoMemory};
use std::alloc::Global;

/// A file in memory.
#[derive(Debug, Drop)]
pub struct StoredFile {
    pub name: Name,
    pub bytes: Blob,
}

/// Files in order. Of two with one name the first counts.
pub type FileList = ListOf<StoredFile>;

/// Numbers of calls, which count from 0.
pub type CallList = ListOf<u64>;

/// Why a file was not read.
#[derive(Clone, Copy, PartialEq, Eq, Debug)]
pub enum ShelfError {
    /// There is no file of that name.
    Absent,
    /// The file has more bytes than the limit.
    TooLong,
    /// Reading it failed.
    Failed,
    /// An allocation failed.
    NoMemory,
}

impl From<NoMemory> for ShelfError {
    ghost use Rattle.std.specs.Prelude.{◌≡◌};
    ghost use Rattle.outside.specs.declared.objects.ShelfError.TheVariants as variants;

    ghost from_gives = { λ _ error. error ≡ variants.NoMemory };

    fn from(_: NoMemory) -> ShelfError {
        ShelfError::NoMemory
    }
}

/// A put failed. A front of its bytes may have been added.
#[derive(Clone, Copy, PartialEq, Eq, Debug)]
pub struct SinkFault;

/// What has files that can be read by their names.
pub trait Shelf {
    ghost use Rattle.outside.specs.Objects.{ShelfSeen, HasFile, LacksFile, HasLongerFile, ReadLeaves, used};

    /// What contracts see of it: its files, where they are known, and its counts.
    ghost seen: { Self → ShelfSeen };

    /// The bytes of the file of a name, which are to be at most `limit`.
    fn read_file(&mut self, alloc: Global, name: &str, limit: usize) -> Result<Blob, ShelfError>
        ensures bound { IfOk result (λ bytes. length bytes ≤ limit) }
        ensures content { IfOk result (λ bytes. HasFile (seen self.old) name.now bytes) }
        ensures absent { IsErrOf result ShelfError.Absent → LacksFile (seen self.old) name.now }
        ensures too_long { IsErrOf result ShelfError.TooLong → HasLongerFile (seen self.old) name.now limit }
        ensures leaves { ReadLeaves result (used (seen self.old) (seen self.new)) };
}

/// What takes bytes.
pub trait Sink {
    ghost use Rattle.outside.specs.Objects.{SinkSeen, Took, Cut, used};

    /// What contracts see of it: what it holds, where that is known, and its count.
    ghost seen: { Self → SinkSeen };

    /// Adds the bytes at the end, or where it fails a front of them.
    fn put(&mut self, bytes: &[u8]) -> Result<(), SinkFault>
        ensures whole { OnOk result (Took bytes.now (used (seen self.old) (seen self.new))) }
        ensures cut { OnErr result (Cut bytes.now (used (seen self.old) (seen self.new))) };
}
