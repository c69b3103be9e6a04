//! The loop of the caller: it reads the listed files, and then control, whose lines it does one after another.
ghost use Rattle.std.specs.Prelude.{◌≡◌, ◌++◌, ◌+◌, ◌≤◌, [], ◌∷◌, false, length, All, IfSome, OnOk};
ghost use Rattle.outside.specs.Objects.{used};
ghost use Rattle.run_lock.specs.Callers.{jobs_known};
ghost use Rattle.run_lock.specs.Seats.{IsOwn};
ghost use Rattle.turn_lock.specs.Passes.{own_of};
ghost use Rattle.station.specs.Control as control;
ghost use Rattle.station.specs.Control.{CallerDid, ControlDid, DoesSo, HasRead, LastDoes, caller_use};
ghost use Rattle.station.specs.Ends as spec;
ghost use Rattle.station.specs.Ends.{ShelfWent, SinkWent, SourceWent, EndsSo, LineStops, LastEnds};

use crate::ends::{RunEnd, Stop};
use crate::orders::{do_line, read_listed};
use crate::reader::Reader;
use outside::{Shelf, Sink, Source};
use run_lock::{Asked, Seat};
use std::sync::Wait;
use std::sync::ledger::Ledger;

/// The most bytes that control may give.
const MOST_CONTROL: usize = 1 << 20;

/// How many bytes one read asks for.
const ROOM: usize = 4_096;

/// Reads a byte of the control input: does the line that ends with it, if one does.
fn do_byte<'r, L: Ledger, B: Asked, R: Wait, S: Shelf, E: Sink>(
    seat: &mut Seat<'r, L, B, R>,
    shelf: &mut S,
    err: &mut E,
    reader: &mut Reader,
    byte: u8,
) -> Result<(), Stop>
    requires few { reader.old.before ≤ 1048576 }
    requires seat { IsOwn seat.old.lock.now 0 seat.old.pass }
    ensures lock { seat.new.lock ≡ seat.old.lock }
    ensures seat { IsOwn seat.new.lock.now 0 seat.new.pass }
    ensures shelf { ShelfWent (used (S.seen shelf.old) (S.seen shelf.new)) }
    ensures err { SinkWent (used (E.seen err.old) (E.seen err.new)) }
    ensures stops { LineStops result (used (S.seen shelf.old) (S.seen shelf.new)) (used (E.seen err.old) (E.seen err.new)) }
    ensures few { reader.new.before ≤ reader.old.before + 1 }
    ensures read { OnOk result (HasRead (byte ∷ []) reader.old reader.new) }
    ensures did { IfSome (S.seen shelf.old).files (λ files.
        DoesSo result (control.piece_did files (jobs_known B.start (own_of seat.old.pass)) reader.old (byte ∷ []))
        (used (own_of seat.old.pass) (own_of seat.new.pass)) (used (E.seen err.old) (E.seen err.new))) }
{
    if byte != b'\n' {
        return match reader.line.push(byte) {
            Ok(()) => Ok(()),
            Err(_) => Err(Stop::NoMemory),
        };
    }
    let number = reader.before + 1;
    let done = do_line(seat, shelf, err, number, &reader.line);
    if let Err(stop) = done {
        return Err(stop);
    }
    reader.line.clear();
    reader.before = number;
    Ok(())
}

/// Reads a piece of the control input: does each line that ends in it.
fn do_piece<'r, L: Ledger, B: Asked, R: Wait, S: Shelf, E: Sink>(
    seat: &mut Seat<'r, L, B, R>,
    shelf: &mut S,
    err: &mut E,
    reader: &mut Reader,
    piece: &[u8],
) -> Result<(), Stop>
    requires few { reader.old.before + length piece.now ≤ 1048576 }
    requires seat { IsOwn seat.old.lock.now 0 seat.old.pass }
    ensures lock { seat.new.lock ≡ seat.old.lock }
    ensures seat { IsOwn seat.new.lock.now 0 seat.new.pass }
    ensures shelf { ShelfWent (used (S.seen shelf.old) (S.seen shelf.new)) }
    ensures err { SinkWent (used (E.seen err.old) (E.seen err.new)) }
    ensures stops { LineStops result (used (S.seen shelf.old) (S.seen shelf.new)) (used (E.seen err.old) (E.seen err.new)) }
    ensures few { reader.new.before ≤ reader.old.before + length piece.now }
    ensures read { OnOk result (HasRead piece.now reader.old reader.new) }
    ensures did { IfSome (S.seen shelf.old).files (λ files.
        DoesSo result (control.piece_did files (jobs_known B.start (own_of seat.old.pass)) reader.old piece.now)
        (used (own_of seat.old.pass) (own_of seat.new.pass)) (used (E.seen err.old) (E.seen err.new))) }
{
    for byte in piece {
        let done = do_byte(seat, shelf, err, reader, *byte);
        if done.is_err() {
            return done;
        }
    }
    Ok(())
}

/// How the loop ends with a stop.
fn end_of(stop: Stop) -> RunEnd
    ensures { result ≡ spec.end_of stop }
{
    match stop {
        Stop::ReadFault => RunEnd::ReadFault,
        Stop::WriteFault => RunEnd::WriteFault,
        Stop::NoMemory => RunEnd::NoMemory,
    }
}

/// How the loop ends after a piece, if it does: where the input is too long, a read fault is not reported.
fn end_after(done: Result<(), Stop>, too_long: bool) -> Option<RunEnd>
    ensures { result ≡ spec.end_after done too_long }
{
    match done {
        Err(Stop::NoMemory) => Some(RunEnd::NoMemory),
        Err(Stop::WriteFault) => Some(RunEnd::WriteFault),
        Err(Stop::ReadFault) => Some(if too_long {
            RunEnd::TooLong
        } else {
            RunEnd::ReadFault
        }),
        Ok(()) => {
            if too_long {
                Some(RunEnd::TooLong)
            } else {
                None
            }
        }
    }
}

/// The end of the input: a last line without a line feed counts where it isn't empty.
fn do_last<'r, L: Ledger, B: Asked, R: Wait, S: Shelf, E: Sink>(
    seat: &mut Seat<'r, L, B, R>,
    shelf: &mut S,
    err: &mut E,
    reader: &Reader,
) -> RunEnd
    requires few { reader.now.before ≤ 1048576 }
    requires seat { IsOwn seat.old.lock.now 0 seat.old.pass }
    ensures lock { seat.new.lock ≡ seat.old.lock }
    ensures seat { IsOwn seat.new.lock.now 0 seat.new.pass }
    ensures shelf { ShelfWent (used (S.seen shelf.old) (S.seen shelf.new)) }
    ensures err { SinkWent (used (E.seen err.old) (E.seen err.new)) }
    ensures ends { LastEnds result (used (S.seen shelf.old) (S.seen shelf.new)) (used (E.seen err.old) (E.seen err.new)) }
    ensures did { IfSome (S.seen shelf.old).files (λ files.
        LastDoes result (control.last_did files (jobs_known B.start (own_of seat.old.pass)) reader.now)
        (used (own_of seat.old.pass) (own_of seat.new.pass)) (used (E.seen err.old) (E.seen err.new))) }
{
    if reader.line.is_empty() {
        return RunEnd::Done;
    }
    let number = reader.before + 1;
    let done = do_line(seat, shelf, err, number, &reader.line);
    match done {
        Ok(()) => RunEnd::Done,
        Err(stop) => end_of(stop),
    }
}

/// Reads the control input to its end, or until it gave more than 1 MiB, or until something fails.
fn read_control<'r, L: Ledger, B: Asked, R: Wait, S: Shelf, E: Sink, C: Source>(
    seat: &mut Seat<'r, L, B, R>,
    shelf: &mut S,
    err: &mut E,
    control: &mut C,
) -> RunEnd
    requires seat { IsOwn seat.old.lock.now 0 seat.old.pass }
    ensures lock { seat.new.lock ≡ seat.old.lock }
    ensures seat { IsOwn seat.new.lock.now 0 seat.new.pass }
    ensures shelf { ShelfWent (used (S.seen shelf.old) (S.seen shelf.new)) }
    ensures err { SinkWent (used (E.seen err.old) (E.seen err.new)) }
    ensures control { SourceWent (used (C.seen control.old) (C.seen control.new)) }
    ensures ends { EndsSo result (used (S.seen shelf.old) (S.seen shelf.new))
        (used (E.seen err.old) (E.seen err.new)) (used (C.seen control.old) (C.seen control.new)) }
    ensures did { ControlDid B.start result (caller_use (used (S.seen shelf.old) (S.seen shelf.new))
        (used (C.seen control.old) (C.seen control.new)) (used (E.seen err.old) (E.seen err.new)))
        (used (own_of seat.old.pass) (own_of seat.new.pass)) }
{
    let rt = seat.rt;
    let Ok(mut room) = Vec::from_elem(seat.alloc, 0u8, ROOM) else {
        return RunEnd::NoMemory;
    };
    let mut reader = Reader {
        line: Vec::new(seat.alloc),
        before: 0,
    };
    let mut given: usize = 0;
    for _ in rt.forever() {
        let Ok(count) = control.read(&mut room) else {
            return RunEnd::ReadFault;
        };
        if count == 0 {
            return do_last(seat, shelf, err, &reader);
        }
        let kept = count.min(MOST_CONTROL - given);
        let done = do_piece(seat, shelf, err, &mut reader, &room[..kept]);
        given += kept;
        if let Some(end) = end_after(done, kept < count) {
            return end;
        }
    }
    unreachable!()
}

/// Reads the listed files of the configuration in force, and then control.
fn read_all<'r, L: Ledger, B: Asked, R: Wait, S: Shelf, E: Sink, C: Source>(
    seat: &mut Seat<'r, L, B, R>,
    shelf: &mut S,
    err: &mut E,
    control: &mut C,
) -> RunEnd
    requires seat { IsOwn seat.old.lock.now 0 seat.old.pass }
    ensures lock { seat.new.lock ≡ seat.old.lock }
    ensures seat { IsOwn seat.new.lock.now 0 seat.new.pass }
    ensures shelf { ShelfWent (used (S.seen shelf.old) (S.seen shelf.new)) }
    ensures err { SinkWent (used (E.seen err.old) (E.seen err.new)) }
    ensures control { SourceWent (used (C.seen control.old) (C.seen control.new)) }
    ensures ends { EndsSo result (used (S.seen shelf.old) (S.seen shelf.new))
        (used (E.seen err.old) (E.seen err.new)) (used (C.seen control.old) (C.seen control.new)) }
    ensures did { CallerDid B.start result (caller_use (used (S.seen shelf.old) (S.seen shelf.new))
        (used (C.seen control.old) (C.seen control.new)) (used (E.seen err.old) (E.seen err.new)))
        (used (own_of seat.old.pass) (own_of seat.new.pass)) }
{
    let done = read_listed(seat, shelf);
    match done {
        Ok(()) => read_control(seat, shelf, err, control),
        Err(stop) => end_of(stop),
    }
}

/// The loop of the caller: it reads the listed files of the configuration in force, and then control. Where memory runs out all loops are to stop.
pub fn take_commands<'r, L: Ledger, B: Asked, R: Wait, S: Shelf, E: Sink, C: Source>(
    seat: &mut Seat<'r, L, B, R>,
    shelf: &mut S,
    err: &mut E,
    control: &mut C,
) -> RunEnd
    requires seat { IsOwn seat.old.lock.now 0 seat.old.pass }
    ensures lock { seat.new.lock ≡ seat.old.lock }
    ensures seat { IsOwn seat.new.lock.now 0 seat.new.pass }
    ensures shelf { ShelfWent (used (S.seen shelf.old) (S.seen shelf.new)) }
    ensures err { SinkWent (used (E.seen err.old) (E.seen err.new)) }
    ensures control { SourceWent (used (C.seen control.old) (C.seen control.new)) }
    ensures ends { EndsSo result (used (S.seen shelf.old) (S.seen shelf.new))
        (used (E.seen err.old) (E.seen err.new)) (used (C.seen control.old) (C.seen control.new)) }
    ensures did { CallerDid B.start result (caller_use (used (S.seen shelf.old) (S.seen shelf.new))
        (used (C.seen control.old) (C.seen control.new)) (used (E.seen err.old) (E.seen err.new)))
        (used (own_of seat.old.pass) (own_of seat.new.pass)) }
{
    let end = read_all(seat, shelf, err, control);
    if end != RunEnd::NoMemory {
        return end;
    }
    seat.fail(0);
    RunEnd::NoMemory
}
