//! What a control line does: it loads or updates what it names.
ghost use Rattle.std.specs.Prelude.{◌≡◌, List, length, Result, All, IfOk, IfSome};
ghost use mathlib.Core.List.{reverse};
ghost use Rattle.control_lines.specs.Messages.{message};
ghost use Rattle.jobs_in_force.specs.Jobs.{Unlisted, loaded};
ghost use Rattle.journal_text.specs.Lines.{IsNameLength, IsTextLength};
ghost use Rattle.outside.specs.Objects.{used};
ghost use Rattle.run_lock.specs.Callers.{UpdateAnswered, jobs_known};
ghost use Rattle.run_lock.specs.Listed.{IsListed};
ghost use Rattle.run_lock.specs.Seats.{IsOwn};
ghost use Rattle.scrape_config.specs.declared.conf.Group.{Group};
ghost use Rattle.turn_lock.specs.Passes.{own_of};
ghost use Rattle.station.specs.Control as spec;
ghost use Rattle.station.specs.Control.{Does, DoesSo, Orders, Says};
ghost use Rattle.station.specs.Ends.{ShelfWent, SinkWent, FileStops, SaidStops, LineStops};
ghost use Rattle.station.specs.Lines.{IsShortText};

use crate::ends::Stop;
use control_lines::{Command, Refusal, command_in, message_of};
use label_set::{Blob, Name};
use outside::{MOST_TEXT_BYTES, Shelf, ShelfError, Sink};
use run_lock::listed::Listed;
use run_lock::tasks::{ControlOrder, fault_of};
use run_lock::{Asked, Seat};
use scrape_core::Answer;
use std::alloc::Global;
use std::sync::Wait;
use std::sync::ledger::Ledger;

/// What a line's file gives: its bytes, or why it gives none.
#[derive(Drop)]
pub enum FileAnswer {
    Text(Blob),
    Refusal(Refusal),
}

/// Reads a file of at most 4 MiB.
fn read_text<S: Shelf>(alloc: Global, shelf: &mut S, file: &Name) -> Result<FileAnswer, Stop>
    ensures text { IfOk result IsShortText }
    ensures found { IfOk result (λ f. IfSome (S.seen shelf.old).files (λ files. f ≡ spec.found_in files file.now)) }
    ensures shelf { ShelfWent (used (S.seen shelf.old) (S.seen shelf.new)) }
    ensures stops { FileStops result (used (S.seen shelf.old) (S.seen shelf.new)) }
{
    match shelf.read_file(alloc, file.as_str(), MOST_TEXT_BYTES as usize) {
        Ok(text) => Ok(FileAnswer::Text(text)),
        Err(ShelfError::Absent) => Ok(FileAnswer::Refusal(Refusal::Absent)),
        Err(ShelfError::TooLong) => Ok(FileAnswer::Refusal(Refusal::TooLong)),
        Err(ShelfError::Failed) => Err(Stop::ReadFault),
        Err(ShelfError::NoMemory) => Err(Stop::NoMemory),
    }
}

/// Says that a line doesn't succeed.
fn refuse<E: Sink>(alloc: Global, err: &mut E, line: u64, refusal: &Refusal) -> Result<(), Stop>
    ensures err { SinkWent (used (E.seen err.old) (E.seen err.new)) }
    ensures stops { SaidStops result (used (E.seen err.old) (E.seen err.new)) }
    ensures said { Says result (message line refusal.now) (used (E.seen err.old) (E.seen err.new)) }
{
    let text = message_of(alloc, line, refusal)?;
    match err.put(text.as_bytes()) {
        Ok(()) => Ok(()),
        Err(_) => Err(Stop::WriteFault),
    }
}

/// Updates the targets of a listed file; an absent or overlong one gives no update.
fn read_one<'r, L: Ledger, B: Asked, R: Wait, S: Shelf>(
    seat: &mut Seat<'r, L, B, R>,
    shelf: &mut S,
    listed: Listed,
) -> Result<(), Stop>
    requires listed { IsListed listed }
    requires seat { IsOwn seat.old.lock.now 0 seat.old.pass }
    ensures lock { seat.new.lock ≡ seat.old.lock }
    ensures seat { IsOwn seat.new.lock.now 0 seat.new.pass }
    ensures shelf { ShelfWent (used (S.seen shelf.old) (S.seen shelf.new)) }
    ensures stops { FileStops result (used (S.seen shelf.old) (S.seen shelf.new)) }
    ensures orders { IfSome (S.seen shelf.old).files (λ files. Orders result (spec.update_in files listed)
        (own_of seat.old.pass) (own_of seat.new.pass)) }
{
    let text = match read_text(seat.alloc, shelf, &listed.file) {
        Ok(FileAnswer::Text(text)) => text,
        Ok(FileAnswer::Refusal(_)) => return Ok(()),
        Err(stop) => return Err(stop),
    };
    let order = ControlOrder::Update {
        job: listed.job,
        file: listed.file,
        text,
    };
    let answer = seat.carry_out(order);
    let Some(_) = answer else {
        return Err(Stop::NoMemory);
    };
    Ok(())
}

/// Reads listed files, the last of the list first.
fn read_backwards<'r, L: Ledger, B: Asked, R: Wait, S: Shelf>(
    seat: &mut Seat<'r, L, B, R>,
    shelf: &mut S,
    listed: Vec<Listed>,
) -> Result<(), Stop>
    requires fit { All IsListed listed.items }
    requires seat { IsOwn seat.old.lock.now 0 seat.old.pass }
    ensures lock { seat.new.lock ≡ seat.old.lock }
    ensures seat { IsOwn seat.new.lock.now 0 seat.new.pass }
    ensures shelf { ShelfWent (used (S.seen shelf.old) (S.seen shelf.new)) }
    ensures stops { FileStops result (used (S.seen shelf.old) (S.seen shelf.new)) }
    ensures orders { IfSome (S.seen shelf.old).files (λ files. Orders result (spec.updates_in files (reverse listed.items))
        (own_of seat.old.pass) (own_of seat.new.pass)) }
{
    let mut listed = listed;
    while let Some(one) = listed.pop() {
        let done = read_one(seat, shelf, one);
        if done.is_err() {
            return done;
        }
    }
    Ok(())
}

/// Reads each listed file of each job of the configuration in force, in order.
pub fn read_listed<'r, L: Ledger, B: Asked, R: Wait, S: Shelf>(
    seat: &mut Seat<'r, L, B, R>,
    shelf: &mut S,
) -> Result<(), Stop>
    requires seat { IsOwn seat.old.lock.now 0 seat.old.pass }
    ensures lock { seat.new.lock ≡ seat.old.lock }
    ensures seat { IsOwn seat.new.lock.now 0 seat.new.pass }
    ensures shelf { ShelfWent (used (S.seen shelf.old) (S.seen shelf.new)) }
    ensures stops { FileStops result (used (S.seen shelf.old) (S.seen shelf.new)) }
    ensures orders { IfSome (S.seen shelf.old).files (λ files. Orders result (spec.rereads files (jobs_known B.start (own_of seat.old.pass)))
        (own_of seat.old.pass) (own_of seat.new.pass)) }
{
    let listed = seat.listed();
    let Ok(mut listed) = listed else {
        return Err(Stop::NoMemory);
    };
    listed.reverse();
    read_backwards(seat, shelf, listed)
}

/// Loads a configuration, and reads its listed files where it is taken. Why it isn't, if it isn't.
fn load_text<'r, L: Ledger, B: Asked, R: Wait, S: Shelf>(
    seat: &mut Seat<'r, L, B, R>,
    shelf: &mut S,
    text: Blob,
) -> Result<Option<Refusal>, Stop>
    requires text { IsTextLength (length text) }
    requires seat { IsOwn seat.old.lock.now 0 seat.old.pass }
    ensures lock { seat.new.lock ≡ seat.old.lock }
    ensures seat { IsOwn seat.new.lock.now 0 seat.new.pass }
    ensures shelf { ShelfWent (used (S.seen shelf.old) (S.seen shelf.new)) }
    ensures stops { FileStops result (used (S.seen shelf.old) (S.seen shelf.new)) }
    ensures does { IfSome (S.seen shelf.old).files (λ files.
        Does result (spec.load_taken files text (loaded (jobs_known B.start (own_of seat.old.pass)) text))
        (own_of seat.old.pass) (own_of seat.new.pass)) }
{
    let answer = seat.carry_out(ControlOrder::Load { text });
    let Some(answer) = answer else {
        return Err(Stop::NoMemory);
    };
    if let Some(fault) = fault_of(answer) {
        return Ok(Some(Refusal::Refused(fault)));
    }
    let done = read_listed(seat, shelf);
    match done {
        Ok(()) => Ok(None),
        Err(stop) => Err(stop),
    }
}

/// Loads the configuration of a file. Why the line doesn't succeed, if it doesn't.
fn load_file<'r, L: Ledger, B: Asked, R: Wait, S: Shelf>(
    seat: &mut Seat<'r, L, B, R>,
    shelf: &mut S,
    file: &Name,
) -> Result<Option<Refusal>, Stop>
    requires seat { IsOwn seat.old.lock.now 0 seat.old.pass }
    ensures lock { seat.new.lock ≡ seat.old.lock }
    ensures seat { IsOwn seat.new.lock.now 0 seat.new.pass }
    ensures shelf { ShelfWent (used (S.seen shelf.old) (S.seen shelf.new)) }
    ensures stops { FileStops result (used (S.seen shelf.old) (S.seen shelf.new)) }
    ensures does { IfSome (S.seen shelf.old).files (λ files.
        Does result (spec.load_does files (jobs_known B.start (own_of seat.old.pass)) (spec.found_in files file.now))
        (own_of seat.old.pass) (own_of seat.new.pass)) }
{
    match read_text(seat.alloc, shelf, file) {
        Ok(FileAnswer::Text(text)) => load_text(seat, shelf, text),
        Ok(FileAnswer::Refusal(refusal)) => Ok(Some(refusal)),
        Err(stop) => Err(stop),
    }
}

/// Why an update doesn't succeed, if it doesn't.
fn refusal_of(answer: Answer) -> Option<Refusal>
    ensures { (groups : Result (List Group) Unlisted) → UpdateAnswered groups answer → result ≡ spec.update_refused groups }
{
    match answer {
        Answer::Refused(fault) => Some(Refusal::Refused(fault)),
        Answer::NoJob => Some(Refusal::NoJob),
        Answer::NoFile => Some(Refusal::NoFile),
        _ => None,
    }
}

/// Updates the targets of a file of a job. Why the line doesn't succeed, if it doesn't.
fn update_file<'r, L: Ledger, B: Asked, R: Wait, S: Shelf>(
    seat: &mut Seat<'r, L, B, R>,
    shelf: &mut S,
    job: Name,
    file: Name,
) -> Result<Option<Refusal>, Stop>
    requires job { IsNameLength (length job) }
    requires file { IsNameLength (length file) }
    requires seat { IsOwn seat.old.lock.now 0 seat.old.pass }
    ensures lock { seat.new.lock ≡ seat.old.lock }
    ensures seat { IsOwn seat.new.lock.now 0 seat.new.pass }
    ensures shelf { ShelfWent (used (S.seen shelf.old) (S.seen shelf.new)) }
    ensures stops { FileStops result (used (S.seen shelf.old) (S.seen shelf.new)) }
    ensures does { IfSome (S.seen shelf.old).files (λ files.
        Does result (spec.update_does (jobs_known B.start (own_of seat.old.pass)) job file (spec.found_in files file))
        (own_of seat.old.pass) (own_of seat.new.pass)) }
{
    let text = match read_text(seat.alloc, shelf, &file) {
        Ok(FileAnswer::Text(text)) => text,
        Ok(FileAnswer::Refusal(refusal)) => return Ok(Some(refusal)),
        Err(stop) => return Err(stop),
    };
    let answer = seat.carry_out(ControlOrder::Update { job, file, text });
    match answer {
        Some(answer) => Ok(refusal_of(answer)),
        None => Err(Stop::NoMemory),
    }
}

/// Does what a line asks for. Why it doesn't succeed, if it doesn't.
fn do_command<'r, L: Ledger, B: Asked, R: Wait, S: Shelf>(
    seat: &mut Seat<'r, L, B, R>,
    shelf: &mut S,
    line: &[u8],
) -> Result<Option<Refusal>, Stop>
    requires seat { IsOwn seat.old.lock.now 0 seat.old.pass }
    ensures lock { seat.new.lock ≡ seat.old.lock }
    ensures seat { IsOwn seat.new.lock.now 0 seat.new.pass }
    ensures shelf { ShelfWent (used (S.seen shelf.old) (S.seen shelf.new)) }
    ensures stops { FileStops result (used (S.seen shelf.old) (S.seen shelf.new)) }
    ensures does { IfSome (S.seen shelf.old).files (λ files.
        Does result (spec.line_does files (jobs_known B.start (own_of seat.old.pass)) line.now) (own_of seat.old.pass) (own_of seat.new.pass)) }
{
    let Ok(command) = command_in(seat.alloc, line) else {
        return Err(Stop::NoMemory);
    };
    match command {
        None => Ok(Some(Refusal::NotACommand)),
        Some(Command::Load { file }) => load_file(seat, shelf, &file),
        Some(Command::Targets { job, file }) => { update_file(seat, shelf, job, file) }
    }
}

/// Does a line, and says it where that doesn't succeed.
pub fn do_line<'r, L: Ledger, B: Asked, R: Wait, S: Shelf, E: Sink>(
    seat: &mut Seat<'r, L, B, R>,
    shelf: &mut S,
    err: &mut E,
    number: u64,
    line: &[u8],
) -> Result<(), Stop>
    requires seat { IsOwn seat.old.lock.now 0 seat.old.pass }
    ensures lock { seat.new.lock ≡ seat.old.lock }
    ensures seat { IsOwn seat.new.lock.now 0 seat.new.pass }
    ensures shelf { ShelfWent (used (S.seen shelf.old) (S.seen shelf.new)) }
    ensures err { SinkWent (used (E.seen err.old) (E.seen err.new)) }
    ensures stops { LineStops result (used (S.seen shelf.old) (S.seen shelf.new)) (used (E.seen err.old) (E.seen err.new)) }
    ensures did { IfSome (S.seen shelf.old).files (λ files.
        DoesSo result (spec.line_did files (jobs_known B.start (own_of seat.old.pass)) number line.now)
        (used (own_of seat.old.pass) (own_of seat.new.pass)) (used (E.seen err.old) (E.seen err.new))) }
{
    let done = do_command(seat, shelf, line);
    match done {
        Ok(None) => Ok(()),
        Ok(Some(refusal)) => refuse(seat.alloc, err, number, &refusal),
        Err(stop) => Err(stop),
    }
}
