//! What the bytes of a connection are answered, as far as they have come.
ghost use Rattle.std.specs.Prelude.{◌≡◌, ◌≤◌, ◌++◌, [], length, drop, IfErr, IfOk, OnErr, OnOk};
ghost use Rattle.outside.specs.Objects.{used};
ghost use Rattle.outside.specs.Sizes.{most_text_bytes};
ghost use Rattle.status_server.specs.Connections.{IsAnswered};
ghost use Rattle.status_server.specs.Reloads as reloads;
ghost use Rattle.status_server.specs.Reloads.{basis};
ghost use Rattle.status_server.specs.Steps as spec;

use crate::answers::{ends, push_answer};
use crate::federates::push_federate;
use crate::reloads::{Reload, push_reload};
use crate::replies::{Status, push_reply};
use crate::server::Server;
use label_set::NoMemory;
use outside::{MOST_TEXT_BYTES, Shelf, ShelfError, Sink};
use request_heads::{Front, Page, Request, front_at};
use std::sync::ledger::Ledger;

/// Why serving stopped.
#[derive(Clone, Copy, PartialEq, Eq, Debug)]
pub enum Stop {
    /// The file of the configuration couldn't be read.
    ReadFault,
    /// A reply couldn't be put out.
    WriteFault,
    /// An allocation failed.
    NoMemory,
}

impl From<NoMemory> for Stop {
    ghost use Rattle.std.specs.Prelude.{◌≡◌};
    ghost use Rattle.status_server.specs.declared.connections.Stop.TheVariants as variants;

    ghost from_gives = { λ _ error. error ≡ variants.NoMemory };

    fn from(_: NoMemory) -> Stop {
        Stop::NoMemory
    }
}

/// What stands at the front of the bytes that wait.
#[derive(Clone, Copy, PartialEq, Eq, Debug)]
pub enum Step {
    /// A request, whose head has so many bytes; behind its reply the connection goes on.
    GoesOn { len: usize },
    /// What ends the connection.
    Ends,
    /// Nothing that can be answered yet.
    Waits,
}

/// Reads the configuration anew.
fn reload<L: Ledger, S: Shelf>(
    server: &mut Server<L>,
    file: &str,
    shelf: &mut S,
) -> Result<Reload, Stop>
    ensures came { IfOk result (λ r. spec.Reloaded server.old (spec.site (S.seen shelf.old) file.now) r server.new) }
    ensures stays { OnOk result (spec.ShelfStays (used (S.seen shelf.old) (S.seen shelf.new))) }
    ensures stopped { IfErr result (λ stop. spec.StopsAnswer stop server.old server.new (used (S.seen shelf.old) (S.seen shelf.new))) }
{
    match shelf.read_file(server.alloc(), file, MOST_TEXT_BYTES as usize) {
        Ok(text) => Ok(server.load(text)?),
        Err(ShelfError::Absent) => Ok(Reload::Absent),
        Err(ShelfError::TooLong) => Ok(Reload::TooLong),
        Err(ShelfError::Failed) => Err(Stop::ReadFault),
        Err(ShelfError::NoMemory) => Err(Stop::NoMemory),
    }
}

/// Makes the reply to a request, and does what it asks for.
fn answer_request<L: Ledger, S: Shelf>(
    server: &mut Server<L>,
    file: &str,
    shelf: &mut S,
    request: &Request<'_>,
    reply: &mut Vec<u8>,
) -> Result<(), Stop>
    requires { reply.old.items ≡ [] }
    ensures answered { OnOk result (spec.AnsweredBy (basis server.old (spec.site (S.seen shelf.old) file.now))
        request.now reply.new.items server.new) }
    ensures stays { OnOk result (spec.ShelfStays (used (S.seen shelf.old) (S.seen shelf.new))) }
    ensures stopped { IfErr result (λ stop. spec.StopsAnswer stop server.old server.new (used (S.seen shelf.old) (S.seen shelf.new))) }
{
    let closes = ends(request.page, request.closes);
    match request.page {
        Page::Reload => {
            let came = reload(server, file, shelf)?;
            push_reload(server.alloc(), reply, closes, &came)?;
        }
        Page::Federate => push_federate(server, reply, request.query, closes)?,
        page => push_answer(server.alloc(), reply, server.core(), page, request.closes)?,
    }
    Ok(())
}

/// What follows behind a request's reply.
fn behind(request: &Request<'_>, len: usize) -> Step
    ensures { result ≡ spec.behind request.now.page request.now.closes len }
{
    if ends(request.page, request.closes) {
        Step::Ends
    } else {
        Step::GoesOn { len }
    }
}

/// Makes the reply to what stands at the front of some bytes, if it can be answered.
fn make_reply<L: Ledger, S: Shelf>(
    server: &mut Server<L>,
    file: &str,
    shelf: &mut S,
    bytes: &[u8],
    reply: &mut Vec<u8>,
) -> Result<Step, Stop>
    requires { reply.old.items ≡ [] }
    ensures stepped { IfOk result (λ step. spec.Stepped (basis server.old (spec.site (S.seen shelf.old) file.now))
        bytes.now step reply.new.items server.new) }
    ensures stays { OnOk result (spec.ShelfStays (used (S.seen shelf.old) (S.seen shelf.new))) }
    ensures stopped { IfErr result (λ stop. spec.StopsAnswer stop server.old server.new (used (S.seen shelf.old) (S.seen shelf.new))) }
{
    match front_at(bytes) {
        Front::Waiting => Ok(Step::Waits),
        Front::Never => {
            push_reply(reply, Status::BadRequest, true, b"")?;
            Ok(Step::Ends)
        }
        Front::Whole { request, len } => {
            answer_request(server, file, shelf, &request, reply)?;
            Ok(behind(&request, len))
        }
    }
}

/// Answers what stands at the front of some bytes, if it can be answered.
fn answer_front<L: Ledger, S: Shelf, O: Sink>(
    server: &mut Server<L>,
    file: &str,
    shelf: &mut S,
    bytes: &[u8],
    sink: &mut O,
) -> Result<Step, Stop>
    ensures put { IfOk result (λ step. spec.PutStep (basis server.old (spec.site (S.seen shelf.old) file.now))
        bytes.now step server.new (used (O.seen sink.old) (O.seen sink.new))) }
    ensures stays { OnOk result (spec.ShelfStays (used (S.seen shelf.old) (S.seen shelf.new))) }
    ensures stopped { IfErr result (λ stop. spec.StopsStep stop (basis server.old (spec.site (S.seen shelf.old) file.now))
        bytes.now server.new (used (O.seen sink.old) (O.seen sink.new))) }
    ensures shelf { IfErr result (λ stop. spec.ShelfBy stop (used (S.seen shelf.old) (S.seen shelf.new))) }
{
    let mut reply = Vec::new(server.alloc());
    let step = make_reply(server, file, shelf, bytes, &mut reply)?;
    if step == Step::Waits {
        return Ok(step);
    }
    match sink.put(&reply) {
        Ok(()) => Ok(step),
        Err(_) => Err(Stop::WriteFault),
    }
}

/// Answers what can be answered of some bytes, and says how many that are; none where the connection ended.
pub fn answer_all<L: Ledger, S: Shelf, O: Sink>(
    server: &mut Server<L>,
    file: &str,
    shelf: &mut S,
    bytes: &[u8],
    sink: &mut O,
) -> Result<Option<usize>, Stop>
    ensures reached { IfOk result (λ reach. spec.Reaches (basis server.old (spec.site (S.seen shelf.old) file.now))
        bytes.now reach server.new (used (O.seen sink.old) (O.seen sink.new))) }
    ensures stays { OnOk result (spec.ShelfStays (used (S.seen shelf.old) (S.seen shelf.new))) }
    ensures stopped { IfErr result (λ stop. spec.StopsIn stop (basis server.old (spec.site (S.seen shelf.old) file.now))
        bytes.now server.new (used (O.seen sink.old) (O.seen sink.new))) }
    ensures shelf { IfErr result (λ stop. spec.ShelfBy stop (used (S.seen shelf.old) (S.seen shelf.new))) }
{
    let mut len = 0;
    loop {
        match answer_front(server, file, shelf, &bytes[len..], sink) {
            Err(stop) => return Err(stop),
            Ok(Step::GoesOn { len: more }) => len += more,
            Ok(Step::Ends) => return Ok(None),
            Ok(Step::Waits) => return Ok(Some(len)),
        }
    }
}
