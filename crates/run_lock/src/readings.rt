//! The bodies of what workers fetched, which are read before the lock is taken.
ghost use Rattle.std.specs.Prelude.{◌≡◌, ◌++◌, ◌∷◌, [], IfSome, OnErr, OnOk};
ghost use Rattle.journal_text.specs.Events as journal;
ghost use Rattle.journal_text.specs.Events.{now_of};
ghost use Rattle.journal_text.specs.declared.events.Event.TheVariants.{Finish};
ghost use Rattle.run_lock.specs.Tasks.{IsFinishWith};
ghost use Rattle.scrape_loop.specs.Replies.{page_in};

use journal_text::Event;
use label_set::{Blob, Form, NoMemory, Steps};
use outside::Reply;
use scrape_core::{Answer, Core};
use scrape_loop::ReadReply;
use std::alloc::Global;
use std::sync::ledger::Ledger;

/// The status of a reply whose body is looked at.
const OK_STATUS: u16 = 200;

/// Reads a copy of the body of a reply with status 200, while the body itself goes to the journal. None of any other reply, nor where
/// memory runs out: the body is then read when it is counted.
pub fn read_copy(alloc: Global, reply: &Reply) -> Option<ReadReply>
    ensures { IfSome result (λ r. reply.now ≡ r) }
{
    match reply {
        Reply::Body { status, bytes } => read_page(alloc, Form::Plain, *status, bytes),
        Reply::Quoted { status, bytes } => read_page(alloc, Form::Quoted, *status, bytes),
        Reply::Lost | Reply::Garbled | Reply::Unsent | Reply::Oversize => None,
    }
}

/// The same of a body of that form.
fn read_page(alloc: Global, form: Form, status: u16, bytes: &Blob) -> Option<ReadReply>
    ensures { IfSome result (λ r. page_in form status bytes.now ≡ r) }
{
    if status != OK_STATUS {
        return None;
    }
    let bytes = bytes.copy(alloc).ok()?;
    let copy = match form {
        Form::Plain => Reply::Body { status, bytes },
        Form::Quoted => Reply::Quoted { status, bytes },
    };
    ReadReply::of(alloc, copy).ok()
}

/// The ticket of a finish with this reply, and how many milliseconds its fetch took.
fn parts_of(event: &Event, reply: &ReadReply) -> (u64, i64)
    requires { IsFinishWith reply.now event.now }
    ensures { event.now ≡ Finish result.0 result.1 reply.now }
{
    let _ = reply;
    match event {
        Event::Finish {
            ticket,
            took,
            reply: _,
        } => (*ticket, *took),
        _ => unreachable!(),
    }
}

/// Gives a core a finish. Where its reply was read, the body isn't read again.
pub fn take_finish<L: Ledger>(
    core: &mut Core,
    alloc: Global,
    event: Event,
    read: Option<ReadReply>,
    steps: &mut Steps<L>,
) -> Result<Answer, NoMemory>
    requires limits { journal.IsInLimits event }
    requires order { journal.MayFollow (now_of core.old) event }
    requires read { IfSome read (λ r. IsFinishWith r event) }
    ensures joined { OnOk result (core.new ≡ core.old ++ event ∷ []) }
    ensures err { OnErr result (core.new ≡ core.old) }
{
    match read {
        Some(reply) => {
            let (ticket, took) = parts_of(&event, &reply);
            core.take_read(alloc, ticket, took, reply, steps)
        }
        None => core.take(alloc, event, steps),
    }
}
