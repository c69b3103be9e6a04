//! What fetches: what its calls say, whatever stands behind it, and replies in memory.
ghost use Rattle.std.specs.Prelude.{◌≡◌, ◌≤◌, ◌<◌, ◌∷◌, [], ◌++◌, ℕ, List, Option, Some, None, IfOk, OnErr, OnOk, Ok, All, false, Bool};
ghost use Rattle.outside.specs.Objects.{used, IsUntouched};
ghost use Rattle.outside.specs.Fetches.{IsTimeout, IsInLimits, IsUnsentRightly, AddsCall, CountsReply};
ghost use Rattle.outside.specs.Memory.{fails_now};
ghost use Rattle.outside.specs.Replies as spec;
ghost use Rattle.outside.specs.declared.replies.Reply.TheVariants as replies;

use crate::calls::{AnsweredCall, note_call};
use crate::memory::next_call;
use crate::objects::CallList;
use crate::replies::Reply;
use crate::requests::{Fetched, Request, Scheme};
use label_set::{ListOf, NoMemory};
use std::alloc::Global;
use std::collections::VecDeque;
use std::marker::Model;

/// Fetches in order.
pub type FetchedList = ListOf<Fetched>;

/// What fetches the page of a target.
pub trait Fetch: Drop {
    ghost use Rattle.outside.specs.Objects.{used, IsUntouched};
    ghost use Rattle.outside.specs.Sizes.{most_body_bytes};
    ghost use Rattle.outside.specs.Fetches.{FetchSeen, IsTimeout, IsInLimits, IsUnsentRightly, AddsCall, CountsReply};

    /// What contracts see of it: its answered calls, where they are known, and its count.
    ghost seen: { Self → FetchSeen };

    /// What came back for a request, and how long it took.
    fn fetch(&mut self, alloc: Global, request: &Request) -> Result<Fetched, NoMemory>
        requires limit { request.now.limit ≤ most_body_bytes }
        requires timeout { IsTimeout request.now.timeout }
        ensures limits { IfOk result (λ f. IsInLimits f) }
        ensures unsent { IfOk result (λ f. IsUnsentRightly request.now f) }
        ensures counts { IfOk result (λ f. CountsReply f.reply (used (seen self.old) (seen self.new))) }
        ensures added { IfOk result (λ f. AddsCall request.now f (used (seen self.old) (seen self.new))) }
        ensures none { OnErr result (IsUntouched (used (seen self.old) (seen self.new))) };
}

/// What a fetch in memory answers, and what is left of its replies; a call that fails uses up none.
fn take_reply(
    replies: &mut VecDeque<Fetched>,
    request: &Request,
    fails: bool,
    none: Reply,
) -> Fetched
    ensures answer { result ≡ spec.answer replies.old.items request.now fails none }
    ensures rest { replies.new.items ≡ spec.replies_left replies.old.items request.now fails }
{
    if request.scheme == Scheme::Https {
        return Fetched {
            took: 0,
            reply: Reply::Unsent,
        };
    }
    if fails {
        return Fetched {
            took: 0,
            reply: none,
        };
    }
    match replies.pop_front() {
        Some(fetched) => fetched,
        None => Fetched {
            took: 0,
            reply: none,
        },
    }
}

/// The count of faults once a reply was given: one more where it was lost.
fn count_after(faults: u64, reply: &Reply) -> u64
    ensures { result ≡ spec.count_after faults reply.now }
{
    match reply {
        Reply::Lost => faults.saturating_add(1),
        _ => faults,
    }
}

/// Replies in memory, of which none is lost. Past their end `Garbled` comes.
#[derive(Drop)]
pub struct SureFetch {
    replies: VecDeque<Fetched>,
    answered: Vec<AnsweredCall>,
}

impl Model for SureFetch {
    ghost use Rattle.std.specs.Prelude.{All};
    ghost use Rattle.outside.specs.Calls.{answered_calls};
    ghost use Rattle.outside.specs.Replies.{RepliesView, IsReplyToGive};

    ghost Value = { RepliesView };

    ghost view = { λ f. record { replies = f.replies.items; answered = answered_calls f.answered.items } };

    ghost invariant = { λ f. All IsReplyToGive f.replies.items };
}

impl SureFetch {
    /// What gives these replies in order.
    pub fn new(alloc: Global, replies: FetchedList) -> Result<SureFetch, NoMemory>
        requires { All spec.IsReplyToGive replies }
        ensures { result ≡ Ok (record { replies = replies; answered = [] }) }
    {
        Ok(SureFetch {
            replies: VecDeque::from(replies.items),
            answered: Vec::new(alloc),
        })
    }
}

impl Fetch for SureFetch {
    ghost seen = { spec.sure_seen };

    fn fetch(&mut self, _alloc: Global, request: &Request) -> Result<Fetched, NoMemory>
        ensures limits { IfOk result (λ f. IsInLimits f) }
        ensures unsent { IfOk result (λ f. IsUnsentRightly request.now f) }
        ensures counts { IfOk result (λ f. CountsReply f.reply (used (spec.sure_seen self.old) (spec.sure_seen self.new))) }
        ensures added { IfOk result (λ f. AddsCall request.now f (used (spec.sure_seen self.old) (spec.sure_seen self.new))) }
        ensures none { OnErr result (IsUntouched (used (spec.sure_seen self.old) (spec.sure_seen self.new))) }
        ensures answer { IfOk result (λ f. f ≡ spec.answer self.old.replies request.now false replies.Garbled) }
        ensures rest { OnOk result (self.new.replies ≡ spec.replies_left self.old.replies request.now false) }
    {
        self.answered.reserve(1)?;
        let fetched = take_reply(&mut self.replies, request, false, Reply::Garbled);
        note_call(&mut self.answered, request, &fetched);
        Ok(fetched)
    }
}

/// Replies in memory, which is to fail at the calls of a list. There, and past the end of its replies, `Lost` comes.
#[derive(Drop)]
pub struct MemFetch {
    replies: VecDeque<Fetched>,
    answered: Vec<AnsweredCall>,
    fails: CallList,
    calls: u64,
    faults: u64,
}

impl Model for MemFetch {
    ghost use Rattle.std.specs.Prelude.{All};
    ghost use Rattle.outside.specs.Calls.{answered_calls};
    ghost use Rattle.outside.specs.Replies.{FailingRepliesView, IsReplyToGive};

    ghost Value = { FailingRepliesView };

    ghost view = { λ f. record {
      replies = f.replies.items;
      answered = answered_calls f.answered.items;
      fails = f.fails;
      calls = f.calls;
      faults = f.faults;
    } };

    ghost invariant = { λ f. All IsReplyToGive f.replies.items };
}

impl MemFetch {
    /// What gives these replies in order, and fails at the calls of these numbers.
    pub fn new(alloc: Global, replies: FetchedList, fails: CallList) -> Result<MemFetch, NoMemory>
        requires { All spec.IsReplyToGive replies }
        ensures { result ≡ Ok (record { replies = replies; answered = []; fails = fails; calls = 0; faults = 0 }) }
    {
        Ok(MemFetch {
            replies: VecDeque::from(replies.items),
            answered: Vec::new(alloc),
            fails,
            calls: 0,
            faults: 0,
        })
    }
}

impl Fetch for MemFetch {
    ghost seen = { spec.failing_seen };

    fn fetch(&mut self, _alloc: Global, request: &Request) -> Result<Fetched, NoMemory>
        ensures limits { IfOk result (λ f. IsInLimits f) }
        ensures unsent { IfOk result (λ f. IsUnsentRightly request.now f) }
        ensures counts { IfOk result (λ f. CountsReply f.reply (used (spec.failing_seen self.old) (spec.failing_seen self.new))) }
        ensures added { IfOk result (λ f. AddsCall request.now f (used (spec.failing_seen self.old) (spec.failing_seen self.new))) }
        ensures none { OnErr result (IsUntouched (used (spec.failing_seen self.old) (spec.failing_seen self.new))) }
        ensures answer { IfOk result (λ f. f ≡ spec.answer self.old.replies request.now (spec.is_to_fail self.old) replies.Lost) }
        ensures rest { OnOk result (self.new.replies ≡ spec.replies_left self.old.replies request.now (spec.is_to_fail self.old)) }
        ensures next { OnOk result (self.new.calls ≡ spec.raised self.old.calls) }
        ensures fails { self.new.fails ≡ self.old.fails }
    {
        self.answered.reserve(1)?;
        let fails = next_call(&self.fails, &mut self.calls);
        let fetched = take_reply(&mut self.replies, request, fails, Reply::Lost);
        self.faults = count_after(self.faults, &fetched.reply);
        note_call(&mut self.answered, request, &fetched);
        Ok(fetched)
    }
}
