//! Fetches over HTTP.
ghost use Rattle.std.specs.Prelude.{◌≡◌, ◌≤◌, [], false, pos, IfOk, OnOk, OnErr, Some};
ghost use Rattle.outside.specs.declared.requests.Scheme.TheVariants.{Http, Https};
ghost use Rattle.outside.specs.Objects.{used, IsUntouched};
ghost use Rattle.outside.specs.Sizes.{most_body_bytes};
ghost use Rattle.outside.specs.Fetches.{IsTimeout, IsInLimits, IsUnsentRightly, AddsCall, CountsReply};
ghost use Rattle.http_fetch.specs.Links.{IsReplyOf, SendsRequest, WasTimed};
ghost use Rattle.http_fetch.specs.Fetches.{fetch_seen};

use crate::exchange::exchange;
use label_set::NoMemory;
use outside::{AnsweredCall, Clock, Fetch, Fetched, Link, Reply, Request, Scheme, note_call};
use std::alloc::Global;

/// What fetches over HTTP, by a link and a clock. Its answered calls are known; its count of faults is that of its link.
#[derive(Drop)]
pub struct HttpFetch<L: Link, K: Clock> {
    pub link: L,
    pub clock: K,
    pub answered: Vec<AnsweredCall>,
}

impl<L: Link, K: Clock> HttpFetch<L, K> {
    /// What fetches over this link, by this clock. It takes no memory.
    pub fn new(alloc: Global, link: L, clock: K) -> HttpFetch<L, K>
        ensures link { result.link ≡ link }
        ensures clock { result.clock ≡ clock }
        ensures answered { result.answered.items ≡ [] }
    {
        HttpFetch {
            link,
            clock,
            answered: Vec::new(alloc),
        }
    }
}

impl<L: Link, K: Clock> Fetch for HttpFetch<L, K> {
    ghost use Rattle.http_fetch.specs.Fetches.{fetch_seen};

    ghost seen = { λ f. fetch_seen f.answered.items (L.seen f.link) };

    fn fetch(&mut self, alloc: Global, request: &Request) -> Result<Fetched, NoMemory>
        requires limit { request.now.limit ≤ most_body_bytes }
        requires timeout { IsTimeout request.now.timeout }
        ensures limits { IfOk result (λ f. IsInLimits f) }
        ensures unsent { IfOk result (λ f. IsUnsentRightly request.now f) }
        ensures counts { IfOk result (λ f. CountsReply f.reply
            (used (fetch_seen self.old.answered.items (L.seen self.old.link))
            (fetch_seen self.new.answered.items (L.seen self.new.link)))) }
        ensures added { IfOk result (λ f. AddsCall request.now f
            (used (fetch_seen self.old.answered.items (L.seen self.old.link))
            (fetch_seen self.new.answered.items (L.seen self.new.link)))) }
        ensures none { OnErr result (IsUntouched
            (used (fetch_seen self.old.answered.items (L.seen self.old.link))
            (fetch_seen self.new.answered.items (L.seen self.new.link)))) }
        ensures reply { request.now.scheme ≡ Http →
            IfOk result (λ f. IsReplyOf request.now.limit f.reply
            (used (L.seen self.old.link) (L.seen self.new.link))) }
        ensures sent { request.now.scheme ≡ Http →
            IfOk result (λ f. SendsRequest request.now f.reply (used (L.seen self.old.link) (L.seen self.new.link))) }
        ensures took { request.now.scheme ≡ Http → IfOk result (λ f. WasTimed f.took (used (K.seen self.old.clock) (K.seen self.new.clock))) }
        ensures hung_up { request.now.scheme ≡ Http → OnOk result ((L.seen self.new.link).dialled ≡ false) }
        ensures quiet { (L.seen self.old.link).dialled ≡ false → (L.seen self.new.link).dialled ≡ false }
        ensures https { request.now.scheme ≡ Https → (self.new.link ≡ self.old.link) × (self.new.clock ≡ self.old.clock) }
        ensures at_once { request.now.scheme ≡ Https → IfOk result (λ f. f.took ≡ pos 0) }
    {
        self.answered.reserve(1)?;
        let fetched = match request.scheme {
            Scheme::Https => Fetched {
                took: 0,
                reply: Reply::Unsent,
            },
            Scheme::Http => exchange(alloc, &mut self.link, &mut self.clock, request)?,
        };
        note_call(&mut self.answered, request, &fetched);
        Ok(fetched)
    }
}
