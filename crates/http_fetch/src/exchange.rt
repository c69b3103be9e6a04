//! One request and its reply over a link.
ghost use Rattle.std.specs.Prelude.{◌≡◌, ◌≤◌, false, IfOk, OnOk, OnErr};
ghost use Rattle.outside.specs.Objects.{used};
ghost use Rattle.outside.specs.Sizes.{most_body_bytes};
ghost use Rattle.outside.specs.Clocks.{IsReading};
ghost use Rattle.outside.specs.Links.{TookToSend};
ghost use Rattle.outside.specs.Fetches.{IsTimeout, IsInLimits, IsReplyInLimits};
ghost use Rattle.http_fetch.specs.Requests.{request_text};
ghost use Rattle.http_fetch.specs.Links.{IsReplyOf, SendsRequest, SentFront, WasTimed, time_between};

use crate::pieces::behind;
use crate::receive::receive;
use crate::requests::text_of;
use label_set::NoMemory;
use outside::{Clock, Fetched, Link, LinkFault, Reply, Request};
use std::alloc::Global;
use value_text::to_number;

/// Sends all of a text.
fn send<L: Link>(link: &mut L, text: &[u8]) -> Result<(), LinkFault>
    ensures sent { OnOk result (TookToSend text.now (used (L.seen link.old) (L.seen link.new))) }
    ensures failed { OnErr result (SentFront text.now (used (L.seen link.old) (L.seen link.new))) }
{
    let mut rest = text;
    while !rest.is_empty() {
        let count = link.write(rest)?;
        rest = behind(rest, count);
    }
    Ok(())
}

/// Dials, sends the text of a request, and takes the reply.
fn ask<L: Link>(
    alloc: Global,
    link: &mut L,
    request: &Request,
    text: &[u8],
) -> Result<Reply, NoMemory>
    requires limit { request.now.limit ≤ most_body_bytes }
    requires text { text.now ≡ request_text request.now }
    ensures reply { IfOk result (λ r. IsReplyOf request.now.limit r (used (L.seen link.old) (L.seen link.new))) }
    ensures sent { IfOk result (λ r. SendsRequest request.now r (used (L.seen link.old) (L.seen link.new))) }
    ensures limits { IfOk result (λ r. IsReplyInLimits r) }
    ensures none { OnErr result ((L.seen link.new).faults ≡ (L.seen link.old).faults) }
{
    let host = request.host.as_str();
    if link.dial(host, request.port, request.timeout).is_err() {
        return Ok(Reply::Lost);
    }
    if send(link, text).is_err() {
        return Ok(Reply::Lost);
    }
    receive(alloc, link, request.limit)
}

/// How long it is from one reading to a later one.
fn time_from(before: i64, after: i64) -> i64
    requires before { IsReading before }
    requires after { IsReading after }
    ensures time { result ≡ time_between before after }
    ensures limits { IsReading result }
{
    to_number(after).saturating_sub(to_number(before)) as i64
}

/// Asks for a page, hangs up whatever comes, and takes the time.
pub fn exchange<L: Link, K: Clock>(
    alloc: Global,
    link: &mut L,
    clock: &mut K,
    request: &Request,
) -> Result<Fetched, NoMemory>
    requires limit { request.now.limit ≤ most_body_bytes }
    requires timeout { IsTimeout request.now.timeout }
    ensures reply { IfOk result (λ f. IsReplyOf request.now.limit f.reply (used (L.seen link.old) (L.seen link.new))) }
    ensures sent { IfOk result (λ f. SendsRequest request.now f.reply (used (L.seen link.old) (L.seen link.new))) }
    ensures limits { IfOk result (λ f. IsInLimits f) }
    ensures took { IfOk result (λ f. WasTimed f.took (used (K.seen clock.old) (K.seen clock.new))) }
    ensures hung_up { OnOk result ((L.seen link.new).dialled ≡ false) }
    ensures quiet { (L.seen link.old).dialled ≡ false → (L.seen link.new).dialled ≡ false }
    ensures none { OnErr result ((L.seen link.new).faults ≡ (L.seen link.old).faults) }
{
    let text = text_of(alloc, request)?;
    let before = clock.now();
    let reply = ask(alloc, link, request, text.as_slice());
    link.hang_up();
    let took = time_from(before, clock.now());
    Ok(Fetched {
        took,
        reply: reply?,
    })
}
