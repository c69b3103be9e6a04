//! The reply from the reads of a link.
ghost use Rattle.std.specs.Prelude.{◌≡◌, ◌≤◌, ◌<◌, [], length, vec_len, IfOk, OnErr};
ghost use Rattle.outside.specs.Objects.{used};
ghost use Rattle.outside.specs.Sizes.{most_body_bytes};
ghost use Rattle.outside.specs.Fetches.{IsReplyInLimits};
ghost use Rattle.http_fetch.specs.Decoders.{StandsFor};
ghost use Rattle.http_fetch.specs.Links.{IsReplyOf, SendsNothing};

use crate::decoder::{Decoder, Fed};
use crate::pieces::front;
use label_set::NoMemory;
use outside::{Link, Reply};
use std::alloc::Global;

/// How many bytes a read may give.
const ROOM: usize = 65536;

/// How many reads there are at most: no reply within a limit of 64 MiB has so many bytes.
const MOST_READS: u64 = 34359738368;

/// Room for so many bytes.
fn room_for(alloc: Global, count: usize) -> Result<Vec<u8>, NoMemory>
    ensures { IfOk result (λ room. vec_len room ≡ count) }
{
    let mut room = Vec::new(alloc);
    room.resize(count, 0)?;
    Ok(room)
}

/// Reads into the room until the reply is known, which the decoder has yet to take.
fn read_reply<L: Link>(
    alloc: Global,
    link: &mut L,
    mut decoder: Decoder,
    room: &mut [u8],
) -> Result<Reply, NoMemory>
    requires room { 0 < length room.old }
    requires limit { decoder.limit ≤ most_body_bytes }
    requires stands { StandsFor decoder decoder.limit [] }
    ensures reply { IfOk result (λ r. IsReplyOf decoder.limit r (used (L.seen link.old) (L.seen link.new))) }
    ensures limits { IfOk result (λ r. IsReplyInLimits r) }
    ensures sent { SendsNothing (used (L.seen link.old) (L.seen link.new)) }
    ensures none { OnErr result ((L.seen link.new).faults ≡ (L.seen link.old).faults) }
{
    for read in 0..MOST_READS {
        let Ok(count) = link.read(room) else {
            return Ok(Reply::Lost);
        };
        if count == 0 {
            return decoder.end(alloc);
        }
        match decoder.feed(front(room, count))? {
            Fed::Done => return decoder.end(alloc),
            Fed::More => {}
        }
    }
    Ok(Reply::Garbled)
}

/// The reply of the bytes that the link gives.
pub fn receive<L: Link>(alloc: Global, link: &mut L, limit: u64) -> Result<Reply, NoMemory>
    requires { limit ≤ most_body_bytes }
    ensures reply { IfOk result (λ r. IsReplyOf limit r (used (L.seen link.old) (L.seen link.new))) }
    ensures limits { IfOk result (λ r. IsReplyInLimits r) }
    ensures sent { SendsNothing (used (L.seen link.old) (L.seen link.new)) }
    ensures none { OnErr result ((L.seen link.new).faults ≡ (L.seen link.old).faults) }
{
    let decoder = Decoder::new(alloc, limit)?;
    let mut room = room_for(alloc, ROOM)?;
    read_reply(alloc, link, decoder, room.as_mut_slice())
}
