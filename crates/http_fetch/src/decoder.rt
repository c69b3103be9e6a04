//! The decoder.
ghost use Rattle.std.specs.Prelude.{◌≡◌, ◌++◌, ℕ, [], List, ◌<◌, ◌≤◌, ◌+◌, ◌-◌, length, take, drop, IfOk, OnOk, OnErr, Ok, false, vec_len, vec_capacity, max, if◌then◌else◌};
ghost use Rattle.http_fetch.specs.Kinds as kinds;
ghost use Rattle.http_fetch.specs.Kinds.{StageKind};
ghost use Rattle.http_fetch.specs.Replies as replies;
ghost use Rattle.http_fetch.specs.Replies.{Http, converted_reply};
ghost use Rattle.om_reader.specs.Bodies as spec;
ghost use Rattle.http_fetch.specs.Stages.{Fits, Leads, Waits, decoding};
ghost use Rattle.http_fetch.specs.Steps.{is_done};
ghost use Rattle.http_fetch.specs.Reading.{IsShort};
ghost use Rattle.http_fetch.specs.Decoders.{StandsFor, HoldsLittle, SameParts, IsSettled, MustEnd, LeavesOff};

use crate::fields::Kind;
use crate::pieces::{behind, front};
use crate::stages::{Stage, Step, body_step, frame_step, is_body, is_done, is_heads};
use label_set::{Blob, NoMemory};
use om_reader::{OmError, convert};
use outside::Reply;
use std::alloc::Global;

/// Whether more bytes can change the reply.
#[derive(Clone, Copy, PartialEq, Eq, Debug)]
pub enum Fed {
    /// They can.
    More,
    /// Whatever follows, the reply is the same.
    Done,
}

/// A decoder of a reply that comes in pieces.
#[derive(Drop, Debug)]
pub struct Decoder {
    limit: u64,
    stage: Stage,
    kind: Kind,
    body: Vec<u8>,
    pending: Vec<u8>,
}

/// A place in a reply, and whether the body is of OpenMetrics, which is known behind the last head.
#[derive(Clone, Copy)]
struct Place {
    stage: Stage,
    kind: Kind,
}

/// Where a run over some bytes ends, and what it leaves of them.
#[derive(Clone, Copy)]
struct Left<'a> {
    stage: Stage,
    kind: Kind,
    rest: &'a [u8],
}

/// What is known of the body behind a step.
fn kind_behind(stage: Stage, kind: Kind, step: Step) -> Kind
    ensures { result ≡ (if kinds.is_heads stage then step.kind else kind) }
{
    if is_heads(stage) { step.kind } else { kind }
}

/// Adds bytes that there is room for.
fn add(body: &mut Vec<u8>, bytes: &[u8])
    requires { vec_len body.old + length bytes.now ≤ vec_capacity body.old }
    ensures items { body.new.items ≡ body.old.items ++ bytes.now }
    ensures len { vec_len body.new ≡ vec_len body.old + length bytes.now }
    ensures capacity { vec_capacity body.old ≤ vec_capacity body.new }
{
    let _ = body.extend_from_slice(bytes);
}

/// How many bytes there are.
fn count_of(body: &Vec<u8>) -> u64
    ensures { result ≡ length body.now.items }
{
    body.len() as u64
}

/// Goes over the bytes as far as they reach.
fn run<'a>(place: Place, limit: u64, body: &mut Vec<u8>, text: &'a [u8]) -> Left<'a>
    requires { vec_len body.old + length text.now ≤ vec_capacity body.old }
    ensures leads { Fits place.stage limit body.old.items →
        Leads limit (decoding place.stage body.old.items text.now) (decoding result.stage body.new.items result.rest.now) }
    ensures waits { Fits place.stage limit body.old.items → Waits result.stage result.rest.now }
    ensures short { Fits place.stage limit body.old.items → is_done result.stage ≡ false → IsShort result.rest.now }
    ensures rest { LeavesOff text.now result.rest.now }
    ensures kind { (b : List ℕ) → StageKind place.stage place.kind 8 b text.now → StageKind result.stage result.kind 8 b result.rest.now }
{
    let mut stage = place.stage;
    let mut kind = place.kind;
    let mut rest = text;
    while !rest.is_empty() {
        if is_done(stage) {
            return Left { stage, kind, rest };
        }
        let got = count_of(body);
        if is_body(stage) {
            let step = body_step(stage, limit, got, rest.len());
            add(body, front(rest, step.used));
            stage = step.next;
            rest = behind(rest, step.used);
        } else {
            let Some(step) = frame_step(stage, limit, got, rest) else {
                return Left { stage, kind, rest };
            };
            kind = kind_behind(stage, kind, step);
            stage = step.next;
            rest = behind(rest, step.used);
        }
    }
    Left { stage, kind, rest }
}

/// Keeps so many bytes at the end.
fn keep_end(pending: &mut Vec<u8>, count: usize)
    requires { count ≤ vec_len pending.old }
    ensures { pending.new.items ≡ drop (length pending.old.items - count) pending.old.items }
{
    let used = pending.len() - count;
    pending.rotate_left(used);
    pending.truncate(count);
}

/// Makes room for so many bytes more: twice as much as there was, but no more than the limit and these, or just enough.
fn make_room(body: &mut Vec<u8>, more: usize, limit: u64) -> Result<(), NoMemory>
    ensures items { body.new.items ≡ body.old.items }
    ensures room { OnOk result (vec_len body.new + more ≤ vec_capacity body.new) }
    ensures most { vec_len body.old ≤ limit → vec_capacity body.new ≤ max (vec_capacity body.old) (limit + more) }
{
    let wanted = body.len().saturating_add(more);
    let most = (limit as usize).saturating_add(more);
    let double = body.capacity().saturating_mul(2);
    if body.capacity() < wanted {
        body.reserve_exact(double.min(most).max(wanted) - body.len())?;
    }
    Ok(())
}

/// Goes on over what was pending and a piece. An error leaves the bytes as they were.
fn advance(
    place: Place,
    limit: u64,
    body: &mut Vec<u8>,
    pending: &mut Vec<u8>,
    piece: &[u8],
) -> Result<Place, NoMemory>
    ensures leads { IfOk result (λ next. Fits place.stage limit body.old.items →
        Leads limit (decoding place.stage body.old.items (pending.old.items ++ piece.now)) (decoding next.stage body.new.items pending.new.items)) }
    ensures waits { IfOk result (λ next. Fits place.stage limit body.old.items → Waits next.stage pending.new.items) }
    ensures short { IfOk result (λ next. Fits place.stage limit body.old.items → is_done next.stage ≡ false → IsShort pending.new.items) }
    ensures kind { IfOk result (λ next. (b : List ℕ) → StageKind place.stage place.kind 8 b (pending.old.items ++ piece.now) →
        StageKind next.stage next.kind 8 b pending.new.items) }
    ensures body { OnErr result (body.new.items ≡ body.old.items) }
    ensures pending { OnErr result (pending.new.items ≡ pending.old.items) }
{
    make_room(body, pending.len() + piece.len(), limit)?;
    pending.reserve(piece.len())?;
    if pending.is_empty() {
        let left = run(place, limit, body, piece);
        add(pending, left.rest);
        return Ok(Place {
            stage: left.stage,
            kind: left.kind,
        });
    }
    add(pending, piece);
    let left = run(place, limit, body, pending);
    let count = left.rest.len();
    let next = Place {
        stage: left.stage,
        kind: left.kind,
    };
    keep_end(pending, count);
    Ok(next)
}

/// The reply of a body of OpenMetrics.
fn converted(alloc: Global, limit: u64, body: Vec<u8>) -> Result<Reply, NoMemory>
    ensures { IfOk result (λ r. r ≡ converted_reply limit (spec.converted body.items)) }
{
    match convert(alloc, body.as_slice()) {
        Ok(bytes) => {
            if bytes.as_slice().len() as u64 > limit {
                return Ok(Reply::Oversize);
            }
            Ok(Reply::Body { status: 200, bytes })
        }
        Err(OmError::Line(_)) => Ok(Reply::Garbled),
        Err(OmError::NoMemory) => Err(NoMemory),
    }
}

/// The reply of a whole reply, whose head says what its body is of.
fn rendered(
    alloc: Global,
    kind: Kind,
    limit: u64,
    status: u16,
    body: Vec<u8>,
) -> Result<Reply, NoMemory>
    ensures { IfOk result (λ r. r ≡ replies.rendered kind limit status body.items) }
{
    if status != 200 {
        return Ok(Reply::Body {
            status,
            bytes: Blob { bytes: body },
        });
    }
    match kind {
        Kind::OpenMetrics => converted(alloc, limit, body),
        Kind::Quoted => Ok(Reply::Quoted {
            status: 200,
            bytes: Blob { bytes: body },
        }),
        Kind::Plain => Ok(Reply::Body {
            status: 200,
            bytes: Blob { bytes: body },
        }),
    }
}

impl Decoder {
    /// A decoder that has taken nothing.
    pub fn new(alloc: Global, limit: u64) -> Result<Decoder, NoMemory>
        ensures { IfOk result (λ d. StandsFor d limit []) }
    {
        Ok(Decoder {
            limit,
            stage: Stage::Heads { left: 8 },
            kind: Kind::Plain,
            body: Vec::new(alloc),
            pending: Vec::new(alloc),
        })
    }

    /// Takes the next piece.
    pub fn feed(&mut self, piece: &[u8]) -> Result<Fed, NoMemory>
        ensures stands { OnOk result ((limit : ℕ) (b : List ℕ) → StandsFor self.old limit b → StandsFor self.new limit (b ++ piece.now)) }
        ensures err { OnErr result (SameParts self.old self.new) }
        ensures done { result ≡ Ok Fed.Done → (limit : ℕ) (b : List ℕ) → StandsFor self.old limit b → IsSettled (b ++ piece.now) limit }
        ensures more { result ≡ Ok Fed.More → (limit : ℕ) (b : List ℕ) → StandsFor self.old limit b → ¬ (MustEnd (b ++ piece.now) limit) }
        ensures held { result ≡ Ok Fed.More → (limit : ℕ) (b : List ℕ) → StandsFor self.old limit b → HoldsLittle self.new limit }
    {
        if is_done(self.stage) {
            return Ok(Fed::Done);
        }
        let next = advance(
            Place {
                stage: self.stage,
                kind: self.kind,
            },
            self.limit,
            &mut self.body,
            &mut self.pending,
            piece,
        )?;
        self.stage = next.stage;
        self.kind = next.kind;
        if is_done(self.stage) {
            return Ok(Fed::Done);
        }
        Ok(Fed::More)
    }

    /// The reply, where the link ends here. A body of OpenMetrics is converted.
    pub fn end(self, alloc: Global) -> Result<Reply, NoMemory>
        ensures reply { IfOk result (λ r. (limit : ℕ) (b : List ℕ) → StandsFor self limit b → Http b limit r) }
        ensures only { IfOk result (λ r. (limit : ℕ) (b : List ℕ) → StandsFor self limit b → (s : Reply) → Http b limit s → s ≡ r) }
    {
        match self.stage {
            Stage::Whole { status } => rendered(alloc, self.kind, self.limit, status, self.body),
            Stage::Open => rendered(alloc, self.kind, self.limit, 200, self.body),
            Stage::Over => Ok(Reply::Oversize),
            _ => Ok(Reply::Garbled),
        }
    }
}

/// The reply that the bytes of a link give which ends after them.
pub fn decode(alloc: Global, bytes: &[u8], limit: u64) -> Result<Reply, NoMemory>
    ensures reply { IfOk result (λ r. Http bytes.now limit r) }
    ensures only { IfOk result (λ r. (s : Reply) → Http bytes.now limit s → s ≡ r) }
{
    let mut decoder = Decoder::new(alloc, limit)?;
    decoder.feed(bytes)?;
    decoder.end(alloc)
}
