//! The head of a line: its moment, its life and its kind.
ghost use Rattle.std.specs.Prelude.{◌≡◌, ◌++◌, ◌+◌, ◌<◌, ◌≤◌, length, vec_len, vec_capacity, IfOk, OnOk, OnErr, IsTrue};
ghost use Rattle.book_text.specs.Kept.{IsHead};
ghost use Rattle.book_text.specs.Texts as spec;

use crate::pieces::{kind_word, push};
use crate::rooms::numbers_room;
use itoa::Buffer;
use label_set::NoMemory;
use report_samples::{Entry, Kind};
use std::alloc::Global;

/// Room for any head.
const ROOM: usize = 128;

/// The head of the last line, and what it was made of.
#[derive(Drop)]
pub(crate) struct Head {
    bytes: Vec<u8>,
    moment: i64,
    life: u64,
    kind: Kind,
}

fn push_head(text: &mut Vec<u8>, moment: i64, life: u64, kind: Kind) -> Result<(), NoMemory>
    ensures written { OnOk result (text.new.items ≡ text.old.items ++ spec.head_text moment life kind) }
    ensures full { OnErr result (vec_capacity text.old < vec_len text.old + length (spec.head_text moment life kind)) }
    ensures capacity { vec_capacity text.old ≤ vec_capacity text.new }
{
    let mut moments = Buffer::new();
    let mut lives = Buffer::new();
    push(text, moments.format(moment).as_bytes())?;
    push(text, b" ")?;
    push(text, lives.format(life).as_bytes())?;
    push(text, b" ")?;
    push(text, kind_word(kind).as_bytes())?;
    push(text, b" ")
}

/// Writes a head into room that is there.
fn write_head(bytes: &mut Vec<u8>, moment: i64, life: u64, kind: Kind)
    requires { ROOM ≤ vec_capacity bytes.old }
    ensures text { bytes.new.items ≡ spec.head_text moment life kind }
    ensures room { ROOM ≤ vec_capacity bytes.new }
{
    let _room = numbers_room(moment, life);
    bytes.clear();
    match push_head(bytes, moment, life, kind) {
        Ok(()) => {}
        Err(_) => unreachable!(),
    }
}

impl Head {
    /// A first head, of the moment 0 and the life 0.
    pub(crate) fn new(alloc: Global) -> Result<Head, NoMemory>
        ensures { IfOk result IsHead }
    {
        let mut bytes = Vec::new(alloc);
        bytes.reserve(ROOM).map_err(NoMemory::from)?;
        write_head(&mut bytes, 0, 0, Kind::Scraped);
        Ok(Head {
            bytes,
            moment: 0,
            life: 0,
            kind: Kind::Scraped,
        })
    }

    /// Whether the line of an entry has this head.
    fn is_of(&self, entry: &Entry) -> bool
        ensures { IsTrue result → spec.head_text self.now.moment self.now.life self.now.kind ≡ spec.entry_head entry.now }
    {
        self.moment == entry.moment && self.life == entry.life && self.kind == entry.kind
    }

    /// Makes it the head of the line of an entry: it is written anew where the one before was another.
    pub(crate) fn renew(&mut self, entry: &Entry)
        requires { IsHead self.old }
        ensures head { IsHead self.new }
        ensures text { self.new.bytes.items ≡ spec.entry_head entry.now }
    {
        if !self.is_of(entry) {
            write_head(&mut self.bytes, entry.moment, entry.life, entry.kind);
            self.moment = entry.moment;
            self.life = entry.life;
            self.kind = entry.kind;
        }
    }

    pub(crate) fn bytes(&self) -> &[u8]
        ensures { result.now ≡ self.now.bytes.items }
    {
        self.bytes.as_slice()
    }
}
