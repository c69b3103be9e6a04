//! The reply of a fetch, whose body is read.
ghost use Rattle.std.specs.Prelude.{◌≡◌, ◌<◌, ◌^◌, false, length, None, true, IfOk};
ghost use Rattle.expo_reader.specs.Bodies.{CauseIs, reading};
ghost use Rattle.sample_rows.specs.Outcomes as spec;
ghost use Rattle.scrape_loop.specs.Replies as replies;
ghost use Rattle.scrape_loop.specs.Replies.{IsRead, is_page, reply_of};

use expo_reader::{BodyCause, LikeBody, NoTexts, RawTexts, ReadBody, Unread, read_like};
use label_set::{Blob, Form, NoMemory};
use outside::Reply;
use sample_rows::{RowRules, ScrapeFault, body_of, early_fault, early_read_fault, form_of};
use std::alloc::Global;
use std::marker::Model;

/// The status of a reply whose body is looked at.
const OK_STATUS: u16 = 200;

/// A reply with what its body says: its rows, or the number of its first faulty line.
#[derive(Drop)]
pub(crate) enum Page {
    /// Beside the rows stands for each where its raw text is looked for first, counted from 1; it may be wrong, and no contract rests on it.
    Rows {
        status: u16,
        body: ReadBody,
        places: Vec<u32>,
    },
    Faulty {
        form: Form,
        status: u16,
        bytes: Blob,
        line: u64,
    },
    /// A reply of which no line is looked at: it has no body, or its status is another than 200.
    Passed(Reply),
}

/// The reply of a fetch: where it has a body with status 200, that is read. It borrows nothing, and goes from thread to thread.
/// Contracts see the reply.
#[derive(Drop)]
pub struct ReadReply {
    page: Page,
}

impl Model for ReadReply {
    ghost use Rattle.outside.specs.declared.replies.Reply.{Reply};

    ghost Value = { Reply };

    ghost use Rattle.scrape_loop.specs.Replies.{IsRead, reply_of};

    ghost view = { λ r. reply_of r.page };

    ghost invariant = { λ r. IsRead r.page };
}

/// A reply whose body has that form.
fn page_in(form: Form, status: u16, bytes: Blob) -> Reply
    ensures { result ≡ replies.page_in form status bytes }
{
    match form {
        Form::Plain => Reply::Body { status, bytes },
        Form::Quoted => Reply::Quoted { status, bytes },
    }
}

/// What a body says that has a faulty line.
fn faulty(form: Form, status: u16, unread: Unread) -> Result<Page, NoMemory>
    requires { CauseIs unread.cause (reading form unread.bytes) }
    ensures reply { IfOk result (λ p. reply_of p ≡ replies.page_in form status unread.bytes) }
    ensures read { IfOk result (λ p. IsRead p) }
{
    let Unread { bytes, cause } = unread;
    match cause {
        BodyCause::Line(line) => Ok(Page::Faulty {
            form,
            status,
            bytes,
            line,
        }),
        BodyCause::NoMemory => Err(NoMemory),
    }
}

/// Reads a body.
fn page_of<T: RawTexts>(
    alloc: Global,
    form: Form,
    status: u16,
    bytes: Blob,
    like: &T,
) -> Result<Page, NoMemory>
    ensures reply { IfOk result (λ p. reply_of p ≡ replies.page_in form status bytes) }
    ensures read { IfOk result (λ p. IsRead p) }
{
    match read_like(alloc, form, bytes, like) {
        Ok(LikeBody { body, places }) => Ok(rows(status, body, places)),
        Err(unread) => faulty(form, status, unread),
    }
}

/// A body that is read.
fn rows(status: u16, body: ReadBody, places: Vec<u32>) -> Page
    ensures reply { reply_of result ≡ replies.page_in body.form status body.bytes }
    ensures read { IsRead result }
{
    let _bytes = body.bytes();
    Page::Rows {
        status,
        body,
        places,
    }
}

/// A body, read where its status is 200.
fn looked_at<T: RawTexts>(
    alloc: Global,
    form: Form,
    status: u16,
    bytes: Blob,
    like: &T,
) -> Result<Page, NoMemory>
    ensures reply { IfOk result (λ p. reply_of p ≡ replies.page_in form status bytes) }
    ensures read { IfOk result (λ p. IsRead p) }
{
    if status != OK_STATUS {
        return Ok(Page::Passed(page_in(form, status, bytes)));
    }
    page_of(alloc, form, status, bytes, like)
}

impl ReadReply {
    /// A reply, whose body is read where its status is 200: one that is no exposition text up to its first faulty line.
    ///
    /// # Errors
    ///
    /// The only error is out of memory; the reply is then let go.
    pub fn of(alloc: Global, reply: Reply) -> Result<ReadReply, NoMemory>
        ensures { IfOk result (λ r. r ≡ reply) }
    {
        ReadReply::like(alloc, reply, &NoTexts)
    }

    /// The same, where a line that begins with a raw text that was met before isn't read as far as that goes.
    ///
    /// # Errors
    ///
    /// Those of `of`.
    pub(crate) fn like<T: RawTexts>(
        alloc: Global,
        reply: Reply,
        like: &T,
    ) -> Result<ReadReply, NoMemory>
        ensures { IfOk result (λ r. r ≡ reply) }
    {
        let page = match reply {
            Reply::Body { status, bytes } => looked_at(alloc, Form::Plain, status, bytes, like)?,
            Reply::Quoted { status, bytes } => {
                looked_at(alloc, Form::Quoted, status, bytes, like)?
            }
            Reply::Lost => Page::Passed(Reply::Lost),
            Reply::Garbled => Page::Passed(Reply::Garbled),
            Reply::Unsent => Page::Passed(Reply::Unsent),
            Reply::Oversize => Page::Passed(Reply::Oversize),
        };
        Ok(ReadReply { page })
    }

    /// The reply with a body that was read.
    pub fn with(alloc: Global, status: u16, body: ReadBody) -> ReadReply
        ensures { result ≡ replies.page_in body.form status body.bytes }
    {
        ReadReply {
            page: rows(status, body, Vec::new(alloc)),
        }
    }

    /// Gives the reply back, its bytes as they were.
    pub fn into_reply(self) -> Reply
        ensures { result ≡ self }
    {
        match self.page {
            Page::Rows {
                status,
                body,
                places: _,
            } => {
                let form = body.form();
                page_in(form, status, body.into_bytes())
            }
            Page::Faulty {
                form,
                status,
                bytes,
                line: _,
            } => page_in(form, status, bytes),
            Page::Passed(reply) => reply,
        }
    }

    /// What it says.
    pub(crate) fn page(&self) -> &Page
        ensures reply { reply_of result.now ≡ self.now }
        ensures read { IsRead result.now }
    {
        &self.page
    }

    /// The form in which its body is read.
    pub(crate) fn form(&self) -> Form
        ensures { result ≡ spec.form_of self.now }
    {
        match &self.page {
            Page::Rows {
                status: _,
                body,
                places: _,
            } => body.form(),
            Page::Faulty {
                form,
                status: _,
                bytes: _,
                line: _,
            } => *form,
            Page::Passed(reply) => form_of(reply),
        }
    }

    /// How many bytes its body has; one without a body has none.
    pub(crate) fn size(&self) -> usize
        ensures value { result ≡ length (spec.body_of self.now) }
        ensures within { result < 2 ^ 63 }
    {
        match &self.page {
            Page::Rows {
                status: _,
                body,
                places: _,
            } => body.bytes().len(),
            Page::Faulty {
                form: _,
                status: _,
                bytes,
                line: _,
            } => bytes.as_slice().len(),
            Page::Passed(reply) => body_of(reply).len(),
        }
    }

    /// The fault for which none of its rows is looked at, by its time in milliseconds, its status and its size.
    #[tactic(auto, unfolding(sample_rows::specs::Outcomes::early_fault))]
    pub(crate) fn early_fault(&self, rules: &RowRules, took: i64) -> Option<ScrapeFault>
        ensures { result ≡ spec.early_fault rules.now self.now took }
    {
        match &self.page {
            Page::Rows {
                status,
                body,
                places: _,
            } => { early_read_fault(rules, *status, body.bytes().len(), took) }
            Page::Faulty {
                form: _,
                status,
                bytes,
                line: _,
            } => early_read_fault(rules, *status, bytes.as_slice().len(), took),
            Page::Passed(reply) => early_fault(rules, reply, took),
        }
    }
}
