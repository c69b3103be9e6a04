//! What a request is answered.
ghost use Rattle.std.specs.Prelude.{◌≡◌, ◌++◌, true, IfOk, OnOk};
ghost use Rattle.status_server.specs.Answers as spec;

use crate::replies::{Status, push_reply};
use crate::targets::push_targets;
use label_set::NoMemory;
use request_heads::Page;
use scrape_core::Core;
use std::alloc::Global;

/// The status of the answer to a request for a page that is answered by itself.
fn status_of(page: Page) -> Status
    requires { spec.is_plain page ≡ true }
    ensures { result ≡ spec.status_of page }
{
    match page {
        Page::Targets => Status::Done,
        Page::Body => Status::BadRequest,
        Page::OtherMethod => Status::OtherMethod,
        Page::OtherPath => Status::NotFound,
        Page::Federate | Page::Reload => unreachable!(),
    }
}

/// Whether the connection ends behind the answer, where the request says so or doesn't.
pub fn ends(page: Page, closes: bool) -> bool
    ensures { result ≡ spec.ends page closes }
{
    closes || page == Page::Body
}

/// The body of the answer: the page of the targets, or nothing.
fn body_of(alloc: Global, core: &Core, page: Page) -> Result<Vec<u8>, NoMemory>
    ensures { IfOk result (λ v. v.items ≡ spec.body_of core.now page) }
{
    let mut body = Vec::new(alloc);
    if page == Page::Targets {
        push_targets(&mut body, core)?;
    }
    Ok(body)
}

/// Appends what a request for a page is answered by a core, where that is neither federation nor a reload; `closes` is what the request says of
/// the connection.
///
/// # Errors
///
/// The only error is out of memory; a front of the answer may stand in the text then.
pub fn push_answer(
    alloc: Global,
    text: &mut Vec<u8>,
    core: &Core,
    page: Page,
    closes: bool,
) -> Result<(), NoMemory>
    requires { spec.is_plain page ≡ true }
    ensures added { OnOk result (text.new.items ≡ text.old.items ++ spec.answer core.now page closes) }
{
    let body = body_of(alloc, core, page)?;
    push_reply(text, status_of(page), ends(page, closes), body.as_slice())
}
