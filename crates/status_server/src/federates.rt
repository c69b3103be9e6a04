//! Federation: what the selectors of a query see.
ghost use Rattle.std.specs.Prelude.{◌≡◌, ◌++◌, map, option_map, string_bytes, IfOk, OnOk};
ghost use Rattle.status_server.specs.Federates as spec;

use crate::replies::{Status, push_reply};
use crate::server::Server;
use federation::push_rows;
use instant_view::{Selector, SelectorError};
use label_set::NoMemory;
use request_heads::selectors_of;
use std::alloc::Global;
use std::sync::ledger::Ledger;

/// The selector of a text; none where it is refused.
fn read_one(alloc: Global, text: &str) -> Result<Option<Selector>, NoMemory>
    ensures { IfOk result (λ o. spec.IsRead text.now o) }
{
    match Selector::read(alloc, text) {
        Ok(selector) => Ok(Some(selector)),
        Err(SelectorError::NoMemory) => Err(NoMemory),
        Err(_) => Ok(None),
    }
}

/// The selectors of some texts; none where one is refused.
fn read_all(alloc: Global, texts: &[String]) -> Result<Option<Vec<Selector>>, NoMemory>
    ensures { IfOk result (λ o. spec.AreRead (map string_bytes texts.now) (option_map (λ v. v.items) o)) }
{
    let mut selectors = Vec::new(alloc);
    for text in texts {
        match read_one(alloc, text)? {
            None => return Ok(None),
            Some(selector) => selectors.push(selector)?,
        }
    }
    Ok(Some(selectors))
}

/// The selectors of a query; none where it has none, or one that doesn't decode or is refused.
fn selectors_in(alloc: Global, query: &[u8]) -> Result<Option<Vec<Selector>>, NoMemory>
    ensures { IfOk result (λ o. spec.AsksSo query.now (option_map (λ v. v.items) o)) }
{
    let Some(texts) = selectors_of(alloc, query)? else {
        return Ok(None);
    };
    if texts.is_empty() {
        return Ok(None);
    }
    read_all(alloc, &texts)
}

/// The text of what selectors see.
fn rows_text<L: Ledger>(server: &mut Server<L>, selectors: &[Selector]) -> Result<Vec<u8>, NoMemory>
    ensures rows { IfOk result (λ text. spec.IsTextSeen server.old selectors.now text.items) }
    ensures same { server.new ≡ server.old }
{
    let rows = server.rows(selectors)?;
    let mut text = Vec::new(server.alloc());
    push_rows(&mut text, &rows.items)?;
    Ok(text)
}

/// Appends the reply to a request for federation; `closes` says whether the connection ends behind it.
pub fn push_federate<L: Ledger>(
    server: &mut Server<L>,
    text: &mut Vec<u8>,
    query: &[u8],
    closes: bool,
) -> Result<(), NoMemory>
    ensures added { OnOk result (spec.Adds server.old query.now closes text.old.items text.new.items) }
    ensures same { server.new ≡ server.old }
{
    let Some(selectors) = selectors_in(server.alloc(), query)? else {
        return push_reply(text, Status::BadRequest, closes, b"");
    };
    let body = rows_text(server, &selectors)?;
    push_reply(text, Status::Done, closes, &body)
}
