//! Replies in memory of which none is lost.
ghost use Rattle.std.specs.Prelude.{◌≡◌, ◌≤◌, IfOk, All};
ghost use Rattle.outside.specs.Fetches.{IsTimeout};
ghost use Rattle.outside.specs.Replies.{IsReplyToGive};
ghost use Rattle.outside.specs.Sizes.{most_body_bytes};

use label_set::{Name, NoMemory};
use outside::{Fetch, Fetched, FetchedList, Reply, Request, Scheme, SureFetch};
use std::alloc::Global;

fn request(alloc: Global) -> Result<Request, NoMemory>
    ensures limit { IfOk result (λ r. r.limit ≤ most_body_bytes) }
    ensures timeout { IfOk result (λ r. IsTimeout r.timeout) }
{
    Ok(Request {
        scheme: Scheme::Http,
        authority: Name::from_str(alloc, "a:1")?,
        host: Name::from_str(alloc, "a")?,
        port: 1,
        target: Name::from_str(alloc, "/metrics")?,
        timeout: 1000,
        limit: 100,
    })
}

/// A reply that is too large, after 15 milliseconds.
fn replies(alloc: Global) -> Result<FetchedList, NoMemory>
    ensures { IfOk result (λ l. All IsReplyToGive l) }
{
    let fetched = Fetched {
        took: 15,
        reply: Reply::Oversize,
    };
    Ok(FetchedList {
        items: vec![in alloc; fetched]?,
    })
}

/// Whether the one reply of a list is given.
pub(crate) fn is_given(alloc: Global) -> Result<bool, NoMemory> {
    let request = request(alloc)?;
    let mut fetch = SureFetch::new(alloc, replies(alloc)?)?;
    let fetched = fetch.fetch(alloc, &request)?;
    Ok(fetched.took == 15 && matches!(fetched.reply, Reply::Oversize))
}
