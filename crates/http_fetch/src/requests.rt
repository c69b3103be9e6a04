//! The text of a request.
ghost use Rattle.std.specs.Prelude.{◌≡◌, ◌≤◌, ◌++◌, IfOk, OnOk};
ghost use Rattle.outside.specs.Fetches.{IsTimeout};
ghost use Rattle.http_fetch.specs.Requests.{request_text};

use label_set::NoMemory;
use outside::Request;
use std::alloc::Global;
use value_text::write_seconds3;

/// The lines that each request has: what is taken, not compressed, and who asks.
const SAME_LINES: &[u8] =
    b"Accept: application/openmetrics-text;version=1.0.0;q=1,text/plain;version=1.0.0;escaping=allow-utf-8;q=0.9,text/plain;version=0.0.4;q=0.8,*/*;q=0.1\r\n\
Accept-Encoding: identity\r\nUser-Agent: scrape/1\r\n";

/// The line that asks for no further request, and the empty line behind it.
const LAST_LINES: &[u8] = b"Connection: close\r\n\r\n";

/// Adds a value, with what stands before and behind it.
fn add(text: &mut Vec<u8>, before: &[u8], value: &[u8], behind: &[u8]) -> Result<(), NoMemory>
    ensures { OnOk result (text.new.items ≡ text.old.items ++ before.now ++ value.now ++ behind.now) }
{
    text.extend_from_slice(before)?;
    text.extend_from_slice(value)?;
    text.extend_from_slice(behind)?;
    Ok(())
}

/// The text that asks for a page.
pub fn text_of(alloc: Global, request: &Request) -> Result<Vec<u8>, NoMemory>
    requires { IsTimeout request.now.timeout }
    ensures { IfOk result (λ text. text.items ≡ request_text request.now) }
{
    let mut seconds = Vec::new(alloc);
    write_seconds3(alloc, request.timeout, &mut seconds)?;
    let target = request.target.as_str().as_bytes();
    let authority = request.authority.as_str().as_bytes();
    let mut text = Vec::new(alloc);
    add(&mut text, b"GET ", target, b" HTTP/1.1\r\n")?;
    add(&mut text, b"Host: ", authority, b"\r\n")?;
    add(
        &mut text,
        SAME_LINES,
        b"X-Prometheus-Scrape-Timeout-Seconds: ",
        seconds.as_slice(),
    )?;
    add(&mut text, b"\r\n", LAST_LINES, b"")?;
    Ok(text)
}
