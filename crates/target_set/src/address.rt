//! Where a target is: its address, its scheme and their URL.
ghost use Rattle.std.specs.Prelude.{◌≡◌, ◌++◌, codes, string_bytes, IfOk};
ghost use Rattle.std.specs.List.{list_any};
ghost use Rattle.target_set.specs.Outcomes as spec;
ghost use Rattle.target_set.specs.Requests.{if_read};

use label_set::NoMemory;
use std::alloc::Global;
use url::{ParseError, Url};

#[tactic(auto, unfolding(crate::specs::Outcomes::is_url_mark))]
fn is_mark(byte: u8) -> bool
    ensures { result ≡ spec.is_url_mark byte }
{
    byte == b'/' || byte == b'?' || byte == b'#' || byte == b'@' || byte == b'\\'
}

/// Whether an address holds a byte that it may not hold.
pub fn has_mark(address: &str) -> bool
    ensures { result ≡ list_any spec.is_url_mark address.now }
{
    address.as_bytes().iter().any(|b| is_mark(*b))
}

fn url_text(alloc: Global, scheme: &str, address: &str) -> Result<String, NoMemory>
    ensures { IfOk result (λ s. string_bytes s ≡ scheme.now ++ (codes "://" ++ (address.now ++ codes "/"))) }
{
    let mut text = String::from_str(alloc, scheme)?;
    text.push_str("://")?;
    text.push_str(address)?;
    text.push_str("/")?;
    Ok(text)
}

/// The URL of a scheme and an address; none where they make no URL.
pub fn read_url(alloc: Global, scheme: &str, address: &str) -> Result<Option<Url>, NoMemory>
    ensures { IfOk result (λ o. o ≡ if_read (spec.url_of scheme.now address.now)) }
{
    let text = url_text(alloc, scheme, address)?;
    match Url::parse(alloc, text.as_str()) {
        Ok(url) => Ok(Some(url)),
        Err(error) => match error {
            ParseError::OutOfMemory => Err(NoMemory),
            ParseError::Overflow => Err(NoMemory),
            _ => Ok(None),
        },
    }
}
