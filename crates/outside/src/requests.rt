//! Requests, and what came of them.
ghost use Rattle.std.specs.Prelude.{◌≡◌};
ghost use Rattle.outside.specs.Schemes as spec;

use crate::replies::Reply;
use label_set::Name;

/// How a target is spoken to.
#[derive(Clone, Copy, PartialEq, Eq, Debug)]
pub enum Scheme {
    Http,
    Https,
}

/// How a scheme is written.
pub fn scheme_text(scheme: Scheme) -> &'static str
    ensures { result.now ≡ spec.scheme_text scheme }
{
    match scheme {
        Scheme::Http => "http",
        Scheme::Https => "https",
    }
}

/// The scheme that a text names; none where it is neither `http` nor `https`.
#[tactic(auto, unfolding(crate::specs::Schemes::scheme_of))]
pub fn scheme_of(text: &str) -> Option<Scheme>
    ensures { result ≡ spec.scheme_of text.now }
{
    if text == scheme_text(Scheme::Http) {
        Some(Scheme::Http)
    } else if text == scheme_text(Scheme::Https) {
        Some(Scheme::Https)
    } else {
        None
    }
}

/// Whether a text names a scheme.
pub fn is_scheme(text: &str) -> bool
    ensures { result ≡ spec.is_scheme text.now }
{
    scheme_of(text).is_some()
}

/// The request of a scrape: where it goes, what it asks for, and what it may cost.
#[derive(Drop, Debug)]
pub struct Request {
    pub scheme: Scheme,
    /// The host, with a colon and the port where the URL shows one.
    pub authority: Name,
    /// The host alone.
    pub host: Name,
    /// The port that the URL shows, or that of the scheme.
    pub port: u16,
    /// The path with the query.
    pub target: Name,
    /// How long the scrape may take, in milliseconds.
    pub timeout: i64,
    /// How many bytes the body may have.
    pub limit: u64,
}

/// What a fetch brought, and how many milliseconds it took.
#[derive(Drop, Debug)]
pub struct Fetched {
    pub took: i64,
    pub reply: Reply,
}
