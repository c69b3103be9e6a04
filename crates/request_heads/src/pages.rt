//! The pages of a status server.
ghost use Rattle.std.specs.Prelude.{◌≡◌, ◌≤◌, not, ◌==◌, length, take, drop};
ghost use Rattle.std.specs.List.{prefix_len};
ghost use Rattle.std.specs.Str.{bytes_eq};
ghost use Rattle.request_heads.specs.Requests as spec;

/// What a request asks for.
#[derive(Clone, Copy, PartialEq, Eq, Debug)]
pub enum Page {
    /// `GET /targets`: the targets that are scraped.
    Targets,
    /// `GET /federate`: the newest samples of what selectors select.
    Federate,
    /// `POST` or `PUT` of `/-/reload`: to read the configuration anew.
    Reload,
    /// One of these paths, by another method.
    OtherMethod,
    /// Another path.
    OtherPath,
    /// It has a body, or says that it may have one.
    Body,
}

/// Whether two texts are the same.
pub fn same(one: &[u8], other: &[u8]) -> bool
    ensures { result ≡ bytes_eq one.now other.now }
{
    one == other
}

/// A page, where its method is one of its own.
fn page_if(is_own: bool, page: Page) -> Page
    ensures { result ≡ spec.page_if is_own page }
{
    if is_own { page } else { Page::OtherMethod }
}

/// The page of a path, by a method.
#[tactic(auto, unfolding(crate::specs::Requests::page_by))]
pub fn page_by(method: &[u8], path: &[u8]) -> Page
    ensures { result ≡ spec.page_by method.now path.now }
{
    if same(path, b"/targets") {
        return page_if(same(method, b"GET"), Page::Targets);
    }
    if same(path, b"/federate") {
        return page_if(same(method, b"GET"), Page::Federate);
    }
    if same(path, b"/-/reload") {
        return page_if(same(method, b"POST") || same(method, b"PUT"), Page::Reload);
    }
    Page::OtherPath
}

/// How many bytes stand before the first `?`.
fn path_len(target: &[u8]) -> usize
    ensures value { result ≡ prefix_len (λ b. not (b == 63)) target.now }
    ensures within { result ≤ length target.now }
{
    target.iter().take_while(|b| **b != b'?').count()
}

/// The path of a request target: what stands before its first `?`.
pub fn path_of(target: &[u8]) -> &[u8]
    ensures { result.now ≡ spec.path_of target.now }
{
    &target[..path_len(target)]
}

/// Its query: what follows that.
pub fn query_of(target: &[u8]) -> &[u8]
    ensures { result.now ≡ spec.query_of target.now }
{
    let start = path_len(target);
    if start < target.len() {
        &target[start + 1..]
    } else {
        &target[start..]
    }
}
