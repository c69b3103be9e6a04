//! Replies.
use label_set::Blob;

/// What came back for the request of a scrape.
#[derive(Drop, Debug)]
pub enum Reply {
    /// The target answered, with this status code and this body.
    Body { status: u16, bytes: Blob },
    /// The same, where the target said that names may stand in quotes in the body.
    Quoted { status: u16, bytes: Blob },
    /// No answer came: no connection, or one that ended or was given up before the whole answer was there.
    Lost,
    /// What came is no HTTP response that is taken.
    Garbled,
    /// The request was not sent, as for a scheme that is not spoken here.
    Unsent,
    /// The body is longer than is taken.
    Oversize,
}
