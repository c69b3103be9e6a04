//! The answered calls of what fetches, as contracts see them.
ghost use Rattle.std.specs.Prelude.{◌≡◌, ◌<◌, ◌++◌, ◌∷◌, [], vec_len, vec_capacity};
ghost use Rattle.outside.specs.Calls.{answered_calls};

use crate::requests::{Fetched, Request};
use std::snapshot::Snapshot;

/// A call of what fetches, with its answer.
#[derive(Drop, Debug)]
pub struct Call {
    pub request: Request,
    pub fetched: Fetched,
}

/// An answered call, for contracts alone. It has no bytes.
#[derive(Drop)]
pub struct AnsweredCall {
    pub request: Snapshot<Request>,
    pub fetched: Snapshot<Fetched>,
}

/// Notes an answered call. There has to be room for it, which takes no bytes.
pub fn note_call(answered: &mut Vec<AnsweredCall>, request: &Request, fetched: &Fetched)
    requires { vec_len answered.old < vec_capacity answered.old }
    ensures { answered_calls answered.new.items ≡ answered_calls answered.old.items ++ record { request = request.now; fetched = fetched.now } ∷ [] }
{
    let call = AnsweredCall {
        request: Snapshot::of(request),
        fetched: Snapshot::of(fetched),
    };
    answered.push_reserved(call);
}
