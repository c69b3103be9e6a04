//! Laws over the definitions. Their functions do nothing.
ghost use Rattle.std.specs.Prelude.{ℕ, List};
ghost use Rattle.http_fetch.specs.Laws.{LastRead, OneReply};

/// Where 2^35 bytes hold neither a whole reply that ends nor a body that is known to be too long, whatever follows is no reply.
pub fn last_read()
    ensures { LastRead }
{}

/// Some bytes give one reply under a limit.
pub fn one_reply()
    ensures { OneReply }
{}
