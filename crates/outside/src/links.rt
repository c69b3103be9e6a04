//! Links to targets: what their calls say, whatever stands behind them.
ghost use Rattle.std.specs.Prelude.{◌≡◌, ◌≤◌, ◌<◌, take, length, IfOk, OnOk, OnErr, Ok};

use std::marker::Model;

/// A call of a link failed.
#[derive(Clone, Copy, PartialEq, Eq, Debug)]
pub struct LinkFault;

/// What can be dialled, written to and read from.
pub trait Link: Drop {
    ghost use Rattle.outside.specs.Objects.{used};
    ghost use Rattle.outside.specs.Sources.{IsAtEnd};
    ghost use Rattle.outside.specs.Links.{LinkSeen, WasDialled, TookToSend, TakesSome, GaveOfLink, Broke, WasHungUp};

    /// What contracts see of it: whether it is dialled, what was sent and what is left, where that is known, and its count.
    ghost seen: { Self → LinkSeen };

    /// Connects to a port of a host. The dial and all calls after it are to be over so many milliseconds from now.
    fn dial(&mut self, host: &str, port: u16, timeout: i64) -> Result<(), LinkFault>
        ensures dialled { OnOk result (WasDialled (used (seen self.old) (seen self.new))) }
        ensures failed { OnErr result (Broke (used (seen self.old) (seen self.new))) };

    /// Takes a front of the bytes, and answers how many.
    fn write(&mut self, bytes: &[u8]) -> Result<usize, LinkFault>
        ensures within { IfOk result (λ n. n ≤ length bytes.now) }
        ensures some { IfOk result (λ n. TakesSome n bytes.now) }
        ensures took { IfOk result (λ n. TookToSend (take n bytes.now) (used (seen self.old) (seen self.new))) }
        ensures failed { OnErr result (Broke (used (seen self.old) (seen self.new))) };

    /// Reads some bytes into the front of the room, and answers how many; 0 is the end.
    fn read(&mut self, room: &mut [u8]) -> Result<usize, LinkFault>
        requires { 0 < length room.old }
        ensures within { IfOk result (λ n. n ≤ length room.new) }
        ensures gave { IfOk result (λ n. GaveOfLink (take n room.new) (used (seen self.old) (seen self.new))) }
        ensures end { result ≡ Ok 0 → IsAtEnd (seen self.old).left }
        ensures failed { OnErr result (Broke (used (seen self.old) (seen self.new))) };

    /// Ends the connection, where there is one.
    fn hang_up(&mut self)
        ensures { WasHungUp (used (seen self.old) (seen self.new)) };
}
