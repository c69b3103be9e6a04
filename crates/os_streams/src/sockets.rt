//! The adapter over a TCP connection.
ghost use Rattle.std.specs.Prelude.{◌≡◌, ◌≤◌, ◌<◌, None, false, length, IfOk};
ghost use Rattle.std.specs.Duration.{as_nanos};

use outside::{Link, LinkFault};
use std::io::{ErrorKind, Read, Write};
use std::marker::Model;
use std::net::{Net, OpenStream, TcpStream, ToSocketAddrs};
use std::time::{Duration, Instant};
use std::{io, time};

/// How often a call is made again that signals break off. At each try the time that is left is less, so this many never come.
const MOST_TRIES: u64 = 1 << 40;

/// A TCP connection of the operating system. The dial and all calls after it are over at the moment of the dial plus its timeout, on a
/// clock that no one sets: a call that isn't is a fault, and so is each later one. Only looking up a host's name isn't cut short; its time counts.
#[derive(Drop)]
pub struct TcpLink<N: Net + time::Clock + Drop> {
    net: N,
    stream: Option<N::Stream>,
    end: Option<Instant>,
    faults: u64,
}

impl<N: Net + time::Clock + Drop> Model for TcpLink<N> {
    ghost use Rattle.std.specs.Prelude.{None, is_some};
    ghost use Rattle.outside.specs.Links.{LinkSeen};

    ghost Value = { LinkSeen };

    ghost view = { λ l. record { dialled = is_some l.stream; sent = None; left = None; faults = l.faults } };
}

impl<N: Net + time::Clock + Drop> TcpLink<N> {
    /// A link that isn't dialled yet.
    pub fn new(net: N) -> TcpLink<N>
        ensures { result ≡ record { dialled = false; sent = None; left = None; faults = 0 } }
    {
        TcpLink {
            net,
            stream: None,
            end: None,
            faults: 0,
        }
    }
}

/// The moment that comes so much later.
fn end_after<C: time::Clock>(clock: &C, timeout: Duration) -> io::Result<Instant> {
    let now = Instant::now(clock)?;
    now.checked_add(timeout)
        .ok_or(io::Error::from(ErrorKind::InvalidInput))
}

/// What is left until a moment, where anything is.
fn left_until<C: time::Clock>(clock: &C, end: Option<Instant>) -> io::Result<Duration>
    ensures { IfOk result (λ left. 0 < as_nanos left) }
{
    if let Some(end) = end {
        let left = end.duration_since(Instant::now(clock)?);
        if !left.is_zero() {
            return Ok(left);
        }
    }
    Err(io::Error::from(ErrorKind::TimedOut))
}

/// Connects to the first address that answers, before a moment; each has its share of what is left when the name is looked up.
fn connect<N: Net + time::Clock>(
    net: &N,
    host: &str,
    port: u16,
    end: Option<Instant>,
) -> io::Result<N::Stream> {
    let host = host
        .strip_prefix('[')
        .and_then(|host| host.strip_suffix(']'))
        .unwrap_or(host);
    let addresses = (host, port).to_socket_addrs(net)?;
    let share = left_until(net, end)? / (addresses.len().max(1) as u32);
    let mut last = io::Error::from(ErrorKind::NotFound);
    for address in addresses {
        match TcpStream::connect_timeout(net, &address, share) {
            Ok(stream) => return Ok(stream),
            Err(error) => last = error,
        }
    }
    Err(last)
}

/// Reads before a moment; a read that a signal broke off is made again.
fn read_until<N: Net + time::Clock>(
    net: &N,
    stream: &mut N::Stream,
    end: Option<Instant>,
    room: &mut [u8],
) -> io::Result<usize>
    ensures { IfOk result (λ n. n ≤ length room.new) }
{
    for _ in 0..MOST_TRIES {
        stream.set_read_timeout(Some(left_until(net, end)?))?;
        match stream.read(room) {
            Ok(count) => {
                let _ = left_until(net, end)?;
                return Ok(count);
            }
            Err(error) if error.kind() == ErrorKind::Interrupted => {}
            Err(error) => return Err(error),
        }
    }
    Err(io::Error::from(ErrorKind::TimedOut))
}

/// Writes before a moment; a write that a signal broke off is made again.
fn write_until<N: Net + time::Clock>(
    net: &N,
    stream: &mut N::Stream,
    end: Option<Instant>,
    bytes: &[u8],
) -> io::Result<usize>
    ensures { IfOk result (λ n. n ≤ length bytes.now) }
{
    for _ in 0..MOST_TRIES {
        stream.set_write_timeout(Some(left_until(net, end)?))?;
        match stream.write(bytes) {
            Ok(count) => {
                let _ = left_until(net, end)?;
                return Ok(count);
            }
            Err(error) if error.kind() == ErrorKind::Interrupted => {}
            Err(error) => return Err(error),
        }
    }
    Err(io::Error::from(ErrorKind::TimedOut))
}

impl<N: Net + time::Clock + Drop> Link for TcpLink<N> {
    ghost seen = { λ l. l };

    fn dial(&mut self, host: &str, port: u16, timeout: i64) -> Result<(), LinkFault> {
        self.stream = None;
        let timeout = Duration::from_millis(u64::try_from(timeout).unwrap_or(0));
        self.end = end_after(&self.net, timeout).ok();
        if let Ok(stream) = connect(&self.net, host, port, self.end) {
            self.stream = Some(stream);
            return Ok(());
        }
        self.faults = self.faults.saturating_add(1);
        Err(LinkFault)
    }

    fn write(&mut self, bytes: &[u8]) -> Result<usize, LinkFault> {
        if let Some(stream) = &mut self.stream {
            if let Ok(count) = write_until(&self.net, stream, self.end, bytes) {
                if count > 0 || bytes.is_empty() {
                    return Ok(count);
                }
            }
        }
        self.faults = self.faults.saturating_add(1);
        Err(LinkFault)
    }

    fn read(&mut self, room: &mut [u8]) -> Result<usize, LinkFault> {
        if let Some(stream) = &mut self.stream {
            if let Ok(count) = read_until(&self.net, stream, self.end, room) {
                return Ok(count);
            }
        }
        self.faults = self.faults.saturating_add(1);
        Err(LinkFault)
    }

    fn hang_up(&mut self) {
        self.stream = None;
    }
}
