//! A link to a server of this machine that gives a byte at a time.

use crate::holds;
use os_streams::TcpLink;
use outside::Link;
use std::io::Write;
use std::net::{Net, OpenListener, TcpListener};
use std::process::Abort;
use std::test::Fail;
use std::time::{self, Duration, Instant};
use std::{io, thread};

/// What listens at a port of this machine, and the port.
fn listening<N: Net>(net: &N) -> io::Result<(N::Listener, u16)> {
    let listener = TcpListener::bind(net, "127.0.0.1:0")?;
    let port = listener.local_addr()?.port();
    Ok((listener, port))
}

/// Gives one byte every 20 milliseconds, until the other end hangs up or 200 were given.
fn drip<C: time::Clock>(clock: &C, listener: TcpListener) -> io::Result<()> {
    let (mut stream, _) = listener.accept()?;
    for _ in 0..200 {
        stream.write_all(b"x")?;
        thread::sleep(clock, Duration::from_millis(20));
    }
    Ok(())
}

/// How many bytes a link gives until a read is a fault.
fn count_given<L: Link>(link: &mut L) -> usize {
    let mut room = [0u8; 8];
    let mut come = 0usize;
    for _ in 0..400 {
        let Ok(count) = link.read(&mut room) else {
            return come;
        };
        come = come.saturating_add(count);
    }
    come
}

/// Ends the test where a link still takes or gives a byte.
fn is_over<L: Link>(rt: &impl Abort, link: &mut L) {
    holds(rt, link.write(b"GET").is_err(), "no write");
    holds(rt, link.read(&mut [0u8; 1]).is_err(), "no read");
}

/// Each read is over long before the timeout, and all together aren't; nothing is left for another call.
fn is_cut_off<C: time::Clock + Abort, L: Link>(rt: &C, link: &mut L, port: u16) -> io::Result<()> {
    is_over(rt, link);
    let start = Instant::now(rt)?;
    holds(rt, link.dial("127.0.0.1", port, 300).is_ok(), "dialled");
    let come = count_given(link);
    let took = start.elapsed(rt)?.as_millis();
    holds(rt, 1 < come && come < 100, "what came");
    holds(rt, 300 <= took && took < 2000, "the time");
    is_over(rt, link);
    link.hang_up();
    Ok(())
}

/// Ends the test where a dial gets through: no one listens at the port any more, and then there is no time for one.
fn is_refused<L: Link>(rt: &impl Abort, link: &mut L, port: u16) {
    for timeout in [5000, -1] {
        holds(rt, link.dial("127.0.0.1", port, timeout).is_err(), "a dial");
        is_over(rt, link);
    }
}

#[test]
fn all_reads_together_keep_the_timeout(rt: HostRuntime) -> Result<(), Fail> {
    let clock = rt.clone()?;
    let (listener, port) = listening(&rt)?;
    let server = thread::spawn(&rt, move || drip(&clock, listener))?;
    let mut link = TcpLink::new(rt.clone()?);
    is_cut_off(&rt, &mut link, port)?;
    let _ = server.join(&rt);
    is_refused(&rt, &mut link, port);
    Ok(())
}
