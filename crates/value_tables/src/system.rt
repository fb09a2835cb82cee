//! Asks each device of the real system once, and says of each whether it did what it should: no contract can tell what the system gives.

use crate::connections::Asked;
use crate::{connections, files};
use sec_base::{Clock, Draw, Link, LinkFault, Port, Sink};
use std::io;
use std::io::{Stderr, Stdin, Stdout};
use std::net::{Net, TcpListener, TcpStream};
use std::rt::Clock as SystemTimeSource;
use std::sync::Wait;
use system_devices::{DialedLink, HeldStreams, RandDraw, StdSink, StdioPort, SystemClock};

/// The first second of 2020, which is past.
const YEAR_2020: u64 = 1_577_836_800;

/// Whether random octets are others at a second draw.
fn draws_differ(rt: &HostRuntime) -> bool {
    let Ok(mut draw) = RandDraw::new(rt) else {
        return false;
    };
    let mut first = [0; 32];
    draw.fill(&mut first);
    let mut second = [0; 32];
    draw.fill(&mut second);
    first != second
}

/// Whether standard input and output are one link, and no second one.
fn is_one_link(input: Stdin, output: Stdout) -> bool {
    let mut port = StdioPort::new(input, output);
    match port.accept() {
        Ok(Some(mut link)) => {
            let is_written = link.write(b"") == Ok(0);
            link.close();
            is_written && matches!(port.accept(), Ok(None))
        }
        _ => false,
    }
}

/// Whether standard error takes octets.
fn takes_octets(error: Stderr) -> bool {
    StdSink::error(error).write(b".").is_ok()
}

/// Whether a link to what is no address fails at its first use.
fn link_fails(rt: HostRuntime) -> bool {
    DialedLink::new(rt, "not an address").write(b"a") == Err(LinkFault)
}

/// Whether it is later than 2020.
fn is_later(rt: HostRuntime) -> bool {
    SystemClock::new(rt).now().secs() > YEAR_2020
}

/// Says whether a device did what it should.
fn say(rt: HostRuntime, what: &str, is_so: bool) -> io::Result<()> {
    if is_so {
        println!(rt; "{what}")
    } else {
        println!(rt; "not so: {what}")
    }
}

/// Says what is in a file.
fn say_file(rt: HostRuntime, name: &str) -> io::Result<()> {
    match files::told(rt.alloc(), rt, name) {
        Some(line) => println!(rt; "{line}"),
        None => println!(rt; "{name}: not loaded"),
    }
}

/// Says the same of files of several lengths, and of those that can't be loaded.
fn say_files(rt: HostRuntime) -> io::Result<()> {
    let alloc = rt.alloc();
    say_file(rt, "empty.txt")?;
    say_file(rt, "short.txt")?;
    say_file(rt, "long.txt")?;
    let is_limited = files::is_limited(alloc, rt);
    say(rt, "a file past the limit is too long", is_limited)?;
    let is_missing = files::is_fault(alloc, rt, "none.txt");
    say(rt, "a file that isn't there is a fault", is_missing)?;
    let is_unread = files::is_fault(alloc, rt, "/");
    say(rt, "a folder is a fault", is_unread)
}

/// Says what a door was asked.
fn say_asked(rt: HostRuntime, asked: Asked) -> io::Result<()> {
    say(
        rt,
        "octets go both ways over TCP, up to the end",
        asked.is_carried,
    )?;
    say(
        rt,
        "what waits to be written goes out at the close",
        asked.is_late,
    )?;
    say(
        rt,
        "a listener serves two ports, and no second door",
        asked.is_shared,
    )
}

/// Says the same of connections.
fn say_connections<R>(rt: HostRuntime, host: R) -> io::Result<()>
where
    R: Net<Stream = TcpStream, Listener = TcpListener> + SystemTimeSource + Wait + Copy + Drop,
{
    match connections::ask(host, rt.alloc()) {
        Some(asked) => say_asked(rt, asked)?,
        None => println!(rt; "no port of this machine can be listened at")?,
    }
    let have_failed = connections::ports_fail(host);
    say(rt, "a port without an address fails", have_failed)?;
    let has_failed = link_fails(rt);
    say(
        rt,
        "a link without an address fails at its first use",
        has_failed,
    )
}

/// Asks each device once, and says what it did. The host is the runtime once more, which waits for connections.
pub fn say_devices<R>(rt: HostRuntime, host: R) -> io::Result<()>
where
    R: Net<Stream = TcpStream, Listener = TcpListener> + SystemTimeSource + Wait + Copy + Drop,
{
    let is_held = HeldStreams::hold(&rt).is_some();
    say(rt, "no standard stream is left closed", is_held)?;
    let differ = draws_differ(&rt);
    say(rt, "random octets differ from draw to draw", differ)?;
    say(rt, "the clock is later than 2020", is_later(rt))?;
    let is_one = is_one_link(rt.stdin(), rt.stdout());
    say(rt, "standard input and output are one link", is_one)?;
    say(rt, "standard error takes octets", takes_octets(rt.stderr()))?;
    say_files(rt)?;
    say_connections(rt, host)
}
