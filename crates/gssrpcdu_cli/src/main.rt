//! The program over datagrams: makes the real devices and the mechanisms' objects, and runs a server or a client over them.
#![tactic(auto)]

ghost use Rattle.std.specs.Prelude.{map};
ghost use Rattle.init_ends.specs.Arming.{AreStandard};

use datagram_command::run_datagrams;
use datagram_options::address_of;
use init_ends::standard_mechs;
use mech_objects::{MadeMechs, Mech, make_mechs};
use posts_program::{Posts, PostsWords};
use rpc_program::Spelled;
use sec_base::{Clock as Moments, Text};
use std::net::Net;
use std::process::ExitCode;
use system_devices::{
    FileShelf, HeldStreams, RandDraw, StdSink, SystemClock, WordsRefusal, command_line,
};
use udp_post::UdpPost;

/// The status where the words can't be read, or the random source or the empty file isn't there.
const NOT_STARTED: u8 = 1;

/// How many octets of a result are kept for a call that is sent again: those of a name, as WHOAMI spells it. ECHO's are its arguments, which
/// come again, and the others are a word.
const MOST_KEPT: u32 = 260;

/// The status at want of memory.
const OUT_OF_MEMORY: u8 = 8;

fn main(rt: HostRuntime) -> ExitCode {
    let Some(held) = HeldStreams::hold(&rt) else {
        return ExitCode::from(NOT_STARTED);
    };
    let status = status(rt, &rt);
    drop(held);
    ExitCode::from(status)
}

/// The socket that the words ask for: a server's at their address, or a client's that asks there. What isn't in a command needs none.
fn post_of<R: Net>(net: &R, words: &[Text]) -> UdpPost {
    let address = address_of(words).unwrap_or("");
    match words {
        [first, ..] if first.as_str() == "serve" => UdpPost::serve(net, address),
        _ => UdpPost::ask(net, address),
    }
}

/// Runs the command with these words and objects, over a socket.
fn run_over<R: Net>(
    rt: HostRuntime,
    net: &R,
    words: &[Text],
    mechs: Vec<Box<dyn Mech>>,
    draw: &mut RandDraw,
) -> u8
    requires { AreStandard (map meaning mechs.items) }
{
    let mut post = post_of(net, words);
    let mut shelf = FileShelf::new(rt);
    let mut clock = SystemClock::new(rt);
    let mut out = StdSink::output(rt.stdout());
    let mut err = StdSink::error(rt.stderr());
    let start = SystemClock::new(rt).now();
    run_datagrams(
        rt.alloc(),
        words,
        &mut shelf,
        &mut post,
        &mut clock,
        draw,
        Posts::new(),
        Spelled { by: PostsWords },
        MOST_KEPT,
        start,
        mechs,
        &mut out,
        &mut err,
    )
    .status()
}

/// The same with the objects of Kerberos under both its names and of SCRAM, which are made ahead of the devices.
fn run<R: Net>(rt: HostRuntime, net: &R, words: &[Text]) -> u8 {
    let Ok(mut draw) = RandDraw::new(&rt) else {
        return NOT_STARTED;
    };
    let alloc = rt.alloc();
    let Some(made) = make_mechs(alloc) else {
        return OUT_OF_MEMORY;
    };
    let MadeMechs {
        kerberos,
        microsoft,
        scram,
    } = made;
    match standard_mechs(alloc, kerberos, microsoft, scram) {
        Ok(mechs) => run_over(rt, net, words, mechs, &mut draw),
        Err(_) => OUT_OF_MEMORY,
    }
}

/// Runs the command with the words of the command line. The host is the runtime once more, which opens sockets.
fn status<R: Net>(rt: HostRuntime, net: &R) -> u8 {
    match command_line(&rt) {
        Ok(words) => run(rt, net, words.as_slice()),
        Err(WordsRefusal::NotText) => NOT_STARTED,
        Err(WordsRefusal::NoMemory) => OUT_OF_MEMORY,
    }
}
