//! The client's program: makes the real devices and the mechanisms' objects, and runs the client over them.
#![tactic(auto)]

ghost use Rattle.std.specs.Prelude.{map};
ghost use Rattle.init_ends.specs.Arming.{AreStandard};

use client_command::{address_of, end_link, run_client};
use init_ends::standard_mechs;
use mech_objects::{MadeMechs, Mech, make_mechs};
use sec_base::Text;
use std::process::ExitCode;
use system_devices::{
    Buffered, DialedLink, FileShelf, HeldStreams, RandDraw, StdSink, SystemClock, WordsRefusal,
    command_line,
};

/// The status where the words can't be read, or the random source or the empty file isn't there.
const NOT_STARTED: u8 = 1;

/// The status at want of memory.
const OUT_OF_MEMORY: u8 = 8;

fn main(rt: HostRuntime) -> ExitCode {
    let Some(held) = HeldStreams::hold(&rt) else {
        return ExitCode::from(NOT_STARTED);
    };
    let status = status(rt);
    drop(held);
    ExitCode::from(status)
}

/// Runs the client with these words and objects, over a connection to the address that the words name.
fn run_over(rt: HostRuntime, words: &[Text], mechs: Vec<Box<dyn Mech>>, draw: &mut RandDraw) -> u8
    requires { AreStandard (map meaning mechs.items) }
{
    let alloc = rt.alloc();
    // a command has an address, and what isn't one needs no connection
    let address = address_of(words).unwrap_or("");
    let mut link = Buffered::over(alloc, DialedLink::new(rt, address));
    let mut shelf = FileShelf::new(rt);
    let mut clock = SystemClock::new(rt);
    let mut out = StdSink::output(rt.stdout());
    let mut err = StdSink::error(rt.stderr());
    let run = run_client(
        alloc, words, &mut shelf, &mut link, &mut clock, draw, mechs, &mut out, &mut err,
    );
    end_link(alloc, run, &mut link, &mut err).status
}

/// The same with the objects of Kerberos under both its names and of SCRAM, which are made ahead of the devices.
fn run(rt: HostRuntime, words: &[Text]) -> u8 {
    let Ok(mut draw) = RandDraw::new(&rt) else {
        return NOT_STARTED;
    };
    let alloc = rt.alloc();
    let Some(made) = make_mechs(alloc) else {
        return OUT_OF_MEMORY;
    };
    let MadeMechs {
        kerberos,
        microsoft,
        scram,
    } = made;
    match standard_mechs(alloc, kerberos, microsoft, scram) {
        Ok(mechs) => run_over(rt, words, mechs, &mut draw),
        Err(_) => OUT_OF_MEMORY,
    }
}

/// Runs the client with the words of the command line.
fn status(rt: HostRuntime) -> u8 {
    match command_line(&rt) {
        Ok(words) => run(rt, words.as_slice()),
        Err(WordsRefusal::NotText) => NOT_STARTED,
        Err(WordsRefusal::NoMemory) => OUT_OF_MEMORY,
    }
}
