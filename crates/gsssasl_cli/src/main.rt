//! The program that speaks SASL: makes the real devices and the mechanism's object, and runs a server or a client over them.
#![tactic(auto)]

ghost use Rattle.std.specs.Prelude.{map};
ghost use Rattle.sasl_command.specs.Runs.{IsBlank};

use cli_base::plain;
use mech_objects::{MadeMechs, Mech, make_mechs};
use sasl_command::{blank_mechs, end_link, run_sasl};
use sasl_options::{Names, RunEnd, Words, read_words, say_end};
use sec_base::{Port, Text};
use std::net::{Net, TcpListener, TcpStream};
use std::process::ExitCode;
use std::rt::Clock;
use std::sync::Wait;
use system_devices::{
    Buffered, BufferedPort, DialedLink, FileShelf, HeldStreams, RandDraw, StdSink, SystemClock,
    TcpDoor, TcpPort, WordsRefusal, command_line,
};

/// The status where the words can't be read, or the random source or the empty file isn't there.
const NOT_STARTED: u8 = 1;

/// The status where no connection can be accepted.
const LINK_FAULT: u8 = 5;

/// The status at want of memory.
const OUT_OF_MEMORY: u8 = 8;

/// For how many seconds a client may be silent.
const IDLE: u32 = 60;

fn main(rt: HostRuntime) -> ExitCode {
    let Some(held) = HeldStreams::hold(&rt) else {
        return ExitCode::from(NOT_STARTED);
    };
    let status = status(rt, rt);
    drop(held);
    ExitCode::from(status)
}

/// Runs a client, or says that the words aren't in the command.
fn run_ask(rt: HostRuntime, words: &[Text], mechs: Vec<Box<dyn Mech>>, draw: &mut RandDraw) -> u8
    requires { IsBlank (map meaning mechs.items) }
{
    let alloc = rt.alloc();
    let address = plain(words, 1).unwrap_or("");
    let mut link = Buffered::over(alloc, DialedLink::new(rt, address));
    let mut shelf = FileShelf::new(rt);
    let mut clock = SystemClock::new(rt);
    let mut out = StdSink::output(rt.stdout());
    let mut err = StdSink::error(rt.stderr());
    let run = run_sasl(
        alloc, words, &mut shelf, &mut link, &mut clock, draw, mechs, &mut out, &mut err,
    );
    end_link(alloc, run, &mut link, &mut err).status
}

/// Says that no connection can be accepted.
fn say_unserved(rt: HostRuntime) -> u8 {
    let mut err = StdSink::error(rt.stderr());
    let names = Names {
        file: "",
        principal: "",
    };
    say_end(rt.alloc(), &mut err, &names, RunEnd::LinkFault)
}

/// Serves the first client that connects.
fn run_serve<R>(
    rt: HostRuntime,
    host: R,
    words: &[Text],
    mechs: Vec<Box<dyn Mech>>,
    draw: &mut RandDraw,
) -> u8
where
    R: Net<Stream = TcpStream, Listener = TcpListener> + Clock + Wait + Copy + Drop,
    requires { IsBlank (map meaning mechs.items) }
{
    let alloc = rt.alloc();
    let address = plain(words, 1).unwrap_or("");
    let door = TcpDoor::at(host, address, 1, IDLE);
    let mut port = BufferedPort::new(alloc, TcpPort::at(&door));
    let mut link = match port.accept() {
        Ok(Some(link)) => link,
        _ => {
            drop(mechs);
            return say_unserved(rt);
        }
    };
    let mut shelf = FileShelf::new(rt);
    let mut clock = SystemClock::new(rt);
    let mut out = StdSink::output(rt.stdout());
    let mut err = StdSink::error(rt.stderr());
    let run = run_sasl(
        alloc, words, &mut shelf, &mut link, &mut clock, draw, mechs, &mut out, &mut err,
    );
    end_link(alloc, run, &mut link, &mut err).status
}

/// The same by the words: a server's are served, and all others go to the client.
fn run_by<R>(rt: HostRuntime, host: R, words: &[Text], mechs: Vec<Box<dyn Mech>>) -> u8
where
    R: Net<Stream = TcpStream, Listener = TcpListener> + Clock + Wait + Copy + Drop,
    requires { IsBlank (map meaning mechs.items) }
{
    let Ok(mut draw) = RandDraw::new(&rt) else {
        drop(mechs);
        return NOT_STARTED;
    };
    match read_words(rt.alloc(), words) {
        Ok(Words::Serve(_)) => run_serve(rt, host, words, mechs, &mut draw),
        _ => run_ask(rt, words, mechs, &mut draw),
    }
}

/// The same with the object of Kerberos, which is made ahead of the devices.
fn run<R>(rt: HostRuntime, host: R, words: &[Text]) -> u8
where
    R: Net<Stream = TcpStream, Listener = TcpListener> + Clock + Wait + Copy + Drop,
{
    let alloc = rt.alloc();
    let Some(made) = make_mechs(alloc) else {
        return OUT_OF_MEMORY;
    };
    let MadeMechs {
        kerberos,
        microsoft,
        scram,
    } = made;
    drop(microsoft);
    drop(scram);
    match blank_mechs(alloc, kerberos) {
        Ok(mechs) => run_by(rt, host, words, mechs),
        Err(_) => OUT_OF_MEMORY,
    }
}

/// Runs with the words of the command line. The host is the runtime once more, which listens and waits.
fn status<R>(rt: HostRuntime, host: R) -> u8
where
    R: Net<Stream = TcpStream, Listener = TcpListener> + Clock + Wait + Copy + Drop,
{
    match command_line(&rt) {
        Ok(words) => run(rt, host, words.as_slice()),
        Err(WordsRefusal::NotText) => NOT_STARTED,
        Err(WordsRefusal::NoMemory) => OUT_OF_MEMORY,
    }
}
