//! A service of one's own, and its client, over the kit alone: a register that callers read and write.
//!
//! Without words the client holds a session with the service over a link in memory. `serve WORD ..` serves by the words of `gssrpcd`, and
//! `call ADDRESS NUMBER` is the client over TCP.
#![tactic(auto)]

mod client;
mod register;

ghost use Rattle.service_kit.specs.Acted.{Acted, entries_of};

use client::{PASSWORD, USER, write_and_read};
use register::{Register, Words};
use service_kit::{
    MemDraw, Parting, Program, Ran, RandDraw, Spelled, Talk, Text, XdrReader, command_line, dial,
    link_in_memory, serve,
};
use std::io;
use std::net::{Net, TcpListener, TcpStream};
use std::process::ExitCode;
use std::rt::{Clock, Files};
use std::sync::Wait;
use std::thread::Threads;

/// Serves a register that holds 0, by these words. It ends as the calls of the log have it, each entered once and in the log's order, and
/// no other.
fn serve_register<
    H: Net<Stream = TcpStream, Listener = TcpListener>
        + Files
        + Clock
        + Threads
        + Wait
        + Send
        + Sync
        + Copy
        + Drop,
>(rt: HostRuntime, host: H, words: &[Text]) -> Ran<Register>
    ensures { Acted ⟦<Register as Program>⟧ (record { word = 0 }) result.program
        (entries_of result.log) }
{
    serve(
        rt,
        host,
        words,
        Register { word: 0 },
        || Spelled { by: Words },
    )
}

/// Says what the register held, and holds.
fn report(rt: &impl Print, talk: &Talk) -> io::Result<()> {
    for result in talk.results.as_slice() {
        if let Ok(word) = XdrReader::new(result.as_slice()).word() {
            println!(rt; "{word}")?;
        }
    }
    match talk.parting {
        Parting::Finished => Ok(()),
        _ => Err(io::Error::other("the session ended early")),
    }
}

/// The status of a session.
fn told(rt: &impl Print, talk: Option<Talk>) -> u8 {
    match talk {
        Some(talk) => {
            let told = report(rt, &talk);
            drop(talk);
            if told.is_ok() { 0 } else { 1 }
        }
        None => 1,
    }
}

/// A session over memory, whose random octets count from 0 on.
fn in_memory(rt: HostRuntime) -> u8 {
    let alloc = rt.alloc();
    let speller = Spelled { by: Words };
    let Ok(mut link) = link_in_memory(alloc, Register { word: 0 }, speller, USER, PASSWORD) else {
        return 1;
    };
    let mut draw = MemDraw::new(Vec::new(alloc));
    let talk = write_and_read(alloc, &mut link, &mut draw, 42);
    told(&rt, talk)
}

/// A session over TCP.
fn call(rt: HostRuntime, address: &str, number: &str) -> u8 {
    let (Ok(number), Ok(mut draw)) = (number.parse::<u32>(), RandDraw::new(&rt)) else {
        return 1;
    };
    let mut link = dial(rt, address);
    let talk = write_and_read(rt.alloc(), &mut link, &mut draw, number);
    told(&rt, talk)
}

/// What the words ask for.
fn run<
    H: Net<Stream = TcpStream, Listener = TcpListener>
        + Files
        + Clock
        + Threads
        + Wait
        + Send
        + Sync
        + Copy
        + Drop,
>(rt: HostRuntime, host: H, words: &[Text]) -> u8 {
    let Some((first, others)) = words.split_first() else {
        return in_memory(rt);
    };
    match first.as_str() {
        "serve" => serve_register(rt, host, others).status,
        "call" => match (others.first(), others.get(1)) {
            (Some(address), Some(number)) => call(rt, address.as_str(), number.as_str()),
            _ => 1,
        },
        _ => 1,
    }
}

fn main(rt: HostRuntime) -> ExitCode {
    match command_line(&rt) {
        Ok(words) => ExitCode::from(run(rt, rt, words.as_slice())),
        Err(_) => ExitCode::FAILURE,
    }
}
