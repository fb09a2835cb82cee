//! The server's program: makes the real devices and runs the server over them, or a drill, which needs none but the standard streams.
#![tactic(auto)]

ghost use Rattle.std.specs.Prelude.{◌≡◌, Some, map};
ghost use Rattle.drill_plan.specs.Sessions.{blank_objects, session_count};
ghost use Rattle.drill_plan.specs.Words.{plan_of};

use drill_command::run_drill;
use drill_plan::{Plan, add_object, drill_sessions, is_drill};
use mech_objects::{KerberosMech, Mech, ScramMech};
use posts_program::{Posts, PostsWords};
use sec_base::Text;
use service_kit::{Spelled, hold_memory, serve};
use std::alloc::AllocError;
use std::net::{Net, TcpListener, TcpStream};
use std::process::ExitCode;
use std::rt::{Clock, Files};
use std::sync::Wait;
use std::thread::Threads;
use system_devices::{HeldStreams, StdSink, WordsRefusal as LineRefusal, command_line};

/// The status where the words can't be read, or the standard streams aren't there.
const NOT_STARTED: u8 = 1;

/// The status at want of memory.
const OUT_OF_MEMORY: u8 = 8;

fn main(rt: HostRuntime) -> ExitCode {
    hold_memory(rt);
    let Some(held) = HeldStreams::hold(&rt) else {
        return ExitCode::from(NOT_STARTED);
    };
    let status = status(rt, rt);
    drop(held);
    ExitCode::from(status)
}

/// Holds a drill by these objects, and prints what it comes to.
fn drill_by(rt: HostRuntime, words: &[Text], mechs: Vec<Box<dyn Mech>>) -> u8
    requires { (plan : Plan) → plan_of words.now ≡ Some plan
        → map meaning mechs.items ≡ blank_objects (session_count plan.calls) }
{
    let mut out = StdSink::output(rt.stdout());
    let mut err = StdSink::error(rt.stderr());
    run_drill(rt.alloc(), words, mechs, &mut out, &mut err).status
}

/// The status of a drill, for which a blank object is made for each of its sessions; an error at want of memory for them.
fn held(rt: HostRuntime, words: &[Text]) -> Result<u8, AllocError> {
    let alloc = rt.alloc();
    let mut mechs: Vec<Box<dyn Mech>> = Vec::new(alloc);
    for number in 0..drill_sessions(words).unwrap_or(0) {
        if number % 2 == 0 {
            add_object(
                &mut mechs,
                number,
                Box::new(alloc, KerberosMech::new(alloc))?,
            )?;
        } else {
            add_object(&mut mechs, number, Box::new(alloc, ScramMech::new(alloc))?)?;
        }
    }
    Ok(drill_by(rt, words, mechs))
}

/// Holds a drill, and prints what it comes to.
fn drill(rt: HostRuntime, words: &[Text]) -> u8 {
    held(rt, words).unwrap_or(OUT_OF_MEMORY)
}

/// Holds a drill, or runs the server over the devices that the words ask for. The host is the runtime once more, which makes threads and waits for them.
fn status<
    R: Net<Stream = TcpStream, Listener = TcpListener>
        + Files
        + Clock
        + Threads
        + Wait
        + Send
        + Sync
        + Copy
        + Drop,
>(rt: HostRuntime, host: R) -> u8 {
    let words = match command_line(&rt) {
        Ok(words) => words,
        Err(LineRefusal::NotText) => return NOT_STARTED,
        Err(LineRefusal::NoMemory) => return OUT_OF_MEMORY,
    };
    if is_drill(words.as_slice()) {
        return drill(rt, words.as_slice());
    }
    serve(
        rt,
        host,
        words.as_slice(),
        Posts::new(),
        || Spelled { by: PostsWords },
    )
    .status
}
