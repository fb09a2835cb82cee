//! Makes files for examples and tests: a keytab of one key, a credential cache of one ticket, a line of a verifier file. It is no
//! substitute for a realm.
#![tactic(auto)]

use files_command::run_files;
use std::process::ExitCode;
use system_devices::{HeldStreams, RandDraw, StdSink, SystemClock, WordsRefusal, command_line};

/// The status where the words can't be read, or the random source or the empty file isn't there.
const NOT_STARTED: u8 = 1;

/// The status at want of memory.
const OUT_OF_MEMORY: u8 = 8;

fn main(rt: HostRuntime) -> ExitCode {
    let Some(held) = HeldStreams::hold(&rt) else {
        return ExitCode::from(NOT_STARTED);
    };
    let status = status(rt);
    drop(held);
    ExitCode::from(status)
}

/// Makes the file over the real devices.
fn status(rt: HostRuntime) -> u8 {
    let alloc = rt.alloc();
    let words = match command_line(&rt) {
        Ok(words) => words,
        Err(WordsRefusal::NotText) => return NOT_STARTED,
        Err(WordsRefusal::NoMemory) => return OUT_OF_MEMORY,
    };
    let Ok(mut draw) = RandDraw::new(&rt) else {
        return NOT_STARTED;
    };
    let mut out = StdSink::output(rt.stdout());
    let mut err = StdSink::error(rt.stderr());
    let mut clock = SystemClock::new(rt);
    let words = words.as_slice();
    run_files(alloc, words, &mut clock, &mut draw, &mut out, &mut err).status
}
