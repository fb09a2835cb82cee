//! A window of sequence numbers, by itself and in memory.
//!
//! Each call of a context has a number, and a server takes each number at most once (RFC 2203 section 5.3.3.1). It doesn't remember all
//! numbers: it keeps a window of the last few up to the greatest that it took, and drops what lies below.
#![tactic(auto)]

use seq_window::{GREATEST_NUMBER, Verdict, Window};
use std::alloc::AllocError;
use std::io;

/// How many numbers the window spans. The RFC calls it `seq_window`; a server tells it to the client when the context is created.
const WIDTH: u32 = 8;

/// The first calls, of which two changed places on the way.
const OUT_OF_ORDER: [u32; 4] = [1, 2, 4, 3];

/// The second call once more, as somebody between both ends could send it.
const REPLAYED: u32 = 2;

/// A call that is far ahead of the others: the window moves on, and now spans 5 to 12.
const AHEAD: u32 = 12;

/// The greatest number that lies below the window now, and the least in it.
const BELOW: u32 = AHEAD - WIDTH;

const LEAST: u32 = BELOW + 1;

/// The RFC's `MAXSEQ` is the greatest number of all.
const ABOVE: u32 = GREATEST_NUMBER + 1;

/// What a server does with a call, by the verdict on its number.
fn deed(verdict: Verdict) -> &'static str {
    match verdict {
        Verdict::Fresh => "fresh, so the call is taken",
        Verdict::Repeat => "a repeat, so the call is dropped without an answer",
        Verdict::Below { .. } => "below the window, so the call is dropped without an answer",
        Verdict::AboveMax => "above the maximum, so the caller is told to make a new context",
    }
}

/// Judges a number, and marks it only where it is fresh. A server does so last, after all other checks of a call.
fn take(rt: &impl Print, window: &mut Window, number: u32) -> io::Result<()> {
    let verdict = window.judge(number);
    if let Verdict::Fresh = verdict {
        window.mark(number);
    }
    println!(rt; "{number}: {}", deed(verdict))
}

/// Takes one number after the other.
fn take_all(rt: &impl Print, window: &mut Window) -> io::Result<()> {
    for number in OUT_OF_ORDER {
        take(rt, window, number)?;
    }
    take(rt, window, REPLAYED)?;
    take(rt, window, AHEAD)?;
    take(rt, window, BELOW)?;
    take(rt, window, LEAST)?;
    take(rt, window, ABOVE)?;
    println!(rt; "the greatest number taken: {}", window.last())
}

/// The next context that takes over a window begins with it cleared: a number of the last context is fresh again.
fn take_over(rt: &impl Print, window: &mut Window) -> io::Result<()> {
    window.clear();
    println!(rt; "cleared, for another context")?;
    take(rt, window, REPLAYED)
}

fn main(rt: HostRuntime) -> io::Result<()> {
    match Window::new(rt.alloc(), WIDTH) {
        Ok(mut window) => {
            take_all(&rt, &mut window)?;
            take_over(&rt, &mut window)
        }
        Err(_) => Err(io::Error::from(AllocError)),
    }
}
