//! A program that is served over the system's devices.

ghost use Rattle.std.specs.Prelude.{◌≡◌, ◌≢◌, Ok, Some};
ghost use Rattle.std.specs.List.{AllByRecursion};
ghost use Rattle.server_desks.specs.Desks.{IsFresh};
ghost use Rattle.server_options.specs.Control.{control_of};
ghost use Rattle.service_kit.specs.Acted.{Acted, entries_of};
ghost use Rattle.service_kit.specs.Ended.{EndsAs, status_at};

use crate::devices::{SystemDesk, desk, desks_at, journal_disk, staff_of};
use crate::running::{Ending, Lack, Ran, not_begun, run_program, unbegun};
use rpc_program::{Program, Speller};
use sec_base::{Clock as Moments, Port, Text};
use server_options::{Order, address_of, answer_to, order_of, say_unbound};
use std::net::{Net, TcpListener, TcpStream};
use std::rt::{Clock, Files};
use std::sync::Wait;
use std::thread::{Threads, join};
use system_devices::{
    BufferedPort, ControlDoor, ControlPeer, FileShelf, RandDraw, StdSink, StdioPort, SystemClock,
    TcpDoor, TcpPort,
};

/// Serves a program over desks, each on a thread of its own where one can be made.
fn run<
    R: Threads + Wait + Sync,
    P: Port + Drop + Send,
    V: Program<Ticket = T> + Drop + Send,
    T: Send + Sync,
    W: Speller<T> + Drop + Send,
>(rt: HostRuntime, threads: &R, words: &[Text], desks: Vec<SystemDesk<P, W>>, program: V) -> Ran<V>
where
    P::Link: Drop + Send,
    requires fresh { AllByRecursion IsFresh desks.items }
    requires says { W.says ≡ V.says }
    ensures acted { Acted V.Program program result.program (entries_of result.log) }
    ensures ended { EndsAs words.now result.ending result.log }
    ensures status { result.status ≢ 6 → result.status ≢ 8
        → result.status ≡ status_at result.ending }
{
    let mut desks = desks;
    let Ok(mut disk) = journal_disk(rt, words) else {
        return not_begun(Lack::Memory, program);
    };
    let mut shelf = FileShelf::new(rt);
    let mut out = StdSink::output(rt.stdout());
    let mut err = StdSink::error(rt.stderr());
    let start = SystemClock::new(rt).now();
    run_program(
        threads,
        rt.alloc(),
        words,
        &mut shelf,
        &mut disk,
        &mut desks,
        program,
        start,
        &mut out,
        &mut err,
    )
}

/// Serves a program over standard input and output.
fn over_standard_streams<
    R: Threads + Wait + Sync,
    V: Program<Ticket = T> + Drop + Send,
    T: Send + Sync,
    W: Speller<T> + Drop + Send,
>(rt: HostRuntime, threads: &R, words: &[Text], program: V, speller: W) -> Ran<V>
    requires says { W.says ≡ V.says }
    ensures acted { Acted V.Program program result.program (entries_of result.log) }
    ensures ended { EndsAs words.now result.ending result.log }
    ensures status { result.status ≢ 6 → result.status ≢ 8
        → result.status ≡ status_at result.ending }
{
    let Ok(draw) = RandDraw::new(&rt) else {
        return not_begun(Lack::Draws, program);
    };
    let Ok(mut desks) = Vec::with_capacity(rt.alloc(), 1) else {
        return not_begun(Lack::Memory, program);
    };
    let port = BufferedPort::new(rt.alloc(), StdioPort::new(rt.stdin(), rt.stdout()));
    desks.push_reserved(desk(rt, port, draw, speller));
    run(rt, threads, words, desks, program)
}

/// Answers those who ask at the control address, one after the other, and stops the listener where one asks for that, who is given; None
/// where the run ended before.
fn watch<R>(
    control: &ControlDoor<'_, HostRuntime>,
    door: &TcpDoor<'_, R>,
) -> Option<ControlPeer<HostRuntime>>
where
    R: Net<Stream = TcpStream, Listener = TcpListener> + Wait + Drop,
{
    for _ in 0..u64::MAX {
        let mut peer = control.next()?;
        match order_of(&peer.line()) {
            Order::Stop => {
                door.stop();
                return Some(peer);
            }
            Order::Unknown => peer.answer(answer_to(Order::Unknown)),
        }
    }
    None
}

/// Serves a program over these desks until the run ends by itself, or is stopped at the control address. Who asked for the stop is
/// answered once the run has ended. Where no thread can be made, the run goes on without that address.
fn run_controlled<
    R: Net<Stream = TcpStream, Listener = TcpListener>
        + Files
        + Clock
        + Threads
        + Wait
        + Send
        + Sync
        + Copy
        + Drop,
    V: Program<Ticket = T> + Drop + Send,
    T: Send + Sync,
    W: Speller<T> + Drop + Send,
>(
    rt: HostRuntime,
    host: R,
    words: &[Text],
    desks: Vec<SystemDesk<BufferedPort<TcpPort<'_, R>>, W>>,
    door: &TcpDoor<'_, R>,
    path: &str,
    program: V,
) -> Ran<V>
    requires fresh { AllByRecursion IsFresh desks.items }
    requires says { W.says ≡ V.says }
    requires named { control_of words.now ≡ Ok (Some path.now) }
    ensures acted { Acted V.Program program result.program (entries_of result.log) }
    ensures ended { EndsAs words.now result.ending result.log }
    ensures status { result.status ≢ 6 → result.status ≢ 8
        → result.status ≡ status_at result.ending }
{
    let Some(control) = ControlDoor::bind(&host, rt, path) else {
        let mut err = StdSink::error(rt.stderr());
        let status = say_unbound(rt.alloc(), &mut err, path);
        return unbegun(Ending::NoControl, status, program);
    };
    let (asker, ran) = join(
        &host,
        || watch(&control, door),
        || -> Ran<V>
            requires fresh { AllByRecursion IsFresh desks.items }
            requires says { W.says ≡ V.says }
            ensures acted { Acted V.Program program result.program (entries_of result.log) }
            ensures ended { EndsAs words.entry.now result.ending result.log }
            ensures status { result.status ≢ 6 → result.status ≢ 8
                → result.status ≡ status_at result.ending }
        {
            let ran = run(rt, &host, words, desks, program);
            control.close();
            ran
        },
    );
    if let Some(asker) = asker {
        asker.answer(answer_to(Order::Stop));
    }
    ran
}

/// Serves a program over the desks that the words ask for at a TCP listener, which listens once the files were read.
fn over_listener<
    R: Net<Stream = TcpStream, Listener = TcpListener>
        + Files
        + Clock
        + Threads
        + Wait
        + Send
        + Sync
        + Copy
        + Drop,
    V: Program<Ticket = T> + Drop + Send,
    T: Send + Sync,
    W: Speller<T> + Drop + Send,
    F: Fn() -> W,
>(rt: HostRuntime, host: R, words: &[Text], address: &str, program: V, hire: F) -> Ran<V>
    requires says { W.says ≡ V.says }
    requires hire { F.IsAlwaysCallable hire }
    ensures acted { Acted V.Program program result.program (entries_of result.log) }
    ensures ended { EndsAs words.now result.ending result.log }
    ensures status { result.status ≢ 6 → result.status ≢ 8
        → result.status ≡ status_at result.ending }
{
    let Some(staff) = staff_of(rt, words) else {
        return not_begun(Lack::Memory, program);
    };
    let door = TcpDoor::at(host, address, staff.connections, staff.idle);
    let desks = match desks_at(rt, &door, staff.desks, hire) {
        Ok(desks) => desks,
        Err(lack) => return not_begun(lack, program),
    };
    match staff.control {
        Some(path) => run_controlled(rt, host, words, desks, &door, path.as_str(), program),
        None => run(rt, &host, words, desks, program),
    }
}

/// Serves a program by the words of `gssrpcd`, over standard input and output or at a TCP listener, until the run ends, and says what became
/// of it: the program entered each call that the log has, once, in the log's order, and no other.
///
/// `host` is the runtime once more, which makes threads and waits for them. `hire` makes a desk's speller, which says of the program what it
/// says of itself.
pub fn serve<
    R: Net<Stream = TcpStream, Listener = TcpListener>
        + Files
        + Clock
        + Threads
        + Wait
        + Send
        + Sync
        + Copy
        + Drop,
    V: Program<Ticket = T> + Drop + Send,
    T: Send + Sync,
    W: Speller<T> + Drop + Send,
    F: Fn() -> W,
>(rt: HostRuntime, host: R, words: &[Text], program: V, hire: F) -> Ran<V>
    requires says { W.says ≡ V.says }
    requires hire { F.IsAlwaysCallable hire }
    // The program entered each call of the log, once and in its order, and no other.
    ensures acted { Acted V.Program program result.program (entries_of result.log) }
    // How the run ended is said by its words: one that was made was refused by its usage exactly where they aren't in the command, and its log was
    // kept under their limits.
    ensures ended { EndsAs words.now result.ending result.log }
    // The status is that of the ending, unless its line couldn't be written, or there was no memory for it.
    ensures status { result.status ≢ 6 → result.status ≢ 8
        → result.status ≡ status_at result.ending }
{
    match address_of(words) {
        None | Some("stdio") => over_standard_streams(rt, &host, words, program, hire()),
        Some(address) => over_listener(rt, host, words, address, program, hire),
    }
}
