//! The system's devices, as a server takes them.

ghost use Rattle.std.specs.Prelude.{◌≡◌, IfOk, IfSome, true, is_some, vec_len};
ghost use Rattle.std.specs.List.{AllByRecursion};
ghost use Rattle.server_command.specs.Runs.{names_journal};
ghost use Rattle.server_desks.specs.Desks.{IsFresh};
ghost use Rattle.server_options.specs.Options.{options_of};
ghost use Rattle.service_kit.specs.Staff.{IsStaff};

use crate::running::Lack;
use gss_server::KeepNothing;
use sec_base::{Port, Text};
use server_desks::{Desk, run_limit};
use server_options::{WordsRefusal, read_control, read_options};
use std::alloc::AllocError;
use std::net::{Net, TcpListener, TcpStream};
use std::rt::Clock;
use std::sync::Wait;
use system_devices::{BufferedPort, FileDisk, RandDraw, SystemClock, TcpDoor, TcpPort};

/// The octets of a block that the C library takes from the system by itself, and gives back by itself.
const BLOCK: usize = 8 * 1024 * 1024;

/// Has the process keep what its desks let go, for the next record. When a block is given back that was taken by itself, the C library
/// takes later ones of at most its size from what it holds, and holds up to twice as much (mallopt(3), M_MMAP_THRESHOLD); without that a
/// long record's memory is given back after each call, and comes anew, page by page. Where there is no such block, nothing changes.
pub fn hold_memory(rt: HostRuntime) {
    let block: Result<Vec<u8>, AllocError> = Vec::with_capacity(rt.alloc(), BLOCK);
    drop(block);
}

/// A desk with the system's clock, random octets and a speller of its own. It keeps nothing of the answers, and nothing of a connection that
/// ended.
pub(crate) type SystemDesk<P, W> = Desk<
    P,
    SystemClock<HostRuntime>,
    RandDraw,
    KeepNothing,
    KeepNothing,
    W,
>;

/// A desk over a port, with these random octets and this speller.
pub(crate) fn desk<P: Port + Drop, W: Drop>(
    rt: HostRuntime,
    port: P,
    draw: RandDraw,
    speller: W,
) -> SystemDesk<P, W>
    ensures { IsFresh result }
{
    Desk::new(
        port,
        SystemClock::new(rt),
        draw,
        KeepNothing,
        KeepNothing,
        speller,
    )
}

/// The disk of the journal that the words name, none where they name none; an error at want of memory.
pub(crate) fn journal_disk(rt: HostRuntime, words: &[Text]) -> Result<Option<FileDisk>, AllocError>
    ensures { IfOk result (λ disk. names_journal (options_of words.now) ≡ true
        → is_some disk ≡ true) }
{
    match read_options(rt.alloc(), words) {
        Ok(options) => match &options.files.journal {
            None => Ok(None),
            Some(name) => Ok(Some(FileDisk::new(rt, rt.alloc(), name.as_str())?)),
        },
        Err(WordsRefusal::Usage) => Ok(None),
        Err(WordsRefusal::NoMemory) => Err(AllocError),
    }
}

/// So many desks at a TCP listener, each with random octets and a speller of its own; or what wasn't to be had for them.
pub(crate) fn desks_at<'a, R, W: Drop, F: Fn() -> W>(
    rt: HostRuntime,
    door: &'a TcpDoor<'a, R>,
    count: u32,
    hire: F,
) -> Result<Vec<SystemDesk<BufferedPort<TcpPort<'a, R>>, W>>, Lack>
where
    R: Net<Stream = TcpStream, Listener = TcpListener> + Clock + Wait + Copy + Drop,
    requires { F.IsAlwaysCallable hire }
    ensures count { IfOk result (λ desks. vec_len desks ≡ count) }
    ensures fresh { IfOk result (λ desks. AllByRecursion IsFresh desks.items) }
{
    let Ok(mut desks) = Vec::with_capacity(rt.alloc(), count as usize) else {
        return Err(Lack::Memory);
    };
    for number in 0..count {
        let Ok(draw) = RandDraw::new(&rt) else {
            return Err(Lack::Draws);
        };
        let port = BufferedPort::new(rt.alloc(), TcpPort::at(door));
        desks.push_reserved(desk(rt, port, draw, hire()));
    }
    Ok(desks)
}

/// What the devices of a run have to know of its words.
#[derive(Drop)]
pub(crate) struct Staff {
    /// How many desks there are.
    pub desks: u32,
    /// How many connections all of them serve together.
    pub connections: u64,
    /// For how many seconds a connection may be silent.
    pub idle: u32,
    /// Where the run can be stopped.
    pub control: Option<Text>,
}

/// What words ask for that aren't in the command: their run says what they are before anything is served.
const UNSERVED: Staff = Staff {
    desks: 1,
    connections: 1,
    idle: 1,
    control: None,
};

/// What the words ask for of the devices; None at want of memory.
pub(crate) fn staff_of(rt: HostRuntime, words: &[Text]) -> Option<Staff>
    ensures { IfSome result (λ staff. IsStaff words.now staff.desks staff.connections staff.idle
        staff.control) }
{
    match read_options(rt.alloc(), words) {
        Ok(options) => Some(Staff {
            desks: options.desks,
            connections: run_limit(options.connections, options.desks as usize),
            idle: options.idle,
            control: read_control(rt.alloc(), words).ok()?,
        }),
        Err(WordsRefusal::Usage) => Some(UNSERVED),
        Err(WordsRefusal::NoMemory) => None,
    }
}
