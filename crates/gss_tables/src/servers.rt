//! A run of the server over two desks in memory, side by side.

ghost use Rattle.std.specs.Prelude.{◌≡◌, true, false, is_some, IfSome};
ghost use Rattle.sec_base.specs.MemPort.{none_closed};
ghost use Rattle.std.specs.List.{AllByRecursion};
ghost use Rattle.server_desks.specs.Desks.{IsFresh};

use crate::served::Words;
use gss_server::{KeepAll, KeepReceipts, Served};
use posts_program::{Posts, PostsWords};
use replay_journal::MemDisk;
use rpc_program::Spelled;
use sec_base::{Link, MemClock, MemDraw, MemLink, MemPort, MemShelf, Moment, Text};
use server_command::run_server;
use server_desks::Desk;
use std::alloc::Global;
use std::sync::Wait;
use std::thread::Threads;
use table_rows::{Cells, Said};
use table_setting::{Devices, Files, numbers, words};

/// A desk in memory, which keeps the links that it served.
pub type MemDesk = Desk<
    MemPort<MemLink>,
    MemClock,
    MemDraw,
    KeepReceipts,
    KeepAll<Served<MemLink>>,
    Words,
>;

/// One link; none where there is no memory for it.
fn links(alloc: Global, link: MemLink) -> Vec<MemLink>
    requires { ⟦<MemLink as Link>⟧.closed link ≡ false }
    ensures { none_closed (⟦<MemLink as Link>⟧.closed) result.items ≡ true }
{
    let mut links = Vec::new(alloc);
    match links.push(link) {
        Ok(()) => links,
        Err(_) => Vec::new(alloc),
    }
}

/// A desk over a port with one link; the calls of these numbers fail of its port.
pub fn desk(alloc: Global, link: MemLink, port: Vec<u64>) -> MemDesk
    requires { ⟦<MemLink as Link>⟧.closed link ≡ false }
    ensures { IsFresh result }
{
    Desk::new(
        MemPort::new(links(alloc, link), port),
        MemClock::new(Vec::new(alloc)),
        MemDraw::new(Vec::new(alloc)),
        KeepReceipts::new(alloc),
        KeepAll::new(alloc),
        Spelled { by: PostsWords },
    )
}

/// Two desks with a link each; the calls of these numbers fail of the second one's port. None where there is no memory for them.
fn desks(alloc: Global, first: MemLink, second: MemLink, port: Vec<u64>) -> Option<Vec<MemDesk>>
    requires first { ⟦<MemLink as Link>⟧.closed first ≡ false }
    requires second { ⟦<MemLink as Link>⟧.closed second ≡ false }
    ensures { IfSome result (λ desks. AllByRecursion IsFresh desks.items) }
{
    let first = desk(alloc, first, Vec::new(alloc));
    let second = desk(alloc, second, port);
    match Vec::from_array(alloc, [first, second]) {
        Ok(desks) => Some(desks),
        Err(_) => None,
    }
}

/// The first of them alone.
fn one_desk(alloc: Global, first: MemLink) -> Option<Vec<MemDesk>>
    requires { ⟦<MemLink as Link>⟧.closed first ≡ false }
    ensures { IfSome result (λ desks. AllByRecursion IsFresh desks.items) }
{
    let first = desk(alloc, first, Vec::new(alloc));
    match Vec::from_array(alloc, [first]) {
        Ok(desks) => Some(desks),
        Err(_) => None,
    }
}

/// Two desks, or the first alone where there is no second link.
fn desks_by(
    alloc: Global,
    first: MemLink,
    second: Option<MemLink>,
    port: Vec<u64>,
) -> Option<Vec<MemDesk>>
    requires first { ⟦<MemLink as Link>⟧.closed first ≡ false }
    requires second { IfSome second (λ link. ⟦<MemLink as Link>⟧.closed link ≡ false) }
    ensures { IfSome result (λ desks. AllByRecursion IsFresh desks.items) }
{
    match second {
        Some(second) => desks(alloc, first, second, port),
        None => one_desk(alloc, first),
    }
}

/// A disk in memory that holds nothing, and fails at the calls of these numbers.
fn disk_in_memory(alloc: Global, failing: Vec<u64>) -> Option<MemDisk> {
    MemDisk::new(alloc, Vec::new(alloc), failing).ok()
}

/// Says the status of a run with these words over desks, with a disk, and what it wrote on both streams.
fn run<R: Threads + Wait + Sync>(
    rt: &R,
    alloc: Global,
    words: &[Text],
    shelf: &mut MemShelf,
    disk: &mut Option<MemDisk>,
    desks: &mut Vec<MemDesk>,
    devices: &mut Devices,
    said: &mut Said,
)
    requires fresh { AllByRecursion IsFresh desks.old.items }
    requires disk { is_some disk.old ≡ true }
    ensures disk { is_some disk.new ≡ true }
{
    let Devices { out, err, .. } = devices;
    let end = run_server(
        rt,
        alloc,
        words,
        shelf,
        disk,
        desks,
        Posts::new(),
        Moment::start(),
        out,
        err,
    );
    said.number(end.status as u64);
    devices.say(said);
}

/// By the cells of its words, the stream, and the numbers of the calls of the second port and of standard error that fail, what a run says.
pub fn answer<R: Threads + Wait + Sync>(
    rt: &R,
    files: &Files,
    cells: &mut Cells<'_>,
    said: &mut Said,
) {
    let alloc = cells.alloc();
    let words = words(cells);
    let stream = cells.word();
    let first = files.link(cells, stream, Vec::new(alloc));
    let second = files.link(cells, stream, Vec::new(alloc));
    let (port, sink) = (numbers(cells), numbers(cells));
    let mut shelf = files.shelf(cells, Vec::new(alloc));
    let mut devices = Devices::new(alloc, Moment::start(), Vec::new(alloc), sink);
    let Some(disk) = disk_in_memory(alloc, Vec::new(alloc)) else {
        return said.starve();
    };
    match desks(alloc, first, second, port) {
        Some(mut desks) => run(
            rt,
            alloc,
            words.as_slice(),
            &mut shelf,
            &mut Some(disk),
            &mut desks,
            &mut devices,
            said,
        ),
        None => said.starve(),
    }
}

/// Says what was written on each link that the desks served.
fn say_written(desks: &[MemDesk], said: &mut Said) {
    for desk in desks {
        for served in desk.links.all.iter() {
            said.octets(served.link.written());
        }
    }
}

/// The link of the second desk by its stream's cell; `none` where there is one desk alone.
fn second_link(files: &Files, cells: &mut Cells<'_>, cell: &str) -> Option<MemLink>
    ensures { IfSome result (λ link. ⟦<MemLink as Link>⟧.closed link ≡ false) }
{
    if cell == "none" {
        return None;
    }
    let alloc = cells.alloc();
    Some(files.link(cells, cell, Vec::new(alloc)))
}

/// By the cells of its words, the stream of each desk, and the numbers of the calls of the first link, the second port, the shelf and standard
/// error that fail, what a run says, and then what is written on each link.
pub fn answer_failing<R: Threads + Wait + Sync>(
    rt: &R,
    files: &Files,
    cells: &mut Cells<'_>,
    said: &mut Said,
) {
    let alloc = cells.alloc();
    let words = words(cells);
    let [first, second] = [cells.word(), cells.word()];
    let (link, port) = (numbers(cells), numbers(cells));
    let first = files.link(cells, first, link);
    let second = second_link(files, cells, second);
    let (shelf, sink) = (numbers(cells), numbers(cells));
    let mut shelf = files.shelf(cells, shelf);
    let mut devices = Devices::new(alloc, Moment::start(), Vec::new(alloc), sink);
    let Some(disk) = disk_in_memory(alloc, Vec::new(alloc)) else {
        return said.starve();
    };
    match desks_by(alloc, first, second, port) {
        Some(mut desks) => {
            run(
                rt,
                alloc,
                words.as_slice(),
                &mut shelf,
                &mut Some(disk),
                &mut desks,
                &mut devices,
                said,
            );
            say_written(desks.as_slice(), said);
        }
        None => said.starve(),
    }
}

/// Says what a run with these words over two desks of a stream each comes to, with a disk, and then what is written on each link.
fn run_once<R: Threads + Wait + Sync>(
    rt: &R,
    files: &Files,
    cells: &mut Cells<'_>,
    words: &[Text],
    streams: [&str; 2],
    disk: &mut Option<MemDisk>,
    said: &mut Said,
)
    requires disk { is_some disk.old ≡ true }
    ensures disk { is_some disk.new ≡ true }
{
    let alloc = cells.alloc();
    let [first, second] = streams;
    let first = files.link(cells, first, Vec::new(alloc));
    let second = files.link(cells, second, Vec::new(alloc));
    let mut shelf = files.shelf(cells, Vec::new(alloc));
    let mut devices = Devices::new(alloc, Moment::start(), Vec::new(alloc), Vec::new(alloc));
    match desks(alloc, first, second, Vec::new(alloc)) {
        Some(mut desks) => {
            run(
                rt,
                alloc,
                words,
                &mut shelf,
                disk,
                &mut desks,
                &mut devices,
                said,
            );
            say_written(desks.as_slice(), said);
        }
        None => said.starve(),
    }
}

/// By the cells of its words, the stream of each desk, and the numbers of the calls of the disk that fail, what a run says and writes on each link,
/// and then what the next one does with the same words, streams and disk.
pub fn answer_again<R: Threads + Wait + Sync>(
    rt: &R,
    files: &Files,
    cells: &mut Cells<'_>,
    said: &mut Said,
) {
    let words = words(cells);
    let streams = [cells.word(), cells.word()];
    let failing = numbers(cells);
    let Some(disk) = disk_in_memory(cells.alloc(), failing) else {
        return said.starve();
    };
    let mut disk = Some(disk);
    run_once(rt, files, cells, words.as_slice(), streams, &mut disk, said);
    run_once(rt, files, cells, words.as_slice(), streams, &mut disk, said);
}
