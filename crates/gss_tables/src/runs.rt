//! A run of the client over devices in memory.

ghost use Rattle.std.specs.Prelude.{map};
ghost use Rattle.init_ends.specs.Arming.{AreStandard};

use client_command::run_client;
use mech_objects::Mech;
use sec_base::{LoadRefusal, MemLink, Octets, Shelf, Text};
use std::alloc::Global;
use table_rows::{Cells, Said};
use table_setting::{
    Devices, Files, link, numbers, numbers_of, present, say_list, words, words_of,
};

/// A shelf that has no memory.
#[derive(Drop)]
struct Full;

impl Shelf for Full {
    ghost use Rattle.std.specs.Prelude.{false, []};

    ghost faults = { λ _. 0 };

    ghost tells = { λ _. false };

    ghost files = { λ _. [] };

    ghost asked = { λ _. [] };

    fn load(&mut self, _alloc: Global, _name: &str, _limit: usize) -> Result<Octets, LoadRefusal> {
        Err(LoadRefusal::NoMemory)
    }
}

/// Says the status of a run, and what is written on standard output and on standard error.
fn run<S: Shelf>(
    alloc: Global,
    shelf: &mut S,
    words: &[Text],
    link: &mut MemLink,
    devices: &mut Devices,
    mechs: Vec<Box<dyn Mech>>,
    said: &mut Said,
)
    requires { AreStandard (map meaning mechs.items) }
{
    if link.is_closed() {
        return said.starve();
    }
    let Devices {
        clock,
        draw,
        out,
        err,
    } = devices;
    let end = run_client(alloc, words, shelf, link, clock, draw, mechs, out, err);
    said.number(end.status as u64);
    devices.say(said);
}

/// By the cells of its words and the octets to come, what a run writes; then its status and what it prints.
pub fn answer(files: &Files, mechs: Vec<Box<dyn Mech>>, cells: &mut Cells<'_>, said: &mut Said)
    requires { AreStandard (map meaning mechs.items) }
{
    let alloc = cells.alloc();
    let line = cells.text();
    let words = words_of(cells, line.as_str(), ' ');
    let stream = cells.word();
    let mut link = link(cells, stream);
    let mut shelf = files.shelf(cells, Vec::new(alloc));
    let mut devices = Devices::new(alloc, present(), Vec::new(alloc), Vec::new(alloc));
    let mut ran = Said::new(alloc);
    run(
        alloc,
        &mut shelf,
        words.as_slice(),
        &mut link,
        &mut devices,
        mechs,
        &mut ran,
    );
    said.octets(link.written());
    say_list(said, &ran);
}

/// Says the status of a run and what it prints, where these calls of its shelf fail; `full` is a shelf without memory.
fn run_by(
    files: &Files,
    failing: &str,
    words: &[Text],
    link: &mut MemLink,
    devices: &mut Devices,
    mechs: Vec<Box<dyn Mech>>,
    cells: &mut Cells<'_>,
) -> Said
    requires { AreStandard (map meaning mechs.items) }
{
    let alloc = cells.alloc();
    let mut ran = Said::new(alloc);
    if failing == "full" {
        run(alloc, &mut Full, words, link, devices, mechs, &mut ran);
        return ran;
    }
    let failing = numbers_of(cells, failing);
    let mut shelf = files.shelf(cells, failing);
    run(alloc, &mut shelf, words, link, devices, mechs, &mut ran);
    ran
}

/// By the cells of its words, the stream, and the numbers of the calls of link, shelf and standard output that fail, how many octets a run
/// writes; then its status and what it prints.
pub fn run_trial(files: &Files, mechs: Vec<Box<dyn Mech>>, cells: &mut Cells<'_>, said: &mut Said)
    requires { AreStandard (map meaning mechs.items) }
{
    let alloc = cells.alloc();
    let words = words(cells);
    let input = files.octets(cells);
    let failing = numbers(cells);
    let shelf = cells.word();
    let sink = numbers(cells);
    let mut link = MemLink::new(alloc, input, Vec::new(alloc), failing);
    let mut devices = Devices::new(alloc, present(), sink, Vec::new(alloc));
    let ran = run_by(
        files,
        shelf,
        words.as_slice(),
        &mut link,
        &mut devices,
        mechs,
        cells,
    );
    said.number(link.written().len() as u64);
    say_list(said, &ran);
}
