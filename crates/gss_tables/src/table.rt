//! The tables, and the comparison of one with what the calls answer.

ghost use Rattle.std.specs.Prelude.{map};
ghost use Rattle.init_ends.specs.Arming.{AreStandard};

use crate::{
    books, connections, cores, datagrams, links, loops, made_files, meetings, records, rules, runs,
    seats, servers, sessions, talks,
};
use init_ends::standard_mechs;
use mech_objects::{Mech, make_mechs};
use std::alloc::Global;
use std::sync::Wait;
use std::thread::Threads;
use table_rows::{Cells, Rows, Said};
use table_setting::{Files, Setting};

/// A table of outside values.
#[derive(Clone, Copy)]
pub enum Table {
    Records,
    Rules,
    Connections,
    Turns,
    Between,
    Histories,
    Books,
    Seats,
    Links,
    Servers,
    Failing,
    Restarts,
    Meetings,
    Loops,
    Pairs,
    Sessions,
    Runs,
    Creations,
    Talks,
    Bodies,
    Trials,
    MadeFiles,
    ReadBack,
    Datagrams,
}

impl Table {
    /// Its file.
    pub fn file(self) -> &'static str {
        match self {
            Table::Records => "records.txt",
            Table::Rules => "rules.txt",
            Table::Connections | Table::Turns => "connections.txt",
            Table::Between => "between.txt",
            Table::Histories => "histories.txt",
            Table::Books | Table::Seats => "books.txt",
            Table::Links => "links.txt",
            Table::Servers => "servers.txt",
            Table::Failing => "failing.txt",
            Table::Restarts => "restarts.txt",
            Table::Meetings => "meetings.txt",
            Table::Loops => "loops.txt",
            Table::Pairs => "pairs.txt",
            Table::Sessions => "sessions.txt",
            Table::Runs => "runs.txt",
            Table::Creations => "creations.txt",
            Table::Talks => "talks.txt",
            Table::Bodies => "bodies.txt",
            Table::Trials => "trials.txt",
            Table::MadeFiles => "made_files.txt",
            Table::ReadBack => "read_back.txt",
            Table::Datagrams => "datagrams.txt",
        }
    }

    /// Whether its rows run desks, which take threads.
    fn takes_threads(self) -> bool {
        matches!(
            self,
            Table::Servers | Table::Failing | Table::Restarts | Table::Meetings
        )
    }

    /// Whether a line begins with its name.
    fn is_named(self) -> bool {
        match self {
            Table::Records | Table::Rules | Table::Connections | Table::Turns => false,
            Table::Sessions | Table::Runs => false,
            _ => true,
        }
    }
}

/// Says what the calls of a client answer to a row, by these objects.
fn answer_by(
    setting: &Setting,
    files: &Files,
    table: Table,
    mechs: Vec<Box<dyn Mech>>,
    cells: &mut Cells<'_>,
    said: &mut Said,
)
    requires { AreStandard (map meaning mechs.items) }
{
    match table {
        Table::Sessions => sessions::answer(setting, mechs, cells, said),
        Table::Runs => runs::answer(files, mechs, cells, said),
        Table::Creations => talks::create(setting, files, mechs, cells, said),
        Table::Talks => talks::hold_all(setting, files, mechs, cells, said),
        Table::Trials => runs::run_trial(files, mechs, cells, said),
        _ => cells.expect(false),
    }
}

/// The same by objects of Kerberos under both its names, and of SCRAM, which are made for the row.
fn answer_by_objects(
    setting: &Setting,
    files: &Files,
    table: Table,
    cells: &mut Cells<'_>,
    said: &mut Said,
) {
    let alloc = cells.alloc();
    match make_mechs(alloc) {
        Some(made) => match standard_mechs(alloc, made.kerberos, made.microsoft, made.scram) {
            Ok(mechs) => answer_by(setting, files, table, mechs, cells, said),
            Err(_) => said.starve(),
        },
        None => said.starve(),
    }
}

/// A table over its setting and what its rows name, whose rows take one thread.
#[derive(Drop)]
struct Set<'a, R> {
    rt: &'a R,
    table: Table,
    setting: &'a Setting,
    files: &'a Files,
}

impl<R: Wait> Rows for Set<'_, R> {
    fn are_named(&self) -> bool {
        self.table.is_named()
    }

    fn answer(&self, cells: &mut Cells<'_>, said: &mut Said) {
        let (setting, files) = (self.setting, self.files);
        match self.table {
            Table::Records => records::answer(cells, said),
            Table::Rules => rules::answer(cells, said),
            Table::Connections => connections::answer(setting, cells, said),
            Table::Turns => seats::answer_connections(self.rt, setting, cells, said),
            Table::Between => seats::answer_between(self.rt, setting, cells, said),
            Table::Histories => cores::answer(cells, said),
            Table::Books => books::answer(setting, files, cells, said),
            Table::Seats => seats::answer(self.rt, setting, files, cells, said),
            Table::Links => links::answer(files, cells, said),
            Table::Servers | Table::Failing | Table::Restarts | Table::Meetings => {
                cells.expect(false)
            }
            Table::Loops => loops::run_over(setting, files, cells, said),
            Table::Pairs => loops::run_pair(setting, cells, said),
            Table::Sessions | Table::Runs | Table::Creations | Table::Talks | Table::Trials => {
                answer_by_objects(setting, files, self.table, cells, said)
            }
            Table::Bodies => talks::open_body(files, cells, said),
            Table::MadeFiles => made_files::make(cells, said),
            Table::ReadBack => made_files::read_back(cells, said),
            Table::Datagrams => datagrams::answer(setting, files, cells, said),
        }
    }
}

/// Says what a run whose desks take threads answers to a row.
fn answer_on_threads<R: Threads + Wait + Sync>(
    rt: &R,
    files: &Files,
    table: Table,
    cells: &mut Cells<'_>,
    said: &mut Said,
) {
    match table {
        Table::Servers => servers::answer(rt, files, cells, said),
        Table::Failing => servers::answer_failing(rt, files, cells, said),
        Table::Restarts => servers::answer_again(rt, files, cells, said),
        Table::Meetings => meetings::answer(rt, files, cells, said),
        _ => cells.expect(false),
    }
}

/// What a row is answered instead, or that it can't be told; None where it is as it should be.
fn told_instead<R: Threads + Wait + Sync>(
    rt: &R,
    alloc: Global,
    files: &Files,
    table: Table,
    row: &str,
) -> Option<String> {
    let mut cells = Cells::new(alloc, row, ' ');
    let mut said = Said::new(alloc);
    answer_on_threads(rt, files, table, &mut cells, &mut said);
    let told = match (cells.are_well(), cells.rest(), said.told()) {
        (true, Some(wanted), Some(told)) => {
            if told == wanted {
                return None;
            }
            String::from_str(alloc, told)
        }
        _ => String::from_str(alloc, "nothing, as it can't be told"),
    };
    Some(told.unwrap_or(String::new(alloc)))
}

/// The same as `compared` of a table whose rows take threads. It stands apart since a method of a trait for every runtime knows nothing of
/// what its runtime may be lent to.
fn compared_on_threads<R: Threads + Wait + Sync>(
    rt: &R,
    alloc: Global,
    files: &Files,
    table: Table,
    text: &str,
) -> Option<String> {
    let mut count = 0u32;
    for line in text.lines() {
        if line.starts_with('#') {
            continue;
        }
        let (name, row) = line.split_once(' ').unwrap_or((line, ""));
        if let Some(told) = told_instead(rt, alloc, files, table, row) {
            return format!(in alloc; "{}: {name} is answered {told}", table.file()).ok();
        }
        count = count.saturating_add(1);
    }
    format!(in alloc; "{}: {count} lines", table.file()).ok()
}

/// How many lines of a table, its comments aside, are as the calls answer them, or the first that isn't.
pub fn compared<R: Threads + Wait + Sync>(
    rt: &R,
    alloc: Global,
    setting: &Setting,
    files: &Files,
    table: Table,
    text: &str,
) -> Option<String> {
    if table.takes_threads() {
        return compared_on_threads(rt, alloc, files, table, text);
    }
    let rows = Set {
        rt,
        table,
        setting,
        files,
    };
    table_rows::compared(alloc, &rows, table.file(), text)
}
