//! Compares tables of outside values of both ends and of the book with what the public calls answer, and says of each table how many
//! lines agree, or which doesn't.
#![tactic(auto)]

mod asking;
mod between;
mod books;
mod connections;
mod cores;
mod datagrams;
mod endings;
mod entries;
mod links;
mod loops;
mod made_files;
mod meetings;
mod records;
mod rules;
mod runs;
mod seats;
mod served;
mod servers;
mod sessions;
mod table;
mod talks;

use std::sync::Wait;
use std::thread::Threads;
use std::{fs, io};
use table::{Table, compared};
use table_setting::{Files, Setting};

/// Those of the server, of the book, of both ends together, of the client, of the command that makes files, and of datagrams.
const TABLES: [Table; 24] = [
    Table::Records,
    Table::Rules,
    Table::Connections,
    Table::Turns,
    Table::Between,
    Table::Histories,
    Table::Books,
    Table::Seats,
    Table::Links,
    Table::Servers,
    Table::Failing,
    Table::Restarts,
    Table::Meetings,
    Table::Loops,
    Table::Pairs,
    Table::Sessions,
    Table::Runs,
    Table::Creations,
    Table::Talks,
    Table::Bodies,
    Table::Trials,
    Table::MadeFiles,
    Table::ReadBack,
    Table::Datagrams,
];

/// Says of a table how many lines agree, or which doesn't. The host is the runtime once more, which makes threads and waits for them.
fn compare<R: Threads + Wait + Sync>(
    rt: &HostRuntime,
    host: &R,
    setting: &Setting,
    files: &Files,
    table: Table,
) -> io::Result<()> {
    let text = fs::read_to_string(rt, table.file())?;
    match compared(host, rt.alloc(), setting, files, table, text.as_str()) {
        Some(line) => println!(rt; "{line}"),
        None => println!(rt; "{}: no memory", table.file()),
    }
}

/// Says the same of each of these tables.
fn compare_all<R: Threads + Wait + Sync>(
    rt: &HostRuntime,
    host: &R,
    setting: &Setting,
    files: &Files,
    tables: &[Table],
) -> io::Result<()> {
    for table in tables {
        compare(rt, host, setting, files, *table)?;
    }
    Ok(())
}

/// The files that rows name.
fn read_files(rt: &HostRuntime) -> io::Result<Files> {
    let shelf = fs::read_to_string(rt, "shelf.txt")?;
    let octets = fs::read_to_string(rt, "octets.txt")?;
    Ok(Files { shelf, octets })
}

fn main(rt: HostRuntime) -> io::Result<()> {
    let files = read_files(&rt)?;
    let text = fs::read_to_string(&rt, "setting.txt")?;
    match Setting::read(rt.alloc(), text.as_str()) {
        Some(setting) => compare_all(&rt, &rt, &setting, &files, &TABLES),
        None => println!(rt; "setting.txt: not in its form"),
    }
}
