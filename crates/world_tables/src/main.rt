//! Compares tables of outside values of the world and of drills with what the public calls answer, and says of each table how many lines
//! agree, or which doesn't.
#![tactic(auto)]

mod begun;
mod drills;
mod exchanges;
mod table;
mod worlds;

use std::{fs, io};
use table::{Table, compared};
use table_setting::Setting;

/// Those of the world, and of drills, which rest on no setting.
const TABLES: [Table; 3] = [Table::Worlds, Table::Exchanges, Table::Drills];

/// Says of each table how many lines agree, or which doesn't.
fn compare_all(rt: &HostRuntime, setting: &Setting, octets: &str) -> io::Result<()> {
    for table in TABLES {
        let text = fs::read_to_string(rt, table.file())?;
        match compared(rt.alloc(), setting, octets, table, text.as_str()) {
            Some(line) => println!(rt; "{line}")?,
            None => println!(rt; "{}: no memory", table.file())?,
        }
    }
    Ok(())
}

fn main(rt: HostRuntime) -> io::Result<()> {
    let text = fs::read_to_string(&rt, "setting.txt")?;
    let octets = fs::read_to_string(&rt, "octets.txt")?;
    match Setting::read(rt.alloc(), text.as_str()) {
        Some(setting) => compare_all(&rt, &setting, octets.as_str()),
        None => println!(rt; "setting.txt: not in its form"),
    }
}
