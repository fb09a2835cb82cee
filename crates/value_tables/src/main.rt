//! Compares tables of outside values with what the public calls of the base crates answer, and says of each table how many lines agree,
//! or which doesn't. Then it asks each device of the real system once, and says of each whether it did what it should.
#![tactic(auto)]

mod caches;
mod commands;
mod connections;
mod contexts;
mod devices;
mod files;
mod journals;
mod links;
mod mechs;
mod messages;
mod names;
mod records;
mod secured;
mod system;
mod table;
mod values;
mod windows;
mod xdr;

use std::{fs, io};
use table::{TABLES, compared};

/// Compares each table, and says what came of it.
fn say_tables(rt: HostRuntime) -> io::Result<()> {
    for table in TABLES {
        let text = fs::read_to_string(&rt, table.file())?;
        match compared(rt.alloc(), table, text.as_str()) {
            Some(line) => println!(rt; "{line}")?,
            None => println!(rt; "{}: no memory", table.file())?,
        }
    }
    Ok(())
}

fn main(rt: HostRuntime) -> io::Result<()> {
    say_tables(rt)?;
    system::say_devices(rt, rt)
}
