//! The tables, and the comparison of one with what the calls answer.

use crate::{drills, exchanges, worlds};
use std::alloc::Global;
use table_rows::{Cells, Rows, Said};
use table_setting::Setting;

/// A table of outside values.
#[derive(Clone, Copy)]
pub enum Table {
    Worlds,
    Exchanges,
    Drills,
}

impl Table {
    /// Its file.
    pub fn file(self) -> &'static str {
        match self {
            Table::Worlds => "worlds.txt",
            Table::Exchanges => "exchanges.txt",
            Table::Drills => "drills.txt",
        }
    }
}

/// A table over its setting and the octets that its rows name.
#[derive(Drop)]
struct Set<'a> {
    table: Table,
    setting: &'a Setting,
    octets: &'a str,
}

impl Rows for Set<'_> {
    fn are_named(&self) -> bool {
        match self.table {
            Table::Worlds | Table::Exchanges => true,
            Table::Drills => false,
        }
    }

    fn answer(&self, cells: &mut Cells<'_>, said: &mut Said) {
        match self.table {
            Table::Worlds => worlds::answer(self.setting, self.octets, cells, said),
            Table::Exchanges => exchanges::answer(self.setting, cells, said),
            Table::Drills => drills::answer(cells, said),
        }
    }
}

/// How many lines of a table, its comments aside, are as the calls answer them, or the first that isn't.
pub fn compared(
    alloc: Global,
    setting: &Setting,
    octets: &str,
    table: Table,
    text: &str,
) -> Option<String> {
    let rows = Set {
        table,
        setting,
        octets,
    };
    table_rows::compared(alloc, &rows, table.file(), text)
}
