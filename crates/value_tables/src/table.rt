//! The tables, and the comparison of one with what the calls answer.

use crate::{
    caches, commands, contexts, devices, journals, links, mechs, messages, names, records, secured,
    values, windows, xdr,
};
use std::alloc::Global;
use table_rows::{Cells, Rows, Said};

/// A table of outside values.
#[derive(Clone, Copy)]
pub enum Table {
    Pieces,
    Framed,
    Calls,
    Replies,
    Opaques,
    Words,
    Credentials,
    Creations,
    Checked,
    Sealed,
    Kinds,
    Hashes,
    Marks,
    Statuses,
    Names,
    Parts,
    Labels,
    Moments,
    Oids,
    Values,
    Links,
    Ports,
    Sinks,
    Clocks,
    Draws,
    Shelves,
    Commands,
    Numbers,
    Files,
    Stops,
    Windows,
    Caches,
    ManyMarks,
    Contexts,
    ContextWindows,
    ContextsInUse,
    Journals,
    Crashes,
}

/// All of them.
pub const TABLES: [Table; 38] = [
    Table::Pieces,
    Table::Framed,
    Table::Calls,
    Table::Replies,
    Table::Opaques,
    Table::Words,
    Table::Credentials,
    Table::Creations,
    Table::Checked,
    Table::Sealed,
    Table::Kinds,
    Table::Hashes,
    Table::Marks,
    Table::Statuses,
    Table::Names,
    Table::Parts,
    Table::Labels,
    Table::Moments,
    Table::Oids,
    Table::Values,
    Table::Links,
    Table::Ports,
    Table::Sinks,
    Table::Clocks,
    Table::Draws,
    Table::Shelves,
    Table::Commands,
    Table::Numbers,
    Table::Files,
    Table::Stops,
    Table::Windows,
    Table::Caches,
    Table::ManyMarks,
    Table::Contexts,
    Table::ContextWindows,
    Table::ContextsInUse,
    Table::Journals,
    Table::Crashes,
];

impl Table {
    /// Its file.
    pub fn file(self) -> &'static str {
        match self {
            Table::Pieces => "pieces.txt",
            Table::Framed => "framed.txt",
            Table::Calls => "calls.txt",
            Table::Replies => "replies.txt",
            Table::Opaques => "opaques.txt",
            Table::Words => "words.txt",
            Table::Credentials => "credentials.txt",
            Table::Creations => "creations.txt",
            Table::Checked => "checked.txt",
            Table::Sealed => "sealed.txt",
            Table::Kinds => "kinds.txt",
            Table::Hashes => "hashes.txt",
            Table::Marks => "marks.txt",
            Table::Statuses => "statuses.txt",
            Table::Names => "names.txt",
            Table::Parts => "parts.txt",
            Table::Labels => "labels.txt",
            Table::Moments => "moments.txt",
            Table::Oids => "oids.txt",
            Table::Values => "values.txt",
            Table::Links => "links.txt",
            Table::Ports => "ports.txt",
            Table::Sinks => "sinks.txt",
            Table::Clocks => "clocks.txt",
            Table::Draws => "draws.txt",
            Table::Shelves => "shelves.txt",
            Table::Commands => "commands.txt",
            Table::Numbers => "numbers.txt",
            Table::Files => "files.txt",
            Table::Stops => "stops.txt",
            Table::Windows => "windows.txt",
            Table::Caches => "caches.txt",
            Table::ManyMarks => "many_marks.txt",
            Table::Contexts => "contexts.txt",
            Table::ContextWindows => "context_windows.txt",
            Table::ContextsInUse => "contexts_in_use.txt",
            Table::Journals => "journals.txt",
            Table::Crashes => "crashes.txt",
        }
    }
}

impl Rows for Table {
    fn are_named(&self) -> bool {
        match *self {
            Table::Pieces
            | Table::Calls
            | Table::Replies
            | Table::Opaques
            | Table::Credentials
            | Table::Creations
            | Table::Checked
            | Table::Sealed
            | Table::Hashes
            | Table::Marks
            | Table::Names
            | Table::Windows
            | Table::Caches => false,
            _ => true,
        }
    }

    fn answer(&self, cells: &mut Cells<'_>, said: &mut Said) {
        match *self {
            Table::Pieces => records::in_pieces(cells, said),
            Table::Framed => records::framed(cells, said),
            Table::Calls => messages::called(cells, said),
            Table::Replies => messages::replied(cells, said),
            Table::Opaques => xdr::opaques(cells, said),
            Table::Words => xdr::words(cells, said),
            Table::Credentials => secured::credential(cells, said),
            Table::Creations => secured::creation(cells, said),
            Table::Checked => secured::checked(cells, said),
            Table::Sealed => secured::sealed(cells, said),
            Table::Kinds => mechs::kind(cells, said),
            Table::Hashes => mechs::hash(cells, said),
            Table::Marks => mechs::mark(cells, said),
            Table::Statuses => mechs::statuses(cells, said),
            Table::Names => names::named(cells, said),
            Table::Parts => names::made(cells, said),
            Table::Labels => names::labelled(cells, said),
            Table::Moments => values::moment(cells, said),
            Table::Oids => values::oid(cells, said),
            Table::Values => values::shown(cells, said),
            Table::Links => links::linked(cells, said),
            Table::Ports => links::ported(cells, said),
            Table::Sinks => devices::sunk(cells, said),
            Table::Clocks => devices::clocked(cells, said),
            Table::Draws => devices::drawn(cells, said),
            Table::Shelves => devices::shelved(cells, said),
            Table::Commands => commands::sorted(cells, said),
            Table::Numbers => commands::number(cells, said),
            Table::Files => commands::file(cells, said),
            Table::Stops => commands::stopped(cells, said),
            Table::Windows => windows::judged(cells, said),
            Table::Caches => caches::judged(cells, said),
            Table::ManyMarks => caches::many(cells, said),
            Table::Contexts => contexts::replaced(cells, said),
            Table::ContextWindows => contexts::windowed(cells, said),
            Table::ContextsInUse => contexts::ordered(cells, said),
            Table::Journals => journals::answered(cells, said),
            Table::Crashes => journals::left(cells, said),
        }
    }
}

/// How many lines of a table, its comments aside, are as the calls answer them, or the first that isn't.
pub fn compared(alloc: Global, table: Table, text: &str) -> Option<String> {
    table_rows::compared(alloc, &table, table.file(), text)
}
