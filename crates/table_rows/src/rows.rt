//! The comparison of a table's rows with what the calls answer.
//!
//! A row is a line of cells with one space between them: its name, where the table's rows have one, then the cells that are given,
//! then the answer that is wanted. A line that begins with `#` is a comment.

use crate::{Cells, Said};
use std::alloc::Global;

/// What a table's rows are about.
pub trait Rows {
    /// Whether a row begins with its name.
    fn are_named(&self) -> bool;

    /// Reads the cells that are given, all of them, and says what the calls answer. What stands behind is the answer that is wanted.
    fn answer(&self, cells: &mut Cells<'_>, said: &mut Said);
}

/// Why a row isn't as the calls answer it, None where it is.
fn differs<R: Rows>(alloc: Global, rows: &R, row: &str) -> Option<String> {
    let mut cells = Cells::new(alloc, row, ' ');
    let mut said = Said::new(alloc);
    rows.answer(&mut cells, &mut said);
    let why = match (cells.are_well(), cells.rest(), said.told()) {
        (true, Some(wanted), Some(told)) => {
            if told == wanted {
                return None;
            }
            format!(in alloc; "is answered {told}")
        }
        (true, Some(_), None) => String::from_str(alloc, "gets no answer, for want of memory"),
        _ => String::from_str(alloc, "isn't in the table's form"),
    };
    Some(why.unwrap_or(String::new(alloc)))
}

/// Why a line isn't as the calls answer it, with the row's name or else the line's number; None where it is.
fn wrong<R: Rows>(alloc: Global, rows: &R, number: usize, line: &str) -> Option<String> {
    if rows.are_named() {
        let (name, row) = line.split_once(' ').unwrap_or((line, ""));
        let why = differs(alloc, rows, row)?;
        return Some(format!(in alloc; "{name} {why}").unwrap_or(String::new(alloc)));
    }
    let why = differs(alloc, rows, line)?;
    Some(format!(in alloc; "line {number} {why}").unwrap_or(String::new(alloc)))
}

/// How many rows of a file are as the calls answer them, or the first that isn't. None at want of memory.
pub fn compared<R: Rows>(alloc: Global, rows: &R, file: &str, text: &str) -> Option<String> {
    let mut count = 0u32;
    for (at, line) in text.lines().enumerate() {
        if line.starts_with('#') {
            continue;
        }
        if let Some(why) = wrong(alloc, rows, at.saturating_add(1), line) {
            return format!(in alloc; "{file}: {why}").ok();
        }
        count = count.saturating_add(1);
    }
    format!(in alloc; "{file}: {count} lines").ok()
}
