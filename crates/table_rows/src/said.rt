//! What the calls answer to a row.
//!
//! What is said is one text of cells, and nothing that is added to it gives an error: where memory wants, that is noted.

use sec_base::Moment;
use std::alloc::Global;
use std::fmt::Debug;

/// Cells that are said, one after the other.
#[derive(Drop)]
pub struct Said {
    alloc: Global,
    text: String,
    mark: &'static str,
    is_whole: bool,
}

impl Said {
    /// Nothing yet.
    pub fn new(alloc: Global) -> Said {
        Said {
            alloc,
            text: String::new(alloc),
            mark: "",
            is_whole: true,
        }
    }

    /// Where what is said takes its memory.
    pub fn alloc(&self) -> Global {
        self.alloc
    }

    /// What was said; None at want of memory.
    pub fn told(&self) -> Option<&str> {
        if self.is_whole {
            Some(self.text.as_str())
        } else {
            None
        }
    }

    /// Has this mark, and no space, stand before what is said next.
    pub fn join(&mut self, mark: &'static str) {
        self.mark = mark;
    }

    /// Has a comma, and no space, stand before the item of a list that is said next, unless it is the first.
    pub fn listed(&mut self, at: usize) {
        if at > 0 {
            self.mark = ",";
        }
    }

    /// Says that memory wants.
    pub fn starve(&mut self) {
        self.is_whole = false;
    }

    /// A cell as it stands.
    pub fn word(&mut self, word: &str) {
        let mark = self.mark;
        self.mark = " ";
        if self.text.push_str(mark).is_err() || self.text.push_str(word).is_err() {
            self.is_whole = false;
        }
    }

    /// Octets in hexadecimal, `-` for none.
    pub fn octets(&mut self, octets: &[u8]) {
        if octets.is_empty() {
            self.word("-");
        } else {
            self.hex(octets);
        }
    }

    /// Octets in hexadecimal, an empty cell for none.
    pub fn hex(&mut self, octets: &[u8]) {
        match hex::encode(self.alloc, octets) {
            Ok(text) => self.word(text.as_str()),
            Err(_) => self.is_whole = false,
        }
    }

    /// A number.
    pub fn number(&mut self, number: u64) {
        match format!(in self.alloc; "{number}") {
            Ok(text) => self.word(text.as_str()),
            Err(_) => self.is_whole = false,
        }
    }

    /// A number that may be negative.
    pub fn signed(&mut self, number: i64) {
        match format!(in self.alloc; "{number}") {
            Ok(text) => self.word(text.as_str()),
            Err(_) => self.is_whole = false,
        }
    }

    /// `1` for yes and `0` for no.
    pub fn yes(&mut self, is: bool) {
        self.word(if is { "1" } else { "0" });
    }

    /// A moment as `seconds.micros`, with six digits behind the point.
    pub fn moment(&mut self, moment: Moment) {
        let (seconds, micros) = (moment.secs(), moment.micros());
        match format!(in self.alloc; "{seconds}.{micros:06}") {
            Ok(text) => self.word(text.as_str()),
            Err(_) => self.is_whole = false,
        }
    }

    /// A value as Rust's own form of it.
    pub fn form<T: Debug>(&mut self, value: &T) {
        match format!(in self.alloc; "{value:?}") {
            Ok(text) => self.word(text.as_str()),
            Err(_) => self.is_whole = false,
        }
    }
}
