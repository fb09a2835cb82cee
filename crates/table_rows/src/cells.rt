//! The cells of a row that are given.
//!
//! A reader answers for each cell, so that what reads a row has no way out but its end: what isn't there, or isn't in its form, is read as
//! the least value of its kind, and the row is told of as not in its form.

use hex::FromHex;
use sec_base::Moment;
use std::alloc::Global;

/// The cells of a row, or the parts of one cell, from left to right.
#[derive(Drop)]
pub struct Cells<'a> {
    alloc: Global,
    mark: char,
    left: Option<&'a str>,
    are_well: bool,
}

impl<'a> Cells<'a> {
    /// The parts of a text between marks.
    pub fn new(alloc: Global, text: &'a str, mark: char) -> Cells<'a> {
        Cells {
            alloc,
            mark,
            left: Some(text),
            are_well: true,
        }
    }

    /// Where what is read takes its memory.
    pub fn alloc(&self) -> Global {
        self.alloc
    }

    /// Whether each cell that was asked for was there, in its form.
    pub fn are_well(&self) -> bool {
        self.are_well
    }

    /// Notes that a cell isn't in its form, unless it is.
    pub fn expect(&mut self, is_well: bool) {
        if !is_well {
            self.are_well = false;
        }
    }

    /// What stands behind the cells that were read, the answer that is wanted.
    pub fn rest(&self) -> Option<&'a str> {
        self.left
    }

    /// The next cell as it stands.
    pub fn word(&mut self) -> &'a str {
        match self.left {
            None => {
                self.are_well = false;
                ""
            }
            Some(left) => match left.split_once(self.mark) {
                None => {
                    self.left = None;
                    left
                }
                Some((cell, left)) => {
                    self.left = Some(left);
                    cell
                }
            },
        }
    }

    /// The next cell's octets in hexadecimal, none for `-`.
    pub fn octets(&mut self) -> Vec<u8> {
        let cell = self.word();
        self.octets_in(cell)
    }

    /// The octets of a part of a cell that was read.
    pub fn octets_in(&mut self, part: &str) -> Vec<u8> {
        if part == "-" {
            return Vec::new(self.alloc);
        }
        match hex::decode(self.alloc, part) {
            Ok(octets) => octets,
            Err(_) => {
                self.are_well = false;
                Vec::new(self.alloc)
            }
        }
    }

    /// As many octets as are wanted, neither fewer nor more.
    pub fn exactly<const N: usize>(&mut self) -> [u8; N] {
        match <[u8; N] as FromHex>::from_hex(self.word()) {
            Ok(octets) => octets,
            Err(_) => {
                self.are_well = false;
                [0; N]
            }
        }
    }

    /// The next cell's number.
    pub fn number(&mut self) -> u64 {
        let cell = self.word();
        self.number_in(cell)
    }

    /// The number of a part of a cell that was read.
    pub fn number_in(&mut self, part: &str) -> u64 {
        match part.parse::<u64>() {
            Ok(number) => number,
            Err(_) => {
                self.are_well = false;
                0
            }
        }
    }

    /// A number of 32 bits.
    pub fn word_number(&mut self) -> u32 {
        match u32::try_from(self.number()) {
            Ok(number) => number,
            Err(_) => {
                self.are_well = false;
                0
            }
        }
    }

    /// A number that may be negative.
    pub fn signed(&mut self) -> i64 {
        match self.word().parse::<i64>() {
            Ok(number) => number,
            Err(_) => {
                self.are_well = false;
                0
            }
        }
    }

    /// `1` for yes and `0` for no.
    pub fn is_yes(&mut self) -> bool {
        let cell = self.word();
        self.expect(cell == "0" || cell == "1");
        cell == "1"
    }

    /// A text, by its octets.
    pub fn text(&mut self) -> String {
        let octets = self.octets();
        match String::from_utf8(octets) {
            Ok(text) => text,
            Err(_) => {
                self.are_well = false;
                String::new(self.alloc)
            }
        }
    }

    /// A moment `seconds.micros`.
    pub fn moment(&mut self) -> Moment {
        let cell = self.word();
        let mut parts = Cells::new(self.alloc, cell, '.');
        let (seconds, micros) = (parts.number(), parts.word_number());
        self.expect(parts.are_well() && parts.rest().is_none());
        match Moment::new(seconds, micros) {
            Some(moment) => moment,
            None => {
                self.are_well = false;
                Moment::start()
            }
        }
    }
}
