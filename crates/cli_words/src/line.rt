//! A line of words that `clap` read.

ghost use Rattle.std.specs.Prelude.{◌≡◌, IfOk, true, length, slice_get};
ghost use Rattle.std.specs.Option.{option_map};
ghost use Rattle.cli_base.specs.Words.{is_dashed, texts, value_of, plain_of};

use clap::ArgMatches;
use sec_base::{NoMemory, Text};
use std::alloc::Global;
use std::marker::Model;

/// A line of words, and what `clap` found in it. Contracts see the words.
#[derive(Drop)]
pub struct Line<'a> {
    pub(crate) matches: ArgMatches<'a>,
    pub(crate) words: &'a [&'a str],
}

impl<'a> Model for Line<'a> {
    ghost use Rattle.std.specs.Prelude.{List, ℕ};
    ghost use Rattle.clap.specs.Matches.{found_of};
    ghost use Rattle.clap.specs.Walk.{rows_of};
    ghost use Rattle.cli_base.specs.Words.{texts};
    ghost use Rattle.cli_words.specs.Line.{IsRead};

    ghost Value = { List (List ℕ) };

    ghost view = { λ line. texts line.words.now };

    ghost invariant = { λ line. IsRead (rows_of (found_of line.matches)) (texts line.words.now) };
}

impl<'a> Line<'a> {
    /// The value of the option `name`, as `--times`: the word behind it, where the option stands in the line.
    pub fn value(&self, name: &str) -> Option<&'a str>
        requires { is_dashed name.now ≡ true }
        ensures { option_map (λ value. value.now) result ≡ value_of name.now self.now }
    {
        self.matches.get_str(name)
    }

    /// The plain word of this number, counted from 0: the address, the command, and the command's arguments.
    pub fn plain(&self, number: usize) -> Option<&'a str>
        ensures { option_map (λ word. word.now) result ≡ slice_get (plain_of self.now) number }
    {
        match number {
            0 => self.matches.get_str("address"),
            1 => self.matches.get_str("command"),
            2 => self.matches.get_str("argument"),
            3 => self.matches.get_str("second"),
            4 => self.matches.get_str("third"),
            5 => self.matches.get_str("fourth"),
            _ => None,
        }
    }

    /// How many plain words the line has: at most 6.
    pub fn count_plain(&self) -> usize
        ensures { result ≡ length (plain_of self.now) }
    {
        let _matches = &self.matches;
        if self.plain(5).is_some() {
            return 6;
        }
        if self.plain(4).is_some() {
            return 5;
        }
        if self.plain(3).is_some() {
            return 4;
        }
        if self.plain(2).is_some() {
            return 3;
        }
        if self.plain(1).is_some() {
            return 2;
        }
        if self.plain(0).is_some() {
            return 1;
        }
        0
    }
}

/// The words as texts that are lent, as `clap` takes them.
pub fn texts_of<'a>(alloc: Global, words: &'a [Text]) -> Result<Vec<&'a str>, NoMemory>
    ensures { IfOk result (λ lent. texts lent.items ≡ words.now) }
{
    let mut lent = Vec::with_capacity(alloc, words.len())?;
    for word in words {
        lent.push(word.as_str())?;
    }
    Ok(lent)
}
