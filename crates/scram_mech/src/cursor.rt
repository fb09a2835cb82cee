//! Reading a text from its front.

ghost use Rattle.std.specs.Prelude.{◌≡◌, ◌≤◌, length, IfOk};
ghost use Rattle.scram_mech.specs.Base64.{InRange, decoded};
ghost use Rattle.scram_mech.specs.State.{some, base64, rounds_number};
ghost use Rattle.scram_mech.specs.Run.{IsLineName};
ghost use Rattle.scram_mech.specs.declared.run.Class.TheVariants.{LineName};
ghost use Rattle.scram_mech.specs.Reading.{Reads, word_at, end_at};
ghost use Rattle.scram_mech.specs.Values.{progress, value_at};
ghost use Rattle.scram_mech.specs.Formats.{value_behind};

use crate::digits::{Decimal, Digits};
use crate::encoding::Encoded;
use crate::refusal::Stuck;
use crate::run::Class;
use crate::state::State;
use gss_base::Label;
use std::marker::Model;
use std::str;

/// The octets that are left of a text.
#[derive(Drop)]
pub struct Cursor<'a> {
    rest: &'a [u8],
}

impl<'a> Model for Cursor<'a> {
    ghost use Rattle.std.specs.Prelude.{List, ℕ};

    ghost Value = { List ℕ };

    ghost view = { λ c. c.rest.now };
}

/// How far octets can stand in a value: what is due then, and how many they are.
#[derive(Clone, Copy)]
struct Reached {
    state: State,
    count: usize,
}

/// As far as octets can stand in a value that begins with them.
#[tactic(auto, unfolding(crate::specs::Values::progress))]
fn reach(start: State, octets: &[u8]) -> Reached
    ensures state { result.state ≡ (progress start octets.now).state }
    ensures count { result.count ≡ (progress start octets.now).count }
    ensures within { result.count ≤ length octets.now }
{
    let mut state = start;
    for (count, octet) in octets.iter().enumerate() {
        match state.step(*octet) {
            Some(next) => state = next,
            None => return Reached { state, count },
        }
    }
    Reached {
        state,
        count: octets.len(),
    }
}

/// A name of printable ASCII.
fn label_of(name: &[u8]) -> Label
    requires { IsLineName name.now }
    ensures { result ≡ name.now }
{
    match str::from_utf8(name) {
        Ok(text) => match Label::new(text) {
            Some(label) => label,
            None => unreachable!(),
        },
        Err(_) => unreachable!(),
    }
}

impl<'a> Cursor<'a> {
    pub fn new(octets: &'a [u8]) -> Cursor<'a>
        ensures { result ≡ octets.now }
    {
        Cursor { rest: octets }
    }

    /// How many octets are left.
    pub fn left(&self) -> usize
        ensures { result ≡ length self.now }
    {
        self.rest.len()
    }

    fn stuck(&self) -> Stuck
        ensures { result ≡ record { left = length self.now } }
    {
        Stuck {
            left: self.rest.len(),
        }
    }

    /// Reads this word.
    #[tactic(auto, unfolding(crate::specs::Reading::word_at))]
    pub fn word(&mut self, word: &[u8]) -> Result<(), Stuck>
        ensures { Reads (λ u. u) self.new result (word_at word.now self.old) }
    {
        for sign in word {
            match self.rest {
                [octet, rest @ ..] => {
                    if octet != sign {
                        return Err(self.stuck());
                    }
                    self.rest = rest;
                }
                [] => return Err(self.stuck()),
            }
        }
        Ok(())
    }

    /// Reads a value, as far as octets can stand in it.
    #[tactic(auto, unfolding(crate::specs::Values::value_at))]
    pub fn value(&mut self, start: State) -> Result<&'a [u8], Stuck>
        ensures { Reads (λ o. o.now) self.new result (value_at start self.old) }
    {
        let reached = reach(start, self.rest);
        let (value, rest) = self.rest.split_at(reached.count);
        self.rest = rest;
        if !reached.state.ends() {
            return Err(self.stuck());
        }
        Ok(value)
    }

    /// Reads this word and a value behind it.
    #[tactic(auto, unfolding(crate::specs::Formats::value_behind))]
    pub fn value_behind(&mut self, word: &[u8], start: State) -> Result<&'a [u8], Stuck>
        ensures { Reads (λ o. o.now) self.new result (value_behind word.now start self.old) }
    {
        self.word(word)?;
        self.value(start)
    }

    /// Reads this word and behind it the base64 of a number of octets from `least` to `most`.
    #[tactic(auto, unfolding(crate::specs::Formats::value_behind))]
    pub fn base64_behind(
        &mut self,
        word: &[u8],
        least: u16,
        most: u16,
    ) -> Result<Encoded<'a>, Stuck>
        ensures read { Reads (λ e. e.signs.now) self.new result
            (value_behind word.now (base64 least most) self.old) }
        ensures range { IfOk result (λ e. InRange least most (decoded e.signs.now)) }
    {
        self.word(word)?;
        self.base64(least, most)
    }

    /// Reads this word and a number of at most ten digits behind it.
    #[tactic(auto, unfolding(crate::specs::Formats::value_behind))]
    pub fn number_behind(&mut self, word: &[u8]) -> Result<Decimal<'a>, Stuck>
        ensures { Reads (λ d. d.digits.now) self.new result
            (value_behind word.now rounds_number self.old) }
    {
        self.word(word)?;
        self.number()
    }

    /// Reads a name of a verifier file.
    pub fn line_name(&mut self) -> Result<Label, Stuck>
        ensures { Reads (λ n. n) self.new result (value_at (some LineName 255) self.old) }
    {
        let name = self.value(State::some(Class::LineName, 255))?;
        Ok(label_of(name))
    }

    /// Reads the base64 of a number of octets from `least` to `most`.
    pub fn base64(&mut self, least: u16, most: u16) -> Result<Encoded<'a>, Stuck>
        ensures read { Reads (λ e. e.signs.now) self.new result
            (value_at (base64 least most) self.old) }
        ensures range { IfOk result (λ e. InRange least most (decoded e.signs.now)) }
    {
        let signs = self.value(State::base64(least, most))?;
        Ok(Encoded { signs })
    }

    /// Reads a number of at most ten digits.
    pub fn number(&mut self) -> Result<Decimal<'a>, Stuck>
        ensures { Reads (λ d. d.digits.now) self.new result (value_at rounds_number self.old) }
    {
        let digits = self.value(State::Digits(Digits::First))?;
        Ok(Decimal { digits })
    }

    /// Reads the end.
    pub fn end(&mut self) -> Result<(), Stuck>
        ensures { Reads (λ u. u) self.new result (end_at self.old) }
    {
        if !self.rest.is_empty() {
            return Err(self.stuck());
        }
        Ok(())
    }
}
