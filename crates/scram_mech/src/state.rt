//! What is due of a part's value, octet by octet.

ghost use Rattle.std.specs.Prelude.{◌≡◌};
ghost use Rattle.scram_mech.specs.State.{some, a_name, base64, further_parts, step, ends};

use crate::digits::Digits;
use crate::further::{Due, Further};
use crate::name::{Escape, Name};
use crate::run::{Class, Run};
use crate::symbols::{Spot, Symbols};

/// What is due of a value.
#[derive(Clone, Copy)]
pub enum State {
    Run(Run),
    Name(Name),
    Digits(Digits),
    Symbols(Symbols),
    Further(Further),
}

impl State {
    /// Octets of a class, so many at most, and one at least.
    pub fn some(class: Class, most: u16) -> State
        ensures { result ≡ some class most }
    {
        State::Run(Run {
            class,
            need: 1,
            left: most,
        })
    }

    /// A name in a text: 1 to 255 octets, with its escapes.
    pub fn name() -> State
        ensures { result ≡ a_name }
    {
        State::Name(Name {
            escape: Escape::Outside,
            need: 1,
            left: 255,
        })
    }

    /// Base64 of a number of octets from `least` to `most`.
    pub fn base64(least: u16, most: u16) -> State
        ensures { result ≡ base64 least most }
    {
        State::Symbols(Symbols {
            spot: Spot::First,
            need: least,
            left: most,
        })
    }

    /// Further parts up to the end, or up to this letter of a named part.
    pub fn further(last: Option<u8>) -> State
        ensures { result ≡ further_parts last }
    {
        State::Further(Further {
            due: Due::Part,
            last,
        })
    }

    /// What is due behind this octet; None where it can't stand here.
    pub fn step(self, octet: u8) -> Option<State>
        ensures { result ≡ step self octet }
    {
        match self {
            State::Run(run) => run.step(octet).map(State::Run),
            State::Name(name) => name.step(octet).map(State::Name),
            State::Digits(digits) => digits.step(octet).map(State::Digits),
            State::Symbols(symbols) => symbols.step(octet).map(State::Symbols),
            State::Further(further) => further.step(octet).map(State::Further),
        }
    }

    /// Whether the value may end here.
    pub fn ends(self) -> bool
        ensures { result ≡ ends self }
    {
        match self {
            State::Run(run) => run.ends(),
            State::Name(name) => name.ends(),
            State::Digits(digits) => digits.ends(),
            State::Symbols(symbols) => symbols.ends(),
            State::Further(further) => further.ends(),
        }
    }
}
