//! The last acting calls of one context.
ghost use Rattle.std.specs.Prelude.{◌≡◌, ◌<◌, [], IfOk, Option, option_copied};
ghost use Rattle.again_calls.specs.Kept.{no_place, with_act, act_with};

use crate::outcome::KeptOutcome;
use sec_base::NoMemory;
use std::alloc::Global;
use std::marker::Model;

/// A call that acted: its transaction number, its procedure, its arguments' digest, and what became of it.
#[derive(Drop)]
pub struct Act {
    pub xid: u32,
    pub procedure: u32,
    pub args: [u8; 20],
    pub outcome: KeptOutcome,
}

/// The place of a context, with its last calls, oldest first; or a free place.
#[derive(Drop)]
pub struct Place {
    id: Option<u64>,
    acts: Vec<Act>,
    width: usize,
}

impl Model for Place {
    ghost use Rattle.std.specs.Prelude.{◌≤◌, ◌<◌, vec_len, vec_capacity};
    ghost use Rattle.again_calls.specs.Kept.{PlaceOf};

    ghost Value = { PlaceOf };

    ghost view = { λ p. record { id = p.id; acts = p.acts.items; width = p.width } };

    ghost invariant = { λ p. (0 < p.width) × (vec_len p.acts ≤ p.width)
        × (p.width ≤ vec_capacity p.acts) };
}

impl Place {
    /// A free place, with memory for so many calls.
    pub fn new(alloc: Global, width: usize) -> Result<Place, NoMemory>
        requires { 0 < width }
        ensures { IfOk result (λ p. p ≡ no_place width) }
    {
        let acts = Vec::with_capacity(alloc, width)?;
        Ok(Place {
            id: None,
            acts,
            width,
        })
    }

    /// The context whose place it is.
    pub fn id(&self) -> Option<u64>
        ensures { result ≡ self.now.id }
    {
        self.id
    }

    /// The call with this transaction number.
    pub fn find(&self, xid: u32) -> Option<&Act>
        ensures { option_copied result ≡ act_with xid self.now.acts }
    {
        for act in &self.acts {
            if act.xid == xid {
                return Some(act);
            }
        }
        None
    }

    /// Gives the place to a context, or to none.
    pub fn give(&mut self, id: Option<u64>)
        ensures { self.new ≡ record { id = id; acts = []; width = self.old.width } }
    {
        self.acts.truncate(0);
        self.id = id;
    }

    /// Adds a call, and forgets the oldest where there are as many as the width.
    pub fn add(&mut self, act: Act)
        ensures { self.new ≡ with_act act self.old }
    {
        if self.acts.len() == self.width {
            self.acts.remove(0);
        }
        self.acts.push_reserved(act);
    }
}
