//! What an object is asked with, what it says, and how far it is.

ghost use Rattle.std.specs.Prelude.{◌≡◌, IfOk, option_map};

use gss_base::Bindings;
use krb_tokens::MechDone;
use sec_base::{Moment, NoMemory, Octets};
use std::alloc::Global;

/// What a mechanism is begun with beside its credential.
#[derive(Drop)]
pub struct MechAsk {
    /// The moment of the request, which no other request of this client may have.
    pub stamp: Moment,
    /// Random octets, used once.
    pub draws: [u8; 66],
    pub bindings: Option<Bindings>,
}

/// A copy of bindings.
fn bindings_copied(alloc: Global, bindings: Option<&Bindings>) -> Result<Option<Bindings>, NoMemory>
    ensures { IfOk result (λ b. b ≡ option_map (λ x. x.now) bindings.entry) }
{
    match bindings {
        None => Ok(None),
        Some(bindings) => {
            let application = Octets::of(alloc, bindings.application())?;
            Ok(Bindings::new(application).ok())
        }
    }
}

impl MechAsk {
    /// A copy of it.
    pub fn copied(&self, alloc: Global) -> Result<MechAsk, NoMemory>
        ensures { IfOk result (λ copy. copy ≡ self.now) }
    {
        let stamp = self.stamp;
        let draws = self.draws;
        let bindings = bindings_copied(alloc, self.bindings.as_ref())?;
        Ok(MechAsk {
            stamp,
            draws,
            bindings,
        })
    }
}

/// What a mechanism says to a token.
#[derive(Drop)]
pub enum MechMove {
    /// It goes on, with a token.
    Token(Octets),
    /// It is done.
    Done(MechDone),
}

/// How far an object is.
#[derive(Clone, Copy)]
pub enum Stage {
    /// It has no credential.
    Blank,
    /// It has one, and sent nothing.
    Fresh,
    /// It sent a token, and waits for one.
    Waiting,
    /// It is done, refused a token, or wanted memory.
    Over,
}
