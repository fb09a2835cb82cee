//! The trait of a mechanism's object.

ghost use Rattle.std.specs.Prelude.{◌≡◌, IfOk};
ghost use Rattle.sec_base.specs.Answers.{Gives};
ghost use Rattle.spnego_core.specs.InitMech.{kind_of};
ghost use Rattle.spnego_core.specs.Sizes.{FitsBeside};
ghost use Rattle.mech_objects.specs.Meaning.{armed, starts, started, takes, took, FitsMove};
ghost use Rattle.mech_objects.specs.declared.ask.Stage.TheVariants.{Blank, Fresh, Waiting};

use crate::ask::{MechAsk, MechMove};
use gss_base::MechKind;
use sec_base::{Octets, Oid};
use spnego_core::{MechCred, NegRefusal};
use std::alloc::Global;

/// A mechanism at the initiator, as an object: it gets a credential, gives its first token, and answers each token that it takes.
///
/// Contracts see what it is as a `MechSays`, whatever lies in memory. It is Blank until it is armed, then Fresh until it is started, and
/// then Waiting; it is Over once it is done, refuses, or wants memory.
pub trait Mech: Drop {
    ghost use Rattle.mech_objects.specs.Meaning.{MechSays};

    ghost meaning: { Self → MechSays };

    /// Which mechanism it is.
    fn kind(&self) -> MechKind
        ensures { result ≡ (meaning self.now).kind };

    /// The object identifier by which it stands in a list.
    fn oid(&self) -> Oid
        ensures { result ≡ (meaning self.now).oid };

    /// Takes the credential, which is of its mechanism.
    fn arm(&mut self, cred: MechCred)
        requires blank { (meaning self.old).stage ≡ Blank }
        requires same { kind_of cred ≡ (meaning self.old).kind }
        ensures { meaning self.new ≡ armed (meaning self.old) cred };

    /// The first token.
    fn start(&mut self, alloc: Global, ask: &MechAsk) -> Result<Octets, NegRefusal>
        requires { (meaning self.old).stage ≡ Fresh }
        ensures exact { Gives NegRefusal.NoMemory (λ o. o) result
            (starts (meaning self.old) ask.now) }
        ensures after { meaning self.new ≡ started (meaning self.old) ask.now result }
        ensures short { IfOk result FitsBeside };

    /// The answer to a token.
    fn take(&mut self, alloc: Global, token: &[u8]) -> Result<MechMove, NegRefusal>
        requires { (meaning self.old).stage ≡ Waiting }
        ensures exact { Gives NegRefusal.NoMemory (λ a. a) result
            (takes (meaning self.old) token.now) }
        ensures after { meaning self.new ≡ took (meaning self.old) token.now result }
        ensures short { IfOk result FitsMove };
}
