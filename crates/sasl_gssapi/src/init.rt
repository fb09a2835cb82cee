//! The client's end, RFC 4752 section 3.1.

ghost use Rattle.std.specs.Prelude.{◌≡◌, ◌≤◌, true, map, IfOk, length};
ghost use Rattle.sec_base.specs.Answers.{Gives};
ghost use Rattle.sasl_gssapi.specs.Choosing.{most};
ghost use Rattle.sasl_gssapi.specs.Steps.{takes_offer};
ghost use Rattle.sasl_gssapi.specs.Objects.{all_fresh, is_waiting};
ghost use Rattle.sasl_gssapi.specs.Ends.{init_means, step_means, holds, holds_after, IsNewStep};
ghost use Rattle.sasl_gssapi.specs.Initiating.{begins, goes_on, offer_taken, init_step};

use crate::choosing::MOST;
use crate::objects::{kerberos_in, start_of};
use crate::refusal::neg_refused;
use crate::steps::{Agreed, Offer, takes_offer};
use mech_objects::{Mech, MechAsk, MechMove};
use sasl_layer::{Layered, SaslRefusal, Wish};
use sec_base::Octets;
use std::alloc::Global;

/// Kerberos isn't done.
#[derive(Drop)]
pub struct Asking {
    pub(crate) wish: Wish,
    pub(crate) mech: Box<dyn Mech>,
}

/// A client's end, by what is due next.
#[derive(Drop)]
pub enum SaslInit {
    /// A token of Kerberos.
    Asks(Asking),
    /// The offer.
    Waits(Agreed),
}

/// What comes of a step.
#[derive(Drop)]
pub enum SaslStep {
    /// The message is for the server, and its next one is due.
    More(SaslInit, Octets),
    /// This end is done; the message, with the choice, is for the server.
    Done(Layered, Octets),
}

/// Kerberos takes a token.
fn goes_on(alloc: Global, asking: Asking, message: &[u8]) -> Result<SaslStep, SaslRefusal>
    requires { is_waiting (meaning asking.mech).stage ≡ true }
    ensures exact { Gives SaslRefusal.NoMemory (step_means meaning) result
        (goes_on asking.wish (meaning asking.mech) message.now) }
    ensures new { IfOk result (λ s. IsNewStep (step_means meaning s)) }
    ensures held { IfOk result (λ s. holds_after (step_means meaning s) ≡ true) }
{
    let Asking { wish, mut mech } = asking;
    match mech.take(alloc, message) {
        Ok(MechMove::Token(token)) => {
            Ok(SaslStep::More(SaslInit::Asks(Asking { wish, mech }), token))
        }
        Ok(MechMove::Done(done)) => {
            drop(mech);
            let empty = Octets::of(alloc, &[])?;
            Ok(SaslStep::More(SaslInit::Waits(Agreed { wish, done }), empty))
        }
        Err(refusal) => {
            drop(mech);
            Err(neg_refused(refusal))
        }
    }
}

/// The offer is taken, and the choice is the answer.
fn offer_taken(alloc: Global, agreed: &Agreed, message: &[u8]) -> Result<SaslStep, SaslRefusal>
    ensures exact { Gives SaslRefusal.NoMemory (step_means meaning) result
        (offer_taken (takes_offer agreed.now message.now)) }
    ensures new { IfOk result (λ s. IsNewStep (step_means meaning s)) }
    ensures held { IfOk result (λ s. holds_after (step_means meaning s) ≡ true) }
{
    let Offer { end, message } = takes_offer(alloc, agreed, message)?;
    Ok(SaslStep::Done(end, message))
}

impl SaslInit {
    /// The end and its first message, by the first object of Kerberos; the others are dropped.
    pub fn start(
        alloc: Global,
        mechs: Vec<Box<dyn Mech>>,
        ask: MechAsk,
        wish: Wish,
    ) -> Result<(SaslInit, Octets), SaslRefusal>
        requires { all_fresh (map meaning mechs.items) ≡ true }
        ensures exact { Gives SaslRefusal.NoMemory (λ p. (init_means meaning p.0, p.1)) result
            (begins (map meaning mechs.items) ask wish) }
        ensures held { IfOk result (λ p. holds (init_means meaning p.0) ≡ true) }
        ensures short { IfOk result (λ p. length p.1 ≤ most) }
    {
        let Some(mut mech) = kerberos_in(mechs) else {
            drop(ask);
            return Err(SaslRefusal::NoKerberos);
        };
        match start_of(alloc, &mut mech, &ask) {
            Ok(token) => {
                drop(ask);
                Ok((SaslInit::Asks(Asking { wish, mech }), token))
            }
            Err(refusal) => {
                drop(ask);
                drop(mech);
                Err(neg_refused(refusal))
            }
        }
    }

    /// The answer to a message.
    pub fn step(self, alloc: Global, message: &[u8]) -> Result<SaslStep, SaslRefusal>
        requires { holds (init_means meaning self) ≡ true }
        ensures exact { Gives SaslRefusal.NoMemory (step_means meaning) result
            (init_step (init_means meaning self) message.now) }
        ensures new { IfOk result (λ s. IsNewStep (step_means meaning s)) }
        ensures held { IfOk result (λ s. holds_after (step_means meaning s) ≡ true) }
    {
        if message.len() > MOST as usize {
            drop(self);
            return Err(SaslRefusal::TooLong);
        }
        match self {
            SaslInit::Asks(asking) => goes_on(alloc, asking, message),
            SaslInit::Waits(agreed) => offer_taken(alloc, &agreed, message),
        }
    }
}
