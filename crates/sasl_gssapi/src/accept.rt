//! The server's end, RFC 4752 section 3.2.

ghost use Rattle.std.specs.Prelude.{◌≡◌, option_map, IfOk};
ghost use Rattle.sec_base.specs.Answers.{Gives};
ghost use Rattle.ap_exchange.specs.Judging.{judged};
ghost use Rattle.sasl_gssapi.specs.Accepting.{answers_request, accept_step, IsNewAnswer};

use crate::choosing::MOST;
use crate::refusal::ap_refused;
use crate::steps::{Agreed, offers, takes_choice};
use ap_exchange::judge_request;
use sasl_layer::{Layered, SaslRefusal, Wish};
use sec_base::{Moment, Octets};
use spnego_core::AcceptSetup;
use std::alloc::Global;

/// A server's end, by what is due next.
#[derive(Drop)]
pub enum SaslAccept {
    /// Kerberos's request.
    Asked(Wish),
    /// The empty message.
    Replied(Agreed),
    /// The choice.
    Offered(Agreed),
}

/// What comes of a step.
#[derive(Drop)]
pub enum SaslAnswer {
    /// The message is for the client, and its next one is due.
    More(SaslAccept, Octets),
    /// Both ends are done.
    Done(Layered),
}

/// The answer to Kerberos's request.
#[tactic(auto, using(crate::proofs::Signed::short_answer))]
fn answers_request(
    alloc: Global,
    wish: Wish,
    setup: &AcceptSetup,
    message: &[u8],
    now: Moment,
    draws: &[u8; 66],
) -> Result<SaslAnswer, SaslRefusal>
    ensures exact { Gives SaslRefusal.NoMemory (λ a. a) result (answers_request wish
        (judged setup.now.keytab setup.now.own now setup.now.bindings message.now) draws.now) }
    ensures new { IfOk result IsNewAnswer }
{
    match judge_request(
        alloc,
        &setup.keytab,
        &setup.own,
        now,
        setup.bindings.as_ref(),
        message,
    ) {
        Ok(request) => {
            let (done, reply) = request.answer(alloc, draws)?;
            Ok(SaslAnswer::More(SaslAccept::Replied(Agreed { wish, done }), reply))
        }
        Err(refusal) => Err(ap_refused(refusal)),
    }
}

impl SaslAccept {
    /// An end that waits for Kerberos's request.
    pub fn new(wish: Wish) -> SaslAccept
        ensures { result ≡ SaslAccept.Asked wish }
    {
        SaslAccept::Asked(wish)
    }

    /// The answer to a message.
    pub fn step(
        self,
        alloc: Global,
        setup: &AcceptSetup,
        message: &[u8],
        now: Moment,
        draws: &[u8; 66],
    ) -> Result<SaslAnswer, SaslRefusal>
        ensures exact { Gives SaslRefusal.NoMemory (λ a. a) result
            (accept_step setup.now self message.now now draws.now) }
        ensures new { IfOk result IsNewAnswer }
    {
        if message.len() > MOST as usize {
            return Err(SaslRefusal::TooLong);
        }
        match self {
            SaslAccept::Asked(wish) => answers_request(alloc, wish, setup, message, now, draws),
            SaslAccept::Replied(agreed) => {
                let offer = offers(alloc, &agreed, message)?;
                Ok(SaslAnswer::More(SaslAccept::Offered(agreed), offer))
            }
            SaslAccept::Offered(agreed) => {
                let end = takes_choice(alloc, &agreed, message)?;
                Ok(SaslAnswer::Done(end))
            }
        }
    }
}
