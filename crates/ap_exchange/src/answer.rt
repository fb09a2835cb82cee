//! The answer of an acceptor, RFC 4120 section 3.2.4.

ghost use Rattle.std.specs.Prelude.{◌≡◌, IfOk};
ghost use Rattle.der_core.specs.Format.{WritesWhole};
ghost use Rattle.krb_msgs.specs.ApRep.{ap_rep};
ghost use Rattle.krb_msgs.specs.EncApRepPart.{enc_ap_rep_part};
ghost use Rattle.ap_exchange.specs.Keys.{reply_usage, SealedOpens};
ghost use Rattle.ap_exchange.specs.Draws.{drawn_confounder};
ghost use Rattle.ap_exchange.specs.Answer.{reply_part_with, ap_rep_with, answer_of, AnswerFits};

use crate::draws::{confounder_of, subkey_of};
use crate::judged::Judged;
use crate::keys::{REPLY_USAGE, key_value, sealed_data};
use crate::times::seconds_of;
use crate::token::{AP_REP, framed_message};
use krb_derive::Key;
use krb_msgs::{ApRep, EncApRepPart, write_ap_rep, write_enc_ap_rep_part};
use krb_tokens::MechDone;
use sec_base::{Moment, NoMemory, Octets};
use std::alloc::Global;

/// What the reply seals.
fn reply_octets(alloc: Global, stamp: Moment, subkey: &Key) -> Result<Octets, NoMemory>
    ensures { IfOk result (λ o. WritesWhole enc_ap_rep_part (reply_part_with stamp subkey.now) o) }
{
    let subkey = key_value(alloc, subkey)?;
    let part = EncApRepPart {
        ctime: seconds_of(stamp),
        cusec: stamp.micros(),
        subkey: Some(subkey),
        seq_number: Some(0),
    };
    write_enc_ap_rep_part(alloc, &part)
}

/// The message of a reply that seals these octets.
fn reply_message(
    alloc: Global,
    session: &Key,
    draws: &[u8; 66],
    octets: &[u8],
) -> Result<Octets, NoMemory>
    ensures message { IfOk result
        (λ o. WritesWhole ap_rep (ap_rep_with session.now draws.now octets.now) o) }
    ensures opens { IfOk result
        (λ _. SealedOpens session.now reply_usage (drawn_confounder draws.now) octets.now) }
{
    let confounder = confounder_of(draws);
    let enc_part = sealed_data(alloc, session, None, REPLY_USAGE, &confounder, octets)?;
    let reply = ApRep { enc_part };
    let message = write_ap_rep(alloc, &reply);
    drop(reply);
    message
}

impl Judged {
    /// What the acceptor is left with, and the token for the initiator: a subkey of its own, of the session key's type.
    #[tactic(auto, unfolding(crate::specs::Answer::answer_token, crate::specs::Tokens::token_of))]
    pub fn answer(self, alloc: Global, draws: &[u8; 66]) -> Result<(MechDone, Octets), NoMemory>
        ensures value { IfOk result (λ p. p ≡ answer_of self draws.now) }
        ensures fits { IfOk result (λ _. AnswerFits self draws.now) }
    {
        let subkey = subkey_of(self.session.etype(), draws);
        let octets = reply_octets(alloc, self.stamp, &subkey)?;
        let message = reply_message(alloc, &self.session, draws, octets.as_slice())?;
        let token = framed_message(alloc, AP_REP, message.as_slice())?;
        let done = MechDone {
            key: subkey,
            subkey: true,
            initiator: self.initiator,
            acceptor: self.acceptor,
            hash: self.hash,
            ends: self.ends,
            first: self.first,
        };
        Ok((done, token))
    }
}
