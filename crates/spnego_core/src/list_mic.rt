//! The MIC of the mechanism list, RFC 4178 section 5.

ghost use Rattle.std.specs.Prelude.{◌≡◌, IfOk, Ok};
ghost use Rattle.sec_base.specs.Answers.{Gives};
ghost use Rattle.spnego_core.specs.Sizes.{IsMicSized};
ghost use Rattle.spnego_core.specs.ListMic.{list_mic, is_list_mic};

use crate::outcome::Outcome;
use crate::refusal::NegRefusal;
use krb_tokens::Side;
use sec_base::{NoMemory, Octets, Oid};
use spnego_msgs::list_bytes;
use std::alloc::Global;

/// The number of the list's MIC.
const NUMBER: u64 = 0;

/// The MIC that this side makes over a list.
#[tactic(auto, unfolding(crate::specs::ListMic::list_mic))]
pub fn list_mic(
    alloc: Global,
    outcome: &Outcome,
    side: Side,
    list: &[Oid],
) -> Result<Octets, NoMemory>
    ensures exact { IfOk result (λ o. o ≡ list_mic outcome.now side list.now) }
    ensures sized { IfOk result IsMicSized }
{
    let octets = list_bytes(alloc, list)?;
    let mic = outcome.token_end(side).make_mic(NUMBER, octets.as_slice());
    Octets::of(alloc, &mic)
}

/// Whether this side takes a token as the other side's MIC over a list.
#[tactic(auto, unfolding(crate::specs::ListMic::is_list_mic))]
pub fn is_list_mic(
    alloc: Global,
    outcome: &Outcome,
    side: Side,
    list: &[Oid],
    mic: &Octets,
) -> Result<bool, NegRefusal>
    ensures { Gives NegRefusal.NoMemory (λ b. b) result
        (Ok (is_list_mic outcome.now side list.now mic.now)) }
{
    let octets = list_bytes(alloc, list)?;
    let end = outcome.token_end(side);
    Ok(end.check_mic(mic.as_slice(), octets.as_slice()).is_ok())
}
