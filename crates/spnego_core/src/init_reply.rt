//! What an initiator answers.

ghost use Rattle.std.specs.Prelude.{◌≡◌, IfOk};
ghost use Rattle.spnego_core.specs.Tokens.{resp_octets};
ghost use Rattle.spnego_core.specs.Sizes.{IsShort, FitsBeside};
ghost use Rattle.spnego_core.specs.Initiating.{token_sent, completes_now, completes_later};

use crate::tokens::{resp_octets, says_completed};
use sec_base::{NoMemory, Octets};
use spnego_msgs::{NegResp, NegState};
use std::alloc::Global;

/// A later token with the mechanism's.
pub fn token_sent(alloc: Global, token: Octets) -> Result<Octets, NoMemory>
    ensures exact { IfOk result (λ o. o ≡ resp_octets (token_sent token)) }
    ensures short { FitsBeside token → IfOk result IsShort }
{
    let resp = NegResp {
        state: None,
        mech: None,
        token: Some(token),
        mic: None,
    };
    resp_octets(alloc, &resp)
}

/// Whether all is complete by the reply that finishes the mechanism, with a MIC or without one.
pub fn completes_now(state: Option<NegState>, signed: bool) -> bool
    ensures { result ≡ completes_now state signed }
{
    match state {
        None => !signed,
        Some(state) => says_completed(Some(state)),
    }
}

/// Whether all is complete by a reply to the own MIC.
pub fn completes_later(state: Option<NegState>) -> bool
    ensures { result ≡ completes_later state }
{
    match state {
        None => true,
        Some(state) => says_completed(Some(state)),
    }
}
