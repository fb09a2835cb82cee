//! The tokens of a negotiation as an end reads and writes them.

ghost use Rattle.std.specs.Prelude.{◌≡◌, IfOk, true};
ghost use Rattle.sec_base.specs.Answers.{Gives};
ghost use Rattle.spnego_msgs.specs.Lists.{is_count};
ghost use Rattle.spnego_core.specs.Tokens.{init_read, resp_read, first_of, bare_reply, first_read};
ghost use Rattle.spnego_core.specs.Tokens.{last_read, init_octets, resp_octets, last_octets};
ghost use Rattle.spnego_core.specs.Tokens.{is_state_reject, is_state_completed, is_state_request};
ghost use Rattle.spnego_core.specs.Tokens.{rejects, says_completed, asks_mic};
ghost use Rattle.spnego_core.specs.Sizes.{IsShort};

use crate::refusal::{NegRefusal, unread};
use sec_base::{NoMemory, Octets, Oid};
use spnego_msgs::{NegInit, NegResp, NegState, read_init, read_resp, write_init, write_resp};
use std::alloc::Global;

/// What the first token says.
#[tactic(auto, unfolding(crate::specs::Tokens::init_read))]
pub fn init_read(alloc: Global, token: &[u8]) -> Result<NegInit, NegRefusal>
    ensures { Gives NegRefusal.NoMemory (λ i. i) result (init_read token.now) }
{
    match read_init(alloc, token) {
        Ok(init) => Ok(init),
        Err(refusal) => Err(unread(refusal)),
    }
}

/// What a later token says.
#[tactic(auto, unfolding(crate::specs::Tokens::resp_read))]
pub fn resp_read(alloc: Global, token: &[u8]) -> Result<NegResp, NegRefusal>
    ensures { Gives NegRefusal.NoMemory (λ r. r) result (resp_read token.now) }
{
    match read_resp(alloc, token) {
        Ok(resp) => Ok(resp),
        Err(refusal) => Err(unread(refusal)),
    }
}

/// The first of a list's identifiers.
fn first_of(list: &[Oid]) -> Option<Oid>
    ensures { result ≡ first_of list.now }
{
    match list {
        [] => None,
        [first, ..] => Some(*first),
    }
}

/// What the mechanism's own token says as a reply to an initiator with this list that doesn't negotiate.
fn bare_reply(alloc: Global, list: &[Oid], token: &[u8]) -> Result<NegResp, NoMemory>
    ensures { IfOk result (λ r. r ≡ bare_reply list.now token.now) }
{
    let octets = Octets::of(alloc, token)?;
    Ok(NegResp {
        state: Some(NegState::Completed),
        mech: first_of(list),
        token: Some(octets),
        mic: None,
    })
}

/// What the first reply says to an initiator with this list, by whether it negotiates.
pub fn first_read(
    alloc: Global,
    negotiates: bool,
    list: &[Oid],
    token: &[u8],
) -> Result<NegResp, NegRefusal>
    ensures { Gives NegRefusal.NoMemory (λ r. r) result
        (first_read negotiates list.now token.now) }
{
    if negotiates {
        resp_read(alloc, token)
    } else {
        let resp = bare_reply(alloc, list, token)?;
        Ok(resp)
    }
}

/// What the reply to an own MIC says: an empty one says that all is complete.
pub fn last_read(alloc: Global, token: &[u8]) -> Result<NegResp, NegRefusal>
    ensures { Gives NegRefusal.NoMemory (λ r. r) result (last_read token.now) }
{
    match token {
        [] => Ok(NegResp {
            state: Some(NegState::Completed),
            mech: None,
            token: None,
            mic: None,
        }),
        _ => resp_read(alloc, token),
    }
}

/// The octets of a NegTokenInit.
#[tactic(auto, unfolding(crate::specs::Tokens::init_octets))]
pub fn init_octets(alloc: Global, init: &NegInit) -> Result<Octets, NoMemory>
    requires { is_count init.now.list ≡ true }
    ensures { IfOk result (λ o. o ≡ init_octets init.now) }
{
    write_init(alloc, init)
}

/// The octets of a later token.
#[tactic(auto, unfolding(crate::specs::Tokens::resp_octets))]
pub fn resp_octets(alloc: Global, resp: &NegResp) -> Result<Octets, NoMemory>
    ensures { IfOk result (λ o. o ≡ resp_octets resp.now) }
{
    write_resp(alloc, resp)
}

fn is_state_reject(state: NegState) -> bool
    ensures { result ≡ is_state_reject state }
{
    match state {
        NegState::Completed => false,
        NegState::Incomplete => false,
        NegState::Reject => true,
        NegState::RequestMic => false,
    }
}

fn is_state_completed(state: NegState) -> bool
    ensures { result ≡ is_state_completed state }
{
    match state {
        NegState::Completed => true,
        NegState::Incomplete => false,
        NegState::Reject => false,
        NegState::RequestMic => false,
    }
}

fn is_state_request(state: NegState) -> bool
    ensures { result ≡ is_state_request state }
{
    match state {
        NegState::Completed => false,
        NegState::Incomplete => false,
        NegState::Reject => false,
        NegState::RequestMic => true,
    }
}

/// Whether reject is said.
pub fn rejects(state: Option<NegState>) -> bool
    ensures { result ≡ rejects state }
{
    match state {
        None => false,
        Some(state) => is_state_reject(state),
    }
}

/// Whether accept-completed is said.
pub fn says_completed(state: Option<NegState>) -> bool
    ensures { result ≡ says_completed state }
{
    match state {
        None => false,
        Some(state) => is_state_completed(state),
    }
}

/// Whether request-mic is said.
pub fn asks_mic(state: Option<NegState>) -> bool
    ensures { result ≡ asks_mic state }
{
    match state {
        None => false,
        Some(state) => is_state_request(state),
    }
}

/// The octets of an acceptor's last reply, by the state that came with the initiator's MIC.
pub fn last_octets(alloc: Global, state: Option<NegState>) -> Result<Octets, NoMemory>
    ensures exact { IfOk result (λ o. o ≡ last_octets state) }
    ensures short { IfOk result IsShort }
{
    last_written(alloc, state)
}

/// What `last_octets` answers.
/// It stands apart, so that the other clause is proved from what is said here.
fn last_written(alloc: Global, state: Option<NegState>) -> Result<Octets, NoMemory>
    ensures { IfOk result (λ o. o ≡ last_octets state) }
{
    if says_completed(state) {
        return Ok(Octets::from_vec(Vec::new(alloc)));
    }
    let resp = NegResp {
        state: Some(NegState::Completed),
        mech: None,
        token: None,
        mic: None,
    };
    resp_octets(alloc, &resp)
}
