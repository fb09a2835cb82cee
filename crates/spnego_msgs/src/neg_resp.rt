//! NegTokenResp, RFC 4178 section 4.2.2.

ghost use Rattle.std.specs.Prelude.{◌≡◌, IfOk, OnOk, Ok};
ghost use Rattle.der_core.specs.Format.{all_of, MayAnswer, PutsAll, WritesWhole};
ghost use Rattle.spnego_msgs.specs.NegResp.{neg_resp_fields, neg_resp};

use crate::NegState;
use crate::choice::{both_end, put_choice, token_and_mic};
use der_core::{DerRefusal, Reader, Writer, optional, put_optional};
use sec_base::{NoMemory, Octets, Oid};
use std::alloc::Global;

/// A later token of a negotiation, and the acceptor's first. It has no frame.
///
/// | Tag | Field |
/// |---|---|
/// | 0 | negState, OPTIONAL |
/// | 1 | supportedMech, OPTIONAL |
/// | 2 | responseToken, OPTIONAL |
/// | 3 | mechListMIC, OPTIONAL |
#[derive(Drop)]
pub struct NegResp {
    pub state: Option<NegState>,
    pub mech: Option<Oid>,
    pub token: Option<Octets>,
    pub mic: Option<Octets>,
}

/// Reads the token that all the octets are.
pub fn read_resp(alloc: Global, bytes: &[u8]) -> Result<NegResp, DerRefusal>
    ensures exact { MayAnswer (λ t. t) result (neg_resp.read (all_of bytes.now)) }
    ensures found { IfOk result (λ t. WritesWhole neg_resp t bytes.now) }
    ensures only { (t : _) → WritesWhole neg_resp t bytes.now → MayAnswer (λ x. x) result (Ok t) }
{
    neg_resp_of(alloc, bytes)
}

/// What `read_resp` answers.
/// It stands apart, so that its definition is unfolded here alone, and the other clauses are proved from what is said here.
#[tactic(auto, unfolding(crate::specs::NegResp::neg_resp))]
fn neg_resp_of(alloc: Global, bytes: &[u8]) -> Result<NegResp, DerRefusal>
    ensures { MayAnswer (λ t. t) result (neg_resp.read (all_of bytes.now)) }
{
    let mut reader = Reader::new(bytes);
    let mut choice = reader.tlv(0xa1)?;
    let mut fields = choice.tlv(0x30)?;
    let token = resp_fields(alloc, &mut fields)?;
    match both_end(&choice, &reader) {
        Ok(()) => Ok(token),
        Err(refusal) => {
            drop(token);
            Err(refusal)
        }
    }
}

/// Reads the token's fields.
fn resp_fields(alloc: Global, fields: &mut Reader) -> Result<NegResp, DerRefusal>
    ensures { MayAnswer (λ t. (t.state, (t.mech, (t.token, (t.mic, tt))))) result
        (neg_resp_fields.read fields.old) }
{
    let state = optional(alloc, fields, 0xa0)?;
    let mech = optional(alloc, fields, 0xa1)?;
    let (token, mic) = token_and_mic(alloc, fields)?;
    Ok(NegResp {
        state,
        mech,
        token,
        mic,
    })
}

/// The token's octets.
#[tactic(auto, unfolding(crate::specs::NegResp::neg_resp))]
pub fn write_resp(alloc: Global, v: &NegResp) -> Result<Octets, NoMemory>
    ensures { IfOk result (λ o. WritesWhole neg_resp v.now o) }
{
    let mut fields = Writer::new(alloc)?;
    put_resp_fields(alloc, &mut fields, v)?;
    let mut out = Writer::new(alloc)?;
    put_choice(alloc, &mut out, 0xa1, fields.as_slice())?;
    out.finish()
}

/// Adds the token's fields.
fn put_resp_fields(alloc: Global, fields: &mut Writer, v: &NegResp) -> Result<(), NoMemory>
    ensures { OnOk result (PutsAll neg_resp_fields
        (v.now.state, (v.now.mech, (v.now.token, (v.now.mic, tt)))) fields.old fields.new) }
{
    put_optional(alloc, fields, 0xa0, &v.state)?;
    put_optional(alloc, fields, 0xa1, &v.mech)?;
    put_optional(alloc, fields, 0xa2, &v.token)?;
    put_optional(alloc, fields, 0xa3, &v.mic)?;
    Ok(())
}
