//! The calls of a client, RFC 2203 sections 5.2.2 and 5.3.1.

ghost use Rattle.std.specs.Prelude.{◌≡◌, ◌≤◌, length, IfOk};
ghost use Rattle.rpc_msgs.specs.Calls.{call_octets, secure_call};
ghost use Rattle.rpc_msgs.specs.Words.{opaque};
ghost use Rattle.rpcsec_msgs.specs.Cred.{cred_octets};
ghost use Rattle.gss_client.specs.Calling.{creation_call, signed_call, data_call};
ghost use Rattle.gss_client.specs.Calling.{destroy_call};
ghost use Rattle.gss_client.specs.Exchanging.{IsHandle};

use crate::session::Session;
use crate::terms::Terms;
use krb_tokens::Side;
use rpc_msgs::numbers::{AUTH_NONE, NULL, RPCSEC_GSS};
use rpc_msgs::{XdrWriter, write_call, write_header};
use rpcsec_bodies::protect;
use rpcsec_msgs::numbers::{RPC_GSS_SVC_NONE, RPCSEC_GSS_DATA, RPCSEC_GSS_DESTROY};
use rpcsec_msgs::{GssCred, write_cred};
use sec_base::{NoMemory, Octets};
use std::alloc::Global;

/// The body of a credential.
fn credential(
    alloc: Global,
    proc: u32,
    seq: u32,
    service: u32,
    handle: &[u8],
) -> Result<Octets, NoMemory>
    requires { IsHandle handle.now }
    ensures value { IfOk result (λ o. o ≡ cred_octets
        (record { proc = proc; seq = seq; service = service; context = handle.now })) }
    ensures size { IfOk result (λ o. length o ≤ 400) }
{
    let cred = GssCred {
        proc,
        seq,
        service,
        context: handle,
    };
    write_cred(alloc, &cred)
}

/// The argument of a creation call.
fn argument(alloc: Global, token: &[u8]) -> Result<Octets, NoMemory>
    requires { length token.now ≤ 65536 }
    ensures value { IfOk result (λ o. o ≡ opaque token.now) }
    ensures size { IfOk result (λ o. length o ≤ 130000) }
{
    let mut out = XdrWriter::new(alloc);
    out.opaque(token)?;
    Ok(out.finish())
}

/// A call, with room for it in a record.
fn call(
    alloc: Global,
    terms: Terms,
    xid: u32,
    procedure: u32,
    cred: &[u8],
    flavour: u32,
    verf: &[u8],
    args: &[u8],
) -> Result<Octets, NoMemory>
    requires cred { length cred.now ≤ 400 }
    requires verf { length verf.now ≤ 400 }
    requires args { length args.now ≤ 130000 }
    ensures value { IfOk result (λ o. o ≡ call_octets (secure_call xid terms.program terms.version
        procedure cred.now (record { flavour = flavour; body = verf.now }) args.now)) }
    ensures size { IfOk result (λ o. length o ≤ 131072) }
{
    write_call(
        alloc,
        xid,
        terms.program,
        terms.version,
        procedure,
        cred,
        flavour,
        verf,
        args,
    )
}

/// The record of a creation call, RFC 2203 section 5.2.2: `proc` is 1 in a first call, whose handle has no octets, and 2 afterwards. `terms` are the
/// session's. The token has at most 65,536 octets and the handle 64, so that the record has at most 131,072.
#[tactic(auto, unfolding(crate::specs::Calling::creation_call))]
pub fn creation_call(
    alloc: Global,
    terms: Terms,
    xid: u32,
    proc: u32,
    handle: &[u8],
    token: &[u8],
) -> Result<Octets, NoMemory>
    requires handle { IsHandle handle.now }
    requires token { length token.now ≤ 65536 }
    ensures value { IfOk result (λ o. o ≡ creation_call terms xid proc handle.now token.now) }
    ensures size { IfOk result (λ o. length o ≤ 131072) }
{
    let cred = credential(alloc, proc, 0, terms.service.number(), handle)?;
    match argument(alloc, token) {
        Ok(args) => {
            let record = call(
                alloc,
                terms,
                xid,
                NULL,
                cred.as_slice(),
                AUTH_NONE,
                &[],
                args.as_slice(),
            );
            drop(cred);
            drop(args);
            record
        }
        Err(NoMemory) => {
            drop(cred);
            Err(NoMemory)
        }
    }
}

/// A call in a context, with its verifier.
#[tactic(auto, unfolding(crate::specs::Calling::signed_call, crate::specs::Calling::verifier_of, crate::specs::Calling::header_of))]
fn signed_call(
    alloc: Global,
    session: &Session,
    proc: u32,
    service: u32,
    procedure: u32,
    body: &[u8],
) -> Result<Octets, NoMemory>
    requires { length body.now ≤ 130000 }
    ensures value { IfOk result (λ o. o ≡ signed_call session.now proc service procedure body.now) }
    ensures size { IfOk result (λ o. length o ≤ 131072) }
{
    let handle = session.handle.as_slice();
    let cred = credential(alloc, proc, session.number, service, handle)?;
    let spelled = cred.as_slice();
    let xid = session.xid;
    let terms = session.terms;
    match write_header(alloc, xid, terms.program, terms.version, procedure, spelled) {
        Ok(header) => {
            let end = session.outcome.token_end(Side::Initiator);
            let number = 2 * session.number as u64;
            let mic = end.make_mic_by(&session.keys.lent(), number, header.as_slice());
            drop(header);
            let record = call(
                alloc, terms, xid, procedure, spelled, RPCSEC_GSS, &mic, body,
            );
            drop(cred);
            record
        }
        Err(NoMemory) => {
            drop(cred);
            Err(NoMemory)
        }
    }
}

/// The call of a procedure.
#[tactic(auto, unfolding(crate::specs::Calling::data_call))]
pub(crate) fn data_call(
    alloc: Global,
    session: &Session,
    procedure: u32,
    args: &[u8],
    confounder: &[u8; 16],
) -> Result<Octets, NoMemory>
    requires { length args.now ≤ 65540 }
    ensures value { IfOk result (λ o. o ≡ data_call session.now procedure args.now confounder.now) }
    ensures size { IfOk result (λ o. length o ≤ 131072) }
{
    let body = protect(
        alloc,
        &session.outcome.token_end(Side::Initiator),
        &session.keys.lent(),
        session.terms.service,
        session.number,
        confounder,
        args,
    )?;
    signed_call(
        alloc,
        session,
        RPCSEC_GSS_DATA,
        session.terms.service.number(),
        procedure,
        body.as_slice(),
    )
}

/// The call that destroys the context.
#[tactic(auto, unfolding(crate::specs::Calling::destroy_call))]
pub(crate) fn destroy_call(alloc: Global, session: &Session) -> Result<Octets, NoMemory>
    ensures value { IfOk result (λ o. o ≡ destroy_call session.now) }
    ensures size { IfOk result (λ o. length o ≤ 131072) }
{
    signed_call(
        alloc,
        session,
        RPCSEC_GSS_DESTROY,
        RPC_GSS_SVC_NONE,
        NULL,
        &[],
    )
}
