//! Credentials, RFC 2203 section 5.

ghost use Rattle.std.specs.Prelude.{◌≡◌, ◌<◌, ◌^◌, length, IfOk, Ok};
ghost use Rattle.rpc_msgs.specs.Xdr.{Answers, Reads};
ghost use Rattle.rpcsec_msgs.specs.Cred.{CredValue, IsCred, cred_value, cred_octets, cred_word_at};
ghost use Rattle.rpcsec_msgs.specs.Cred.{version_at, procedure_at, is_service, service_at};
ghost use Rattle.rpcsec_msgs.specs.Cred.{cred_fields_at, cred_at};

use crate::numbers::{
    RPC_GSS_SVC_NONE, RPC_GSS_SVC_PRIVACY, RPCSEC_GSS_DATA, RPCSEC_GSS_DESTROY, RPCSEC_GSS_VERS_1,
};
use rpc_msgs::{XdrReader, XdrRefusal, XdrWriter};
use sec_base::{NoMemory, Octets};
use std::alloc::Global;

/// The body of a credential.
///
/// | Octets | Field |
/// |---|---|
/// | 0 to 3 | the version, 1 |
/// | 4 to 7 | `proc`: 0 data, 1 creation, 2 its continuation, 3 destruction |
/// | 8 to 11 | `seq`, the number of the call |
/// | 12 to 15 | `service`: of a data call 1 none, 2 integrity, 3 privacy; else any number |
/// | from 16 | `context`, the handle, of variable length |
#[derive(Clone, Copy)]
pub struct GssCred<'a> {
    pub proc: u32,
    pub seq: u32,
    pub service: u32,
    pub context: &'a [u8],
}

/// The body isn't a credential: the place of the first octet that is wrong.
#[derive(Clone, Copy, Debug, PartialEq, Eq)]
pub struct CredRefusal {
    pub at: usize,
}

/// Reads the credential that a body is.
pub fn read_cred(body: &[u8]) -> Result<GssCred<'_>, CredRefusal>
    ensures exact { Answers cred_value result (cred_at body.now) }
    ensures found { IfOk result
        (λ c. IsCred (cred_value c) × (body.now ≡ cred_octets (cred_value c))) }
    ensures only { (c : CredValue) → IsCred c → body.now ≡ cred_octets c
        → Answers cred_value result (Ok c) }
{
    cred_in(body)
}

/// What `read_cred` answers.
/// It stands apart, so that its definition is unfolded here alone, and the other clauses are proved from what is said here.
#[tactic(auto, unfolding(crate::specs::Cred::cred_at))]
fn cred_in(body: &[u8]) -> Result<GssCred<'_>, CredRefusal>
    ensures { Answers cred_value result (cred_at body.now) }
{
    let mut reader = XdrReader::new(body);
    let cred = read_fields(&mut reader)?;
    match reader.end() {
        Ok(()) => Ok(cred),
        Err(refusal) => Err(CredRefusal { at: refusal.at }),
    }
}

/// Reads the fields in their order.
#[tactic(auto, unfolding(crate::specs::Cred::cred_fields_at))]
fn read_fields<'a>(reader: &mut XdrReader<'a>) -> Result<GssCred<'a>, CredRefusal>
    ensures { Reads cred_value reader.new result (cred_fields_at reader.old) }
{
    read_version(reader)?;
    let proc = read_procedure(reader)?;
    let seq = read_word(reader)?;
    let service = read_service(proc, reader)?;
    match reader.opaque(u32::MAX) {
        Ok(context) => Ok(GssCred {
            proc,
            seq,
            service,
            context,
        }),
        Err(refusal) => Err(CredRefusal { at: refusal.at }),
    }
}

/// Reads a word.
#[tactic(auto, unfolding(crate::specs::Cred::cred_word_at))]
fn read_word(reader: &mut XdrReader<'_>) -> Result<u32, CredRefusal>
    ensures { Reads (λ v. v) reader.new result (cred_word_at reader.old) }
{
    match reader.word() {
        Ok(number) => Ok(number),
        Err(refusal) => Err(CredRefusal { at: refusal.at }),
    }
}

/// Reads the version.
#[tactic(auto, unfolding(crate::specs::Cred::version_at))]
fn read_version(reader: &mut XdrReader<'_>) -> Result<(), CredRefusal>
    ensures { Reads (λ v. v) reader.new result (version_at reader.old) }
{
    let at = reader.place();
    let version = read_word(reader)?;
    if version != RPCSEC_GSS_VERS_1 {
        return Err(CredRefusal { at });
    }
    Ok(())
}

/// Reads the procedure.
#[tactic(auto, unfolding(crate::specs::Cred::procedure_at))]
fn read_procedure(reader: &mut XdrReader<'_>) -> Result<u32, CredRefusal>
    ensures { Reads (λ v. v) reader.new result (procedure_at reader.old) }
{
    let at = reader.place();
    let proc = read_word(reader)?;
    if proc > RPCSEC_GSS_DESTROY {
        return Err(CredRefusal { at });
    }
    Ok(proc)
}

/// Whether a call of this procedure may have this service.
fn serves(proc: u32, service: u32) -> bool
    ensures { result ≡ is_service proc service }
{
    proc != RPCSEC_GSS_DATA || (RPC_GSS_SVC_NONE <= service && service <= RPC_GSS_SVC_PRIVACY)
}

/// Reads the service.
#[tactic(auto, unfolding(crate::specs::Cred::service_at))]
fn read_service(proc: u32, reader: &mut XdrReader<'_>) -> Result<u32, CredRefusal>
    ensures { Reads (λ v. v) reader.new result (service_at proc reader.old) }
{
    let at = reader.place();
    let service = read_word(reader)?;
    if !serves(proc, service) {
        return Err(CredRefusal { at });
    }
    Ok(service)
}

/// The octets of a credential's body.
pub fn write_cred(alloc: Global, v: &GssCred<'_>) -> Result<Octets, NoMemory>
    requires { length v.now.context.now < 2 ^ 32 }
    ensures { IfOk result (λ octets. octets ≡ cred_octets (cred_value v.now)) }
{
    let mut out = XdrWriter::new(alloc);
    out.word(RPCSEC_GSS_VERS_1)?;
    out.word(v.proc)?;
    out.word(v.seq)?;
    out.word(v.service)?;
    out.opaque(v.context)?;
    Ok(out.finish())
}
