//! Calls, RFC 5531 section 9.

ghost use Rattle.std.specs.Prelude.{◌≡◌, ◌≤◌, ◌++◌, length, OnOk, IfOk, Ok};
ghost use Rattle.rpc_msgs.specs.Calls.{CallValue, IsCall, call_octets, secure_call, header_octets};
ghost use Rattle.rpc_msgs.specs.Calls.{call_value, call_word_at, version_at, xid_at, rest_at};
ghost use Rattle.rpc_msgs.specs.Calls.{call_at};
ghost use Rattle.rpc_msgs.specs.Xdr.{Answers, Reads};

use crate::auth::{Auth, put_auth, read_auth};
use crate::numbers::{CALL, RPC_VERSION, RPCSEC_GSS};
use crate::xdr_reader::{XdrReader, XdrRefusal};
use crate::xdr_writer::{XdrWriter, put_words};
use sec_base::{NoMemory, Octets};
use std::alloc::Global;

/// A call.
#[derive(Clone, Copy)]
pub struct Call<'a> {
    pub xid: u32,
    pub program: u32,
    pub version: u32,
    pub procedure: u32,
    pub cred: Auth<'a>,
    pub verf: Auth<'a>,
    /// How many octets there are up to the end of the credential.
    pub header: usize,
    pub args: &'a [u8],
}

/// Why octets aren't a call, in the order in which it is judged.
#[derive(Clone, Copy, Debug, PartialEq, Eq)]
pub enum CallRefusal {
    /// They end inside the call, or a value isn't XDR, at this place.
    Unreadable { at: usize },
    /// They are another kind of message.
    NotCall,
    /// The version of RPC isn't 2.
    RpcVersion { xid: u32 },
}

/// Reads a call. The kind is judged before the RPC version is read, and that before the rest.
pub fn read_call(bytes: &[u8]) -> Result<Call<'_>, CallRefusal>
    ensures exact { Answers call_value result (call_at bytes.now) }
    // What is read is spelled so, and what is spelled so is read.
    ensures spelled { IfOk result
        (λ call. IsCall (call_value call) × (bytes.now ≡ call_octets (call_value call))) }
    ensures only { (call : CallValue) → IsCall call → bytes.now ≡ call_octets call
        → Answers call_value result (Ok call) }
{
    call_in(bytes)
}

/// What `read_call` answers.
/// It stands apart, so that its definition is unfolded here alone, and the other clauses are proved from what is said here.
#[tactic(auto, unfolding(crate::specs::Calls::call_at))]
fn call_in(bytes: &[u8]) -> Result<Call<'_>, CallRefusal>
    ensures { Answers call_value result (call_at bytes.now) }
{
    let mut reader = XdrReader::new(bytes);
    let xid = read_xid(&mut reader)?;
    match read_rest(xid, &mut reader) {
        Ok(call) => Ok(call),
        Err(refusal) => Err(CallRefusal::Unreadable { at: refusal.at }),
    }
}

/// Reads the xid, and judges the kind and the RPC version behind it.
#[tactic(auto, unfolding(crate::specs::Calls::xid_at))]
fn read_xid(reader: &mut XdrReader<'_>) -> Result<u32, CallRefusal>
    ensures { Reads (λ v. v) reader.new result (xid_at reader.old) }
{
    let xid = read_word(reader)?;
    let kind = read_word(reader)?;
    if kind != CALL {
        return Err(CallRefusal::NotCall);
    }
    read_version(xid, reader)
}

/// Judges the RPC version of the call with this xid.
#[tactic(auto, unfolding(crate::specs::Calls::version_at))]
fn read_version(xid: u32, reader: &mut XdrReader<'_>) -> Result<u32, CallRefusal>
    ensures { Reads (λ v. v) reader.new result (version_at xid reader.old) }
{
    let version = read_word(reader)?;
    if version != RPC_VERSION {
        return Err(CallRefusal::RpcVersion { xid });
    }
    Ok(xid)
}

/// Reads a word of the call.
#[tactic(auto, unfolding(crate::specs::Calls::call_word_at))]
fn read_word(reader: &mut XdrReader<'_>) -> Result<u32, CallRefusal>
    ensures { Reads (λ v. v) reader.new result (call_word_at reader.old) }
{
    match reader.word() {
        Ok(number) => Ok(number),
        Err(refusal) => Err(CallRefusal::Unreadable { at: refusal.at }),
    }
}

/// Reads what stands behind the RPC version.
#[tactic(auto, unfolding(crate::specs::Calls::rest_at))]
fn read_rest<'a>(xid: u32, reader: &mut XdrReader<'a>) -> Result<Call<'a>, XdrRefusal>
    ensures { Answers call_value result (rest_at xid reader.old) }
{
    let program = reader.word()?;
    let version = reader.word()?;
    let procedure = reader.word()?;
    let cred = read_auth(reader)?;
    let header = reader.place();
    let verf = read_auth(reader)?;
    Ok(Call {
        xid,
        program,
        version,
        procedure,
        cred,
        verf,
        header,
        args: reader.rest(),
    })
}

/// The octets of a call whose credential has flavour 6 (RFC 2203) and this body.
pub fn write_call(
    alloc: Global,
    xid: u32,
    program: u32,
    version: u32,
    procedure: u32,
    cred: &[u8],
    verf_flavour: u32,
    verf: &[u8],
    args: &[u8],
) -> Result<Octets, NoMemory>
    requires cred { length cred.now ≤ 400 }
    requires verf { length verf.now ≤ 400 }
    ensures octets { let call = secure_call xid program version procedure
        cred.now (record { flavour = verf_flavour; body = verf.now }) args.now in IfOk result
        (λ octets. octets ≡ call_octets call) }
    // It is read as that call.
    ensures again { let call = secure_call xid program version procedure
        cred.now (record { flavour = verf_flavour; body = verf.now }) args.now in IfOk result
        (λ octets. call_at octets ≡ Ok call) }
{
    let mut out = XdrWriter::new(alloc);
    put_header(&mut out, xid, program, version, procedure, cred)?;
    put_auth(&mut out, verf_flavour, verf)?;
    out.octets(args)?;
    Ok(out.finish())
}

/// The octets of a call up to the end of its credential, which is one of RPCSEC_GSS: the call's verifier is a MIC over them (RFC 2203 section 5.3.1).
pub fn write_header(
    alloc: Global,
    xid: u32,
    program: u32,
    version: u32,
    procedure: u32,
    cred: &[u8],
) -> Result<Octets, NoMemory>
    requires { length cred.now ≤ 400 }
    ensures { IfOk result (λ octets. octets ≡ header_octets xid program version procedure
        (record { flavour = RPCSEC_GSS; body = cred.now })) }
{
    let mut out = XdrWriter::new(alloc);
    put_header(&mut out, xid, program, version, procedure, cred)?;
    Ok(out.finish())
}

/// Appends a call up to the end of its credential.
fn put_header(
    out: &mut XdrWriter,
    xid: u32,
    program: u32,
    version: u32,
    procedure: u32,
    cred: &[u8],
) -> Result<(), NoMemory>
    requires { length cred.now ≤ 400 }
    ensures { OnOk result (out.new ≡ out.old ++ header_octets xid program version procedure
        (record { flavour = RPCSEC_GSS; body = cred.now })) }
{
    put_words(out, xid, CALL, RPC_VERSION)?;
    put_words(out, program, version, procedure)?;
    put_auth(out, RPCSEC_GSS, cred)
}
