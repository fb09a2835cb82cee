//! Results of creation calls, RFC 2203 section 5.2.3.1.

ghost use Rattle.std.specs.Prelude.{◌≡◌, ◌≤◌, length, IfOk, Ok};
ghost use Rattle.rpc_msgs.specs.Xdr.{MayAnswer};
ghost use Rattle.rpcsec_msgs.specs.InitRes.{IsInitRes, init_res_octets, init_fields_at};
ghost use Rattle.rpcsec_msgs.specs.InitRes.{init_res_at, MayRead};

use rpc_msgs::{XdrReader, XdrRefusal, XdrWriter};
use sec_base::{NoMemory, Octets};
use std::alloc::Global;

/// The octets that a handle may have here, so that a credential keeps to its 400.
const HANDLE: u32 = 64;

/// The octets that a token may have.
const TOKEN: u32 = 65_536;

/// The result of a creation call.
///
/// | Order | Field |
/// |---|---|
/// | 1 | `context`, the handle, at most 64 octets |
/// | 2 | `major`, the major status |
/// | 3 | `minor`, the minor status |
/// | 4 | `window`, how many numbers the server remembers |
/// | 5 | `token`, at most 65,536 octets |
#[derive(Drop)]
pub struct InitRes {
    pub context: Octets,
    pub major: u32,
    pub minor: u32,
    pub window: u32,
    pub token: Octets,
}

/// Reads the result that the octets are.
pub fn read_init_res(alloc: Global, bytes: &[u8]) -> Result<InitRes, XdrRefusal>
    ensures exact { MayAnswer (λ v. v) result (init_res_at bytes.now) }
    ensures found { IfOk result (λ v. IsInitRes v × (bytes.now ≡ init_res_octets v)) }
    ensures only { (v : _) → IsInitRes v → bytes.now ≡ init_res_octets v
        → MayAnswer (λ x. x) result (Ok v) }
{
    init_res_in(alloc, bytes)
}

/// What `read_init_res` answers.
/// It stands apart, so that its definition is unfolded here alone, and the other clauses are proved from what is said here.
#[tactic(auto, unfolding(crate::specs::InitRes::init_res_at))]
fn init_res_in(alloc: Global, bytes: &[u8]) -> Result<InitRes, XdrRefusal>
    ensures { MayAnswer (λ v. v) result (init_res_at bytes.now) }
{
    let mut reader = XdrReader::new(bytes);
    let result = read_fields(alloc, &mut reader)?;
    reader.end()?;
    Ok(result)
}

/// Reads the fields in their order.
#[tactic(auto, unfolding(crate::specs::InitRes::init_fields_at))]
fn read_fields(alloc: Global, reader: &mut XdrReader<'_>) -> Result<InitRes, XdrRefusal>
    ensures { MayRead (λ v. v) reader.new result (init_fields_at reader.old) }
{
    let context = reader.opaque(HANDLE)?;
    let major = reader.word()?;
    let minor = reader.word()?;
    let window = reader.word()?;
    let token = reader.opaque(TOKEN)?;
    Ok(InitRes {
        context: Octets::of(alloc, context)?,
        major,
        minor,
        window,
        token: Octets::of(alloc, token)?,
    })
}

/// The octets of a result.
pub fn write_init_res(alloc: Global, v: &InitRes) -> Result<Octets, NoMemory>
    requires context { length v.now.context ≤ 64 }
    requires token { length v.now.token ≤ 65536 }
    ensures { IfOk result (λ octets. octets ≡ init_res_octets v.now) }
{
    let mut out = XdrWriter::new(alloc);
    out.opaque(v.context.as_slice())?;
    out.word(v.major)?;
    out.word(v.minor)?;
    out.word(v.window)?;
    out.opaque(v.token.as_slice())?;
    Ok(out.finish())
}
