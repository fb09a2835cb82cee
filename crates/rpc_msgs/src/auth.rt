//! Credentials and verifiers, RFC 5531 section 8.2.

ghost use Rattle.std.specs.Prelude.{◌≡◌, ◌≤◌, ◌++◌, length, OnOk};
ghost use Rattle.rpc_msgs.specs.Auths.{auth_value, auth_octets, auth_at};
ghost use Rattle.rpc_msgs.specs.Xdr.{Reads};

use crate::xdr_reader::{XdrReader, XdrRefusal};
use crate::xdr_writer::XdrWriter;
use sec_base::NoMemory;

/// The octets that a body may have.
const BODY: u32 = 400;

/// Who calls or answers, or what shows it: a flavour and its body of at most 400 octets.
#[derive(Clone, Copy)]
pub struct Auth<'a> {
    pub flavour: u32,
    pub body: &'a [u8],
}

/// Reads a flavour and its body.
#[tactic(auto, unfolding(crate::specs::Auths::auth_at))]
pub(crate) fn read_auth<'a>(reader: &mut XdrReader<'a>) -> Result<Auth<'a>, XdrRefusal>
    ensures { Reads auth_value reader.new result (auth_at reader.old) }
{
    let flavour = reader.word()?;
    let body = reader.opaque(BODY)?;
    Ok(Auth { flavour, body })
}

/// Appends a flavour and its body.
pub(crate) fn put_auth(out: &mut XdrWriter, flavour: u32, body: &[u8]) -> Result<(), NoMemory>
    requires { length body.now ≤ 400 }
    ensures { OnOk result
        (out.new ≡ out.old ++ auth_octets (record { flavour = flavour; body = body.now })) }
{
    out.word(flavour)?;
    out.opaque(body)
}
