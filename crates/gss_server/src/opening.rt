//! What calls carry: handles, tokens, and arguments in the bodies of RFC 2203 section 5.3.2.

ghost use Rattle.std.specs.Prelude.{◌≡◌, IfOk};
ghost use Rattle.rpc_msgs.specs.Xdr.{Answers};
ghost use Rattle.rpcsec_msgs.specs.Cred.{cred_value};
ghost use Rattle.accept_book.specs.RecordShown.{body_args, handle_id};
ghost use Rattle.accept_book.specs.Served.{one_opaque};

use krb_tokens::{LentKeys, TokenEnd};
use rpc_msgs::{XdrReader, XdrRefusal};
use rpcsec_bodies::{BodyRefusal, Service, unprotect};
use rpcsec_msgs::GssCred;
use sec_base::{NoMemory, Octets};
use std::alloc::Global;

/// The octets that a token may have.
const TOKEN: u32 = 65_536;

/// The arguments that a body carries by the service of its call, where it is one.
#[tactic(auto, unfolding(accept_book::specs::RecordShown::body_args))]
pub(crate) fn open_body(
    alloc: Global,
    end: &TokenEnd,
    keys: &LentKeys<'_>,
    cred: &GssCred<'_>,
    body: &[u8],
) -> Result<Option<Octets>, NoMemory>
    ensures { IfOk result (λ args. args ≡ body_args end.now (cred_value cred.now) body.now) }
{
    match unprotect(alloc, end, keys, Service::of(cred.service), cred.seq, body) {
        Ok(args) => Ok(Some(args)),
        Err(BodyRefusal::NoMemory) => Err(NoMemory),
        Err(_) => Ok(None),
    }
}

/// The one token that arguments of a creation are.
pub(crate) fn token_in(args: &[u8]) -> Result<&[u8], XdrRefusal>
    ensures { Answers (λ token. token.now) result (one_opaque args.now) }
{
    let mut reader = XdrReader::new(args);
    let token = reader.opaque(TOKEN)?;
    reader.end()?;
    Ok(token)
}

/// The id that a handle is.
pub(crate) fn id_in(handle: &[u8]) -> Option<u64>
    ensures { result ≡ handle_id handle.now }
{
    match handle {
        [a, b, c, d, e, f, g, h] => Some(u64::from_be_bytes([*a, *b, *c, *d, *e, *f, *g, *h])),
        _ => None,
    }
}
