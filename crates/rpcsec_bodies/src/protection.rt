//! Bodies as an end makes them, RFC 2203 section 5.3.2.

ghost use Rattle.std.specs.Prelude.{◌≡◌, ◌≤◌, ◌+◌, ◌*◌, ◌++◌, true, length, IfOk, OnOk, Ok};
ghost use Rattle.rpc_msgs.specs.Words.{word, opaque};
ghost use Rattle.rpcsec_msgs.specs.Bodies.{checked_octets};
ghost use Rattle.krb_tokens.specs.Mic.{mic_of};
ghost use Rattle.krb_tokens.specs.Wrap.{wrap_of};
ghost use Rattle.krb_tokens.specs.End.{facing};
ghost use Rattle.rpcsec_bodies.specs.Opening.{unprotected};
ghost use Rattle.rpcsec_bodies.specs.Protection.{protected, Opens};

use crate::service::Service;
use krb_tokens::{LentKeys, TokenEnd};
use rpc_msgs::XdrWriter;
use sec_base::{NoMemory, Octets};
use std::alloc::Global;

/// The octets of a sealed token beside its content: two headers, confounder and tag (RFC 4121 section 4.2.4).
const SEAL: usize = 60;

/// The octets of the call's number in front of a content.
const NUMBER: usize = 4;

/// The octets that a body has at most beside its content: a sealed token's and the number, a length and padding.
const BESIDE: usize = SEAL + NUMBER + 8;

/// The body with this content, arguments or a result, in the call of this number or the reply to it, by the service of the call.
/// The confounder is what a sealed body begins with.
pub fn protect(
    alloc: Global,
    end: &TokenEnd,
    keys: &LentKeys<'_>,
    service: Service,
    seq: u32,
    confounder: &[u8; 16],
    content: &[u8],
) -> Result<Octets, NoMemory>
    requires { length content.now ≤ 65540 }
    ensures value { IfOk result (λ body. body
        ≡ protected end.now service seq confounder.now content.now) }
    ensures size { IfOk result (λ body. length body ≤ 130000) }
    ensures taken { IfOk result
        (λ body. unprotected (facing end.now) service seq body ≡ Ok content.now) }
{
    let out = XdrWriter::with_room(alloc, content.len() + BESIDE)?;
    let body = protect_onto(out, end, keys, service, seq, confounder, content)?;
    Ok(body.finish())
}

/// Appends the body that `protect` answers. It is made where it stands, so that the content is copied once. The most octets of a content
/// are those with which a reply by privacy fills a record of 131,072: behind 52 of its head stand a length and a sealed token.
#[tactic(auto, unfolding(crate::specs::Protection::protected))]
pub fn protect_onto(
    out: XdrWriter,
    end: &TokenEnd,
    keys: &LentKeys<'_>,
    service: Service,
    seq: u32,
    confounder: &[u8; 16],
    content: &[u8],
) -> Result<XdrWriter, NoMemory>
    requires { length content.now ≤ 130952 }
    ensures value { IfOk result
        (λ w. w ≡ out ++ protected end.now service seq confounder.now content.now) }
    ensures size { IfOk result (λ w. length w ≤ length out + 131020) }
    ensures taken { IfOk result (λ _. unprotected (facing end.now) service seq
        (protected end.now service seq confounder.now content.now) ≡ Ok content.now) }
{
    match service {
        Service::None => put_bare(out, content),
        Service::Integrity => put_signed(out, end, keys, seq, content),
        Service::Privacy => put_sealed(out, end, keys, seq, confounder, content),
    }
}

/// Appends a content as it is.
fn put_bare(mut out: XdrWriter, content: &[u8]) -> Result<XdrWriter, NoMemory>
    ensures { IfOk result (λ w. w ≡ out ++ content.now) }
{
    out.octets(content)?;
    Ok(out)
}

/// The number of the token in a call's or a reply's body.
fn token_number(seq: u32) -> u64
    ensures { result ≡ 2 * seq + 1 }
{
    2 * seq as u64 + 1
}

/// Appends a databody, the number of a call and a content, as octets of variable length; the padding is still due.
fn put_databody(out: &mut XdrWriter, seq: u32, content: &[u8]) -> Result<(), NoMemory>
    requires { length content.now ≤ 130952 }
    ensures { OnOk result
        (out.new ≡ out.old ++ (word (length content.now + 4) ++ (word seq ++ content.now))) }
{
    out.word((content.len() + NUMBER) as u32)?;
    out.word(seq)?;
    out.octets(content)?;
    Ok(())
}

/// Appends a body by integrity: the databody and its MIC (section 5.3.2.2).
fn put_signed(
    mut out: XdrWriter,
    end: &TokenEnd,
    keys: &LentKeys<'_>,
    seq: u32,
    content: &[u8],
) -> Result<XdrWriter, NoMemory>
    requires { length content.now ≤ 130952 }
    ensures { IfOk result (λ w. w ≡ out ++ checked_octets (word seq ++ content.now)
        (mic_of end.now (2 * seq + 1) (word seq ++ content.now))) }
{
    put_databody(&mut out, seq, content)?;
    let octets = out.as_slice();
    let size = content.len() + NUMBER;
    let mic = end.make_mic_by(keys, token_number(seq), &octets[octets.len() - size..]);
    out.padding(size)?;
    out.opaque(&mic)?;
    Ok(out)
}

/// Appends a body by privacy: the sealed databody (section 5.3.2.3).
fn put_sealed(
    mut out: XdrWriter,
    end: &TokenEnd,
    keys: &LentKeys<'_>,
    seq: u32,
    confounder: &[u8; 16],
    content: &[u8],
) -> Result<XdrWriter, NoMemory>
    requires { length content.now ≤ 130952 }
    ensures value { IfOk result (λ w. w ≡ out
        ++ opaque (wrap_of end.now (2 * seq + 1) true confounder.now (word seq ++ content.now))) }
    ensures opens { IfOk result
        (λ _. Opens end.now (2 * seq + 1) confounder.now (word seq ++ content.now)) }
{
    let size = content.len() + NUMBER + SEAL;
    out.word(size as u32)?;
    let front = seq.to_be_bytes();
    let list = out.into_vec();
    let list = end.wrap_onto(
        list,
        keys.cache,
        token_number(seq),
        confounder,
        &front,
        content,
    )?;
    let mut out = XdrWriter::over(list);
    out.padding(size)?;
    Ok(out)
}
