//! Bodies as an end takes them, RFC 2203 section 5.3.2.

ghost use Rattle.std.specs.Prelude.{IfOk};
ghost use Rattle.sec_base.specs.Answers.{Gives};
ghost use Rattle.rpcsec_bodies.specs.Opening.{numbered, checked_content, sealed_content};
ghost use Rattle.rpcsec_bodies.specs.Opening.{unprotected};
ghost use Rattle.rpcsec_bodies.specs.Carried.{IsBody};

use crate::refusal::BodyRefusal;
use crate::service::Service;
use krb_tokens::{LentKeys, TokenEnd, TokenRefusal};
use rpc_msgs::XdrReader;
use rpcsec_msgs::{split_checked, split_sealed};
use sec_base::Octets;
use std::alloc::Global;

/// The content of a body, arguments or a result, in the call of this number or the reply to it, by the service of the call.
pub fn unprotect(
    alloc: Global,
    end: &TokenEnd,
    keys: &LentKeys<'_>,
    service: Service,
    seq: u32,
    body: &[u8],
) -> Result<Octets, BodyRefusal>
    ensures exact { Gives BodyRefusal.NoMemory (λ o. o) result
        (unprotected end.now service seq body.now) }
    ensures found { IfOk result (λ content. IsBody end.now service seq body.now content) }
{
    unprotected(alloc, end, keys, service, seq, body)
}

/// What `unprotect` answers. It stands apart, since it is proved over its definition.
#[tactic(auto, unfolding(crate::specs::Opening::unprotected))]
fn unprotected(
    alloc: Global,
    end: &TokenEnd,
    keys: &LentKeys<'_>,
    service: Service,
    seq: u32,
    body: &[u8],
) -> Result<Octets, BodyRefusal>
    ensures { Gives BodyRefusal.NoMemory (λ o. o) result
        (unprotected end.now service seq body.now) }
{
    match service {
        Service::None => {
            let content = Octets::of(alloc, body)?;
            Ok(content)
        }
        Service::Integrity => checked_content(alloc, end, keys, seq, body),
        Service::Privacy => sealed_content(alloc, end, keys, seq, body),
    }
}

/// The content of a body by integrity (section 5.3.2.2).
#[tactic(auto, unfolding(crate::specs::Opening::checked_content))]
fn checked_content(
    alloc: Global,
    end: &TokenEnd,
    keys: &LentKeys<'_>,
    seq: u32,
    body: &[u8],
) -> Result<Octets, BodyRefusal>
    ensures { Gives BodyRefusal.NoMemory (λ o. o) result (checked_content end.now seq body.now) }
{
    let Ok((databody, mic)) = split_checked(body) else {
        return Err(BodyRefusal::Protection);
    };
    match end.check_mic_by(keys, mic, databody) {
        Ok(()) => numbered(alloc, seq, databody),
        Err(_) => Err(BodyRefusal::Protection),
    }
}

/// The content of a body by privacy (section 5.3.2.3).
#[tactic(auto, unfolding(crate::specs::Opening::sealed_content))]
fn sealed_content(
    alloc: Global,
    end: &TokenEnd,
    keys: &LentKeys<'_>,
    seq: u32,
    body: &[u8],
) -> Result<Octets, BodyRefusal>
    ensures { Gives BodyRefusal.NoMemory (λ o. o) result (sealed_content end.now seq body.now) }
{
    let Ok(token) = split_sealed(body) else {
        return Err(BodyRefusal::Protection);
    };
    let unwrapped = match end.unwrap_by(alloc, keys.cache, token) {
        Ok(unwrapped) => unwrapped,
        Err(TokenRefusal::NoMemory) => return Err(BodyRefusal::NoMemory),
        Err(_) => return Err(BodyRefusal::Protection),
    };
    if !unwrapped.sealed {
        return Err(BodyRefusal::Protection);
    }
    numbered(alloc, seq, unwrapped.content.as_slice())
}

/// What follows the call's number in a databody.
#[tactic(auto, unfolding(crate::specs::Opening::numbered))]
fn numbered(alloc: Global, seq: u32, databody: &[u8]) -> Result<Octets, BodyRefusal>
    ensures { Gives BodyRefusal.NoMemory (λ o. o) result (numbered seq databody.now) }
{
    let mut reader = XdrReader::new(databody);
    let Ok(number) = reader.word() else {
        return Err(BodyRefusal::Number);
    };
    if number != seq {
        return Err(BodyRefusal::Number);
    }
    let content = Octets::of(alloc, reader.rest())?;
    Ok(content)
}
