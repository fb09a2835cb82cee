//! NegTokenInit, RFC 4178 section 4.2.1.

ghost use Rattle.std.specs.Prelude.{◌≡◌, true, IfOk, OnOk, Ok};
ghost use Rattle.der_core.specs.Format.{all_of, Answers, Reads, MayRead, MayAnswer, Puts, PutsAll};
ghost use Rattle.der_core.specs.Format.{WritesWhole, place};
ghost use Rattle.der_core.specs.Element.{explicit};
ghost use Rattle.der_core.specs.Fields.{optional_at, PutsMaybe};
ghost use Rattle.spnego_msgs.specs.Lists.{is_count};
ghost use Rattle.spnego_msgs.specs.NegInit.{is_spnego, spnego_content, spnego_identifier};
ghost use Rattle.spnego_msgs.specs.NegInit.{req_flags, neg_init_fields, neg_init_choice, neg_init};

use crate::choice::{both_end, put_choice, token_and_mic};
use crate::lists::{list_field, put_list_field};
use der_core::{DerRefusal, DerWhy, Reader, Writer, put_optional};
use sec_base::{Items, NoMemory, Octets, Oid};
use std::alloc::Global;

/// The first token of a negotiation, in the frame of RFC 2743 section 3.1 with SPNEGO's identifier, 1.3.6.1.5.5.2.
///
/// | Tag | Field |
/// |---|---|
/// | 0 | mechTypes, 1 to 16 identifiers, the preferred first |
/// | 1 | reqFlags, OPTIONAL, the content of a BIT STRING as it stands |
/// | 2 | mechToken, OPTIONAL |
/// | 3 | mechListMIC, OPTIONAL |
#[derive(Drop)]
pub struct NegInit {
    pub list: Items<Oid>,
    pub flags: Option<Octets>,
    pub token: Option<Octets>,
    pub mic: Option<Octets>,
}

/// The content of SPNEGO's identifier.
const SPNEGO: [u8; 6] = [0x2b, 6, 1, 5, 5, 2];

/// Reads the token that all the octets are.
pub fn read_init(alloc: Global, bytes: &[u8]) -> Result<NegInit, DerRefusal>
    ensures exact { MayAnswer (λ t. t) result (neg_init.read (all_of bytes.now)) }
    ensures found { IfOk result (λ t. WritesWhole neg_init t bytes.now) }
    ensures only { (t : _) → WritesWhole neg_init t bytes.now → MayAnswer (λ x. x) result (Ok t) }
{
    neg_init_of(alloc, bytes)
}

/// What `read_init` answers.
/// It stands apart, so that its definition is unfolded here alone, and the other clauses are proved from what is said here.
#[tactic(auto, unfolding(crate::specs::NegInit::neg_init))]
fn neg_init_of(alloc: Global, bytes: &[u8]) -> Result<NegInit, DerRefusal>
    ensures { MayAnswer (λ t. t) result (neg_init.read (all_of bytes.now)) }
{
    let mut reader = Reader::new(bytes);
    let mut framed = reader.tlv(0x60)?;
    identifier(&mut framed)?;
    let token = init_choice(alloc, &mut framed)?;
    match reader.end() {
        Ok(()) => Ok(token),
        Err(refusal) => {
            drop(token);
            Err(refusal)
        }
    }
}

/// Reads the token that stands in the frame, behind SPNEGO's identifier.
fn init_choice(alloc: Global, framed: &mut Reader) -> Result<NegInit, DerRefusal>
    ensures { MayAnswer (λ t. t) result (neg_init_choice.read framed.old) }
{
    let mut choice = framed.tlv(0xa0)?;
    let mut fields = choice.tlv(0x30)?;
    let token = init_fields(alloc, &mut fields)?;
    match both_end(&choice, framed) {
        Ok(()) => Ok(token),
        Err(refusal) => {
            drop(token);
            Err(refusal)
        }
    }
}

/// Reads the token's fields.
fn init_fields(alloc: Global, fields: &mut Reader) -> Result<NegInit, DerRefusal>
    ensures { MayAnswer (λ t. (t.list, (t.flags, (t.token, (t.mic, tt))))) result
        (neg_init_fields.read fields.old) }
{
    let list = list_field(alloc, fields)?;
    let flags = optional_flags(alloc, fields)?;
    let (token, mic) = token_and_mic(alloc, fields)?;
    Ok(NegInit {
        list,
        flags,
        token,
        mic,
    })
}

/// Reads SPNEGO's identifier.
#[tactic(auto, unfolding(crate::specs::NegInit::spnego_identifier))]
fn identifier(framed: &mut Reader) -> Result<(), DerRefusal>
    ensures { Reads (λ n. n) framed.new result (spnego_identifier.read framed.old) }
{
    let content = framed.tlv(0x06)?;
    if is_spnego(content.rest()) {
        return Ok(());
    }
    Err(DerRefusal {
        at: content.place(),
        why: DerWhy::Value,
    })
}

/// Whether this is the content of SPNEGO's identifier.
fn is_spnego(content: &[u8]) -> bool
    ensures { result ≡ is_spnego content.now }
{
    match content {
        [a, b, c, d, e, f] => {
            *a == 0x2b && (*b == 6 && (*c == 1 && (*d == 5 && (*e == 5 && *f == 2))))
        }
        _ => false,
    }
}

/// Reads the flags, where they are there.
fn optional_flags(alloc: Global, fields: &mut Reader) -> Result<Option<Octets>, DerRefusal>
    ensures { MayRead (λ v. v) fields.new result
        (optional_at 0xa1 (explicit 0xa1 req_flags) fields.old) }
{
    if !fields.begins(0xa1) {
        return Ok(None);
    }
    let flags = flags_field(alloc, fields)?;
    Ok(Some(flags))
}

#[tactic(auto, unfolding(crate::specs::NegInit::req_flags))]
fn flags_field(alloc: Global, fields: &mut Reader) -> Result<Octets, DerRefusal>
    ensures { MayRead (λ v. v) fields.new result ((explicit 0xa1 req_flags).read fields.old) }
{
    let mut inner = fields.tlv(0xa1)?;
    let content = inner.tlv(0x03)?;
    inner.end()?;
    let flags = Octets::of(alloc, content.rest())?;
    Ok(flags)
}

/// The token's octets.
#[tactic(auto, unfolding(crate::specs::NegInit::neg_init, crate::specs::NegInit::spnego_identifier))]
pub fn write_init(alloc: Global, v: &NegInit) -> Result<Octets, NoMemory>
    requires { is_count v.now.list ≡ true }
    ensures { IfOk result (λ o. WritesWhole neg_init v.now o) }
{
    let mut framed = Writer::new(alloc)?;
    framed.put_tlv(0x06, &SPNEGO)?;
    put_init_choice(alloc, &mut framed, v)?;
    let mut out = Writer::new(alloc)?;
    out.put_tlv(0x60, framed.as_slice())?;
    out.finish()
}

/// Adds the token as it stands in the frame, behind SPNEGO's identifier.
fn put_init_choice(alloc: Global, out: &mut Writer, v: &NegInit) -> Result<(), NoMemory>
    requires { is_count v.now.list ≡ true }
    ensures { OnOk result (PutsAll neg_init_choice v.now out.old out.new) }
{
    let mut fields = Writer::new(alloc)?;
    put_init_fields(alloc, &mut fields, v)?;
    put_choice(alloc, out, 0xa0, fields.as_slice())
}

/// Adds the token's fields.
fn put_init_fields(alloc: Global, fields: &mut Writer, v: &NegInit) -> Result<(), NoMemory>
    requires { is_count v.now.list ≡ true }
    ensures { OnOk result (PutsAll neg_init_fields
        (v.now.list, (v.now.flags, (v.now.token, (v.now.mic, tt)))) fields.old fields.new) }
{
    put_list_field(alloc, fields, &v.list)?;
    put_optional_flags(alloc, fields, &v.flags)?;
    put_optional(alloc, fields, 0xa2, &v.token)?;
    put_optional(alloc, fields, 0xa3, &v.mic)?;
    Ok(())
}

/// Adds the flags, where there are some.
#[tactic(auto, unfolding(crate::specs::NegInit::req_flags))]
fn put_optional_flags(
    alloc: Global,
    out: &mut Writer,
    flags: &Option<Octets>,
) -> Result<(), NoMemory>
    ensures { OnOk result (PutsMaybe (explicit 0xa1 req_flags) flags.now out.old out.new) }
{
    match flags {
        None => Ok(()),
        Some(flags) => {
            let mut inner = Writer::new(alloc)?;
            inner.put_tlv(0x03, flags.as_slice())?;
            out.put_tlv(0xa1, inner.as_slice())
        }
    }
}
