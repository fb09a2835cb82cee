//! Replies, RFC 5531 section 9.

ghost use Rattle.std.specs.Prelude.{◌≡◌, ◌≤◌, ◌++◌, length, IfOk, OnOk, Ok};
ghost use Rattle.rpc_msgs.specs.Replies.{reply_value, reply_octets, IsReply, HasWords};
ghost use Rattle.rpc_msgs.specs.Replies.{accepted_head, accepted_body, mismatch_octets};
ghost use Rattle.rpc_msgs.specs.Replies.{auth_error_octets};
ghost use Rattle.rpc_msgs.specs.ReplyReading.{reply_at};
ghost use Rattle.rpc_msgs.specs.Words.{word};

use crate::auth::put_auth;
use crate::numbers::{
    AUTH_ERROR, MSG_ACCEPTED, MSG_DENIED, PROG_MISMATCH, REPLY, RPC_MISMATCH, SUCCESS,
};
use crate::xdr_writer::{XdrWriter, put_words};
use sec_base::{NoMemory, Octets};
use std::alloc::Global;

/// Room for the head of most replies: a verifier of 28 octets and six words, or a range of versions behind.
const HEAD_ROOM: usize = 64;

/// A reply.
#[derive(Clone, Copy)]
pub enum Reply<'a> {
    /// The call was accepted. `result` is there at SUCCESS, the versions `low` to `high` at PROG_MISMATCH.
    Accepted {
        xid: u32,
        flavour: u32,
        verf: &'a [u8],
        stat: u32,
        low: u32,
        high: u32,
        result: &'a [u8],
    },
    /// The RPC version is none of `low` to `high`.
    Mismatch {
        xid: u32,
        low: u32,
        high: u32,
    },
    /// The caller isn't accepted.
    AuthError {
        xid: u32,
        stat: u32,
    },
}

/// The octets of a reply.
pub fn write_reply(alloc: Global, v: &Reply<'_>) -> Result<Octets, NoMemory>
    requires { IsReply (reply_value v.now) }
    ensures octets { IfOk result (λ octets. octets ≡ reply_octets (reply_value v.now)) }
    // It is read as that reply.
    ensures again { IfOk result (λ octets. reply_at octets ≡ Ok (reply_value v.now)) }
{
    let mut out = XdrWriter::with_room(alloc, room_of(v))?;
    put_reply(&mut out, v)?;
    Ok(out.finish())
}

/// The room that is taken for a reply.
fn room_of(v: &Reply<'_>) -> usize {
    match *v {
        Reply::Accepted { result, .. } => result.len().saturating_add(HEAD_ROOM),
        _ => HEAD_ROOM,
    }
}

/// Appends a reply.
fn put_reply(out: &mut XdrWriter, v: &Reply<'_>) -> Result<(), NoMemory>
    requires { IsReply (reply_value v.now) }
    ensures octets { OnOk result (out.new ≡ out.old ++ reply_octets (reply_value v.now)) }
    ensures words { HasWords (reply_value v.now) }
{
    match *v {
        Reply::Accepted {
            xid,
            flavour,
            verf,
            stat,
            low,
            high,
            result,
        } => {
            put_accepted(out, xid, flavour, verf, stat)?;
            put_body(out, stat, low, high, result)
        }
        Reply::Mismatch { xid, low, high } => put_mismatch(out, xid, low, high),
        Reply::AuthError { xid, stat } => put_auth_error(out, xid, stat),
    }
}

/// Appends an accepted reply up to its stat. Behind SUCCESS stands the result.
pub fn put_accepted(
    out: &mut XdrWriter,
    xid: u32,
    flavour: u32,
    verf: &[u8],
    stat: u32,
) -> Result<(), NoMemory>
    requires { length verf.now ≤ 400 }
    ensures { OnOk result (out.new ≡ out.old ++ accepted_head xid flavour verf.now stat) }
{
    put_words(out, xid, REPLY, MSG_ACCEPTED)?;
    put_auth(out, flavour, verf)?;
    out.word(stat)
}

/// Appends what follows an accepted reply's stat.
fn put_body(
    out: &mut XdrWriter,
    stat: u32,
    low: u32,
    high: u32,
    body: &[u8],
) -> Result<(), NoMemory>
    ensures { OnOk result (out.new ≡ out.old ++ accepted_body stat low high body.now) }
{
    match stat {
        SUCCESS => out.octets(body),
        PROG_MISMATCH => put_pair(out, low, high),
        _ => Ok(()),
    }
}

/// Appends two words.
fn put_pair(out: &mut XdrWriter, first: u32, second: u32) -> Result<(), NoMemory>
    ensures { OnOk result (out.new ≡ out.old ++ (word first ++ word second)) }
{
    out.word(first)?;
    out.word(second)
}

/// Appends the reply to another RPC version.
fn put_mismatch(out: &mut XdrWriter, xid: u32, low: u32, high: u32) -> Result<(), NoMemory>
    ensures { OnOk result (out.new ≡ out.old ++ mismatch_octets xid low high) }
{
    put_words(out, xid, REPLY, MSG_DENIED)?;
    put_words(out, RPC_MISMATCH, low, high)
}

/// Appends the reply to a caller who isn't accepted.
fn put_auth_error(out: &mut XdrWriter, xid: u32, stat: u32) -> Result<(), NoMemory>
    ensures { OnOk result (out.new ≡ out.old ++ auth_error_octets xid stat) }
{
    put_words(out, xid, REPLY, MSG_DENIED)?;
    put_pair(out, AUTH_ERROR, stat)
}
