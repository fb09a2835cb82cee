//! What became of admitted calls, and the results of those that have one (RFC 2203 section 5.3.3.2).

ghost use Rattle.std.specs.Prelude.{◌≡◌, ◌≤◌, take, drop, IfOk, Some, length};
ghost use Rattle.rpcsec_msgs.specs.Cred.{cred_value};
ghost use Rattle.rpc_program.specs.Programs.{IsShort};
ghost use Rattle.accept_book.specs.RecordShown.{by, end_of, result_body, signed};
ghost use Rattle.accept_book.specs.RecordRule.{outcome_ruling, result_reply};
ghost use Rattle.gss_server.specs.Answers.{IsSaid};
ghost use Rattle.gss_server.specs.Hearing.{shown};

use crate::answer::Reply;
use crate::gate::Gate;
use crate::heard::Heard;
use crate::saying::{Said, end_at, say_gone, say_mismatch, say_no_memory, say_stat, verifier};
use accept_book::{Lease, Rule};
use krb_tokens::LentKeys;
use rpc_msgs::numbers::{RPCSEC_GSS, SUCCESS};
use rpc_msgs::{XdrWriter, put_accepted};
use rpc_program::Outcome;
use rpc_program::limits::MOST;
use rpcsec_bodies::{Service, protect_onto};
use rpcsec_msgs::GssCred;
use sec_base::{NoMemory, Octets};
use std::alloc::Global;

/// Room for a reply's head, and for what the service of its call puts round the result.
const ROOM: usize = 256;

/// What became of an admitted call: its result, where it has one, or why it has none.
pub(crate) fn say_outcome<G: Gate>(
    alloc: Global,
    heard: &Heard<'_>,
    cred: &GssCred<'_>,
    lease: &Lease,
    keys: &LentKeys<'_>,
    args: &[u8],
    outcome: &Outcome,
) -> Said
    requires few { length args.now ≤ MOST }
    requires short { IsShort outcome.now }
    ensures says { IsSaid result (outcome_ruling (shown G.program heard.entry.now)
        (cred_value cred.now) lease.now args.now outcome.now) }
{
    match outcome {
        Outcome::Args => say_result::<G>(alloc, heard, cred, lease, keys, args),
        Outcome::Done(result) => {
            say_result::<G>(alloc, heard, cred, lease, keys, result.as_slice())
        }
        Outcome::Refused(why) => {
            let stat = why.number();
            say_stat::<G>(alloc, heard, cred, lease, keys, Rule::Done, stat)
        }
        Outcome::Mismatch { low, high } => {
            say_mismatch::<G>(alloc, heard, cred, lease, keys, Rule::Done, *low, *high)
        }
        Outcome::Gone => say_gone(),
        Outcome::NoMemory => say_no_memory(),
    }
}

/// The result of an admitted call, from where it lies.
fn say_result<G: Gate>(
    alloc: Global,
    heard: &Heard<'_>,
    cred: &GssCred<'_>,
    lease: &Lease,
    keys: &LentKeys<'_>,
    content: &[u8],
) -> Said
    requires { length content.now ≤ MOST }
    ensures says { IsSaid result (by Rule.Done (result_reply (shown G.program heard.entry.now)
        (cred_value cred.now) lease.now content.now)) }
{
    match reply_with::<G>(alloc, heard, cred, lease, keys, content) {
        Ok(octets) => Said {
            rule: Rule::Done.number(),
            reply: Reply::Bytes(octets),
        },
        Err(_) => say_no_memory(),
    }
}

/// The reply with this result, by the service of the call: its head, and the body written behind that.
#[tactic(auto, unfolding(accept_book::specs::RecordShown::result_body))]
fn reply_with<G: Gate>(
    alloc: Global,
    heard: &Heard<'_>,
    cred: &GssCred<'_>,
    lease: &Lease,
    keys: &LentKeys<'_>,
    content: &[u8],
) -> Result<Octets, NoMemory>
    requires { length content.now ≤ MOST }
    ensures value { IfOk result (λ octets. Some octets
        ≡ signed (shown G.program heard.entry.now) (cred_value cred.now) lease.now SUCCESS 0 0
        (result_body (end_of lease.now) (cred_value cred.now)
        (take 16 (drop 66 heard.entry.now.draws)) content.now)) }
    ensures fits { IfOk result (λ octets. length octets ≤ 131072) }
{
    let mic = verifier(cred.seq, keys, lease);
    let mut head = XdrWriter::with_room(alloc, content.len() + ROOM)?;
    put_accepted(&mut head, heard.call.xid, RPCSEC_GSS, &mic, SUCCESS)?;
    let whole = protect_onto(
        head,
        &end_at(lease),
        keys,
        Service::of(cred.service),
        cred.seq,
        &confounder_of(&heard.draws),
        content,
    )?;
    Ok(whole.finish())
}

/// The confounder of a sealed reply.
fn confounder_of(draws: &[u8; 82]) -> [u8; 16]
    ensures { result ≡ take 16 (drop 66 draws.now) }
{
    let mut confounder = [0; 16];
    confounder.copy_from_slice(&draws[66..82]);
    confounder
}
