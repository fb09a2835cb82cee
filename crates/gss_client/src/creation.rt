//! The replies to creation calls, RFC 2203 section 5.2.3.

ghost use Rattle.std.specs.Prelude.{◌≡◌, ◌≢◌, ◌==◌, ◌≤◌, true, IfOk, Ok, Err, if◌then◌else◌};
ghost use Rattle.std.specs.Prelude.{length};
ghost use Rattle.rpc_msgs.specs.declared.xdr_reader.XdrWhy.TheVariants as whys;
ghost use Rattle.sec_base.specs.Answers.{Gives};
ghost use Rattle.gss_client.specs.Exchanging.{FitsCreated, IsHandle};
ghost use Rattle.gss_client.specs.Judging.{answer_value, place_of, granted_value, granted_in};
ghost use Rattle.gss_client.specs.Judging.{done_by, by_step, creation_by};
ghost use Rattle.gss_client.specs.Creation as created;
ghost use Rattle.gss_client.specs.Creation.{created_means, reply_means, holds_created};
ghost use Rattle.init_ends.specs.Ends.{end_by, step_by, holds, holds_after, ShortStep};
ghost use Rattle.init_ends.specs.Initiating.{end_step};

use crate::answer::{Answer, answer_in, is_verified, place_of, succeeded};
use crate::refusal::{ClientRefusal, Denial, ReplyWhy, not_negotiated};
use gss_base::status::{COMPLETE, CONTINUE_NEEDED};
use init_ends::{InitEnd, InitStep};
use krb_tokens::KeyCache;
use rpc_msgs::{XdrRefusal, XdrWhy};
use rpcsec_msgs::{InitRes, read_init_res};
use sec_base::Octets;
use spnego_core::Outcome;
use std::alloc::Global;

/// What the next creation call is made of: as `creation_step` gives it, a handle of at most 64 octets and a token of at most 65,536.
#[derive(Drop)]
pub struct Offer {
    /// The end that takes the reply's token.
    pub end: InitEnd,
    /// The server's handle, none in the first call.
    pub handle: Octets,
    pub token: Octets,
}

/// An accepted reply and the creation's result in it.
#[derive(Drop)]
pub struct Granted<'a> {
    pub answer: Answer<'a>,
    pub result: InitRes,
}

/// What a reply to a creation call leads to (RFC 2203 section 5.2.3).
#[derive(Drop)]
pub enum Created {
    /// A further call is due.
    Going(Offer),
    /// The context stands, by this handle of the server's, of at most 64 octets.
    Stands(Outcome, Octets),
}

/// The refusal of a creation's result.
fn misplaced(answer: &Answer<'_>, refusal: XdrRefusal) -> ClientRefusal
    ensures form { refusal.why ≢ whys.NoMemory → result
        ≡ ClientRefusal.BadReply (ReplyWhy.Form (place_of (answer_value answer.now) refusal.at)) }
    ensures memory { refusal.why ≡ whys.NoMemory → result ≡ ClientRefusal.NoMemory }
{
    match refusal.why {
        XdrWhy::NoMemory => ClientRefusal::NoMemory,
        _ => ClientRefusal::BadReply(ReplyWhy::Form {
            at: place_of(answer, refusal.at),
        }),
    }
}

/// The creation's result in the reply of this transaction number.
#[tactic(auto, unfolding(crate::specs::Judging::granted_in))]
fn granted_in(alloc: Global, xid: u32, bytes: &[u8]) -> Result<Granted<'_>, ClientRefusal>
    ensures exact { Gives ClientRefusal.NoMemory granted_value result (granted_in xid bytes.now) }
    ensures handle { IfOk result (λ g. IsHandle g.result.context) }
{
    let answer = answer_in(xid, bytes)?;
    succeeded(&answer)?;
    let result = match read_init_res(alloc, answer.result) {
        Ok(result) => result,
        Err(refusal) => return Err(misplaced(&answer, refusal)),
    };
    let major = result.major;
    let minor = result.minor;
    if major > CONTINUE_NEEDED {
        drop(result);
        return Err(ClientRefusal::Refused(Denial::Gss { major, minor }));
    }
    Ok(Granted { answer, result })
}

/// Refuses the reply behind which the context doesn't stand.
fn demand_done(
    answer: &Answer<'_>,
    granted: &InitRes,
    outcome: &Outcome,
) -> Result<(), ClientRefusal>
    ensures { result
        ≡ done_by (record { answer = answer_value answer.now; result = granted.now }) outcome.now }
{
    if granted.major != COMPLETE {
        return Err(ClientRefusal::BadReply(ReplyWhy::Steps));
    }
    if granted.window == 0 {
        return Err(ClientRefusal::BadReply(ReplyWhy::Width));
    }
    if !is_verified(&KeyCache::empty(), outcome, answer, granted.window) {
        return Err(ClientRefusal::BadReply(ReplyWhy::Verifier));
    }
    Ok(())
}

/// The end is spent by a refusal.
pub(crate) fn spend<T>(_end: InitEnd, refusal: ClientRefusal) -> Result<T, ClientRefusal>
    ensures { result ≡ Err refusal }
{
    Err(refusal)
}

/// What a step leads to behind which a further token is due.
fn going(major: u32, end: InitEnd, handle: Octets, token: Octets) -> Result<Created, ClientRefusal>
    ensures value { reply_means result meaning ≡ (if major == CONTINUE_NEEDED
        then Ok (created.Going
        (record { end = end_by end meaning; handle = handle; token = token }))
        else Err (ClientRefusal.BadReply ReplyWhy.Steps)) }
    ensures held { holds (end_by end meaning) ≡ true
        → IfOk result (λ c. holds_created (created_means c meaning) ≡ true) }
    ensures fits { IsHandle handle → length token ≤ 65536
        → IfOk result (λ c. FitsCreated (created_means c meaning)) }
{
    if major == CONTINUE_NEEDED {
        Ok(Created::Going(Offer { end, handle, token }))
    } else {
        drop(handle);
        drop(token);
        spend(end, ClientRefusal::BadReply(ReplyWhy::Steps))
    }
}

/// What the end's step leads to.
#[tactic(auto, unfolding(crate::specs::Judging::by_step))]
fn by_step(answer: &Answer<'_>, granted: InitRes, step: InitStep) -> Result<Created, ClientRefusal>
    requires handle { IsHandle granted.context }
    requires token { ShortStep (step_by step meaning) }
    ensures exact { reply_means result meaning ≡ by_step
        (record { answer = answer_value answer.now; result = granted }) (step_by step meaning) }
    ensures held { holds_after (step_by step meaning) ≡ true
        → IfOk result (λ c. holds_created (created_means c meaning) ≡ true) }
    ensures fits { IfOk result (λ c. FitsCreated (created_means c meaning)) }
{
    match step {
        InitStep::More(end, token) => going(granted.major, end, granted.context, token),
        InitStep::Done(outcome) => match demand_done(answer, &granted, &outcome) {
            Ok(()) => Ok(Created::Stands(outcome, granted.context)),
            Err(refusal) => {
                drop(granted);
                Err(refusal)
            }
        },
    }
}

/// What a record leads to as the reply to the creation call of this transaction number, RFC 2203 section 5.2.3: its result's token is the end's next
/// one, and the reply that finishes has the acceptor's MIC over the window as its verifier. The end is spent, whatever the answer.
#[tactic(auto, unfolding(crate::specs::Judging::creation_by))]
pub fn creation_step(
    alloc: Global,
    end: InitEnd,
    xid: u32,
    bytes: &[u8],
) -> Result<Created, ClientRefusal>
    requires { holds (end_by end meaning) ≡ true }
    ensures exact { Gives ClientRefusal.NoMemory (λ c. created_means c meaning) result
        (creation_by end_step (end_by end meaning) xid bytes.now) }
    ensures held { IfOk result (λ c. holds_created (created_means c meaning) ≡ true) }
    ensures fits { IfOk result (λ c. FitsCreated (created_means c meaning)) }
{
    let Granted { answer, result } = match granted_in(alloc, xid, bytes) {
        Ok(granted) => granted,
        Err(refusal) => return spend(end, refusal),
    };
    match end.step(alloc, result.token.as_slice()) {
        Ok(step) => by_step(&answer, result, step),
        Err(refusal) => {
            drop(result);
            Err(not_negotiated(refusal))
        }
    }
}
