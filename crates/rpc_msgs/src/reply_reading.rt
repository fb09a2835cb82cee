//! Reading replies, RFC 5531 section 9.

ghost use Rattle.std.specs.Prelude.{◌≡◌, IfOk, Ok};
ghost use Rattle.rpc_msgs.specs.Auths.{auth_value};
ghost use Rattle.rpc_msgs.specs.Replies.{ReplyValue, reply_value, reply_octets, IsReply, HasWords};
ghost use Rattle.rpc_msgs.specs.ReplyReading.{reply_word_at, reply_auth_at, due_at, done_at};
ghost use Rattle.rpc_msgs.specs.ReplyReading.{range_at, body_at, accepted_at, mismatch_at};
ghost use Rattle.rpc_msgs.specs.ReplyReading.{auth_error_at, denied_at, state_at, reply_at};
ghost use Rattle.rpc_msgs.specs.Xdr.{Answers, Reads};

use crate::auth::{Auth, read_auth};
use crate::numbers::{
    AUTH_ERROR, MSG_ACCEPTED, MSG_DENIED, PROG_MISMATCH, REPLY, RPC_MISMATCH, SUCCESS,
};
use crate::reply::Reply;
use crate::xdr_reader::XdrReader;

/// Octets aren't a reply: the first place at which no reply goes on.
#[derive(Clone, Copy, Debug, PartialEq, Eq)]
pub struct ReplyRefusal {
    pub at: usize,
}

/// Reads a reply. A word that has none of the values that are due is refused at that word, an octet that is left over at that octet.
pub fn read_reply(bytes: &[u8]) -> Result<Reply<'_>, ReplyRefusal>
    ensures exact { Answers reply_value result (reply_at bytes.now) }
    // What is read is spelled so, and what is spelled so is read.
    ensures spelled { IfOk result (λ reply. IsReply (reply_value reply)
        × HasWords (reply_value reply) × (bytes.now ≡ reply_octets (reply_value reply))) }
    ensures only { (reply : ReplyValue) → IsReply reply → HasWords reply
        → bytes.now ≡ reply_octets reply → Answers reply_value result (Ok reply) }
{
    reply_in(bytes)
}

/// What `read_reply` answers.
/// It stands apart, so that its definition is unfolded here alone, and the other clauses are proved from what is said here.
#[tactic(auto, unfolding(crate::specs::ReplyReading::reply_at))]
fn reply_in(bytes: &[u8]) -> Result<Reply<'_>, ReplyRefusal>
    ensures { Answers reply_value result (reply_at bytes.now) }
{
    let mut reader = XdrReader::new(bytes);
    let xid = read_word(&mut reader)?;
    read_due(REPLY, &mut reader)?;
    read_state(xid, &mut reader)
}

/// Reads a word of the reply.
#[tactic(auto, unfolding(crate::specs::ReplyReading::reply_word_at))]
fn read_word(reader: &mut XdrReader<'_>) -> Result<u32, ReplyRefusal>
    ensures { Reads (λ v. v) reader.new result (reply_word_at reader.old) }
{
    match reader.word() {
        Ok(number) => Ok(number),
        Err(refusal) => Err(ReplyRefusal { at: refusal.at }),
    }
}

/// Reads the verifier.
#[tactic(auto, unfolding(crate::specs::ReplyReading::reply_auth_at))]
fn read_verf<'a>(reader: &mut XdrReader<'a>) -> Result<Auth<'a>, ReplyRefusal>
    ensures { Reads auth_value reader.new result (reply_auth_at reader.old) }
{
    match read_auth(reader) {
        Ok(verf) => Ok(verf),
        Err(refusal) => Err(ReplyRefusal { at: refusal.at }),
    }
}

/// Reads a word that has to be `due`.
#[tactic(auto, unfolding(crate::specs::ReplyReading::due_at))]
fn read_due(due: u32, reader: &mut XdrReader<'_>) -> Result<(), ReplyRefusal>
    ensures { Reads (λ u. u) reader.new result (due_at due reader.old) }
{
    let at = reader.place();
    let number = read_word(reader)?;
    if number != due {
        return Err(ReplyRefusal { at });
    }
    Ok(())
}

/// Reads what follows the kind.
#[tactic(auto, unfolding(crate::specs::ReplyReading::state_at))]
fn read_state<'a>(xid: u32, reader: &mut XdrReader<'a>) -> Result<Reply<'a>, ReplyRefusal>
    ensures { Answers reply_value result (state_at xid reader.old) }
{
    let at = reader.place();
    let state = read_word(reader)?;
    if state == MSG_ACCEPTED {
        return read_accepted(xid, reader);
    }
    if state == MSG_DENIED {
        return read_denied(xid, reader);
    }
    Err(ReplyRefusal { at })
}

/// Reads an accepted reply behind its reply stat.
#[tactic(auto, unfolding(crate::specs::ReplyReading::accepted_at))]
fn read_accepted<'a>(xid: u32, reader: &mut XdrReader<'a>) -> Result<Reply<'a>, ReplyRefusal>
    ensures { Answers reply_value result (accepted_at xid reader.old) }
{
    let verf = read_verf(reader)?;
    let stat = read_word(reader)?;
    read_body(xid, &verf, stat, reader)
}

/// Reads what follows an accept stat.
#[tactic(auto, unfolding(crate::specs::ReplyReading::body_at))]
fn read_body<'a>(
    xid: u32,
    verf: &Auth<'a>,
    stat: u32,
    reader: &mut XdrReader<'a>,
) -> Result<Reply<'a>, ReplyRefusal>
    ensures { Answers reply_value result (body_at xid (auth_value verf.now) stat reader.old) }
{
    if stat == SUCCESS {
        let result = reader.rest();
        return Ok(Reply::Accepted {
            xid,
            flavour: verf.flavour,
            verf: verf.body,
            stat: SUCCESS,
            low: 0,
            high: 0,
            result,
        });
    }
    if stat == PROG_MISMATCH {
        return read_range(xid, verf, reader);
    }
    let reply = Reply::Accepted {
        xid,
        flavour: verf.flavour,
        verf: verf.body,
        stat,
        low: 0,
        high: 0,
        result: &[],
    };
    done(reply, reader)
}

/// Reads the versions that follow PROG_MISMATCH.
#[tactic(auto, unfolding(crate::specs::ReplyReading::range_at))]
fn read_range<'a>(
    xid: u32,
    verf: &Auth<'a>,
    reader: &mut XdrReader<'a>,
) -> Result<Reply<'a>, ReplyRefusal>
    ensures { Answers reply_value result (range_at xid (auth_value verf.now) reader.old) }
{
    let low = read_word(reader)?;
    let high = read_word(reader)?;
    let reply = Reply::Accepted {
        xid,
        flavour: verf.flavour,
        verf: verf.body,
        stat: PROG_MISMATCH,
        low,
        high,
        result: &[],
    };
    done(reply, reader)
}

/// Reads a denied reply behind its reply stat.
#[tactic(auto, unfolding(crate::specs::ReplyReading::denied_at))]
fn read_denied<'a>(xid: u32, reader: &mut XdrReader<'a>) -> Result<Reply<'a>, ReplyRefusal>
    ensures { Answers reply_value result (denied_at xid reader.old) }
{
    let at = reader.place();
    let why = read_word(reader)?;
    if why == RPC_MISMATCH {
        return read_mismatch(xid, reader);
    }
    if why == AUTH_ERROR {
        return read_auth_error(xid, reader);
    }
    Err(ReplyRefusal { at })
}

/// Reads the versions of RPC that are served.
#[tactic(auto, unfolding(crate::specs::ReplyReading::mismatch_at))]
fn read_mismatch<'a>(xid: u32, reader: &mut XdrReader<'a>) -> Result<Reply<'a>, ReplyRefusal>
    ensures { Answers reply_value result (mismatch_at xid reader.old) }
{
    let low = read_word(reader)?;
    let high = read_word(reader)?;
    done(Reply::Mismatch { xid, low, high }, reader)
}

/// Reads why the caller isn't accepted.
#[tactic(auto, unfolding(crate::specs::ReplyReading::auth_error_at))]
fn read_auth_error<'a>(xid: u32, reader: &mut XdrReader<'a>) -> Result<Reply<'a>, ReplyRefusal>
    ensures { Answers reply_value result (auth_error_at xid reader.old) }
{
    let stat = read_word(reader)?;
    done(Reply::AuthError { xid, stat }, reader)
}

/// The reply, where nothing is left behind it.
#[tactic(auto, unfolding(crate::specs::ReplyReading::done_at))]
fn done<'a>(reply: Reply<'a>, reader: &XdrReader<'a>) -> Result<Reply<'a>, ReplyRefusal>
    ensures { Answers reply_value result (done_at (reply_value reply.entry) reader.now) }
{
    if !reader.rest().is_empty() {
        return Err(ReplyRefusal { at: reader.place() });
    }
    Ok(reply)
}
