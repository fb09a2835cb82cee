//! A call is written as one record, and its reply is the next record of the stream.

ghost use Rattle.std.specs.Prelude.{◌≡◌, ◌≤◌, false, IsTrue, IsErrOf, length};
ghost use Rattle.sec_base.specs.Answers.{Rose};
ghost use Rattle.gss_client.specs.Exchanging.{Talks};
ghost use Rattle.gss_client.specs.Talking.{listens, exchanges};

use crate::refusal::{ClientRefusal, ReplyWhy};
use rpc_msgs::{RecordRefusal, next_record, write_record};
use sec_base::{Link, Octets};
use std::alloc::Global;

/// Hears the next record.
fn listen<L: Link>(alloc: Global, link: &mut L) -> Result<Octets, ClientRefusal>
    requires unclosed { L.closed link.old ≡ false }
    ensures told { IsTrue (L.tells link.old)
        → Talks listens (L.wire link.old) (L.wire link.new) result }
    ensures fault { IsErrOf result ClientRefusal.LinkFault
        → Rose (L.faults link.old) (L.faults link.new) }
    ensures tells { L.tells link.new ≡ L.tells link.old }
    ensures unclosed { L.closed link.new ≡ false }
    ensures faults { L.faults link.old ≤ L.faults link.new }
{
    match next_record(alloc, link) {
        Ok(Some(octets)) => Ok(octets),
        Ok(None) => Err(ClientRefusal::PeerEnded),
        Err(RecordRefusal::LinkFault) => Err(ClientRefusal::LinkFault),
        Err(RecordRefusal::TooLong) => Err(ClientRefusal::BadReply(ReplyWhy::Record)),
        Err(RecordRefusal::TooManyFragments) => Err(ClientRefusal::BadReply(ReplyWhy::Record)),
        Err(RecordRefusal::Torn) => Err(ClientRefusal::PeerEnded),
        Err(RecordRefusal::NoMemory) => Err(ClientRefusal::NoMemory),
    }
}

/// Writes a call, and hears its reply.
pub(crate) fn exchange<L: Link>(
    alloc: Global,
    link: &mut L,
    call: &[u8],
) -> Result<Octets, ClientRefusal>
    requires unclosed { L.closed link.old ≡ false }
    requires room { length call.now ≤ 131072 }
    ensures told { IsTrue (L.tells link.old)
        → Talks (exchanges call.now) (L.wire link.old) (L.wire link.new) result }
    ensures fault { IsErrOf result ClientRefusal.LinkFault
        → Rose (L.faults link.old) (L.faults link.new) }
    ensures tells { L.tells link.new ≡ L.tells link.old }
    ensures unclosed { L.closed link.new ≡ false }
    ensures faults { L.faults link.old ≤ L.faults link.new }
{
    match write_record(link, call) {
        Ok(()) => listen(alloc, link),
        Err(_) => Err(ClientRefusal::LinkFault),
    }
}
