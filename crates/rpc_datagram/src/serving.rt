//! Datagrams, answered one after the other.

ghost use Rattle.std.specs.Prelude.{◌≡◌, ◌≤◌, IsTrue};
ghost use Rattle.accept_book.specs.RecordShown.{Ruling};
ghost use Rattle.gss_server.specs.Answers.{IsReply};
ghost use Rattle.gss_server.specs.Keeping.{Makes};
ghost use Rattle.gss_server.specs.Hearing.{serving};
ghost use Rattle.gss_server.specs.Steady.{GateKept};
ghost use Rattle.rpc_datagram.specs.Served.{record_of, xid_of, DatagramsServed, Responds, Ruled};
ghost use Rattle.rpc_datagram.specs.Served.{OneAnswered, PostLeft};

use again_gate::AgainGate;
use datagram_post::{Post, PostFault};
use gss_server::{Gate, Keeper, Kept, Reply, answer_and_keep};
use krb_tokens::KeyCache;
use sec_base::{Clock, Draw};
use std::alloc::Global;

/// The most octets of a datagram that is read.
const MOST: usize = 8192;

/// One octet more, by which a longer one shows.
const ROOM: usize = 8193;

/// How serving datagrams ended.
#[derive(Clone, Copy, Debug, PartialEq, Eq)]
pub enum ServeEnd {
    /// So many times a datagram was waited for.
    Done,
    /// The post failed, and its count of faults rose.
    PostFault,
    /// There was no memory for an answer, or for what is kept of it.
    NoMemory,
}

/// The record that a datagram is, without marking (RFC 5531 section 11 is of streams); a longer one isn't read.
fn record_of(octets: &[u8]) -> &[u8]
    ensures { result.now ≡ record_of octets.now }
{
    if octets.len() > MOST {
        &octets[..0]
    } else {
        octets
    }
}

/// The transaction number of a record, its first word; 0 where it has none.
fn xid_of(octets: &[u8]) -> u32
    ensures { result ≡ xid_of octets.now }
{
    if octets.len() < 4 {
        return 0;
    }
    u32::from_be_bytes([octets[0], octets[1], octets[2], octets[3]])
}

/// Sends a reply, where there is one.
fn respond<P: Post>(post: &mut P, reply: &Reply) -> ServeEnd
    ensures told { IsTrue (P.tells post.old) → (ruling : Ruling) → IsReply ruling reply.now
        → Responds (P.sent post.old) (P.sent post.new) ruling result }
    ensures heard { IsTrue (P.tells post.old) → P.heard post.new ≡ P.heard post.old }
    ensures ruled { (ruling : Ruling) → IsReply ruling reply.now → Ruled result ruling }
    ensures left { PostLeft P.Post post.old post.new result }
{
    match reply {
        Reply::Silent => ServeEnd::Done,
        Reply::Gone => ServeEnd::Done,
        Reply::NoMemory => ServeEnd::NoMemory,
        Reply::Bytes(octets) => match post.send(octets.as_slice()) {
            Ok(()) => ServeEnd::Done,
            Err(PostFault) => ServeEnd::PostFault,
        },
    }
}

/// Answers the record of a datagram, and sends its reply.
fn answer_one<P: Post, K: Keeper<Kept>, G: Gate, C: Clock, D: Draw>(
    alloc: Global,
    octets: &[u8],
    post: &mut P,
    keeper: &mut K,
    gate: &mut AgainGate<G>,
    clock: &mut C,
    draw: &mut D,
    width: u32,
    keys: &mut KeyCache,
) -> ServeEnd
    requires ready { K.ready keeper.old }
    ensures answered { Makes K.Keeper C.Clock D.Draw keeper.old keeper.new clock.old clock.new
        draw.old draw.new (λ kept. OneAnswered P.Post G.Gate (serving G.program width) post.old
        post.new gate.old gate.new octets.now result kept) }
    ensures left { PostLeft P.Post post.old post.new result }
    ensures gate_kept { GateKept ⟦<AgainGate<G> as Gate>⟧ gate.old gate.new }
{
    gate.turn(xid_of(octets));
    let reply = answer_and_keep(alloc, octets, keeper, gate, clock, draw, width, keys);
    respond(post, &reply)
}

/// Waits for a datagram, and answers it where one comes.
fn serve_one<P: Post, K: Keeper<Kept>, G: Gate, C: Clock, D: Draw>(
    alloc: Global,
    post: &mut P,
    keeper: &mut K,
    gate: &mut AgainGate<G>,
    clock: &mut C,
    draw: &mut D,
    width: u32,
    keys: &mut KeyCache,
    room: &mut [u8; ROOM],
) -> ServeEnd
    ensures served { Makes K.Keeper C.Clock D.Draw keeper.old keeper.new clock.old clock.new
        draw.old draw.new (λ kept. DatagramsServed P.Post G.Gate (serving G.program width) 1
        post.old post.new gate.old gate.new result kept) }
    ensures left { PostLeft P.Post post.old post.new result }
    ensures gate_kept { GateKept ⟦<AgainGate<G> as Gate>⟧ gate.old gate.new }
{
    if keeper.make_room().is_err() {
        return ServeEnd::NoMemory;
    }
    let count = match post.recv(room) {
        Ok(Some(count)) => count,
        Ok(None) => return ServeEnd::Done,
        Err(PostFault) => return ServeEnd::PostFault,
    };
    let octets = record_of(&room[..count]);
    answer_one(alloc, octets, post, keeper, gate, clock, draw, width, keys)
}

/// Waits for a datagram so many times, answers those that come, in order, and gives each answer to the keeper.
///
/// `width` is that of the windows of the gate below. A datagram that doesn't read, or has more than 8,192 octets, gets no reply; neither
/// does a call of which it isn't known whether it was done.
pub fn serve<P: Post, K: Keeper<Kept>, G: Gate, C: Clock, D: Draw>(
    alloc: Global,
    post: &mut P,
    keeper: &mut K,
    gate: &mut AgainGate<G>,
    clock: &mut C,
    draw: &mut D,
    width: u32,
    most: u64,
) -> ServeEnd
    // The answers that the keeper was given are those to the datagrams, in order, and each part of one was asked of the gate, in order, under its
    // record's transaction number. Over a post that tells, the datagrams are those that came, and their replies were sent, in order.
    ensures served { Makes K.Keeper C.Clock D.Draw keeper.old keeper.new clock.old clock.new
        draw.old draw.new (λ kept. DatagramsServed P.Post G.Gate (serving G.program width) most
        post.old post.new gate.old gate.new result kept) }
    ensures left { PostLeft P.Post post.old post.new result }
    ensures gate_kept { GateKept ⟦<AgainGate<G> as Gate>⟧ gate.old gate.new }
{
    let mut keys = KeyCache::empty();
    let mut room = [0; ROOM];
    for _ in 0..most {
        match serve_one(
            alloc, post, keeper, gate, clock, draw, width, &mut keys, &mut room,
        ) {
            ServeEnd::Done => {}
            ServeEnd::PostFault => return ServeEnd::PostFault,
            ServeEnd::NoMemory => return ServeEnd::NoMemory,
        }
    }
    ServeEnd::Done
}
