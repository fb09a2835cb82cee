//! One connection, from its first record to its end.

ghost use Rattle.std.specs.Prelude.{◌≡◌, ◌≢◌, ◌≤◌, ◌+◌, ◌<◌, ℕ, List, false, true, IsTrue};
ghost use Rattle.std.specs.Prelude.{IsErrOf, Err, Some, length};
ghost use Rattle.sec_base.specs.Answers.{Rose};
ghost use Rattle.accept_book.specs.RecordShown.{Ruling};
ghost use Rattle.gss_server.specs.Answers.{IsReply, Fits};
ghost use Rattle.gss_server.specs.Connections.{framed, IsServed, StreamEnds};
ghost use Rattle.gss_server.specs.Hearing.{serving};
ghost use Rattle.gss_server.specs.Keeping.{Makes};
ghost use Rattle.gss_server.specs.Ruled.{Questions};
ghost use Rattle.gss_server.specs.Steady.{LinkLeft, ClosedWell, GateKept};
ghost use Rattle.gss_server.specs.Turns.{Receives, Responds, Ruled, AnswersBy, Replies, Turns};

use crate::answer::{Kept, Reply};
use crate::answering::answer_record_by;
use crate::gate::Gate;
use crate::keeper::Keeper;
use krb_tokens::KeyCache;
use rpc_msgs::{RecordRefusal, next_record, write_record};
use sec_base::{Clock, Draw, Link, Octets};
use std::alloc::Global;

/// How many records of a connection are answered.
const RECORDS: u32 = 65536;

/// Why a connection ended.
#[derive(Clone, Copy, Debug)]
pub enum ConnEnd {
    /// The stream ended between two records.
    Ended,
    /// The link failed, and its count of faults rose.
    LinkFault,
    /// The lengths that a record's fragments announce sum past 131,072.
    TooLong,
    /// A record has a 65th fragment.
    TooManyFragments,
    /// The stream ended inside a record.
    Torn,
    /// 65,536 records were answered.
    Budget,
    /// There was no memory for a record, its kept answer or its reply.
    NoMemory,
    /// What became of a call isn't known: it has no reply, so that its caller takes no error for final.
    Lost,
}

/// A connection that was served.
#[derive(Drop)]
pub struct Served<L> {
    /// The link, closed.
    pub link: L,
    /// How many records were answered, the one for whose answer memory was wanted among them.
    pub records: u32,
    pub end: ConnEnd,
}

/// How far a connection is: the keys of the context of the call before, in which those of the next
/// may be found, and how many records were answered.
#[derive(Drop)]
struct Course {
    keys: KeyCache,
    records: u32,
}

/// Serves a connection: answers its records, in order, gives each answer to the keeper, and closes the link at its end. The records are
/// those of the stream, however the link's reads cut it.
pub fn serve_link<L: Link, K: Keeper<Kept>, G: Gate, C: Clock, D: Draw>(
    alloc: Global,
    link: L,
    keeper: &mut K,
    gate: &mut G,
    clock: &mut C,
    draw: &mut D,
    width: u32,
) -> Served<L>
    requires { L.closed link ≡ false }
    // The answers that the keeper was given are those to the records, in order, and each part of one was asked of the gate, in order; a gate that
    // tells, and has room for two questions a record, told just these. The records are those of the octets that were taken of the link.
    ensures served { Makes K.Keeper C.Clock D.Draw keeper.old keeper.new clock.old clock.new
        draw.old draw.new (λ kept. (result.records ≡ length kept)
        × IsServed (L.tells link) (Questions G.Gate 131072 gate.old gate.new)
        (serving G.program width) (L.wire link) (L.wire result.link) result.end kept) }
    // The end that the stream has comes, unless the link failed, there was no memory, or what became of a call isn't
    // known.
    ensures always { IsTrue (L.tells link) → (expected : ConnEnd)
        → StreamEnds (L.wire link) (L.wire result.link) expected
        → result.end ≢ ConnEnd.LinkFault → result.end ≢ ConnEnd.NoMemory
        → result.end ≢ ConnEnd.Lost → result.end ≡ expected }
    ensures fault { result.end ≡ ConnEnd.LinkFault → Rose (L.faults link) (L.faults result.link) }
    // and no other end hides a fault of the link's
    ensures faultless { result.end ≢ ConnEnd.LinkFault → ClosedWell L.Link link result.link }
    ensures gate_kept { GateKept G.Gate gate.old gate.new }
    ensures most { result.records ≤ 65536 }
    ensures closed { L.closed result.link ≡ true }
    ensures tells { L.tells result.link ≡ L.tells link }
    ensures faults { L.faults link ≤ L.faults result.link }
{
    let mut link = link;
    let mut course = Course {
        keys: KeyCache::empty(),
        records: 0,
    };
    let end = serve(
        alloc,
        &mut link,
        keeper,
        gate,
        clock,
        draw,
        width,
        &mut course,
    );
    link.close();
    Served {
        link,
        records: course.records,
        end,
    }
}

/// Answers records up to the end of the connection.
fn serve<L: Link, K: Keeper<Kept>, G: Gate, C: Clock, D: Draw>(
    alloc: Global,
    link: &mut L,
    keeper: &mut K,
    gate: &mut G,
    clock: &mut C,
    draw: &mut D,
    width: u32,
    course: &mut Course,
) -> ConnEnd
    requires unclosed { L.closed link.old ≡ false }
    requires none { course.old.records ≡ 0 }
    ensures served { Makes K.Keeper C.Clock D.Draw keeper.old keeper.new clock.old clock.new
        draw.old draw.new (λ kept. (course.new.records ≡ length kept)
        × IsServed (L.tells link.old) (Questions G.Gate 131072 gate.old gate.new)
        (serving G.program width) (L.wire link.old) (L.wire link.new) result kept) }
    ensures gate_kept { GateKept G.Gate gate.old gate.new }
    ensures most { course.new.records ≤ 65536 }
    ensures link_left { LinkLeft L.Link link.old link.new (result ≡ ConnEnd.LinkFault) }
{
    for number in 0..RECORDS {
        match turn(alloc, link, keeper, gate, clock, draw, width, course) {
            None => {}
            Some(end) => return end,
        }
    }
    ConnEnd::Budget
}

/// Reads a record and answers it; the end of the connection, where it comes.
fn turn<L: Link, K: Keeper<Kept>, G: Gate, C: Clock, D: Draw>(
    alloc: Global,
    link: &mut L,
    keeper: &mut K,
    gate: &mut G,
    clock: &mut C,
    draw: &mut D,
    width: u32,
    course: &mut Course,
) -> Option<ConnEnd>
    requires unclosed { L.closed link.old ≡ false }
    requires few { course.old.records < 65536 }
    ensures turned { Makes K.Keeper C.Clock D.Draw keeper.old keeper.new clock.old clock.new
        draw.old draw.new (λ kept. (course.new.records ≡ course.old.records + length kept)
        × Turns (L.tells link.old) (Questions G.Gate 2 gate.old gate.new)
        (serving G.program width) (L.wire link.old) (L.wire link.new) result kept) }
    ensures gate_kept { GateKept G.Gate gate.old gate.new }
    ensures link_left { LinkLeft L.Link link.old link.new (result ≡ Some ConnEnd.LinkFault) }
{
    match receive(alloc, link) {
        Ok(octets) => reply_to_record(
            alloc,
            link,
            octets.as_slice(),
            keeper,
            gate,
            clock,
            draw,
            width,
            course,
        ),
        Err(end) => Some(end),
    }
}

/// The next record, or the end of the connection.
fn receive<L: Link>(alloc: Global, link: &mut L) -> Result<Octets, ConnEnd>
    requires unclosed { L.closed link.old ≡ false }
    ensures told { Receives (L.tells link.old) (L.wire link.old) (L.wire link.new) result }
    ensures early { result ≢ Err ConnEnd.Budget }
    ensures known { result ≢ Err ConnEnd.Lost }
    ensures link_left { LinkLeft L.Link link.old link.new (IsErrOf result ConnEnd.LinkFault) }
{
    match next_record(alloc, link) {
        Ok(Some(octets)) => Ok(octets),
        Ok(None) => Err(ConnEnd::Ended),
        Err(RecordRefusal::LinkFault) => Err(ConnEnd::LinkFault),
        Err(RecordRefusal::TooLong) => Err(ConnEnd::TooLong),
        Err(RecordRefusal::TooManyFragments) => Err(ConnEnd::TooManyFragments),
        Err(RecordRefusal::Torn) => Err(ConnEnd::Torn),
        Err(RecordRefusal::NoMemory) => Err(ConnEnd::NoMemory),
    }
}

/// Has the keeper make room for the answer, answers a record and writes its reply.
fn reply_to_record<L: Link, K: Keeper<Kept>, G: Gate, C: Clock, D: Draw>(
    alloc: Global,
    link: &mut L,
    octets: &[u8],
    keeper: &mut K,
    gate: &mut G,
    clock: &mut C,
    draw: &mut D,
    width: u32,
    course: &mut Course,
) -> Option<ConnEnd>
    requires unclosed { L.closed link.old ≡ false }
    requires few { course.old.records < 65536 }
    ensures replied { Makes K.Keeper C.Clock D.Draw keeper.old keeper.new clock.old clock.new
        draw.old draw.new (λ kept. (course.new.records ≡ course.old.records + length kept)
        × Replies (L.tells link.old) (Questions G.Gate 2 gate.old gate.new)
        (serving G.program width) (L.wire link.old) (L.wire link.new) octets.now result kept) }
    ensures gate_kept { GateKept G.Gate gate.old gate.new }
    ensures link_left { LinkLeft L.Link link.old link.new (result ≡ Some ConnEnd.LinkFault) }
{
    if keeper.make_room().is_err() {
        return Some(ConnEnd::NoMemory);
    }
    let keys = &mut course.keys;
    let reply = answer_and_keep(alloc, octets, keeper, gate, clock, draw, width, keys);
    course.records += 1;
    match respond(link, &reply) {
        Ok(()) => None,
        Err(end) => Some(end),
    }
}

/// Answers a record by the clock's next moment and the draw's next 82 octets, and gives the answer
/// to a keeper that is ready. `width` is that of the windows; `keys` are those of the call before.
pub fn answer_and_keep<K: Keeper<Kept>, G: Gate, C: Clock, D: Draw>(
    alloc: Global,
    octets: &[u8],
    keeper: &mut K,
    gate: &mut G,
    clock: &mut C,
    draw: &mut D,
    width: u32,
    keys: &mut KeyCache,
) -> Reply
    requires ready { K.ready keeper.old }
    ensures answered { Makes K.Keeper C.Clock D.Draw keeper.old keeper.new clock.old clock.new
        draw.old draw.new (AnswersBy (Questions G.Gate 2 gate.old gate.new)
        (serving G.program width)
        octets.now result) }
    ensures fits { Fits result }
    ensures gate_kept { GateKept G.Gate gate.old gate.new }
{
    let now = clock.now();
    let mut draws = [0; 82];
    draw.fill(&mut draws);
    let answered = answer_record_by(alloc, gate, octets, now, &draws, width, keys);
    keeper.keep(answered.kept);
    answered.reply
}

/// Writes a reply, where there is one.
fn respond<L: Link>(link: &mut L, reply: &Reply) -> Result<(), ConnEnd>
    requires unclosed { L.closed link.old ≡ false }
    requires fits { Fits reply.now }
    ensures told { (ruling : Ruling) → IsReply ruling reply.now → Responds (L.tells link.old)
        (L.wire link.old) (L.wire link.new) (framed ruling.reply) result }
    ensures ruled { (ruling : Ruling) → IsReply ruling reply.now → Ruled ruling result }
    ensures link_left { LinkLeft L.Link link.old link.new (IsErrOf result ConnEnd.LinkFault) }
{
    match reply {
        Reply::Silent => Ok(()),
        Reply::Gone => Err(ConnEnd::Lost),
        Reply::NoMemory => Err(ConnEnd::NoMemory),
        Reply::Bytes(octets) => match write_record(link, octets.as_slice()) {
            Ok(()) => Ok(()),
            Err(_) => Err(ConnEnd::LinkFault),
        },
    }
}
