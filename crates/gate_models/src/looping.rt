//! What a link in one thread heard, and what it answered.

ghost use Rattle.std.specs.Prelude.{◌≡◌, ◌≤◌, ◌<◌, ◌+◌, ◌++◌, ℕ, List, true, false, not, IfOk};
ghost use Rattle.std.specs.Prelude.{OnErr, length, vec_len};
ghost use Rattle.rpc_msgs.specs.Records.{last_fragment};
ghost use Rattle.accept_book.specs.RecordShown.{Ruling};
ghost use Rattle.gss_server.specs.Answers.{IsReply, Fits};
ghost use Rattle.gss_server.specs.Asking.{Asking};
ghost use Rattle.gss_server.specs.Hearing.{serving};
ghost use Rattle.gate_models.specs.Looping.{size_of, IsNext, IsSaid, IsAnsweredBy, Unjudged};
ghost use Rattle.gate_models.specs.Looping.{LoopedTo, IsTurned, Looped, HeardMore, GaveTo};

use gss_server::{Answered, Gate, Kept, Reply, answer_record_by};
use krb_tokens::KeyCache;
use rpc_msgs::{RecordRefusal, next_record, write_record};
use sec_base::{Draw, MemLink, Moment, NoMemory, Octets};
use std::alloc::Global;

/// The gate, the moment of all answers, and the random octets; all octets that were heard, how many of them stand in records that were
/// answered, all octets that were said, what was kept of the answers, and the keys of the context of the call before.
#[derive(Drop)]
pub(crate) struct Looping<G, Q> {
    pub gate: G,
    pub now: Moment,
    pub draws: Q,
    pub width: u32,
    pub heard: Vec<u8>,
    pub cut: usize,
    pub said: Vec<u8>,
    pub kept: Vec<Kept>,
    pub keys: KeyCache,
    ghost within: { cut ≤ vec_len heard },
}

/// What stands at the front of octets.
pub(crate) enum Next {
    /// A whole record of so many octets in the stream.
    Record(Octets, usize),
    /// A front of a record, which may be empty.
    Front,
    /// What no record begins with.
    Unfit,
    /// There was no memory for the record.
    NoMemory,
}

/// How hearing ends.
#[derive(Clone, Copy)]
pub(crate) enum Turned {
    /// A record was answered.
    Answered,
    /// No whole record is left.
    Rests,
    /// Answering ends: there was no memory for an answer, or what became of a call isn't known.
    Starved,
}

/// What stands at the front of these octets.
fn next_in(alloc: Global, octets: &[u8]) -> Next
    ensures found { IsNext octets.now result }
    ensures size { size_of result ≤ length octets.now }
{
    let input = match Vec::from_slice(alloc, octets) {
        Ok(input) => input,
        Err(_) => return Next::NoMemory,
    };
    let mut link = MemLink::new(alloc, input, Vec::new(alloc), Vec::new(alloc));
    match next_record(alloc, &mut link) {
        Ok(Some(record)) => Next::Record(record, link.taken().len()),
        Ok(None) => Next::Front,
        Err(RecordRefusal::Torn) => Next::Front,
        Err(RecordRefusal::TooLong) => Next::Unfit,
        Err(RecordRefusal::TooManyFragments) => Next::Unfit,
        Err(RecordRefusal::LinkFault) => Next::NoMemory,
        Err(RecordRefusal::NoMemory) => Next::NoMemory,
    }
}

/// Puts a record behind others, or leaves them as they are where there is no memory.
fn append_record(alloc: Global, said: &mut Vec<u8>, bytes: &[u8]) -> Result<(), NoMemory>
    requires { length bytes.now ≤ 131072 }
    ensures done { IfOk result (λ _. said.new.items ≡ said.old.items ++ last_fragment bytes.now) }
    ensures unchanged { OnErr result (said.new.items ≡ said.old.items) }
{
    let mut link = MemLink::new(alloc, Vec::new(alloc), Vec::new(alloc), Vec::new(alloc));
    match write_record(&mut link, bytes) {
        Ok(()) => {}
        Err(_) => return Err(NoMemory),
    }
    match said.extend_from_slice(link.written()) {
        Ok(()) => Ok(()),
        Err(_) => Err(NoMemory),
    }
}

/// Says what is replied, as one record or nothing.
fn say(alloc: Global, said: &mut Vec<u8>, reply: &Reply) -> Turned
    requires fits { Fits reply.now }
    ensures { (ruling : Ruling) → IsReply ruling reply.now
        → IsSaid ruling said.old.items said.new.items result }
{
    match reply {
        Reply::Silent => Turned::Answered,
        Reply::Gone => Turned::Starved,
        Reply::NoMemory => Turned::Starved,
        Reply::Bytes(octets) => match append_record(alloc, said, octets.as_slice()) {
            Ok(()) => Turned::Answered,
            Err(_) => Turned::Starved,
        },
    }
}

impl<G: Gate, Q: Draw> Looping<G, Q> {
    /// Answers a record that has so many octets in the stream.
    fn answer(&mut self, alloc: Global, octets: &[u8], size: usize) -> Turned
        requires within { self.old.cut + size ≤ vec_len self.old.heard }
        ensures answered { IsAnsweredBy
            (λ asked. Asking G.answers self.old.gate asked self.new.gate)
            (serving G.program self.old.width)
            self.old.now octets.now size self.old.kept.items self.new.kept.items
            self.old.said.items self.new.said.items self.old.cut self.new.cut result }
        ensures heard { self.new.heard ≡ self.old.heard }
        ensures drawn { (before : List ℕ) → GaveTo (Q.tells self.old.draws) (Q.given self.old.draws)
            before self.old.kept.items
            → GaveTo (Q.tells self.new.draws) (Q.given self.new.draws) before self.new.kept.items }
        ensures width { self.new.width ≡ self.old.width }
        ensures moment { self.new.now ≡ self.old.now }
    {
        if self.kept.reserve(1).is_err() {
            return Turned::Starved;
        }
        let mut draws = [0; 82];
        self.draws.fill(&mut draws);
        let answered = answer_record_by(
            alloc,
            &mut self.gate,
            octets,
            self.now,
            &draws,
            self.width,
            &mut self.keys,
        );
        let Answered { kept, reply, .. } = answered;
        self.kept.push_reserved(kept);
        match say(alloc, &mut self.said, &reply) {
            Turned::Answered => {
                self.cut += size;
                Turned::Answered
            }
            Turned::Rests => Turned::Rests,
            Turned::Starved => Turned::Starved,
        }
    }

    /// Answers the next record, where it is whole.
    fn turn(&mut self, alloc: Global) -> Turned
        ensures looped { (first : G) → LoopedTo
            (Unjudged (λ asked. Asking G.answers first asked self.old.gate))
            (serving G.program self.old.width)
            self.old.now self.old.heard.items self.old.said.items self.old.kept.items self.old.cut
            → IsTurned (λ asked. Asking G.answers first asked self.new.gate)
            (serving G.program self.new.width)
            self.new.now self.new.heard.items self.new.said.items self.new.kept.items self.new.cut
            result }
        ensures further { result ≡ Turned.Answered → self.old.cut < self.new.cut }
        ensures said { (more : List ℕ) × (self.new.said.items ≡ self.old.said.items ++ more) }
        ensures heard { self.new.heard ≡ self.old.heard }
        ensures drawn { (before : List ℕ) → GaveTo (Q.tells self.old.draws) (Q.given self.old.draws)
            before self.old.kept.items
            → GaveTo (Q.tells self.new.draws) (Q.given self.new.draws) before self.new.kept.items }
        ensures width { self.new.width ≡ self.old.width }
        ensures moment { self.new.now ≡ self.old.now }
    {
        match next_in(alloc, &self.heard[self.cut..]) {
            Next::Record(octets, size) => self.answer(alloc, octets.as_slice(), size),
            Next::Front => Turned::Rests,
            Next::Unfit => Turned::Rests,
            Next::NoMemory => Turned::Starved,
        }
    }

    /// Answers all whole records; false where answering ended before.
    fn hear(&mut self, alloc: Global) -> bool
        ensures looped { (first : G) → LoopedTo
            (Unjudged (λ asked. Asking G.answers first asked self.old.gate))
            (serving G.program self.old.width)
            self.old.now self.old.heard.items self.old.said.items self.old.kept.items self.old.cut
            → Looped (λ asked. Asking G.answers first asked self.new.gate)
            (serving G.program self.new.width)
            self.new.now self.new.heard.items self.new.said.items self.new.kept.items self.new.cut
            (not result) }
        ensures said { (more : List ℕ) × (self.new.said.items ≡ self.old.said.items ++ more) }
        ensures heard { self.new.heard ≡ self.old.heard }
        ensures drawn { (before : List ℕ) → GaveTo (Q.tells self.old.draws) (Q.given self.old.draws)
            before self.old.kept.items
            → GaveTo (Q.tells self.new.draws) (Q.given self.new.draws) before self.new.kept.items }
        ensures width { self.new.width ≡ self.old.width }
        ensures moment { self.new.now ≡ self.old.now }
    {
        while self.cut < self.heard.len() {
            match self.turn(alloc) {
                Turned::Answered => {}
                Turned::Rests => return true,
                Turned::Starved => return false,
            }
        }
        true
    }

    /// Hears these octets behind those that it heard, and answers; false where answering ended.
    pub(crate) fn take(&mut self, alloc: Global, buf: &[u8]) -> bool
        ensures looped { (first : G) → Looped (λ asked. Asking G.answers first asked self.old.gate)
            (serving G.program self.old.width) self.old.now self.old.heard.items self.old.said.items
            self.old.kept.items self.old.cut false
            → Looped (λ asked. Asking G.answers first asked self.new.gate)
            (serving G.program self.new.width)
            self.new.now self.new.heard.items self.new.said.items self.new.kept.items self.new.cut
            (not result) }
        ensures said { (more : List ℕ) × (self.new.said.items ≡ self.old.said.items ++ more) }
        ensures heard { HeardMore buf.now self.old.heard.items self.new.heard.items result }
        ensures drawn { (before : List ℕ) → GaveTo (Q.tells self.old.draws) (Q.given self.old.draws)
            before self.old.kept.items
            → GaveTo (Q.tells self.new.draws) (Q.given self.new.draws) before self.new.kept.items }
        ensures width { self.new.width ≡ self.old.width }
        ensures moment { self.new.now ≡ self.old.now }
    {
        match self.heard.extend_from_slice(buf) {
            Ok(()) => self.hear(alloc),
            Err(_) => false,
        }
    }
}
