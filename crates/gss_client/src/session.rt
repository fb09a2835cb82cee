//! A session: a context of RPCSEC_GSS with a server, RFC 2203 section 5.

ghost use Rattle.std.specs.Prelude.{◌≡◌, ◌≤◌, false, true, IsTrue, IsErrOf, IfOk, length};
ghost use Rattle.sec_base.specs.Answers.{Rose, Gives};
ghost use Rattle.gss_client.specs.Judging.{result_taken};
ghost use Rattle.gss_client.specs.Calling.{data_call};
ghost use Rattle.gss_client.specs.Exchanging.{Talks, IsHandle};
ghost use Rattle.gss_client.specs.Session.{xid_after, session_after};
ghost use Rattle.gss_client.specs.Talk.{begun, calls, destroys};
ghost use Rattle.gss_client.specs.Talking.{exchanges};

use crate::calling::{data_call, destroy_call};
use crate::exchange::exchange;
use crate::refusal::ClientRefusal;
use crate::results::{call_result, destroyed_in};
use crate::terms::Terms;
use krb_tokens::{KeyCache, Side};
use rpcsec_bodies::Service;
use sec_base::{Link, NoMemory, Octets};
use spnego_core::Outcome;
use std::alloc::Global;
use std::marker::Model;

/// A context that stands, and where its calls are. Each step consumes it and gives the next state.
#[derive(Drop)]
pub struct Session {
    pub(crate) outcome: Outcome,
    pub(crate) terms: Terms,
    pub(crate) handle: Octets,
    pub(crate) number: u32,
    pub(crate) xid: u32,
    /// The keys of the context's tokens.
    pub(crate) keys: KeyCache,
}

impl Model for Session {
    ghost use Rattle.std.specs.Prelude.{◌≤◌, length};
    ghost use Rattle.gss_client.specs.Session.{SessionState};

    ghost Value = { SessionState };

    ghost view = { λ s. record {
      outcome = s.outcome;
      terms = s.terms;
      handle =
          s.handle;
      number = s.number;
      xid = s.xid;
    } };

    ghost invariant = { λ s. (length s.handle ≤ 64) × (s.number ≤ 0x80000000) };
}

/// The transaction number after this one: it counts by one, and 0 follows the greatest word.
pub fn xid_after(xid: u32) -> u32
    ensures { result ≡ xid_after xid }
{
    xid.wrapping_add(1)
}

/// The initiator's keys: those of its MIC tokens, and for calls by privacy those of its sealed bodies.
fn keys_of(outcome: &Outcome, service: Service) -> KeyCache {
    let end = outcome.token_end(Side::Initiator);
    let mut keys = KeyCache::empty();
    match service {
        Service::Privacy => keys.keep_sealing(&end),
        _ => keys.keep(&end),
    }
    keys
}

impl Session {
    /// The session of a context that stands, by the server's handle of at most 64 octets: its next call has the number `first`, at most 0x80000000, and
    /// the transaction number `xid`. Where calls go by a `Link`, `create` begins it.
    pub fn begun(terms: Terms, first: u32, xid: u32, outcome: Outcome, handle: Octets) -> Session
        requires number { first ≤ 0x80000000 }
        requires handle { IsHandle handle }
        ensures { result ≡ begun terms first xid outcome handle }
    {
        let keys = keys_of(&outcome, terms.service);
        Session {
            outcome,
            terms,
            handle,
            number: first,
            xid,
            keys,
        }
    }

    /// What both ends agree on.
    pub fn outcome(&self) -> &Outcome
        ensures { result.now ≡ self.now.outcome }
    {
        &self.outcome
    }

    /// The number of the next call: after the call of number 0x7fffffff it is 0x80000000, and no call is left.
    pub fn next_number(&self) -> u32
        ensures value { result ≡ self.now.number }
        ensures last { result ≤ 0x80000000 }
    {
        self.number
    }

    /// The record of the next call, of a procedure with these arguments, RFC 2203 section 5.3.1: at most 131,072 octets. The session stays where it is,
    /// and `next` leads behind the call. `confounder` are random octets, used once; only calls by `Service::Privacy` use them.
    pub fn write_call(
        &self,
        alloc: Global,
        procedure: u32,
        args: &[u8],
        confounder: &[u8; 16],
    ) -> Result<Octets, NoMemory>
        requires { length args.now ≤ 65540 }
        ensures value { IfOk result
            (λ o. o ≡ data_call self.now procedure args.now confounder.now) }
        ensures size { IfOk result (λ o. length o ≤ 131072) }
    {
        data_call(alloc, self, procedure, args, confounder)
    }

    /// The session behind a call: the next number and transaction number. Behind the call of number 0x7fffffff no call is left.
    pub fn next(self) -> Session
        requires { self.number ≤ 0x7fffffff }
        ensures { result ≡ session_after self }
    {
        Session {
            outcome: self.outcome,
            terms: self.terms,
            handle: self.handle,
            number: self.number + 1,
            xid: xid_after(self.xid),
            keys: self.keys,
        }
    }

    /// Writes a call, and hears its reply.
    fn ask<L: Link>(
        &self,
        alloc: Global,
        link: &mut L,
        procedure: u32,
        args: &[u8],
        confounder: &[u8; 16],
    ) -> Result<Octets, ClientRefusal>
        requires unclosed { L.closed link.old ≡ false }
        requires args { length args.now ≤ 65540 }
        ensures told { IsTrue (L.tells link.old)
            → Talks (exchanges (data_call self.now procedure args.now confounder.now))
            (L.wire link.old) (L.wire link.new) result }
        ensures fault { IsErrOf result ClientRefusal.LinkFault
            → Rose (L.faults link.old) (L.faults link.new) }
        ensures tells { L.tells link.new ≡ L.tells link.old }
        ensures unclosed { L.closed link.new ≡ false }
        ensures faults { L.faults link.old ≤ L.faults link.new }
    {
        match data_call(alloc, self, procedure, args, confounder) {
            Ok(call) => exchange(alloc, link, call.as_slice()),
            Err(NoMemory) => Err(ClientRefusal::NoMemory),
        }
    }

    /// Calls a procedure: the result's octets, and the session behind the call. `confounder` are random octets, used once.
    pub fn call<L: Link>(
        self,
        alloc: Global,
        link: &mut L,
        procedure: u32,
        args: &[u8],
        confounder: &[u8; 16],
    ) -> Result<(Session, Octets), ClientRefusal>
        requires unclosed { L.closed link.old ≡ false }
        requires number { self.number ≤ 0x7fffffff }
        requires args { length args.now ≤ 65540 }
        ensures told { IsTrue (L.tells link.old)
            → Talks (calls self procedure args.now confounder.now) (L.wire link.old)
            (L.wire link.new) result }
        ensures fault { IsErrOf result ClientRefusal.LinkFault
            → Rose (L.faults link.old) (L.faults link.new) }
        ensures tells { L.tells link.new ≡ L.tells link.old }
        ensures unclosed { L.closed link.new ≡ false }
        ensures faults { L.faults link.old ≤ L.faults link.new }
    {
        match self.ask(alloc, link, procedure, args, confounder) {
            Ok(reply) => self.take_result(alloc, reply.as_slice()),
            Err(refusal) => {
                drop(self);
                Err(refusal)
            }
        }
    }

    /// Judges the reply to a call.
    #[tactic(auto, unfolding(crate::specs::Judging::result_taken))]
    fn take_result(self, alloc: Global, reply: &[u8]) -> Result<(Session, Octets), ClientRefusal>
        requires { self.number ≤ 0x7fffffff }
        ensures judged { Gives ClientRefusal.NoMemory (λ p. p) result
            (result_taken self reply.now) }
        ensures fault { IsErrOf result ClientRefusal.LinkFault → ⊥ }
    {
        match call_result(
            alloc,
            &self.keys,
            &self.outcome,
            self.terms.service,
            self.number,
            self.xid,
            reply,
        ) {
            Ok(octets) => Ok((self.next(), octets)),
            Err(refusal) => {
                drop(self);
                Err(refusal)
            }
        }
    }

    /// Destroys the context. The session is spent, whatever the answer.
    pub fn destroy<L: Link>(self, alloc: Global, link: &mut L) -> Result<(), ClientRefusal>
        requires unclosed { L.closed link.old ≡ false }
        ensures told { IsTrue (L.tells link.old)
            → Talks (destroys self) (L.wire link.old) (L.wire link.new) result }
        ensures fault { IsErrOf result ClientRefusal.LinkFault
            → Rose (L.faults link.old) (L.faults link.new) }
        ensures tells { L.tells link.new ≡ L.tells link.old }
        ensures unclosed { L.closed link.new ≡ false }
        ensures faults { L.faults link.old ≤ L.faults link.new }
    {
        let left = self.leave(alloc, link);
        drop(self);
        left
    }

    /// Destroys the context.
    fn leave<L: Link>(&self, alloc: Global, link: &mut L) -> Result<(), ClientRefusal>
        requires unclosed { L.closed link.old ≡ false }
        ensures told { IsTrue (L.tells link.old)
            → Talks (destroys self.now) (L.wire link.old) (L.wire link.new) result }
        ensures fault { IsErrOf result ClientRefusal.LinkFault
            → Rose (L.faults link.old) (L.faults link.new) }
        ensures tells { L.tells link.new ≡ L.tells link.old }
        ensures unclosed { L.closed link.new ≡ false }
        ensures faults { L.faults link.old ≤ L.faults link.new }
    {
        let call = match destroy_call(alloc, self) {
            Ok(call) => call,
            Err(NoMemory) => return Err(ClientRefusal::NoMemory),
        };
        match exchange(alloc, link, call.as_slice()) {
            Ok(reply) => destroyed_in(
                alloc,
                &self.keys,
                &self.outcome,
                self.terms.service,
                self.number,
                self.xid,
                reply.as_slice(),
            ),
            Err(refusal) => Err(refusal),
        }
    }
}
