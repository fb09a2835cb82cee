//! A call that is sent again, and what is heard in answer to it, where calls go by datagrams.

ghost use Rattle.std.specs.Prelude.{◌≡◌, ◌+◌, ◌-◌, ◌≤◌, is_ok, IfOk, length};
ghost use Rattle.gss_client.specs.Again.{session_again, Judges, judged, judged_at, first_verified};
ghost use Rattle.gss_client.specs.Calling.{destroy_call};
ghost use Rattle.gss_client.specs.Judging.{answer_in, answer_value};

use crate::answer::{Answer, answer_in, is_verified};
use crate::calling::destroy_call;
use crate::refusal::{Denial, ReplyWhy};
use crate::session::Session;
use krb_tokens::Side;
use rpc_msgs::numbers::SUCCESS;
use rpcsec_bodies::{BodyRefusal, unprotect};
use sec_base::{NoMemory, Octets};
use std::alloc::Global;

/// What a record is to a call that was sent, and perhaps again with further numbers.
#[derive(Debug, Drop)]
pub enum Judged {
    /// It doesn't read, is to another call, is a denial, or its verifier fits none of the call's numbers.
    Passes,
    /// It answers the call with this result.
    Takes(Octets),
    /// It verifies, and the server denied the call.
    Denies(Denial),
    /// It verifies, and its body isn't what is due.
    Spoils(ReplyWhy),
    /// No memory was to be had.
    NoMemory,
}

/// Whether a record is an accepted reply to the call of this transaction number.
pub fn answers_call(xid: u32, bytes: &[u8]) -> bool
    ensures { result ≡ is_ok (answer_in xid bytes.now) }
{
    answer_in(xid, bytes).is_ok()
}

impl Session {
    /// The session whose call is sent again: the next number, and the same transaction number.
    pub fn again(self) -> Session
        requires { self.number ≤ 0x7fffffff }
        ensures { result ≡ session_again self }
    {
        Session {
            outcome: self.outcome,
            terms: self.terms,
            handle: self.handle,
            number: self.number + 1,
            xid: self.xid,
            keys: self.keys,
        }
    }

    /// The record of the call that destroys the context, RFC 2203 section 5.4: at most 131,072 octets.
    pub fn write_destroy(&self, alloc: Global) -> Result<Octets, NoMemory>
        ensures value { IfOk result (λ o. o ≡ destroy_call self.now) }
        ensures size { IfOk result (λ o. length o ≤ 131072) }
    {
        destroy_call(alloc, self)
    }

    /// The first number from this one up to the session's own over which an accepted reply's verifier is the acceptor's MIC.
    fn first_verified(&self, answer: &Answer<'_>, first: u32) -> Option<u32>
        ensures { result ≡ first_verified self.now.outcome (answer_value answer.now) first
            (self.now.number + 1 - first) }
    {
        let mut number = first;
        while number <= self.number {
            if is_verified(&self.keys, &self.outcome, answer, number) {
                return Some(number);
            }
            number += 1;
        }
        None
    }

    /// What a record is to the session's call, which was sent with the numbers from `first` up to the session's own (RFC 2203 section 5.3.3): the
    /// first of these over which its verifier is the acceptor's MIC is that of the call that it answers.
    #[tactic(auto, unfolding(crate::specs::Again::judged))]
    pub fn judge(&self, alloc: Global, first: u32, bytes: &[u8]) -> Judged
        ensures { Judges result (judged self.now first bytes.now) }
    {
        let answer = match answer_in(self.xid, bytes) {
            Ok(answer) => answer,
            Err(_) => return Judged::Passes,
        };
        match self.first_verified(&answer, first) {
            Some(number) => self.judge_verified(alloc, &answer, number),
            None => Judged::Passes,
        }
    }

    /// What an accepted reply is to the session's call, whose verifier is the acceptor's MIC over this number.
    fn judge_verified(&self, alloc: Global, answer: &Answer<'_>, number: u32) -> Judged
        ensures { Judges result (judged_at self.now (answer_value answer.now) number) }
    {
        if answer.stat != SUCCESS {
            return Judged::Denies(Denial::Accept { stat: answer.stat });
        }
        let end = self.outcome.token_end(Side::Initiator);
        let body = answer.result;
        match unprotect(
            alloc,
            &end,
            &self.keys.lent(),
            self.terms.service,
            number,
            body,
        ) {
            Ok(result) => Judged::Takes(result),
            Err(BodyRefusal::Protection) => Judged::Spoils(ReplyWhy::Body),
            Err(BodyRefusal::Number) => Judged::Spoils(ReplyWhy::Number),
            Err(BodyRefusal::NoMemory) => Judged::NoMemory,
        }
    }
}
