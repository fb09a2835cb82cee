//! A gate that writes down what it is asked.

ghost use Rattle.std.specs.Prelude.{◌≡◌};

use crate::served::Answers;
use accept_book::{AdmitRefusal, Admitted, Lease, LookRefusal, Negotiated, Receipt};
use gss_server::{DataCall, Gate, caller_of_lease};
use posts_program::PostsWords;
use rpc_program::{Answerer, ProgramId};
use rpcsec_bodies::Service;
use sec_base::Moment;
use std::alloc::Global;
use table_rows::Said;

/// A list of answers, and the questions that were asked of it: `look:id`, `admit:id:seq:procedure:sha1`, `end:id:seq`, `token:id`. A call that
/// is admitted comes to what the program of posts gives where so many posts were made, or to what is told of it.
#[derive(Drop)]
pub struct Asking {
    pub answers: Answers,
    pub questions: Said,
    pub posts: Option<u64>,
}

/// Writes a question about a context down.
fn ask(said: &mut Said, name: &str, id: u64) {
    said.word(name);
    said.join(":");
    said.number(id);
    said.join(",");
}

/// Writes a number down behind those of a question.
fn ask_number(said: &mut Said, number: u32) {
    said.join(":");
    said.number(number as u64);
    said.join(",");
}

/// Writes the digest of the arguments down behind a question.
fn ask_digest(said: &mut Said, digest: &[u8; 20]) {
    said.join(":");
    said.octets(digest);
    said.join(",");
}

impl Gate for Asking {
    ghost use Rattle.std.specs.Prelude.{false, []};
    ghost use Rattle.posts_program.specs.Posts.{posts_says};

    ghost program = { posts_says };

    ghost tells = { λ _. false };

    ghost room = { λ _. 0 };

    ghost told = { λ _. [] };

    ghost limits = { λ _. record {
      contexts = 0;
      marks = 0;
      log = 0;
      width = 0;
      keeping = record { entries = false; digest = false };
    } };

    ghost answers = { λ _ _ _. Unit {0} };

    fn id(&self) -> ProgramId {
        self.answers.id()
    }

    fn has(&self, procedure: u32) -> bool {
        self.answers.has(procedure)
    }

    fn needs(&self, procedure: u32) -> Service {
        self.answers.needs(procedure)
    }

    fn takes(&self, procedure: u32, args: &[u8]) -> bool {
        self.answers.takes(procedure, args)
    }

    fn negotiate(
        &mut self,
        alloc: Global,
        id: Option<u64>,
        token: &[u8],
        now: Moment,
        draws: &[u8; 66],
    ) -> Negotiated {
        ask(&mut self.questions, "token", id.unwrap_or(0));
        self.answers.negotiate(alloc, id, token, now, draws)
    }

    fn look(&mut self, id: u64, now: Moment) -> Result<Lease, LookRefusal> {
        ask(&mut self.questions, "look", id);
        self.answers.look(id, now)
    }

    fn admit(
        &mut self,
        alloc: Global,
        lease: &Lease,
        call: &DataCall<'_>,
    ) -> Result<Admitted, AdmitRefusal> {
        ask(&mut self.questions, "admit", lease.id);
        ask_number(&mut self.questions, call.seq);
        ask_number(&mut self.questions, call.procedure);
        ask_digest(&mut self.questions, &call.digest);
        let admitted = self.answers.admit(alloc, lease, call)?;
        match self.posts {
            Some(posts) => {
                let caller = caller_of_lease(lease, call.service, admitted.receipt.place);
                let outcome = PostsWords.answer(alloc, &caller, call.procedure, call.args, posts);
                Ok(Admitted {
                    receipt: admitted.receipt,
                    outcome,
                })
            }
            None => Ok(admitted),
        }
    }

    fn pass(&mut self, lease: &Lease, call: &DataCall<'_>) -> Result<Receipt, AdmitRefusal> {
        self.answers.pass(lease, call)
    }

    fn end(&mut self, lease: &Lease, seq: u32) -> Result<Receipt, AdmitRefusal> {
        ask(&mut self.questions, "end", lease.id);
        ask_number(&mut self.questions, seq);
        self.answers.end(lease, seq)
    }
}
