//! A session over datagrams.

ghost use Rattle.std.specs.Prelude.{◌≡◌, ◌≤◌, IsTrue, IsErrOf, IfErr};
ghost use Rattle.sec_base.specs.Answers.{Rose};
ghost use Rattle.datagram_client.specs.Calls.{Left};

use crate::refusal::PostRefusal;
use datagram_post::{Post, PostFault};
use gss_client::Session;
use sec_base::NoMemory;
use spnego_core::Outcome;
use std::alloc::Global;
use std::marker::Model;

/// A context that stands, and where its calls are, over datagrams. Each call consumes it and gives the next state.
#[derive(Drop)]
pub struct DatagramSession {
    pub(crate) session: Session,
}

impl Model for DatagramSession {
    ghost use Rattle.gss_client.specs.Session.{SessionState};

    ghost Value = { SessionState };

    ghost view = { λ d. d.session };
}

impl DatagramSession {
    /// What both ends agree on.
    pub fn outcome(&self) -> &Outcome
        ensures { result.now ≡ self.now.outcome }
    {
        self.session.outcome()
    }

    /// The number of the next call: after the call of number 0x7fffffff it is 0x80000000, and no call is left.
    pub fn next_number(&self) -> u32
        ensures value { result ≡ self.now.number }
        ensures last { result ≤ 0x80000000 }
    {
        self.session.next_number()
    }

    /// Sends one call that destroys the context, and waits for nothing: where it is lost, the context stays as long as the server keeps it. The
    /// session is spent, whatever the answer.
    pub fn leave<P: Post>(self, alloc: Global, post: &mut P) -> Result<(), PostRefusal>
        ensures left { IsTrue (P.tells post.old) → Left P.Post self post.old post.new result }
        ensures fault { IsErrOf result PostRefusal.PostFault
            → Rose (P.faults post.old) (P.faults post.new) }
        ensures tells { P.tells post.new ≡ P.tells post.old }
        ensures faults { P.faults post.old ≤ P.faults post.new }
    {
        match self.session.write_destroy(alloc) {
            Ok(call) => match post.send(call.as_slice()) {
                Ok(()) => Ok(()),
                Err(PostFault) => Err(PostRefusal::PostFault),
            },
            Err(NoMemory) => Err(PostRefusal::NoMemory),
        }
    }
}
