//! The program that the tables' books serve, the one of posts.

ghost use Rattle.std.specs.Prelude.{◌≡◌, ◌≤◌, true, length};
ghost use Rattle.posts_program.specs.Posts.{posts_says};
ghost use Rattle.rpc_program.specs.declared.limits.TheConstants.{MOST};

use accept_book::OwnSeat;
use gate_models::{GateAnswer, ListGate};
use gss_server::{DataCall, Gate, OwnGate};
use posts_program::{Posts, PostsWords};
use rpc_program::{Answerer, Spelled};
use rpcsec_bodies::Service;
use sec_base::NoMemory;
use sha1::Sha1;
use std::alloc::Global;

/// Who spells its results.
pub type Words = Spelled<PostsWords>;

/// A gate that gives the answers of a list.
pub type Answers = ListGate<u64, Words>;

/// A book with the program.
pub type BookGate = OwnGate<Posts, Words>;

/// A gate that gives these answers, in order.
pub fn list_gate(alloc: Global, answers: Vec<GateAnswer>) -> Result<Answers, NoMemory> {
    ListGate::new(alloc, Spelled { by: PostsWords }, answers)
}

/// A book with the program, to which nothing was posted.
pub fn gate_of(book: OwnSeat) -> BookGate {
    OwnGate::new(book, Posts::new(), Spelled { by: PostsWords })
}

/// A call by integrity of a procedure with these arguments.
pub fn call_of(seq: u32, procedure: u32, args: &[u8]) -> DataCall<'_>
    ensures procedure { result.procedure ≡ procedure }
    ensures args { result.args.now ≡ args.now }
{
    DataCall {
        seq,
        service: Service::Integrity,
        procedure,
        args,
        digest: Sha1::digest(args),
    }
}

/// Whether a gate takes a call of a procedure with these arguments.
pub fn is_taken<G: Gate>(gate: &G, procedure: u32, args: &[u8]) -> bool
    ensures has { result ≡ true → G.program.has procedure ≡ true }
    ensures takes { result ≡ true → G.program.takes procedure args.now ≡ true }
    ensures few { result ≡ true → length args.now ≤ MOST }
{
    gate.has(procedure) && gate.takes(procedure, args)
}
