//! The results of the program, in words of XDR (RFC 4506).

ghost use Rattle.std.specs.Prelude.{◌≡◌, ◌≤◌, ◌++◌, true, OnOk, IfOk, length};
ghost use Rattle.rpc_msgs.specs.Words.{word};
ghost use Rattle.rpc_program.specs.Programs.{Gives, IsShort};
ghost use Rattle.rpc_program.specs.declared.limits.TheConstants.{MOST};
ghost use Rattle.posts_program.specs.Posts.{is_one_opaque, result_of};

use crate::numbers::{COUNT, ECHO, MOST_POSTED, POST, PROGRAM, VERSION, WHOAMI};
use rpc_msgs::numbers::NULL;
use rpc_msgs::{XdrWriter, opaque_alone};
use rpc_program::{Answerer, Caller, Outcome, ProgramId};
use rpcsec_bodies::Service;
use sec_base::{NoMemory, Octets};
use std::alloc::Global;

/// Who spells the results.
#[derive(Drop)]
pub struct PostsWords;

impl Answerer<u64> for PostsWords {
    ghost use Rattle.posts_program.specs.Posts.{posts_says, result_of};

    ghost says = { posts_says };

    ghost answers = { λ caller procedure args posts. result_of procedure args caller.name posts };

    fn id(&self) -> ProgramId {
        ProgramId {
            number: PROGRAM,
            version: VERSION,
        }
    }

    fn has(&self, procedure: u32) -> bool {
        procedure <= COUNT
    }

    fn needs(&self, procedure: u32) -> Service {
        if procedure == NULL {
            return Service::None;
        }
        Service::Integrity
    }

    fn takes(&self, procedure: u32, args: &[u8]) -> bool {
        match procedure {
            ECHO => is_posted(args),
            POST => is_posted(args),
            _ => args.is_empty(),
        }
    }

    fn answer(
        &self,
        alloc: Global,
        caller: &Caller<'_>,
        procedure: u32,
        args: &[u8],
        ticket: u64,
    ) -> Outcome {
        outcome_of(alloc, caller.name, procedure, args, ticket)
    }
}

/// Whether octets are one opaque, of what is echoed or posted.
fn is_posted(octets: &[u8]) -> bool
    ensures value { result ≡ is_one_opaque octets.now }
    ensures size { result ≡ true → length octets.now ≤ MOST }
{
    opaque_alone(MOST_POSTED, octets).is_ok()
}

/// What becomes of a call: ECHO's result is its arguments, where they lie.
fn outcome_of(alloc: Global, name: &[u8], procedure: u32, args: &[u8], posts: u64) -> Outcome
    requires few { length args.now ≤ MOST }
    requires name { length name.now ≤ 255 }
    ensures value { Gives args.now (result_of procedure args.now name.now posts) result }
    ensures short { IsShort result }
{
    if procedure == ECHO {
        return Outcome::Args;
    }
    match result_octets(alloc, name, procedure, args, posts) {
        Ok(octets) => Outcome::Done(octets),
        Err(_) => Outcome::NoMemory,
    }
}

/// The octets of a result.
fn result_octets(
    alloc: Global,
    name: &[u8],
    procedure: u32,
    args: &[u8],
    posts: u64,
) -> Result<Octets, NoMemory>
    requires few { length args.now ≤ MOST }
    requires name { length name.now ≤ 255 }
    ensures value { IfOk result (λ octets. octets
        ≡ result_of procedure args.now name.now posts) }
    ensures size { IfOk result (λ octets. length octets ≤ MOST) }
{
    let mut out = XdrWriter::new(alloc);
    put_result(&mut out, name, procedure, args, posts)?;
    Ok(out.finish())
}

/// Appends a result: ECHO's argument, the caller's name, or the low 32 bits of the count of posts.
fn put_result(
    out: &mut XdrWriter,
    name: &[u8],
    procedure: u32,
    args: &[u8],
    posts: u64,
) -> Result<(), NoMemory>
    requires { length name.now ≤ 255 }
    ensures { OnOk result (out.new ≡ out.old ++ result_of procedure args.now name.now posts) }
{
    match procedure {
        NULL => Ok(()),
        ECHO => out.octets(args),
        WHOAMI => out.opaque(name),
        _ => out.word(low_word(posts)),
    }
}

/// The low 32 bits of a count, whose word has the count's octets.
fn low_word(count: u64) -> u32
    ensures { word result ≡ word count }
{
    (count % 4_294_967_296) as u32
}
