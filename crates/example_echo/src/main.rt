//! A client's session with a server over a link in memory: a context is created, one call is made in it, and it is destroyed.
//!
//! What the client writes on the link are records of ONC RPC (RFC 5531), under RPCSEC_GSS (RFC 2203 section 5); the link answers each by the
//! rules by which `gssrpcd` answers it. Where something is refused, or memory wants, the program ends with status 1.
#![tactic(auto)]

ghost use Rattle.std.specs.Prelude.{◌≡◌, false};

use posts_client::Procedure;
use posts_program::{Posts, PostsWords};
use service_kit::{
    BenchLink, DueCall, Link, MemDraw, Octets, Parting, Service, Spelled, Talk, Terms,
    hold_by_password, link_in_memory, opaque_alone,
};
use spnego_core::Outcome;
use std::alloc::Global;
use std::io;
use std::process::ExitCode;
use std::str::from_utf8;

/// The program that the server serves, and its version (RFC 5531 section 9): the client calls them.
const PROGRAM: u32 = 0x2000_4753;

const VERSION: u32 = 1;

/// The user, whom both ends know, and the password, which the client alone knows.
const USER: &str = "alice";

const PASSWORD: &str = "open sesame";

/// The argument of the call: how many octets the words have, the words, and zeros up to a multiple of four (RFC 4506 section 4.10).
const ARGUMENT: [u8; 16] = *b"\0\0\0\x0bhello world\0";

/// The most octets of an echo.
const MOST_OCTETS: u32 = 65_536;

/// A link to a server of the program of posts.
type PostsLink = BenchLink<Posts, Spelled<PostsWords>>;

/// Holds the session by the user's password. Its creation carries the tokens of a negotiation (RFC 2203 section 5.2);
/// its call goes by integrity, so that a MIC covers the argument and another the result (section 5.3.2.2); then it destroys the context
/// (section 5.4).
fn hold(alloc: Global, link: &mut PostsLink) -> Option<Talk>
    // a link that is closed isn't written to
    requires { ⟦<PostsLink as Link>⟧.closed link.old ≡ false }
{
    let terms = Terms {
        service: Service::Integrity,
        program: PROGRAM,
        version: VERSION,
    };
    let argument = Octets::of(alloc, &ARGUMENT).ok()?;
    let mut due = Vec::new(alloc);
    due.push(DueCall::of(Procedure::Echo, argument)).ok()?;
    // The client's random octets count from 0 on, so that each run is the same; a program takes them from the system.
    let mut draw = MemDraw::new(Vec::new(alloc));
    hold_by_password(
        alloc,
        link,
        &mut draw,
        USER,
        PASSWORD,
        terms,
        due.as_slice(),
    )
}

/// Says who made the context, once it stood.
fn say_outcome(rt: &impl Print, outcome: &Option<Outcome>) -> io::Result<()> {
    match outcome {
        Some(outcome) => println!(rt; "a context stands, made by {}", outcome.initiator.text()),
        None => println!(rt; "no context stands"),
    }
}

/// Says the words of a result, which is spelled as the argument is.
fn say_words(rt: &impl Print, spelled: &Octets) -> io::Result<()> {
    match opaque_alone(MOST_OCTETS, spelled.as_slice()) {
        Ok(words) => println!(rt;
            "the server echoes: {}",
            from_utf8(words).unwrap_or("no text")
        ),
        Err(_) => Err(io::Error::other("the result isn't spelled as it should be")),
    }
}

/// Says what a session came to, and how many records the server answered.
fn report(rt: &impl Print, talk: &Talk, answered: usize) -> io::Result<()> {
    say_outcome(rt, &talk.outcome)?;
    for result in talk.results.as_slice() {
        say_words(rt, result)?;
    }
    match talk.parting {
        Parting::Finished => println!(rt; "the context is destroyed, after {answered} records"),
        _ => Err(io::Error::other("the session ended early")),
    }
}

/// Makes the link, holds the session, and says what came of it.
fn run(rt: &impl Print, alloc: Global) -> Option<()> {
    let speller = Spelled { by: PostsWords };
    let mut link = link_in_memory(alloc, Posts::new(), speller, USER, PASSWORD).ok()?;
    let talk = hold(alloc, &mut link);
    let answered = link.kept().len();
    drop(link);
    let talk = talk?;
    let reported = report(rt, &talk, answered);
    drop(talk);
    reported.ok()
}

fn main(rt: HostRuntime) -> ExitCode {
    match run(&rt, rt.alloc()) {
        Some(()) => ExitCode::SUCCESS,
        None => ExitCode::FAILURE,
    }
}
