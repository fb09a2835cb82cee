//! The run of a client over datagrams.

ghost use Rattle.std.specs.Prelude.{◌≡◌, ◌≢◌, ◌≤◌, ◌<◌, ◌⊎◌, [], true, false, IsTrue, IfOk, IfErr};
ghost use Rattle.std.specs.Prelude.{None, Ok, List, map, length};
ghost use Rattle.sec_base.specs.Answers.{Rose};
ghost use Rattle.cli_base.specs.Lines.{SaysLine, Says};
ghost use Rattle.client_command.specs.Runs.{names_in};
ghost use Rattle.client_options.specs.Endings.{is_begun};
ghost use Rattle.client_options.specs.Lines.{lines};
ghost use Rattle.client_options.specs.Mechs.{is_list};
ghost use Rattle.client_options.specs.Words.{is_fit, IsRanged};
ghost use Rattle.datagram_calls.specs.Runs.{Reports, Behind, Runs};
ghost use Rattle.datagram_options.specs.Endings.{call_status, call_line};
ghost use Rattle.init_ends.specs.Arming.{AreStandard};
ghost use Rattle.spnego_core.specs.InitMech.{is_own_list, is_bare_list};

use crate::credentials::short_creds;
use crate::speaking::{Spoken, speak};
use client_command::{creds_given, names_in, server_label};
use client_options::{ClientWords, Command, Names, Plan, RunEnd, Sources, lines_of};
use datagram_options::{CallEnd, say_call};
use datagram_post::Post;
use mech_objects::Mech;
use sec_base::{Clock, Draw, Items, NoMemory, Octets, Shelf, Sink};
use spnego_core::{MechCred, Outcome};
use std::alloc::Global;

/// What a run of a client came to.
#[derive(Drop)]
pub struct CallRun {
    /// The exit status: 0 all calls were answered, 3 a file can't be loaded, 4 it isn't of its format, or the cache has no credential for the
    /// server, or one whose ticket is too long, 5 the post failed, 6 a sink failed, 8 there was no memory, 10 the server refused, 11 the
    /// negotiation failed, 12 a reply or a result was none that may come, 13 the numbers of the context are spent, 14 no reply came.
    pub status: u8,
    /// How the run ended, before its line was written.
    pub end: CallEnd,
    /// What both ends agree on, once the context stood.
    pub outcome: Option<Outcome>,
    /// The results of the calls, in XDR, in order.
    pub results: Vec<Octets>,
}

/// Says how a run ended that spoke to nobody, or had no memory to print what it heard.
fn unspoken<O: Sink>(alloc: Global, names: &Names<'_>, end: CallEnd, err: &mut O) -> CallRun
    ensures status { result.status ≢ 6 → result.status ≢ 8
        → result.status ≡ call_status result.end }
    ensures sink_fault { result.status ≡ 6 → Rose (O.faults err.old) (O.faults err.new) }
    ensures said { IsTrue (O.tells err.old)
        → Says (O.written err.old) (O.written err.new) result.status (call_line names.now end) }
    ensures end { result.end ≡ end }
    ensures outcome { result.outcome ≡ None }
    ensures results { result.results.items ≡ [] }
{
    let status = say_call(alloc, err, names, end);
    CallRun {
        status,
        end,
        outcome: None,
        results: Vec::new(alloc),
    }
}

/// Writes what is printed of a session, and then the line of its end. Answers the run's status.
fn print<O: Sink>(
    alloc: Global,
    names: &Names<'_>,
    text: &[u8],
    end: CallEnd,
    out: &mut O,
    err: &mut O,
) -> u8
    ensures status { result ≢ 6 → result ≢ 8 → result ≡ call_status end }
    ensures sink_fault { result ≡ 6
        → Rose (O.faults out.old) (O.faults out.new) ⊎ Rose (O.faults err.old) (O.faults err.new) }
    ensures printed { IsTrue (O.tells out.old)
        → SaysLine (O.written out.old) (O.written out.new) result text.now }
    ensures said { IsTrue (O.tells err.old)
        → Says (O.written err.old) (O.written err.new) result (call_line names.now end) }
{
    match out.write(text) {
        Ok(()) => say_call(alloc, err, names, end),
        Err(_) => 6,
    }
}

/// Prints what a session came to, and says how it ended.
fn report<O: Sink>(
    alloc: Global,
    names: &Names<'_>,
    command: Command,
    spoken: Spoken,
    out: &mut O,
    err: &mut O,
) -> CallRun
    ensures status { result.status ≢ 6 → result.status ≢ 8
        → result.status ≡ call_status result.end }
    ensures sink_fault { result.status ≡ 6
        → Rose (O.faults out.old) (O.faults out.new) ⊎ Rose (O.faults err.old) (O.faults err.new) }
    ensures printed { IsTrue (O.tells out.old) → SaysLine (O.written out.old) (O.written out.new)
        result.status (lines command result.outcome result.results.items) }
    ensures said { IsTrue (O.tells err.old) → Says (O.written err.old) (O.written err.new)
        result.status (call_line names.now result.end) }
    ensures kept { Reports spoken.outcome spoken.results.items spoken.end result.outcome
        result.results.items result.end }
{
    let Spoken {
        outcome,
        results,
        end,
    } = spoken;
    match lines_of(alloc, command, &outcome, results.as_slice()) {
        Ok(text) => {
            let status = print(alloc, names, text.as_slice(), end, out, err);
            drop(text);
            CallRun {
                status,
                end,
                outcome,
                results,
            }
        }
        Err(NoMemory) => {
            drop(results);
            unspoken(alloc, names, CallEnd::As(RunEnd::NoMemory), err)
        }
    }
}

/// Holds the session where there are credentials, and says how the run ended.
fn run_by<P: Post, C: Clock, D: Draw, O: Sink>(
    alloc: Global,
    sources: &Sources,
    plan: Plan,
    tries: u32,
    creds: Result<Items<MechCred>, RunEnd>,
    post: &mut P,
    clock: &mut C,
    draw: &mut D,
    mechs: Vec<Box<dyn Mech>>,
    out: &mut O,
    err: &mut O,
) -> CallRun
    requires mechs { AreStandard (map meaning mechs.items) }
    requires range { IsRanged plan }
    requires tries { 0 < tries }
    requires own { IfOk creds (λ list. is_own_list list ≡ true) }
    requires bare { plan.negotiates ≡ false → IfOk creds (λ list. is_bare_list list ≡ true) }
    requires unbegun { IfErr creds (λ end. is_begun end ≡ false) }
    ensures status { result.status ≢ 6 → result.status ≢ 8
        → result.status ≡ call_status result.end }
    ensures sink_fault { result.status ≡ 6
        → Rose (O.faults out.old) (O.faults out.new) ⊎ Rose (O.faults err.old) (O.faults err.new) }
    ensures printed { IsTrue (O.tells out.old) → SaysLine (O.written out.old) (O.written out.new)
        result.status (lines plan.command result.outcome result.results.items) }
    ensures said { IsTrue (O.tells err.old) → Says (O.written err.old) (O.written err.new)
        result.status (call_line (names_in sources.now) result.end) }
    ensures behind { Behind P.Post C.Clock D.Draw plan tries creds post.old post.new clock.old
        clock.new draw.old draw.new result.outcome result.results.items result.end }
    ensures all { result.end ≡ CallEnd.As RunEnd.Finished
        → length result.results.items ≡ plan.times }
    ensures fault { result.end ≡ CallEnd.PostFault → Rose (P.faults post.old) (P.faults post.new) }
    ensures tells { P.tells post.new ≡ P.tells post.old }
    ensures faults { P.faults post.old ≤ P.faults post.new }
{
    let label = server_label(&sources.server);
    let names = names_in(sources, &label);
    match creds {
        Ok(creds) => {
            let command = plan.command;
            let spoken = speak(alloc, plan, tries, creds, post, clock, draw, mechs);
            report(alloc, &names, command, spoken, out, err)
        }
        Err(end) => {
            drop(plan);
            drop(mechs);
            unspoken(alloc, &names, CallEnd::As(end), err)
        }
    }
}

/// Runs a client over datagrams with these words, each of whose calls is sent at most `tries` times, and says on `err` how the run ended.
/// `mechs` has blank objects in any order, at least one under each name: Kerberos's own, Microsoft's, and SCRAM's. What the session agreed
/// on and was answered is printed on `out`.
pub fn run_call<F: Shelf, P: Post, C: Clock, D: Draw, O: Sink>(
    alloc: Global,
    words: ClientWords,
    tries: u32,
    shelf: &mut F,
    post: &mut P,
    clock: &mut C,
    draw: &mut D,
    mechs: Vec<Box<dyn Mech>>,
    out: &mut O,
    err: &mut O,
) -> CallRun
    requires mechs { AreStandard (map meaning mechs.items) }
    requires range { IsRanged words.plan }
    requires list { is_list words.sources.mechs ≡ true }
    requires fit { is_fit words.plan.negotiates words.sources.mechs ≡ true }
    requires tries { 0 < tries }
    // The status and the line on `err`: those of the end, unless there was no memory for the line, or a sink failed.
    ensures status { result.status ≢ 6 → result.status ≢ 8
        → result.status ≡ call_status result.end }
    ensures sink_fault { result.status ≡ 6
        → Rose (O.faults out.old) (O.faults out.new) ⊎ Rose (O.faults err.old) (O.faults err.new) }
    ensures said { IsTrue (O.tells err.old) → Says (O.written err.old) (O.written err.new)
        result.status (call_line (names_in words.sources) result.end) }
    // What is printed on `out`: the lines of the outcome and the results that are returned.
    ensures printed { IsTrue (O.tells out.old) → SaysLine (O.written out.old) (O.written out.new)
        result.status (lines words.plan.command result.outcome result.results.items) }
    // The run ends by what its files come to; else it held a session, and ends as that does.
    ensures runs { Runs F.Shelf P.Post C.Clock D.Draw words tries shelf.old shelf.new post.old
        post.new clock.old clock.new draw.old draw.new result.outcome result.results.items
        result.end }
    ensures all { result.end ≡ CallEnd.As RunEnd.Finished
        → length result.results.items ≡ words.plan.times }
    ensures fault { result.end ≡ CallEnd.PostFault → Rose (P.faults post.old) (P.faults post.new) }
    ensures tells { P.tells post.new ≡ P.tells post.old }
    ensures faults { P.faults post.old ≤ P.faults post.new }
{
    let ClientWords { sources, plan } = words;
    let creds = short_creds(creds_given(alloc, shelf, &sources));
    let ended = run_by(
        alloc, &sources, plan, tries, creds, post, clock, draw, mechs, out, err,
    );
    drop(sources);
    ended
}
