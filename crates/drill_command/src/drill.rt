//! The run of a drill.

ghost use Rattle.std.specs.Prelude.{◌≡◌, ◌≢◌, ◌⊎◌, ◌≤◌, [], length, Some, None, IfOk};
ghost use Rattle.std.specs.Prelude.{IsTrue, true, string_bytes, reverse, vec_len, map};
ghost use Rattle.accept_core.specs.Legal.{Legal};
ghost use Rattle.accept_core.specs.Logs.{no_log};
ghost use Rattle.sec_base.specs.Answers.{Rose};
ghost use Rattle.cli_base.specs.Lines.{SaysLine, Says};
ghost use Rattle.drill_command.specs.Chained.{AreAllHeld};
ghost use Rattle.drill_command.specs.Drilled.{IsDrilled};
ghost use Rattle.drill_plan.specs.Lines.{drill_text, served_line, due_line, Prints};
ghost use Rattle.drill_plan.specs.Limits.{log_limits, drill_limits};
ghost use Rattle.drill_plan.specs.Sessions.{session_count, blank_objects};
ghost use Rattle.drill_plan.specs.Words.{plan_of};

use crate::sessions::{Drilled, hold_all};
use accept_book::{Entry, Log};
use cli_base::{OUT_OF_MEMORY, say};
use drill_plan::{DrillSession, Plan, read_plan, served, summary};
use mech_objects::Mech;
use sec_base::{NoMemory, Sink, Text};
use server_options::USAGE;
use std::alloc::Global;

/// What a drill came to.
#[derive(Drop)]
pub struct DrillEnd {
    /// The exit status: 0 all sessions were held, 2 the words aren't in the command, 6 a sink failed, 8 there was no memory.
    pub status: u8,
    /// What the sessions came to, in order; none where no drill was held to its end.
    pub sessions: Vec<DrillSession>,
    /// The log of the book, which is empty and has no limits where no drill was held to its end.
    pub log: Log,
}

/// Says why no drill was held to its end.
fn unheld<O: Sink>(alloc: Global, err: &mut O, status: u8, line: &str) -> DrillEnd
    requires { status ≢ 6 }
    ensures status { result.status ≢ 6 → result.status ≡ status }
    ensures fault { result.status ≡ 6 → Rose (O.faults err.old) (O.faults err.new) }
    ensures said { IsTrue (O.tells err.old)
        → SaysLine (O.written err.old) (O.written err.new) result.status line.now }
    ensures sessions { result.sessions.items ≡ [] }
    ensures log { result.log ≡ no_log }
{
    let status = say(err, status, line);
    DrillEnd {
        status,
        sessions: Vec::new(alloc),
        log: Log::empty(),
    }
}

/// Prints the lines of a drill, and then the server's line. The status is 0, or 6 where a sink failed.
fn print<O: Sink>(lines: &str, line: &str, out: &mut O, err: &mut O) -> u8
    ensures status { result ≢ 6 → result ≡ 0 }
    ensures fault { result ≡ 6
        → Rose (O.faults out.old) (O.faults out.new) ⊎ Rose (O.faults err.old) (O.faults err.new) }
    ensures printed { IsTrue (O.tells out.old)
        → Prints (O.written out.old) (O.written out.new) result lines.now }
    ensures said { IsTrue (O.tells err.old)
        → Says (O.written err.old) (O.written err.new) result line.now }
{
    match out.write(lines.as_bytes()) {
        Ok(()) => say(err, 0, line),
        Err(_) => 6,
    }
}

/// The entries of a log that has them in memory.
fn entries_of(log: &Log) -> &[Entry]
    requires { log.now.keeping.entries ≡ true }
    ensures { result.now ≡ log.now.entries }
{
    match log.entries() {
        Some(entries) => entries,
        None => unreachable!(),
    }
}

/// The lines of a drill, and the server's line.
fn texts_of(alloc: Global, drilled: &Drilled) -> Result<(String, String), NoMemory>
    requires { drilled.now.log.keeping.entries ≡ true }
    ensures summary { IfOk result (λ texts. string_bytes texts.0
        ≡ drill_text drilled.now.sessions.items drilled.now.log.entries) }
    ensures line { IfOk result (λ texts. string_bytes texts.1
        ≡ served_line (length drilled.now.sessions.items) drilled.now.log.entries) }
{
    let sessions = drilled.sessions.as_slice();
    let log = entries_of(&drilled.log);
    let lines = summary(alloc, sessions, log)?;
    let line = served(alloc, sessions.len(), log)?;
    Ok((lines, line))
}

/// Prints what a drill came to.
fn report<O: Sink>(alloc: Global, drilled: Drilled, out: &mut O, err: &mut O) -> DrillEnd
    requires legal { Legal drilled.log.width (reverse drilled.log.entries) }
    requires kept { drilled.log.keeping.entries ≡ true }
    ensures status { result.status ≢ 0 → result.status ≢ 6 → result.status ≡ 8 }
    ensures fault { result.status ≡ 6
        → Rose (O.faults out.old) (O.faults out.new) ⊎ Rose (O.faults err.old) (O.faults err.new) }
    ensures printed { IsTrue (O.tells out.old) → Prints (O.written out.old) (O.written out.new)
        result.status (drill_text result.sessions.items result.log.entries) }
    ensures said { IsTrue (O.tells err.old) → Says (O.written err.old) (O.written err.new)
        result.status (served_line (length result.sessions.items) result.log.entries) }
    ensures held { result.status ≡ 0 → result.sessions ≡ drilled.sessions }
    ensures log { result.status ≡ 0 → result.log ≡ drilled.log }
    ensures legal { Legal result.log.width (reverse result.log.entries) }
{
    match texts_of(alloc, &drilled) {
        Ok((lines, line)) => {
            let status = print(lines.as_str(), line.as_str(), out, err);
            let Drilled { sessions, log } = drilled;
            DrillEnd {
                status,
                sessions,
                log,
            }
        }
        Err(_) => unheld(alloc, err, 8, OUT_OF_MEMORY),
    }
}

/// Holds a drill and prints what it came to.
fn run_plan<O: Sink>(
    alloc: Global,
    plan: Plan,
    mechs: Vec<Box<dyn Mech>>,
    out: &mut O,
    err: &mut O,
) -> DrillEnd
    requires calls { plan.calls ≤ 100000 }
    requires mechs { map meaning mechs.items ≡ blank_objects (session_count plan.calls) }
    ensures status { result.status ≢ 0 → result.status ≢ 6 → result.status ≡ 8 }
    ensures fault { result.status ≡ 6
        → Rose (O.faults out.old) (O.faults out.new) ⊎ Rose (O.faults err.old) (O.faults err.new) }
    ensures printed { IsTrue (O.tells out.old) → Prints (O.written out.old) (O.written out.new)
        result.status (drill_text result.sessions.items result.log.entries) }
    ensures said { IsTrue (O.tells err.old)
        → Says (O.written err.old) (O.written err.new) result.status
        (served_line (length result.sessions.items) result.log.entries) }
    ensures count { result.status ≡ 0
        → vec_len result.sessions ≡ session_count plan.calls }
    ensures legal { Legal result.log.width (reverse result.log.entries) }
    ensures limits { result.status ≡ 0 → log_limits result.log ≡ drill_limits }
    ensures held { result.status ≡ 0
        → AreAllHeld plan.seed plan.calls result.sessions.items result.log.entries }
{
    match hold_all(alloc, plan, mechs) {
        Ok(drilled) => report(alloc, drilled, out, err),
        Err(_) => unheld(alloc, err, 8, OUT_OF_MEMORY),
    }
}

/// Holds the drill that the words ask for, `drill SEED CALLS`: sessions of a client with a server, in one thread and with nothing from
/// outside. Prints on `out` what they came to, and says on `err` what the server served. Each session's mechanism is the next one of `mechs`.
pub fn run_drill<O: Sink>(
    alloc: Global,
    words: &[Text],
    mechs: Vec<Box<dyn Mech>>,
    out: &mut O,
    err: &mut O,
) -> DrillEnd
    // There is a blank object for each session, of Kerberos for the first, the third and so on, and of SCRAM for the others.
    requires { (plan : Plan) → plan_of words.now ≡ Some plan
        → map meaning mechs.items ≡ blank_objects (session_count plan.calls) }
    // The words are refused exactly where they aren't in the command; else the status is 0, want of memory aside.
    ensures usage { result.status ≡ 2 → plan_of words.now ≡ None }
    ensures always_usage { plan_of words.now ≡ None → result.status ≢ 6 → result.status ≡ 2 }
    ensures status { result.status ≢ 0 → result.status ≢ 2 → result.status ≢ 6
        → result.status ≡ 8 }
    ensures sink_fault { result.status ≡ 6
        → Rose (O.faults out.old) (O.faults out.new) ⊎ Rose (O.faults err.old) (O.faults err.new) }
    // What is printed is told by the sessions and the log that are returned, and the line on `err` too.
    ensures printed { IsTrue (O.tells out.old) → Prints (O.written out.old) (O.written out.new)
        result.status (drill_text result.sessions.items result.log.entries) }
    ensures said { IsTrue (O.tells err.old)
        → Says (O.written err.old) (O.written err.new) result.status
        (due_line (plan_of words.now) (length result.sessions.items) result.log.entries) }
    // Words that are refused hold no session, and a drill that ends holds as many as its calls take. The log is legal, and was kept under the
    // server's usual limits.
    ensures unheld { plan_of words.now ≡ None
        → (result.sessions.items ≡ []) × (result.log ≡ no_log) }
    ensures count { (plan : Plan) → plan_of words.now ≡ Some plan → result.status ≡ 0
        → vec_len result.sessions ≡ session_count plan.calls }
    ensures legal { Legal result.log.width (reverse result.log.entries) }
    ensures limits { result.status ≡ 0 → log_limits result.log ≡ drill_limits }
    // The sessions were held one after the other over one book, which has this log in the end. The calls are those that the seed draws, and
    // the octets of each session's client go on where those of the one before ended, and so do those of the server.
    ensures held { (plan : Plan) → plan_of words.now ≡ Some plan → result.status ≡ 0
        → AreAllHeld plan.seed plan.calls result.sessions.items result.log.entries }
    // No session was refused, and the sessions and the log are those of the drill.
    ensures drilled { (plan : Plan) → plan_of words.now ≡ Some plan → result.status ≡ 0
        → IsDrilled plan.seed plan.calls result.sessions.items result.log.entries }
{
    match read_plan(words) {
        Some(plan) => run_plan(alloc, plan, mechs, out, err),
        None => unheld(alloc, err, 2, USAGE),
    }
}
