//! The sessions of a drill, one after the other over one book.

ghost use Rattle.std.specs.Prelude.{◌≡◌, ◌≢◌, ◌⊎◌, ◌≤◌, ◌<◌, ◌+◌, ◌%◌, ◌^◌, IfOk, OnOk, true};
ghost use Rattle.std.specs.Prelude.{false, vec_len, reverse, Some, ℕ, [], ◌∷◌, ◌++◌, map};
ghost use Rattle.std.specs.List.{AllByRecursion};
ghost use Rattle.gss_base.specs.declared.mech.MechKind.{MechKind};
ghost use Rattle.pair_laws.specs.Answering.{AnswersBy};
ghost use Rattle.pair_laws.specs.Creation.{IsAt};
ghost use Rattle.pair_laws.specs.Linked.{kept_of};
ghost use Rattle.pair_laws.specs.Posts.{posts_in, posts_server};
ghost use Rattle.posts_program.specs.Posts.{posts_says};
ghost use Rattle.drill_command.specs.Paired.{HasOctets};
ghost use Rattle.drill_command.specs.Rested.{IsLinkTold, FitsRest, RestsAgain, IsNext};
ghost use Rattle.accept_core.specs.Legal.{Legal};
ghost use Rattle.mech_objects.specs.Standard.{blank_of};
ghost use Rattle.init_ends.specs.Objects.{is_own_list};
ghost use Rattle.gss_client.specs.Conferring.{calls_of};
ghost use Rattle.posts_client.specs.Procedure.{query_of};
ghost use Rattle.gss_client.specs.Start.{StartSays, objects_start, start_means};
ghost use Rattle.gss_client.specs.Talk.{created_over};
ghost use Rattle.gss_server.specs.Asking.{Asking};
ghost use Rattle.gss_server.specs.Hearing.{serving};
ghost use Rattle.gate_models.specs.Looping.{Since};
ghost use Rattle.drill_plan.specs.Generator.{octets_from};
ghost use Rattle.drill_plan.specs.Sessions.{calls_in, session_count, moment_of, kind_of, own_name};
ghost use Rattle.drill_plan.specs.Sessions.{blank_objects};
ghost use Rattle.drill_plan.specs.Setting.{drill_start, started_by};
ghost use Rattle.drill_command.specs.Calls.{calls_from, after_calls};
ghost use Rattle.drill_command.specs.Chained.{IsAdded, IsFirst, AreAllHeld};
ghost use Rattle.drill_command.specs.Drilled.{after_start, after_confounders, after_client};
ghost use Rattle.drill_command.specs.Held.{HoldsBehind, Holds, after_answers};
ghost use Rattle.drill_plan.specs.Limits.{book_limits, log_limits, drill_limits};

use crate::calls::draw_calls;
use crate::draws::{Begun, Drawing, tell_sizes};
use crate::ends::early_end;
use crate::gate::DrillGate;
use crate::meeting::prove_paired;
use crate::opening::open_book;
use accept_book::Log;
use drill_plan::{DrillSession, Generator, Plan, SESSION_CALLS, WIDTH, moment_of, start_of};
use gate_models::{Beginning, LoopLink};
use gss_client::{ClientRefusal, DueCall, Start, Talk, hold_calls};
use gss_server::{Gate, Kept};
use mech_objects::Mech;
use pair_laws::{prove_created, prove_links, tell_kept, tell_name};
use posts_client::Procedure;
use sec_base::{Moment, NoMemory};
use spnego_core::Outcome;
use std::alloc::Global;
use std::marker::Brand;

/// A session that was held, and the book with its program, the server's generator and the kept answers after it.
#[derive(Drop)]
pub struct Held {
    pub session: DrillSession,
    pub book: DrillGate,
    pub server: Generator,
    pub kept: Vec<Kept>,
    /// Whether an answer wanted memory.
    pub starved: bool,
}

/// Does nothing that stays: what is told of an outcome, where there is one.
fn tell_link(outcome: &Option<Outcome>)
    ensures { IsLinkTold outcome.now }
{
    if let Some(outcome) = outcome {
        prove_links(&outcome.key);
        tell_name(&outcome.initiator);
    }
}

/// Holds a session over a book that begins as `J` says, with generators that begin as `C` and `S` say.
fn hold_from<J: Beginning<DrillGate>, C: Begun, S: Begun>(
    alloc: Global,
    book: DrillGate,
    now: Moment,
    server: Generator,
    client: Generator,
    start: Start,
    calls: &[DueCall<Procedure>],
) -> Result<Held, NoMemory>
    requires begins { J.begins book }
    requires width { J.width ≡ 128 }
    requires moment { now ≡ J.moment }
    requires given { J.given ≡ [] }
    requires client { client.value ≡ C.value }
    requires server { server.value ≡ S.value }
    requires list { is_own_list (start_means start meaning).setup.list ≡ true }
    requires first { start.first ≡ 1 }
    ensures held { IfOk result (λ h. ∥ HoldsBehind
        (λ asked. Since J.begins ⟦<DrillGate as Gate>⟧.answers
        h.book asked) (serving posts_says 128) now client.value server.value
        (created_over (start_means start meaning)) (calls_of query_of calls.now) h.kept.items
        h.starved h.session.outcome h.session.results.items h.session.ended ∥₁) }
    // By the objects of Kerberos and SCRAM: as by their credentials.
    ensures plain { (own : StartSays) → start_means start meaning ≡ objects_start own
        → IfOk result (λ h. ∥ Holds (λ asked. Since J.begins
        ⟦<DrillGate as Gate>⟧.answers h.book asked)
        (serving posts_says 128) now client.value server.value own
        (calls_of query_of calls.now) h.kept.items h.starved h.session.outcome
        h.session.results.items h.session.ended ∥₁) }
    // The server's generator goes on after the octets of these answers.
    ensures server { IfOk result (λ h. h.server.value ≡ after_answers h.kept.items server.value) }
    // and a fault of the link is want of memory
    ensures fault { IfOk result
        (λ h. h.session.ended ≡ Some ClientRefusal.LinkFault → h.starved ≡ true) }
{
    let draws: Drawing<S> = Drawing::new(server);
    let mut confounders: Drawing<C> = Drawing::new(client);
    let mut link: LoopLink<DrillGate, Drawing<S>, J> = LoopLink::new(
        alloc, book, now, draws, WIDTH,
    )?;
    let talk = hold_calls(alloc, &mut link, &mut confounders, start, calls);
    let starved = link.starved();
    let (book, draws, kept) = link.into_parts();
    let server = draws.into_generator();
    tell_sizes(kept.as_slice());
    let Talk {
        outcome,
        results,
        parting,
    } = talk;
    let ended = early_end(parting);
    Ok(Held {
        session: DrillSession {
            outcome,
            results,
            ended,
        },
        book,
        server,
        kept,
        starved,
    })
}

/// Holds a session over a book, at one moment. The book is asked what the session's records ask, in order.
pub fn hold_session(
    alloc: Global,
    book: DrillGate,
    now: Moment,
    server: Generator,
    client: Generator,
    start: Start,
    calls: &[DueCall<Procedure>],
) -> Result<Held, NoMemory>
    requires list { is_own_list (start_means start meaning).setup.list ≡ true }
    requires first { start.first ≡ 1 }
    ensures held { IfOk result (λ h. ∥ HoldsBehind
        (λ asked. Since (λ b. b ≡ book)
        ⟦<DrillGate as Gate>⟧.answers h.book asked)
        (serving posts_says 128) now client.value server.value
        (created_over (start_means start meaning)) (calls_of query_of calls.now) h.kept.items
        h.starved h.session.outcome h.session.results.items h.session.ended ∥₁) }
    // By the objects of Kerberos and SCRAM: as by their credentials.
    ensures plain { (own : StartSays) → start_means start meaning ≡ objects_start own
        → IfOk result (λ h. ∥ Holds (λ asked. Since (λ b. b ≡ book)
        ⟦<DrillGate as Gate>⟧.answers h.book asked)
        (serving posts_says 128) now client.value server.value own (calls_of query_of calls.now)
        h.kept.items h.starved h.session.outcome h.session.results.items h.session.ended ∥₁) }
    // Where no memory was wanted, the same with what the book answered, whose results are by its log.
    ensures fed { (own : StartSays) → start_means start meaning ≡ objects_start own
        → IfOk result (λ h. h.starved ≡ false
        → book.inner.program.posts ≡ posts_in book.inner.seat.core.history
        → ∥ Holds (λ asked. Asking (AnswersBy (posts_server 128)) book.inner.seat asked
        h.book.inner.seat) (posts_server 128).serving now client.value server.value own
        (calls_of query_of calls.now) h.kept.items false h.session.outcome h.session.results.items
        h.session.ended ∥₁) }
    ensures server { IfOk result (λ h. h.server.value ≡ after_answers h.kept.items server.value) }
    ensures limits { IfOk result (λ h. book_limits h.book.inner.seat
        ≡ book_limits book.inner.seat) }
    ensures moments { IfOk result (λ h. AllByRecursion (IsAt now) (kept_of h.kept.items)) }
    ensures octets { IfOk result (λ h. AllByRecursion HasOctets h.kept.items) }
    // The program's count of posts stays the log's.
    ensures counted { IfOk result (λ h. book.inner.program.posts
        ≡ posts_in book.inner.seat.core.history
        → h.book.inner.program.posts ≡ posts_in h.book.inner.seat.core.history) }
    // Where no memory was wanted and it fits a book at rest, it is done, and the book rests again.
    ensures rests { (own : StartSays) → start_means start meaning ≡ objects_start own
        → IfOk result (λ h. h.starved ≡ false
        → h.session.ended ≢ Some ClientRefusal.NoMemory
        → (tokens : ℕ) (kind : MechKind) (count : ℕ)
        → FitsRest tokens kind count now own (calls_of query_of calls.now) book.inner.seat
        h.kept.items
        → book.inner.program.posts ≡ posts_in book.inner.seat.core.history
        → ∥ RestsAgain tokens kind count now own (calls_of query_of calls.now) book.inner.seat
        h.book.inner.seat h.session ∥₁) }
{
    prove_created();
    let held = hold_from::<Brand, Brand, Brand>(alloc, book, now, server, client, start, calls)?;
    tell_link(&held.session.outcome);
    tell_kept(held.kept.as_slice());
    Ok(held)
}

/// The generators of the calls, of the client's random octets and of the server's.
#[derive(Clone, Copy)]
struct Generators {
    calls: Generator,
    client: Generator,
    server: Generator,
}

/// Where a drill is between two sessions.
#[derive(Drop)]
struct Course {
    book: DrillGate,
    generators: Generators,
    sessions: Vec<DrillSession>,
}

/// What a drill came to.
#[derive(Drop)]
pub struct Drilled {
    pub sessions: Vec<DrillSession>,
    pub log: Log,
}

/// The generators that a seed begins.
fn seeded(seed: u64) -> Generators
    ensures calls { result.calls.value ≡ seed }
    ensures client { result.client.value ≡ (seed + 1) % 2 ^ 64 }
    ensures server { result.server.value ≡ (seed + 2) % 2 ^ 64 }
{
    Generators {
        calls: Generator { value: seed },
        client: Generator {
            value: seed.wrapping_add(1),
        },
        server: Generator {
            value: seed.wrapping_add(2),
        },
    }
}

/// Whether memory was wanted at either end.
fn is_starved(held: &Held) -> bool
    ensures fed { result ≡ false → held.now.starved ≡ false }
    ensures remembered { result ≡ false → held.now.session.ended ≢ Some ClientRefusal.NoMemory }
    ensures wanted { result ≡ true → (held.now.starved ≡ true)
        ⊎ (held.now.session.ended ≡ Some ClientRefusal.NoMemory) }
{
    if held.starved {
        return true;
    }
    match held.session.ended {
        Some(ClientRefusal::NoMemory) => true,
        _ => false,
    }
}

/// How many of the calls a session makes.
fn calls_in(calls: u32, number: u32) -> u32
    requires most { calls ≤ 100000 }
    requires number { number < session_count calls }
    ensures { result ≡ calls_in calls number }
{
    (calls - number * SESSION_CALLS).min(SESSION_CALLS)
}

/// Adds a session that was held to those before.
fn add_held(
    held: Held,
    generators: Generators,
    sessions: Vec<DrillSession>,
) -> Result<Course, NoMemory>
    requires few { vec_len sessions ≤ 100 }
    ensures count { IfOk result (λ c. vec_len c.sessions ≡ vec_len sessions + 1) }
    ensures fed { IfOk result (λ c. held.starved ≡ false) }
    ensures remembered { IfOk result (λ c. held.session.ended ≢ Some ClientRefusal.NoMemory) }
    ensures book { IfOk result (λ c. c.book.inner.seat ≡ held.book.inner.seat) }
    ensures program { IfOk result (λ c. c.book.inner.program ≡ held.book.inner.program) }
    ensures sessions { IfOk result (λ c. c.sessions.items
        ≡ sessions.items ++ held.session ∷ []) }
    ensures calls { IfOk result (λ c. c.generators.calls ≡ generators.calls) }
    ensures client { IfOk result (λ c. c.generators.client ≡ generators.client) }
    ensures server { IfOk result (λ c. c.generators.server ≡ held.server) }
{
    let mut sessions = sessions;
    // (what is large is let go by one call, at each way out)
    if is_starved(&held) || sessions.reserve(1).is_err() {
        drop(held);
        drop(sessions);
        return Err(NoMemory);
    }
    let server = held.server;
    let Held {
        session,
        book,
        kept,
        ..
    } = held;
    drop(kept);
    sessions.push_reserved(session);
    Ok(Course {
        book,
        generators: Generators {
            calls: generators.calls,
            client: generators.client,
            server,
        },
        sessions,
    })
}

/// The calls of the next session, and what its client begins with, by a blank object of its mechanism.
fn due_of(
    alloc: Global,
    generators: &mut Generators,
    number: u32,
    mech: Box<dyn Mech>,
    count: u32,
) -> Result<(Vec<DueCall<Procedure>>, Start), NoMemory>
    requires { meaning mech ≡ blank_of (own_name (kind_of number)) }
    ensures calls { IfOk result (λ due. calls_of query_of due.0.items
        ≡ calls_from count generators.old.calls.value) }
    ensures start { IfOk result (λ due. started_by meaning due.1 ≡ objects_start
        (drill_start number (moment_of number) (octets_from 66 generators.old.client.value))) }
    ensures first { IfOk result (λ due. due.1.first ≡ 1) }
    ensures list { IfOk result
        (λ due. is_own_list (started_by meaning due.1).setup.list ≡ true) }
    ensures place { OnOk result (generators.new.calls.value
        ≡ after_calls count generators.old.calls.value) }
    ensures client { OnOk result (generators.new.client.value
        ≡ after_start generators.old.client.value) }
    ensures server { generators.new.server ≡ generators.old.server }
{
    let calls = draw_calls(alloc, &mut generators.calls, count)?;
    let stamp = moment_of(number);
    match start_of(alloc, number, mech, stamp, &mut generators.client) {
        Ok(start) => Ok((calls, start)),
        Err(none) => {
            drop(calls);
            Err(none)
        }
    }
}

/// Passes over what a session's client draws for so many calls, 16 octets each.
#[tactic(auto, unfolding(crate::specs::Drilled::after_confounders))]
fn pass_calls(generator: &mut Generator, count: u32)
    ensures { generator.new.value ≡ after_confounders count generator.old.value }
{
    generator.pass(16 * (count as u64));
}

/// Draws the calls of the next session and holds it, by a blank object of its mechanism.
fn next_session(
    alloc: Global,
    book: DrillGate,
    generators: &mut Generators,
    number: u32,
    mech: Box<dyn Mech>,
    count: u32,
) -> Result<Held, NoMemory>
    requires number { number ≤ 100 }
    requires blank { meaning mech ≡ blank_of (own_name (kind_of number)) }
    requires limits { book_limits book.inner.seat ≡ drill_limits }
    requires counted { book.inner.program.posts ≡ posts_in book.inner.seat.core.history }
    ensures limits { IfOk result (λ h. book_limits h.book.inner.seat
        ≡ book_limits book.inner.seat) }
    ensures next { IfOk result (λ h. h.starved ≡ false
        → h.session.ended ≢ Some ClientRefusal.NoMemory
        → IsNext number generators.old.client.value generators.old.server.value
        (calls_from count generators.old.calls.value) book.inner.seat h.book.inner.seat h.kept.items
        h.session) }
    ensures server { IfOk result (λ h. h.server.value
        ≡ after_answers h.kept.items generators.old.server.value) }
    ensures counted { IfOk result
        (λ h. h.book.inner.program.posts ≡ posts_in h.book.inner.seat.core.history) }
    ensures place { OnOk result (generators.new.calls.value
        ≡ after_calls count generators.old.calls.value) }
    ensures client { OnOk result (generators.new.client.value
        ≡ after_client count generators.old.client.value) }
{
    let now = moment_of(number);
    let client = generators.client;
    // (what is large is let go by one call, at each way out)
    let (calls, start) = match due_of(alloc, generators, number, mech, count) {
        Ok(due) => due,
        Err(none) => {
            drop(book);
            return Err(none);
        }
    };
    let server = generators.server;
    // (the session draws of a copy)
    let draws = generators.client;
    pass_calls(&mut generators.client, count);
    let held = hold_session(alloc, book, now, server, draws, start, calls.as_slice());
    drop(calls);
    let held = held?;
    match prove_paired(alloc, number, client, held.kept.as_slice()) {
        Ok(()) => Ok(held),
        Err(none) => {
            drop(held);
            Err(none)
        }
    }
}

/// Holds the next session of a drill, by a blank object of its mechanism.
fn go_on(
    alloc: Global,
    course: Course,
    number: u32,
    mech: Box<dyn Mech>,
    count: u32,
) -> Result<Course, NoMemory>
    requires few { vec_len course.sessions ≤ 100 }
    requires number { number ≤ 100 }
    requires blank { meaning mech ≡ blank_of (own_name (kind_of number)) }
    requires limits { book_limits course.book.inner.seat ≡ drill_limits }
    requires counted { course.book.inner.program.posts
        ≡ posts_in course.book.inner.seat.core.history }
    ensures count { IfOk result (λ c. vec_len c.sessions ≡ vec_len course.sessions + 1) }
    ensures limits { IfOk result (λ c. book_limits c.book.inner.seat
        ≡ book_limits course.book.inner.seat) }
    ensures added { IfOk result (λ c. IsAdded number course.generators.client.value
        course.generators.server.value c.generators.server.value
        (calls_from count course.generators.calls.value) course.book.inner.seat c.book.inner.seat
        course.sessions.items c.sessions.items) }
    ensures counted { IfOk result
        (λ c. c.book.inner.program.posts ≡ posts_in c.book.inner.seat.core.history) }
    ensures place { IfOk result (λ c. c.generators.calls.value
        ≡ after_calls count course.generators.calls.value) }
    ensures client { IfOk result (λ c. c.generators.client.value
        ≡ after_client count course.generators.client.value) }
{
    let Course {
        book,
        generators,
        sessions,
    } = course;
    let mut generators = generators;
    let held = next_session(alloc, book, &mut generators, number, mech, count)?;
    let course = add_held(held, generators, sessions)?;
    Ok(course)
}

/// A drill before its first session.
fn begin(alloc: Global, seed: u64) -> Result<Course, NoMemory>
    ensures count { IfOk result (λ c. vec_len c.sessions ≡ 0) }
    ensures first { IfOk result (λ c. IsFirst c.book.inner.seat) }
    ensures counted { IfOk result
        (λ c. c.book.inner.program.posts ≡ posts_in c.book.inner.seat.core.history) }
    ensures sessions { IfOk result (λ c. c.sessions.items ≡ []) }
    ensures place { IfOk result (λ c. c.generators.calls.value ≡ seed) }
    ensures client { IfOk result (λ c. c.generators.client.value ≡ (seed + 1) % 2 ^ 64) }
    ensures server { IfOk result (λ c. c.generators.server.value ≡ (seed + 2) % 2 ^ 64) }
{
    let book = open_book(alloc)?;
    Ok(Course {
        book,
        generators: seeded(seed),
        sessions: Vec::new(alloc),
    })
}

/// Holds all sessions of a drill, each by the next one of these objects, which are blank.
pub fn hold_all(alloc: Global, plan: Plan, mechs: Vec<Box<dyn Mech>>) -> Result<Drilled, NoMemory>
    requires calls { plan.calls ≤ 100000 }
    requires mechs { map meaning mechs.items ≡ blank_objects (session_count plan.calls) }
    ensures count { IfOk result (λ d. vec_len d.sessions ≡ session_count plan.calls) }
    ensures legal { IfOk result (λ d. Legal d.log.width (reverse d.log.entries)) }
    ensures limits { IfOk result (λ d. log_limits d.log ≡ drill_limits) }
    ensures held { IfOk result
        (λ d. AreAllHeld plan.seed plan.calls d.sessions.items d.log.entries) }
{
    let mut course = begin(alloc, plan.seed)?;
    let mut number = 0;
    for mech in mechs {
        let count = calls_in(plan.calls, number);
        course = go_on(alloc, course, number, mech, count)?;
        number += 1;
    }
    let Course { book, sessions, .. } = course;
    Ok(Drilled {
        sessions,
        log: book.into_seat().into_log(),
    })
}
