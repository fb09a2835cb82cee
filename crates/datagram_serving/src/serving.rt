//! The run of a server over datagrams.

ghost use Rattle.std.specs.Prelude.{◌≡◌, ◌≢◌, ◌≤◌, IfOk, IsTrue};
ghost use Rattle.sec_base.specs.Answers.{Rose};
ghost use Rattle.cli_base.specs.Lines.{Says};
ghost use Rattle.datagram_serving.specs.Serving.{IsGate, end_of, Answers, IsServed, counts_of};
ghost use Rattle.datagram_serving.specs.Serving.{Runs, below_of, waits_of};
ghost use Rattle.datagram_options.specs.Endings.{serve_status, serve_line};
ghost use Rattle.server_command.specs.Runs.{names_in, journal_name};
ghost use Rattle.server_command.specs.Through.{IsOpened};
ghost use Rattle.server_options.specs.Options.{IsRanged};
ghost use Rattle.gss_base.specs.Principal.{text_form};

use crate::counting::KeepCount;
use accept_book::{Limits, Log, OwnSeat};
use again_gate::AgainGate;
use again_laws::{prove_acts_once, prove_below};
use datagram_options::{ServeEnd, say_serve};
use datagram_post::Post;
use gss_base::{Label, Principal};
use gss_server::{Gate, OwnGate};
use rpc_datagram::serve;
use rpc_program::{Program, Speller};
use sec_base::{Clock, Draw, Moment, NoMemory, Shelf, Sink};
use server_command::{keeping_of, log_limit};
use server_options::{Counts, Files, Keys, Names, Options, RunEnd, keys_from};
use spnego_core::AcceptSetup;
use std::alloc::Global;

/// What a run of a server came to.
#[derive(Drop)]
pub struct ServeRun<V> {
    /// The exit status: 0 it waited so often, 3 keytab or verifiers can't be loaded, 4 one of them isn't of its format, or the keytab has no
    /// key for the own name, 5 the post failed, 6 the sink failed, 8 there was no memory.
    pub status: u8,
    /// How the run ended, before its line was written.
    pub end: ServeEnd,
    /// The log of the book, which is empty and has no limits where no book was opened.
    pub log: Log,
    /// How many datagrams were answered, those that got no reply among them.
    pub records: u64,
    /// The program, as it was handed in where its keys stopped the run; none where there was no memory to open a book.
    pub program: Option<V>,
}

/// How often a run waits for a datagram without an option, 2 ^ 47 times: at 10,000 a second it takes 446 years.
const MOST_WAITS: u64 = 140_737_488_355_328;

/// The names of a run that had its keys.
const UNNAMED: Names<'static> = Names {
    keytab: "",
    verifiers: "",
    journal: "",
    own: "",
};

/// What serving came to.
#[derive(Drop)]
struct ServeCourse<V> {
    end: ServeEnd,
    log: Log,
    records: u64,
    program: Option<V>,
}

/// The book of a run.
fn open_seat(
    alloc: Global,
    options: Options,
    keys: Keys,
    start: Moment,
) -> Result<OwnSeat, NoMemory>
    requires { IsRanged options }
    ensures opened { IfOk result (λ book. IsOpened options keys start book) }
{
    let limits = Limits {
        contexts: options.contexts as usize,
        marks: options.marks as usize,
        log: log_limit(options.log),
        width: options.window,
        keeping: keeping_of(&options),
    };
    let setup = AcceptSetup {
        own: options.name,
        keytab: keys.keytab,
        verifiers: keys.verifiers,
        bindings: options.bindings,
        offer: options.offer,
        bare: options.bare,
    };
    OwnSeat::open(alloc, setup, limits, start)
}

/// The gate of a run: over a book of its own with this program and speller, with places for as many contexts as the book has, each for
/// twice as many calls as a window has numbers. Of a result `most` octets are kept at most.
fn open_gate<V: Program + Drop, S: Speller<V::Ticket> + Drop>(
    alloc: Global,
    options: Options,
    keys: Keys,
    program: V,
    speller: S,
    most: u32,
    start: Moment,
) -> Result<AgainGate<OwnGate<V, S>>, NoMemory>
    requires ranged { IsRanged options }
    requires says { S.says ≡ V.says }
    ensures { IfOk result (λ gate. IsGate (below_of ⟦<OwnGate<V, S> as Gate>⟧ (λ g. g.seat)
        (λ g. g.program) program (λ g. g.speller ≡ speller))
        options keys start most gate) }
{
    let contexts = options.contexts as usize;
    let width = options.window;
    match open_seat(alloc, options, keys, start) {
        Ok(seat) => {
            let own = OwnGate::new(seat, program, speller);
            match AgainGate::new(alloc, own, contexts, 2 * width, most) {
                Ok(gate) => Ok(gate),
                Err(NoMemory) => Err(NoMemory),
            }
        }
        Err(NoMemory) => {
            drop(program);
            drop(speller);
            Err(NoMemory)
        }
    }
}

/// How a run ends whose serving ended so.
fn end_of(end: rpc_datagram::ServeEnd) -> ServeEnd
    ensures { result ≡ end_of end }
{
    match end {
        rpc_datagram::ServeEnd::Done => ServeEnd::As(RunEnd::Served),
        rpc_datagram::ServeEnd::PostFault => ServeEnd::PostFault,
        rpc_datagram::ServeEnd::NoMemory => ServeEnd::As(RunEnd::NoMemory),
    }
}

/// Serves by a gate, and answers the log of its book and its program.
fn serve_by<P: Post, C: Clock, D: Draw, V: Program + Drop, S: Speller<V::Ticket> + Drop>(
    alloc: Global,
    gate: AgainGate<OwnGate<V, S>>,
    width: u32,
    most: u64,
    post: &mut P,
    clock: &mut C,
    draw: &mut D,
) -> ServeCourse<V>
    ensures told { Answers P.Post C.Clock D.Draw ⟦<OwnGate<V, S> as Gate>⟧ (λ g. g.seat)
        (λ g. g.program) width most gate post.old post.new clock.old clock.new draw.old draw.new
        result.end result.log result.records result.program }
    ensures fault { result.end ≡ ServeEnd.PostFault → Rose (P.faults post.old) (P.faults post.new) }
    ensures tells { P.tells post.new ≡ P.tells post.old }
    ensures faults { P.faults post.old ≤ P.faults post.new }
{
    let mut gate = gate;
    let mut keeper = KeepCount::new();
    let end = serve(
        alloc,
        post,
        &mut keeper,
        &mut gate,
        clock,
        draw,
        width,
        most,
    );
    let (seat, program, speller) = gate.into_gate().into_parts();
    drop(speller);
    ServeCourse {
        end: end_of(end),
        log: seat.into_log(),
        records: keeper.count,
        program: Some(program),
    }
}

/// How often a run waits for a datagram, by its option; as often as is counted without it.
fn waits_of(connections: Option<u32>) -> u64
    ensures { result ≡ waits_of connections }
{
    match connections {
        None => MOST_WAITS,
        Some(waits) => waits as u64,
    }
}

/// Opens the gate and serves.
fn open_and_serve<P: Post, C: Clock, D: Draw, V: Program + Drop, S: Speller<V::Ticket> + Drop>(
    alloc: Global,
    options: Options,
    keys: Keys,
    program: V,
    speller: S,
    kept: u32,
    post: &mut P,
    clock: &mut C,
    draw: &mut D,
    start: Moment,
) -> ServeCourse<V>
    requires ranged { IsRanged options }
    requires says { S.says ≡ V.says }
    ensures served { IsServed P.Post C.Clock D.Draw
        (below_of ⟦<OwnGate<V, S> as Gate>⟧ (λ g. g.seat)
        (λ g. g.program) program (λ g. g.speller ≡ speller)) options keys start kept post.old
        post.new clock.old clock.new draw.old draw.new result.end result.log result.records
        result.program }
    ensures fault { result.end ≡ ServeEnd.PostFault → Rose (P.faults post.old) (P.faults post.new) }
    ensures tells { P.tells post.new ≡ P.tells post.old }
    ensures faults { P.faults post.old ≤ P.faults post.new }
{
    let width = options.window;
    let most = waits_of(options.connections);
    prove_acts_once();
    prove_below::<OwnGate<V, S>>();
    match open_gate(alloc, options, keys, program, speller, kept, start) {
        Ok(gate) => serve_by(alloc, gate, width, most, post, clock, draw),
        Err(NoMemory) => ServeCourse {
            end: ServeEnd::As(RunEnd::NoMemory),
            log: Log::empty(),
            records: 0,
            program: None,
        },
    }
}

/// The name of the journal, nothing where none is kept.
fn journal_name(files: &Files) -> &str
    ensures { result.now ≡ journal_name files.now.journal }
{
    match &files.journal {
        None => "",
        Some(name) => name.as_str(),
    }
}

/// What the words name: these files, and an own name with this label.
fn names_in<'a>(files: &'a Files, label: &'a Label) -> Names<'a>
    ensures { result ≡ names_in files.now label.now }
{
    Names {
        keytab: files.keytab.as_str(),
        verifiers: files.verifiers.as_str(),
        journal: journal_name(files),
        own: label.text(),
    }
}

/// Says how a run ended: with one connection for the post, and as many records as datagrams were answered.
fn finish<V, O: Sink>(
    alloc: Global,
    names: &Names<'_>,
    course: ServeCourse<V>,
    err: &mut O,
) -> ServeRun<V>
    ensures status { result.status ≢ 6 → result.status ≢ 8
        → result.status ≡ serve_status result.end }
    ensures sink_fault { result.status ≡ 6 → Rose (O.faults err.old) (O.faults err.new) }
    ensures said { IsTrue (O.tells err.old) → Says (O.written err.old) (O.written err.new)
        result.status (serve_line names.now (counts_of result.log result.records) result.end) }
    ensures end { result.end ≡ course.end }
    ensures log { result.log ≡ course.log }
    ensures records { result.records ≡ course.records }
    ensures program { result.program ≡ course.program }
{
    let ServeCourse {
        end,
        log,
        records,
        program,
    } = course;
    let counts = Counts {
        connections: 1,
        records: records as u128,
        entries: log.len(),
        digest: log.digest(),
    };
    let status = say_serve(alloc, err, names, &counts, end);
    ServeRun {
        status,
        end,
        log,
        records,
        program,
    }
}

/// Runs a server over datagrams with these options, whose `connections` are how often it waits, and says on `err` how it ended.
///
/// It serves this program, whose results the speller spells, and gives it back. Of a result `kept` octets are kept at most, for a call that is sent again; a
/// call whose result is longer gets no second reply.
pub fn run_serve<
    F: Shelf,
    P: Post,
    C: Clock,
    D: Draw,
    O: Sink,
    V: Program + Drop,
    S: Speller<V::Ticket> + Drop,
>(
    alloc: Global,
    options: Options,
    shelf: &mut F,
    post: &mut P,
    clock: &mut C,
    draw: &mut D,
    program: V,
    speller: S,
    kept: u32,
    start: Moment,
    err: &mut O,
) -> ServeRun<V>
    requires ranged { IsRanged options }
    // The speller says of the program what it says of itself.
    requires says { S.says ≡ V.says }
    ensures status { result.status ≢ 6 → result.status ≢ 8
        → result.status ≡ serve_status result.end }
    ensures sink_fault { result.status ≡ 6 → Rose (O.faults err.old) (O.faults err.new) }
    ensures said { IsTrue (O.tells err.old) → Says (O.written err.old) (O.written err.new)
        result.status (serve_line (names_in options.files (text_form options.name.realm
        options.name.parts)) (counts_of result.log result.records) result.end) }
    // The run ends by what keytab and verifiers come to; else one book with the program answers the datagrams, from its opening to the log
    // and the program that are returned.
    ensures runs { Runs F.Shelf P.Post C.Clock D.Draw
        (below_of ⟦<OwnGate<V, S> as Gate>⟧ (λ g. g.seat)
        (λ g. g.program) program (λ g. g.speller ≡ speller)) options start kept shelf.old
        shelf.new post.old post.new clock.old clock.new draw.old draw.new result.end result.log
        result.records result.program }
    ensures fault { result.end ≡ ServeEnd.PostFault → Rose (P.faults post.old) (P.faults post.new) }
    ensures tells { P.tells post.new ≡ P.tells post.old }
    ensures faults { P.faults post.old ≤ P.faults post.new }
{
    match keys_from(alloc, shelf, &options.files, &options.name) {
        Ok(keys) => {
            let course = open_and_serve(
                alloc, options, keys, program, speller, kept, post, clock, draw, start,
            );
            finish(alloc, &UNNAMED, course, err)
        }
        Err(end) => {
            drop(speller);
            let label = options.name.label();
            let names = names_in(&options.files, &label);
            let course = ServeCourse {
                end: ServeEnd::As(end),
                log: Log::empty(),
                records: 0,
                program: Some(program),
            };
            finish(alloc, &names, course, err)
        }
    }
}
