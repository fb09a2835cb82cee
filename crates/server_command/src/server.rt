//! The run of the server.

ghost use Rattle.std.specs.Prelude.{◌≡◌, ◌≢◌, ◌⊎◌, ◌<◌, ◌≤◌, ◌++◌, ℕ, true};
ghost use Rattle.std.specs.Prelude.{false, IsTrue, IfOk, IfErr, IfSome, None, Some, Ok, Err};
ghost use Rattle.std.specs.Prelude.{length, vec_len, reverse, slice_get, is_some};
ghost use Rattle.std.specs.List.{AllByRecursion};
ghost use Rattle.sec_base.specs.Answers.{Rose};
ghost use Rattle.cli_base.specs.Lines.{Says};
ghost use Rattle.accept_core.specs.Logs.{no_log, greatest_log};
ghost use Rattle.accept_core.specs.Legal.{Legal};
ghost use Rattle.gss_base.specs.Principal.{text_form};
ghost use Rattle.journal_gate.specs.Withheld.{journal_faults, disk_faults, is_shut};
ghost use Rattle.server_desks.specs.Desks.{IsFresh, IsSmall, NamesADesk};
ghost use Rattle.server_options.specs.Lines.{Named, is_begun, status_of, line_of};
ghost use Rattle.server_options.specs.Options.{options_of, IsRanged};
ghost use Rattle.server_seating.specs.Through.{NoBook};
ghost use Rattle.server_command.specs.Through.{IsOpened, OneHistory, keeping_of, log_limit};
ghost use Rattle.server_command.specs.Told.{ToldByLog};
ghost use Rattle.server_command.specs.Runs.{files_of, names_in, names_of, counts_of, RunBegins};
ghost use Rattle.server_command.specs.Runs.{HasLimits, HasValid, AsksAtMost, journal_name};
ghost use Rattle.server_command.specs.Runs.{names_journal, JournalOpens, HasJournal};
ghost use Rattle.server_command.specs.Runs.{end_of_journal, StopsAt, IsJournal, TellsAt};
ghost use Rattle.server_options.specs.Keys.{KeysFrom};

use accept_book::{Keeping, Limits, Log, OwnSeat};
use gss_base::{Label, Principal};
use gss_server::{Keeper, Kept, Served};
use journal_gate::disk_of;
use replay_journal::{Disk, Journal, JournalRefusal, Unopened};
use rpc_program::{Program, Speller};
use sec_base::{Clock, Draw, Moment, NoMemory, Port, Shelf, Sink, Text};
use server_desks::{Course, Desk, count_connections, count_records, run_limit, starved};
use server_options::{
    Counts, Files, KeyFile, Keys, Names, Options, RunEnd, WordsRefusal, keys_from, read_options,
    say_end,
};
use server_seating::run_book;
use spnego_core::AcceptSetup;
use std::alloc::Global;
use std::sync::Wait;
use std::thread::Threads;

/// How the run ended.
#[derive(Drop)]
pub struct ServerEnd<V> {
    /// The exit status: 0 all connections were served, 2 the words aren't in the command, 3 keytab, verifiers or journal can't be loaded, 4
    /// one of them isn't of its format, the keytab has no key for the own name, or the journal has more recent authenticators than are held, 5 a
    /// port failed, 6 a sink failed, 8 there was no memory.
    pub status: u8,
    /// How the run ended, before its line was written.
    pub end: RunEnd,
    /// The log of the book, which is empty and has no limits where no book was opened.
    pub log: Log,
    /// The program, as it was handed in where no book was opened.
    pub program: V,
}

/// What is counted where nothing was served.
const NOTHING: Counts = Counts {
    connections: 0,
    records: 0,
    entries: 0,
    digest: None,
};

/// How many entries a log may have at most.
const GREATEST_LOG: usize = 4_611_686_018_427_387_904;

/// The names of words that aren't in the command.
const UNNAMED: Names<'static> = Names {
    keytab: "",
    verifiers: "",
    journal: "",
    own: "",
};

/// How many authenticators a journal holds at once.
const MOST_HELD: usize = 1_000_000;

/// The name of the journal, nothing where none is kept.
fn journal_name(files: &Files) -> &str
    ensures { result.now ≡ journal_name files.now.journal }
{
    match &files.journal {
        None => "",
        Some(name) => name.as_str(),
    }
}

/// What the words name: these files, and an own name with this label.
fn names_in<'a>(files: &'a Files, label: &'a Label) -> Names<'a>
    ensures { result ≡ names_in files.now label.now }
{
    Names {
        keytab: files.keytab.as_str(),
        verifiers: files.verifiers.as_str(),
        journal: journal_name(files),
        own: label.text(),
    }
}

/// How many entries the log of a run may have: 2 ^ 62 where the words set no limit.
pub fn log_limit(log: Option<u32>) -> usize
    ensures value { result ≡ log_limit log }
    ensures most { result ≤ greatest_log }
{
    match log {
        None => GREATEST_LOG,
        Some(limit) => limit as usize,
    }
}

/// What the log of a run has in memory: its entries where the words set a limit, and its digest where they name it.
pub fn keeping_of(options: &Options) -> Keeping
    ensures { result ≡ keeping_of options.now }
{
    Keeping {
        entries: options.log.is_some(),
        digest: options.digest,
    }
}

/// The book of a run.
fn open_book(
    alloc: Global,
    options: Options,
    keys: Keys,
    start: Moment,
) -> Result<OwnSeat, NoMemory>
    requires { IsRanged options }
    ensures opened { IfOk result (λ book. IsOpened options keys start book) }
{
    let limits = Limits {
        contexts: options.contexts as usize,
        marks: options.marks as usize,
        log: log_limit(options.log),
        width: options.window,
        keeping: keeping_of(&options),
    };
    let setup = AcceptSetup {
        own: options.name,
        keytab: keys.keytab,
        verifiers: keys.verifiers,
        bindings: options.bindings,
        offer: options.offer,
        bare: options.bare,
    };
    OwnSeat::open(alloc, setup, limits, start)
}

/// How a run ends whose journal can't be opened.
fn end_of_journal(why: JournalRefusal) -> RunEnd
    ensures value { result ≡ end_of_journal why }
    ensures unbegun { is_begun result ≡ false }
{
    let file = KeyFile::Journal;
    match why {
        JournalRefusal::DiskFault => RunEnd::CannotLoad { file },
        JournalRefusal::BadJournal => RunEnd::Bad { file, at: 0 },
        JournalRefusal::TooMany => RunEnd::Bad {
            file,
            at: MOST_HELD,
        },
        JournalRefusal::NoMemory => RunEnd::NoMemory,
    }
}

/// Opens the journal on the disk, which stays where that fails.
fn open_on<M: Disk + Drop>(
    alloc: Global,
    disk: &mut Option<M>,
    start: Moment,
) -> Result<Journal<M>, RunEnd>
    requires filled { is_some disk.old ≡ true }
    ensures taken { IfOk result (λ _. disk.new ≡ None) }
    ensures unclosed { IfOk result (λ journal. journal.closed ≡ false) }
    ensures faults { IfOk result
        (λ journal. disk_faults M.faults disk.old ≤ M.faults journal.disk) }
    ensures accepted { IfOk result
        (λ _. TellsAt M.Disk disk.old → IsJournal M.Disk disk.old start) }
    ensures stays { IfErr result (λ _. is_some disk.new ≡ true) }
    ensures unbegun { IfErr result (λ end. is_begun end ≡ false) }
    ensures stops { IfErr result (λ end. StopsAt M.Disk disk.old disk.new start end) }
{
    match disk.take() {
        None => unreachable!(),
        Some(held) => match Journal::open(alloc, held, MOST_HELD, start) {
            Ok(journal) => Ok(journal),
            Err(unopened) => {
                let Unopened { disk: back, why } = unopened;
                *disk = Some(back);
                Err(end_of_journal(why))
            }
        },
    }
}

/// Opens the journal, where the words name one.
fn open_journal<M: Disk + Drop>(
    alloc: Global,
    files: &Files,
    disk: &mut Option<M>,
    start: Moment,
) -> Result<Option<Journal<M>>, RunEnd>
    requires filled { is_some files.now.journal ≡ true → is_some disk.old ≡ true }
    ensures named { IfOk result (λ journal. is_some journal ≡ is_some files.now.journal) }
    ensures taken { is_some files.now.journal ≡ true → IfOk result (λ _. disk.new ≡ None) }
    ensures untouched { is_some files.now.journal ≡ false → disk.new ≡ disk.old }
    ensures unclosed { IfOk result (λ journal. is_shut journal → ⊥) }
    ensures faults { is_some files.now.journal ≡ true
        → IfOk result (λ journal. disk_faults M.faults disk.old ≤ journal_faults M.faults journal) }
    ensures accepted { is_some files.now.journal ≡ true → IfOk result
        (λ _. TellsAt M.Disk disk.old → IsJournal M.Disk disk.old start) }
    ensures stays { IfErr result (λ _. is_some disk.new ≡ true) }
    ensures unbegun { IfErr result (λ end. is_begun end ≡ false) }
    ensures stops { IfErr result (λ end. (is_some files.now.journal ≡ true)
        × StopsAt M.Disk disk.old disk.new start end) }
{
    if files.journal.is_none() {
        return Ok(None);
    }
    match open_on(alloc, disk, start) {
        Ok(journal) => Ok(Some(journal)),
        Err(end) => Err(end),
    }
}

/// Puts a disk back.
fn put_back<M: Drop>(disk: &mut Option<M>, back: Option<M>)
    ensures none { is_some back ≡ false → disk.new ≡ disk.old }
    ensures some { is_some back ≡ true → disk.new ≡ back }
{
    if let Some(held) = back {
        *disk = Some(held);
    }
}

/// Opens the book and serves the desks.
fn open_and_serve<
    R: Threads + Wait + Sync,
    P: Port + Drop + Send,
    C: Clock + Drop + Send,
    D: Draw + Drop + Send,
    K: Keeper<Kept> + Drop + Send,
    S: Keeper<Served<P::Link>> + Drop + Send,
    V: Program<Ticket = T> + Drop + Send,
    T: Send + Sync,
    W: Speller<T> + Drop + Send,
    M: Disk + Drop + Send,
>(
    rt: &R,
    alloc: Global,
    options: Options,
    keys: Keys,
    journal: Option<Journal<M>>,
    disk: &mut Option<M>,
    desks: &mut Vec<Desk<P, C, D, K, S, W>>,
    program: V,
    start: Moment,
) -> (Course, V)
where
    P::Link: Drop + Send,
    requires fresh { AllByRecursion IsFresh desks.old.items }
    requires says { W.says ≡ V.says }
    requires ranged { IsRanged options }
    requires journaled { is_some journal ≡ is_some options.files.journal }
    requires unclosed { is_shut journal → ⊥ }
    ensures back { is_some options.files.journal ≡ true → is_some disk.new ≡ true }
    ensures untouched { is_some options.files.journal ≡ false → disk.new ≡ disk.old }
    ensures count { vec_len desks.new ≡ vec_len desks.old }
    ensures named { NamesADesk result.0.end (vec_len desks.old) }
    ensures begun { result.0.end ≢ RunEnd.NoMemory → is_begun result.0.end ≡ true }
    ensures small { AllByRecursion IsSmall desks.new.items }
    ensures legal { Legal result.0.log.width (reverse result.0.log.entries) }
    ensures limits { is_begun result.0.end ≡ true → HasLimits options result.0.log }
    ensures booked { (before : ℕ)
        → (is_some journal ≡ true → before ≤ journal_faults M.faults journal)
        → ((result.0.end ≡ RunEnd.NoMemory) × NoBook desks.old.items desks.new.items result.0.log
        × (result.1 ≡ program))
        ⊎ OneHistory V.Program W.Speller options keys start before (disk_faults M.faults disk.new)
        P.Port P.Link.Link C.Clock D.Draw K.Keeper S.Keeper desks.old.items program result.0.end
        desks.new.items result.1 result.0.log }
{
    let connections = run_limit(options.connections, desks.len());
    let width = options.window;
    match open_book(alloc, options, keys, start) {
        Ok(book) => {
            let (course, program, back) = run_book(
                rt,
                alloc,
                book,
                program,
                journal,
                desks,
                connections,
                width,
            );
            put_back(disk, back);
            (course, program)
        }
        Err(_) => {
            put_back(disk, disk_of(journal));
            (starved(), program)
        }
    }
}

/// Says how a run ended that had its keys.
fn finish<P, C, D, K, S, W, V, O: Sink>(
    alloc: Global,
    desks: &[Desk<P, C, D, K, S, W>],
    course: Course,
    program: V,
    err: &mut O,
) -> ServerEnd<V>
    requires small { AllByRecursion IsSmall desks.now }
    requires begun { course.end ≢ RunEnd.NoMemory → is_begun course.end ≡ true }
    ensures status { result.status ≢ 6 → result.status ≢ 8 → result.status ≡ status_of result.end }
    ensures sink_fault { result.status ≡ 6 → Rose (O.faults err.old) (O.faults err.new) }
    ensures said { IsTrue (O.tells err.old) → (names : Named)
        → Says (O.written err.old) (O.written err.new) result.status
        (line_of names (counts_of desks.now result.log) result.end) }
    ensures end { result.end ≡ course.end }
    ensures log { result.log ≡ course.log }
    ensures program { result.program ≡ program }
{
    let counts = Counts {
        connections: count_connections(desks),
        records: count_records(desks),
        entries: course.log.len(),
        digest: course.log.digest(),
    };
    let status = say_end(alloc, err, &UNNAMED, &counts, course.end);
    ServerEnd {
        status,
        end: course.end,
        log: course.log,
        program,
    }
}

/// Says why a run has no keys.
fn unready<V, O: Sink>(
    alloc: Global,
    files: &Files,
    own: &Principal,
    end: RunEnd,
    program: V,
    err: &mut O,
) -> ServerEnd<V>
    requires { is_begun end ≡ false }
    ensures status { result.status ≢ 6 → result.status ≢ 8 → result.status ≡ status_of result.end }
    ensures sink_fault { result.status ≡ 6 → Rose (O.faults err.old) (O.faults err.new) }
    ensures said { IsTrue (O.tells err.old)
        → (counts : Counts) → Says (O.written err.old) (O.written err.new) result.status
        (line_of (names_in files.now (text_form own.now.realm own.now.parts)) counts end) }
    ensures end { result.end ≡ end }
    ensures log { result.log ≡ no_log }
    ensures program { result.program ≡ program }
{
    let label = own.label();
    let names = names_in(files, &label);
    let status = say_end(alloc, err, &names, &NOTHING, end);
    ServerEnd {
        status,
        end,
        log: Log::empty(),
        program,
    }
}

/// Says that the words aren't in the command, or that there was no memory to read them.
fn refused<V, O: Sink>(alloc: Global, end: RunEnd, program: V, err: &mut O) -> ServerEnd<V>
    requires { (end ≢ RunEnd.Usage) → (end ≡ RunEnd.NoMemory) }
    ensures status { result.status ≢ 6 → result.status ≢ 8 → result.status ≡ status_of result.end }
    ensures sink_fault { result.status ≡ 6 → Rose (O.faults err.old) (O.faults err.new) }
    ensures said { IsTrue (O.tells err.old)
        → (names : Named) (counts : Counts) → Says (O.written err.old) (O.written err.new)
        result.status (line_of names counts end) }
    ensures end { result.end ≡ end }
    ensures log { result.log ≡ no_log }
    ensures program { result.program ≡ program }
{
    let status = say_end(alloc, err, &UNNAMED, &NOTHING, end);
    ServerEnd {
        status,
        end,
        log: Log::empty(),
        program,
    }
}

/// Runs the server with these options.
fn run_with<
    R: Threads + Wait + Sync,
    F: Shelf,
    P: Port + Drop + Send,
    C: Clock + Drop + Send,
    D: Draw + Drop + Send,
    K: Keeper<Kept> + Drop + Send,
    S: Keeper<Served<P::Link>> + Drop + Send,
    V: Program<Ticket = T> + Drop + Send,
    T: Send + Sync,
    W: Speller<T> + Drop + Send,
    M: Disk + Drop + Send,
    O: Sink,
>(
    rt: &R,
    alloc: Global,
    options: Options,
    shelf: &mut F,
    disk: &mut Option<M>,
    desks: &mut Vec<Desk<P, C, D, K, S, W>>,
    program: V,
    start: Moment,
    err: &mut O,
) -> ServerEnd<V>
where
    P::Link: Drop + Send,
    requires fresh { AllByRecursion IsFresh desks.old.items }
    requires says { W.says ≡ V.says }
    requires ranged { IsRanged options }
    requires filled { is_some options.files.journal ≡ true → is_some disk.old ≡ true }
    ensures back { is_some disk.new ≡ is_some disk.old }
    ensures untouched { is_some options.files.journal ≡ false → disk.new ≡ disk.old }
    ensures begins { RunBegins F.Shelf M.Disk shelf.old shelf.new disk.old disk.new start options
        result.end }
    ensures legal { Legal result.log.width (reverse result.log.entries) }
    ensures limits { is_begun result.end ≡ true → HasLimits options result.log }
    ensures status { result.status ≢ 6 → result.status ≢ 8 → result.status ≡ status_of result.end }
    ensures sink_fault { result.status ≡ 6 → Rose (O.faults err.old) (O.faults err.new) }
    ensures said { IsTrue (O.tells err.old)
        → Says (O.written err.old) (O.written err.new) result.status (line_of
        (names_of (Ok options)) (counts_of desks.new.items result.log) result.end) }
    ensures count { vec_len desks.new ≡ vec_len desks.old }
    ensures named { NamesADesk result.end (vec_len desks.old) }
    ensures other { result.end ≢ RunEnd.Usage }
    ensures idle { is_begun result.end ≡ false → result.end ≢ RunEnd.NoMemory
        → desks.new.items ≡ desks.old.items }
    ensures named_files { AsksAtMost F.Shelf shelf.old shelf.new (files_of (Ok options)) }
    ensures booked { ((is_begun result.end ≡ false)
        × NoBook desks.old.items desks.new.items result.log × (result.program ≡ program))
        ⊎ ((keys : Keys) × KeysFrom F.Shelf shelf.old shelf.new options.files options.name (Ok keys)
        × OneHistory V.Program W.Speller options keys start (disk_faults M.faults disk.old)
        (disk_faults M.faults disk.new) P.Port P.Link.Link C.Clock D.Draw K.Keeper S.Keeper
        desks.old.items program result.end desks.new.items result.program result.log) }
    ensures seen { ((is_begun result.end ≡ false)
        × NoBook desks.old.items desks.new.items result.log × (result.program ≡ program))
        ⊎ ((keys : Keys) × KeysFrom F.Shelf shelf.old shelf.new options.files options.name (Ok keys)
        × ToldByLog V.Program W.Speller options keys start (disk_faults M.faults disk.old)
        (disk_faults M.faults disk.new) P.Port P.Link.Link C.Clock D.Draw K.Keeper S.Keeper
        desks.old.items program result.end desks.new.items result.program result.log) }
{
    match keys_from(alloc, shelf, &options.files, &options.name) {
        Ok(keys) => match open_journal(alloc, &options.files, disk, start) {
            Ok(journal) => {
                let (course, program) = open_and_serve(
                    rt, alloc, options, keys, journal, disk, desks, program, start,
                );
                finish(alloc, desks.as_slice(), course, program, err)
            }
            Err(end) => unready(alloc, &options.files, &options.name, end, program, err),
        },
        Err(end) => unready(alloc, &options.files, &options.name, end, program, err),
    }
}

/// Runs the server over its desks, side by side where threads can be made, and says on `err` how it ended. The words are
/// `ADDRESS --keytab FILE --verifiers FILE --name PRINCIPAL [--bind TEXT] [--offer LIST] [--bare krb5|none] [--window N] [--connections N] [--contexts N]
/// [--marks N] [--log N] [--desks N] [--idle SECONDS] [--control PATH] [--journal FILE] [--digest sha1]`. How many desks there are, how long a connection may be silent, and
/// where the run can be stopped, whoever made them knows. Where the words name a journal, the disk is its file: it is opened once the keys were
/// found, and is back at the return. The program is served to all desks, each of which has its own speller of the program's results, and comes back.
pub fn run_server<
    R: Threads + Wait + Sync,
    F: Shelf,
    P: Port + Drop + Send,
    C: Clock + Drop + Send,
    D: Draw + Drop + Send,
    K: Keeper<Kept> + Drop + Send,
    S: Keeper<Served<P::Link>> + Drop + Send,
    V: Program<Ticket = T> + Drop + Send,
    T: Send + Sync,
    W: Speller<T> + Drop + Send,
    M: Disk + Drop + Send,
    O: Sink,
>(
    rt: &R,
    alloc: Global,
    words: &[Text],
    shelf: &mut F,
    disk: &mut Option<M>,
    desks: &mut Vec<Desk<P, C, D, K, S, W>>,
    program: V,
    start: Moment,
    out: &mut O,
    err: &mut O,
) -> ServerEnd<V>
where
    P::Link: Drop + Send,
    requires fresh { AllByRecursion IsFresh desks.old.items }
    // The desks' spellers say of the program what it says of itself.
    requires says { W.says ≡ V.says }
    // There is a disk where the words name a journal.
    requires filled { names_journal (options_of words.now) ≡ true → is_some disk.old ≡ true }
    // The status and the line on `err`: those of the end, unless there was no memory for the line, or the sink failed.
    ensures status { result.status ≢ 6 → result.status ≢ 8 → result.status ≡ status_of result.end }
    ensures sink_fault { result.status ≡ 6 → Rose (O.faults err.old) (O.faults err.new) }
    ensures said { IsTrue (O.tells err.old) → Says (O.written err.old) (O.written err.new)
        result.status (line_of (names_of (options_of words.now))
        (counts_of desks.new.items result.log) result.end) }
    ensures out { O.written out.new ≡ O.written out.old }
    // The words are refused exactly where they aren't in the command, want of memory aside.
    ensures usage { result.end ≡ RunEnd.Usage → options_of words.now ≡ Err WordsRefusal.Usage }
    ensures always_usage { options_of words.now ≡ Err WordsRefusal.Usage
        → result.end ≢ RunEnd.NoMemory → result.end ≡ RunEnd.Usage }
    ensures unasked { (refusal : WordsRefusal) → options_of words.now ≡ Err refusal
        → NoBook desks.old.items desks.new.items result.log × (result.program ≡ program) }
    // Where no desk was served, the desks stay as they were; and at most the files that the words name are asked for, each once.
    ensures idle { is_begun result.end ≡ false → result.end ≢ RunEnd.NoMemory
        → desks.new.items ≡ desks.old.items }
    ensures unloaded { result.end ≡ RunEnd.Usage → F.asked shelf.new ≡ F.asked shelf.old }
    ensures named_files { AsksAtMost F.Shelf shelf.old shelf.new
        (files_of (options_of words.now)) }
    // Words in the command: the run ends by what keytab and verifiers come to, and then by the journal.
    ensures begins { (options : Options) → options_of words.now ≡ Ok options
        → result.end ≢ RunEnd.NoMemory → RunBegins F.Shelf M.Disk shelf.old shelf.new disk.old
        disk.new start options result.end }
    // The disk is back; it was used for nothing where the words name no journal.
    ensures back { is_some disk.new ≡ is_some disk.old }
    ensures untouched { names_journal (options_of words.now) ≡ false → disk.new ≡ disk.old }
    // There are as many desks as there were, and the line of a failed port names one of them.
    ensures count { vec_len desks.new ≡ vec_len desks.old }
    ensures named { NamesADesk result.end (vec_len desks.old) }
    // With files and a journal that can be used, and no count that rose, all connections are served, want of memory aside.
    ensures complete { (options : Options) → options_of words.now ≡ Ok options
        → HasValid F.Shelf shelf.old options
        → HasJournal M.Disk disk.old start options
        → (Rose (F.faults shelf.old) (F.faults shelf.new) → ⊥)
        → (Rose (disk_faults M.faults disk.old) (disk_faults M.faults disk.new) → ⊥)
        → ((i : ℕ) (a b : _) → slice_get desks.old.items i ≡ Some a
        → slice_get desks.new.items i ≡ Some b → Rose (P.faults a.port) (P.faults b.port) → ⊥)
        → result.end ≢ RunEnd.NoMemory → result.end ≡ RunEnd.Served }
    // The log is legal, and was kept under the limits of the words.
    ensures legal { Legal result.log.width (reverse result.log.entries) }
    ensures limits { (options : Options) → options_of words.now ≡ Ok options
        → is_begun result.end ≡ true → HasLimits options result.log }
    // One book, of the setup that words, keytab and verifiers give, gave all answers to the desks, in one order, from its opening to the log that is
    // returned: of each desk the questions of its connections, in the desk's order, and no others. With a journal a desk is told, in the place of an
    // answer by which the book took an authenticator, that the journal refuses it; that its disk failed only where the disk's count of faults rose. Its offer is that of the words, in their order, and it takes a
    // request without negotiation where the words say so. Each
    // desk served the first links of its port, in order; where it is done, all of them or as many as the run serves. Or no book was opened: then the
    // desks and the program are as they were, and the log is empty and has no limits. The program entered each call whose number was taken once, in the
    // order of the log, and no other; and each desk was told of its own calls what is spelled, once, from the tickets of their own entries.
    ensures booked { (options : Options) → options_of words.now ≡ Ok options
        → ((is_begun result.end ≡ false) × NoBook desks.old.items desks.new.items result.log
        × (result.program ≡ program))
        ⊎ ((keys : Keys)
        × KeysFrom F.Shelf shelf.old shelf.new options.files options.name (Ok keys)
        × OneHistory V.Program W.Speller options keys start (disk_faults M.faults disk.old)
        (disk_faults M.faults disk.new) P.Port P.Link.Link C.Clock D.Draw K.Keeper S.Keeper
        desks.old.items program result.end desks.new.items result.program result.log) }
    // All of it is told by that log: it is legal, the receipts of all answers, in the history's order, are its entries, and each answer to a desk is
    // what the log before it says.
    ensures seen { (options : Options) → options_of words.now ≡ Ok options
        → ((is_begun result.end ≡ false) × NoBook desks.old.items desks.new.items result.log
        × (result.program ≡ program))
        ⊎ ((keys : Keys)
        × KeysFrom F.Shelf shelf.old shelf.new options.files options.name (Ok keys)
        × ToldByLog V.Program W.Speller options keys start (disk_faults M.faults disk.old)
        (disk_faults M.faults disk.new) P.Port P.Link.Link C.Clock D.Draw K.Keeper S.Keeper
        desks.old.items program result.end desks.new.items result.program result.log) }
{
    match read_options(alloc, words) {
        Ok(options) => { run_with(rt, alloc, options, shelf, disk, desks, program, start, err) },
        Err(WordsRefusal::Usage) => refused(alloc, RunEnd::Usage, program, err),
        Err(WordsRefusal::NoMemory) => refused(alloc, RunEnd::NoMemory, program, err),
    }
}
