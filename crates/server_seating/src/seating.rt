//! A book and a program serve desks side by side.

ghost use Rattle.std.specs.Prelude.{◌≡◌, ◌≢◌, ◌⊎◌, ◌<◌, ◌≤◌, [], true, IfOk, IfErr, OnErr};
ghost use Rattle.std.specs.Prelude.{is_some, vec_len, reverse};
ghost use Rattle.std.specs.List.{AllByRecursion};
ghost use Rattle.accept_core.specs.Legal.{Legal};
ghost use Rattle.accept_book.specs.Booking.{with_setup};
ghost use Rattle.gss_server.specs.Hearing.{serving};
ghost use Rattle.gss_server.specs.Telling.{limits_of};
ghost use Rattle.book_seats.specs.Views.{writer};
ghost use Rattle.journal_gate.specs.Withheld.{journal_faults, disk_faults, is_shut};
ghost use Rattle.server_desks.specs.Desks.{IsFresh, IsSmall, NamesADesk, greatest_count};
ghost use Rattle.server_options.specs.Lines.{is_begun};
ghost use Rattle.server_seating.specs.Through.{NoBook};
ghost use Rattle.server_seating.specs.SideBySide.{SideBySide, IsUnder};

use crate::staffing::{Locks, compare_all, hire_all, rise_all, rooms, seat_all};
use accept_book::{Book, OwnSeat};
use book_seats::{Begins, Board, Hall, Room, Shared, Token, Writer, open_board, open_hall};
use gss_server::{Keeper, Kept, Served};
use journal_gate::{Behind, Opening, Queue, disk_of};
use replay_journal::{Disk, Journal};
use rpc_program::{Program, Speller};
use sec_base::{Clock, Draw, Port};
use server_desks::{Course, Desk, course_of, end_of, run_desks, starved};
use server_options::RunEnd;
use spnego_core::AcceptSetup;
use std::alloc::Global;
use std::marker::Brand;
use std::mem;
use std::sync::ledger::Blank;
use std::sync::{Mutex, Wait};
use std::thread::Threads;

/// Serves the desks side by side, each with a seat at the book. All room for that is taken before the first is served.
fn run_seated<
    J: Room + Begins<V> + Send + Sync,
    L: Opening + Send + Sync,
    R: Threads + Wait + Sync,
    P: Port + Drop + Send,
    C: Clock + Drop + Send,
    D: Draw + Drop + Send,
    K: Keeper<Kept> + Drop + Send,
    S: Keeper<Served<P::Link>> + Drop + Send,
    V: Program<Ticket = T> + Drop + Send,
    T: Send + Sync,
    W: Speller<T> + Drop + Send,
    M: Disk + Drop + Send,
>(
    rt: &R,
    alloc: Global,
    hall: &Hall<T, J>,
    setup: &AcceptSetup,
    book: Book,
    program: V,
    writer: Writer<T, J>,
    blank: Blank,
    journal: Option<Journal<M>>,
    desks: &mut Vec<Desk<P, C, D, K, S, W>>,
    connections: u64,
    width: u32,
) -> Result<(Course, V, Option<M>), (Option<Journal<M>>, V)>
where
    P::Link: Drop + Send,
    requires fresh { AllByRecursion IsFresh desks.old.items }
    requires setup { setup.now ≡ J.setup }
    requires says { W.says ≡ V.says }
    requires both { J.begins record { book = with_setup J.setup book; program = program } }
    requires limits { limits_of book ≡ J.limits }
    requires writer { writer ≡ record { made = 0; all = [] } }
    requires desks { J.desks ≡ vec_len desks.old }
    requires name { blank.name ≡ L.name }
    requires parts { blank.parts ≡ L.parts }
    requires part_each { blank.parts ≡ vec_len desks.old }
    requires kept { is_some journal ≡ L.kept }
    requires count { is_some journal ≡ true → L.count ≤ journal_faults M.faults journal }
    requires unclosed { is_shut journal → ⊥ }
    ensures served { IfOk result (λ done. SideBySide V.Program W.Speller J.begins
        (is_some journal) L.count (disk_faults M.faults done.2) (serving W.says width) connections
        P.Port P.Link.Link C.Clock D.Draw K.Keeper S.Keeper desks.old.items done.0.end
        desks.new.items done.1 done.0.log) }
    ensures legal { IfOk result (λ done. Legal done.0.log.width (reverse done.0.log.entries)) }
    ensures limits { IfOk result (λ done. IsUnder J.limits done.0.log) }
    ensures none { OnErr result (desks.new ≡ desks.old) }
    ensures disk { IfOk result (λ done. is_some done.2 ≡ is_some journal) }
    ensures back { IfErr result (λ back. back ≡ (journal, program)) }
{
    let locks;
    let journaled = journal.is_some();
    // (the book is let go by `rooms` where there is no room, so that no way out from here has to)
    let (mut staffed, mut jobs, mut risen, back, (book, mut writer), (journal, program)) = rooms(
        alloc,
        desks.len(),
        (book, writer),
        (journal, program),
    )?;
    let olds = mem::replace(desks, back);
    hire_all(hall, &mut writer, olds, &mut staffed);
    let (sum, mut all) = blank.open::<L>();
    locks = Locks {
        book: Mutex::new(Shared::new(book, program, writer)),
        journal: Queue::new(alloc, Behind::new(alloc, journal, sum)),
    };
    seat_all(
        rt,
        &locks,
        journaled,
        hall,
        setup,
        alloc,
        connections,
        width,
        staffed,
        &mut all,
        &mut jobs,
    );
    drop(all);
    run_desks(rt, &mut jobs);
    let end = end_of(jobs.as_slice());
    rise_all(jobs, &mut risen);
    let Locks { book, journal } = locks;
    let (book, program, mut writer) = book.into_inner().into_parts();
    let mut behind = journal.into_behind();
    compare_all(hall, &mut writer, &mut behind, risen, desks);
    writer.close(hall);
    drop(writer);
    Ok((
        course_of(end, Some(book)),
        program,
        disk_of(behind.into_journal()),
    ))
}

/// The same with a table, on which what the desks ask is noted.
fn run_noted<
    J: Room + Begins<V> + Send + Sync,
    L: Opening + Send + Sync,
    R: Threads + Wait + Sync,
    P: Port + Drop + Send,
    C: Clock + Drop + Send,
    D: Draw + Drop + Send,
    K: Keeper<Kept> + Drop + Send,
    S: Keeper<Served<P::Link>> + Drop + Send,
    V: Program<Ticket = T> + Drop + Send,
    T: Send + Sync,
    W: Speller<T> + Drop + Send,
    M: Disk + Drop + Send,
>(
    rt: &R,
    alloc: Global,
    board: Board<T>,
    token: Token<T>,
    setup: &AcceptSetup,
    book: Book,
    program: V,
    blank: Blank,
    journal: Option<Journal<M>>,
    desks: &mut Vec<Desk<P, C, D, K, S, W>>,
    connections: u64,
    width: u32,
) -> Result<(Course, V, Option<M>), (Option<Journal<M>>, V)>
where
    P::Link: Drop + Send,
    requires fresh { AllByRecursion IsFresh desks.old.items }
    requires setup { setup.now ≡ J.setup }
    requires says { W.says ≡ V.says }
    requires both { J.begins record { book = with_setup J.setup book; program = program } }
    requires limits { limits_of book ≡ J.limits }
    requires board { board.shared.table_id ≡ J.table }
    requires words { 0 < board.shared.table_id.words }
    requires token { (token.table_id ≡ board.shared.table_id) × (token.me ≡ (writer 0 [], [])) }
    requires desks { J.desks ≡ vec_len desks.old }
    requires name { blank.name ≡ L.name }
    requires parts { blank.parts ≡ L.parts }
    requires part_each { blank.parts ≡ vec_len desks.old }
    requires kept { is_some journal ≡ L.kept }
    requires count { is_some journal ≡ true → L.count ≤ journal_faults M.faults journal }
    requires unclosed { is_shut journal → ⊥ }
    ensures served { IfOk result (λ done. SideBySide V.Program W.Speller J.begins
        (is_some journal) L.count (disk_faults M.faults done.2) (serving W.says width) connections
        P.Port P.Link.Link C.Clock D.Draw K.Keeper S.Keeper desks.old.items done.0.end
        desks.new.items done.1 done.0.log) }
    ensures legal { IfOk result (λ done. Legal done.0.log.width (reverse done.0.log.entries)) }
    ensures limits { IfOk result (λ done. IsUnder J.limits done.0.log) }
    ensures none { OnErr result (desks.new ≡ desks.old) }
    ensures disk { IfOk result (λ done. is_some done.2 ≡ is_some journal) }
    ensures back { IfErr result (λ back. back ≡ (journal, program)) }
{
    let (hall, writer) = open_hall::<T, J>(board, token);
    run_seated::<J, L, R, P, C, D, K, S, V, T, W, M>(
        rt,
        alloc,
        &hall,
        setup,
        book,
        program,
        writer,
        blank,
        journal,
        desks,
        connections,
        width,
    )
}

/// The same with a table that is made.
fn run_at_seats<
    R: Threads + Wait + Sync,
    P: Port + Drop + Send,
    C: Clock + Drop + Send,
    D: Draw + Drop + Send,
    K: Keeper<Kept> + Drop + Send,
    S: Keeper<Served<P::Link>> + Drop + Send,
    V: Program<Ticket = T> + Drop + Send,
    T: Send + Sync,
    W: Speller<T> + Drop + Send,
    M: Disk + Drop + Send,
>(
    rt: &R,
    alloc: Global,
    book: OwnSeat,
    program: V,
    journal: Option<Journal<M>>,
    desks: &mut Vec<Desk<P, C, D, K, S, W>>,
    connections: u64,
    width: u32,
) -> Result<(Course, V, Option<M>), (Option<Journal<M>>, V)>
where
    P::Link: Drop + Send,
    requires fresh { AllByRecursion IsFresh desks.old.items }
    requires says { W.says ≡ V.says }
    requires unclosed { is_shut journal → ⊥ }
    ensures served { IfOk result (λ done. SideBySide V.Program W.Speller
        (λ first. first ≡ record { book = book; program = program }) (is_some journal)
        (journal_faults M.faults journal) (disk_faults M.faults done.2) (serving W.says width)
        connections P.Port P.Link.Link C.Clock D.Draw K.Keeper S.Keeper desks.old.items done.0.end
        desks.new.items done.1 done.0.log) }
    ensures legal { IfOk result (λ done. Legal done.0.log.width (reverse done.0.log.entries)) }
    ensures limits { IfOk result (λ done. IsUnder (limits_of book.core) done.0.log) }
    ensures none { OnErr result (desks.new ≡ desks.old) }
    ensures disk { IfOk result (λ done. is_some done.2 ≡ is_some journal) }
    ensures back { IfErr result (λ back. back ≡ (journal, program)) }
{
    match open_board::<T>(alloc) {
        Ok((board, token)) => {
            let (setup, bare) = book.into_parts();
            let blank = Blank::new(desks.len() as u64);
            let course = run_noted::<Brand, Brand, R, P, C, D, K, S, V, T, W, M>(
                rt,
                alloc,
                board,
                token,
                &setup,
                bare,
                program,
                blank,
                journal,
                desks,
                connections,
                width,
            );
            drop(setup);
            course
        }
        Err(_) => {
            drop(book);
            Err((journal, program))
        }
    }
}

/// Serves the desks side by side with a book and a program, each at most `connections` links with windows of this width, and has the journal keep what
/// the book takes, where there is one. The program and the journal's disk are given back.
pub fn run_book<
    R: Threads + Wait + Sync,
    P: Port + Drop + Send,
    C: Clock + Drop + Send,
    D: Draw + Drop + Send,
    K: Keeper<Kept> + Drop + Send,
    S: Keeper<Served<P::Link>> + Drop + Send,
    V: Program<Ticket = T> + Drop + Send,
    T: Send + Sync,
    W: Speller<T> + Drop + Send,
    M: Disk + Drop + Send,
>(
    rt: &R,
    alloc: Global,
    book: OwnSeat,
    program: V,
    journal: Option<Journal<M>>,
    desks: &mut Vec<Desk<P, C, D, K, S, W>>,
    connections: u64,
    width: u32,
) -> (Course, V, Option<M>)
where
    P::Link: Drop + Send,
    requires fresh { AllByRecursion IsFresh desks.old.items }
    requires says { W.says ≡ V.says }
    requires most { connections ≤ greatest_count }
    requires unclosed { is_shut journal → ⊥ }
    ensures served { ((result.0.end ≡ RunEnd.NoMemory)
        × NoBook desks.old.items desks.new.items result.0.log × (result.1 ≡ program))
        ⊎ SideBySide V.Program W.Speller
        (λ first. first ≡ record { book = book; program = program }) (is_some journal)
        (journal_faults M.faults journal) (disk_faults M.faults result.2) (serving W.says width)
        connections P.Port P.Link.Link C.Clock D.Draw K.Keeper S.Keeper desks.old.items
        result.0.end desks.new.items result.1 result.0.log }
    ensures count { vec_len desks.new ≡ vec_len desks.old }
    ensures named { NamesADesk result.0.end (vec_len desks.old) }
    ensures begun { result.0.end ≢ RunEnd.NoMemory → is_begun result.0.end ≡ true }
    ensures small { AllByRecursion IsSmall desks.new.items }
    ensures legal { Legal result.0.log.width (reverse result.0.log.entries) }
    ensures limits { is_begun result.0.end ≡ true → IsUnder (limits_of book.core) result.0.log }
    ensures disk { is_some result.2 ≡ is_some journal }
{
    match run_at_seats(rt, alloc, book, program, journal, desks, connections, width) {
        Ok(done) => done,
        Err((journal, program)) => (starved(), program, disk_of(journal)),
    }
}
