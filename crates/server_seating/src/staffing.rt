//! Desks get their clerks and their seats, and come back.

ghost use Rattle.std.specs.Prelude.{◌≡◌, ◌≤◌, ◌<◌, [], vec_len, vec_capacity, IfOk, IfErr};
ghost use Rattle.sec_base.specs.Answers.{Rose};
ghost use Rattle.book_seats.specs.Notes.{noted_by};
ghost use Rattle.journal_gate.specs.Withheld.{journal_faults};
ghost use Rattle.server_desks.specs.Desks.{InStep, with_speller};

use crate::place::Place;
use book_seats::{Begins, Clerk, Hall, Room, Seat, Shared, Writer};
use journal_gate::{Behind, JournalGate, Opening, Queue};
use replay_journal::Disk;
use rpc_program::{Program, Speller};
use sec_base::NoMemory;
use server_desks::{AtGate, Desk, Job};
use spnego_core::AcceptSetup;
use std::alloc::Global;
use std::sync::Mutex;
use std::sync::ledger::Share;

/// A desk with its clerk.
#[derive(Drop)]
pub(crate) struct Staffed<U, T, J: Room> {
    desk: U,
    clerk: Clerk<T, J>,
}

/// A desk that was served, with its clerk, and its share of the answers that a journal's disk failed.
#[derive(Drop)]
pub(crate) struct Risen<U, T, J: Room, L: Opening> {
    desk: U,
    clerk: Clerk<T, J>,
    share: Share<L>,
}

/// The book with its program behind a lock, and the queue at the journal.
pub(crate) struct Locks<V: Program<Ticket = T>, T, J: Room + Begins<V>, M: Disk, L: Opening> {
    pub(crate) book: Mutex<Shared<V, T, J>>,
    pub(crate) journal: Queue<M, L>,
}

/// Room for so many things.
pub(crate) fn room<T: Drop>(alloc: Global, count: usize) -> Result<Vec<T>, NoMemory>
    ensures none { IfOk result (λ made. made.items ≡ []) }
    ensures room { IfOk result (λ made. count ≤ vec_capacity made) }
{
    match Vec::with_capacity(alloc, count) {
        Ok(made) => Ok(made),
        Err(_) => Err(NoMemory),
    }
}

/// Room for so many things of each of four sorts, taken while something else is held, which is let go where there is none; what is kept besides is
/// given back then.
pub(crate) fn rooms<A: Drop, B: Drop, C: Drop, D: Drop, T: Drop, U>(
    alloc: Global,
    count: usize,
    held: T,
    kept: U,
) -> Result<(Vec<A>, Vec<B>, Vec<C>, Vec<D>, T, U), U>
    ensures none { IfOk result (λ made. (made.0.items ≡ []) × (made.1.items ≡ [])
        × (made.2.items ≡ []) × (made.3.items ≡ [])) }
    ensures room { IfOk result (λ made. (count ≤ vec_capacity made.0)
        × (count ≤ vec_capacity made.1) × (count ≤ vec_capacity made.2)
        × (count ≤ vec_capacity made.3)) }
    ensures held { IfOk result (λ made. made.4 ≡ held) }
    ensures kept { IfOk result (λ made. made.5 ≡ kept) }
    ensures back { IfErr result (λ back. back ≡ kept) }
{
    let Ok(first) = room(alloc, count) else {
        return Err(kept);
    };
    let Ok(second) = room(alloc, count) else {
        return Err(kept);
    };
    let Ok(third) = room(alloc, count) else {
        return Err(kept);
    };
    let Ok(fourth) = room(alloc, count) else {
        return Err(kept);
    };
    Ok((first, second, third, fourth, held, kept))
}

/// Makes a clerk for each desk.
pub(crate) fn hire_all<U: Drop, T, J: Room>(
    hall: &Hall<T, J>,
    writer: &mut Writer<T, J>,
    desks: Vec<U>,
    staffed: &mut Vec<Staffed<U, T, J>>,
)
    requires none { staffed.old.items ≡ [] }
    requires room { vec_len desks ≤ vec_capacity staffed.old }
    requires fresh { writer.old ≡ record { made = 0; all = [] } }
    ensures count { vec_len staffed.new ≡ vec_len desks }
    ensures writer { writer.new ≡ record { made = vec_len desks; all = [] } }
    ensures each { InStep desks.items staffed.new.items (λ number desk one. (one.desk ≡ desk)
        × (one.clerk ≡ record { desk = number; seen = [] })) }
{
    for desk in desks {
        let clerk = writer.hire(hall);
        staffed.push_reserved(Staffed { desk, clerk });
    }
}

/// Gives each desk its seat, to which the setup of the book's ends is lent and the desk's speller goes, and a part of the ledger of the answers that
/// the journal's disk failed.
pub(crate) fn seat_all<
    'a,
    R,
    P: Drop,
    C: Drop,
    D: Drop,
    K: Drop,
    S: Drop,
    V: Program<Ticket = T>,
    T,
    W: Speller<T> + Drop,
    J: Room + Begins<V>,
    M: Disk,
    L: Opening,
>(
    rt: &'a R,
    locks: &'a Locks<V, T, J, M, L>,
    journaled: bool,
    hall: &'a Hall<T, J>,
    setup: &'a AcceptSetup,
    alloc: Global,
    connections: u64,
    width: u32,
    staffed: Vec<Staffed<Desk<P, C, D, K, S, W>, T, J>>,
    all: &mut Share<L>,
    jobs: &mut Vec<Job<Desk<P, C, D, K, S, AtGate>, Place<'a, R, V, T, W, J, M, L>>>,
)
    requires setup { setup.now ≡ J.setup }
    requires says { W.says ≡ V.says }
    requires none { jobs.old.items ≡ [] }
    requires room { vec_len staffed ≤ vec_capacity jobs.old }
    requires parts { vec_len staffed ≤ all.old.parts }
    requires uncounted { all.old.amount ≡ 0 }
    ensures count { vec_len jobs.new ≡ vec_len staffed }
    ensures each { InStep staffed.items jobs.new.items (λ _ one job.
        (job.desk ≡ with_speller one.desk job.desk.speller)
        × (job.gate.gate.seat.clerk ≡ one.clerk)
        × (job.gate.gate.seat.speller ≡ one.desk.speller)
        × (job.connections ≡ connections) × (job.width ≡ width)
        × (job.gate.gate.journaled ≡ journaled) × (job.gate.gate.share.amount ≡ 0)) }
{
    for one in staffed {
        let Staffed { desk, clerk } = one;
        let (desk, speller) = desk.part();
        let share = all.split_off(1, 0);
        let seat = Seat::new(rt, &locks.book, hall, setup, clerk, speller);
        let gate = Place {
            gate: JournalGate {
                rt,
                queue: &locks.journal,
                journaled,
                seat,
                share,
            },
        };
        jobs.push_reserved(Job::new(alloc, desk, gate, connections, width));
    }
}

/// Takes the desks with their spellers, their clerks and their shares back.
pub(crate) fn rise_all<
    R,
    P: Drop,
    C: Drop,
    D: Drop,
    K: Drop,
    S: Drop,
    V: Program<Ticket = T>,
    T,
    W: Speller<T> + Drop,
    J: Room + Begins<V>,
    M: Disk,
    L: Opening,
>(
    jobs: Vec<Job<Desk<P, C, D, K, S, AtGate>, Place<'_, R, V, T, W, J, M, L>>>,
    risen: &mut Vec<Risen<Desk<P, C, D, K, S, W>, T, J, L>>,
)
    requires none { risen.old.items ≡ [] }
    requires room { vec_len jobs ≤ vec_capacity risen.old }
    ensures count { vec_len risen.new ≡ vec_len jobs.entry }
    ensures each { InStep jobs.entry.items risen.new.items (λ _ job one.
        (one.desk ≡ with_speller job.desk job.gate.gate.seat.speller)
        × (one.clerk ≡ job.gate.gate.seat.clerk)
        × (one.share.amount ≡ job.gate.gate.share.amount)) }
{
    for job in jobs {
        let Job { desk, gate, .. } = job;
        let Place { gate } = gate;
        let JournalGate {
            rt: _,
            queue: _,
            journaled: _,
            seat,
            share,
        } = gate;
        let (clerk, speller) = seat.rise();
        risen.push_reserved(Risen {
            desk: desk.with(speller),
            clerk,
            share,
        });
    }
}

/// Dismisses the clerks: of each desk the history has what its clerk has seen of it. If the journal's disk failed an answer to it, the disk's count
/// of faults rose.
pub(crate) fn compare_all<U: Drop, T, J: Room, M: Disk, L: Opening>(
    hall: &Hall<T, J>,
    writer: &mut Writer<T, J>,
    behind: &mut Behind<M, L>,
    risen: Vec<Risen<U, T, J, L>>,
    desks: &mut Vec<U>,
)
    requires none { desks.old.items ≡ [] }
    requires room { vec_len risen ≤ vec_capacity desks.old }
    ensures count { vec_len desks.new ≡ vec_len risen }
    ensures writer { writer.new ≡ writer.old }
    ensures journal { behind.new.journal ≡ behind.old.journal }
    ensures each { InStep risen.items desks.new.items (λ _ one desk. (desk ≡ one.desk)
        × (noted_by one.clerk.desk writer.old.all ≡ noted_by one.clerk.desk one.clerk.seen)
        × (0 < one.share.amount → Rose L.count (journal_faults M.faults behind.old.journal))) }
{
    for one in risen {
        let Risen {
            desk,
            clerk,
            mut share,
        } = one;
        writer.compare(hall, clerk);
        behind.audit(&mut share);
        drop(share);
        desks.push_reserved(desk);
    }
}
