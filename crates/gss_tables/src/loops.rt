//! A client and the rules of a record over one book, in one thread.

ghost use Rattle.std.specs.Prelude.{◌≡◌, true, false, IfSome, map, []};
ghost use Rattle.spnego_core.specs.InitMech as plain_lists;
ghost use Rattle.init_ends.specs.Arming.{AreStandard};
ghost use Rattle.init_ends.specs.Ends.{setup_by};
ghost use Rattle.init_ends.specs.Objects.{is_own_list};
ghost use Rattle.mech_objects.specs.Made.{AreMade};

use crate::connections::book_of;
use crate::entries;
use crate::served::{BookGate, gate_of};
use crate::sessions::terms_by;
use accept_book::{Entry, NegAnswer};
use client_command::run_client;
use gate_models::{Beginning, LoopLink};
use gss_client::{Service, Session, Start};
use gss_server::Kept;
use init_ends::{InitSetup, standard_mechs};
use mech_objects::{MadeMechs, Mech, make_mechs};
use sec_base::{Link, MemDraw, MemShelf, Moment, NoMemory, Octets, Text};
use spnego_core::{InitFacts, Outcome};
use std::alloc::Global;
use table_rows::{Cells, Said};
use table_setting::{Devices, Files, Setting, present, say_list, saying, words};

/// The limits of these books.
const LIMITS: &str = "4:4:16:4";

/// The width of their windows.
const WIDTH: u32 = 4;

/// What the type of a link says: nothing of its book, the width, that the clock stands at 1,000,000 seconds, and that its draw gave nothing
/// before.
#[derive(Drop)]
struct AtPresent;

impl Beginning<BookGate> for AtPresent {
    ghost begins = { λ _. Unit {0} };

    ghost width = { 4 };

    ghost moment = { 1000000000000 };

    ghost given = { [] };
}

/// A link over a book, whose acceptor's random octets come from memory.
type BookLink = LoopLink<BookGate, MemDraw, AtPresent>;

/// A link over a book, whose clock stands at 1,000,000 seconds.
fn link_of(alloc: Global, book: BookGate, draws: Vec<u8>) -> Option<BookLink>
    ensures { IfSome result (λ link. ⟦<BookLink as Link>⟧.closed link ≡ false) }
{
    match Moment::new(1_000_000, 0) {
        Some(now) => LoopLink::new(alloc, book, now, MemDraw::new(draws), WIDTH).ok(),
        None => None,
    }
}

/// A link over a book of this offer's letters.
fn loop_of(alloc: Global, setting: &Setting, letters: &str, draws: Vec<u8>) -> Option<BookLink>
    ensures { IfSome result (λ link. ⟦<BookLink as Link>⟧.closed link ≡ false) }
{
    match book_of(alloc, setting, letters, LIMITS, present()) {
        Some(book) => link_of(alloc, gate_of(book), draws),
        None => None,
    }
}

/// The token of the answer to a record, None where it has no answer with one.
fn token(kept: &Kept) -> Option<&[u8]> {
    match &kept.negotiated.as_ref()?.answer {
        NegAnswer::Going { id: _, token } => Some(token.as_slice()),
        NegAnswer::Settled { lease: _, token } => Some(token.as_slice()),
        _ => None,
    }
}

/// Says a token, `e` for an empty one, and a comma before the next.
fn say_token(tokens: &mut Said, token: &[u8]) {
    if token.is_empty() {
        tokens.word("e");
    } else {
        tokens.octets(token);
    }
    tokens.join(",");
}

/// Says the tokens that records were answered by.
fn say_tokens(alloc: Global, said: &mut Said, kept: &[Kept]) {
    let mut tokens = Said::new(alloc);
    for one in kept {
        match token(one) {
            Some(token) => say_token(&mut tokens, token),
            None => {}
        }
    }
    say_list(said, &tokens);
}

/// Says what is kept of the answers: their tokens, how many there are, and the kinds of the book's entries.
fn say_kept(alloc: Global, said: &mut Said, kept: &[Kept], entries: &[Entry]) {
    say_tokens(alloc, said, kept);
    said.number(kept.len() as u64);
    entries::kinds(said, entries);
}

/// Says the status of a run over a link, by these objects, and what it prints.
fn run(
    alloc: Global,
    words: &[Text],
    link: &mut BookLink,
    shelf: &mut MemShelf,
    devices: &mut Devices,
    mechs: Vec<Box<dyn Mech>>,
    said: &mut Said,
)
    requires unclosed { ⟦<BookLink as Link>⟧.closed link.old ≡ false }
    requires mechs { AreStandard (map meaning mechs.items) }
{
    let Devices {
        clock,
        draw,
        out,
        err,
    } = devices;
    let end = run_client(alloc, words, shelf, link, clock, draw, mechs, out, err);
    said.number(end.status as u64);
    devices.say(said);
}

/// The same by objects of Kerberos under both its names, and of SCRAM.
fn run_by_all(
    alloc: Global,
    words: &[Text],
    link: &mut BookLink,
    shelf: &mut MemShelf,
    devices: &mut Devices,
    said: &mut Said,
) -> Result<(), NoMemory>
    requires { ⟦<BookLink as Link>⟧.closed link.old ≡ false }
{
    let MadeMechs {
        kerberos,
        microsoft,
        scram,
    } = make_mechs(alloc).ok_or(NoMemory)?;
    let mechs = standard_mechs(alloc, kerberos, microsoft, scram)?;
    run(alloc, words, link, shelf, devices, mechs, said);
    Ok(())
}

/// Octets 07, a thousand of them.
fn sevens(alloc: Global) -> Vec<u8> {
    let mut octets = Vec::new(alloc);
    let _ = octets.resize(1000, 7);
    octets
}

/// Says the kept answers of a link and the entries of its book.
fn say_left(alloc: Global, said: &mut Said, link: BookLink) {
    let (book, draw, kept) = link.into_parts();
    say_kept(
        alloc,
        said,
        kept.as_slice(),
        entries::entries_in(book.seat.log()),
    );
    drop(book);
    drop(draw);
    drop(kept);
}

/// By the cells of the offer's letters and the words, what a run of the client prints over a book; then what is kept of the answers. The
/// acceptor's random octets are all 07.
pub fn run_over(setting: &Setting, files: &Files, cells: &mut Cells<'_>, said: &mut Said) {
    let alloc = cells.alloc();
    let letters = cells.word();
    let words = words(cells);
    let mut shelf = files.shelf(cells, Vec::new(alloc));
    let mut devices = Devices::new(alloc, present(), Vec::new(alloc), Vec::new(alloc));
    match loop_of(alloc, setting, letters, sevens(alloc)) {
        Some(mut link) => {
            let ran = run_by_all(
                alloc,
                words.as_slice(),
                &mut link,
                &mut shelf,
                &mut devices,
                said,
            );
            if ran.is_err() {
                said.starve();
            }
            say_left(alloc, said, link);
        }
        None => cells.expect(false),
    }
}

/// The outcome of the context that was settled.
fn settled(kept: &[Kept]) -> Option<Outcome> {
    for one in kept {
        if let Some(negotiated) = &one.negotiated {
            if let NegAnswer::Settled { lease, token: _ } = &negotiated.answer {
                return Some(lease.outcome);
            }
        }
    }
    None
}

/// Says the outcome of both ends, and both where they differ.
fn say_outcome(alloc: Global, said: &mut Said, own: &Outcome, other: &Outcome) {
    let (mut one, mut two) = (Said::new(alloc), Said::new(alloc));
    saying::outcome(&mut one, own);
    saying::outcome(&mut two, other);
    say_list(said, &one);
    if one.told() != two.told() {
        said.join("/");
        say_list(said, &two);
    }
}

/// What came of a session, and the number after that of its call.
#[derive(Drop)]
struct Spoken {
    outcome: Outcome,
    who: Octets,
    next: u32,
}

/// What came of a session that has asked who calls, once its context is ended.
fn part(alloc: Global, link: &mut BookLink, session: Session, who: Octets) -> Option<Spoken>
    requires { ⟦<BookLink as Link>⟧.closed link.old ≡ false }
{
    let outcome = *session.outcome();
    let next = session.next_number();
    match session.destroy(alloc, link) {
        Ok(()) => Some(Spoken { outcome, who, next }),
        Err(_) => None,
    }
}

/// What comes of a session that asks who calls and ends its context.
fn ask(alloc: Global, link: &mut BookLink, session: Session) -> Option<Spoken>
    requires { ⟦<BookLink as Link>⟧.closed link.old ≡ false }
{
    if session.next_number() > 0x7fff_ffff {
        return None;
    }
    match session.call(alloc, link, 2, &[], &[0; 16]) {
        Ok((session, who)) => part(alloc, link, session, who),
        Err(_) => None,
    }
}

/// What comes of a session by integrity, which asks who calls and ends its context.
fn speak(alloc: Global, link: &mut BookLink, setup: InitSetup) -> Option<Spoken>
    requires unclosed { ⟦<BookLink as Link>⟧.closed link.old ≡ false }
    requires list { is_own_list (setup_by setup meaning).list ≡ true }
{
    let start = Start {
        setup,
        terms: terms_by(Service::Integrity),
        first: 1,
    };
    match Session::create(alloc, link, start) {
        Ok(session) => ask(alloc, link, session),
        Err(_) => None,
    }
}

/// Says the kinds of a log's entries, and its last entry.
fn say_log(said: &mut Said, entries: &[Entry]) {
    entries::kinds(said, entries);
    match entries.last() {
        Some(entry) => entries::say(said, entry),
        None => said.starve(),
    }
}

/// Says what came of a session, how many records were written, and the log.
fn say_spoken(alloc: Global, said: &mut Said, spoken: &Spoken, kept: &[Kept], entries: &[Entry]) {
    match settled(kept) {
        Some(other) => say_outcome(alloc, said, &spoken.outcome, &other),
        None => said.starve(),
    }
    said.octets(spoken.who.as_slice());
    said.number(spoken.next as u64);
    said.number(kept.len() as u64);
    say_log(said, entries);
}

/// The same of a session over a link, which has to have memory and the width of its book.
fn say_over(alloc: Global, said: &mut Said, spoken: &Spoken, link: BookLink) {
    if link.starved() || link.width() != WIDTH {
        said.starve();
    }
    let (book, draw, kept) = link.into_parts();
    say_spoken(
        alloc,
        said,
        spoken,
        kept.as_slice(),
        entries::entries_in(book.seat.log()),
    );
    drop(book);
    drop(draw);
    drop(kept);
}

/// Says what comes of a session over a link.
fn pair(alloc: Global, setup: InitSetup, link: BookLink, said: &mut Said)
    requires unclosed { ⟦<BookLink as Link>⟧.closed link ≡ false }
    requires list { is_own_list (setup_by setup meaning).list ≡ true }
{
    let mut link = link;
    match speak(alloc, &mut link, setup) {
        Some(spoken) => say_over(alloc, said, &spoken, link),
        None => said.starve(),
    }
}

/// The same by these objects, which are armed with what the facts list.
fn pair_by(alloc: Global, mechs: Vec<Box<dyn Mech>>, given: (InitFacts, BookLink), said: &mut Said)
    requires blank { AreStandard (map meaning mechs.items) }
    requires list { plain_lists.is_own_list given.0.list ≡ true }
    requires bare { given.0.negotiates ≡ false → plain_lists.is_bare_list given.0.list ≡ true }
    requires unclosed { ⟦<BookLink as Link>⟧.closed given.1 ≡ false }
{
    let (facts, link) = given;
    match InitSetup::armed(alloc, mechs, facts) {
        Ok(setup) => pair(alloc, setup, link, said),
        Err(_) => {
            drop(link);
            said.starve();
        }
    }
}

/// The same by objects of Kerberos under both its names, and of SCRAM.
fn pair_by_all(alloc: Global, made: MadeMechs, given: (InitFacts, BookLink), said: &mut Said)
    requires made { AreMade made }
    requires list { plain_lists.is_own_list given.0.list ≡ true }
    requires bare { given.0.negotiates ≡ false → plain_lists.is_bare_list given.0.list ≡ true }
    requires unclosed { ⟦<BookLink as Link>⟧.closed given.1 ≡ false }
{
    let MadeMechs {
        kerberos,
        microsoft,
        scram,
    } = made;
    let mechs = standard_mechs(alloc, kerberos, microsoft, scram).ok();
    match mechs.zip(Some(given)) {
        Some((mechs, given)) => pair_by(alloc, mechs, given, said),
        None => said.starve(),
    }
}

/// Says what comes of a session over a book of this offer's letters.
fn pair_over(setting: &Setting, alloc: Global, facts: InitFacts, offer: &str, said: &mut Said)
    requires list { plain_lists.is_own_list facts.list ≡ true }
    requires bare { facts.negotiates ≡ false → plain_lists.is_bare_list facts.list ≡ true }
{
    let Some(made) = make_mechs(alloc) else {
        drop(facts);
        said.starve();
        return;
    };
    match loop_of(alloc, setting, offer, Vec::new(alloc)) {
        Some(link) => pair_by_all(alloc, made, (facts, link), said),
        None => {
            drop(facts);
            drop(made);
            said.starve();
        }
    }
}

/// By the cells of the list's letters and the offer's, the outcome of both ends of a session; then the acceptor's word on who calls, the number
/// after that of the call, how many records were written, the kinds of the book's entries, and the last entry.
pub fn run_pair(setting: &Setting, cells: &mut Cells<'_>, said: &mut Said) {
    let (list, offer) = (cells.word(), cells.word());
    match setting.initiator(cells.alloc(), list) {
        Some(facts) => pair_over(setting, cells.alloc(), facts, offer, said),
        None => cells.expect(false),
    }
}
