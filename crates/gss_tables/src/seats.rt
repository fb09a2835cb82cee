//! What is asked of a book by two desks in turn, each at a seat of its own, in one thread: the answers are those to one desk.

ghost use Rattle.std.specs.Prelude.{◌≡◌, ◌<◌, []};
ghost use Rattle.accept_book.specs.Booking.{with_setup};
ghost use Rattle.gss_server.specs.Telling.{limits_of};
ghost use Rattle.book_seats.specs.Views.{writer};

use crate::between::{Held, hold};
use crate::books::{say_log, say_step};
use crate::connections::{book_of, desk_of, rule, serve};
use crate::entries;
use accept_book::{Book, Log, OwnSeat};
use book_seats::{Begins, Board, Room, Seat, Shared, Token, open_board, open_hall};
use gss_server::Gate;
use posts_program::{Posts, PostsWords};
use rpc_program::Spelled;
use spnego_core::AcceptSetup;
use std::marker::Brand;
use std::sync::{Mutex, Wait};
use table_rows::{Cells, Said};
use table_setting::{Files, Setting, present, say_list};

/// Says `step=answer` for each step of a line, the log aside. The first gate is asked the first step, the second the next, and so on.
fn step_in_turn<G: Gate>(
    first: &mut G,
    second: &mut G,
    files: &Files,
    cells: &mut Cells<'_>,
    said: &mut Said,
) {
    let mut lease = None;
    let mut is_first = true;
    for part in cells.rest().unwrap_or("").split(' ') {
        let (step, _answer) = part.split_once('=').unwrap_or((part, ""));
        if step != "log" {
            if is_first {
                say_step(first, &mut lease, files, cells, step, said);
            } else {
                say_step(second, &mut lease, files, cells, step, said);
            }
        }
        is_first = !is_first;
    }
}

/// Says what is written on the connections of a line, the first by the first gate, the next by the second, and so on, and their ends.
fn serve_in_turn<G: Gate>(
    first: &mut G,
    second: &mut G,
    line: Line<'_>,
    cells: &mut Cells<'_>,
    said: &mut Said,
) {
    let mut ends = Said::new(cells.alloc());
    let mut desk = desk_of(cells, line.limits, line.nows);
    let mut is_first = true;
    for input in line.inputs.split('/') {
        if is_first {
            serve(cells, first, &mut desk, input, said, &mut ends);
        } else {
            serve(cells, second, &mut desk, input, said, &mut ends);
        }
        is_first = !is_first;
    }
    said.join(" ");
    say_list(said, &ends);
}

/// Says the rules by which the records of these connections are answered, by the gates in turn.
fn rule_in_turn<G: Gate>(
    first: &mut G,
    second: &mut G,
    line: Line<'_>,
    cells: &mut Cells<'_>,
    said: &mut Said,
) {
    let mut desk = desk_of(cells, line.limits, line.nows);
    let mut is_first = true;
    for input in line.inputs.split('/') {
        if is_first {
            rule(cells, first, &mut desk, input, said);
        } else {
            rule(cells, second, &mut desk, input, said);
        }
        is_first = !is_first;
    }
    said.join(" ");
}

/// Connections over one book: the cells of limits, moments and streams.
#[derive(Clone, Copy)]
struct Line<'a> {
    limits: &'a str,
    nows: &'a str,
    inputs: &'a str,
}

/// What two desks are asked in turn.
#[derive(Clone, Copy)]
enum Asked<'a> {
    /// The steps of a line, whose tokens may be named by these files.
    Steps(&'a Files),
    /// To serve these connections.
    Served(Line<'a>),
    /// The rules by which they answer the records of these connections.
    Ruled(Line<'a>),
    /// To answer a record between the questions of another.
    Held(Held<'a>),
}

/// Says what two gates are asked in turn, and gives them back.
fn ask_in_turn<G: Gate>(
    first: G,
    second: G,
    asked: Asked<'_>,
    cells: &mut Cells<'_>,
    said: &mut Said,
) -> (G, G) {
    let (mut first, mut second) = (first, second);
    match asked {
        Asked::Steps(files) => step_in_turn(&mut first, &mut second, files, cells, said),
        Asked::Served(line) => serve_in_turn(&mut first, &mut second, line, cells, said),
        Asked::Ruled(line) => rule_in_turn(&mut first, &mut second, line, cells, said),
        Asked::Held(held) => return hold(first, second, held, cells, said),
    }
    (first, second)
}

/// The same at two seats of a book, whose log comes back.
fn step_seated<J: Room + Begins<Posts>, R: Wait>(
    rt: &R,
    board: Board<u64>,
    token: Token<u64>,
    setup: &AcceptSetup,
    book: Book,
    program: Posts,
    asked: Asked<'_>,
    cells: &mut Cells<'_>,
    said: &mut Said,
) -> Log
    requires setup { setup.now ≡ J.setup }
    requires both { J.begins record { book = with_setup J.setup book; program = program } }
    requires limits { limits_of book ≡ J.limits }
    requires board { board.shared.table_id ≡ J.table }
    requires words { 0 < board.shared.table_id.words }
    requires token { (token.table_id ≡ board.shared.table_id) × (token.me ≡ (writer 0 [], [])) }
    requires desks { J.desks ≡ 2 }
{
    let (hall, mut writer) = open_hall::<u64, J>(board, token);
    let one = writer.hire(&hall);
    let other = writer.hire(&hall);
    let lock = Mutex::new(Shared::new(book, program, writer));
    let first = Seat::new(rt, &lock, &hall, setup, one, Spelled { by: PostsWords });
    let second = Seat::new(rt, &lock, &hall, setup, other, Spelled { by: PostsWords });
    let (first, second) = ask_in_turn(first, second, asked, cells, said);
    let _one = first.rise();
    let _other = second.rise();
    let (book, _program, _writer) = lock.into_inner().into_parts();
    book.into_log()
}

/// Says what two desks of a book are asked in turn; the log comes back, unless there is no memory for the desks.
fn seated<R: Wait>(
    rt: &R,
    own: OwnSeat,
    asked: Asked<'_>,
    cells: &mut Cells<'_>,
    said: &mut Said,
) -> Option<Log> {
    let (setup, book) = own.into_parts();
    let Ok((board, token)) = open_board(cells.alloc()) else {
        return None;
    };
    Some(step_seated::<Brand, R>(
        rt,
        board,
        token,
        &setup,
        book,
        Posts::new(),
        asked,
        cells,
        said,
    ))
}

/// By the cells of the offer's letters, the limits and the moment of the book's opening, `step=answer` for each step behind them.
pub fn answer<R: Wait>(
    rt: &R,
    setting: &Setting,
    files: &Files,
    cells: &mut Cells<'_>,
    said: &mut Said,
) {
    let alloc = cells.alloc();
    let (letters, limits, start) = (cells.word(), cells.word(), cells.moment());
    let Some(book) = book_of(alloc, setting, letters, limits, start) else {
        return cells.expect(false);
    };
    match seated(rt, book, Asked::Steps(files), cells, said) {
        Some(log) => say_log(alloc, entries::entries_in(&log), said),
        None => said.starve(),
    }
}

/// Says what is asked of two desks of a book that is opened at the present, under the limits of this line.
fn opened<R: Wait>(
    rt: &R,
    setting: &Setting,
    limits: &str,
    asked: Asked<'_>,
    cells: &mut Cells<'_>,
    said: &mut Said,
) -> Option<Log> {
    let book = book_of(cells.alloc(), setting, "ks", limits, present())?;
    seated(rt, book, asked, cells, said)
}

/// By the cells limits, moments and streams, what is written on the connections, each served by the other desk, and their ends, the rules by
/// which two such desks answer their records, and the log.
pub fn answer_connections<R: Wait>(
    rt: &R,
    setting: &Setting,
    cells: &mut Cells<'_>,
    said: &mut Said,
) {
    let (limits, nows, inputs) = (cells.word(), cells.word(), cells.word());
    let line = Line {
        limits,
        nows,
        inputs,
    };
    let served = opened(rt, setting, limits, Asked::Served(line), cells, said);
    let ruled = opened(rt, setting, limits, Asked::Ruled(line), cells, said);
    match served.zip(ruled) {
        Some((log, _ruled)) => {
            entries::logged(cells.alloc(), said, entries::entries_in(&log), " ");
        }
        None => cells.expect(false),
    }
}

/// By the cells limits, moments, the stream of a creation, a record and another that comes between its questions, what the desks say, and the
/// log.
pub fn answer_between<R: Wait>(rt: &R, setting: &Setting, cells: &mut Cells<'_>, said: &mut Said) {
    let (limits, nows, creation) = (cells.word(), cells.word(), cells.word());
    let held = Held {
        limits,
        nows,
        creation,
        first: cells.word(),
        between: cells.word(),
    };
    match opened(rt, setting, limits, Asked::Held(held), cells, said) {
        Some(log) => entries::logged(cells.alloc(), said, entries::entries_in(&log), " "),
        None => cells.expect(false),
    }
}
