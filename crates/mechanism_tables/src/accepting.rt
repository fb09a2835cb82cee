//! An acceptor's end and the tokens that come to it.

use sec_base::Moment;
use spnego_core::{AcceptEnd, AcceptSetup, AcceptStep, Outcome};
use table_rows::{Cells, Said};
use table_setting::{Setting, draws, saying};

/// The octets of the token in `token=verdict`.
pub fn token(cells: &mut Cells<'_>, part: &str) -> Vec<u8> {
    let mut halves = Cells::new(cells.alloc(), part, '=');
    let token = halves.octets();
    cells.expect(halves.are_well() && halves.rest().is_some());
    token
}

/// Says that another token is due behind this one.
pub fn say_more(said: &mut Said, token: &[u8]) {
    said.word("More");
    said.join(":");
    said.octets(token);
}

/// Says that the context stands, behind this token.
fn say_done(said: &mut Said, outcome: &Outcome, token: &[u8]) {
    said.word("Done");
    said.join(":");
    said.octets(token);
    said.join(":");
    saying::outcome(said, outcome);
}

/// Says what a step says that asks nothing, and gives the end that it leaves.
fn settled(said: &mut Said, step: AcceptStep) -> Option<AcceptEnd> {
    match step {
        AcceptStep::More(end, token) => {
            say_more(said, token.as_slice());
            Some(end)
        }
        AcceptStep::Done(outcome, _ends, token) => {
            say_done(said, &outcome, token.as_slice());
            None
        }
        AcceptStep::WantsAuth(pause) => {
            drop(pause);
            None
        }
    }
}

/// Says what a step says, and gives the end that it leaves. Where it asks whether the request was taken before, it goes on.
fn shown(said: &mut Said, step: AcceptStep) -> Option<AcceptEnd> {
    match step {
        AcceptStep::WantsAuth(pause) => {
            said.word("Auth+");
            said.join("");
            settled(said, pause.go_on())
        }
        step => settled(said, step),
    }
}

/// Says what an end says to a token at this moment, and gives the end that it leaves.
fn taken(
    cells: &mut Cells<'_>,
    said: &mut Said,
    setup: &AcceptSetup,
    end: AcceptEnd,
    token: &[u8],
    now: Moment,
) -> Option<AcceptEnd> {
    match end.step(cells.alloc(), setup, token, now, &draws()) {
        Ok(step) => shown(said, step),
        Err(refusal) => {
            saying::refusal(said, refusal);
            None
        }
    }
}

/// Says `token=verdict` for a token to this end, and gives the end that it leaves. To an end that is spent nothing more is said.
fn stepped(
    cells: &mut Cells<'_>,
    said: &mut Said,
    setup: &AcceptSetup,
    end: Option<AcceptEnd>,
    part: &str,
    now: Moment,
) -> Option<AcceptEnd> {
    let token = token(cells, part);
    match end {
        None => None,
        Some(end) => {
            said.octets(token.as_slice());
            said.join("=");
            taken(cells, said, setup, end, token.as_slice(), now)
        }
    }
}

/// Says `token=verdict` for each of the tokens that are left of a row.
pub fn talk(cells: &mut Cells<'_>, said: &mut Said, setup: &AcceptSetup, now: Moment) {
    let mut next = Some(AcceptEnd::new());
    for part in cells.rest().unwrap_or("").split(' ') {
        next = stepped(cells, said, setup, next, part, now);
    }
    drop(next);
}

/// What the setting's acceptor says to each token of a row, which begins with the letters of the offer.
pub fn answer(setting: &Setting, cells: &mut Cells<'_>, said: &mut Said) {
    let letters = cells.word();
    let now = Moment::new(1_000_000, 0).unwrap_or(Moment::start());
    match setting.acceptor(cells.alloc(), letters) {
        Some(setup) => {
            talk(cells, said, &setup, now);
            drop(setup);
        }
        None => cells.expect(false),
    }
}
