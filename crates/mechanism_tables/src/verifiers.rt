//! Verifier files that are read, and lines that are made.

ghost use Rattle.std.specs.Prelude.{◌≤◌, length};

use scram_mech::{ScramAccept, VerifierRefusal, Verifiers, make_verifier, read_verifiers};
use std::alloc::Global;
use table_rows::{Cells, Said};
use table_setting::saying;

/// The acceptor's random octets: 18 of 00.
const NONCE: [u8; 18] = [0; 18];

/// Says the text that an acceptor with these verifiers answers to a token.
fn answer(alloc: Global, said: &mut Said, verifiers: &Verifiers, token: &[u8]) {
    match ScramAccept::start(alloc, verifiers, token, &NONCE) {
        Err(refusal) => saying::scram(said, refusal),
        Ok((_end, second)) => said.octets(second.as_slice()),
    }
}

/// Says what is answered to the token of a part.
fn answer_to(cells: &mut Cells<'_>, said: &mut Said, verifiers: &Verifiers, part: &str) {
    let mut one = Cells::new(cells.alloc(), part, ' ');
    let token = one.octets();
    cells.expect(one.are_well());
    answer(cells.alloc(), said, verifiers, token.as_slice());
}

/// Says `Ok` and the answers to the tokens of a cell.
fn answers(cells: &mut Cells<'_>, said: &mut Said, verifiers: &Verifiers, tokens: &str) {
    said.word("Ok");
    said.join(":");
    for part in tokens.split(',') {
        answer_to(cells, said, verifiers, part);
        said.join(",");
    }
}

/// Says a name and the number of a line.
fn placed(said: &mut Said, name: &str, number: usize) {
    said.word(name);
    said.join(":");
    said.number(number as u64);
}

/// What is read of a file, by the cells file and first tokens: what is answered to each of these, or the refusal.
pub fn read(cells: &mut Cells<'_>, said: &mut Said) {
    let file = cells.octets();
    let tokens = cells.word();
    match read_verifiers(cells.alloc(), file.as_slice()) {
        Ok(verifiers) => answers(cells, said, &verifiers, tokens),
        Err(VerifierRefusal::Line { number }) => placed(said, "Line", number),
        Err(VerifierRefusal::Twice { number }) => placed(said, "Twice", number),
        Err(VerifierRefusal::NoMemory) => said.starve(),
    }
}

/// The line that is made, by the cells user, password, salt and rounds, or the refusal.
pub fn made(cells: &mut Cells<'_>, said: &mut Said) {
    let (user, password) = (cells.text(), cells.text());
    let salt = cells.octets();
    let rounds = cells.word_number();
    if salt.is_empty() || salt.len() > 64 {
        cells.expect(false);
    } else {
        let (user, password, salt) = (user.as_str(), password.as_str(), salt.as_slice());
        make(cells.alloc(), said, user, password, salt, rounds);
    }
}

/// Says the line of a user, or the refusal.
fn make(alloc: Global, said: &mut Said, user: &str, password: &str, salt: &[u8], rounds: u32)
    requires some { 1 ≤ length salt.now }
    requires few { length salt.now ≤ 64 }
{
    match make_verifier(alloc, user, password, salt, rounds) {
        Err(refusal) => saying::scram(said, refusal),
        Ok(line) => {
            said.word("Ok");
            said.join(":");
            said.octets(line.as_slice());
        }
    }
}
