//! The file of verifiers: a line `name:rounds:salt:stored:server` for each user.

ghost use Rattle.std.specs.Prelude.{◌≡◌, ◌≤◌, ◌<◌, ◌^◌, ◌++◌, ◌∷◌, [], length, IfOk, OnOk};
ghost use Rattle.std.specs.Prelude.{option_copied, Option};
ghost use Rattle.sec_base.specs.Answers.{Gives};
ghost use Rattle.scram_mech.specs.declared.refusal.ScramRefusal.TheVariants as refusals;
ghost use Rattle.scram_mech.specs.declared.refusal.VerifierRefusal.TheVariants as verifier_refusals;
ghost use Rattle.scram_mech.specs.Base64.{InRange, decoded};
ghost use Rattle.scram_mech.specs.Digits.{number_of};
ghost use Rattle.scram_mech.specs.Reading.{Reads, MayRead};
ghost use Rattle.scram_mech.specs.Formats.{steps};
ghost use Rattle.scram_mech.specs.UserPlaces.{AreFound};
ghost use Rattle.scram_mech.specs.VerifierFile.{AreLines};
ghost use Rattle.scram_mech.specs.Verifiers.{line_format, line_at, lines_at, line_for, once};
ghost use Rattle.scram_mech.specs.Verifiers.{verifiers_of, line_text, made_line};

use crate::cursor::Cursor;
use crate::digits::Decimal;
use crate::encoding::{Encoded, put_encoded};
use crate::judging::{are_rounds, judge};
use crate::refusal::{ScramRefusal, Stuck, VerifierRefusal};
use crate::run::Class;
use crate::second_text::put_decimal;
use crate::secrets::{Secrets, twenty};
use crate::texts::put;
use crate::user_places::Places;
use gss_base::Label;
use sec_base::{NoMemory, Octets};
use std::alloc::Global;
use std::marker::Model;

/// The octets of a stored key and of a server key.
const KEY: u16 = 20;

/// What an acceptor knows of a user.
#[derive(Drop)]
pub struct Verifier {
    pub name: Label,
    pub rounds: u32,
    pub salt: Octets,
    pub stored: [u8; 20],
    pub server: [u8; 20],
}

impl Verifier {
    /// A copy of it.
    pub fn copied(&self, alloc: Global) -> Result<Verifier, NoMemory>
        ensures { IfOk result (λ v. v ≡ self.now) }
    {
        let stored = self.stored;
        let server = self.server;
        Ok(Verifier {
            name: self.name,
            rounds: self.rounds,
            salt: Octets::of(alloc, self.salt.as_slice())?,
            stored,
            server,
        })
    }
}

/// The verifiers of users, no name twice. Contracts see the list of their lines, each of which is one that a file may have.
#[derive(Drop)]
pub struct Verifiers {
    lines: Vec<Verifier>,
    places: Places,
}

impl Model for Verifiers {
    ghost use Rattle.std.specs.Prelude.{List};
    ghost use Rattle.scram_mech.specs.declared.verifiers.Verifier.{Verifier};
    ghost use Rattle.scram_mech.specs.UserPlaces.{AreKept};

    ghost Value = { List Verifier };

    ghost view = { λ v. v.lines.items };

    ghost invariant = { λ v. AreKept v.lines.items v.places };
}

/// The values of a line, as they stand there.
#[derive(Clone, Copy)]
struct LineText<'a> {
    name: Label,
    rounds: Decimal<'a>,
    salt: Encoded<'a>,
    stored: Encoded<'a>,
    server: Encoded<'a>,
}

#[tactic(auto, unfolding(crate::specs::Formats::steps, crate::specs::Verifiers::line_format))]
fn parts_of<'a>(cursor: &mut Cursor<'a>) -> Result<LineText<'a>, Stuck>
    ensures read { Reads (λ t. t.name ∷ t.rounds.digits.now ∷ t.salt.signs.now ∷ t.stored.signs.now
        ∷ t.server.signs.now ∷ []) cursor.new result (steps line_format cursor.old) }
    ensures stored { IfOk result (λ t. InRange 20 20 (decoded t.stored.signs.now)) }
    ensures server { IfOk result (λ t. InRange 20 20 (decoded t.server.signs.now)) }
{
    let name = cursor.line_name()?;
    let rounds = cursor.number_behind(b":")?;
    let salt = cursor.base64_behind(b":", 1, 64)?;
    let stored = cursor.base64_behind(b":", KEY, KEY)?;
    let server = cursor.base64_behind(b":", KEY, KEY)?;
    cursor.word(b"\n")?;
    Ok(LineText {
        name,
        rounds,
        salt,
        stored,
        server,
    })
}

/// The line of this number, which stands at the front.
#[tactic(auto, using(crate::proofs::SteppedTexts::steps_pieces), unfolding(crate::specs::Verifiers::line_at))]
fn read_line(alloc: Global, cursor: &mut Cursor, number: usize) -> Result<Verifier, VerifierRefusal>
    ensures read { MayRead verifier_refusals.NoMemory (λ v. v) cursor.new result
        (line_at number cursor.old) }
{
    let Ok(line) = parts_of(cursor) else {
        return Err(VerifierRefusal::Line { number });
    };
    let rounds = line.rounds.number();
    if !are_rounds(rounds) {
        return Err(VerifierRefusal::Line { number });
    }
    let stored = line.stored.decode(alloc)?;
    let server = line.server.decode(alloc)?;
    Ok(Verifier {
        name: line.name,
        rounds: rounds as u32,
        salt: line.salt.decode(alloc)?,
        stored: twenty(stored.as_slice()),
        server: twenty(server.as_slice()),
    })
}

/// All lines of a file.
fn read_lines(alloc: Global, bytes: &[u8]) -> Result<Vec<Verifier>, VerifierRefusal>
    ensures { Gives verifier_refusals.NoMemory (λ v. v.items) result
        (lines_at (length bytes.now) 1 bytes.now) }
{
    let mut cursor = Cursor::new(bytes);
    let mut lines = Vec::new(alloc);
    for count in 0..bytes.len() {
        if cursor.left() == 0 {
            return Ok(lines);
        }
        let line = read_line(alloc, &mut cursor, count + 1)?;
        lines.push(line)?;
    }
    Ok(lines)
}

/// The places of lines by their names; refuses the first line whose name stands in a line before it.
#[tactic(auto, unfolding(crate::specs::Verifiers::once))]
fn places_of(alloc: Global, lines: &[Verifier]) -> Result<Places, VerifierRefusal>
    ensures once { Gives verifier_refusals.NoMemory (λ _. tt) result (once [] 1 lines.now) }
    ensures found { IfOk result (λ places. AreFound places lines.now) }
{
    let mut places = Places::none(alloc);
    for (count, line) in lines.iter().enumerate() {
        let name = line.name.text().as_bytes();
        if places.find(name).is_some() {
            return Err(VerifierRefusal::Twice { number: count + 1 });
        }
        places.put(alloc, name, count)?;
    }
    Ok(places)
}

/// The verifiers in a file: lines `name:rounds:salt:stored:server`, each ended by a line feed. A name is 1 to 255 octets of printable
/// ASCII without a colon; rounds are decimal, from 4,096 to 200,000; the rest is base64, of 1 to 64 octets and of 20 each.
#[tactic(auto, unfolding(crate::specs::Verifiers::verifiers_of))]
pub fn read_verifiers(alloc: Global, bytes: &[u8]) -> Result<Verifiers, VerifierRefusal>
    ensures { Gives verifier_refusals.NoMemory (λ v. v) result (verifiers_of bytes.now) }
{
    let lines = read_lines(alloc, bytes)?;
    let places = places_of(alloc, lines.as_slice())?;
    Ok(Verifiers { lines, places })
}

impl Verifiers {
    /// The first line of a name.
    pub(crate) fn find(&self, name: &[u8]) -> Option<&Verifier>
        ensures { option_copied result ≡ line_for self.now name.now }
    {
        match self.places.find(name) {
            Some(place) => self.lines.get(place),
            None => None,
        }
    }

    /// Does nothing: its contract says what the lines are.
    pub fn told_lines(&self)
        ensures { AreLines self.now }
    {
        let _lines = &self.lines;
    }
}

/// The line of a user in a verifier file.
#[tactic(auto, unfolding(crate::specs::Verifiers::line_text))]
fn write_line(
    alloc: Global,
    user: &[u8],
    salt: &[u8],
    rounds: u32,
    secrets: &Secrets,
) -> Result<Octets, NoMemory>
    ensures { IfOk result (λ o. o ≡ line_text (record {
      name = user.now;
      rounds = rounds;
      salt =
          salt.now;
      stored = secrets.now.stored;
      server = secrets.now.server;
    })) }
{
    let mut line = Vec::new(alloc);
    put(&mut line, user)?;
    put(&mut line, b":")?;
    put_decimal(alloc, &mut line, rounds)?;
    put(&mut line, b":")?;
    put_encoded(alloc, &mut line, salt)?;
    put(&mut line, b":")?;
    put_encoded(alloc, &mut line, &secrets.stored)?;
    put(&mut line, b":")?;
    put_encoded(alloc, &mut line, &secrets.server)?;
    put(&mut line, b"\n")?;
    Ok(Octets::from_vec(line))
}

/// The line of a user with a password, to be put into a verifier file. A user has 1 to 255 octets of printable ASCII without a colon, a
/// password 1 to 1,024 of printable ASCII; where one isn't so, the place is its first octet that can't stand there.
#[tactic(auto, unfolding(crate::specs::Verifiers::made_line))]
pub fn make_verifier(
    alloc: Global,
    user: &str,
    password: &str,
    salt: &[u8],
    rounds: u32,
) -> Result<Octets, ScramRefusal>
    requires some { 1 ≤ length salt.now }
    requires few { length salt.now ≤ 64 }
    ensures { Gives refusals.NoMemory (λ o. o) result
        (made_line user.now password.now salt.now rounds) }
{
    judge(user.as_bytes(), Class::LineName, 255)?;
    judge(password.as_bytes(), Class::Printable, 1_024)?;
    if !are_rounds(rounds as u64) {
        return Err(ScramRefusal::Rounds);
    }
    let secrets = Secrets::of(password.as_bytes(), salt, rounds);
    let line = write_line(alloc, user.as_bytes(), salt, rounds, &secrets)?;
    Ok(line)
}
