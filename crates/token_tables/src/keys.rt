//! n-fold, keys and those derived from them, sealed octets and checksums.

use crate::ciphers::aes_key;
use aes_cts::AesKey;
use krb_derive::{
    CheckKey, Etype, Key, Part, SealKeys, checksum, derive, n_fold, open, seal, verify,
};
use mac_sha1::hi;
use table_rows::{Cells, Said};

/// The type of the next cell's number, where there is one.
pub fn etype(cells: &mut Cells<'_>) -> Option<Etype> {
    match i32::try_from(cells.signed()) {
        Ok(number) => Etype::of(number),
        Err(_) => None,
    }
}

/// The key of the cells type and octets.
pub fn key(cells: &mut Cells<'_>) -> Key {
    let (etype, octets) = (etype(cells), cells.octets());
    let key = match etype {
        Some(etype) => Key::new(etype, octets.as_slice()),
        None => None,
    };
    cells.expect(key.is_some());
    key.unwrap_or(Key::Aes128([0; 16]))
}

/// Says octets folded into others.
fn fold(said: &mut Said, bytes: &[u8], out: &mut [u8]) {
    if !bytes.is_empty() && !out.is_empty() {
        n_fold(bytes, out);
    }
    said.octets(out);
}

/// The cells octets and count: the octets folded to so many.
pub fn folded(cells: &mut Cells<'_>, said: &mut Said) {
    let (bytes, count) = (cells.octets(), cells.number());
    cells.expect(count <= 4096);
    match vec![in cells.alloc(); 0u8; (count % 4097) as usize] {
        Ok(out) => {
            let mut out = out;
            fold(said, bytes.as_slice(), out.as_mut_slice());
        }
        Err(_) => said.starve(),
    }
}

/// Whether Hi of a password begins as these octets, as far as both go.
fn begins_as(password: &[u8], salt: &[u8], rounds: u32, octets: &[u8]) -> bool {
    if rounds == 0 {
        return false;
    }
    let sum = hi(password, salt, rounds);
    let common = octets.len().min(20);
    octets.get(..common) == sum.get(..common)
}

/// Says the key of a password, RFC 3962 section 4: that of the stretched octets, as a key of AES, for the constant `kerberos`.
fn password_key(said: &mut Said, key: &AesKey, is_short: bool) {
    let mut block = [0u8; 16];
    n_fold(b"kerberos", &mut block);
    let first = key.block(&block);
    said.octets(&first);
    if !is_short {
        said.join("");
        said.octets(&key.block(&first));
    }
}

/// The cells password, salt, rounds and stretched octets: the key, where Hi is their front.
pub fn of_password(cells: &mut Cells<'_>, said: &mut Said) {
    let (password, salt, rounds) = (cells.octets(), cells.octets(), cells.word_number());
    let part = cells.word();
    let stretched = cells.octets_in(part);
    let (password, salt) = (password.as_slice(), salt.as_slice());
    if !begins_as(password, salt, rounds, stretched.as_slice()) {
        said.word("stretched otherwise");
    }
    password_key(said, &aes_key(cells, part), part.len() == 32);
}

/// The cells type and octets: the key with its type's number, or that there is no such type or key.
pub fn made(cells: &mut Cells<'_>, said: &mut Said) {
    let (etype, octets) = (etype(cells), cells.octets());
    match etype {
        Some(etype) => match Key::new(etype, octets.as_slice()) {
            Some(key) => {
                said.signed(i64::from(key.etype().number()));
                said.join(":");
                said.octets(key.bytes());
            }
            None => said.word("no key"),
        },
        None => said.word("no type"),
    }
}

/// The next cell's part.
fn part(cells: &mut Cells<'_>) -> Part {
    match cells.word() {
        "Encrypt" => Part::Encrypt,
        "Integrity" => Part::Integrity,
        word => {
            cells.expect(word == "Check");
            Part::Check
        }
    }
}

/// The cells of a key, usage and part: the derived key.
pub fn derived(cells: &mut Cells<'_>, said: &mut Said) {
    let (key, usage, part) = (key(cells), cells.word_number(), part(cells));
    said.octets(derive(&key, usage, part).bytes());
}

/// Whether kept keys open sealed octets to these.
fn opens_to(said: &Said, key: &Key, usage: u32, sealed: &[u8], plain: &[u8]) -> bool {
    match SealKeys::of(key, usage).open(said.alloc(), sealed) {
        Ok(opened) => opened.as_slice() == plain,
        Err(_) => false,
    }
}

/// The cells of a key, usage, confounder and octets: what they are sealed to, which kept keys open to them again.
pub fn sealed(cells: &mut Cells<'_>, said: &mut Said) {
    let (key, usage) = (key(cells), cells.word_number());
    let confounder: [u8; 16] = cells.exactly();
    let plain = cells.octets();
    match seal(cells.alloc(), &key, usage, &confounder, plain.as_slice()) {
        Ok(made) => {
            if !opens_to(said, &key, usage, made.as_slice(), plain.as_slice()) {
                said.word("opens to other octets");
            }
            said.octets(made.as_slice());
        }
        Err(_) => said.starve(),
    }
}

/// The cells of a key, usage and sealed octets: what they open to, or the refusal.
pub fn opened(cells: &mut Cells<'_>, said: &mut Said) {
    let (key, usage, sealed) = (key(cells), cells.word_number(), cells.octets());
    match open(cells.alloc(), &key, usage, sealed.as_slice()) {
        Ok(plain) => {
            said.word("Ok");
            said.octets(plain.as_slice());
        }
        Err(refusal) => said.form(&refusal),
    }
}

/// Whether a checksum is taken whole and not without its last octet, by kept keys too.
fn is_taken(key: &Key, usage: u32, first: &[u8], second: &[u8], tag: &[u8; 12]) -> bool {
    let kept = CheckKey::of(key, usage);
    let front = &tag[..11];
    kept.checksum(first, second) == *tag
        && kept.verify(first, second, tag)
        && verify(key, usage, first, second, tag)
        && !kept.verify(first, second, front)
        && !verify(key, usage, first, second, front)
}

/// The cells of a key, usage and two pieces: the checksum of both in a row, which is taken.
pub fn checked(cells: &mut Cells<'_>, said: &mut Said) {
    let (key, usage, first, second) = (
        key(cells),
        cells.word_number(),
        cells.octets(),
        cells.octets(),
    );
    let (first, second) = (first.as_slice(), second.as_slice());
    let tag = checksum(&key, usage, first, second);
    if !is_taken(&key, usage, first, second, &tag) {
        said.word("isn't taken");
    }
    said.octets(&tag);
}
