//! AES, ciphertext stealing, SHA-1 in four lanes, HMAC and Hi.

use aes_cts::AesKey;
use lanes_sha1::digest4;
use mac_sha1::{Hmac, hi};
use table_rows::{Cells, Said};

/// The AES key of a part of 16 octets, or else of 32.
pub fn aes_key(cells: &mut Cells<'_>, part: &str) -> AesKey {
    let mut part_cells = Cells::new(cells.alloc(), part, ' ');
    if part.len() == 32 {
        let key = part_cells.exactly();
        cells.expect(part_cells.are_well());
        return AesKey::new128(&key);
    }
    let key = part_cells.exactly();
    cells.expect(part_cells.are_well());
    AesKey::new256(&key)
}

/// The AES key of the next cell.
fn next_key(cells: &mut Cells<'_>) -> AesKey {
    let part = cells.word();
    aes_key(cells, part)
}

/// The cells key and block: the cipher of the block, which deciphers to the block again.
pub fn block(cells: &mut Cells<'_>, said: &mut Said) {
    let key = next_key(cells);
    let block: [u8; 16] = cells.exactly();
    let made = key.block(&block);
    if key.unblock(&made) != block {
        said.word("deciphers to another block");
    }
    said.octets(&made);
}

/// Says what octets are enciphered to with ciphertext stealing, which deciphers to them again.
fn steal(said: &mut Said, key: &AesKey, bytes: &mut [u8], plain: &[u8]) {
    if bytes.len() < 16 {
        return;
    }
    key.cts_encrypt(bytes);
    said.octets(bytes);
    if bytes.len() < 16 {
        return;
    }
    key.cts_decrypt(bytes);
    if *bytes != *plain {
        said.word("deciphers to other octets");
    }
}

/// The cells key and octets: what they are enciphered to with ciphertext stealing.
pub fn stolen(cells: &mut Cells<'_>, said: &mut Said) {
    let key = next_key(cells);
    let plain = cells.octets();
    match Vec::from_slice(cells.alloc(), plain.as_slice()) {
        Ok(bytes) => {
            let mut bytes = bytes;
            steal(said, &key, bytes.as_mut_slice(), plain.as_slice());
        }
        Err(_) => said.starve(),
    }
}

/// The cells key and message: the code of the message, which is taken in two pieces.
pub fn code(cells: &mut Cells<'_>, said: &mut Said) {
    let (key, message) = (cells.octets(), cells.octets());
    let (front, back) = message.as_slice().split_at(message.len() / 2);
    let mut state = Hmac::new(key.as_slice());
    state.update(front);
    state.update(back);
    said.octets(&state.finish());
}

/// The cells password, salt and rounds: Hi of them.
pub fn sum(cells: &mut Cells<'_>, said: &mut Said) {
    let (password, salt, rounds) = (cells.octets(), cells.octets(), cells.word_number());
    if rounds == 0 {
        cells.expect(false);
    } else {
        said.octets(&hi(password.as_slice(), salt.as_slice(), rounds));
    }
}

/// The cells of four messages: the digest of each, made side by side.
pub fn digests(cells: &mut Cells<'_>, said: &mut Said) {
    let messages = [
        cells.octets(),
        cells.octets(),
        cells.octets(),
        cells.octets(),
    ];
    let [first, second, third, fourth] = &messages;
    let digests = digest4(&[
        first.as_slice(),
        second.as_slice(),
        third.as_slice(),
        fourth.as_slice(),
    ]);
    for digest in digests {
        said.octets(&digest);
    }
    drop(messages);
}
