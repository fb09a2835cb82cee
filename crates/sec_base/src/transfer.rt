//! Whole buffers through a link, however its reads and writes cut them.

ghost use Rattle.std.specs.Prelude.{◌≡◌, ◌+◌, ◌-◌, ◌^◌, ◌<◌, ◌≤◌, true, false, length, take};
ghost use Rattle.std.specs.Prelude.{vec_len, Ok, IfOk, OnOk, OnErr, IsErrOf};
ghost use Rattle.sec_base.specs.Answers.{Rose};
ghost use Rattle.sec_base.specs.Contents.{TakesContent, TakesPiece};
ghost use Rattle.sec_base.specs.Streams.{Fills, Sends};

use crate::link::{Link, LinkFault};

/// The octets of the first piece that is read. A later piece has as many as there are already, where these are more.
const PIECE: usize = 8192;

/// Why octets that were announced were not read.
#[derive(Clone, Copy, Debug, PartialEq, Eq)]
pub enum ContentRefusal {
    /// The link failed, and its count of faults rose.
    LinkFault,
    /// There was no memory for them.
    NoMemory,
}

/// Fills `buf`, or its front with all octets up to the end of input. Answers how many octets that are.
pub fn fill<L: Link>(link: &mut L, buf: &mut [u8]) -> Result<usize, LinkFault>
    requires { L.closed link.old ≡ false }
    ensures count { IfOk result (λ count. count ≤ length buf.old) }
    ensures told { Fills (L.tells link.old) (L.wire link.old) (L.wire link.new) result buf.new }
    ensures tells { L.tells link.new ≡ L.tells link.old }
    ensures unclosed { L.closed link.new ≡ false }
    ensures fault { OnErr result (Rose (L.faults link.old) (L.faults link.new)) }
    ensures steady { OnOk result (L.faults link.new ≡ L.faults link.old) }
    ensures faults { L.faults link.old ≤ L.faults link.new }
{
    let mut at = 0;
    while at < buf.len() {
        match link.read(&mut buf[at..]) {
            Ok(0) => return Ok(at),
            Ok(count) => at += count,
            Err(fault) => return Err(fault),
        }
    }
    Ok(at)
}

/// Writes all of `octets`.
pub fn send<L: Link>(link: &mut L, octets: &[u8]) -> Result<(), LinkFault>
    requires { L.closed link.old ≡ false }
    ensures told { Sends (L.tells link.old) (L.wire link.old) (L.wire link.new) result octets.now }
    ensures tells { L.tells link.new ≡ L.tells link.old }
    ensures unclosed { L.closed link.new ≡ false }
    ensures fault { OnErr result (Rose (L.faults link.old) (L.faults link.new)) }
    ensures steady { OnOk result (L.faults link.new ≡ L.faults link.old) }
    ensures faults { L.faults link.old ≤ L.faults link.new }
{
    let mut at = 0;
    while at < octets.len() {
        match link.write(&octets[at..]) {
            Ok(count) => at += count,
            Err(fault) => return Err(fault),
        }
    }
    Ok(())
}

/// Reads so many octets behind those that are there; false where the input ended before. Memory is taken for octets that were read and
/// for the next piece, and not for all that are to come.
pub fn read_content<L: Link>(
    link: &mut L,
    octets: &mut Vec<u8>,
    length: usize,
) -> Result<bool, ContentRefusal>
    requires unclosed { L.closed link.old ≡ false }
    requires room { vec_len octets.old + length < 2 ^ 63 }
    ensures told { TakesContent (L.tells link.old) (L.wire link.old) (L.wire link.new)
        octets.old.items octets.new.items length result }
    ensures size { result ≡ Ok true → vec_len octets.new ≡ vec_len octets.old + length }
    ensures tells { L.tells link.new ≡ L.tells link.old }
    ensures unclosed { L.closed link.new ≡ false }
    ensures fault { IsErrOf result ContentRefusal.LinkFault
        → Rose (L.faults link.old) (L.faults link.new) }
    ensures steady { (IsErrOf result ContentRefusal.LinkFault → ⊥)
        → L.faults link.new ≡ L.faults link.old }
    ensures faults { L.faults link.old ≤ L.faults link.new }
{
    let mut left = length;
    while left > 0 {
        let part = left.min(octets.len().max(PIECE));
        match read_piece(link, octets, part) {
            Ok(count) if count < part => return Ok(false),
            Ok(_) => left -= part,
            Err(refusal) => return Err(refusal),
        }
    }
    Ok(true)
}

/// Reads at most so many octets behind those that are there, to where they stay, fewer only where the input ends.
fn read_piece<L: Link>(
    link: &mut L,
    octets: &mut Vec<u8>,
    length: usize,
) -> Result<usize, ContentRefusal>
    requires unclosed { L.closed link.old ≡ false }
    requires room { vec_len octets.old + length < 2 ^ 63 }
    ensures told { TakesPiece (L.tells link.old) (L.wire link.old) (L.wire link.new)
        octets.old.items octets.new.items length result }
    ensures size { IfOk result
        (λ count. (count ≤ length) × (vec_len octets.new ≡ vec_len octets.old + count)) }
    ensures tells { L.tells link.new ≡ L.tells link.old }
    ensures unclosed { L.closed link.new ≡ false }
    ensures fault { IsErrOf result ContentRefusal.LinkFault
        → Rose (L.faults link.old) (L.faults link.new) }
    ensures steady { (IsErrOf result ContentRefusal.LinkFault → ⊥)
        → L.faults link.new ≡ L.faults link.old }
    ensures faults { L.faults link.old ≤ L.faults link.new }
{
    let at = octets.len();
    match octets.resize(at + length, 0) {
        Ok(()) => fill_from(link, octets, at),
        Err(_) => Err(ContentRefusal::NoMemory),
    }
}

/// Reads octets in place of those from `at` on, of which those go for which the input has none.
fn fill_from<L: Link>(
    link: &mut L,
    octets: &mut Vec<u8>,
    at: usize,
) -> Result<usize, ContentRefusal>
    requires unclosed { L.closed link.old ≡ false }
    requires within { at ≤ vec_len octets.old }
    ensures told { TakesPiece (L.tells link.old) (L.wire link.old) (L.wire link.new)
        (take at octets.old.items) octets.new.items (vec_len octets.old - at) result }
    ensures size { IfOk result
        (λ count. (at + count ≤ vec_len octets.old) × (vec_len octets.new ≡ at + count)) }
    ensures tells { L.tells link.new ≡ L.tells link.old }
    ensures unclosed { L.closed link.new ≡ false }
    ensures fault { IsErrOf result ContentRefusal.LinkFault
        → Rose (L.faults link.old) (L.faults link.new) }
    ensures steady { (IsErrOf result ContentRefusal.LinkFault → ⊥)
        → L.faults link.new ≡ L.faults link.old }
    ensures faults { L.faults link.old ≤ L.faults link.new }
{
    match fill(link, &mut octets[at..]) {
        Ok(count) => {
            octets.truncate(at + count);
            Ok(count)
        }
        Err(LinkFault) => Err(ContentRefusal::LinkFault),
    }
}
