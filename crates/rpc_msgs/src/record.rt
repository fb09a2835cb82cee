//! Records of a stream, RFC 5531 section 11.

ghost use Rattle.std.specs.Prelude.{◌≡◌, ◌+◌, ◌-◌, ◌^◌, ◌<◌, ◌≤◌, true, false, length, take};
ghost use Rattle.std.specs.Prelude.{vec_len, IsTrue, Ok, OnOk, IfOk, OnErr, IsErrOf};
ghost use Rattle.sec_base.specs.Answers.{Rose};
ghost use Rattle.rpc_msgs.specs.Fragments.{TakesFragment, TakesHeader, TakesAnnounced, Allows};
ghost use Rattle.rpc_msgs.specs.Reading.{Finds, first_record};
ghost use Rattle.rpc_msgs.specs.Records.{TakesRecord, last_fragment};
ghost use Rattle.sec_base.specs.Streams.{Sends};
ghost use Rattle.rpc_msgs.specs.Words.{word};

use crate::xdr_reader::word_of;
use sec_base::transfer::{ContentRefusal, fill, read_content, send};
use sec_base::{Link, LinkFault, Octets};
use std::alloc::Global;

/// The octets that a record may have.
const LIMIT: usize = 131_072;

/// The fragments that a record may have.
const FRAGMENTS: u32 = 64;

/// The top bit of a fragment's header, which marks the last one.
const LAST: u32 = 0x8000_0000;

/// The buffer in which a short record is framed, which is filled with zeros first.
const SMALL_FRAME: usize = 256;

/// The buffer in which one that is a little longer is framed.
const FRAME: usize = 8192;

/// A record of so few octets is framed in the smaller buffer.
const SMALL_RECORD: usize = SMALL_FRAME - 4;

/// A record of at most so many octets is written at once, with its header.
const FRAMED_RECORD: usize = FRAME - 4;

/// Why no record was read.
#[derive(Clone, Copy, Debug, PartialEq, Eq)]
pub enum RecordRefusal {
    /// The link failed, and its count of faults rose.
    LinkFault,
    /// The lengths that the record's fragments announce sum past 131,072.
    TooLong,
    /// The record has a 65th fragment.
    TooManyFragments,
    /// The stream ended inside a record.
    Torn,
    /// There was no memory for the record's octets.
    NoMemory,
}

/// A fragment that was read.
enum Fragment {
    /// Further fragments of the record follow.
    More,
    /// It was the last one of the record.
    Last,
    /// There was none: the stream ended before the record.
    End,
}

/// The next record of the stream; None where the stream ended before its first octet. Memory is taken for octets that were read and for
/// the next piece, and not for all that a header announces.
pub fn next_record<L: Link>(alloc: Global, link: &mut L) -> Result<Option<Octets>, RecordRefusal>
    requires { L.closed link.old ≡ false }
    ensures told { TakesRecord (L.tells link.old) (L.wire link.old) (L.wire link.new) result }
    ensures reading { IsTrue (L.tells link.old)
        → Finds (first_record (L.wire link.old).coming) result (L.wire link.new).coming }
    ensures tells { L.tells link.new ≡ L.tells link.old }
    ensures unclosed { L.closed link.new ≡ false }
    ensures fault { IsErrOf result RecordRefusal.LinkFault
        → Rose (L.faults link.old) (L.faults link.new) }
    ensures steady { (IsErrOf result RecordRefusal.LinkFault → ⊥)
        → L.faults link.new ≡ L.faults link.old }
    ensures faults { L.faults link.old ≤ L.faults link.new }
{
    read_record(alloc, link)
}

/// The same, of which it isn't shown yet that the stream has no other reading.
fn read_record<L: Link>(alloc: Global, link: &mut L) -> Result<Option<Octets>, RecordRefusal>
    requires { L.closed link.old ≡ false }
    ensures told { TakesRecord (L.tells link.old) (L.wire link.old) (L.wire link.new) result }
    ensures tells { L.tells link.new ≡ L.tells link.old }
    ensures unclosed { L.closed link.new ≡ false }
    ensures fault { IsErrOf result RecordRefusal.LinkFault
        → Rose (L.faults link.old) (L.faults link.new) }
    ensures steady { (IsErrOf result RecordRefusal.LinkFault → ⊥)
        → L.faults link.new ≡ L.faults link.old }
    ensures faults { L.faults link.old ≤ L.faults link.new }
{
    let mut octets = Vec::new(alloc);
    for number in 0..FRAGMENTS + 1 {
        match read_fragment(link, &mut octets, number) {
            Ok(Fragment::More) => {}
            Ok(Fragment::Last) => return Ok(Some(Octets::from_vec(octets))),
            Ok(Fragment::End) => return Ok(None),
            Err(refusal) => return Err(refusal),
        }
    }
    unreachable!()
}

/// Reads the fragment of this number, counted from 0, behind the octets of those before it.
fn read_fragment<L: Link>(
    link: &mut L,
    octets: &mut Vec<u8>,
    number: u32,
) -> Result<Fragment, RecordRefusal>
    requires unclosed { L.closed link.old ≡ false }
    requires size { vec_len octets.old ≤ 131072 }
    requires most { number ≤ 64 }
    ensures told { TakesFragment (L.tells link.old) (L.wire link.old) (L.wire link.new)
        octets.old.items octets.new.items number result }
    ensures size { OnOk result (vec_len octets.new ≤ 131072) }
    ensures more { result ≡ Ok Fragment.More → number < 64 }
    ensures last { result ≡ Ok Fragment.Last → number < 64 }
    ensures tells { L.tells link.new ≡ L.tells link.old }
    ensures unclosed { L.closed link.new ≡ false }
    ensures fault { IsErrOf result RecordRefusal.LinkFault
        → Rose (L.faults link.old) (L.faults link.new) }
    ensures steady { (IsErrOf result RecordRefusal.LinkFault → ⊥)
        → L.faults link.new ≡ L.faults link.old }
    ensures faults { L.faults link.old ≤ L.faults link.new }
{
    match read_header(link, number) {
        Ok(Some(header)) => read_announced(link, octets, number, header),
        Ok(None) => Ok(Fragment::End),
        Err(refusal) => Err(refusal),
    }
}

/// Reads the header of the fragment of this number; None where the stream ends before the first one.
fn read_header<L: Link>(link: &mut L, number: u32) -> Result<Option<u32>, RecordRefusal>
    requires { L.closed link.old ≡ false }
    ensures told { TakesHeader (L.tells link.old) (L.wire link.old) (L.wire link.new) number
        result }
    ensures tells { L.tells link.new ≡ L.tells link.old }
    ensures unclosed { L.closed link.new ≡ false }
    ensures fault { IsErrOf result RecordRefusal.LinkFault
        → Rose (L.faults link.old) (L.faults link.new) }
    ensures steady { (IsErrOf result RecordRefusal.LinkFault → ⊥)
        → L.faults link.new ≡ L.faults link.old }
    ensures faults { L.faults link.old ≤ L.faults link.new }
{
    let mut cells = [0; 4];
    match fill(link, &mut cells) {
        Ok(4) => Ok(Some(word_of(&cells))),
        Ok(0) if number == 0 => Ok(None),
        Ok(_) => Err(RecordRefusal::Torn),
        Err(LinkFault) => Err(RecordRefusal::LinkFault),
    }
}

/// Reads the octets that a header announces, if the record may have them.
fn read_announced<L: Link>(
    link: &mut L,
    octets: &mut Vec<u8>,
    number: u32,
    header: u32,
) -> Result<Fragment, RecordRefusal>
    requires unclosed { L.closed link.old ≡ false }
    requires size { vec_len octets.old ≤ 131072 }
    requires most { number ≤ 64 }
    ensures told { TakesAnnounced (L.tells link.old) (L.wire link.old) (L.wire link.new)
        octets.old.items octets.new.items number header result }
    ensures size { OnOk result (vec_len octets.new ≤ 131072) }
    ensures more { result ≡ Ok Fragment.More → number < 64 }
    ensures last { result ≡ Ok Fragment.Last → number < 64 }
    ensures tells { L.tells link.new ≡ L.tells link.old }
    ensures unclosed { L.closed link.new ≡ false }
    ensures fault { IsErrOf result RecordRefusal.LinkFault
        → Rose (L.faults link.old) (L.faults link.new) }
    ensures steady { (IsErrOf result RecordRefusal.LinkFault → ⊥)
        → L.faults link.new ≡ L.faults link.old }
    ensures faults { L.faults link.old ≤ L.faults link.new }
{
    let size = (header % LAST) as usize;
    match allow(number, octets.len(), size) {
        Ok(()) => {}
        Err(refusal) => return Err(refusal),
    }
    match read_content(link, octets, size) {
        Ok(true) if header >= LAST => Ok(Fragment::Last),
        Ok(true) => Ok(Fragment::More),
        Ok(false) => Err(RecordRefusal::Torn),
        Err(ContentRefusal::LinkFault) => Err(RecordRefusal::LinkFault),
        Err(ContentRefusal::NoMemory) => Err(RecordRefusal::NoMemory),
    }
}

/// Refuses a fragment that a record may not have behind so many fragments and octets.
fn allow(number: u32, held: usize, size: usize) -> Result<(), RecordRefusal>
    requires held { held ≤ 131072 }
    requires most { number ≤ 64 }
    requires size { size < 2 ^ 31 }
    ensures { Allows number held size result }
{
    if LIMIT < held + size {
        return Err(RecordRefusal::TooLong);
    }
    if number == FRAGMENTS {
        return Err(RecordRefusal::TooManyFragments);
    }
    Ok(())
}

/// Writes a record as one last fragment. After a fault a front of it was written.
pub fn write_record<L: Link>(link: &mut L, bytes: &[u8]) -> Result<(), LinkFault>
    requires unclosed { L.closed link.old ≡ false }
    requires room { length bytes.now ≤ 131072 }
    ensures told { Sends (L.tells link.old) (L.wire link.old) (L.wire link.new) result
        (last_fragment bytes.now) }
    ensures tells { L.tells link.new ≡ L.tells link.old }
    ensures unclosed { L.closed link.new ≡ false }
    ensures fault { OnErr result (Rose (L.faults link.old) (L.faults link.new)) }
    ensures steady { OnOk result (L.faults link.new ≡ L.faults link.old) }
    ensures faults { L.faults link.old ≤ L.faults link.new }
{
    if bytes.len() <= SMALL_RECORD {
        return write_at_once::<L, SMALL_FRAME>(link, bytes);
    }
    if bytes.len() <= FRAMED_RECORD {
        return write_at_once::<L, FRAME>(link, bytes);
    }
    match send(link, &header_of(bytes.len())) {
        Ok(()) => send(link, bytes),
        Err(fault) => Err(fault),
    }
}

/// Writes a record together with its header, which fit into a buffer of this size.
fn write_at_once<L: Link, const SIZE: usize>(link: &mut L, bytes: &[u8]) -> Result<(), LinkFault>
    requires unclosed { L.closed link.old ≡ false }
    requires fits { 4 + length bytes.now ≤ SIZE }
    requires small { SIZE ≤ 8192 }
    ensures told { Sends (L.tells link.old) (L.wire link.old) (L.wire link.new) result
        (last_fragment bytes.now) }
    ensures tells { L.tells link.new ≡ L.tells link.old }
    ensures unclosed { L.closed link.new ≡ false }
    ensures fault { OnErr result (Rose (L.faults link.old) (L.faults link.new)) }
    ensures steady { OnOk result (L.faults link.new ≡ L.faults link.old) }
    ensures faults { L.faults link.old ≤ L.faults link.new }
{
    let mut cells = [0; SIZE];
    frame(&mut cells, bytes);
    send(link, &cells[..4 + bytes.len()])
}

/// Puts a record and its header to the front.
fn frame(cells: &mut [u8], bytes: &[u8])
    requires room { 4 + length bytes.now ≤ length cells.old }
    requires small { length cells.old ≤ 8192 }
    ensures { take (4 + length bytes.now) cells.new ≡ last_fragment bytes.now }
{
    cells[..4].copy_from_slice(&header_of(bytes.len()));
    cells[4..4 + bytes.len()].copy_from_slice(bytes);
}

/// The header of a last fragment of so many octets.
#[tactic(auto, unfolding(crate::specs::Words::word))]
fn header_of(length: usize) -> [u8; 4]
    requires { length ≤ 131072 }
    ensures { result ≡ word (2 ^ 31 + length) }
{
    (0x8000_0000 + length as u32).to_be_bytes()
}
