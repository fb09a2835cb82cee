//! Writing XDR, RFC 4506.

ghost use Rattle.std.specs.Prelude.{◌≡◌, ◌<◌, ◌^◌, ◌++◌, [], length, replicate, IfOk, OnOk, OnErr};
ghost use Rattle.rpc_msgs.specs.Words.{word, opaque, padding_length};

use sec_base::{NoMemory, Octets};
use std::alloc::Global;
use std::marker::Model;

/// Zeros that fill an opaque up.
const ZEROS: [u8; 3] = [0; 3];

/// Octets that grow by XDR values. Contracts see the octets so far.
#[derive(Drop)]
pub struct XdrWriter {
    bytes: Vec<u8>,
}

impl Model for XdrWriter {
    ghost use Rattle.std.specs.Prelude.{List, ℕ};

    ghost Value = { List ℕ };

    ghost view = { λ w. w.bytes.items };
}

impl XdrWriter {
    /// A writer without octets, which keeps `alloc`.
    pub fn new(alloc: Global) -> XdrWriter
        ensures { result ≡ [] }
    {
        XdrWriter {
            bytes: Vec::new(alloc),
        }
    }

    /// A writer without octets, with room for so many.
    pub fn with_room(alloc: Global, octets: usize) -> Result<XdrWriter, NoMemory>
        ensures { IfOk result (λ w. w ≡ []) }
    {
        Ok(XdrWriter {
            bytes: Vec::with_capacity(alloc, octets)?,
        })
    }

    /// A writer that goes on behind these octets.
    pub fn over(bytes: Vec<u8>) -> XdrWriter
        ensures { result ≡ bytes.items }
    {
        XdrWriter { bytes }
    }

    #[tactic(auto, unfolding(crate::specs::Words::word))]
    /// Appends an unsigned number of 32 bits (RFC 4506 section 4.2).
    pub fn word(&mut self, v: u32) -> Result<(), NoMemory>
        ensures { OnOk result (self.new ≡ self.old ++ word v) }
    {
        self.octets(&v.to_be_bytes())
    }

    #[tactic(auto, unfolding(crate::specs::Words::opaque))]
    /// Appends octets of variable length (RFC 4506 section 4.10): how many, the octets, and zeros up to a multiple of four.
    pub fn opaque(&mut self, v: &[u8]) -> Result<(), NoMemory>
        requires { length v.now < 2 ^ 32 }
        ensures { OnOk result (self.new ≡ self.old ++ opaque v.now) }
    {
        self.word(v.len() as u32)?;
        self.octets(v)?;
        self.padding(v.len())
    }

    /// Appends the zeros that stand behind so many octets of variable length.
    pub fn padding(&mut self, count: usize) -> Result<(), NoMemory>
        ensures { OnOk result (self.new ≡ self.old ++ replicate (padding_length count) 0) }
    {
        self.octets(&ZEROS[..(4 - count % 4) % 4])
    }

    /// Appends octets as they are.
    pub fn octets(&mut self, v: &[u8]) -> Result<(), NoMemory>
        ensures { OnOk result (self.new ≡ self.old ++ v.now) }
    {
        self.bytes.extend_from_slice(v)?;
        Ok(())
    }

    /// The octets so far.
    pub fn as_slice(&self) -> &[u8]
        ensures { result.now ≡ self.now }
    {
        self.bytes.as_slice()
    }

    /// The octets, as the vector that holds them.
    pub fn into_vec(self) -> Vec<u8>
        ensures { result.items ≡ self }
    {
        self.bytes
    }

    /// The octets.
    pub fn finish(self) -> Octets
        ensures { result ≡ self }
    {
        Octets::from_vec(self.bytes)
    }
}

/// Appends three words.
pub(crate) fn put_words(
    out: &mut XdrWriter,
    first: u32,
    second: u32,
    third: u32,
) -> Result<(), NoMemory>
    ensures { OnOk result (out.new ≡ out.old ++ (word first ++ (word second ++ word third))) }
{
    out.word(first)?;
    out.word(second)?;
    out.word(third)
}
