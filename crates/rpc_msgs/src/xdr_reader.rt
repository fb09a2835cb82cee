//! Reading XDR, RFC 4506.

ghost use Rattle.std.specs.Prelude.{◌≡◌, ◌≤◌, ◌<◌, ◌^◌, ◌++◌, ℕ, List, length, IfOk, OnErr};
ghost use Rattle.std.specs.Int.{w32, from_be_bytes};
ghost use Rattle.rpc_msgs.specs.Words.{word, opaque, padding_length};
ghost use Rattle.rpc_msgs.specs.Xdr.{Input, whole, place, octets_at, word_at, zeros_in, opaque_at};
ghost use Rattle.rpc_msgs.specs.Xdr.{end_at, Answers, Reads, IsRead};

use sec_base::NoMemory;
use std::marker::Model;

/// What is wrong with octets.
#[derive(Clone, Copy, Debug, PartialEq, Eq)]
pub enum XdrWhy {
    /// They end inside a value.
    Short,
    /// A length passes its limit, or octets are left over.
    TooLong,
    /// An octet of the padding isn't zero.
    Padding,
    /// No memory was to be had; its place is 0. No call that takes no memory answers it.
    NoMemory,
}

/// A refusal: why, and the place of what is wrong, counted from the first octet.
#[derive(Clone, Copy, Debug, PartialEq, Eq)]
pub struct XdrRefusal {
    pub at: usize,
    pub why: XdrWhy,
}

impl From<NoMemory> for XdrRefusal {
    ghost use Rattle.std.specs.Prelude.{◌≡◌};
    ghost use Rattle.rpc_msgs.specs.declared.xdr_reader.XdrWhy.{XdrWhy};

    ghost from_gives = { λ _ e. e.why ≡ XdrWhy.NoMemory };

    fn from(_error: NoMemory) -> XdrRefusal {
        XdrRefusal {
            at: 0,
            why: XdrWhy::NoMemory,
        }
    }
}

/// Reads XDR values from the front of octets. Contracts see the octets that are left and the place behind the last of them. What is read
/// lives as long as the octets.
#[derive(Drop)]
pub struct XdrReader<'a> {
    left: &'a [u8],
    end: usize,
    ghost within: { length left.now ≤ end },
}

impl<'a> Model for XdrReader<'a> {
    ghost use Rattle.rpc_msgs.specs.Xdr.{Input};

    ghost Value = { Input };

    ghost view = { λ r. record { octets = r.left.now; end = r.end } };
}

impl<'a> XdrReader<'a> {
    /// A reader at the first octet.
    pub fn new(bytes: &'a [u8]) -> XdrReader<'a>
        ensures { result ≡ whole bytes.now }
    {
        XdrReader {
            left: bytes,
            end: bytes.len(),
        }
    }

    /// The octets that are left.
    pub fn rest(&self) -> &'a [u8]
        ensures { result.now ≡ self.now.octets }
    {
        self.left
    }

    /// The place of the next octet.
    pub fn place(&self) -> usize
        ensures { result ≡ place self.now }
    {
        self.end - self.left.len()
    }

    /// Reads an unsigned number of 32 bits (RFC 4506 section 4.2).
    pub fn word(&mut self) -> Result<u32, XdrRefusal>
        ensures read { Reads (λ v. v) self.new result (word_at self.old) }
        ensures unmoved { OnErr result (self.new ≡ self.old) }
        ensures spelled { IfOk result (λ v. self.old.octets ≡ word v ++ self.new.octets) }
        ensures only { (number : ℕ) (back : List ℕ) → number < 2 ^ 32
            → self.old.octets ≡ word number ++ back
            → IsRead (λ v. v) self.old self.new result number back }
    {
        let (number, left) = word_in(self.left, self.end)?;
        self.left = left;
        Ok(number)
    }

    /// Reads octets of variable length, at most `limit` (RFC 4506 section 4.10).
    pub fn opaque(&mut self, limit: u32) -> Result<&'a [u8], XdrRefusal>
        ensures read { Reads (λ v. v.now) self.new result (opaque_at limit self.old) }
        ensures unmoved { OnErr result (self.new ≡ self.old) }
        ensures spelled { IfOk result
            (λ v. (length v.now ≤ limit) × (self.old.octets ≡ opaque v.now ++ self.new.octets)) }
        ensures only { (octets back : List ℕ) → length octets ≤ limit
            → self.old.octets ≡ opaque octets ++ back
            → IsRead (λ v. v.now) self.old self.new result octets back }
    {
        let (octets, left) = opaque_in(self.left, self.end, limit)?;
        self.left = left;
        Ok(octets)
    }

    /// Judges that nothing is left.
    #[tactic(auto, unfolding(crate::specs::Xdr::end_at))]
    pub fn end(&self) -> Result<(), XdrRefusal>
        ensures { Answers (λ u. u) result (end_at self.now) }
    {
        if !self.left.is_empty() {
            return Err(XdrRefusal {
                at: self.place(),
                why: XdrWhy::TooLong,
            });
        }
        Ok(())
    }
}

/// So many octets, and what stands behind them.
#[tactic(auto, unfolding(crate::specs::Xdr::octets_at))]
fn octets_in(left: &[u8], end: usize, size: usize) -> Result<(&[u8], &[u8]), XdrRefusal>
    ensures read { Answers (λ x. (x.0.now, record { octets = x.1.now; end = end })) result
        (octets_at size (record { octets = left.now; end = end })) }
    ensures size { IfOk result (λ x. length x.0.now ≡ size) }
    ensures less { IfOk result (λ x. length x.1.now ≤ length left.now) }
{
    if left.len() < size {
        return Err(XdrRefusal {
            at: end,
            why: XdrWhy::Short,
        });
    }
    Ok(left.split_at(size))
}

/// The number in front, and what stands behind it.
#[tactic(auto, unfolding(crate::specs::Xdr::word_at))]
fn word_in(left: &[u8], end: usize) -> Result<(u32, &[u8]), XdrRefusal>
    ensures read { Answers (λ x. (x.0, record { octets = x.1.now; end = end })) result
        (word_at (record { octets = left.now; end = end })) }
    ensures spelled { IfOk result (λ x. left.now ≡ word x.0 ++ x.1.now) }
    ensures less { IfOk result (λ x. length x.1.now ≤ length left.now) }
{
    let (octets, left) = octets_in(left, end, 4)?;
    Ok((word_of(octets), left))
}

/// The number that these four octets spell.
#[tactic(auto, unfolding(crate::specs::Words::word))]
pub(crate) fn word_of(bytes: &[u8]) -> u32
    requires { length bytes.now ≡ 4 }
    ensures value { result ≡ from_be_bytes w32 bytes.now }
    ensures spelled { word result ≡ bytes.now }
{
    u32::from_be_bytes([bytes[0], bytes[1], bytes[2], bytes[3]])
}

/// What stands behind so many zeros.
#[tactic(auto, unfolding(crate::specs::Xdr::zeros_in))]
fn zeros_of(left: &[u8], end: usize, count: usize) -> Result<&[u8], XdrRefusal>
    requires { length left.now ≤ end }
    ensures read { Answers (λ x. record { octets = x.now; end = end }) result
        (zeros_in count left.now end) }
    ensures less { IfOk result (λ x. length x.now ≤ length left.now) }
{
    if count == 0 {
        return Ok(left);
    }
    match left {
        [] => Err(XdrRefusal {
            at: end,
            why: XdrWhy::Short,
        }),
        [0, rest @ ..] => zeros_of(rest, end, count - 1),
        [..] => Err(XdrRefusal {
            at: end - left.len(),
            why: XdrWhy::Padding,
        }),
    }
}

/// The octets of variable length in front, and what stands behind them.
#[tactic(auto, unfolding(crate::specs::Xdr::opaque_at))]
fn opaque_in(left: &[u8], end: usize, limit: u32) -> Result<(&[u8], &[u8]), XdrRefusal>
    requires { length left.now ≤ end }
    ensures read { Answers (λ x. (x.0.now, record { octets = x.1.now; end = end })) result
        (opaque_at limit (record { octets = left.now; end = end })) }
    ensures spelled { IfOk result
        (λ x. (length x.0.now ≤ limit) × (left.now ≡ opaque x.0.now ++ x.1.now)) }
    ensures less { IfOk result (λ x. length x.1.now ≤ length left.now) }
{
    let (size, behind) = word_in(left, end)?;
    if size > limit {
        return Err(XdrRefusal {
            at: end - left.len(),
            why: XdrWhy::TooLong,
        });
    }
    let size = size as usize;
    let (octets, behind) = octets_in(behind, end, size)?;
    let behind = zeros_of(behind, end, (4 - size % 4) % 4)?;
    Ok((octets, behind))
}
