// The last blocks of a padded message (FIPS 180-4 section 5.1.1), and a hash value as octets.

ghost use Rattle.std.specs.Prelude.{◌≡◌, ◌+◌, ◌-◌, ◌*◌, ◌%◌, ◌<◌, ◌≤◌, ◌∷◌, ◌++◌, length};
ghost use Rattle.std.specs.Prelude.{take, drop, replicate};
ghost use Rattle.std.specs.Int.{w64, to_be_bytes};
ghost use Rattle.sha1.specs.Sha1.{padding, digest_bytes};

// The end of a message and its mark, in front of zeros.
fn marked(rest: &[u8]) -> [u8; 64]
    requires { length rest.now < 64 }
    ensures { result ≡ rest.now ++ 0x80 ∷ replicate (63 - length rest.now) 0 }
{
    let mut block = [0u8; 64];
    block[..rest.len()].copy_from_slice(rest);
    block[rest.len()] = 0x80;
    block
}

// The same, short enough for the message's length in bits to follow.
fn end_block(rest: &[u8], bits: u64) -> [u8; 64]
    requires { length rest.now < 56 }
    ensures { result
        ≡ rest.now ++ (0x80 ∷ (replicate (55 - length rest.now) 0 ++ to_be_bytes w64 bits)) }
{
    let mut block = marked(rest);
    block[56..].copy_from_slice(&bits.to_be_bytes());
    block
}

// That length in a block of its own.
fn length_block(bits: u64) -> [u8; 64]
    ensures { result ≡ replicate 56 0 ++ to_be_bytes w64 bits }
{
    let mut block = [0u8; 64];
    block[56..].copy_from_slice(&bits.to_be_bytes());
    block
}

/// Block `i` of what is left of a message after whole blocks, with the padding of a message of `total` octets
/// (modulo 2^64).
pub fn padded_block(rest: &[u8], total: u64, i: usize) -> [u8; 64]
    requires place { 64 * i ≤ length rest.now + 8 }
    requires edge { total % 64 ≡ length rest.now % 64 }
    ensures { result ≡ take 64 (drop (i * 64) (rest.now ++ padding total)) }
{
    let bits = total.wrapping_mul(8);
    let start = i * 64;
    if start > rest.len() {
        return length_block(bits);
    }
    let end = &rest[start..];
    if end.len() >= 64 {
        let mut whole = [0u8; 64];
        whole.copy_from_slice(&end[..64]);
        return whole;
    }
    if end.len() >= 56 {
        return marked(end);
    }
    end_block(end, bits)
}

/// The octets of a hash value (section 6.1.2).
pub fn octets_of(h: &[u32; 5]) -> [u8; 20]
    ensures { result ≡ digest_bytes h.now 5 }
{
    let mut octets = [0u8; 20];
    'words: for i in 0..5 {
        octets[4 * i..4 * i + 4].copy_from_slice(&h[i].to_be_bytes());
    }
    octets
}
