// n-fold, RFC 3961 section 5.1.

ghost use Rattle.std.specs.Prelude.{◌≡◌, ◌≢◌, ◌==◌, ◌&&◌, ℕ, ◌+◌, ◌-◌, ◌*◌, ◌/◌, ◌%◌, ◌^◌, ◌<◌};
ghost use Rattle.std.specs.Prelude.{◌≤◌, min, length, drop, List};
ghost use Rattle.krb_derive.specs.Fold.{greatest_common_divisor, octet_around, bit_of_copies};
ghost use Rattle.krb_derive.specs.Fold.{octet_of_copies, part_of_copies, number_of, add_around};
ghost use Rattle.krb_derive.specs.Fold.{sum_of_pieces, n_fold};

fn divides_both(divisor: usize, a: usize, b: usize) -> bool
    requires { 0 < divisor }
    ensures { result ≡ ((a % divisor == 0) && (b % divisor == 0)) }
{
    a % divisor == 0 && b % divisor == 0
}

fn common_divisor(a: usize, b: usize) -> usize
    requires some_a { 0 < a }
    requires some_b { 0 < b }
    ensures value { result ≡ greatest_common_divisor a b }
    ensures some { 0 < result }
{
    let mut divisor = a.min(b);
    while !divides_both(divisor, a, b) {
        divisor -= 1;
    }
    divisor
}

// The place behind `at`, read around.
#[inline]
fn next_place(at: usize, size: usize) -> usize
    requires { at < size }
    ensures value { result ≡ (at + 1) % size }
    ensures within { result < size }
{
    if at + 1 == size { 0 } else { at + 1 }
}

// The eight bits from bit `8 * at + bit` on, read around.
#[inline]
fn octet_around(octets: &[u8], at: usize, bit: u32) -> u8
    requires within { at < length octets.now }
    requires low { bit < 8 }
    ensures { result ≡ octet_around octets.now (8 * at + bit) }
{
    let next = next_place(at, octets.len());
    let both = 256 * u32::from(octets[at]) + u32::from(octets[next]);
    ((both >> (8 - bit)) % 256) as u8
}

// An octet of the copies in a row, of few octets.
#[inline]
fn octet_of_few(octets: &[u8], at: u32) -> u8
    requires low { 0 < length octets.now }
    requires high { length octets.now < 4096 }
    requires within { at < 2 ^ 24 }
    ensures { result ≡ octet_of_copies octets.now at }
{
    let size = octets.len() as u32;
    let bits = 8 * size;
    let back = 13 * (at / size) % bits;
    let bit = (8 * (at % size) + (bits - back)) % bits;
    octet_around(octets, (bit / 8) as usize, bit % 8)
}

// The same, of any number of octets.
fn octet_of_many(octets: &[u8], at: u128) -> u8
    requires low { 0 < length octets.now }
    requires within { at < length octets.now * 2 ^ 64 }
    ensures { result ≡ octet_of_copies octets.now at }
{
    let size = octets.len() as u128;
    let bits = 8 * size;
    let back = 13 * (at / size) % bits;
    let bit = (8 * (at % size) + (bits - back)) % bits;
    octet_around(octets, (bit / 8) as usize, (bit % 8) as u32)
}

// Octet `i` of a piece of `count` octets of the copies in a row.
#[inline]
fn octet_of_piece(octets: &[u8], count: usize, piece: usize, i: usize) -> u8
    requires piece { piece < length octets.now }
    requires within { i < count }
    ensures { result ≡ octet_of_copies octets.now (count * piece + i) }
{
    if count < 4096 && octets.len() < 4096 {
        octet_of_few(octets, (count * piece + i) as u32)
    } else {
        octet_of_many(octets, count as u128 * piece as u128 + i as u128)
    }
}

// Adds a piece of the copies to a number of as many octets, and answers the carry.
fn add_piece(sum: &mut [u8], octets: &[u8], piece: usize) -> u32
    requires { piece < length octets.now }
    ensures low { number_of sum.new < 256 ^ length sum.old }
    ensures sum { number_of sum.new + result * 256 ^ length sum.old ≡ number_of sum.old + number_of
        (part_of_copies octets.now (length sum.old * piece) (length sum.old)) }
    ensures carry { result < 2 }
{
    let count = sum.len();
    let mut carry = 0;
    'octets: for i in (0..count).rev() {
        let total = u32::from(sum[i]) + u32::from(octet_of_piece(octets, count, piece, i)) + carry;
        sum[i] = (total % 256) as u8;
        carry = total / 256;
    }
    carry
}

// Adds a carry to a number, and answers the carry of that.
fn add_carry(sum: &mut [u8], carry: u32) -> u32
    requires { carry < 2 }
    ensures low { number_of sum.new < 256 ^ length sum.old }
    ensures sum { number_of sum.new + result * 256 ^ length sum.old ≡ number_of sum.old + carry }
    ensures carry { result < 2 }
{
    let count = sum.len();
    let mut rest = carry;
    'octets: for i in (0..count).rev() {
        let total = u32::from(sum[i]) + rest;
        sum[i] = (total % 256) as u8;
        rest = total / 256;
    }
    rest
}

/// Stretches or shortens octets to as many as `out` has (RFC 3961 section 5.1).
pub fn n_fold(bytes: &[u8], out: &mut [u8])
    requires some { 0 < length bytes.now }
    requires room { 0 < length out.old }
    ensures { out.new ≡ n_fold (length out.old) bytes.now }
{
    let pieces = bytes.len() / common_divisor(bytes.len(), out.len());
    out.fill(0);
    'pieces: for piece in 0..pieces {
        let carry = add_piece(out, bytes, piece);
        let _ = add_carry(out, carry);
    }
}
