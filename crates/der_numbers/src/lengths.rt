//! Lengths in the long form.

ghost use Rattle.std.specs.Prelude.{◌≡◌, ◌≤◌, length};
ghost use Rattle.der_numbers.specs.Number.{has_leading_zero, long_length};

use crate::numbers::number_of;

/// Whether the first octet is 0.
fn has_leading_zero(octets: &[u8]) -> bool
    ensures { result ≡ has_leading_zero octets.now }
{
    match octets {
        [] => false,
        [first, ..] => *first == 0,
    }
}

/// The length that these octets spell, at most four of them, and none where fewer octets spell it, or a single one (ITU-T X.690 section 10.1).
pub fn long_length(octets: &[u8]) -> Option<u64>
    requires { length octets.now ≤ 4 }
    ensures { result ≡ long_length octets.now }
{
    let length = number_of(octets);
    if has_leading_zero(octets) || length < 128 {
        return None;
    }
    Some(length)
}
