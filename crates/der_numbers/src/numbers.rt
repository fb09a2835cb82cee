//! Numbers as octets, most significant first.

ghost use Rattle.std.specs.Prelude.{◌≡◌, ◌-◌, ◌^◌, ◌<◌, ◌≤◌, length, true, false};
ghost use Rattle.der_numbers.specs.Number.{natural_of, flipped, is_negative};

/// The number that at most five octets spell.
pub fn number_of(octets: &[u8]) -> u64
    requires { length octets.now ≤ 5 }
    ensures number { result ≡ natural_of octets.now }
    ensures small { length octets.now ≤ 4 → is_negative octets.now ≡ false → result < 2 ^ 31 }
{
    let mut number = 0;
    for octet in octets {
        number = number * 256 + *octet as u64;
    }
    number
}

/// The number that at most five octets spell with their bits turned over.
pub fn flipped_number_of(octets: &[u8]) -> u64
    requires { length octets.now ≤ 5 }
    ensures number { result ≡ natural_of (flipped octets.now) }
    ensures small { length octets.now ≤ 4 → is_negative octets.now ≡ true → result < 2 ^ 31 }
{
    let mut number = 0;
    for octet in octets {
        number = number * 256 + flip(*octet);
    }
    number
}

/// The octet with its bits turned over.
fn flip(octet: u8) -> u64
    ensures value { result ≡ 255 - octet }
    ensures small { result < 256 }
{
    255 - octet as u64
}
