//! Classes of octets (RFC 5802 section 7).

ghost use Rattle.std.specs.Prelude.{◌≡◌, MatchOption, Some};
ghost use Rattle.scram_mech.specs.Signs.{is_printable, is_value, is_nonce, is_line_name, is_free};
ghost use Rattle.scram_mech.specs.Signs.{sextet_of};

/// Printable ASCII.
pub fn is_printable(octet: u8) -> bool
    ensures { result ≡ is_printable octet }
{
    octet >= 0x20 && octet <= 0x7e
}

/// An octet of a value: printable, no comma.
pub fn is_value(octet: u8) -> bool
    ensures { result ≡ is_value octet }
{
    is_printable(octet) && octet != b','
}

/// An octet of a nonce: printable, no comma and no space.
pub fn is_nonce(octet: u8) -> bool
    ensures { result ≡ is_nonce octet }
{
    is_value(octet) && octet != b' '
}

/// An octet of a name in a verifier file: printable, no colon.
pub fn is_line_name(octet: u8) -> bool
    ensures { result ≡ is_line_name octet }
{
    is_printable(octet) && octet != b':'
}

/// A letter that a further part may have: one that no named part has.
pub fn is_free(octet: u8) -> bool
    ensures { result ≡ is_free octet }
{
    match octet {
        b'c' | b'e' | b'i' | b'm' | b'n' | b'p' | b'r' | b's' | b'v' => false,
        b'a'..=b'z' | b'A'..=b'Z' => true,
        _ => false,
    }
}

/// The six bits that a sign of base64 stands for (RFC 4648 section 4).
#[tactic(auto, unfolding(crate::specs::Signs::sextet_of))]
pub fn sextet_of(octet: u8) -> Option<u8>
    ensures { result ≡ sextet_of octet }
{
    match octet {
        b'A'..=b'Z' => Some(octet - b'A'),
        b'a'..=b'z' => Some(octet - b'a' + 26),
        b'0'..=b'9' => Some(octet - b'0' + 52),
        b'+' => Some(62),
        b'/' => Some(63),
        _ => None,
    }
}
