//! Numbers as words have them.

ghost use Rattle.std.specs.Prelude.{◌≡◌, ◌≤◌, true, length, IfSome};
ghost use Rattle.cli_base.specs.Numbers.{are_digits, is_numeral, number_of, number_in};

/// Whether these are digits.
fn are_digits(text: &[u8]) -> bool
    ensures { result ≡ are_digits text.now }
{
    for octet in text {
        if *octet < b'0' || *octet > b'9' {
            return false;
        }
    }
    true
}

/// Whether a text is a number of one to ten digits without a leading zero.
fn is_numeral(text: &[u8]) -> bool
    ensures { result ≡ is_numeral text.now }
{
    match text {
        [] => false,
        [first] => are_digits(text),
        [first, ..] => *first != b'0' && text.len() <= 10 && are_digits(text),
    }
}

/// The number that at most ten digits spell.
fn number_of(digits: &[u8]) -> u64
    requires each { are_digits digits.now ≡ true }
    requires few { length digits.now ≤ 10 }
    ensures { result ≡ number_of 0 digits.now }
{
    let mut number = 0u64;
    for digit in digits {
        number = number * 10 + (*digit - b'0') as u64;
    }
    number
}

/// The decimal number of a text, without sign and leading zero, where it is one from `least` to `most`.
pub fn number_in(text: &str, least: u32, most: u32) -> Option<u32>
    ensures value { result ≡ number_in least most text.now }
    ensures range { IfSome result (λ number. (least ≤ number) × (number ≤ most)) }
{
    let digits = text.as_bytes();
    if !is_numeral(digits) {
        return None;
    }
    let number = number_of(digits);
    if number < least as u64 || number > most as u64 {
        return None;
    }
    Some(number as u32)
}
