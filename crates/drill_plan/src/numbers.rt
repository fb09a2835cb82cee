//! The number that seeds a drill.

ghost use Rattle.std.specs.Prelude.{◌≡◌, ◌≤◌, true, length};
ghost use Rattle.cli_base.specs.Numbers.{are_digits, number_of};
ghost use Rattle.drill_plan.specs.Numbers.{is_long, seed_in};

/// Whether these are digits.
fn are_digits(text: &[u8]) -> bool
    ensures { result ≡ are_digits text.now }
{
    for octet in text {
        if *octet < b'0' || *octet > b'9' {
            return false;
        }
    }
    true
}

/// Whether a text is a number of one to twenty digits without a leading zero.
fn is_long(text: &[u8]) -> bool
    ensures { result ≡ is_long text.now }
{
    match text {
        [] => false,
        [first] => are_digits(text),
        [first, ..] => *first != b'0' && text.len() <= 20 && are_digits(text),
    }
}

/// The number that at most twenty digits spell.
fn number_of(digits: &[u8]) -> u128
    requires each { are_digits digits.now ≡ true }
    requires few { length digits.now ≤ 20 }
    ensures { result ≡ number_of 0 digits.now }
{
    let mut number = 0u128;
    for digit in digits {
        number = number * 10 + (*digit - b'0') as u128;
    }
    number
}

/// The decimal number of a text, without sign and leading zero, where it has 64 bits.
pub fn seed_in(text: &str) -> Option<u64>
    ensures { result ≡ seed_in text.now }
{
    let digits = text.as_bytes();
    if !is_long(digits) {
        return None;
    }
    let number = number_of(digits);
    if number > u64::MAX as u128 {
        return None;
    }
    Some(number as u64)
}
