//! A decimal number without leading zeros.

ghost use Rattle.std.specs.Prelude.{◌≡◌, ◌≤◌, length};
ghost use Rattle.scram_mech.specs.Digits.{digits_step, digits_end, number_of, AreDigits};

/// What is due of a number of at most ten digits.
#[derive(Clone, Copy)]
pub enum Digits {
    /// The first digit.
    First,
    /// No digit behind a first 0.
    Zero,
    /// At most so many digits.
    More(u8),
}

impl Digits {
    /// What is due behind this octet; None where it can't stand here.
    pub fn step(self, octet: u8) -> Option<Digits>
        ensures { result ≡ digits_step self octet }
    {
        if octet < b'0' || octet > b'9' {
            return None;
        }
        match self {
            Digits::First => {
                if octet == b'0' {
                    Some(Digits::Zero)
                } else {
                    Some(Digits::More(9))
                }
            }
            Digits::Zero => None,
            Digits::More(left) => {
                if left == 0 {
                    None
                } else {
                    Some(Digits::More(left - 1))
                }
            }
        }
    }

    /// Whether the number may end here.
    pub fn ends(self) -> bool
        ensures { result ≡ digits_end self }
    {
        match self {
            Digits::First => false,
            Digits::Zero | Digits::More(_) => true,
        }
    }
}

/// The digits of a number in a text.
#[derive(Clone, Copy)]
pub struct Decimal<'a> {
    pub digits: &'a [u8],
    ghost decimal: { AreDigits digits.now },
}

impl Decimal<'_> {
    /// The number.
    pub fn number(&self) -> u64
        ensures { result ≡ number_of self.now.digits.now }
    {
        number_of(self.digits)
    }
}

/// The number that these digits spell.
#[tactic(auto, unfolding(crate::specs::Digits::number_of))]
fn number_of(digits: &[u8]) -> u64
    requires { AreDigits digits.now }
    ensures { result ≡ number_of digits.now }
{
    let mut number = 0u64;
    for digit in digits {
        number = number * 10 + (*digit - b'0') as u64;
    }
    number
}
