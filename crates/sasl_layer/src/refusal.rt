//! What an end or its layer refuses.

ghost use Rattle.std.specs.Prelude.{◌≡◌, ◌≢◌};
ghost use Rattle.krb_tokens.specs.declared.end.TokenRefusal.TheVariants as tokens;
ghost use Rattle.sasl_layer.specs.Numbers.{sasl_number};
ghost use Rattle.sasl_layer.specs.declared.refusal.SaslRefusal.TheVariants as refusals;

use krb_tokens::TokenRefusal;
use sec_base::NoMemory;
use spnego_core::MechRefusal;

/// Why an end or its layer refuses, in the order in which it is judged but for TooLong, which comes first.
#[derive(Clone, Copy, Debug, PartialEq, Eq)]
pub enum SaslRefusal {
    /// None of the objects is Kerberos's.
    NoKerberos,
    /// Kerberos refuses its token. Want of memory is never in it.
    Mech(MechRefusal),
    /// The token isn't one of the other end. Want of memory is never in it.
    Token(TokenRefusal),
    /// The message that is due as empty isn't, or what was opened hasn't four octets.
    Length,
    /// No layer is wished by both ends, the choice isn't a layer that was offered, or the token's sealing isn't what is due.
    Layers,
    /// With a layer, the other end takes less than 64 octets.
    Size,
    /// The client asks for an authorization identity.
    Identity,
    /// The token has another number than the one that is due.
    Order { expected: u64 },
    /// The message has more octets than may be.
    TooLong,
    /// No memory was to be had.
    NoMemory,
}

impl SaslRefusal {
    /// The number by which it is told; want of memory has none.
    pub fn number(self) -> u32
        ensures { result ≡ sasl_number self }
    {
        match self {
            SaslRefusal::NoKerberos => 1,
            SaslRefusal::Mech(_) => 2,
            SaslRefusal::Token(_) => 3,
            SaslRefusal::Length => 4,
            SaslRefusal::Layers => 5,
            SaslRefusal::Size => 6,
            SaslRefusal::Identity => 7,
            SaslRefusal::Order { expected: _ } => 8,
            SaslRefusal::TooLong => 9,
            SaslRefusal::NoMemory => 0,
        }
    }
}

impl From<NoMemory> for SaslRefusal {
    ghost use Rattle.sasl_layer.specs.declared.refusal.SaslRefusal.{SaslRefusal};

    ghost from_gives = { λ _ e. e ≡ refusals.NoMemory };

    fn from(_error: NoMemory) -> SaslRefusal {
        SaslRefusal::NoMemory
    }
}

/// The refusal of a token.
pub fn token_refused(refusal: TokenRefusal) -> SaslRefusal
    ensures token { refusal ≢ tokens.NoMemory → result ≡ SaslRefusal.Token refusal }
    ensures memory { refusal ≡ tokens.NoMemory → result ≡ SaslRefusal.NoMemory }
{
    match refusal {
        TokenRefusal::NoMemory => SaslRefusal::NoMemory,
        refusal => SaslRefusal::Token(refusal),
    }
}
