//! What holds of the definitions, and which tokens are taken.

ghost use Rattle.std.specs.Prelude.{◌≡◌, ◌↔◌, Bool, List, ℕ, Ok};
ghost use Rattle.aes_cts.specs.Cipher.{IsOctets};
ghost use Rattle.krb_tokens.specs.End.{facing};
ghost use Rattle.krb_tokens.specs.Mic.{checked_mic};
ghost use Rattle.krb_tokens.specs.Wrap.{unwrapped};
ghost use Rattle.krb_tokens.specs.Tokens.{IsMicOf, IsWrapOf};
ghost use Rattle.krb_tokens.specs.Laws.{Laws};

use crate::end::TokenEnd;
use krb_derive::SealKeys;

/// Does nothing; its contract holds the laws of headers and of what tokens show.
pub fn prove_laws()
    ensures { Laws }
{}

/// Does nothing that stays; its contract says that `TokenEnd::check_mic` and `TokenEnd::unwrap` take exactly the tokens that the end
/// facing this one could have made: every number, every count of turns, every flag that isn't compared and, where the token is
/// sealed, every extra count.
pub fn prove_acceptance(end: &TokenEnd)
    ensures mics { (token octets : List ℕ) → IsOctets token
        → (checked_mic end.now token octets ≡ Ok tt) ↔ IsMicOf (facing end.now) octets token }
    ensures wraps { (sealed : Bool) (token content : List ℕ) → IsOctets token
        → (unwrapped end.now token ≡ Ok (record { sealed = sealed; content = content }))
        ↔ IsWrapOf (facing end.now) sealed content token }
{
    let _keys = SealKeys::of(&end.key, end.side.other().seal_usage());
}
