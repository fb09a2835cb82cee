//! What an exchange takes of 66 drawn octets.

ghost use Rattle.std.specs.Prelude.{◌≡◌};
ghost use Rattle.ap_exchange.specs.Draws.{drawn_subkey, drawn_confounder, drawn_nonce};

use krb_derive::{Etype, Key};

/// Octets 0 to 31: a subkey, of type 17 the first 16 of them.
pub fn subkey_of(etype: Etype, draws: &[u8; 66]) -> Key
    ensures { result ≡ drawn_subkey etype draws.now }
{
    match etype {
        Etype::Aes128 => {
            let mut octets = [0u8; 16];
            octets.copy_from_slice(&draws[..16]);
            Key::Aes128(octets)
        }
        Etype::Aes256 => {
            let mut octets = [0u8; 32];
            octets.copy_from_slice(&draws[..32]);
            Key::Aes256(octets)
        }
    }
}

/// Octets 32 to 47: a confounder.
pub fn confounder_of(draws: &[u8; 66]) -> [u8; 16]
    ensures { result ≡ drawn_confounder draws.now }
{
    let mut octets = [0u8; 16];
    octets.copy_from_slice(&draws[32..48]);
    octets
}

/// Octets 48 to 65: the nonce of SCRAM.
pub fn nonce_of(draws: &[u8; 66]) -> [u8; 18]
    ensures { result ≡ drawn_nonce draws.now }
{
    let mut octets = [0u8; 18];
    octets.copy_from_slice(&draws[48..]);
    octets
}
