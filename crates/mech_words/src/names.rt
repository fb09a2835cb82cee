//! The mechanism that a word names.

ghost use Rattle.std.specs.Prelude.{◌≡◌};
ghost use Rattle.mech_words.specs.Names.{mech_named};

use cli_base::WordsRefusal;
use gss_base::{KerberosName, MechName};

/// The mechanism that a word names.
pub fn mech_named(word: &str) -> Result<MechName, WordsRefusal>
    ensures { result ≡ mech_named word.now }
{
    if word == "krb5" {
        return Ok(MechName::Kerberos(KerberosName::Standard));
    }
    if word == "ms-krb5" {
        return Ok(MechName::Kerberos(KerberosName::Microsoft));
    }
    if word == "scram" {
        return Ok(MechName::Scram);
    }
    Err(WordsRefusal::Usage)
}
