//! What the type of octets tells.

ghost use Rattle.aes_cts.specs.Cipher.{IsOctets};

/// Does nothing: these are octets.
pub(crate) fn tell_octets(octets: &[u8])
    ensures { IsOctets octets.now }
{
    let _count = octets.len();
}
