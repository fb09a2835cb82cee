//! What a client asks of a program.

/// A procedure of some program, and which octets are its results.
///
/// Whoever has a program of their own implements it for a type that names the program's procedures.
pub trait Query {
    ghost use Rattle.std.specs.Prelude.{◌≡◌};
    ghost use Rattle.gss_client.specs.Query.{QuerySays};

    ghost says: { Self → QuerySays };

    /// The procedure's number in a call (RFC 5531 section 9).
    fn number(&self) -> u32
        ensures { result ≡ (says self.now).number };

    /// Whether octets are a result of it, spelled in XDR and used up. A session takes no other octets for one.
    fn is_result(&self, octets: &[u8]) -> bool
        ensures { result ≡ (says self.now).is_result octets.now };
}
