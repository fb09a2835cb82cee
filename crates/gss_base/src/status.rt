//! Numbers of the major status, RFC 2744 section 3.9.1.
ghost use Rattle.std.specs.Prelude.{◌≡◌, ◌*◌, ◌^◌, ◌<◌};

/// The call is complete.
pub const COMPLETE: u32 = 0;
/// The routine must be called again with the peer's next token.
pub const CONTINUE_NEEDED: u32 = 1;

/// Routine error: a mechanism that isn't there was asked for.
pub const BAD_MECH: u32 = 1;
/// Routine error: the channel bindings differ.
pub const BAD_BINDINGS: u32 = 4;
/// Routine error: a token has a MIC that doesn't verify.
pub const BAD_MIC: u32 = 6;
/// Routine error: there is no credential or key.
pub const NO_CRED: u32 = 7;
/// Routine error: a token isn't in its grammar.
pub const DEFECTIVE_TOKEN: u32 = 9;
/// Routine error: a credential is past its end.
pub const CREDENTIALS_EXPIRED: u32 = 11;
/// Routine error: a failure that the minor status tells.
pub const FAILURE: u32 = 13;
/// Routine error: the peer isn't allowed.
pub const UNAUTHORIZED: u32 = 15;

/// The major status of a routine error: its number in bits 16 to 23.
pub fn major(code: u32) -> u32
    requires { code < 256 }
    ensures { result ≡ code * 2 ^ 16 }
{
    code << 16
}
