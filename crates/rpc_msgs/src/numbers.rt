//! Numbers of RPC messages, by their names in RFC 5531, and of RPCSEC_GSS's flavour and stats, by those in RFC 2203.

/// The version of RPC (RFC 5531 section 9).
pub const RPC_VERSION: u32 = 2;

/// Kind of a message: a call (RFC 5531 section 9).
pub const CALL: u32 = 0;
/// Kind of a message: a reply.
pub const REPLY: u32 = 1;

/// Reply stat: the call was accepted (RFC 5531 section 9).
pub const MSG_ACCEPTED: u32 = 0;
/// Reply stat: the call was denied.
pub const MSG_DENIED: u32 = 1;

/// Accept stat: the procedure's result follows (RFC 5531 section 9).
pub const SUCCESS: u32 = 0;
/// Accept stat: the program isn't served.
pub const PROG_UNAVAIL: u32 = 1;
/// Accept stat: the program's version isn't served; the lowest and the highest that are follow.
pub const PROG_MISMATCH: u32 = 2;
/// Accept stat: the program has no such procedure.
pub const PROC_UNAVAIL: u32 = 3;
/// Accept stat: the arguments aren't the procedure's.
pub const GARBAGE_ARGS: u32 = 4;
/// Accept stat: the server lacks something, as a place for the call.
pub const SYSTEM_ERR: u32 = 5;

/// Reject stat: the RPC version isn't served; the lowest and the highest that are follow (RFC 5531 section 9).
pub const RPC_MISMATCH: u32 = 0;
/// Reject stat: the caller isn't authenticated; an auth stat says why.
pub const AUTH_ERROR: u32 = 1;

/// Auth stat: the credential doesn't read (RFC 5531 section 9).
pub const AUTH_BADCRED: u32 = 1;
/// Auth stat: the credential is of a kind that isn't taken.
pub const AUTH_REJECTEDCRED: u32 = 2;
/// Auth stat: the call needs a stronger protection.
pub const AUTH_TOOWEAK: u32 = 5;
/// Auth stat: there is no such context, or the verifier isn't its peer's (RFC 2203 sections 4 and 5.3.3.3).
pub const RPCSEC_GSS_CREDPROBLEM: u32 = 13;
/// Auth stat: the context can't be used any more, or not with this number (RFC 2203 sections 4 and 5.3.3.3).
pub const RPCSEC_GSS_CTXPROBLEM: u32 = 14;

/// Flavour of a credential or verifier: none (RFC 5531 section 10.1).
pub const AUTH_NONE: u32 = 0;
/// Flavour of a credential or verifier: RPCSEC_GSS (RFC 2203 section 3).
pub const RPCSEC_GSS: u32 = 6;

/// The procedure that each program has by convention: it does nothing, and needs no authentication (RFC 5531 section 12.1).
pub const NULL: u32 = 0;
