//! Numbers of RPCSEC_GSS, by their names in RFC 2203.

/// The version of RPCSEC_GSS (RFC 2203 section 5).
pub const RPCSEC_GSS_VERS_1: u32 = 1;

/// Procedure of a credential: a call of a context (RFC 2203 section 5).
pub const RPCSEC_GSS_DATA: u32 = 0;
/// Procedure of a credential: the first token of a context.
pub const RPCSEC_GSS_INIT: u32 = 1;
/// Procedure of a credential: a later token of a context.
pub const RPCSEC_GSS_CONTINUE_INIT: u32 = 2;
/// Procedure of a credential: a context is destroyed.
pub const RPCSEC_GSS_DESTROY: u32 = 3;

/// Service of a call: its body is protected by nothing (RFC 2203 section 5).
pub const RPC_GSS_SVC_NONE: u32 = 1;
/// Service of a call: its body is signed.
pub const RPC_GSS_SVC_INTEGRITY: u32 = 2;
/// Service of a call: its body is sealed.
pub const RPC_GSS_SVC_PRIVACY: u32 = 3;
