//! What a session's calls are to.

use rpcsec_bodies::Service;

/// What a session calls, and how that is protected: the same for each of its calls (RFC 2203 section 5.2.2, RFC 5531 section 9).
#[derive(Clone, Copy)]
pub struct Terms {
    /// How arguments and results are protected.
    pub service: Service,
    /// The program's number.
    pub program: u32,
    /// The program's version.
    pub version: u32,
}
