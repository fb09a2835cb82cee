//! How calls are protected, RFC 2203 section 5.3.2.

ghost use Rattle.std.specs.Prelude.{◌≡◌};
ghost use Rattle.rpcsec_bodies.specs.Service.{number_of, service_of};

use rpcsec_msgs::numbers::{RPC_GSS_SVC_INTEGRITY, RPC_GSS_SVC_NONE, RPC_GSS_SVC_PRIVACY};

/// How calls and their results are protected.
#[derive(Clone, Copy, PartialEq, Eq)]
pub enum Service {
    /// Their headers alone.
    None,
    /// By a MIC over the arguments or the result.
    Integrity,
    /// Sealed.
    Privacy,
}

impl Service {
    /// The number of the service in a credential.
    pub fn number(self) -> u32
        ensures { result ≡ number_of self }
    {
        match self {
            Service::None => RPC_GSS_SVC_NONE,
            Service::Integrity => RPC_GSS_SVC_INTEGRITY,
            Service::Privacy => RPC_GSS_SVC_PRIVACY,
        }
    }

    /// The service of a number. A credential that was read has the number of one of the three.
    pub fn of(number: u32) -> Service
        ensures { result ≡ service_of number }
    {
        if number == RPC_GSS_SVC_NONE {
            return Service::None;
        }
        if number == RPC_GSS_SVC_INTEGRITY {
            return Service::Integrity;
        }
        Service::Privacy
    }
}
