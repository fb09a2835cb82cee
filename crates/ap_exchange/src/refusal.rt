//! What either end refuses.

ghost use Rattle.std.specs.Prelude.{◌≡◌, ◌≢◌, ◌+◌, ◌<◌, ◌^◌};
ghost use Rattle.der_core.specs.declared.refusal.DerWhy.TheVariants as whys;
ghost use Rattle.ap_exchange.specs.Numbers.{ap_number};
ghost use Rattle.ap_exchange.specs.declared.refusal.ApRefusal.TheVariants as refusals;

use der_core::{DerRefusal, DerWhy};
use sec_base::NoMemory;

/// What was read where octets aren't in their grammar.
#[derive(Clone, Copy, Debug, PartialEq, Eq)]
pub enum Part {
    /// The token; places count from its first octet.
    Token,
    /// The credential's ticket, or what a ticket opened to.
    Ticket,
    /// What the authenticator opened to.
    Authenticator,
    /// The reply's message, or what its sealed part opened to.
    Reply,
}

/// Why an end refuses, in the order in which it is judged.
#[derive(Clone, Copy, Debug, PartialEq, Eq)]
pub enum ApRefusal {
    /// Octets of this part aren't in their grammar, from the place `at` on; judged at the step that reads the part.
    Der { part: Part, at: usize, why: DerWhy },
    /// The token is none of the kinds that are due.
    Kind,
    /// The initiator doesn't ask for mutual authentication.
    NotMutual,
    /// The ticket is for another server.
    TicketNames,
    /// The keytab has no key of the ticket's number and type.
    NoKey,
    /// The ticket doesn't open.
    TicketClosed,
    /// A session key or subkey is of no known type, or hasn't its type's length.
    KeyType,
    /// The authenticator isn't of the session key's type, or doesn't open.
    AuthClosed,
    /// The authenticator's client isn't the ticket's.
    NameMatch,
    /// There is no checksum, or it isn't the exchange's.
    ChecksumType,
    /// The initiator's bindings are others.
    Bindings,
    /// The authenticator's moment is more than 300 seconds from now.
    Skew,
    /// The ticket begins more than 300 seconds after now, or is INVALID.
    NotYet,
    /// The ticket ended more than 300 seconds before now.
    Expired,
    /// The reply isn't of the session key's type, or doesn't open.
    ReplyClosed,
    /// The reply's moment isn't the request's.
    ReplyStamp,
    /// The acceptor answered an error with this code.
    PeerError { code: i32 },
    /// No memory was to be had.
    NoMemory,
}

impl ApRefusal {
    /// The number by which it is told: the minor status that an acceptor sends, and what a client prints.
    pub fn number(self) -> u32
        ensures { result ≡ ap_number self }
    {
        match self {
            ApRefusal::Der {
                part: _,
                at: _,
                why: _,
            } => 101,
            ApRefusal::Kind => 102,
            ApRefusal::NotMutual => 103,
            ApRefusal::TicketNames => 104,
            ApRefusal::NoKey => 105,
            ApRefusal::TicketClosed => 106,
            ApRefusal::KeyType => 107,
            ApRefusal::AuthClosed => 108,
            ApRefusal::NameMatch => 109,
            ApRefusal::ChecksumType => 110,
            ApRefusal::Bindings => 111,
            ApRefusal::Skew => 112,
            ApRefusal::NotYet => 113,
            ApRefusal::Expired => 114,
            ApRefusal::ReplyClosed => 115,
            ApRefusal::ReplyStamp => 116,
            ApRefusal::PeerError { code: _ } => 117,
            ApRefusal::NoMemory => 0,
        }
    }
}

impl From<NoMemory> for ApRefusal {
    ghost use Rattle.ap_exchange.specs.declared.refusal.ApRefusal.{ApRefusal};

    ghost from_gives = { λ _ e. e ≡ refusals.NoMemory };

    fn from(_error: NoMemory) -> ApRefusal {
        ApRefusal::NoMemory
    }
}

/// The refusal of octets of this part.
pub fn refused(part: Part, refusal: DerRefusal) -> ApRefusal
    ensures der { refusal.why ≢ whys.NoMemory → result ≡ ApRefusal.Der part refusal.at refusal.why }
    ensures memory { refusal.why ≡ whys.NoMemory → result ≡ ApRefusal.NoMemory }
{
    match refusal.why {
        DerWhy::NoMemory => ApRefusal::NoMemory,
        why => ApRefusal::Der {
            part,
            at: refusal.at,
            why,
        },
    }
}

/// The refusal of octets that begin behind so many of this part.
pub fn refused_behind(part: Part, before: usize, refusal: DerRefusal) -> ApRefusal
    requires { refusal.why ≢ whys.NoMemory → before + refusal.at < 2 ^ 64 }
    ensures der { refusal.why ≢ whys.NoMemory
        → result ≡ ApRefusal.Der part (before + refusal.at) refusal.why }
    ensures memory { refusal.why ≡ whys.NoMemory → result ≡ ApRefusal.NoMemory }
{
    match refusal.why {
        DerWhy::NoMemory => ApRefusal::NoMemory,
        why => ApRefusal::Der {
            part,
            at: before + refusal.at,
            why,
        },
    }
}
