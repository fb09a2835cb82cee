//! The numbers that C is answered.

ghost use Rattle.std.specs.Prelude.{◌≡◌};
ghost use Rattle.scram_c.specs.Status.{status_number, scram_code, token_code};

use krb_tokens::TokenRefusal;
use scram_mech::ScramRefusal;

/// What an export answers.
#[derive(Clone, Copy)]
pub enum Status {
    /// It is done; of an exchange: the context stands.
    Done,
    /// The exchange goes on: a token is to be sent, and one of the other end is due.
    More,
    /// No memory was to be had. Nothing changed.
    NoMemory,
    /// The handle is empty.
    Empty,
    /// The exchange is not where this call may come. Nothing changed.
    NotDue,
    /// The acceptor's first step has no verifiers. Nothing changed.
    NoVerifiers,
    /// The octets that are due don't fit. Their count is told.
    NoRoom,
    /// The user or the password is no UTF-8.
    NotText,
    /// The channel bindings have more than 32,768 octets.
    LongBindings,
    /// A line of the verifiers isn't in the grammar.
    Line,
    /// A name stands twice in the verifiers.
    Twice,
    /// The exchange was refused, and is over.
    Scram(ScramRefusal),
    /// A token of a message was refused.
    Token(TokenRefusal),
}

impl Status {
    /// Its number.
    pub fn number(self) -> u32
        ensures { result ≡ status_number self }
    {
        match self {
            Status::Done => 0,
            Status::More => 1,
            Status::NoMemory => 2,
            Status::Empty => 3,
            Status::NotDue => 4,
            Status::NoVerifiers => 5,
            Status::NoRoom => 6,
            Status::NotText => 7,
            Status::LongBindings => 8,
            Status::Line => 9,
            Status::Twice => 10,
            Status::Scram(refusal) => scram_code(refusal),
            Status::Token(refusal) => token_code(refusal),
        }
    }
}

fn scram_code(refusal: ScramRefusal) -> u32
    ensures { result ≡ scram_code refusal }
{
    match refusal {
        ScramRefusal::Text { at: _ } => 201,
        ScramRefusal::Mandatory => 202,
        ScramRefusal::Nonce => 203,
        ScramRefusal::Rounds => 204,
        ScramRefusal::NoUser => 205,
        ScramRefusal::Bindings => 206,
        ScramRefusal::Proof => 207,
        ScramRefusal::Signature => 208,
        ScramRefusal::PeerError => 209,
        ScramRefusal::NoMemory => 2,
    }
}

fn token_code(refusal: TokenRefusal) -> u32
    ensures { result ≡ token_code refusal }
{
    match refusal {
        TokenRefusal::Length => 301,
        TokenRefusal::Kind => 302,
        TokenRefusal::Direction => 303,
        TokenRefusal::Subkey => 304,
        TokenRefusal::Filler => 305,
        TokenRefusal::BadChecksum => 306,
        TokenRefusal::ExtraCount => 307,
        TokenRefusal::InnerHeader => 308,
        TokenRefusal::NoMemory => 2,
    }
}
