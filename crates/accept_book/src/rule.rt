//! The rules by which records are answered.

ghost use Rattle.std.specs.Prelude.{◌≡◌};
ghost use Rattle.accept_book.specs.Rules.{rule_number};

/// A rule by which a record is answered. Of a record's kind the first that applies decides.
#[derive(Clone, Copy)]
pub enum Rule {
    /// The call doesn't read (RFC 5531 section 9).
    Unreadable,
    /// The message is no call (RFC 5531 section 9).
    NotCall,
    /// Another version of RPC (RFC 5531 section 9).
    RpcVersion,
    /// A flavour that isn't served (RFC 5531 section 10).
    Flavour,
    /// The credential doesn't read, or doesn't go with the procedure (RFC 2203 sections 5.1 and 5.2.2).
    Credential,
    /// No such context, or one that isn't complete (RFC 2203 section 5.3.3.3).
    NoContext,
    /// The context is past its end (RFC 2203 section 5.3.3.3).
    Expired,
    /// The verifier is no MIC of the peer over the header (RFC 2203 section 5.3.1).
    Verifier,
    /// Another program (RFC 5531 section 9).
    Program,
    /// Another version of the program (RFC 5531 section 9).
    Version,
    /// A procedure that isn't there (RFC 5531 section 9).
    Procedure,
    /// A procedure that needs more protection (RFC 5531 section 9; RFC 2203 section 5.3.2.1).
    Weak,
    /// The body isn't protected as its service says (RFC 2203 sections 5.3.2.2 and 5.3.2.3).
    Body,
    /// The arguments aren't the procedure's (RFC 5531 section 9).
    Arguments,
    /// The context is gone when the number is to be taken (RFC 2203 section 5.3.3.3).
    Gone,
    /// The number is above the greatest that may be (RFC 2203 sections 5.3.1 and 5.3.3.1).
    AboveMax,
    /// The number lies below the window (RFC 2203 section 5.3.3.1).
    Below,
    /// A call of the context had the number (RFC 2203 section 5.3.3.1).
    Repeat,
    /// No place of the log is free (RFC 5531 section 9).
    LogFull,
    /// The token was refused (RFC 2203 section 5.2.3.2).
    Refused,
    /// The negotiation goes on (RFC 2203 section 5.2.3.1).
    Going,
    /// The context is complete (RFC 2203 section 5.2.3.1).
    Settled,
    /// The call was admitted (RFC 2203 section 5.3.3.2).
    Done,
    /// The context was ended (RFC 2203 section 5.4).
    Ended,
    /// The call was admitted, and what became of it isn't known: no reply is due, and its connection ends.
    Lost,
}

impl Rule {
    /// Its number, from 1 to 25.
    pub fn number(self) -> u8
        ensures { result ≡ rule_number self }
    {
        match self {
            Rule::Unreadable => 1,
            Rule::NotCall => 2,
            Rule::RpcVersion => 3,
            Rule::Flavour => 4,
            Rule::Credential => 5,
            Rule::NoContext => 6,
            Rule::Expired => 7,
            Rule::Verifier => 8,
            Rule::Program => 9,
            Rule::Version => 10,
            Rule::Procedure => 11,
            Rule::Weak => 12,
            Rule::Body => 13,
            Rule::Arguments => 14,
            Rule::Gone => 15,
            Rule::AboveMax => 16,
            Rule::Below => 17,
            Rule::Repeat => 18,
            Rule::LogFull => 19,
            Rule::Refused => 20,
            Rule::Going => 21,
            Rule::Settled => 22,
            Rule::Done => 23,
            Rule::Ended => 24,
            Rule::Lost => 25,
        }
    }
}
