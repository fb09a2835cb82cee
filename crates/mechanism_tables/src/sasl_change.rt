//! What becomes of a message of SASL GSSAPI on its way.

use crate::sasl_ends::opened;
use krb_tokens::Side;
use sasl_gssapi::SaslAccept;
use sasl_layer::end_of;
use sec_base::Octets;
use std::alloc::Global;
use table_rows::Said;

/// What happens to the message of one number: 1 the request, 2 the reply, 3 the empty one, 4 the offer, 5 the choice, 6 the data.
#[derive(Drop)]
pub struct Change<'a> {
    pub step: u64,
    pub how: &'a str,
    pub octets: Vec<u8>,
    /// The octet that is altered, from 0 on.
    pub place: u64,
    /// The bits of it that are turned.
    pub bits: u8,
}

/// Octets, some bits of one of which are turned, if it is there.
fn altered(alloc: Global, bytes: &[u8], place: u64, bits: u8) -> Option<Octets> {
    let mut list = Vec::new(alloc);
    for (at, octet) in bytes.iter().enumerate() {
        let bits = if at as u64 == place { bits } else { 0 };
        list.push(*octet ^ bits).ok()?;
    }
    Some(Octets::from_vec(list))
}

/// So many octets.
pub fn zeros(alloc: Global, count: u64) -> Option<Octets> {
    let mut list = Vec::new(alloc);
    for _ in 0..count {
        list.push(0).ok()?;
    }
    Some(Octets::from_vec(list))
}

/// What was made, or nothing, which is noted.
fn made(said: &mut Said, octets: Option<Octets>) -> Octets {
    match octets {
        Some(octets) => octets,
        None => {
            said.starve();
            Octets::from_vec(Vec::new(said.alloc()))
        }
    }
}

/// A token of one side of the context that the server's end agreed on, with number 0.
fn token(
    alloc: Global,
    end: &SaslAccept,
    side: Side,
    sealed: bool,
    words: &[u8],
) -> Option<Octets> {
    match end {
        SaslAccept::Offered(agreed) => end_of(&agreed.done, side)
            .wrap(alloc, 0, sealed, &[0u8; 16], words)
            .ok(),
        _ => None,
    }
}

impl Change<'_> {
    /// The message as it comes where it is changed.
    fn changed(&self, alloc: Global, message: &[u8]) -> Option<Octets> {
        match self.how {
            "at" => altered(alloc, message, self.place, self.bits),
            "flip" => altered(alloc, message, (message.len() as u64).saturating_sub(1), 1),
            "long" => zeros(alloc, 65_537),
            "is" => Octets::of(alloc, self.octets.as_slice()).ok(),
            _ => Octets::of(alloc, message).ok(),
        }
    }

    /// The message as it comes: changed, or another one.
    pub fn of(&self, said: &mut Said, step: u64, message: Octets) -> Octets {
        if self.step != step {
            return message;
        }
        let changed = self.changed(said.alloc(), message.as_slice());
        drop(message);
        made(said, changed)
    }

    /// The same of an offer or a choice, of this side, which may also be a token with other words, sealed or not.
    fn of_token(
        &self,
        said: &mut Said,
        step: u64,
        message: Octets,
        end: &SaslAccept,
        side: Side,
    ) -> Octets {
        let sealed = self.how == "sealed";
        if self.step == step && (sealed || self.how == "words") {
            drop(message);
            let token = token(said.alloc(), end, side, sealed, self.octets.as_slice());
            return made(said, token);
        }
        self.of(said, step, message)
    }

    /// The offer as it comes; says what the server put into it.
    pub fn of_offer(&self, said: &mut Said, message: Octets, end: &SaslAccept) -> Octets {
        opened(said, end, Side::Initiator, message.as_slice());
        self.of_token(said, 4, message, end, Side::Acceptor)
    }

    /// The choice as it comes; says what the client put into it.
    pub fn of_choice(&self, said: &mut Said, message: Octets, end: &SaslAccept) -> Octets {
        opened(said, end, Side::Acceptor, message.as_slice());
        self.of_token(said, 5, message, end, Side::Initiator)
    }
}
