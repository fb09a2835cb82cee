//! Messages under a layer (RFC 4752 section 3, RFC 4121 section 4.2.4).

ghost use Rattle.std.specs.Prelude.{◌≡◌, ◌≤◌, ◌-◌, ◌^◌, nat_lt, not, length, IfOk};
ghost use Rattle.sec_base.specs.Answers.{Gives};
ghost use Rattle.krb_tokens.specs.Wrap.{unwrapped};
ghost use Rattle.sasl_layer.specs.Layers.{number_in};
ghost use Rattle.sasl_layer.specs.Layered.{begun, end_of, size_carried, carried, sends, sent};
ghost use Rattle.sasl_layer.specs.Layered.{is_as, is_spent, opened_in, receives, received};

use crate::facts::LayerFacts;
use crate::layer::Layer;
use crate::refusal::{SaslRefusal, token_refused};
use krb_tokens::{KeyCache, MechDone, Side, TokenEnd};
use sec_base::{NoMemory, Octets};
use std::alloc::Global;
use std::marker::Model;

/// An end that is done: it sends and takes messages.
#[derive(Drop)]
pub struct Layered {
    pub(crate) facts: LayerFacts,
    pub(crate) side: Side,
    /// The number of the next message to the other end, and of the next one of the other end.
    pub(crate) sends: u64,
    pub(crate) takes: u64,
    /// The keys of sealed tokens, where the layer has them.
    pub(crate) keys: KeyCache,
}

impl Model for Layered {
    ghost use Rattle.sasl_layer.specs.State.{LayerState};

    ghost Value = { LayerState };

    ghost view = { λ l. record {
      facts = l.facts;
      side = l.side;
      sends = l.sends;
      takes = l.takes;
    } };
}

/// The end of the context that makes and reads tokens at this side.
pub fn end_of(done: &MechDone, side: Side) -> TokenEnd
    ensures { result ≡ end_of done.now side }
{
    TokenEnd {
        key: done.key,
        side,
        subkey: done.subkey,
    }
}

/// The number of a token.
pub fn number_in(token: &[u8]) -> u64
    requires { 16 ≤ length token.now }
    ensures { result ≡ number_in token.now }
{
    u64::from_be_bytes([
        token[8], token[9], token[10], token[11], token[12], token[13], token[14], token[15],
    ])
}

/// How many octets a message has beside what it carries.
fn size_beside(layer: Layer) -> usize
    ensures { result ≡ size_carried layer 0 }
{
    match layer {
        Layer::Bare => 0,
        Layer::Signed => 28,
        Layer::Sealed => 60,
    }
}

/// Whether a token is sealed, or isn't, as is due.
fn is_as(due: bool, sealed: bool) -> bool
    ensures { result ≡ is_as due sealed }
{
    if due { sealed } else { !sealed }
}

/// The keys of an end's sealed tokens; none for another layer.
fn keys_of(facts: &LayerFacts, side: Side) -> KeyCache {
    let mut keys = KeyCache::empty();
    if let Layer::Sealed = facts.layer {
        keys.keep_sealing(&end_of(&facts.done, side));
    }
    keys
}

impl Layered {
    /// An end behind the choice, whose next message to the other end has number 1, and the next one of the other end that number.
    pub fn begun(facts: LayerFacts, side: Side, takes: u64) -> Layered
        ensures { result ≡ begun facts side takes }
    {
        let keys = keys_of(&facts, side);
        Layered {
            facts,
            side,
            sends: 1,
            takes,
            keys,
        }
    }

    /// What both ends agreed on.
    pub fn facts(&self) -> LayerFacts
        ensures { result ≡ self.now.facts }
    {
        self.facts
    }

    /// Whether the next message to the other end has a number.
    pub fn may_send(&self) -> bool
        ensures { result ≡ not (is_spent self.now.sends) }
    {
        self.sends < u64::MAX
    }

    /// Whether the next message of the other end has a number.
    pub fn may_receive(&self) -> bool
        ensures { result ≡ not (is_spent self.now.takes) }
    {
        self.takes < u64::MAX
    }

    /// Whether a message that carries so many octets has more than the other end takes.
    fn is_too_long(&self, count: usize) -> bool
        ensures { result ≡ nat_lt self.now.facts.outgoing
            (size_carried self.now.facts.layer count) }
    {
        let most = self.facts.outgoing as usize;
        let beside = size_beside(self.facts.layer);
        most < beside || most - beside < count
    }

    /// The message that carries these octets.
    fn carried(
        &self,
        alloc: Global,
        bytes: &[u8],
        confounder: &[u8; 16],
    ) -> Result<Octets, NoMemory>
        ensures { IfOk result (λ o. o ≡ carried self.now confounder.now bytes.now) }
    {
        let end = end_of(&self.facts.done, self.side);
        match self.facts.layer {
            Layer::Bare => Octets::of(alloc, bytes),
            Layer::Signed => end.wrap(alloc, self.sends, false, confounder, bytes),
            Layer::Sealed => end.wrap_by(alloc, &self.keys, self.sends, true, confounder, bytes),
        }
    }

    /// The message to the other end that carries these octets: refused by TooLong exactly where it would have more octets than that takes.
    /// After a refusal this end is as before.
    #[tactic(auto, unfolding(crate::specs::Layered::sends), using(crate::proofs::Sizes::carried_short))]
    pub fn send(
        &mut self,
        alloc: Global,
        bytes: &[u8],
        confounder: &[u8; 16],
    ) -> Result<Octets, SaslRefusal>
        requires { self.old.sends ≤ 2 ^ 64 - 2 }
        ensures exact { Gives SaslRefusal.NoMemory (λ o. o) result
            (sends self.old bytes.now confounder.now) }
        ensures after { self.new ≡ sent self.old result }
        ensures short { IfOk result (λ o. length o ≤ self.old.facts.outgoing) }
    {
        if self.is_too_long(bytes.len()) {
            return Err(SaslRefusal::TooLong);
        }
        let message = self.carried(alloc, bytes, confounder)?;
        self.sends += 1;
        Ok(message)
    }

    /// What a token holds.
    #[tactic(auto, using(crate::proofs::Told::long_taken))]
    fn opened(&self, alloc: Global, sealed: bool, message: &[u8]) -> Result<Octets, SaslRefusal>
        ensures { Gives SaslRefusal.NoMemory (λ o. o) result
            (opened_in sealed self.now.takes message.now
            (unwrapped (end_of self.now.facts.done self.now.side) message.now)) }
    {
        let end = end_of(&self.facts.done, self.side);
        match end.unwrap_by(alloc, &self.keys, message) {
            Ok(held) => {
                if !is_as(sealed, held.sealed) {
                    return Err(SaslRefusal::Layers);
                }
                if number_in(message) != self.takes {
                    return Err(SaslRefusal::Order {
                        expected: self.takes,
                    });
                }
                let content = Octets::of(alloc, held.content.as_slice())?;
                Ok(content)
            }
            Err(refusal) => Err(token_refused(refusal)),
        }
    }

    /// What a message of the other end carries.
    #[tactic(auto, unfolding(crate::specs::Layered::receives))]
    pub fn receive(&mut self, alloc: Global, message: &[u8]) -> Result<Octets, SaslRefusal>
        requires { self.old.takes ≤ 2 ^ 64 - 2 }
        ensures exact { Gives SaslRefusal.NoMemory (λ o. o) result
            (receives self.old message.now) }
        ensures after { self.new ≡ received self.old result }
    {
        if message.len() > self.facts.incoming as usize {
            return Err(SaslRefusal::TooLong);
        }
        let octets = match self.facts.layer {
            Layer::Bare => {
                let copy = Octets::of(alloc, message)?;
                copy
            }
            Layer::Signed => self.opened(alloc, false, message)?,
            Layer::Sealed => self.opened(alloc, true, message)?,
        };
        self.takes += 1;
        Ok(octets)
    }
}
