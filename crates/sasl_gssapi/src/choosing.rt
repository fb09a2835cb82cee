//! The offer and the choice.

ghost use Rattle.std.specs.Prelude.{◌≡◌, ◌≤◌, ◌<◌, ◌^◌, ◌==◌, ℕ, List, IfOk, length, nat_lt, not};
ghost use Rattle.sec_base.specs.Answers.{Gives};
ghost use Rattle.krb_tokens.specs.Wrap.{unwrapped};
ghost use Rattle.sasl_layer.specs.Layered.{end_of};
ghost use Rattle.sasl_gssapi.specs.Choosing.{picked, limit, is_small, chosen, offer_leads, told};
ghost use Rattle.sasl_gssapi.specs.Choosing.{choice_leads, offer_judged, choice_judged, layered};
ghost use Rattle.sasl_gssapi.specs.Choosing.{words_judged};
ghost use Rattle.sasl_layer.specs.Layered.{IsNew};

use krb_tokens::{MechDone, Side, Unwrapped};
use sasl_layer::{
    Layer, LayerFacts, Layered, SaslRefusal, Wish, end_of, number_in, size_in, strongest,
    token_refused, words_of,
};
use sec_base::{NoMemory, Octets};
use std::alloc::Global;

/// The most octets of a message before the layer, and of one without a layer.
pub const MOST: u32 = 65536;

/// What is judged of an offer or a choice.
#[derive(Clone, Copy)]
pub struct Judged {
    pub layer: Layer,
    /// The greatest token of the other end, as it said.
    pub size: u32,
}

/// The layer of one bit, where it is one of the mask.
fn picked(mask: u8, choice: u8) -> Option<Layer>
    ensures { result ≡ picked mask choice }
{
    if choice == 4 && Layer::Sealed.is_in(mask) {
        return Some(Layer::Sealed);
    }
    if choice == 2 && Layer::Signed.is_in(mask) {
        return Some(Layer::Signed);
    }
    if choice == 1 && Layer::Bare.is_in(mask) {
        return Some(Layer::Bare);
    }
    None
}

/// How many octets a message may have.
fn limit(layer: Layer, size: u32) -> u32
    ensures { result ≡ limit layer size }
{
    match layer {
        Layer::Bare => MOST,
        _ => size,
    }
}

fn is_small(layer: Layer, size: u32) -> bool
    ensures { result ≡ is_small layer size }
{
    match layer {
        Layer::Bare => false,
        _ => size < 64,
    }
}

/// What stands behind the layer is judged.
fn chosen(layer: Option<Layer>, due: u64, token: &[u8], words: &[u8]) -> Result<Judged, SaslRefusal>
    requires token { 16 ≤ length token.now }
    requires words { 4 ≤ length words.now }
    ensures { result ≡ chosen layer due token.now words.now }
{
    let Some(layer) = layer else {
        return Err(SaslRefusal::Layers);
    };
    let size = size_in(words);
    if is_small(layer, size) {
        return Err(SaslRefusal::Size);
    }
    if words.len() > 4 {
        return Err(SaslRefusal::Identity);
    }
    if number_in(token) != due {
        return Err(SaslRefusal::Order { expected: due });
    }
    Ok(Judged { layer, size })
}

/// What the client makes of what the offer's token held.
fn offer_in(mask: u8, due: u64, token: &[u8], held: &Unwrapped) -> Result<Judged, SaslRefusal>
    requires { 16 ≤ length token.now }
    ensures { result ≡ words_judged (not (length held.now.content == 4)) (offer_leads mask) due
        token.now held.now }
{
    let words = held.content.as_slice();
    if words.len() != 4 {
        return Err(SaslRefusal::Length);
    }
    if held.sealed {
        return Err(SaslRefusal::Layers);
    }
    chosen(strongest(words[0], mask), due, token, words)
}

/// What the server makes of what the choice's token held.
fn choice_in(mask: u8, due: u64, token: &[u8], held: &Unwrapped) -> Result<Judged, SaslRefusal>
    requires { 16 ≤ length token.now }
    ensures { result ≡ words_judged (nat_lt (length held.now.content) 4) (choice_leads mask) due
        token.now held.now }
{
    let words = held.content.as_slice();
    if words.len() < 4 {
        return Err(SaslRefusal::Length);
    }
    if held.sealed {
        return Err(SaslRefusal::Layers);
    }
    chosen(picked(mask, words[0]), due, token, words)
}

/// What the offer in a message is judged as, by the client's mask.
#[tactic(auto, using(sasl_layer::proofs::Told::long_taken))]
pub(crate) fn offer_judged(
    alloc: Global,
    done: &MechDone,
    mask: u8,
    message: &[u8],
) -> Result<Judged, SaslRefusal>
    ensures { Gives SaslRefusal.NoMemory (λ j. j) result
        (offer_judged mask done.now.first message.now
        (unwrapped (end_of done.now Side.Initiator) message.now)) }
{
    match end_of(done, Side::Initiator).unwrap(alloc, message) {
        Ok(held) => offer_in(mask, u64::from(done.first), message, &held),
        Err(refusal) => Err(token_refused(refusal)),
    }
}

/// What the choice in a message is judged as, by the server's mask.
#[tactic(auto, using(sasl_layer::proofs::Told::long_taken))]
pub(crate) fn choice_judged(
    alloc: Global,
    done: &MechDone,
    mask: u8,
    message: &[u8],
) -> Result<Judged, SaslRefusal>
    ensures { Gives SaslRefusal.NoMemory (λ j. j) result
        (choice_judged mask done.now.first message.now
        (unwrapped (end_of done.now Side.Acceptor) message.now)) }
{
    match end_of(done, Side::Acceptor).unwrap(alloc, message) {
        Ok(held) => choice_in(mask, u64::from(done.first), message, &held),
        Err(refusal) => Err(token_refused(refusal)),
    }
}

/// The token that tells a mask or a choice, and a size.
#[tactic(auto, using(crate::proofs::Signed::signed_any, crate::proofs::Signed::signed_long))]
pub(crate) fn told(
    alloc: Global,
    done: &MechDone,
    side: Side,
    layers: u8,
    size: u32,
) -> Result<Octets, NoMemory>
    ensures value { IfOk result (λ o. (confounder : List ℕ)
        → o ≡ told done.now side layers size confounder) }
    ensures short { IfOk result (λ o. length o ≡ 32) }
{
    let words = words_of(layers, size);
    end_of(done, side).wrap(alloc, 0, false, &[0u8; 16], &words)
}

/// The end under the layer.
pub(crate) fn layered(done: MechDone, side: Side, wish: Wish, judged: &Judged) -> Layered
    ensures value { result ≡ layered done side wish judged.now }
    ensures new { IsNew result }
{
    let facts = LayerFacts {
        layer: judged.layer,
        outgoing: limit(judged.layer, judged.size),
        incoming: limit(judged.layer, wish.size()),
        done,
    };
    let takes = u64::from(facts.done.first) + 1;
    Layered::begun(facts, side, takes)
}
