//! Layers, what an end wishes, and the four octets in which it says so (RFC 4752 sections 3.1 to 3.3).

ghost use Rattle.std.specs.Prelude.{◌≡◌, ℕ, ◌≤◌, ◌<◌, ◌↔◌, Bool, true, length, IfSome, IsSome};
ghost use Rattle.sasl_layer.specs.Layers.{bit_of, has_layer, strongest, size_sent, words_of};
ghost use Rattle.sasl_layer.specs.Layers.{size_in};

/// How messages are protected once both ends are done.
#[derive(Clone, Copy, Debug, PartialEq, Eq)]
pub enum Layer {
    /// They are sent as they are.
    Bare,
    /// In tokens that aren't sealed.
    Signed,
    /// In sealed tokens.
    Sealed,
}

impl Layer {
    /// Its bit in a mask.
    pub fn bit(self) -> u8
        ensures { result ≡ bit_of self }
    {
        match self {
            Layer::Bare => 1,
            Layer::Signed => 2,
            Layer::Sealed => 4,
        }
    }

    /// Whether it is one of a mask.
    pub fn is_in(self, mask: u8) -> bool
        ensures { result ≡ has_layer mask self }
    {
        mask / self.bit() % 2 == 1
    }
}

/// The layers that an end takes, as a mask, and the greatest token that it takes.
#[derive(Clone, Copy, Debug, PartialEq, Eq)]
pub struct Wish {
    pub layers: u8,
    pub size: u32,
    ghost some: { 0 < layers },
    ghost known: { layers ≤ 7 },
    ghost least: { 64 ≤ size },
    ghost most: { size ≤ 0xffffff },
}

impl Wish {
    /// A mask from 1 to 7, and a size from 64 to 16,777,215; None for others.
    pub fn new(layers: u8, size: u32) -> Option<Wish>
        ensures given { IfSome result (λ w. (w.layers ≡ layers) × (w.size ≡ size)) }
        ensures some { IsSome result
            ↔ ((0 < layers) × (layers ≤ 7)) × ((64 ≤ size) × (size ≤ 0xffffff)) }
    {
        if layers == 0 || layers > 7 || size < 64 || size > 0xff_ffff {
            return None;
        }
        Some(Wish { layers, size })
    }

    pub fn layers(&self) -> u8
        ensures { result ≡ self.now.layers }
    {
        self.layers
    }

    pub fn size(&self) -> u32
        ensures { result ≡ self.now.size }
    {
        self.size
    }
}

/// The strongest layer of both masks.
pub fn strongest(mask: u8, other: u8) -> Option<Layer>
    ensures { result ≡ strongest mask other }
{
    if Layer::Sealed.is_in(mask) && Layer::Sealed.is_in(other) {
        return Some(Layer::Sealed);
    }
    if Layer::Signed.is_in(mask) && Layer::Signed.is_in(other) {
        return Some(Layer::Signed);
    }
    if Layer::Bare.is_in(mask) && Layer::Bare.is_in(other) {
        return Some(Layer::Bare);
    }
    None
}

/// The size as it is sent beside these layers.
fn size_sent(layers: u8, size: u32) -> u32
    ensures { result ≡ size_sent layers size }
{
    if layers == 1 { 0 } else { size }
}

/// The four octets that say which layers an end takes, or which one it chose, and its size.
#[tactic(auto, unfolding(crate::specs::Layers::words_of))]
pub fn words_of(layers: u8, size: u32) -> [u8; 4]
    ensures { result ≡ words_of layers size }
{
    let [_, high, middle, low] = size_sent(layers, size).to_be_bytes();
    [layers, high, middle, low]
}

/// The size in such octets.
pub fn size_in(words: &[u8]) -> u32
    requires { 4 ≤ length words.now }
    ensures { result ≡ size_in words.now }
{
    65536 * u32::from(words[1]) + 256 * u32::from(words[2]) + u32::from(words[3])
}
