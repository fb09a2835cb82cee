//! Keys made ready, RFC 2104 section 4.

ghost use Rattle.mac_sha1.specs.Ready.{Ready};

use crate::mac::{add_each, block_of};
use lanes_sha1::{compress4, first_states, lane_words};

/// A key made ready for codes that are made side by side: the hash values after the blocks of its two pads.
///
/// It is copied freely.
#[derive(Clone, Copy)]
pub struct MacKey {
    pub(crate) inner: [u32; 5],
    pub(crate) outer: [u32; 5],
}

impl MacKey {
    /// The key made ready, in one pass of four lanes.
    pub fn new(key: &[u8]) -> MacKey
        ensures { Ready result key.now }
    {
        let block = block_of(key);
        let inner = add_each(&block, 0x36);
        let outer = add_each(&block, 0x5c);
        let mut states = first_states();
        compress4(&mut states, &[&inner, &outer, &inner, &outer]);
        MacKey {
            inner: lane_words(&states, 0),
            outer: lane_words(&states, 1),
        }
    }
}
