//! Values that stand where none was read.

use crate::{EncryptedData, EncryptionKey, PrincipalName, TransitedEncoding};
use sec_base::{Items, Moment, Octets, Text};
use std::alloc::Global;

/// A type with a value that takes no memory.
pub trait Blank: Sized {
    /// This value.
    fn blank(alloc: Global) -> Self;
}

impl Blank for i32 {
    fn blank(_alloc: Global) -> i32 {
        0
    }
}

impl Blank for Moment {
    fn blank(_alloc: Global) -> Moment {
        Moment::start()
    }
}

impl Blank for Octets {
    fn blank(alloc: Global) -> Octets {
        Octets::from_vec(Vec::new(alloc))
    }
}

impl Blank for Text {
    fn blank(alloc: Global) -> Text {
        Text::from_string(String::new(alloc))
    }
}

impl Blank for PrincipalName {
    fn blank(alloc: Global) -> PrincipalName {
        PrincipalName {
            name_type: 0,
            name_string: Items::of(Vec::new(alloc)),
        }
    }
}

impl Blank for EncryptedData {
    fn blank(alloc: Global) -> EncryptedData {
        EncryptedData {
            etype: 0,
            kvno: None,
            cipher: Octets::blank(alloc),
        }
    }
}

impl Blank for EncryptionKey {
    fn blank(alloc: Global) -> EncryptionKey {
        EncryptionKey {
            keytype: 0,
            keyvalue: Octets::blank(alloc),
        }
    }
}

impl Blank for TransitedEncoding {
    fn blank(alloc: Global) -> TransitedEncoding {
        TransitedEncoding {
            tr_type: 0,
            contents: Octets::blank(alloc),
        }
    }
}
