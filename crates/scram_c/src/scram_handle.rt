//! A handle of C with an exchange in it, or nothing.

ghost use Rattle.std.specs.Prelude.{◌≡◌, Option, None, Some, option_map};
ghost use Rattle.scram_c.specs.declared.exchange.Exchange.{Exchange};

use crate::exchange::Exchange;
use c_handles::Parked;
use std::alloc::Global;
use std::marker::Model;

/// What C holds of an exchange: a struct that begins as zeros.
#[repr(C)]
pub struct VmScram {
    full: bool,
    at: *mut u8,
    pub ghost value: { Option Exchange },
}

impl Model for VmScram {
    ghost use Rattle.c_handles.specs.Slot.{slot_owns};
    ghost use Rattle.scram_c.specs.contracts.exchange.Exchange.{the_row};

    ghost also_owns = { λ h. slot_owns the_row h.full h.at h.value };
}

impl VmScram {
    /// An empty one.
    pub fn empty() -> VmScram
        ensures { result.value ≡ None }
    {
        VmScram {
            full: false,
            at: std::ptr::null_mut(),
        }
    }

    /// A full one.
    fn of(parked: Parked<Exchange, Global>) -> VmScram
        ensures { result.value ≡ Some parked.value }
    {
        let Parked { at, alloc: _ } = parked;
        VmScram {
            full: true,
            at: at as *mut u8,
        }
    }

    /// What it holds.
    fn into_parked(self, alloc: Global) -> Option<Parked<Exchange, Global>>
        ensures { option_map (λ p. p.value) result ≡ self.value }
    {
        let VmScram { full, at } = self;
        if full {
            Some(Parked {
                at: at as *mut Exchange,
                alloc,
            })
        } else {
            None
        }
    }

    /// Takes out what it holds: it is empty then.
    pub fn take(&mut self, alloc: Global) -> Option<Box<Exchange>>
        ensures taken { option_map (λ b. b.value) result ≡ self.old.value }
        ensures empty { self.new.value ≡ None }
    {
        match std::mem::replace(self, VmScram::empty()).into_parked(alloc) {
            Some(parked) => Some(parked.into_box()),
            None => None,
        }
    }

    /// Frees what it holds, and puts this in.
    pub fn put(&mut self, alloc: Global, value: Box<Exchange>)
        ensures { self.new.value ≡ Some value.value }
    {
        drop(self.take(alloc));
        let empty = std::mem::replace(self, VmScram::of(Parked::of(value)));
        drop(empty.into_parked(alloc).map(Parked::into_box));
    }

    /// Frees what it holds, and itself.
    pub fn gone(self, alloc: Global) {
        drop(self.into_parked(alloc).map(Parked::into_box));
    }
}
