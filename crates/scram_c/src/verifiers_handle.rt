//! A handle of C with verifiers in it, or nothing.

ghost use Rattle.std.specs.Prelude.{◌≡◌, List, Option, None, Some, option_map};
ghost use Rattle.scram_mech.specs.declared.verifiers.Verifier.{Verifier};

use c_handles::Parked;
use scram_mech::Verifiers;
use std::alloc::Global;
use std::marker::Model;

/// What C holds of verifiers: a struct that begins as zeros.
#[repr(C)]
pub struct VmVerifiers {
    full: bool,
    at: *mut u8,
    pub ghost value: { Option (List Verifier) },
}

impl Model for VmVerifiers {
    ghost use Rattle.c_handles.specs.Slot.{slot_owns};
    ghost use Rattle.scram_mech.specs.contracts.verifiers.Verifiers.{the_row};

    ghost also_owns = { λ h. slot_owns the_row h.full h.at h.value };
}

impl VmVerifiers {
    /// An empty one.
    pub fn empty() -> VmVerifiers
        ensures { result.value ≡ None }
    {
        VmVerifiers {
            full: false,
            at: std::ptr::null_mut(),
        }
    }

    /// A full one.
    fn of(parked: Parked<Verifiers, Global>) -> VmVerifiers
        ensures { result.value ≡ Some parked.value }
    {
        let Parked { at, alloc: _ } = parked;
        VmVerifiers {
            full: true,
            at: at as *mut u8,
        }
    }

    /// What it holds.
    fn into_parked(self, alloc: Global) -> Option<Parked<Verifiers, Global>>
        ensures { option_map (λ p. p.value) result ≡ self.value }
    {
        let VmVerifiers { full, at } = self;
        if full {
            Some(Parked {
                at: at as *mut Verifiers,
                alloc,
            })
        } else {
            None
        }
    }

    /// Takes out what it holds: it is empty then.
    pub fn take(&mut self, alloc: Global) -> Option<Box<Verifiers>>
        ensures taken { option_map (λ b. b.value) result ≡ self.old.value }
        ensures empty { self.new.value ≡ None }
    {
        match std::mem::replace(self, VmVerifiers::empty()).into_parked(alloc) {
            Some(parked) => Some(parked.into_box()),
            None => None,
        }
    }

    /// Frees what it holds, and puts this in.
    pub fn put(&mut self, alloc: Global, value: Box<Verifiers>)
        ensures { self.new.value ≡ Some value.value }
    {
        drop(self.take(alloc));
        let empty = std::mem::replace(self, VmVerifiers::of(Parked::of(value)));
        drop(empty.into_parked(alloc).map(Parked::into_box));
    }

    /// Frees what it holds, and itself.
    pub fn gone(self, alloc: Global) {
        drop(self.into_parked(alloc).map(Parked::into_box));
    }
}
