//! A parameter set that is built entry by entry.
ghost use Rattle.std.specs.Prelude.{◌≡◌, ◌≤◌, [], ◌∷◌, ◌++◌, IfErr, OnErr, OnOk, is_some, length, Some, None, ◌⊎◌};
ghost use Rattle.iol_types.specs.declared.data_set.TheConstants.{MOST_ENTRY_OCTETS, MOST_SET_OCTETS};

use crate::data_set::{DataSet, ENTRY_HEAD_OCTETS, MOST_ENTRY_OCTETS, MOST_SET_OCTETS};
use crate::device_id::DeviceId;
use crate::kept_entries::Entries;
use crate::key::Key;
use std::alloc::{AllocError, Global};
use std::marker::Model;
use thiserror::Error;

/// Why an entry is not added. The causes are judged in this order.
#[derive(Clone, Copy, Debug, PartialEq, Eq, Error)]
pub enum AddFault {
    /// No set holds this key: its Index is 0x0000, 0x0002 or 0x0003.
    #[error("a reserved Index")]
    ReservedKey,
    /// More than 232 octets.
    #[error("a parameter of more than 232 octets")]
    EntryTooLong,
    /// There is already an entry with this key.
    #[error("a parameter that is there already")]
    Duplicate,
    /// The entries would count more than 4,096 octets.
    #[error("a set of more than 4096 octets")]
    SetTooLarge,
    /// Out of memory.
    #[error("out of memory")]
    Memory,
}

/// A parameter set that is being built. A contract sees its entries, in their order.
#[derive(Drop)]
pub struct SetBuilder {
    entries: Entries,
}

impl Model for SetBuilder {
    ghost use Rattle.std.specs.Prelude.{List};
    ghost use Rattle.iol_types.specs.DataSet.{Entry, AreEntries};

    ghost Value = { List Entry };

    ghost view = { λ s. s.entries };

    ghost invariant = { λ s. AreEntries s.entries };
}

impl SetBuilder {
    ghost use Rattle.iol_types.specs.Key.{IsKey};
    ghost use Rattle.iol_types.specs.DataSet.{Entry, SetValue, AreEntries, octets_of, add_fault, data_at};

    /// A set without entries.
    pub fn new(alloc: Global) -> SetBuilder
        ensures { result ≡ [] }
    {
        SetBuilder {
            entries: Entries::new(alloc),
        }
    }

    /// Appends an entry.
    ///
    /// # Errors
    /// The first cause, in the order of [`AddFault`]; the entries stay as they were. `Memory` is returned
    /// only if no other cause holds.
    pub fn add(&mut self, key: Key, octets: &[u8]) -> Result<(), AddFault>
        ensures added { OnOk result ((add_fault self.old key octets.now ≡ None) × (self.new ≡ self.old ++ (key, octets.now) ∷ [])) }
        ensures kept { OnErr result (self.new ≡ self.old) }
        ensures cause { IfErr result (λ fault. (add_fault self.old key octets.now ≡ Some fault)
            ⊎ ((add_fault self.old key octets.now ≡ None) × (fault ≡ AddFault.Memory))) }
    {
        if let Some(fault) = self.fault(key, octets) {
            return Err(fault);
        }
        match self.append(key, octets, 1) {
            Ok(()) => Ok(()),
            Err(_) => Err(AddFault::Memory),
        }
    }

    /// Appends an entry for which no cause of an [`AddFault`] but `Memory` holds. If `room` is more than 1,
    /// it reserves space for `room` entries at once, so that the further ones allocate memory only for their
    /// octets.
    ///
    /// # Errors
    /// `AllocError` if out of memory; the entries stay as they were.
    pub fn append(&mut self, key: Key, octets: &[u8], room: usize) -> Result<(), AllocError>
        requires { add_fault self.old key octets.now ≡ None }
        ensures added { OnOk result (self.new ≡ self.old ++ (key, octets.now) ∷ []) }
        ensures kept { OnErr result (self.new ≡ self.old) }
    {
        self.entries.push(key, octets, room)
    }

    // Why an entry may not be added, memory aside.
    fn fault(&self, key: Key, octets: &[u8]) -> Option<AddFault>
        ensures range { IsKey key }
        ensures fault { result ≡ add_fault self.now key octets.now }
    {
        if key.is_reserved() {
            Some(AddFault::ReservedKey)
        } else if octets.len() > MOST_ENTRY_OCTETS {
            Some(AddFault::EntryTooLong)
        } else if self.has(key) {
            Some(AddFault::Duplicate)
        } else if self.octets() + ENTRY_HEAD_OCTETS + octets.len() > MOST_SET_OCTETS {
            Some(AddFault::SetTooLarge)
        } else {
            None
        }
    }

    /// Whether there is an entry with this key.
    pub fn has(&self, key: Key) -> bool
        ensures { result ≡ is_some (data_at self.now key) }
    {
        self.entries.has(key)
    }

    /// What the entries count so far: 4 for each, and its octets; at most 4,096.
    pub fn octets(&self) -> usize
        ensures count { result ≡ octets_of self.now }
        ensures bound { result ≤ MOST_SET_OCTETS }
    {
        self.entries.octets()
    }

    /// Makes the set of these entries, for the device with these numbers and this checksum. It allocates no
    /// memory.
    pub fn finish(self, vendor: u16, device: DeviceId, checksum: u32) -> DataSet
        ensures { result ≡ record { entries = self; vendor = vendor; device = device; checksum = checksum } }
    {
        let SetBuilder { entries } = self;
        DataSet::of(entries, vendor, device, checksum)
    }
}
