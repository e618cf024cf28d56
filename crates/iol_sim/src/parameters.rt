//! The parameters of a simulated device.

ghost use Rattle.std.specs.Prelude.{◌≡◌, ◌<◌, ◌≤◌, ◌^◌, ◌++◌, ◌∷◌, [], ◌⊎◌, Some, None, is_some, true, false, length, OnOk, OnErr, IfErr};
ghost use Rattle.std.specs.Prelude.{IfSome, slice_get};
ghost use Rattle.std.specs.Map.{keys_of};
ghost use Rattle.std.specs.Option.{option_copied};
ghost use Rattle.iol_types.specs.Key.{IsKey, same_key, is_reserved};
ghost use Rattle.iol_types.specs.DataSet.{Entry, data_at, octets_of};
ghost use Rattle.iol_types.specs.declared.data_set.TheConstants.{MOST_ENTRY_OCTETS};
ghost use Rattle.iol_transfer.specs.List.{list_octets};
ghost use Rattle.iol_transfer.specs.declared.list.Next.TheVariants as next;
ghost use Rattle.iol_sim.specs.Parameters.{weighted};

use arrayvec::ArrayVec;
use indexmap::IndexMap;
use iol_link::DATA_OCTETS;
use iol_transfer::{Next, write_index_list};
use iol_types::{ENTRY_HEAD_OCTETS, Key, MOST_ENTRY_OCTETS};
use std::alloc::Global;
use std::marker::Model;
use thiserror::Error;

/// The most parameters that a simulated device can have.
pub const MOST_PARAMETERS: usize = 70;

/// The reasons why a parameter is not added, in the order of the checks.
#[derive(Clone, Copy, Debug, PartialEq, Eq, Error)]
pub enum DeviceFault {
    /// No parameter can have this key: its Index is 0x0000, 0x0002 or 0x0003.
    #[error("a reserved Index")]
    ReservedKey,
    /// The parameter has more than 232 octets.
    #[error("a parameter of more than 232 octets")]
    TooLong,
    /// There is a parameter with this key already.
    #[error("a parameter that is there already")]
    Duplicate,
    /// There are 70 parameters already.
    #[error("more than 70 parameters")]
    TooMany,
    /// Out of memory.
    #[error("out of memory")]
    Memory,
}

/// The parameters of a simulated device. A contract sees them in their order.
#[derive(Drop)]
pub struct Parameters {
    entries: IndexMap<Key, ArrayVec<u8, MOST_ENTRY_OCTETS>>,
}

impl Model for Parameters {
    ghost use Rattle.std.specs.Prelude.{List};
    ghost use Rattle.iol_types.specs.DataSet.{Entry};
    ghost use Rattle.iol_sim.specs.Parameters.{AreParameters, entries_of};

    ghost Value = { List Entry };

    ghost view = { λ p. entries_of p.entries.entries };

    ghost invariant = { λ p. AreParameters (entries_of p.entries.entries) };
}

impl Parameters {
    ghost use Rattle.indexmap.specs.IndexMap.{insert_entry};
    ghost use Rattle.iol_sim.specs.Parameters.{add_fault, checksum_of, AreParameters};

    /// Creates parameters without an entry.
    pub fn new(alloc: Global) -> Parameters
        ensures { result ≡ [] }
    {
        Parameters {
            entries: IndexMap::new(alloc),
        }
    }

    /// Adds a parameter after the others.
    ///
    /// # Errors
    /// The first cause, in the order of [`DeviceFault`]; the parameters are then unchanged.
    /// `Memory` occurs only if no other cause applies.
    pub fn add(&mut self, key: Key, octets: &[u8]) -> Result<(), DeviceFault>
        ensures added { OnOk result ((add_fault self.old key octets.now ≡ None)
            × (self.new ≡ self.old ++ (key, octets.now) ∷ [])) }
        ensures kept { OnErr result (self.new ≡ self.old) }
        ensures cause { IfErr result (λ fault. (add_fault self.old key octets.now ≡ Some fault)
            ⊎ ((add_fault self.old key octets.now ≡ None) × (fault ≡ DeviceFault.Memory))) }
    {
        if let Some(fault) = self.fault(key, octets) {
            return Err(fault);
        }
        match self.entries.insert(key, data_of(octets)) {
            Ok(_) => Ok(()),
            Err(_) => Err(DeviceFault::Memory),
        }
    }

    // The reason why a parameter is not added, if there is one besides memory.
    fn fault(&self, key: Key, octets: &[u8]) -> Option<DeviceFault>
        ensures range { IsKey key }
        ensures fault { result ≡ add_fault self.now key octets.now }
    {
        if key.is_reserved() {
            Some(DeviceFault::ReservedKey)
        } else if octets.len() > MOST_ENTRY_OCTETS {
            Some(DeviceFault::TooLong)
        } else if self.get(key).is_some() {
            Some(DeviceFault::Duplicate)
        } else if self.len() < MOST_PARAMETERS {
            None
        } else {
            Some(DeviceFault::TooMany)
        }
    }

    /// The octets of a parameter, or `None` if there is no parameter with this key.
    pub fn get(&self, key: Key) -> Option<&[u8]>
        ensures octets { option_copied result ≡ data_at self.now key }
        ensures short { IfSome result (λ octets. length octets.now ≤ MOST_ENTRY_OCTETS) }
    {
        match self.entries.get(&key) {
            Some(data) => Some(data.as_slice()),
            None => None,
        }
    }

    /// Replaces the octets of an existing parameter.
    pub fn write(&mut self, key: Key, octets: &[u8])
        requires there { is_some (data_at self.old key) ≡ true }
        requires short { length octets.now ≤ MOST_ENTRY_OCTETS }
        ensures { self.new ≡ insert_entry same_key self.old key octets.now }
    {
        match self.entries.insert(key, data_of(octets)) {
            Ok(_) => {}
            Err(_) => {}
        }
    }

    /// The number of parameters, at most 70.
    pub fn len(&self) -> usize
        ensures count { result ≡ length self.now }
        ensures bound { result ≤ MOST_PARAMETERS }
        ensures parameters { AreParameters self.now }
    {
        self.entries.len()
    }

    /// The parameter at a place, from 0.
    pub fn at(&self, place: usize) -> (Key, &[u8])
        requires { place < length self.now }
        ensures entry { slice_get self.now place ≡ Some (result.0, result.1.now) }
        ensures short { length result.1.now ≤ MOST_ENTRY_OCTETS }
        ensures free { is_reserved result.0 ≡ false }
    {
        let (key, data) = self.entries.get_index(place).unwrap();
        (*key, data.as_slice())
    }

    /// Data_Storage_Size: for each parameter, 4 plus the number of its octets.
    pub fn size(&self) -> u32
        ensures { result ≡ octets_of self.now }
    {
        let mut octets = 0;
        for place in 0..self.len() {
            let (_, data) = self.at(place);
            octets += ENTRY_HEAD_OCTETS + data.len();
        }
        octets as u32
    }

    /// Parameter_Checksum: the sum, modulo 2^32, of each octet of the parameters in their order,
    /// times its place, counted from 1.
    pub fn checksum(&self) -> u32
        ensures { result ≡ checksum_of self.now }
    {
        let mut sum = 0;
        let mut next = 1;
        for place in 0..self.len() {
            let (_, data) = self.at(place);
            sum += weighted(next, data);
            next += data.len() as u64;
        }
        (sum % (1 << 32)) as u32
    }

    /// Index_List: the keys in their order, and the end of the list.
    pub fn index_list(&self) -> ArrayVec<u8, DATA_OCTETS>
        ensures { result.items ≡ list_octets (keys_of self.now) next.End }
    {
        let mut keys = [Key {
            index: 1,
            subindex: 0,
        }; MOST_PARAMETERS];
        for place in 0..self.len() {
            let (key, _) = self.at(place);
            keys[place] = key;
        }
        write_index_list(&keys[..self.len()], Next::End)
    }
}

// The sum of the octets, each times its place; `first` is the place of the first octet.
fn weighted(first: u64, octets: &[u8]) -> u64
    requires first { first ≤ 2 ^ 16 }
    requires short { length octets.now ≤ MOST_ENTRY_OCTETS }
    ensures sum { result ≡ weighted first octets.now }
    ensures bound { result ≤ 2 ^ 34 }
{
    let mut sum = 0;
    let mut place = first;
    for octet in octets {
        sum += place * u64::from(*octet);
        place += 1;
    }
    sum
}

// The octets of a parameter, as they are kept beside its key.
fn data_of(octets: &[u8]) -> ArrayVec<u8, MOST_ENTRY_OCTETS>
    requires { length octets.now ≤ MOST_ENTRY_OCTETS }
    ensures { result.items ≡ octets.now }
{
    let mut data = ArrayVec::new();
    data.try_extend_from_slice(octets).unwrap();
    data
}
