//! What is kept of a device: its parameters, the device that they belong to, and the checksum that it
//! reported.
ghost use Rattle.std.specs.Prelude.{◌≡◌, ◌≤◌, ◌↔◌, length, nat_eq, slice_get, IsTrue, IfSome};
ghost use Rattle.std.specs.List.{concat, flat_map};
ghost use Rattle.std.specs.Option.{option_copied, option_map};
ghost use Rattle.iol_types.specs.declared.data_set.TheConstants.{MOST_ENTRY_OCTETS, MOST_SET_OCTETS};
ghost use Rattle.iol_types.specs.declared.parts.TheConstants.{PART_OCTETS};

use crate::device_id::DeviceId;
use crate::kept_entries::Entries;
use crate::key::Key;
use std::marker::Model;

/// The maximum number of octets of a parameter in a set.
pub const MOST_ENTRY_OCTETS: usize = 232;
/// What an entry counts in addition to its octets: Index 2, Subindex 1, length 1.
pub const ENTRY_HEAD_OCTETS: usize = 4;
/// The maximum that the entries of a set count together.
pub const MOST_SET_OCTETS: usize = 4096;

/// A parameter set: the contents of one device's Data Storage (IO-Link V1.1, Data Storage object). A contract
/// sees the record `SetValue` of `specs/DataSet.antt`.
///
/// Its keys are distinct and none is reserved. Each key has 0 to 232 octets, and together the entries count
/// at most 4,096: 4 for each entry, and its octets. [`SetBuilder`](crate::SetBuilder) makes one.
#[derive(Debug, Drop)]
pub struct DataSet {
    entries: Entries,
    vendor: u16,
    device: DeviceId,
    checksum: u32,
}

impl Model for DataSet {
    ghost use Rattle.iol_types.specs.DataSet.{SetValue, IsSet};

    ghost Value = { SetValue };

    ghost use Rattle.iol_types.specs.SetInMemory.{set_of};

    ghost view = { set_of };

    ghost invariant = { λ s. IsSet (set_of s) };
}

/// Sets are equal if they have the same entries in the same order, and equal numbers. Comparing allocates no
/// memory.
impl PartialEq for DataSet {
    ghost use Rattle.std.specs.Cmp.{partial_equiv_from_equiv};
    ghost use Rattle.iol_types.specs.Sameness.{same_set, same_set-laws};

    ghost eq = { same_set };

    ghost laws = { partial_equiv_from_equiv same_set-laws };

    // The cheap comparisons come first.
    fn eq(&self, other: &DataSet) -> bool
        ensures test { result ≡ same_set self.now other.now }
        ensures exactly { IsTrue result ↔ (self.now ≡ other.now) }
    {
        self.vendor == other.vendor
            && self.device == other.device
            && self.checksum == other.checksum
            && self.octets() == other.octets()
            && self.len() == other.len()
            && has_entries_of(self, other)
    }
}

impl Eq for DataSet {
    ghost use Rattle.iol_types.specs.Sameness.{same_set-laws};

    ghost laws = { same_set-laws };
}

// Whether two sets with the same number of entries have the same ones in the same order.
fn has_entries_of(set: &DataSet, other: &DataSet) -> bool
    requires { length set.now.entries ≡ length other.now.entries }
    ensures { IsTrue result ↔ (set.now.entries ≡ other.now.entries) }
{
    for place in 0..set.len() {
        if set.entry(place) != other.entry(place) {
            return false;
        }
    }
    true
}

impl DataSet {
    ghost use Rattle.iol_types.specs.DataSet.{SetValue, AreEntries, IsSet, octets_of, data_at};
    ghost use Rattle.iol_types.specs.Parts.{entry_octets, parts_of};

    // Makes the set of these entries.
    pub(crate) fn of(entries: Entries, vendor: u16, device: DeviceId, checksum: u32) -> DataSet
        requires { AreEntries entries }
        ensures { result ≡ record { entries = entries; vendor = vendor; device = device; checksum = checksum } }
    {
        DataSet {
            entries,
            vendor,
            device,
            checksum,
        }
    }

    /// The octets of a parameter, if the set has it.
    pub fn get(&self, key: Key) -> Option<&[u8]>
        ensures { option_copied result ≡ data_at self.now.entries key }
    {
        self.entries.get(key)
    }

    /// The entry at a place, counted from 0, if there is one.
    pub fn entry(&self, place: usize) -> Option<(Key, &[u8])>
        ensures entry { option_map (λ entry. (entry.0, entry.1.now)) result ≡ slice_get self.now.entries place }
        ensures short { IfSome result (λ entry. length entry.1.now ≤ MOST_ENTRY_OCTETS) }
    {
        self.entries.entry(place)
    }

    /// The number of entries, at most 1,024.
    pub fn len(&self) -> usize
        ensures count { result ≡ length self.now.entries }
        ensures bound { result ≤ 1024 }
    {
        self.entries.len()
    }

    /// Whether the set has no entries.
    pub fn is_empty(&self) -> bool
        ensures { result ≡ nat_eq (length self.now.entries) 0 }
    {
        self.entries.len() == 0
    }

    /// What the entries count: 4 for each, and its octets; at most 4,096, since the set is valid.
    pub fn octets(&self) -> usize
        ensures count { result ≡ octets_of self.now.entries }
        ensures bound { result ≤ MOST_SET_OCTETS }
        ensures set { IsSet self.now }
    {
        self.entries.octets()
    }

    /// The number of parts.
    pub fn parts(&self) -> usize
        ensures { result ≡ length (parts_of self.now.entries) }
    {
        self.entries.parts()
    }

    /// The part of the entries at a place, counted from 0, if there is one. The parts in order are the
    /// entries' octets as in a record (docs/FORMATS.md, Records). Each has at most 512 octets of whole
    /// entries, and a new part begins only if the next entry does not fit.
    pub fn part(&self, place: usize) -> Option<&[u8]>
        ensures part { option_copied result ≡ slice_get (parts_of self.now.entries) place }
        ensures short { IfSome result (λ part. length part.now ≤ PART_OCTETS) }
        ensures whole { concat (parts_of self.now.entries) ≡ flat_map entry_octets self.now.entries }
    {
        self.entries.part(place)
    }

    /// The VendorID of the device.
    pub fn vendor(&self) -> u16
        ensures { result ≡ self.now.vendor }
    {
        self.vendor
    }

    /// The DeviceID of the device.
    pub fn device(&self) -> DeviceId
        ensures { result ≡ self.now.device }
    {
        self.device
    }

    /// The Parameter_Checksum that the device reported.
    pub fn checksum(&self) -> u32
        ensures { result ≡ self.now.checksum }
    {
        self.checksum
    }
}
