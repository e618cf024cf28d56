//! Readers of the fields of records, each from the front of the octets that are left.
ghost use Rattle.std.specs.Prelude.{◌≡◌, ◌≤◌, ◌^◌, ◌<◌, List, length, take, drop, IfOk, IfErr, OnOk};
ghost use Rattle.std.specs.Int.{w8};
ghost use Rattle.iol_record.specs.Reading.{Reads, next_number, octets_at, field_at, tag_field, port_field, mode_field, validation_field};
ghost use Rattle.iol_record.specs.Reading.{vendor_field, device_field, revision_field, checksum_field, count_field, flag_field};
ghost use Rattle.iol_record.specs.Reading.{label_length_field, index_field, subindex_field, length_field, label_at, config_at};

use crate::fault::RecordFault;
use crate::version::Version;
use iol_types::{
    DeviceId, ENTRY_HEAD_OCTETS, Key, Label, MOST_ENTRY_OCTETS, MOST_LABEL_OCTETS, MOST_SET_OCTETS,
    PortConfig, PortId, PortMode, SetBuilder, Validation,
};
use std::marker::Model;

// The tag of a Configure record, its first octet.
pub(crate) const CONFIGURE: u8 = 1;

// The tag of a Clear record.
pub(crate) const CLEAR: u8 = 2;

// The tag of a Store record.
pub(crate) const STORE: u8 = 3;

// The tag of a Rollback record.
pub(crate) const ROLLBACK: u8 = 4;

// The flag of an absent parameter set of a port.
pub(crate) const NO_SET: u8 = 0;

// The flag of a parameter set that a port has; the set follows.
pub(crate) const SET: u8 = 1;

// The kind of a command, given by its tag.
#[derive(Clone, Copy)]
pub(crate) enum Tag {
    Configure,
    Clear,
    Store,
    Rollback,
}

// The octets that are still to be read. A contract sees them as a list.
#[derive(Drop)]
pub(crate) struct Reader<'a> {
    rest: &'a [u8],
}

impl<'a> Model for Reader<'a> {
    ghost use Rattle.std.specs.Prelude.{ℕ, List};

    ghost Value = { List ℕ };

    ghost view = { λ r. r.rest.now };
}

impl<'a> Reader<'a> {
    // Makes a reader of these octets, at their front.
    pub(crate) fn new(octets: &'a [u8]) -> Self
        ensures { result ≡ octets.now }
    {
        Reader { rest: octets }
    }

    // The number of octets that are left.
    pub(crate) fn len(&self) -> usize
        ensures { result ≡ length self.now }
    {
        self.rest.len()
    }

    // Reads the next `N` octets.
    pub(crate) fn front<const N: usize>(&mut self) -> Result<[u8; N], RecordFault>
        ensures front { IfOk result (λ front. (N ≤ length self.old) × (front ≡ take N self.old)) }
        ensures rest { OnOk result (self.new ≡ drop N self.old) }
        ensures short { IfErr result (λ fault. (length self.old < N) × (fault ≡ RecordFault.Short)) }
    {
        let (front, rest) = self
            .rest
            .split_first_chunk::<N>()
            .ok_or(RecordFault::Short)?;
        self.rest = rest;
        Ok(*front)
    }

    fn octet(&mut self) -> Result<u8, RecordFault>
        ensures { Reads (λ octet. (octet, self.new)) result (next_number w8 self.old) }
    {
        Ok(u8::from_be_bytes(self.front()?))
    }

    // Reads the tag of a command; version 1 has no Rollback.
    pub(crate) fn tag(&mut self, version: Version) -> Result<Tag, RecordFault>
        ensures { Reads (λ tag. (tag, self.new)) result (field_at (tag_field version) self.old) }
    {
        match (self.octet()?, version) {
            (CONFIGURE, _) => Ok(Tag::Configure),
            (CLEAR, _) => Ok(Tag::Clear),
            (STORE, _) => Ok(Tag::Store),
            (ROLLBACK, Version::Two) => Ok(Tag::Rollback),
            _ => Err(RecordFault::BadTag),
        }
    }

    // Reads a port, 1 to 32.
    pub(crate) fn port(&mut self) -> Result<PortId, RecordFault>
        ensures { Reads (λ port. (port, self.new)) result (field_at port_field self.old) }
    {
        PortId::new(self.octet()?).ok_or(RecordFault::BadField)
    }

    // Reads a mode, 0 to 4.
    fn mode(&mut self) -> Result<PortMode, RecordFault>
        ensures { Reads (λ mode. (mode, self.new)) result (field_at mode_field self.old) }
    {
        PortMode::from_octet(self.octet()?).ok_or(RecordFault::BadField)
    }

    // Reads a validation, 0 to 4.
    fn validation(&mut self) -> Result<Validation, RecordFault>
        ensures { Reads (λ validation. (validation, self.new)) result (field_at validation_field self.old) }
    {
        Validation::from_octet(self.octet()?).ok_or(RecordFault::BadField)
    }

    // Reads a VendorID, two octets.
    pub(crate) fn vendor(&mut self) -> Result<u16, RecordFault>
        ensures { Reads (λ vendor. (vendor, self.new)) result (field_at vendor_field self.old) }
    {
        Ok(u16::from_be_bytes(self.front()?))
    }

    // Reads a DeviceID, four octets of which the first is 0.
    pub(crate) fn device(&mut self) -> Result<DeviceId, RecordFault>
        ensures { Reads (λ device. (device, self.new)) result (field_at device_field self.old) }
    {
        DeviceId::new(u32::from_be_bytes(self.front()?)).ok_or(RecordFault::BadField)
    }

    // Reads the length of a label, 0 to 32 octets.
    fn label_length(&mut self) -> Result<usize, RecordFault>
        ensures { Reads (λ count. (count, self.new)) result (field_at label_length_field self.old) }
    {
        let count = usize::from(self.octet()?);
        if count <= MOST_LABEL_OCTETS {
            Ok(count)
        } else {
            Err(RecordFault::BadField)
        }
    }

    // Reads a revision, eight octets.
    pub(crate) fn revision(&mut self) -> Result<u64, RecordFault>
        ensures { Reads (λ revision. (revision, self.new)) result (field_at revision_field self.old) }
    {
        Ok(u64::from_be_bytes(self.front()?))
    }

    // Reads a checksum, four octets.
    pub(crate) fn checksum(&mut self) -> Result<u32, RecordFault>
        ensures { Reads (λ checksum. (checksum, self.new)) result (field_at checksum_field self.old) }
    {
        Ok(u32::from_be_bytes(self.front()?))
    }

    // Reads a count of entries, two octets.
    pub(crate) fn count(&mut self) -> Result<u16, RecordFault>
        ensures { Reads (λ count. (count, self.new)) result (field_at count_field self.old) }
    {
        Ok(u16::from_be_bytes(self.front()?))
    }

    // Reads the flag of a set of a port: whether the set follows.
    pub(crate) fn has_set(&mut self) -> Result<bool, RecordFault>
        ensures { Reads (λ flag. (flag, self.new)) result (field_at flag_field self.old) }
    {
        match self.octet()? {
            NO_SET => Ok(false),
            SET => Ok(true),
            _ => Err(RecordFault::BadField),
        }
    }

    // Reads the Index of an entry, which must not be reserved.
    pub(crate) fn index(&mut self) -> Result<u16, RecordFault>
        ensures { Reads (λ index. (index, self.new)) result (field_at index_field self.old) }
    {
        let index = u16::from_be_bytes(self.front()?);
        if (Key { index, subindex: 0 }).is_reserved() {
            Err(RecordFault::BadField)
        } else {
            Ok(index)
        }
    }

    // Reads the Subindex of an entry, which must not make its key equal to one before it.
    pub(crate) fn key(&mut self, index: u16, others: &SetBuilder) -> Result<Key, RecordFault>
        ensures { Reads (λ key. (key, self.new)) result (field_at (subindex_field others.now index) self.old) }
    {
        let key = Key {
            index,
            subindex: self.octet()?,
        };
        if others.has(key) {
            Err(RecordFault::BadField)
        } else {
            Ok(key)
        }
    }

    // Reads the length of an entry, which must not make the set of it and the entries before it too large.
    pub(crate) fn length(&mut self, others: &SetBuilder) -> Result<usize, RecordFault>
        ensures { Reads (λ count. (count, self.new)) result (field_at (length_field others.now) self.old) }
    {
        let count = usize::from(self.octet()?);
        if count <= MOST_ENTRY_OCTETS
            && others.octets() + ENTRY_HEAD_OCTETS + count <= MOST_SET_OCTETS
        {
            Ok(count)
        } else {
            Err(RecordFault::BadField)
        }
    }

    // Reads `count` octets.
    pub(crate) fn octets(&mut self, count: usize) -> Result<&'a [u8], RecordFault>
        ensures { Reads (λ octets. (octets.now, self.new)) result (octets_at count self.old) }
    {
        let (octets, rest) = self.rest.split_at_checked(count).ok_or(RecordFault::Short)?;
        self.rest = rest;
        Ok(octets)
    }

    // Reads a label, which version 1 does not have.
    #[tactic(auto, unfolding(crate::specs::Reading::label_at))]
    fn label(&mut self, version: Version) -> Result<Label, RecordFault>
        ensures read { Reads (λ label. (label, self.new)) result (label_at version self.old) }
        ensures no_memory { IfErr result (λ fault. fault ≡ RecordFault.Memory → ⊥) }
    {
        match version {
            Version::One => Ok(Label::empty()),
            Version::Two => {
                let count = self.label_length()?;
                Label::new(self.octets(count)?).ok_or(RecordFault::BadField)
            }
        }
    }

    // Reads a configuration: mode, validation, vendor, device, label.
    #[tactic(auto, unfolding(crate::specs::Reading::config_at))]
    pub(crate) fn config(&mut self, version: Version) -> Result<PortConfig, RecordFault>
        ensures read { Reads (λ config. (config, self.new)) result (config_at version self.old) }
        ensures no_memory { IfErr result (λ fault. fault ≡ RecordFault.Memory → ⊥) }
    {
        Ok(PortConfig {
            mode: self.mode()?,
            validation: self.validation()?,
            vendor: self.vendor()?,
            device: self.device()?,
            label: self.label(version)?,
        })
    }
}
