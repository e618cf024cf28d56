//! The entries of a set in memory: their parts, and where in these the octets of each key are.
ghost use Rattle.std.specs.Prelude.{◌≡◌, ◌≤◌, [], ◌∷◌, ◌++◌, length, slice_get, is_some, OnOk, OnErr, None};
ghost use Rattle.std.specs.Option.{option_copied, option_map};
ghost use Rattle.iol_types.specs.Parts.{entry_octets};
ghost use Rattle.iol_types.specs.declared.data_set.TheConstants.{MOST_ENTRY_OCTETS};

use crate::data_set::ENTRY_HEAD_OCTETS;
use crate::key::Key;
use crate::parts::{PartPlace, Parts};
use indexmap::IndexMap;
use std::alloc::{AllocError, Global};
use std::marker::Model;

// Entries in the order in which they were added. A contract sees them as a list.
#[derive(Debug, Drop)]
pub(crate) struct Entries {
    places: IndexMap<Key, PartPlace>,
    parts: Parts,
    octets: usize,
}

impl Model for Entries {
    ghost use Rattle.std.specs.Prelude.{List};
    ghost use Rattle.iol_types.specs.DataSet.{Entry};

    ghost Value = { List Entry };

    ghost use Rattle.iol_types.specs.EntriesInMemory.{entries_in, AreKept};

    ghost view = { entries_in };

    ghost invariant = { λ s. AreKept s.parts s.places.entries s.octets };
}

impl Entries {
    ghost use Rattle.iol_types.specs.DataSet.{octets_of, data_at, add_fault};
    ghost use Rattle.iol_types.specs.Key.{IsKey};
    ghost use Rattle.iol_types.specs.Parts.{parts_of};

    // Makes an empty list. It allocates no memory.
    pub(crate) fn new(alloc: Global) -> Entries
        ensures { result ≡ [] }
    {
        Entries {
            places: IndexMap::new(alloc),
            parts: Parts::new(alloc),
            octets: 0,
        }
    }

    // The octets of a key, if there is an entry for it.
    pub(crate) fn get(&self, key: Key) -> Option<&[u8]>
        ensures { option_copied result ≡ data_at self.now key }
    {
        match self.places.get(&key) {
            Some(place) => Some(self.parts.octets_at(*place)),
            None => None,
        }
    }

    // Whether there is an entry for a key.
    pub(crate) fn has(&self, key: Key) -> bool
        ensures { result ≡ is_some (data_at self.now key) }
    {
        self.places.contains_key(&key)
    }

    // The entry with this number, counted from 0, if there is one.
    pub(crate) fn entry(&self, number: usize) -> Option<(Key, &[u8])>
        ensures { option_map (λ entry. (entry.0, entry.1.now)) result ≡ slice_get self.now number }
    {
        match self.places.get_index(number) {
            Some((key, place)) => Some((*key, self.parts.octets_at(*place))),
            None => None,
        }
    }

    // The number of entries.
    pub(crate) fn len(&self) -> usize
        ensures { result ≡ length self.now }
    {
        self.places.len()
    }

    // What the entries count: 4 for each, and its octets.
    pub(crate) fn octets(&self) -> usize
        ensures { result ≡ octets_of self.now }
    {
        self.octets
    }

    // The number of parts.
    pub(crate) fn parts(&self) -> usize
        ensures { result ≡ length (parts_of self.now) }
    {
        if self.places.is_empty() {
            0
        } else {
            self.parts.len()
        }
    }

    // The part with this number, counted from 0, if there is one.
    pub(crate) fn part(&self, number: usize) -> Option<&[u8]>
        ensures { option_copied result ≡ slice_get (parts_of self.now) number }
    {
        if self.places.is_empty() {
            None
        } else {
            self.parts.text(number)
        }
    }

    // Appends an entry, and reserves space for `room` entries, this one included.
    pub(crate) fn push(&mut self, key: Key, octets: &[u8], room: usize) -> Result<(), AllocError>
        requires { add_fault self.old key octets.now ≡ None }
        ensures range { IsKey key }
        ensures pushed { OnOk result (self.new ≡ self.old ++ (key, octets.now) ∷ []) }
        ensures kept { OnErr result (self.new ≡ self.old) }
    {
        self.places.reserve(room.max(1))?;
        let place = self.parts.push(head_of(key, octets), octets)?;
        // Space is reserved, so the insertion cannot fail.
        let _ = self.places.insert(key, place);
        self.octets += ENTRY_HEAD_OCTETS + octets.len();
        Ok(())
    }
}

// The octets in front of an entry's data in a record.
fn head_of(key: Key, octets: &[u8]) -> [u8; ENTRY_HEAD_OCTETS]
    requires { length octets.now ≤ MOST_ENTRY_OCTETS }
    ensures { result ++ octets.now ≡ entry_octets (key, octets.now) }
{
    let index = key.index.to_be_bytes();
    [index[0], index[1], key.subindex, octets.len() as u8]
}
