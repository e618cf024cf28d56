//! The parts of a set: texts of at most 512 octets, each of whole entries as in a record.
ghost use Rattle.std.specs.Prelude.{◌≡◌, ◌≤◌, ◌<◌, ◌+◌, ◌++◌, length, slice_get, OnOk, OnErr, IfOk};
ghost use Rattle.std.specs.Option.{option_copied};
ghost use Rattle.iol_types.specs.declared.data_set.TheConstants.{ENTRY_HEAD_OCTETS};
ghost use Rattle.iol_types.specs.declared.parts.TheConstants.{PART_OCTETS};

use crate::data_set::ENTRY_HEAD_OCTETS;
use std::alloc::{AllocError, Global};
use std::marker::Model;
use std::mem::replace;

/// The maximum number of octets of a part of a set.
pub const PART_OCTETS: usize = 512;

// The place of some octets: the number of their text, their offset in it, and how many there are.
#[derive(Clone, Copy, Debug)]
pub(crate) struct PartPlace {
    pub part: usize,
    pub offset: usize,
    pub octets: usize,
}

// Texts in order. A contract sees the octets of the full ones, and those of the last one.
#[derive(Debug, Drop)]
pub(crate) struct Parts {
    full: Vec<Vec<u8>>,
    last: Vec<u8>,
}

impl Model for Parts {
    ghost use Rattle.iol_types.specs.Parts.{PartsValue};

    ghost Value = { PartsValue };

    ghost use Rattle.iol_types.specs.PartsInMemory.{parts_in};

    ghost view = { parts_in };
}

impl Parts {
    ghost use Rattle.iol_types.specs.Parts.{IsWithin, no_parts, with_text, texts_of, octets_at, data_after};

    // Makes parts with one empty text. It allocates no memory.
    pub(crate) fn new(alloc: Global) -> Parts
        ensures { result ≡ no_parts }
    {
        Parts {
            full: Vec::new(alloc),
            last: Vec::new(alloc),
        }
    }

    // The text with this number, if there is one.
    pub(crate) fn text(&self, number: usize) -> Option<&[u8]>
        ensures { option_copied result ≡ slice_get (texts_of self.now) number }
    {
        if number == self.full.len() {
            return Some(self.last.as_slice());
        }
        match self.full.get(number) {
            Some(text) => Some(text.as_slice()),
            None => None,
        }
    }

    // The number of texts, the last one included.
    pub(crate) fn len(&self) -> usize
        ensures { result ≡ length (texts_of self.now) }
    {
        self.full.len() + 1
    }

    // The octets at a place.
    pub(crate) fn octets_at(&self, place: PartPlace) -> &[u8]
        requires { IsWithin self.now place }
        ensures { result.now ≡ octets_at self.now place }
    {
        let text = match self.full.get(place.part) {
            Some(text) => text.as_slice(),
            None => self.last.as_slice(),
        };
        &text[place.offset..place.offset + place.octets]
    }

    // Appends the text of an entry, a head and octets, and returns the place of these octets. It allocates at most one
    // text.
    pub(crate) fn push(
        &mut self,
        head: [u8; ENTRY_HEAD_OCTETS],
        octets: &[u8],
    ) -> Result<PartPlace, AllocError>
        requires { ENTRY_HEAD_OCTETS + length octets.now ≤ PART_OCTETS }
        ensures pushed { OnOk result (self.new ≡ with_text self.old (head ++ octets.now)) }
        ensures place { IfOk result (λ place. place ≡ data_after self.old (length octets.now)) }
        ensures kept { OnErr result (self.new ≡ self.old) }
    {
        if self.last.len() + ENTRY_HEAD_OCTETS + octets.len() <= PART_OCTETS {
            self.extend_last(head, octets)
        } else {
            self.begin(head, octets)
        }
    }

    // Appends the text to the last one.
    fn extend_last(
        &mut self,
        head: [u8; ENTRY_HEAD_OCTETS],
        octets: &[u8],
    ) -> Result<PartPlace, AllocError>
        requires { length self.old.last + ENTRY_HEAD_OCTETS + length octets.now ≤ PART_OCTETS }
        ensures pushed { OnOk result (self.new ≡ with_text self.old (head ++ octets.now)) }
        ensures place { IfOk result (λ place. place ≡ data_after self.old (length octets.now)) }
        ensures kept { OnErr result (self.new ≡ self.old) }
    {
        let place = PartPlace {
            part: self.full.len(),
            offset: self.last.len() + ENTRY_HEAD_OCTETS,
            octets: octets.len(),
        };
        self.last.reserve(PART_OCTETS - self.last.len())?;
        // Space is reserved, so neither call can fail.
        let _ = self.last.extend_from_slice(&head);
        let _ = self.last.extend_from_slice(octets);
        Ok(place)
    }

    // Begins a new last text; the one before it is full.
    fn begin(
        &mut self,
        head: [u8; ENTRY_HEAD_OCTETS],
        octets: &[u8],
    ) -> Result<PartPlace, AllocError>
        requires { PART_OCTETS < length self.old.last + ENTRY_HEAD_OCTETS + length octets.now }
        ensures pushed { OnOk result (self.new ≡ with_text self.old (head ++ octets.now)) }
        ensures place { IfOk result (λ place. place ≡ data_after self.old (length octets.now)) }
        ensures kept { OnErr result (self.new ≡ self.old) }
    {
        let mut next = Vec::with_capacity(*self.full.allocator(), PART_OCTETS)?;
        next.extend_from_slice(&head)?;
        next.extend_from_slice(octets)?;
        self.full.reserve(1)?;
        // Space is reserved, so the push cannot fail.
        let _ = self.full.push(replace(&mut self.last, next));
        Ok(PartPlace {
            part: self.full.len(),
            offset: ENTRY_HEAD_OCTETS,
            octets: octets.len(),
        })
    }
}
