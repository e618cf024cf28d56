//! Octets are read as an Index_List.
ghost use Rattle.std.specs.Prelude.{◌≡◌, ◌⊎◌, ◌<◌, [], length, Ok, Err, IfOk, IfErr, OnOk, OnErr, IsTrue, false};
ghost use Rattle.iol_transfer.specs.List.{listing_of, reading_of, AreReadKeys, begins_with_key, is_among, kept_with};

use crate::list::{ListFault, Next};
use iol_types::Key;
use std::alloc::Global;

/// Reads the octets of one Index_List and returns the keys in the order of their first places, and what follows them
/// (IO-Link V1.1, Data Storage object, Index_List).
///
/// # Errors
/// The first fault from the front. `Memory` occurs only if there was a key to keep.
pub fn read_index_list(alloc: Global, octets: &[u8]) -> Result<(Vec<Key>, Next), ListFault>
    ensures read { IfOk result (λ list. reading_of octets.now ≡ Ok (list.0.items, list.1)) }
    ensures keys { IfOk result (λ list. AreReadKeys list.0.items) }
    ensures fault { IfErr result (λ fault. (reading_of octets.now ≡ Err fault)
        ⊎ ((fault ≡ ListFault.Memory) × IsTrue (begins_with_key octets.now))) }
{
    let mut keys = Vec::new(alloc);
    let mut rest = octets;
    while let [high, low, subindex, more @ ..] = rest {
        let index = u16::from_be_bytes([*high, *low]);
        let key = Key {
            index,
            subindex: *subindex,
        };
        if index == 0 {
            return Ok((keys, Next::End));
        }
        if key.is_reserved() {
            return Err(ListFault::ReservedKey);
        }
        keep_key(&mut keys, key)?;
        rest = more;
    }
    let next = next_in(rest)?;
    Ok((keys, next))
}

// What follows the keys, if too few octets are left for another entry.
fn next_in(octets: &[u8]) -> Result<Next, ListFault>
    requires { length octets.now < 3 }
    ensures next { IfOk result (λ next. listing_of octets.now ≡ Ok ([], next)) }
    ensures fault { IfErr result (λ fault. listing_of octets.now ≡ Err fault) }
{
    let [high, low] = octets else {
        return if octets.is_empty() {
            Ok(Next::End)
        } else {
            Err(ListFault::Truncated)
        };
    };
    let index = u16::from_be_bytes([*high, *low]);
    let first = Key { index, subindex: 0 };
    if index == 0 {
        Ok(Next::End)
    } else if first.is_reserved() {
        Err(ListFault::ReservedKey)
    } else {
        Ok(Next::List(index))
    }
}

/// Keeps a key after the others, unless it is among them: a key that is named twice, in one list or in two, is kept only
/// at its first place.
///
/// # Errors
/// `Memory` if the key is new and it is out of memory; the keys are then unchanged.
pub fn keep_key(keys: &mut Vec<Key>, key: Key) -> Result<(), ListFault>
    ensures kept { OnOk result (keys.new.items ≡ kept_with keys.old.items key) }
    ensures memory { IfErr result (λ fault. fault ≡ ListFault.Memory) }
    ensures only_for_a_new_key { OnErr result (is_among keys.old.items key ≡ false) }
    ensures unchanged { OnErr result (keys.new.items ≡ keys.old.items) }
{
    if keys.contains(&key) {
        return Ok(());
    }
    keys.push(key).map_err(|_| ListFault::Memory)
}
