//! The stages of an upload, and the stage that follows after octets were read.
ghost use Rattle.std.specs.Prelude.{◌≡◌, ◌≢◌, ◌⊎◌, ◌<◌, ◌∷◌, List, Ok, Err, IfOk, IfErr, OnOk, IsTrue, length, fold, drop};
ghost use Rattle.iol_types.specs.DataSet.{Entry};
ghost use Rattle.iol_types.specs.declared.key.Key.{Key};
ghost use Rattle.iol_types.specs.declared.data_set.TheConstants.{MOST_ENTRY_OCTETS};
ghost use Rattle.iol_link.specs.declared.messages.Answer.TheVariants.{ReadOk};
ghost use Rattle.iol_transfer.specs.List.{reading_of, begins_with_key, kept_with};
ghost use Rattle.iol_transfer.specs.Exchanges.{carried};
ghost use Rattle.iol_transfer.specs.Upload.{number_of};
ghost use Rattle.iol_transfer.specs.Asked.{Asks, Size, IndexList, Value};
ghost use Rattle.iol_transfer.specs.Machine.{Machine, after_size, after_list, after_value};
ghost use Rattle.iol_transfer.specs.Fields.{IsStage, IsStageAfter};

use crate::fault::TransferFault;
use crate::list::{ListFault, Next};
use crate::object::INDEX_LIST;
use crate::reading::{keep_key, read_index_list};
use crate::upload::MOST_LISTS;
use iol_types::{AddFault, DATA_STORAGE, Key, MOST_SET_OCTETS, SetBuilder};
use std::alloc::Global;

// The next request of an upload.
#[derive(Drop)]
pub(crate) enum UploadStage {
    // It starts the upload.
    Starting,
    // It reads the declared size.
    Sizing,
    // It reads the list at this address, after `lists` lists with these keys.
    Listing {
        index: u16,
        subindex: u8,
        lists: u8,
        keys: Vec<Key>,
    },
    // It reads the key at this place, after those before it were read; after the last key, it reads
    // the checksum.
    Reading {
        keys: Vec<Key>,
        place: usize,
        entries: SetBuilder,
    },
}

// The number that four octets are.
pub(crate) fn number(octets: &[u8]) -> Result<u32, TransferFault>
    ensures number { IfOk result (λ number. (length octets.now ≡ 4) × (number ≡ number_of octets.now)) }
    ensures fault { IfErr result (λ why. (why ≡ TransferFault.Unexpected) × (length octets.now ≢ 4)) }
{
    match octets {
        [first, second, third, fourth] => {
            Ok(u32::from_be_bytes([*first, *second, *third, *fourth]))
        }
        _ => Err(TransferFault::Unexpected),
    }
}

// The stage after the declared size was read.
pub(crate) fn size_read(alloc: Global, octets: &[u8]) -> Result<UploadStage, TransferFault>
    ensures stage { (machine : Machine) → IsStageAfter machine (ReadOk (carried octets.now)) result (after_size machine octets.now) }
    ensures ranges { IfOk result IsStage }
{
    if number(octets)? as usize > MOST_SET_OCTETS {
        return Err(TransferFault::Size);
    }
    Ok(UploadStage::Listing {
        index: DATA_STORAGE,
        subindex: INDEX_LIST,
        lists: 0,
        keys: Vec::new(alloc),
    })
}

// The stage after a list was read.
pub(crate) fn list_read(
    alloc: Global,
    index: u16,
    subindex: u8,
    lists: u8,
    keys: Vec<Key>,
    octets: &[u8],
) -> Result<UploadStage, TransferFault>
    requires { lists < MOST_LISTS }
    ensures stage { (machine : Machine) → machine.asks ≡ IndexList index subindex lists keys.items
        → IsStageAfter machine (ReadOk (carried octets.now)) result (after_list machine lists keys.items (reading_of octets.now)) }
    ensures ranges { IfOk result IsStage }
{
    let (listed, next) = list_in(alloc, octets)?;
    let mut keys = keys;
    keep_all(&mut keys, &listed)?;
    match next {
        Next::End => Ok(UploadStage::Reading {
            keys,
            place: 0,
            entries: SetBuilder::new(alloc),
        }),
        Next::List(index) => {
            if lists + 1 < MOST_LISTS {
                Ok(UploadStage::Listing {
                    index,
                    subindex: 0,
                    lists: lists + 1,
                    keys,
                })
            } else {
                Err(TransferFault::List)
            }
        }
    }
}

// The stage after a value was read.
pub(crate) fn value_read(
    keys: Vec<Key>,
    place: usize,
    entries: SetBuilder,
    octets: &[u8],
) -> Result<UploadStage, TransferFault>
    requires { place < length keys.items }
    ensures stage { (machine : Machine) (key : Key) (behind : List Key) → drop place keys.items ≡ key ∷ behind
        → machine.asks ≡ Value entries key behind
        → IsStageAfter machine (ReadOk (carried octets.now)) result (after_value machine entries key behind octets.now) }
    ensures ranges { IfOk result IsStage }
{
    let mut entries = entries;
    match entries.add(keys[place], octets) {
        Ok(()) => Ok(UploadStage::Reading {
            keys,
            place: place + 1,
            entries,
        }),
        Err(AddFault::Memory) => Err(TransferFault::Memory),
        Err(_) => Err(TransferFault::Size),
    }
}

// The keys of a list, and what follows them.
fn list_in(alloc: Global, octets: &[u8]) -> Result<(Vec<Key>, Next), TransferFault>
    ensures read { IfOk result (λ list. reading_of octets.now ≡ Ok (list.0.items, list.1)) }
    ensures fault { IfErr result (λ why. ((why ≡ TransferFault.Memory) × IsTrue (begins_with_key octets.now))
        ⊎ ((why ≡ TransferFault.List) × (cause : ListFault) × (reading_of octets.now ≡ Err cause))) }
{
    match read_index_list(alloc, octets) {
        Ok(list) => Ok(list),
        Err(ListFault::Memory) => Err(TransferFault::Memory),
        Err(ListFault::Truncated) => Err(TransferFault::List),
        Err(ListFault::ReservedKey) => Err(TransferFault::List),
    }
}

// Keeps each key after the others, unless it is among them.
fn keep_all(keys: &mut Vec<Key>, listed: &[Key]) -> Result<(), TransferFault>
    ensures kept { OnOk result (keys.new.items ≡ fold kept_with keys.old.items listed.now) }
    ensures memory { IfErr result (λ why. (why ≡ TransferFault.Memory) × (0 < length listed.now)) }
{
    for key in listed {
        if keep_key(keys, *key).is_err() {
            return Err(TransferFault::Memory);
        }
    }
    Ok(())
}
