//! Octets of the Data Storage object, worked out by the check, which rejects a number that is wrong in both a definition
//! and the code. The octets of lists are those of docs/FORMATS.md, and the tests read them too.

ghost use Rattle.std.specs.Prelude.{◌≡◌, [], ◌∷◌, map, fold, Some, None, Ok, Err, true, false};
ghost use Rattle.iol_types.specs.declared.key.Key.{Key};
ghost use Rattle.iol_types.specs.declared.key.TheConstants.{DATA_STORAGE};
ghost use Rattle.iol_transfer.specs.Command.{ds_command_octet, ds_command_of, commanded};
ghost use Rattle.iol_link.specs.declared.messages.Request.TheVariants as request;
ghost use Rattle.iol_transfer.specs.Property.{property_of};
ghost use Rattle.iol_transfer.specs.List.{key_of, reading_of, kept_with, list_octets};

use crate::command::DsCommand;
use crate::list::{ListFault, MOST_LISTED_KEYS, Next};
use crate::object::{
    DATA_STORAGE_SIZE, DS_COMMAND, INDEX_LIST, PARAMETER_CHECKSUM, STATE_PROPERTY,
};
use crate::property::State;

/// A list without a key.
pub const NO_KEY: [u8; 2] = [0x00, 0x00];
/// A list with key 0040, which ends with its octets.
pub const ONE_KEY: [u8; 3] = [0x00, 0x40, 0x00];
/// A list with key 0040 that ends at 0000, with further octets that are not read.
pub const ONE_KEY_AND_MORE: [u8; 7] = [0x00, 0x40, 0x00, 0x00, 0x00, 0xFF, 0xFF];
/// A list with one octet too many.
pub const BROKEN_OFF: [u8; 4] = [0x00, 0x40, 0x00, 0x00];
/// A list that names 0040 twice.
pub const NAMED_TWICE: [u8; 8] = [0x00, 0x40, 0x00, 0x00, 0x40, 0x00, 0x00, 0x00];
/// A list that names a further one, at Index 1200.
pub const FURTHER_LIST: [u8; 5] = [0x00, 0x40, 0x00, 0x12, 0x00];
/// A list with the Data Storage object as an entry.
pub const RESERVED_ENTRY: [u8; 5] = [0x00, 0x03, 0x01, 0x00, 0x00];
/// A list with the System Command as the next list.
pub const RESERVED_NEXT: [u8; 5] = [0x00, 0x40, 0x00, 0x00, 0x02];

/// The Data Storage object is Index 3, with five subindexes, and a list in 232 octets has at most 76 keys.
pub fn places()
    ensures index { DATA_STORAGE ≡ 3 }
    ensures subindexes { DS_COMMAND ∷ STATE_PROPERTY ∷ DATA_STORAGE_SIZE ∷ PARAMETER_CHECKSUM ∷ INDEX_LIST ∷ []
        ≡ 1 ∷ 2 ∷ 3 ∷ 4 ∷ 5 ∷ [] }
    ensures keys { MOST_LISTED_KEYS ≡ 76 }
{}

/// The octets of the commands are 1 to 5.
pub fn commands()
    ensures written { map ds_command_octet (DsCommand.UploadStart ∷ DsCommand.UploadEnd ∷ DsCommand.DownloadStart
        ∷ DsCommand.DownloadEnd ∷ DsCommand.Break ∷ []) ≡ 0x01 ∷ 0x02 ∷ 0x03 ∷ 0x04 ∷ 0x05 ∷ [] }
    ensures read { map ds_command_of (0x01 ∷ 0x02 ∷ 0x03 ∷ 0x04 ∷ 0x05 ∷ [])
        ≡ map Some (DsCommand.UploadStart ∷ DsCommand.UploadEnd ∷ DsCommand.DownloadStart ∷ DsCommand.DownloadEnd
        ∷ DsCommand.Break ∷ []) }
    ensures none { map ds_command_of (0x00 ∷ 0x06 ∷ 0xFF ∷ []) ≡ None ∷ None ∷ None ∷ [] }
    ensures requested { map commanded (DsCommand.UploadStart ∷ DsCommand.Break ∷ [])
        ≡ request.Write 3 1 (record { items = 0x01 ∷ [] }) ∷ request.Write 3 1 (record { items = 0x05 ∷ [] }) ∷ [] }
{}

/// The state is in bits 1 and 2, DS_UPLOAD_FLAG is in bit 7, and the other bits are ignored.
pub fn properties()
    ensures states { map (λ octet. (property_of octet).state) (0x00 ∷ 0x02 ∷ 0x04 ∷ 0x06 ∷ [])
        ≡ State.Inactive ∷ State.Upload ∷ State.Download ∷ State.Locked ∷ [] }
    ensures bit_0 { map (λ octet. (property_of octet).state) (0x01 ∷ 0x03 ∷ 0x05 ∷ 0x07 ∷ [])
        ≡ State.Inactive ∷ State.Upload ∷ State.Download ∷ State.Locked ∷ [] }
    ensures flag { property_of 0x80 ≡ record { state = State.Inactive; flag = true } }
    ensures flag_and_locked { property_of 0x86 ≡ record { state = State.Locked; flag = true } }
    ensures below_the_flag { property_of 0x7F ≡ record { state = State.Locked; flag = false } }
    ensures no_flag { property_of 0x79 ≡ record { state = State.Inactive; flag = false } }
    ensures all { property_of 0xFF ≡ record { state = State.Locked; flag = true } }
{}

/// The keys and the next list that are read from lists.
pub fn lists()
    ensures no_octet { reading_of [] ≡ Ok ([], Next.End) }
    ensures no_key { reading_of NO_KEY ≡ Ok ([], Next.End) }
    ensures one_key { reading_of ONE_KEY ≡ Ok (key_of 0x00 0x40 0x00 ∷ [], Next.End) }
    ensures one_key_and_more { reading_of ONE_KEY_AND_MORE ≡ Ok (key_of 0x00 0x40 0x00 ∷ [], Next.End) }
    ensures named_twice { reading_of NAMED_TWICE ≡ Ok (key_of 0x00 0x40 0x00 ∷ [], Next.End) }
    ensures further_list { reading_of FURTHER_LIST ≡ Ok (record { index = 0x0040; subindex = 0 } ∷ [], Next.List 0x1200) }
    ensures first_places { reading_of (0x00 ∷ 0x41 ∷ 0x01 ∷ 0x00 ∷ 0x40 ∷ 0x00 ∷ 0x00 ∷ 0x41 ∷ 0x02 ∷ 0x00 ∷ 0x41 ∷ 0x01 ∷ 0x00 ∷ 0x01 ∷ [])
        ≡ Ok (key_of 0x00 0x41 0x01 ∷ key_of 0x00 0x40 0x00 ∷ key_of 0x00 0x41 0x02 ∷ [], Next.List 0x0001) }
{}

/// Index 0001 and 0004 are neither reserved nor the end.
pub fn indices_beside_the_reserved_ones()
    ensures entries { reading_of (0x00 ∷ 0x01 ∷ 0x00 ∷ 0x00 ∷ 0x04 ∷ 0x00 ∷ 0x00 ∷ 0x00 ∷ [])
        ≡ Ok (key_of 0x00 0x01 0x00 ∷ key_of 0x00 0x04 0x00 ∷ [], Next.End) }
    ensures next { reading_of (0x00 ∷ 0x04 ∷ []) ≡ Ok ([], Next.List 0x0004) }
{}

/// A key that another list names again is kept at its first place, and one with another Subindex is another key.
pub fn keys_of_two_lists()
    ensures { fold kept_with (key_of 0x00 0x40 0x00 ∷ key_of 0x00 0x41 0x01 ∷ [])
        (key_of 0x00 0x41 0x02 ∷ key_of 0x00 0x40 0x00 ∷ [])
        ≡ key_of 0x00 0x40 0x00 ∷ key_of 0x00 0x41 0x01 ∷ key_of 0x00 0x41 0x02 ∷ [] }
{}

/// Octets that are not a list.
pub fn list_faults()
    ensures one_octet { reading_of (0x00 ∷ []) ≡ Err ListFault.Truncated }
    ensures broken_off { reading_of BROKEN_OFF ≡ Err ListFault.Truncated }
    ensures reserved_entry { reading_of RESERVED_ENTRY ≡ Err ListFault.ReservedKey }
    ensures reserved_next { reading_of RESERVED_NEXT ≡ Err ListFault.ReservedKey }
    ensures data_storage_next { reading_of (0x00 ∷ 0x03 ∷ []) ≡ Err ListFault.ReservedKey }
    ensures first_met { reading_of (0x00 ∷ 0x02 ∷ 0x00 ∷ 0x00 ∷ []) ≡ Err ListFault.ReservedKey }
{}

/// The octets that are written for lists.
pub fn written_lists()
    ensures no_key { list_octets [] Next.End ≡ NO_KEY }
    ensures further_list { list_octets (record { index = 0x0040; subindex = 0x00 } ∷ []) (Next.List 0x1200) ≡ FURTHER_LIST }
    ensures two_keys { list_octets (record { index = 0x1234; subindex = 0x05 } ∷ record { index = 0x0041; subindex = 0x01 } ∷ []) Next.End
        ≡ 0x12 ∷ 0x34 ∷ 0x05 ∷ 0x00 ∷ 0x41 ∷ 0x01 ∷ 0x00 ∷ 0x00 ∷ [] }
{}
