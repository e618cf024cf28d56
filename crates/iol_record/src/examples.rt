//! Records with values from outside, computed by the proof check: an octet that is wrong both in a definition and in
//! the code is refused here.

ghost use Rattle.std.specs.Prelude.{◌≡◌, ◌++◌, [], ◌∷◌, false, true, Some, None, Ok, Err, IsOk, map, replicate, slice_set, take, drop};
ghost use Rattle.std.specs.Prelude.{codes, length};
ghost use Rattle.std.specs.List.{range_with_len};
ghost use Rattle.iol_types.specs.Command.{Configure, Clear, Store, Rollback};
ghost use Rattle.iol_types.specs.State.{blank};
ghost use Rattle.iol_types.specs.Examples.{example_config, example_set, nearly_full, newer_stored, example_port, renewed_port, port_of};
ghost use Rattle.iol_record.specs.declared.encode.TheConstants.{LARGEST_COMMAND_RECORD, LARGEST_PORT_RECORD_OF_ONE};
ghost use Rattle.iol_record.specs.declared.encode.TheConstants.{LARGEST_PORT_RECORD_OF_TWO};
ghost use Rattle.iol_record.specs.Examples.{full_port};
ghost use Rattle.iol_record.specs.Record.{command_octets, port_octets, IsCommandRecord, IsPortRecord};
ghost use Rattle.iol_record.specs.Reading.{command_at, port_record_at, store_begun_at, port_begun_at};
ghost use Rattle.iol_record.specs.Reading.{field_at, tag_field, port_field, mode_field, validation_field, vendor_field, device_field};
ghost use Rattle.iol_record.specs.Reading.{revision_field, checksum_field, count_field, flag_field, index_field, subindex_field};
ghost use Rattle.iol_record.specs.Reading.{length_field};
ghost use Rattle.iol_record.specs.declared.reader.Tag.TheVariants as tag;
ghost use Rattle.iol_record.specs.declared.version.Version.TheVariants.{One, Two};

use crate::fault::RecordFault;
use iol_types::{PortMode, Validation};

/// The record of Configure port 1: IOL_MANUAL, Backup and Restore, vendor 500, device 43981.
pub const CONFIGURE_RECORD: [u8; 10] = [0x01, 0x01, 0x01, 0x03, 0x01, 0xF4, 0x00, 0x00, 0xAB, 0xCD];

/// The record of a port that was never configured: 16 zeros, and the flag of an absent parameter set.
pub const BLANK_RECORD: [u8; 17] = [0x00; 17];

/// The record of a port with the configuration of [`CONFIGURE_RECORD`], revision 1, and no parameter
/// set.
pub const PORT_RECORD: [u8; 17] = [
    0x01, 0x03, 0x01, 0xF4, 0x00, 0x00, 0xAB, 0xCD, 0x00, 0x00, 0x00, 0x00, 0x00, 0x00, 0x00, 0x01,
    0x00,
];

/// The record of Clear port 1.
pub const CLEAR_RECORD: [u8; 2] = [0x02, 0x01];

/// The record of Store port 1, revision 1: a set of vendor 500, device 43981, checksum 591, with the
/// parameters 0040.00, which has the octets 0A 64, and 0041.01, which has 7F.
pub const STORE_RECORD: [u8; 33] = [
    0x03, 0x01, 0x00, 0x00, 0x00, 0x00, 0x00, 0x00, 0x00, 0x01, 0x01, 0xF4, 0x00, 0x00, 0xAB, 0xCD,
    0x00, 0x00, 0x02, 0x4F, 0x00, 0x02, 0x00, 0x40, 0x00, 0x02, 0x0A, 0x64, 0x00, 0x41, 0x01, 0x01,
    0x7F,
];

/// The record of a port as in [`PORT_RECORD`], with the set of [`STORE_RECORD`] taken under the same
/// configuration.
pub const PORT_WITH_SET_RECORD: [u8; 48] = [
    0x01, 0x03, 0x01, 0xF4, 0x00, 0x00, 0xAB, 0xCD, 0x00, 0x00, 0x00, 0x00, 0x00, 0x00, 0x00, 0x01,
    0x01, 0x01, 0x03, 0x01, 0xF4, 0x00, 0x00, 0xAB, 0xCD, 0x01, 0xF4, 0x00, 0x00, 0xAB, 0xCD, 0x00,
    0x00, 0x02, 0x4F, 0x00, 0x02, 0x00, 0x40, 0x00, 0x02, 0x0A, 0x64, 0x00, 0x41, 0x01, 0x01, 0x7F,
];

/// [`CONFIGURE_RECORD`] in version 2.
pub const CONFIGURE_RECORD_OF_TWO: [u8; 11] = [
    0x01, 0x01, 0x01, 0x03, 0x01, 0xF4, 0x00, 0x00, 0xAB, 0xCD, 0x00,
];

/// [`CONFIGURE_RECORD_OF_TWO`] with the label `Pump 3`.
pub const LABELLED_RECORD: [u8; 17] = [
    0x01, 0x01, 0x01, 0x03, 0x01, 0xF4, 0x00, 0x00, 0xAB, 0xCD, 0x06, 0x50, 0x75, 0x6D, 0x70, 0x20,
    0x33,
];

/// [`BLANK_RECORD`] in version 2.
pub const BLANK_RECORD_OF_TWO: [u8; 19] = [0x00; 19];

/// [`PORT_RECORD`] in version 2.
pub const PORT_RECORD_OF_TWO: [u8; 19] = [
    0x01, 0x03, 0x01, 0xF4, 0x00, 0x00, 0xAB, 0xCD, 0x00, 0x00, 0x00, 0x00, 0x00, 0x00, 0x00, 0x00,
    0x01, 0x00, 0x00,
];

/// The record of Rollback port 1, which version 1 does not have.
pub const ROLLBACK_RECORD: [u8; 2] = [0x04, 0x01];

/// [`PORT_WITH_SET_RECORD`] in version 2.
pub const PORT_WITH_SET_RECORD_OF_TWO: [u8; 51] = [
    0x01, 0x03, 0x01, 0xF4, 0x00, 0x00, 0xAB, 0xCD, 0x00, 0x00, 0x00, 0x00, 0x00, 0x00, 0x00, 0x00,
    0x01, 0x01, 0x01, 0x03, 0x01, 0xF4, 0x00, 0x00, 0xAB, 0xCD, 0x00, 0x01, 0xF4, 0x00, 0x00, 0xAB,
    0xCD, 0x00, 0x00, 0x02, 0x4F, 0x00, 0x02, 0x00, 0x40, 0x00, 0x02, 0x0A, 0x64, 0x00, 0x41, 0x01,
    0x01, 0x7F, 0x00,
];

/// The record in version 2 of a port as in [`PORT_RECORD`], with a set in which 0041.01 is 80, and the set of
/// [`STORE_RECORD`] as its previous one, both taken under the same configuration.
pub const PORT_WITH_PREVIOUS_RECORD: [u8; 83] = [
    0x01, 0x03, 0x01, 0xF4, 0x00, 0x00, 0xAB, 0xCD, 0x00, 0x00, 0x00, 0x00, 0x00, 0x00, 0x00, 0x00,
    0x01, 0x01, 0x01, 0x03, 0x01, 0xF4, 0x00, 0x00, 0xAB, 0xCD, 0x00, 0x01, 0xF4, 0x00, 0x00, 0xAB,
    0xCD, 0x00, 0x00, 0x02, 0x52, 0x00, 0x02, 0x00, 0x40, 0x00, 0x02, 0x0A, 0x64, 0x00, 0x41, 0x01,
    0x01, 0x80, 0x01, 0x01, 0x03, 0x01, 0xF4, 0x00, 0x00, 0xAB, 0xCD, 0x00, 0x01, 0xF4, 0x00, 0x00,
    0xAB, 0xCD, 0x00, 0x00, 0x02, 0x4F, 0x00, 0x02, 0x00, 0x40, 0x00, 0x02, 0x0A, 0x64, 0x00, 0x41,
    0x01, 0x01, 0x7F,
];

/// [`CONFIGURE_RECORD`] is the record of its command, and decodes to it.
#[tactic(auto, unfolding(crate::specs::Reading::command_at, crate::specs::Reading::arguments_at, crate::specs::Reading::config_at, crate::specs::Reading::label_at))]
pub fn a_configure_record()
    ensures written { IsCommandRecord One CONFIGURE_RECORD (Configure 1 example_config) }
    ensures read { command_at One CONFIGURE_RECORD ≡ Ok (Configure 1 example_config, []) }
{}

/// [`BLANK_RECORD`] and [`PORT_RECORD`] are the records of their ports, and decode to them.
#[tactic(auto, unfolding(crate::specs::Reading::port_record_at, crate::specs::Reading::port_parts_at, crate::specs::Reading::stored_at, crate::specs::Reading::previous_at, crate::specs::Reading::config_at, crate::specs::Reading::label_at))]
pub fn port_records()
    ensures blank_written { IsPortRecord One BLANK_RECORD blank }
    ensures blank_read { port_record_at One BLANK_RECORD ≡ Ok (blank, []) }
    ensures written { IsPortRecord One PORT_RECORD (port_of example_config 1) }
    ensures read { port_record_at One PORT_RECORD
        ≡ Ok (port_of example_config 1, []) }
{}

/// [`CONFIGURE_RECORD`] is refused with one field out of its range: the tag 04, the port 0 or 33, the mode 5, the
/// validation 5, the device 01 00 AB CD.
#[tactic(auto, unfolding(crate::specs::Reading::command_at, crate::specs::Reading::arguments_at, crate::specs::Reading::config_at, crate::specs::Reading::label_at))]
pub fn commands_out_of_range()
    ensures tag { command_at One (slice_set CONFIGURE_RECORD 0 0x04) ≡ Err RecordFault.BadTag }
    ensures port_below { command_at One (slice_set CONFIGURE_RECORD 1 0) ≡ Err RecordFault.BadField }
    ensures port_above { command_at One (slice_set CONFIGURE_RECORD 1 33) ≡ Err RecordFault.BadField }
    ensures mode { command_at One (slice_set CONFIGURE_RECORD 2 5) ≡ Err RecordFault.BadField }
    ensures validation { command_at One (slice_set CONFIGURE_RECORD 3 5) ≡ Err RecordFault.BadField }
    ensures device { command_at One (slice_set CONFIGURE_RECORD 6 0x01) ≡ Err RecordFault.BadField }
{}

/// The flag 02 of a port is out of its range.
#[tactic(auto, unfolding(crate::specs::Reading::port_record_at, crate::specs::Reading::port_parts_at, crate::specs::Reading::stored_at, crate::specs::Reading::previous_at, crate::specs::Reading::config_at, crate::specs::Reading::label_at))]
pub fn a_flag_out_of_range()
    ensures { port_record_at One (slice_set PORT_RECORD 16 0x02) ≡ Err RecordFault.BadField }
{}

/// The first 0 to 9 octets of [`CONFIGURE_RECORD`], and the first 0 to 16 of [`PORT_RECORD`], are
/// short.
#[tactic(auto, unfolding(crate::specs::Reading::command_at, crate::specs::Reading::arguments_at, crate::specs::Reading::port_record_at, crate::specs::Reading::port_parts_at, crate::specs::Reading::stored_at, crate::specs::Reading::previous_at, crate::specs::Reading::config_at, crate::specs::Reading::label_at))]
pub fn records_cut_off()
    ensures command { map (λ count. command_at One (take count CONFIGURE_RECORD)) (range_with_len 0 10)
        ≡ replicate 10 (Err RecordFault.Short) }
    ensures port { map (λ count. port_record_at One (take count PORT_RECORD)) (range_with_len 0 17)
        ≡ replicate 17 (Err RecordFault.Short) }
{}

/// A command's record has at most 4,118 octets. A port's has at most 4,133 in version 1, and 8,349 in version 2: that of
/// two sets that count 4,096, with three labels of 32 octets. A Rollback record has 2.
pub fn largest_records()
    ensures command { LARGEST_COMMAND_RECORD ≡ 4118 }
    ensures port_of_one { LARGEST_PORT_RECORD_OF_ONE ≡ 4133 }
    ensures port_of_two { LARGEST_PORT_RECORD_OF_TWO ≡ 8349 }
    ensures reached_in_one { length (port_octets One (record full_port { previous = None })) ≡ 4133 }
    ensures reached { length (port_octets Two full_port) ≡ 8349 }
    ensures rollback { length (command_octets Two (Rollback 32)) ≡ 2 }
{}

/// [`CLEAR_RECORD`] and [`STORE_RECORD`] decode to their commands, and are what these are encoded as.
#[tactic(auto, unfolding(crate::specs::Reading::command_at, crate::specs::Reading::arguments_at, crate::specs::Reading::set_at, crate::specs::Reading::set_head_at, crate::specs::Reading::entry_at))]
pub fn clear_and_store_records()
    ensures clear_written { CLEAR_RECORD ≡ command_octets One (Clear 1) }
    ensures clear_read { command_at One CLEAR_RECORD ≡ Ok (Clear 1, []) }
    ensures store_written { STORE_RECORD ≡ command_octets One (Store 1 1 example_set) }
    ensures store_read { command_at One STORE_RECORD ≡ Ok (Store 1 1 example_set, []) }
{}

/// [`PORT_WITH_SET_RECORD`] decodes to its port, and is what that port is encoded as.
#[tactic(auto, unfolding(crate::specs::Reading::port_record_at, crate::specs::Reading::port_parts_at, crate::specs::Reading::stored_at, crate::specs::Reading::previous_at, crate::specs::Reading::config_at, crate::specs::Reading::label_at, crate::specs::Reading::set_at, crate::specs::Reading::set_head_at, crate::specs::Reading::entry_at))]
pub fn a_port_with_a_set()
    ensures written { PORT_WITH_SET_RECORD ≡ port_octets One example_port }
    ensures read { port_record_at One PORT_WITH_SET_RECORD ≡ Ok (example_port, []) }
{}

/// [`STORE_RECORD`] is refused with one field out of its range: the device 01 00 AB CD, an Index 0003, a length of 233;
/// and with a duplicate key, which is found at its Subindex.
#[tactic(auto, unfolding(crate::specs::Reading::command_at, crate::specs::Reading::arguments_at, crate::specs::Reading::set_at, crate::specs::Reading::set_head_at, crate::specs::Reading::entry_at))]
pub fn stores_out_of_range()
    ensures device { command_at One (slice_set STORE_RECORD 12 0x01) ≡ Err RecordFault.BadField }
    ensures reserved { command_at One (take 24 (slice_set STORE_RECORD 23 0x03)) ≡ Err RecordFault.BadField }
    ensures length { command_at One (take 26 (slice_set STORE_RECORD 25 233)) ≡ Err RecordFault.BadField }
    ensures double_key { command_at One (take 31 (slice_set (slice_set STORE_RECORD 29 0x40) 30 0x00)) ≡ Err RecordFault.BadField }
    ensures cut_off { command_at One (take 32 STORE_RECORD) ≡ Err RecordFault.Short }
{}

/// [`PORT_WITH_SET_RECORD`] is refused if the port may not have the set: another vendor, device or mode, no check; a
/// set taken under Restore or in another mode, a set of another vendor or device. Under Restore the port may have it.
#[tactic(auto, unfolding(crate::specs::Reading::port_record_at, crate::specs::Reading::port_parts_at, crate::specs::Reading::stored_at, crate::specs::Reading::previous_at, crate::specs::Reading::config_at, crate::specs::Reading::label_at, crate::specs::Reading::set_at, crate::specs::Reading::set_head_at, crate::specs::Reading::entry_at))]
pub fn ports_without_right_to_their_set()
    ensures vendor { port_record_at One (slice_set PORT_WITH_SET_RECORD 3 0xF5) ≡ Err RecordFault.BadField }
    ensures device_now { port_record_at One (slice_set PORT_WITH_SET_RECORD 7 0xCE) ≡ Err RecordFault.BadField }
    ensures mode { port_record_at One (slice_set PORT_WITH_SET_RECORD 0 0x02) ≡ Err RecordFault.BadField }
    ensures no_check { port_record_at One (slice_set PORT_WITH_SET_RECORD 1 0x00) ≡ Err RecordFault.BadField }
    ensures recorded { port_record_at One (slice_set PORT_WITH_SET_RECORD 18 0x04) ≡ Err RecordFault.BadField }
    ensures recorded_mode { port_record_at One (slice_set PORT_WITH_SET_RECORD 17 0x02) ≡ Err RecordFault.BadField }
    ensures set_vendor { port_record_at One (slice_set PORT_WITH_SET_RECORD 26 0xF5) ≡ Err RecordFault.BadField }
    ensures device { port_record_at One (slice_set PORT_WITH_SET_RECORD 30 0xCE) ≡ Err RecordFault.BadField }
    ensures restore { port_record_at One (slice_set PORT_WITH_SET_RECORD 1 0x04)
        ≡ Ok (
          record example_port { config = record example_config { validation = Validation.Restore } },
          [],
        ) }
{}

/// Each field is read at its least and greatest number, and at those beside them.
pub fn borders_of_fields()
    ensures tag { map (λ n. field_at (tag_field One) (n ∷ [])) (0 ∷ 1 ∷ 2 ∷ 3 ∷ 4 ∷ [])
        ≡ Err RecordFault.BadTag ∷ Ok (tag.Configure, []) ∷ Ok (tag.Clear, []) ∷ Ok (tag.Store, []) ∷ Err RecordFault.BadTag ∷ [] }
    ensures tag_of_two { map (λ n. field_at (tag_field Two) (n ∷ [])) (0 ∷ 1 ∷ 2 ∷ 3 ∷ 4 ∷ 5 ∷ [])
        ≡ Err RecordFault.BadTag ∷ Ok (tag.Configure, []) ∷ Ok (tag.Clear, []) ∷ Ok (tag.Store, []) ∷ Ok (tag.Rollback, [])
        ∷ Err RecordFault.BadTag ∷ [] }
    ensures port { map (λ n. field_at port_field (n ∷ [])) (0 ∷ 1 ∷ 32 ∷ 33 ∷ [])
        ≡ Err RecordFault.BadField ∷ Ok (1, []) ∷ Ok (32, []) ∷ Err RecordFault.BadField ∷ [] }
    ensures mode { map (λ n. field_at mode_field (n ∷ [])) (0 ∷ 4 ∷ 5 ∷ [])
        ≡ Ok (PortMode.Deactivated, []) ∷ Ok (PortMode.DigitalOutput, []) ∷ Err RecordFault.BadField ∷ [] }
    ensures validation { map (λ n. field_at validation_field (n ∷ [])) (0 ∷ 4 ∷ 5 ∷ [])
        ≡ Ok (Validation.NoCheck, []) ∷ Ok (Validation.Restore, []) ∷ Err RecordFault.BadField ∷ [] }
    ensures device { field_at device_field (0x00 ∷ replicate 3 0xFF) ≡ Ok (16777215, []) }
    ensures no_device { field_at device_field (0x01 ∷ replicate 3 0x00) ≡ Err RecordFault.BadField }
    ensures flag { map (λ n. field_at flag_field (n ∷ [])) (0 ∷ 1 ∷ 2 ∷ [])
        ≡ Ok (false, []) ∷ Ok (true, []) ∷ Err RecordFault.BadField ∷ [] }
{}

/// A vendor, a revision, a checksum and a count may be any number of 2, 8, 4 and 2 octets.
pub fn fields_of_any_number()
    ensures vendor { field_at vendor_field (replicate 2 0xFF) ≡ Ok (65535, []) }
    ensures revision { field_at revision_field (replicate 8 0xFF) ≡ Ok (18446744073709551615, []) }
    ensures checksum { field_at checksum_field (replicate 4 0xFF) ≡ Ok (4294967295, []) }
    ensures count { field_at count_field (replicate 2 0xFF) ≡ Ok (65535, []) }
{}

/// The fields of an entry are an Index that is not reserved, a Subindex that makes a new key, and a length of at most
/// 232 with which the set counts at most 4,096.
pub fn fields_of_entries()
    ensures index { map (λ n. field_at index_field (0 ∷ n ∷ [])) (0 ∷ 1 ∷ 2 ∷ 3 ∷ 4 ∷ []) ≡ Err RecordFault.BadField
        ∷ Ok (1, []) ∷ Err RecordFault.BadField ∷ Err RecordFault.BadField ∷ Ok (4, []) ∷ [] }
    ensures new_key { field_at (subindex_field example_set.entries 64) (1 ∷ []) ≡ Ok (record { index = 64; subindex = 1 }, []) }
    ensures double_key { field_at (subindex_field example_set.entries 64) (0 ∷ []) ≡ Err RecordFault.BadField }
    ensures longest { field_at (length_field []) (232 ∷ []) ≡ Ok (232, []) }
    ensures too_long { field_at (length_field []) (233 ∷ []) ≡ Err RecordFault.BadField }
    ensures fits { field_at (length_field nearly_full) (80 ∷ []) ≡ Ok (80, []) }
    ensures too_large { field_at (length_field nearly_full) (81 ∷ []) ≡ Err RecordFault.BadField }
{}

/// Fields are judged from left to right: a tag before the port after it, and each field before what is missing after
/// it.
#[tactic(auto, unfolding(crate::specs::Reading::command_at, crate::specs::Reading::arguments_at, crate::specs::Reading::port_record_at, crate::specs::Reading::port_parts_at, crate::specs::Reading::stored_at, crate::specs::Reading::previous_at, crate::specs::Reading::config_at, crate::specs::Reading::label_at, crate::specs::Reading::set_at, crate::specs::Reading::set_head_at))]
pub fn faults_from_the_left()
    ensures tag { command_at One (0x04 ∷ 0x00 ∷ []) ≡ Err RecordFault.BadTag }
    ensures no_port { command_at One (0x02 ∷ []) ≡ Err RecordFault.Short }
    ensures port { map (λ tag. command_at One (tag ∷ 0x21 ∷ [])) (0x01 ∷ 0x02 ∷ 0x03 ∷ []) ≡ replicate 3 (Err RecordFault.BadField) }
    ensures mode { command_at One (take 3 (slice_set CONFIGURE_RECORD 2 5)) ≡ Err RecordFault.BadField }
    ensures validation { command_at One (take 4 (slice_set CONFIGURE_RECORD 3 5)) ≡ Err RecordFault.BadField }
    ensures device { command_at One (take 16 (slice_set STORE_RECORD 12 0x01)) ≡ Err RecordFault.BadField }
    ensures flag { port_record_at One (take 17 (slice_set PORT_WITH_SET_RECORD 16 0x02)) ≡ Err RecordFault.BadField }
    ensures recorded { port_record_at One (take 18 (slice_set PORT_WITH_SET_RECORD 17 5)) ≡ Err RecordFault.BadField }
    ensures set { port_record_at One (take 31 (slice_set PORT_WITH_SET_RECORD 27 0x01)) ≡ Err RecordFault.BadField }
{}

/// What follows a record is left unread.
#[tactic(auto, unfolding(crate::specs::Reading::command_at, crate::specs::Reading::arguments_at, crate::specs::Reading::port_record_at, crate::specs::Reading::port_parts_at, crate::specs::Reading::stored_at, crate::specs::Reading::previous_at, crate::specs::Reading::config_at, crate::specs::Reading::label_at))]
pub fn octets_after_a_record()
    ensures clear { command_at One (CLEAR_RECORD ++ 0xFF ∷ []) ≡ Ok (Clear 1, 0xFF ∷ []) }
    ensures configure { command_at One (CONFIGURE_RECORD ++ 0xFF ∷ []) ≡ Ok (Configure 1 example_config, 0xFF ∷ []) }
    ensures port { port_record_at One (PORT_RECORD ++ 0xFF ∷ [])
        ≡ Ok (port_of example_config 1, 0xFF ∷ []) }
{}

/// Memory may run out in a Store and in a port's record once the first entry is complete, which ends at octets 28 and
/// 43, and not before; without a set it does not. In a port with only a previous set, the first entry of that set is
/// meant.
#[tactic(auto, unfolding(crate::specs::Reading::store_begun_at, crate::specs::Reading::begun_after, crate::specs::Reading::port_begun_at, crate::specs::Reading::first_begun_at, crate::specs::Reading::previous_begun_at, crate::specs::Reading::stored_begun_at, crate::specs::Reading::set_begun_at, crate::specs::Reading::config_at, crate::specs::Reading::label_at, crate::specs::Reading::set_head_at, crate::specs::Reading::entry_at))]
pub fn records_that_take_memory()
    ensures store { IsOk (store_begun_at One (take 28 STORE_RECORD)) }
    ensures store_before { store_begun_at One (take 27 STORE_RECORD) ≡ Err RecordFault.Short }
    ensures no_entry { IsOk (store_begun_at One (take 22 (slice_set STORE_RECORD 21 0))) }
    ensures clear { store_begun_at One CLEAR_RECORD ≡ Err RecordFault.BadTag }
    ensures rollback { store_begun_at Two ROLLBACK_RECORD ≡ Err RecordFault.BadTag }
    ensures port { IsOk (port_begun_at One (take 43 PORT_WITH_SET_RECORD)) }
    ensures port_before { port_begun_at One (take 42 PORT_WITH_SET_RECORD) ≡ Err RecordFault.Short }
    ensures no_set { port_begun_at One PORT_RECORD ≡ Err RecordFault.BadField }
    ensures no_set_of_two { port_begun_at Two PORT_RECORD_OF_TWO ≡ Err RecordFault.BadField }
    ensures present { IsOk (port_begun_at Two (take 45 PORT_WITH_PREVIOUS_RECORD)) }
    ensures present_before { port_begun_at Two (take 44 PORT_WITH_PREVIOUS_RECORD) ≡ Err RecordFault.Short }
    ensures previous { IsOk (port_begun_at Two (take 46 (take 17 PORT_WITH_PREVIOUS_RECORD ++ 0x00 ∷ drop 50 PORT_WITH_PREVIOUS_RECORD))) }
    ensures previous_before { port_begun_at Two (take 45 (take 17 PORT_WITH_PREVIOUS_RECORD ++ 0x00 ∷ drop 50 PORT_WITH_PREVIOUS_RECORD))
        ≡ Err RecordFault.Short }
{}

/// In version 2 a configuration has its label, here an empty one, and a port has the flag of its previous set, here
/// absent; Clear and Store are as in version 1.
#[tactic(auto, unfolding(crate::specs::Reading::command_at, crate::specs::Reading::arguments_at, crate::specs::Reading::port_record_at, crate::specs::Reading::port_parts_at, crate::specs::Reading::stored_at, crate::specs::Reading::previous_at, crate::specs::Reading::config_at, crate::specs::Reading::label_at, crate::specs::Reading::set_at, crate::specs::Reading::set_head_at, crate::specs::Reading::entry_at))]
pub fn records_of_two()
    ensures configure { CONFIGURE_RECORD_OF_TWO ≡ command_octets Two (Configure 1 example_config) }
    ensures configure_read { command_at Two CONFIGURE_RECORD_OF_TWO ≡ Ok (Configure 1 example_config, []) }
    ensures clear { CLEAR_RECORD ≡ command_octets Two (Clear 1) }
    ensures store { STORE_RECORD ≡ command_octets Two (Store 1 1 example_set) }
    ensures blank { BLANK_RECORD_OF_TWO ≡ port_octets Two blank }
    ensures port { PORT_RECORD_OF_TWO ≡ port_octets Two (port_of example_config 1) }
    ensures port_read { port_record_at Two PORT_RECORD_OF_TWO
        ≡ Ok (port_of example_config 1, []) }
    ensures with_set { PORT_WITH_SET_RECORD_OF_TWO ≡ port_octets Two example_port }
    ensures with_set_read { port_record_at Two PORT_WITH_SET_RECORD_OF_TWO ≡ Ok (example_port, []) }
{}

/// In version 2 the label of a configuration and the flag of a previous set must be present; a record of one version is
/// not a record of the other.
#[tactic(auto, unfolding(crate::specs::Reading::command_at, crate::specs::Reading::arguments_at, crate::specs::Reading::port_record_at, crate::specs::Reading::port_parts_at, crate::specs::Reading::stored_at, crate::specs::Reading::previous_at, crate::specs::Reading::config_at, crate::specs::Reading::label_at, crate::specs::Reading::set_at, crate::specs::Reading::set_head_at, crate::specs::Reading::entry_at))]
pub fn versions_apart()
    ensures command { command_at Two (slice_set CONFIGURE_RECORD_OF_TWO 10 0x01) ≡ Err RecordFault.Short }
    ensures command_of_one { command_at Two CONFIGURE_RECORD ≡ Err RecordFault.Short }
    ensures config { port_record_at Two (slice_set PORT_WITH_SET_RECORD_OF_TWO 8 0x01) ≡ Err RecordFault.BadField }
    ensures recorded { port_record_at Two (slice_set PORT_WITH_SET_RECORD_OF_TWO 26 0x01) ≡ Err RecordFault.BadField }
    ensures last { port_record_at Two (slice_set PORT_WITH_SET_RECORD_OF_TWO 50 0x01) ≡ Err RecordFault.Short }
    ensures last_missing { port_record_at Two (take 50 PORT_WITH_SET_RECORD_OF_TWO) ≡ Err RecordFault.Short }
    ensures port_of_two { port_record_at One PORT_RECORD_OF_TWO ≡ Err RecordFault.Short }
{}

/// [`LABELLED_RECORD`] decodes to its command, and is what that command is encoded as. A label of 33 octets is refused,
/// and so is one with an octet that is not allowed, but a record that ends before its label does is short.
#[tactic(auto, unfolding(crate::specs::Reading::command_at, crate::specs::Reading::arguments_at, crate::specs::Reading::config_at, crate::specs::Reading::label_at))]
pub fn labels_of_records()
    ensures written { LABELLED_RECORD ≡ command_octets Two (Configure 1 (record example_config { label = codes "Pump 3" })) }
    ensures read { command_at Two LABELLED_RECORD ≡ Ok (Configure 1 (record example_config { label = codes "Pump 3" }), []) }
    ensures one_octet { command_at Two (CONFIGURE_RECORD ++ (1 ∷ 0x50 ∷ []))
        ≡ Ok (Configure 1 (record example_config { label = codes "P" }), []) }
    ensures longest { command_at Two (CONFIGURE_RECORD ++ (32 ∷ replicate 32 0x7E))
        ≡ Ok (Configure 1 (record example_config { label = replicate 32 0x7E }), []) }
    ensures too_long { command_at Two (CONFIGURE_RECORD ++ (33 ∷ replicate 33 0x7E)) ≡ Err RecordFault.BadField }
    ensures octets { map (λ octet. command_at Two (slice_set LABELLED_RECORD 16 octet)) (0x1F ∷ 0x22 ∷ 0x7F ∷ 0xFF ∷ [])
        ≡ replicate 4 (Err RecordFault.BadField) }
    ensures cut_off { command_at Two (take 16 (slice_set LABELLED_RECORD 11 0x22)) ≡ Err RecordFault.Short }
    ensures of_one { command_at One LABELLED_RECORD ≡ Ok (Configure 1 example_config, drop 10 LABELLED_RECORD) }
    ensures not_in_one { ¬ IsCommandRecord One CONFIGURE_RECORD (Configure 1 (record example_config { label = codes "Pump 3" })) }
{}

/// [`ROLLBACK_RECORD`] decodes to its command in version 2, and is what that command is encoded as; version 1 does not
/// have its tag.
#[tactic(auto, unfolding(crate::specs::Reading::command_at, crate::specs::Reading::arguments_at))]
pub fn a_rollback_record()
    ensures written { IsCommandRecord Two ROLLBACK_RECORD (Rollback 1) }
    ensures read { command_at Two ROLLBACK_RECORD ≡ Ok (Rollback 1, []) }
    ensures behind { command_at Two (ROLLBACK_RECORD ++ 0xFF ∷ []) ≡ Ok (Rollback 1, 0xFF ∷ []) }
    ensures port { map (λ port. command_at Two (0x04 ∷ port ∷ [])) (0 ∷ 32 ∷ 33 ∷ [])
        ≡ Err RecordFault.BadField ∷ Ok (Rollback 32, []) ∷ Err RecordFault.BadField ∷ [] }
    ensures cut_off { command_at Two (0x04 ∷ []) ≡ Err RecordFault.Short }
    ensures another_tag { command_at Two (0x05 ∷ 0x01 ∷ []) ≡ Err RecordFault.BadTag }
    ensures of_one { command_at One ROLLBACK_RECORD ≡ Err RecordFault.BadTag }
    ensures not_in_one { ¬ IsCommandRecord One ROLLBACK_RECORD (Rollback 1) }
{}

/// [`PORT_WITH_PREVIOUS_RECORD`] decodes to its port, and is what that port is encoded as. Its last 33 octets are a
/// flag, which is 00 or 01, a configuration and a set.
#[tactic(auto, unfolding(crate::specs::Reading::port_record_at, crate::specs::Reading::port_parts_at, crate::specs::Reading::stored_at, crate::specs::Reading::previous_at, crate::specs::Reading::config_at, crate::specs::Reading::label_at, crate::specs::Reading::set_at, crate::specs::Reading::set_head_at, crate::specs::Reading::entry_at))]
pub fn a_port_with_a_previous_set()
    ensures written { PORT_WITH_PREVIOUS_RECORD ≡ port_octets Two renewed_port }
    ensures read { port_record_at Two PORT_WITH_PREVIOUS_RECORD ≡ Ok (renewed_port, []) }
    ensures behind { port_record_at Two (PORT_WITH_PREVIOUS_RECORD ++ 0xFF ∷ []) ≡ Ok (renewed_port, 0xFF ∷ []) }
    ensures none { port_record_at Two (slice_set (take 51 PORT_WITH_PREVIOUS_RECORD) 50 0x00)
        ≡ Ok (record example_port { stored = Some newer_stored }, []) }
    ensures flag { port_record_at Two (slice_set (take 51 PORT_WITH_PREVIOUS_RECORD) 50 0x02) ≡ Err RecordFault.BadField }
    ensures cut_off { map (λ count. port_record_at Two (take count PORT_WITH_PREVIOUS_RECORD)) (50 ∷ 51 ∷ 71 ∷ 82 ∷ [])
        ≡ replicate 4 (Err RecordFault.Short) }
{}

/// [`PORT_WITH_PREVIOUS_RECORD`] is refused with a previous set that the port may not have: one without a present set,
/// taken under Restore, of another vendor, or of a device out of its range. It is also refused with a present set taken
/// under Restore before a valid previous one.
#[tactic(auto, unfolding(crate::specs::Reading::port_record_at, crate::specs::Reading::port_parts_at, crate::specs::Reading::stored_at, crate::specs::Reading::previous_at, crate::specs::Reading::config_at, crate::specs::Reading::label_at, crate::specs::Reading::set_at, crate::specs::Reading::set_head_at, crate::specs::Reading::entry_at))]
pub fn previous_sets_without_right()
    ensures alone { port_record_at Two (take 17 PORT_WITH_PREVIOUS_RECORD ++ 0x00 ∷ drop 50 PORT_WITH_PREVIOUS_RECORD)
        ≡ Err RecordFault.BadField }
    // This is judged only at the end of the record.
    ensures alone_cut_off { port_record_at Two (take 45 (take 17 PORT_WITH_PREVIOUS_RECORD ++ 0x00 ∷ drop 50 PORT_WITH_PREVIOUS_RECORD))
        ≡ Err RecordFault.Short }
    ensures recorded { port_record_at Two (slice_set PORT_WITH_PREVIOUS_RECORD 52 0x04) ≡ Err RecordFault.BadField }
    ensures vendor { port_record_at Two (slice_set PORT_WITH_PREVIOUS_RECORD 61 0xF5) ≡ Err RecordFault.BadField }
    ensures device { port_record_at Two (take 66 (slice_set PORT_WITH_PREVIOUS_RECORD 62 0x01)) ≡ Err RecordFault.BadField }
    ensures present { port_record_at Two (slice_set PORT_WITH_PREVIOUS_RECORD 19 0x04) ≡ Err RecordFault.BadField }
    ensures present_cut_off { port_record_at Two (take 82 (slice_set PORT_WITH_PREVIOUS_RECORD 19 0x04)) ≡ Err RecordFault.Short }
{}
