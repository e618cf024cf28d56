//! Decoders, which read records from the front of some octets.
ghost use Rattle.std.specs.Prelude.{◌≡◌, ◌≤◌, ◌++◌, ◌⊎◌, ℕ, List, length, take, drop, IfOk, IsOkAnd, Ok, Err};
ghost use Rattle.iol_types.specs.Command.{CommandValue, value_of};
ghost use Rattle.iol_types.specs.State.{Port};
ghost use Rattle.iol_record.specs.Record.{IsCommandRecord, IsPortRecord};
ghost use Rattle.iol_record.specs.Reading.{ReadsOrMemory, command_at, store_begun_at, port_record_at, port_begun_at};

use crate::fault::RecordFault;
use crate::reader::Reader;
use crate::version::Version;
use iol_types::{Command, PortState};
use std::alloc::Global;

/// Decodes the command whose record in this version is at the front of the octets, and returns it with the
/// number of octets of the record. The octets after the record are not read.
///
/// A Configure record has 10 octets: `tag u8 = 01 | port u8 | mode u8 | validation u8 | vendor u16 | device
/// u32`, and in version 2 its label, `length u8 | octets`. A Clear record has 2: `tag u8 = 02 | port u8`. A
/// Store record has 22 and its entries: `tag u8 = 03 | port u8 | revision u64 | vendor u16 | device u32 |
/// checksum u32 | count u16`, then `count` entries `index u16 | subindex u8 | length u8 | data`. A Rollback
/// record, which version 1 does not have, has 2: `tag u8 = 04 | port u8`.
///
/// # Errors
/// The first fault, field by field: `Short` if the octets end within the field, `BadTag` if the version does
/// not have the tag, and `BadField` if a value is not allowed. Not allowed are a port that is 0 or over 32, a
/// mode or a validation over 4, a device of 2^24 or more, a label with over 32 octets, and a label with an
/// octet that may not be in it. Nor are a reserved Index, a key that occurs twice (found at its Subindex), and
/// a length that is over 232 or makes the set too large. `Memory` is returned only at an entry of a Store, and
/// at the end of a Store.
pub fn decode_command(
    alloc: Global,
    version: Version,
    octets: &[u8],
) -> Result<(Command, usize), RecordFault>
    // The value that is returned is the one whose record is at the front.
    ensures found { IfOk result (λ (command, count).
        (count ≤ length octets.now) × IsCommandRecord version (take count octets.now) (value_of command)) }
    // A value whose record is at the front is returned, whatever follows, unless memory runs out.
    ensures only { (front rest : List ℕ) (command : CommandValue)
        → IsCommandRecord version front command → octets.now ≡ front ++ rest
        → (result ≡ Err RecordFault.Memory) ⊎ IsOkAnd result (λ (found, count). (value_of found ≡ command) × (count ≡ length front)) }
    // A fault is the first one, or `Memory` if the set is complete and in range as far as its first entry.
    ensures exact { ReadsOrMemory (λ (command, count). (value_of command, drop count octets.now)) (store_begun_at version octets.now) result
        (command_at version octets.now) }
{
    let mut reader = Reader::new(octets);
    let command = reader.command(alloc, version)?;
    Ok((command, octets.len() - reader.len()))
}

/// Decodes the port whose record in this version is at the front of the octets, and returns it with the number
/// of octets of the record. The octets after the record are not read.
///
/// The record has 17 octets: `mode u8 | validation u8 | vendor u16 | device u32 | revision u64 | flag u8 = 00`.
/// If a set is stored, it has 37 and the set's entries: the flag is 01, and after it come the configuration
/// that the set was taken under, and the set as in a Store record. In version 2 a label follows each
/// configuration, and the record ends with the same again for the previous set: a flag and, if it is 01, the
/// configuration and the set.
///
/// # Errors
/// The first fault, field by field: `Short` if the octets end within the field, and `BadField` if a value is
/// not allowed. Not allowed are a mode or a validation over 4, a device of 2^24 or more, a flag that is neither
/// 00 nor 01, and an invalid label. A field of a set is refused as `decode_command` refuses it. At the end
/// `BadField` is returned if the port may not have its sets, or has only a previous one (`PortState::new`).
/// `Memory` is returned only at an entry of a set, and at its end.
pub fn decode_port(
    alloc: Global,
    version: Version,
    octets: &[u8],
) -> Result<(PortState, usize), RecordFault>
    // The value that is returned is the one whose record is at the front.
    ensures found { IfOk result (λ (port, count).
        (count ≤ length octets.now) × IsPortRecord version (take count octets.now) port) }
    // A value whose record is at the front is returned, whatever follows, unless memory runs out.
    ensures only { (front rest : List ℕ) (port : Port)
        → IsPortRecord version front port → octets.now ≡ front ++ rest
        → (result ≡ Err RecordFault.Memory) ⊎ IsOkAnd result (λ (found, count). (found ≡ port) × (count ≡ length front)) }
    // A fault is the first one, or `Memory` if the first set is complete and in range as far as its first
    // entry.
    ensures exact { ReadsOrMemory (λ (port, count). (port, drop count octets.now)) (port_begun_at version octets.now) result
        (port_record_at version octets.now) }
{
    let mut reader = Reader::new(octets);
    let port = reader.port_state(alloc, version)?;
    Ok((port, octets.len() - reader.len()))
}
