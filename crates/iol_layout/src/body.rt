//! The body of a slot: its head, and the records of a batch.

ghost use Rattle.std.specs.Prelude.{◌≡◌, ◌≤◌, ◌<◌, ◌+◌, ◌^◌, ◌++◌, length, drop, Some, IfOk, OnOk};
ghost use Rattle.std.specs.Int.{w64, to_be_bytes};
ghost use Rattle.iol_record.specs.Record.{newest};
ghost use Rattle.iol_layout.specs.Octets.{sectors_reached};
ghost use Rattle.iol_layout.specs.Body.{commands_of, records_of, slots_of, slots_for, head_octets, body_octets, values};

use crate::header::LAST_NUMBER;
use crate::numbers::array_at;
use iol_disk::SECTOR_OCTETS;
use iol_record::{Version, encode_command};
use iol_types::Command;
use std::alloc::{AllocError, Global};

/// The most commands of a batch.
pub const MOST_COMMANDS: usize = 64;
/// The octets of a slot's body before the records: epoch 8, number of the first command 8, count 2, octets of the records 4.
pub const BODY_HEAD_OCTETS: usize = 22;
/// The number of octets in a slot's body.
pub const BODY_OCTETS: usize = 8192;
/// The most octets of records in a batch of one slot: what a slot's body holds after its head.
pub const MOST_RECORD_OCTETS: usize = 8170;

/// The number of octets of an epoch, at the beginning of a body.
pub const EPOCH_OCTETS: usize = 8;

/// A batch as it is written: the octets of its body, and the number of slots and sectors that they take.
#[derive(Debug, Drop)]
pub struct EncodedBatch {
    pub octets: Vec<u8>,
    pub span: usize,
    pub sectors: usize,
}

/// What precedes the records in a slot's body (docs/FORMATS.md, "Slots").
#[derive(Clone, Copy)]
pub struct Head {
    pub epoch: u64,
    /// The number of the first command.
    pub first: u64,
    /// The number of commands.
    pub count: u16,
    /// The number of octets of their records.
    pub octets: u32,
}

impl Head {
    ghost use Rattle.iol_layout.specs.Body.{head_of, fits, slots_of};

    /// Reads the head at the beginning of a body.
    #[tactic(auto, unfolding(crate::specs::Body::head_of))]
    pub fn read(body: &[u8]) -> Head
        requires { BODY_HEAD_OCTETS ≤ length body.now }
        ensures { result ≡ head_of body.now }
    {
        Head {
            epoch: u64::from_be_bytes(array_at(body, 0)),
            first: u64::from_be_bytes(array_at(body, 8)),
            count: u16::from_be_bytes(array_at(body, 16)),
            octets: u32::from_be_bytes(array_at(body, 18)),
        }
    }

    /// Returns whether the head may belong to a batch under this epoch whose first command has this number.
    pub fn fits(self, epoch: u64, first: u64) -> bool
        requires { first ≤ LAST_NUMBER + 1 }
        ensures { result ≡ fits self epoch first }
    {
        self.epoch == epoch
            && self.first == first
            && 1 <= self.count
            && usize::from(self.count) <= MOST_COMMANDS
            && first + u64::from(self.count) <= LAST_NUMBER + 1
    }

    /// The number of body sectors that the head and its records take, as the head says: 1 or more, and at most 16 for each
    /// slot of its batch.
    pub fn sectors(self) -> usize
        ensures { result ≡ sectors_reached (BODY_HEAD_OCTETS + self.octets) }
    {
        (BODY_HEAD_OCTETS + self.octets as usize).div_ceil(SECTOR_OCTETS)
    }

    /// The number of slots that its batch takes, as the head says: 1 or more.
    pub fn slots(self) -> usize
        ensures { result ≡ slots_of self.octets }
    {
        slots_of(self.octets as usize)
    }
}

/// The number of slots that a batch takes whose records have `octets` octets.
pub fn slots_of(octets: usize) -> usize
    requires { octets < 2 ^ 40 }
    ensures { result ≡ slots_of octets }
{
    (BODY_HEAD_OCTETS + octets).div_ceil(BODY_OCTETS)
}

// Encodes the records of commands, one after another.
fn records(alloc: Global, commands: &[Command]) -> Result<Vec<u8>, AllocError>
    requires { length (records_of (values commands.now)) < 2 ^ 31 }
    ensures records { IfOk result (λ octets. octets.items ≡ records_of (values commands.now)) }
    ensures read { IfOk result (λ octets. commands_of newest (length commands.now) octets.items ≡ Some (values commands.now)) }
{
    let mut octets = Vec::new(alloc);
    for command in commands {
        let record = encode_command(alloc, Version::newest(), command)?;
        octets.extend_from_slice(record.as_slice())?;
    }
    Ok(octets)
}

impl EncodedBatch {
    /// Encodes these commands as a batch under an epoch; the first command has the number `first`.
    ///
    /// # Errors
    /// Fails if out of memory.
    pub fn of(
        alloc: Global,
        epoch: u64,
        first: u64,
        commands: &[Command],
    ) -> Result<EncodedBatch, AllocError>
        requires most { length commands.now ≤ MOST_COMMANDS }
        requires small { length (records_of (values commands.now)) < 2 ^ 31 }
        ensures octets { IfOk result (λ body. body.octets.items ≡ body_octets epoch first (values commands.now)) }
        ensures span { IfOk result (λ body. body.span ≡ slots_for (values commands.now)) }
        ensures sectors { IfOk result (λ body. body.sectors ≡ sectors_reached (length body.octets.items)) }
        // The records are read back as these commands.
        ensures read { OnOk result (commands_of newest (length (values commands.now)) (records_of (values commands.now))
            ≡ Some (values commands.now)) }
    {
        let records = records(alloc, commands)?;
        let head = head_octets(epoch, first, commands.len() as u16, records.len() as u32);
        let sectors = (BODY_HEAD_OCTETS + records.len()).div_ceil(SECTOR_OCTETS);
        let mut octets = Vec::with_capacity(alloc, SECTOR_OCTETS * sectors)?;
        octets.extend_from_slice(&head)?;
        octets.extend_from_slice(records.as_slice())?;
        octets.resize(SECTOR_OCTETS * sectors, 0)?;
        Ok(EncodedBatch {
            octets,
            span: slots_of(records.len()),
            sectors,
        })
    }

    /// Returns the same batch under another epoch, which is its octets 0 to 7.
    pub fn under(self, epoch: u64) -> EncodedBatch
        requires { EPOCH_OCTETS ≤ length self.octets.items }
        ensures octets { result.octets.items ≡ to_be_bytes w64 epoch ++ drop EPOCH_OCTETS self.octets.items }
        ensures span { result.span ≡ self.span }
        ensures sectors { result.sectors ≡ self.sectors }
    {
        let EncodedBatch {
            mut octets,
            span,
            sectors,
        } = self;
        put_epoch(&mut octets, epoch);
        EncodedBatch {
            octets,
            span,
            sectors,
        }
    }
}

// Overwrites the epoch at the beginning of a body.
fn put_epoch(body: &mut [u8], epoch: u64)
    requires { EPOCH_OCTETS ≤ length body.old }
    ensures { body.new ≡ to_be_bytes w64 epoch ++ drop EPOCH_OCTETS body.old }
{
    body[..EPOCH_OCTETS].copy_from_slice(&epoch.to_be_bytes());
}

// Returns the octets of a head.
fn head_octets(epoch: u64, first: u64, count: u16, octets: u32) -> [u8; BODY_HEAD_OCTETS]
    ensures { result ≡ head_octets epoch first count octets }
{
    let mut head = [0; BODY_HEAD_OCTETS];
    head[..8].copy_from_slice(&epoch.to_be_bytes());
    head[8..16].copy_from_slice(&first.to_be_bytes());
    head[16..18].copy_from_slice(&count.to_be_bytes());
    head[18..].copy_from_slice(&octets.to_be_bytes());
    head
}
