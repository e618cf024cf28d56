//! Encoders of records.
ghost use Rattle.std.specs.Prelude.{◌≡◌, ◌<◌, ◌≤◌, ◌^◌, ◌∷◌, ◌++◌, [], length, true, Some, OnOk, IfOk, IfSome};
ghost use Rattle.std.specs.Option.{option_map};
ghost use Rattle.std.specs.List.{flat_map};
ghost use Rattle.std.specs.Int.{w16, w32, to_be_bytes};
ghost use Rattle.iol_types.specs.Numbers.{IsPortNumber, IsDeviceNumber};
ghost use Rattle.iol_types.specs.Label.{is_label};
ghost use Rattle.iol_types.specs.Config.{IsConfig};
ghost use Rattle.iol_types.specs.DataSet.{IsSet};
ghost use Rattle.iol_types.specs.Parts.{entry_octets};
ghost use Rattle.iol_types.specs.Command.{Configure, Store, value_of};
ghost use Rattle.iol_types.specs.State.{IsStored};
ghost use Rattle.iol_types.specs.Port.{stored_of};
ghost use Rattle.iol_record.specs.declared.encode.TheConstants.{LARGEST_COMMAND_RECORD};
ghost use Rattle.iol_record.specs.Record.{label_octets, numbers_octets, config_octets, command_octets, set_octets};
ghost use Rattle.iol_record.specs.Record.{stored_octets, previous_octets, SpellsLabel, SpellsCommand};
ghost use Rattle.iol_record.specs.Record.{SpellsPrevious, SpellsPort, IsCommandRecord, IsPortRecord};

use crate::reader::{CLEAR, CONFIGURE, NO_SET, ROLLBACK, SET, STORE};
use crate::version::Version;
use iol_types::{Command, DataSet, Label, PortConfig, PortId, PortState, StoredSet};
use std::alloc::{AllocError, Global};

// The number of octets of a Configure record before its label.
const CONFIGURE_OCTETS: usize = 10;

// The number of octets of a record that names only a port: of a Clear or a Rollback.
const PORT_COMMAND_OCTETS: usize = 2;

// The number of octets of a Store record before its entries.
const STORE_OCTETS: usize = 22;

// The number of octets of the record of a port without a set, not counting its label and the flag of a previous set.
const PORT_OCTETS: usize = 17;

/// The maximum number of octets of a command's record: a Store of a set that counts 4,096.
pub const LARGEST_COMMAND_RECORD: usize = 4118;

/// The maximum number of octets of a port's record in version 1: with a set that counts 4,096.
pub const LARGEST_PORT_RECORD_OF_ONE: usize = 4133;

/// The maximum number of octets of a port's record in version 2: with two sets that count 4,096 each, and three labels
/// of 32 octets.
pub const LARGEST_PORT_RECORD_OF_TWO: usize = 8349;

// Octets taken by an absent previous set in a version.
fn no_previous_octets(version: Version) -> usize
    ensures { result ≤ 1 }
{
    match version {
        Version::One => 0,
        Version::Two => 1,
    }
}

// The number of octets that a label takes in a version.
fn label_octets(version: Version, label: &Label) -> usize
    ensures count { result ≡ length (label_octets version label.now) }
    ensures most { result ≤ 33 }
{
    match version {
        Version::One => 0,
        Version::Two => 1 + label.len(),
    }
}

fn push_label(octets: &mut Vec<u8>, version: Version, label: &Label) -> Result<(), AllocError>
    ensures octets { OnOk result (octets.new.items ≡ octets.old.items ++ label_octets version label.now) }
    ensures label { is_label label.now ≡ true }
{
    let own = label.octets();
    match version {
        Version::One => Ok(()),
        Version::Two => {
            octets.push(own.len() as u8)?;
            octets.extend_from_slice(own)
        }
    }
}

fn push_numbers(octets: &mut Vec<u8>, config: &PortConfig) -> Result<(), AllocError>
    ensures octets { OnOk result (octets.new.items ≡ octets.old.items ++ numbers_octets config.now) }
    ensures vendor { OnOk result (config.now.vendor < 2 ^ 16) }
    ensures device { OnOk result (IsDeviceNumber config.now.device) }
{
    octets.push(config.mode.to_octet())?;
    octets.push(config.validation.to_octet())?;
    octets.extend_from_slice(&config.vendor.to_be_bytes())?;
    octets.extend_from_slice(&config.device.number().to_be_bytes())?;
    Ok(())
}

fn push_config(
    octets: &mut Vec<u8>,
    version: Version,
    config: &PortConfig,
) -> Result<(), AllocError>
    ensures octets { OnOk result (octets.new.items ≡ octets.old.items ++ config_octets version config.now) }
    ensures in_range { OnOk result (IsConfig config.now) }
{
    push_numbers(octets, config)?;
    push_label(octets, version, &config.label)?;
    Ok(())
}

// The parts of a set are its entries as they are in a record.
fn push_entries(octets: &mut Vec<u8>, set: &DataSet) -> Result<(), AllocError>
    ensures { OnOk result (octets.new.items ≡ octets.old.items ++ flat_map entry_octets set.now.entries) }
{
    for place in 0..set.parts() {
        if let Some(part) = set.part(place) {
            octets.extend_from_slice(part)?;
        }
    }
    Ok(())
}

fn entry_count(set: &DataSet) -> u16
    ensures { result ≡ length set.now.entries }
{
    set.len() as u16
}

fn push_device(octets: &mut Vec<u8>, set: &DataSet) -> Result<(), AllocError>
    ensures { OnOk result (octets.new.items ≡ octets.old.items ++ (to_be_bytes w16 set.now.vendor ++ to_be_bytes w32 set.now.device)) }
{
    octets.extend_from_slice(&set.vendor().to_be_bytes())?;
    octets.extend_from_slice(&set.device().number().to_be_bytes())?;
    Ok(())
}

fn push_counts(octets: &mut Vec<u8>, set: &DataSet) -> Result<(), AllocError>
    ensures { OnOk result (octets.new.items ≡ octets.old.items
        ++ (to_be_bytes w32 set.now.checksum ++ to_be_bytes w16 (length set.now.entries))) }
{
    octets.extend_from_slice(&set.checksum().to_be_bytes())?;
    octets.extend_from_slice(&entry_count(set).to_be_bytes())?;
    Ok(())
}

fn push_set(octets: &mut Vec<u8>, set: &DataSet) -> Result<(), AllocError>
    ensures octets { OnOk result (octets.new.items ≡ octets.old.items ++ set_octets set.now) }
    ensures set { IsSet set.now }
{
    octets.reserve(set.octets())?;
    push_device(octets, set)?;
    push_counts(octets, set)?;
    push_entries(octets, set)?;
    Ok(())
}

fn encode_configure(
    alloc: Global,
    version: Version,
    port: PortId,
    config: &PortConfig,
) -> Result<Vec<u8>, AllocError>
    requires { SpellsLabel version config.now.label }
    ensures { IfOk result (λ octets. IsCommandRecord version octets.items (Configure port config.now)) }
{
    let label = label_octets(version, &config.label);
    let mut octets = Vec::with_capacity(alloc, CONFIGURE_OCTETS + label)?;
    octets.push(CONFIGURE)?;
    octets.push(port.number())?;
    push_config(&mut octets, version, config)?;
    Ok(octets)
}

// Encodes a command that names only a port.
fn encode_port_command(alloc: Global, tag: u8, port: PortId) -> Result<Vec<u8>, AllocError>
    ensures { IfOk result (λ octets. (octets.items ≡ tag ∷ port ∷ []) × IsPortNumber port) }
{
    let mut octets = Vec::with_capacity(alloc, PORT_COMMAND_OCTETS)?;
    octets.push(tag)?;
    octets.push(port.number())?;
    Ok(octets)
}

fn encode_store(
    alloc: Global,
    port: PortId,
    revision: u64,
    set: &DataSet,
) -> Result<Vec<u8>, AllocError>
    ensures { (version : Version) → IfOk result (λ octets. IsCommandRecord version octets.items (Store port revision set.now)) }
{
    let mut octets = Vec::with_capacity(alloc, STORE_OCTETS)?;
    octets.push(STORE)?;
    octets.push(port.number())?;
    octets.extend_from_slice(&revision.to_be_bytes())?;
    push_set(&mut octets, set)?;
    Ok(octets)
}

/// The number of octets of a command's record in a version. It allocates no memory.
pub fn command_record_octets(version: Version, command: &Command) -> usize
    ensures count { result ≡ length (command_octets version (value_of command.now)) }
    ensures most { result ≤ LARGEST_COMMAND_RECORD }
{
    match command {
        Command::Configure { config, .. } => CONFIGURE_OCTETS
            + label_octets(version, &config.label),
        Command::Clear { .. } | Command::Rollback { .. } => PORT_COMMAND_OCTETS,
        Command::Store { set, .. } => STORE_OCTETS + set.octets(),
    }
}

/// Encodes a command in a version, in the layout given at [`decode_command`](crate::decode_command).
///
/// # Errors
/// `AllocError` if out of memory.
pub fn encode_command(
    alloc: Global,
    version: Version,
    command: &Command,
) -> Result<Vec<u8>, AllocError>
    // Version 1 has no labels, and no Rollback.
    requires { SpellsCommand version (value_of command.now) }
    ensures { IfOk result (λ octets. IsCommandRecord version octets.items (value_of command.now)) }
{
    match command {
        Command::Configure { port, config } => encode_configure(alloc, version, *port, config),
        Command::Clear { port } => encode_port_command(alloc, CLEAR, *port),
        Command::Store {
            port,
            revision,
            set,
        } => encode_store(alloc, *port, *revision, set),
        Command::Rollback { port } => encode_port_command(alloc, ROLLBACK, *port),
    }
}

fn push_set_of_port(
    octets: &mut Vec<u8>,
    version: Version,
    stored: &StoredSet,
) -> Result<(), AllocError>
    ensures octets { OnOk result (octets.new.items ≡ octets.old.items ++ stored_octets version (Some (stored_of stored.now))) }
    ensures in_range { OnOk result (IsStored (stored_of stored.now)) }
{
    octets.push(SET)?;
    push_config(octets, version, &stored.recorded)?;
    push_set(octets, &stored.set)?;
    Ok(())
}

fn push_stored(
    octets: &mut Vec<u8>,
    version: Version,
    stored: Option<&StoredSet>,
) -> Result<(), AllocError>
    ensures octets { OnOk result (octets.new.items
        ≡ octets.old.items ++ stored_octets version (option_map (λ stored. stored_of stored.now) stored.entry)) }
    ensures in_range { OnOk result (IfSome (option_map (λ stored. stored_of stored.now) stored.entry) IsStored) }
{
    match stored {
        None => octets.push(NO_SET)?,
        Some(stored) => push_set_of_port(octets, version, stored)?,
    }
    Ok(())
}

// Version 1 has no previous sets.
fn push_previous(
    octets: &mut Vec<u8>,
    version: Version,
    previous: Option<&StoredSet>,
) -> Result<(), AllocError>
    requires { SpellsPrevious version (option_map (λ stored. stored_of stored.now) previous) }
    ensures octets { OnOk result (octets.new.items
        ≡ octets.old.items ++ previous_octets version (option_map (λ stored. stored_of stored.now) previous.entry)) }
    ensures in_range { OnOk result (IfSome (option_map (λ stored. stored_of stored.now) previous.entry) IsStored) }
{
    if let Version::Two = version {
        push_stored(octets, version, previous)?;
    }
    Ok(())
}

/// Encodes a port in a version, in the layout given at [`decode_port`](crate::decode_port).
///
/// # Errors
/// `AllocError` if out of memory.
pub fn encode_port(alloc: Global, version: Version, port: &PortState) -> Result<Vec<u8>, AllocError>
    // Version 1 has no labels, and no previous sets.
    requires { SpellsPort version port.now }
    ensures { IfOk result (λ octets. IsPortRecord version octets.items port.now) }
{
    let label = label_octets(version, &port.config().label);
    let mut octets = Vec::with_capacity(alloc, PORT_OCTETS + label + no_previous_octets(version))?;
    push_config(&mut octets, version, &port.config())?;
    octets.extend_from_slice(&port.revision().to_be_bytes())?;
    push_stored(&mut octets, version, port.stored())?;
    push_previous(&mut octets, version, port.previous())?;
    Ok(octets)
}
