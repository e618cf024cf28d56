//! The commands that are written.

use anyhow::Context;
use iol_types::{
    Command, DataSet, DeviceId, Key, Label, PortConfig, PortId, PortMode, SetBuilder, Validation,
};
use std::alloc::Global;

/// Returns IOL_MANUAL with Backup and Restore, for vendor 500 and device 43981.
pub(crate) fn config() -> anyhow::Result<PortConfig> {
    Ok(PortConfig {
        mode: PortMode::IolManual,
        validation: Validation::BackupAndRestore,
        vendor: 500,
        device: DeviceId::new(43981).context("no device number")?,
        label: Label::empty(),
    })
}

/// Returns a Configure of the port with this number.
pub(crate) fn configure(port: u8) -> anyhow::Result<Command> {
    Ok(Command::Configure {
        port: PortId::new(port).context("no port number")?,
        config: config()?,
    })
}

/// Makes a set that counts 4,096 octets: 1,024 parameters without octets.
pub(crate) fn set_of_short_parameters(alloc: Global) -> anyhow::Result<DataSet> {
    let mut set = SetBuilder::new(alloc);
    for index in 0x100..0x500 {
        set.add(Key { index, subindex: 0 }, &[])?;
    }
    Ok(set.finish(500, config()?.device, 0))
}

/// Makes a set that counts 4,096 octets: 17 entries of 232 octets, and one of 80.
pub(crate) fn largest_set(alloc: Global) -> anyhow::Result<DataSet> {
    let octets = [0xA7; 232];
    let mut set = SetBuilder::new(alloc);
    for entry in 0..18 {
        let length = if entry < 17 { 232 } else { 80 };
        let key = Key {
            index: 0x100 + entry,
            subindex: 0,
        };
        set.add(key, &octets[..length])?;
    }
    Ok(set.finish(500, config()?.device, 0x89AB_CDEF))
}
