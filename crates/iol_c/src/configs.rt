//! The configurations of a port, as C has them.

ghost use Rattle.std.specs.Prelude.{◌≡◌};
ghost use Rattle.iol_c.specs.Configs.{config_of, config_struct, device_of, label_of};

use crate::arguments::filled;
use crate::structs::Config;
use iol_types::{DeviceId, Label, MOST_LABEL_OCTETS, PortConfig, PortMode, Validation};

/// Returns the configuration that C means, if each of its numbers is in its range.
pub(crate) fn config_of(config: &Config) -> Option<PortConfig>
    ensures { result ≡ config_of config.now }
{
    let mode = PortMode::from_octet(config.mode)?;
    let validation = Validation::from_octet(config.validation)?;
    let device = device_of(config.device)?;
    let label = label_of(config)?;
    Some(PortConfig {
        mode,
        validation,
        vendor: config.vendor,
        device,
        label,
    })
}

// Returns the DeviceID with this number, if it has three octets.
fn device_of(number: u32) -> Option<DeviceId>
    ensures { result ≡ device_of number }
{
    DeviceId::new(number)
}

// Returns the label of a configuration, if it is valid.
fn label_of(config: &Config) -> Option<Label>
    ensures { result ≡ label_of config.now }
{
    let count = usize::from(config.label_count);
    if count > MOST_LABEL_OCTETS {
        return None;
    }
    Label::new(&config.label[..count])
}

/// Returns a configuration as C has it.
pub(crate) fn config_struct(config: &PortConfig) -> Config
    ensures { result ≡ config_struct config.now }
{
    Config {
        mode: config.mode.to_octet(),
        validation: config.validation.to_octet(),
        vendor: config.vendor,
        device: config.device.number(),
        label_count: config.label.len() as u8,
        label: filled(config.label.octets()),
    }
}
