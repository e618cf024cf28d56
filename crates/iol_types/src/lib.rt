//! What an IO-Link master keeps for its ports, and the commands that change it.
//!
//! Numbers are held in types that enforce their ranges: [`PortId`], [`DeviceId`], [`PortMode`],
//! [`Validation`]. With a [`Label`] they make up a port's [`PortConfig`]. A [`SetBuilder`] takes a device's
//! parameters, each under its [`Key`], and makes a [`DataSet`] of them. A [`Command`] may carry a
//! configuration or a set, and a [`Change`] is a command that a client may request. A [`MasterState`] holds a
//! [`PortState`] for each port; it checks a command and applies it. All lists of commands, on a disk or in a
//! queue, act only through these two calls.
//!
//! Modules in reading order: `port_id`, `device_id`, `label`, `config`, `key`, `data_set`, `set_builder`,
//! `parts`, `kept_entries`, `command`, `port_state`, `master_state`, `examples` (worked examples). What a
//! configuration, a set, a command and a state are to a contract is defined in `specs/Config.antt`,
//! `specs/DataSet.antt`, `specs/Command.antt` and `specs/State.antt`.
#![tactic(auto)]

mod command;
mod config;
mod data_set;
mod device_id;
pub mod examples;
mod kept_entries;
mod key;
mod label;
mod master_state;
mod parts;
mod port_id;
mod port_state;
mod set_builder;

pub use command::{Change, Command, CommandFault};
pub use config::{PortConfig, PortMode, Validation, keeps_set};
pub use data_set::{DataSet, ENTRY_HEAD_OCTETS, MOST_ENTRY_OCTETS, MOST_SET_OCTETS};
pub use device_id::{DEVICE_NUMBERS, DeviceId};
pub use key::{DATA_STORAGE, DIRECT_PARAMETER_PAGE, Key, SYSTEM_COMMAND};
pub use label::{Label, MOST_LABEL_OCTETS};
pub use master_state::MasterState;
pub use parts::PART_OCTETS;
pub use port_id::{PORTS, PortId};
pub use port_state::{LAST_REVISION, PortState, StoredSet};
pub use set_builder::{AddFault, SetBuilder};
