//! The state of a master's ports, and what commands do to it.
ghost use Rattle.std.specs.Prelude.{◌≡◌, ◌≤◌, List, length, IfOk, IfErr, OnOk, OnErr, None, Some};
ghost use Rattle.std.specs.Option.{option_copied};
ghost use Rattle.iol_types.specs.declared.port_id.TheConstants.{PORTS};

use crate::command::{Command, CommandFault};
use crate::port_id::PortId;
use crate::port_state::{LAST_REVISION, PortState};
use std::alloc::{AllocError, Global};
use std::marker::Model;

/// The state of a master: a [`PortState`] for each of its ports. The number of ports never changes. A
/// contract sees the list `State` of `specs/State.antt`, port 1 first.
#[derive(Debug, Drop)]
pub struct MasterState {
    ports: Vec<PortState>,
}

impl Model for MasterState {
    ghost use Rattle.std.specs.Prelude.{◌≤◌, List, length};
    ghost use Rattle.iol_types.specs.declared.port_id.TheConstants.{PORTS};
    ghost use Rattle.iol_types.specs.State.{Port};

    ghost Value = { List Port };

    ghost view = { λ s. s.ports.items };

    ghost invariant = { λ s. length s.ports.items ≤ PORTS };
}

impl MasterState {
    ghost use Rattle.iol_types.specs.Command.{value_of};
    ghost use Rattle.iol_types.specs.State.{empty_state, port_numbered, with_port, check, apply};

    /// The state of a master with `ports` ports, each DEACTIVATED with validation, vendor, device
    /// and revision 0.
    ///
    /// # Errors
    /// `AllocError` if out of memory; a master without ports needs none.
    pub fn new(alloc: Global, ports: u8) -> Result<MasterState, AllocError>
        requires { ports ≤ PORTS }
        ensures empty { IfOk result (λ state. state ≡ empty_state ports) }
        ensures memory { OnErr result (1 ≤ ports) }
    {
        let mut blank = Vec::with_capacity(alloc, usize::from(ports))?;
        for _ in 0..ports {
            blank.push(PortState::blank())?;
        }
        Ok(MasterState { ports: blank })
    }

    /// An equal state, under the same allocator.
    ///
    /// # Errors
    /// `AllocError` if out of memory; a master without ports needs none.
    pub fn copy(&self) -> Result<MasterState, AllocError>
        ensures copy { IfOk result (λ state. state ≡ self.now) }
        ensures memory { OnErr result (1 ≤ length self.now) }
    {
        let mut ports = Vec::with_capacity(*self.ports.allocator(), self.ports.len())?;
        for port in &self.ports {
            ports.push(port.copy()?)?;
        }
        Ok(MasterState { ports })
    }

    /// The number of ports, at most [`PORTS`](crate::PORTS).
    pub fn ports(&self) -> u8
        ensures count { result ≡ length self.now }
        ensures bound { result ≤ PORTS }
    {
        self.ports.len() as u8
    }

    /// The port with this number, or `None` if the master has no such port.
    pub fn port(&self, port: PortId) -> Option<&PortState>
        ensures { option_copied result ≡ port_numbered self.now port }
    {
        self.ports.get(port.place())
    }

    /// Replaces the port with this number; the others stay as they are.
    pub fn set_port(&mut self, port: PortId, state: PortState)
        requires { port ≤ length self.old }
        ensures { self.new ≡ with_port self.old port state }
    {
        self.ports[port.place()] = state;
    }

    /// Checks whether a command may be applied.
    ///
    /// # Errors
    /// The first cause, in the order of [`CommandFault`]. `UnknownPort` if the master has no such port.
    /// For Configure `RevisionSpent` if the port is at [`LAST_REVISION`]. For Store `NotAllowed` if the
    /// port is not IOL_MANUAL with Backup and Restore, `StaleRevision` if it is at another revision, and
    /// `WrongDevice` if its configuration names another device. For Rollback `NoPrevious` if the port
    /// has no previous set.
    pub fn check(&self, command: &Command) -> Result<(), CommandFault>
        ensures passes { OnOk result (check self.now (value_of command.now) ≡ None) }
        ensures refused { IfErr result (λ fault. check self.now (value_of command.now) ≡ Some fault) }
    {
        let fault = match command {
            Command::Configure { port, config: _ } => match self.port(*port) {
                None => Some(CommandFault::UnknownPort),
                Some(state) if state.revision() < LAST_REVISION => None,
                Some(_) => Some(CommandFault::RevisionSpent),
            },
            Command::Clear { port } => match self.port(*port) {
                None => Some(CommandFault::UnknownPort),
                Some(_) => None,
            },
            Command::Store {
                port,
                revision,
                set,
            } => match self.port(*port) {
                None => Some(CommandFault::UnknownPort),
                Some(state) => state.store_fault(*revision, set),
            },
            Command::Rollback { port } => match self.port(*port) {
                None => Some(CommandFault::UnknownPort),
                Some(state) => state.rollback_fault(),
            },
        };
        match fault {
            None => Ok(()),
            Some(fault) => Err(fault),
        }
    }

    /// Applies a command that passes [`check`](MasterState::check). Configure gives the port its
    /// configuration and the next revision, and deletes its sets unless [`keeps_set`](crate::keeps_set)
    /// holds. Clear deletes its sets. Store gives it a set, taken under the present configuration; the
    /// set that it had becomes the previous one. Rollback exchanges its set and the previous one.
    pub fn apply(&mut self, command: Command)
        requires { check self.old (value_of command) ≡ None }
        ensures { self.new ≡ apply self.old (value_of command) }
    {
        match command {
            Command::Configure { port, config } => {
                if let Some(state) = self.ports.get_mut(port.place()) {
                    state.configure(config);
                }
            }
            Command::Clear { port } => {
                if let Some(state) = self.ports.get_mut(port.place()) {
                    state.clear();
                }
            }
            Command::Store {
                port,
                revision: _,
                set,
            } => {
                if let Some(state) = self.ports.get_mut(port.place()) {
                    state.store(set);
                }
            }
            Command::Rollback { port } => {
                if let Some(state) = self.ports.get_mut(port.place()) {
                    state.roll_back();
                }
            }
        }
    }
}
