//! The commands that change a master's ports.

use crate::config::PortConfig;
use crate::data_set::DataSet;
use crate::port_id::PortId;
use std::alloc::AllocError;
use std::sync::Arc;
use thiserror::Error;

/// A change of a master's state. A contract sees its value, `value_of` in `specs/Command.antt`.
#[derive(Debug, Drop)]
pub enum Command {
    /// Gives a port a configuration, and its next revision.
    Configure {
        port: PortId,
        config: PortConfig,
    },
    /// Deletes the parameter sets of a port.
    Clear {
        port: PortId,
    },
    /// Gives a port at this revision a parameter set; the set that it had becomes its previous one.
    Store {
        port: PortId,
        revision: u64,
        set: Arc<DataSet>,
    },
    /// Exchanges the parameter set of a port and its previous one.
    Rollback {
        port: PortId,
    },
}

impl Command {
    ghost use Rattle.std.specs.Prelude.{◌≡◌, IsSome, IfOk, OnErr};
    ghost use Rattle.iol_types.specs.Command.{value_of, set_in};

    /// An equal command, which shares the set if there is one.
    ///
    /// # Errors
    /// `AllocError` if out of memory; a command without a set needs none.
    pub fn copy(&self) -> Result<Command, AllocError>
        ensures copy { IfOk result (λ command. value_of command ≡ value_of self.now) }
        ensures memory { OnErr result (IsSome (set_in (value_of self.now))) }
    {
        match self {
            Command::Configure { port, config } => Ok(Command::Configure {
                port: *port,
                config: *config,
            }),
            Command::Clear { port } => Ok(Command::Clear { port: *port }),
            Command::Store {
                port,
                revision,
                set,
            } => Ok(Command::Store {
                port: *port,
                revision: *revision,
                set: Arc::try_clone(set)?,
            }),
            Command::Rollback { port } => Ok(Command::Rollback { port: *port }),
        }
    }
}

/// Commands are equal if they are of the same kind and have equal parts; two sets are compared by their
/// contents. Comparing allocates no memory.
impl PartialEq for Command {
    ghost use Rattle.std.specs.Prelude.{◌≡◌, ◌↔◌, IsTrue};
    ghost use Rattle.std.specs.Ordering.{on};
    ghost use Rattle.std.specs.Cmp.{partial_equiv_from_equiv};
    ghost use Rattle.iol_types.specs.Command.{value_of};
    ghost use Rattle.iol_types.specs.Sameness.{same_command, same_command-laws};

    ghost eq = { on value_of same_command };

    ghost laws = { partial_equiv_from_equiv same_command-laws };

    fn eq(&self, other: &Command) -> bool
        ensures test { result ≡ same_command (value_of self.now) (value_of other.now) }
        ensures exactly { IsTrue result ↔ (value_of self.now ≡ value_of other.now) }
    {
        use Command::{Clear, Configure, Rollback, Store};
        match (self, other) {
            (
                Configure { port, config },
                Configure {
                    port: other_port,
                    config: other_config,
                },
            ) => port == other_port && config == other_config,
            (Clear { port }, Clear { port: other_port }) => port == other_port,
            (
                Store {
                    port,
                    revision,
                    set,
                },
                Store {
                    port: other_port,
                    revision: other_revision,
                    set: other_set,
                },
            ) => port == other_port && revision == other_revision && set == other_set,
            (Rollback { port }, Rollback { port: other_port }) => port == other_port,
            _ => false,
        }
    }
}

impl Eq for Command {
    ghost use Rattle.iol_types.specs.Sameness.{same_command-laws};

    ghost laws = { same_command-laws };
}

/// A change that a client may request. A contract sees its value, `command_of` in `specs/Command.antt`.
#[derive(Clone, Copy, Debug, PartialEq, Eq)]
pub enum Change {
    /// Gives a port a configuration, and its next revision.
    Configure { port: PortId, config: PortConfig },
    /// Deletes the parameter sets of a port.
    Clear { port: PortId },
    /// Exchanges the parameter set of a port and its previous one.
    Rollback { port: PortId },
}

impl Change {
    ghost use Rattle.std.specs.Prelude.{◌≡◌};
    ghost use Rattle.iol_types.specs.Command.{value_of, command_of, port_asked};

    /// The port that the change is requested for.
    pub fn port(self) -> PortId
        ensures { result ≡ port_asked self }
    {
        match self {
            Change::Configure { port, .. } | Change::Clear { port } | Change::Rollback { port } =>
                port,
        }
    }

    /// The change as a command.
    pub fn command(self) -> Command
        ensures { value_of result ≡ command_of self }
    {
        match self {
            Change::Configure { port, config } => Command::Configure { port, config },
            Change::Clear { port } => Command::Clear { port },
            Change::Rollback { port } => Command::Rollback { port },
        }
    }
}

/// Why a command is refused. The causes of a command are judged in this order: for Configure
/// `UnknownPort` and `RevisionSpent`; for Clear `UnknownPort`; for Store `UnknownPort`, `NotAllowed`, `StaleRevision` and
/// `WrongDevice`; for Rollback `UnknownPort` and `NoPrevious`.
#[derive(Clone, Copy, Debug, PartialEq, Eq, Error)]
pub enum CommandFault {
    /// The master has no port with this number.
    #[error("no such port")]
    UnknownPort,
    /// The port is at [`LAST_REVISION`](crate::LAST_REVISION).
    #[error("the port has no further revision")]
    RevisionSpent,
    /// The port is not IOL_MANUAL with Backup and Restore.
    #[error("the port stores no parameter set")]
    NotAllowed,
    /// The port is at another revision.
    #[error("the port was configured since")]
    StaleRevision,
    /// The set belongs to another device than the one that the port's configuration names.
    #[error("the parameter set of another device")]
    WrongDevice,
    /// The port has no previous parameter set.
    #[error("the port has no previous parameter set")]
    NoPrevious,
}
