//! The work that the core has given a port, as an event reports it.

ghost use Rattle.std.specs.Prelude.{◌≡◌};

use crate::said::Said;
use iol_core::Work;
use iol_types::{Command, PortId, Validation};
use std::marker::Model;

/// The work that the core has given a port. Only contracts see the whole configuration, so that an event is small. A contract sees the
/// record `Work` of `iol_core`.
#[derive(Drop)]
pub struct ToldWork {
    validation: Validation,
    revision: u64,
    checksum: Option<u32>,
    // the Configure that gave the port its configuration
    configured: Said,
}

impl Model for ToldWork {
    ghost use Rattle.std.specs.Prelude.{◌≡◌};
    ghost use Rattle.iol_core.specs.declared.port.Work.{Work};
    ghost use Rattle.iol_engine.specs.Said.{config_said};

    ghost Value = { Work };

    ghost view = { λ w. record { config = config_said w.configured.command; revision = w.revision; checksum = w.checksum } };

    ghost invariant = { λ w. w.validation ≡ (config_said w.configured.command).validation };
}

impl ToldWork {
    // Makes the report of a port's work.
    pub(crate) fn of(port: PortId, work: &Work) -> ToldWork
        ensures { result ≡ work.now }
    {
        let configure = Command::Configure {
            port,
            config: work.config,
        };
        ToldWork {
            validation: work.config.validation,
            revision: work.revision,
            checksum: work.checksum,
            configured: Said::of(&configure),
        }
    }

    /// The validation that the port is configured with.
    pub fn validation(&self) -> Validation
        ensures { result ≡ self.now.config.validation }
    {
        self.validation
    }

    /// How often the port was configured.
    pub fn revision(&self) -> u64
        ensures { result ≡ self.now.revision }
    {
        self.revision
    }

    /// The checksum of the set that is stored for the port, if one is.
    pub fn checksum(&self) -> Option<u32>
        ensures { result ≡ self.now.checksum }
    {
        self.checksum
    }
}
