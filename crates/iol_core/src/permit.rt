//! Permits of ports. Each permit is out until it is spent.

ghost use Rattle.std.specs.Prelude.{◌≡◌};
ghost use Rattle.iol_core.specs.Permits.{same_grant};

use iol_types::{DeviceId, PortId};
use std::marker::Model;

/// What a permit to upload is for: a port at a revision, and a device at a connection of the port's link.
#[derive(Clone, Copy, Debug, PartialEq, Eq)]
pub struct UploadGrant {
    pub port: PortId,
    pub revision: u64,
    pub vendor: u16,
    pub device: DeviceId,
    pub connection: u64,
}

impl UploadGrant {
    // Whether another grant is equal.
    pub(crate) fn is_same(&self, other: &UploadGrant) -> bool
        ensures { result ≡ same_grant self.now other.now }
    {
        self.port == other.port
            && self.revision == other.revision
            && self.vendor == other.vendor
            && self.device == other.device
            && self.connection == other.connection
    }
}

/// What a port's permit that is out is for.
#[derive(Clone, Copy, Debug, PartialEq, Eq)]
pub enum Grant {
    Upload(UploadGrant),
    Download,
}

/// The permit to upload a set from a device. It cannot be copied, and must be spent by `Core::finish_upload` or
/// `Core::abandon_upload`. Contracts see it as its grant.
#[derive(Debug)]
pub struct UploadPermit {
    grant: UploadGrant,
}

impl Model for UploadPermit {
    ghost use Rattle.iol_core.specs.declared.permit.UploadGrant.{UploadGrant};

    ghost Value = { UploadGrant };

    ghost view = { λ p. p.grant };
}

impl UploadPermit {
    // Creates the permit for this grant.
    pub(crate) fn of(grant: UploadGrant) -> UploadPermit
        ensures { result ≡ grant }
    {
        UploadPermit { grant }
    }

    /// What the permit is for.
    pub fn grant(&self) -> UploadGrant
        ensures { result ≡ self.now }
    {
        self.grant
    }

    // Spends the permit.
    pub(crate) fn spend(self) -> UploadGrant
        ensures { result ≡ self }
    {
        let UploadPermit { grant } = self;
        grant
    }
}

/// The permit to download a set to the device of a port. It cannot be copied, and must be spent by
/// `Core::end_download`. Contracts see it as the port's number.
#[derive(Debug)]
pub struct DownloadPermit {
    port: PortId,
}

impl Model for DownloadPermit {
    ghost use Rattle.std.specs.Prelude.{ℕ};

    ghost Value = { ℕ };

    ghost view = { λ p. p.port };
}

impl DownloadPermit {
    // Creates the permit of this port.
    pub(crate) fn of(port: PortId) -> DownloadPermit
        ensures { result ≡ port }
    {
        DownloadPermit { port }
    }

    // Spends the permit.
    pub(crate) fn spend(self) -> PortId
        ensures { result ≡ self }
    {
        let DownloadPermit { port } = self;
        port
    }
}
