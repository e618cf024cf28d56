//! Downloads: a port gets a permit and its durable set.

ghost use Rattle.std.specs.Prelude.{◌≡◌, ◌≢◌, ℕ, Bool, true, ◌&&◌, Option, Some, None, IfOk, IfErr, OnOk, IsSomeAnd};
ghost use Rattle.iol_types.specs.State.{Stored, port_numbered};
ghost use Rattle.iol_core.specs.Core.{live, names_device};
ghost use Rattle.iol_core.specs.Permits.{without_download};
ghost use Rattle.iol_core.specs.Downloads.{IsBeginDownload, durable_set, download_fault, download_fault_at, is_of_device, set_fault};
ghost use Rattle.iol_core.specs.declared.download.DownloadFault.TheVariants.{Empty, Memory};

use crate::core_value::Core;
use crate::permit::{DownloadPermit, Grant};
use iol_front::Name;
use iol_types::{DataSet, DeviceId, PortConfig, PortId};
use std::alloc::AllocError;
use std::sync::Arc;
use thiserror::Error;

/// Why a port gets no permit to download. The causes are checked in this order.
#[derive(Clone, Copy, Debug, PartialEq, Eq, Error)]
pub enum DownloadFault {
    /// There is no such port, or it is not IOL_MANUAL with Backup and Restore or Restore.
    #[error("the port has no parameter set to restore")]
    NotAllowed,
    /// No set is stored for the port, or a waiting command deletes it.
    #[error("no parameter set is stored for the port")]
    Empty,
    /// The port's configuration or the set names another device.
    #[error("the port is configured for another device")]
    WrongDevice,
    /// The port already has a permit.
    #[error("the port has a permit")]
    Taken,
    /// The device already has the set: the checksums are equal.
    #[error("the device has the parameter set")]
    Same,
    /// Out of memory.
    #[error("out of memory")]
    Memory,
}

/// A permit to download, and the durable set of its port.
#[derive(Debug)]
pub struct DownloadBegun {
    pub permit: DownloadPermit,
    pub set: Arc<DataSet>,
}

impl From<AllocError> for DownloadFault {
    ghost from_gives = { λ _ fault. fault ≡ Memory };

    fn from(_error: AllocError) -> DownloadFault {
        DownloadFault::Memory
    }
}

impl<F: Name> Core<F> {
    /// Grants a permit to download to a device that the port is configured for, and returns it with the port's durable
    /// set, which belongs to that device. `checksum` is the device's. A later configuration does not end a download.
    ///
    /// # Errors
    /// The first cause that applies, in the order of [`DownloadFault`]; nothing changes.
    pub fn begin_download(
        &mut self,
        port: PortId,
        vendor: u16,
        device: DeviceId,
        checksum: u32,
    ) -> Result<DownloadBegun, DownloadFault>
        ensures begun { IsBeginDownload self.old port vendor device checksum self.new result }
        ensures device { IfOk result (λ begun. (begun.set.value.vendor ≡ vendor) × (begun.set.value.device ≡ device)) }
    {
        let set = Arc::try_clone(self.durable_set(port, vendor, device, checksum)?)?;
        self.set_permit(port, Some(Grant::Download));
        Ok(DownloadBegun {
            permit: DownloadPermit::of(port),
            set,
        })
    }

    /// Returns a permit to download. A permit that is not out changes nothing.
    pub fn end_download(&mut self, permit: DownloadPermit)
        ensures { self.new ≡ without_download self.old permit }
    {
        let port = permit.spend();
        if matches!(self.permit(port), Some(Grant::Download)) {
            self.set_permit(port, None);
        }
    }

    // Returns the durable set of a port for a device with these IDs and this checksum, or says why there is no
    // download.
    fn durable_set(
        &self,
        port: PortId,
        vendor: u16,
        device: DeviceId,
        checksum: u32,
    ) -> Result<&Arc<DataSet>, DownloadFault>
        ensures given { OnOk result (download_fault self.now port vendor device checksum ≡ None) }
        ensures set { IfOk result (λ set. IsSomeAnd (durable_set self.now port) (λ stored. set.now.value ≡ stored.set)) }
        ensures device { IfOk result (λ set. (set.now.value.vendor ≡ vendor) × (set.now.value.device ≡ device)) }
        ensures fault { IfErr result (λ fault. download_fault self.now port vendor device checksum ≡ Some fault) }
        ensures memory { IfErr result (λ fault. fault ≢ Memory) }
    {
        let config = self.live_config(port)?;
        let Some(stored) = self.stored(port) else {
            return Err(DownloadFault::Empty);
        };
        let set = &stored.set;
        if !is_for(&config, set, vendor, device) {
            Err(DownloadFault::WrongDevice)
        } else if self.permit(port).is_some() {
            Err(DownloadFault::Taken)
        } else if set.checksum() == checksum {
            Err(DownloadFault::Same)
        } else {
            Ok(set)
        }
    }

    // Returns the live configuration of a port that may keep a set and has one in the live state.
    fn live_config(&self, port: PortId) -> Result<PortConfig, DownloadFault>
        ensures empty { IfOk result (λ _. (vendor device checksum : ℕ) → (taken : Bool)
            → download_fault_at (port_numbered (live self.now) port) None vendor device checksum taken ≡ Some Empty) }
        ensures kept { IfOk result (λ config. (set : Stored) → (vendor device checksum : ℕ) → (taken : Bool)
            → download_fault_at (port_numbered (live self.now) port) (Some set) vendor device checksum taken
            ≡ set_fault config (Some set) (Some set) vendor device checksum taken) }
        ensures fault { IfErr result (λ fault. (durable : Option Stored) → (vendor device checksum : ℕ) → (taken : Bool)
            → download_fault_at (port_numbered (live self.now) port) durable vendor device checksum taken ≡ Some fault) }
        ensures memory { IfErr result (λ fault. fault ≢ Memory) }
    {
        let Some(live) = self.live().port(port) else {
            return Err(DownloadFault::NotAllowed);
        };
        let config = live.config();
        if !config.may_keep_set() {
            return Err(DownloadFault::NotAllowed);
        }
        if live.stored().is_none() {
            return Err(DownloadFault::Empty);
        }
        Ok(config)
    }
}

// Whether a configuration and a set both belong to a device with these IDs.
fn is_for(config: &PortConfig, set: &DataSet, vendor: u16, device: DeviceId) -> bool
    ensures same { result ≡ (names_device config.now vendor device && is_of_device set.now vendor device) }
    ensures set { result ≡ true → (set.now.vendor ≡ vendor) × (set.now.device ≡ device) }
{
    config.vendor == vendor
        && config.device == device
        && set.vendor() == vendor
        && set.device() == device
}
