//! Uploads: a port gets a permit before, and gives the set to be stored after.

ghost use Rattle.std.specs.Prelude.{◌≡◌, ℕ, true, false, Some, None, IfOk, IfErr, OnOk};
ghost use Rattle.iol_types.specs.DataSet.{SetValue};
ghost use Rattle.iol_types.specs.State.{check};
ghost use Rattle.iol_core.specs.Core.{FitsAt, live};
ghost use Rattle.iol_core.specs.Permits.{is_out, without_upload};
ghost use Rattle.iol_core.specs.Submit.{queue_fault};
ghost use Rattle.iol_core.specs.Uploads.{IsBeginUpload, IsFinish, MayFinish, upload_fault, revision_at, store_of};
ghost use Rattle.iol_core.specs.declared.permit.Grant.TheVariants.{Upload};

use crate::core_value::Core;
use crate::permit::{Grant, UploadGrant, UploadPermit};
use crate::ticket::{SubmitFault, Ticket};
use iol_front::Name;
use iol_types::{Command, DataSet, DeviceId, PortId};
use std::sync::Arc;
use thiserror::Error;

/// Why a port gets no permit to upload. The causes are checked in this order.
#[derive(Clone, Copy, Debug, PartialEq, Eq, Error)]
pub enum PermitFault {
    /// Nothing more is taken.
    #[error("the master has stopped")]
    Stopped,
    /// There is no such port, or it is not IOL_MANUAL with Backup and Restore.
    #[error("the port stores no parameter set")]
    NotAllowed,
    /// The port's configuration names another device.
    #[error("the port is configured for another device")]
    WrongDevice,
    /// The port already has a permit.
    #[error("the port has a permit")]
    Taken,
}

/// Why an upload is not finished. The causes are checked in this order.
#[derive(Debug)]
pub enum FinishFault {
    /// No more uploads are accepted. The permit is spent.
    Stopped,
    /// The port was configured after the permit was granted, or the permit is not out. The permit is spent.
    ConfigChanged,
    /// 64 commands wait. The permit and the set are returned.
    QueueFull(UploadPermit, Arc<DataSet>),
    /// No number is left. The permit and the set are returned.
    Exhausted(UploadPermit, Arc<DataSet>),
    /// Out of memory. The permit and the set are returned.
    Memory(UploadPermit, Arc<DataSet>),
}

impl<F: Name> Core<F> {
    /// Grants a permit to upload a set from a device that the port is configured for, at the port's live revision and
    /// a connection of its link. It allocates no memory.
    ///
    /// # Errors
    /// The first cause that applies, in the order of [`PermitFault`]; nothing changes.
    pub fn begin_upload(
        &mut self,
        port: PortId,
        vendor: u16,
        device: DeviceId,
        connection: u64,
    ) -> Result<UploadPermit, PermitFault>
        ensures { IsBeginUpload self.old port vendor device connection self.new result }
    {
        let grant = UploadGrant {
            port,
            revision: self.upload_revision(port, vendor, device)?,
            vendor,
            device,
            connection,
        };
        self.set_permit(port, Some(Grant::Upload(grant)));
        Ok(UploadPermit::of(grant))
    }

    /// Returns a permit to upload, with nothing to store. A permit that is not out changes nothing.
    pub fn abandon_upload(&mut self, permit: UploadPermit)
        ensures { self.new ≡ without_upload self.old permit }
    {
        let grant = permit.spend();
        if self.is_out(&grant) {
            self.set_permit(grant.port, None);
        }
    }

    /// Appends a Store of an uploaded set to the waiting commands, and spends the permit. The set is stored under the
    /// configuration that the port had when the permit was granted, or not at all.
    ///
    /// # Errors
    /// The first cause that applies, in the order of [`FinishFault`]: `Stopped` and `ConfigChanged` spend the permit;
    /// `QueueFull`, `Exhausted` and `Memory` return the permit and the set, and nothing changes.
    pub fn finish_upload(
        &mut self,
        permit: UploadPermit,
        set: Arc<DataSet>,
    ) -> Result<Ticket, FinishFault>
        requires { (set.value.vendor ≡ permit.vendor) × (set.value.device ≡ permit.device) }
        ensures finish { IsFinish self.old permit set.value self.new result }
        // A Store that is appended passes in the live state.
        ensures passes { OnOk result (check (live self.old) (store_of permit set.value) ≡ None) }
    {
        if self.is_stopped() {
            self.abandon_upload(permit);
            return Err(FinishFault::Stopped);
        }
        if !self.is_current(&permit.grant()) {
            self.abandon_upload(permit);
            return Err(FinishFault::ConfigChanged);
        }
        match self.queue_fault() {
            None => self.store(permit, set),
            Some(SubmitFault::QueueFull) => Err(FinishFault::QueueFull(permit, set)),
            Some(_) => Err(FinishFault::Exhausted(permit, set)),
        }
    }

    // Returns the live revision of a port that may upload a set from a device with these IDs.
    fn upload_revision(
        &self,
        port: PortId,
        vendor: u16,
        device: DeviceId,
    ) -> Result<u64, PermitFault>
        ensures given { OnOk result (upload_fault self.now port vendor device ≡ None) }
        ensures revision { IfOk result (λ revision. revision ≡ revision_at (live self.now) port) }
        ensures fits { IfOk result (λ revision. (connection : ℕ)
            → FitsAt (live self.now) port
            (Some (Upload (record { port = port; revision = revision; vendor = vendor; device = device; connection = connection })))) }
        ensures fault { IfErr result (λ fault. upload_fault self.now port vendor device ≡ Some fault) }
    {
        if self.is_stopped() {
            return Err(PermitFault::Stopped);
        }
        let Some(state) = self.live().port(port) else {
            return Err(PermitFault::NotAllowed);
        };
        let config = state.config();
        if !config.may_store_set() {
            Err(PermitFault::NotAllowed)
        } else if !(config.vendor == vendor && config.device == device) {
            Err(PermitFault::WrongDevice)
        } else if self.permit(port).is_some() {
            Err(PermitFault::Taken)
        } else {
            Ok(state.revision())
        }
    }

    // Whether this permit is out.
    fn is_out(&self, grant: &UploadGrant) -> bool
        ensures { result ≡ is_out self.now grant.now }
    {
        match self.permit(grant.port) {
            Some(Grant::Upload(out)) => out.is_same(grant),
            _ => false,
        }
    }

    // Whether this permit is out and its port was not configured since it was granted.
    fn is_current(&self, grant: &UploadGrant) -> bool
        ensures current { result ≡ true → (is_out self.now grant.now ≡ true)
            × (revision_at (live self.now) grant.now.port ≡ grant.now.revision) }
        ensures changed { result ≡ false → is_out self.now grant.now ≡ true
            → (revision_at (live self.now) grant.now.port ≡ grant.now.revision) → ⊥ }
        ensures passes { result ≡ true → (set : SetValue) → set.vendor ≡ grant.now.vendor → set.device ≡ grant.now.device
            → check (live self.now) (store_of grant.now set) ≡ None }
    {
        self.is_out(grant)
            && match self.live().port(grant.port) {
                Some(state) => state.revision() == grant.revision,
                None => false,
            }
    }

    // Appends the Store of a set to the queue, which has capacity for it, and spends its permit.
    fn store(&mut self, permit: UploadPermit, set: Arc<DataSet>) -> Result<Ticket, FinishFault>
        requires may { MayFinish self.old permit }
        requires passes { check (live self.old) (store_of permit set.value) ≡ None }
        requires room { queue_fault self.old ≡ None }
        ensures finish { IsFinish self.old permit set.value self.new result }
        ensures passes { OnOk result (check (live self.old) (store_of permit set.value) ≡ None) }
    {
        let same = match Arc::try_clone(&set) {
            Ok(same) => same,
            Err(_) => return Err(FinishFault::Memory(permit, set)),
        };
        let UploadGrant { port, revision, .. } = permit.spend();
        self.set_permit(port, None);
        let command = Command::Store {
            port,
            revision,
            set: same,
        };
        Ok(self.enqueue(
            command,
            Command::Store {
                port,
                revision,
                set,
            },
        ))
    }
}
