//! A simulated device with Data Storage.

ghost use Rattle.std.specs.Prelude.{◌≡◌, ◌++◌, ◌∷◌, [], ◌⊎◌, Some, None, Ok, Err, true, false, length, OnOk, OnErr, IfOk, IfErr};
ghost use Rattle.std.specs.Option.{option_copied};
ghost use Rattle.iol_types.specs.DataSet.{data_at};
ghost use Rattle.iol_transfer.specs.declared.property.State.TheVariants as state;
ghost use Rattle.iol_sim.specs.Parameters.{add_fault, AreParameters};

use crate::answers::{command_in, data_of, no_service, read_answer, write_response};
use crate::parameters::{DeviceFault, Parameters};
use crate::refusal::Refusal;
use arrayvec::ArrayVec;
use iol_link::{
    Answer, DATA_OCTETS, ISDU_OCTETS, PAGE_OCTETS, Request, read_request, write_answer,
};
use iol_transfer::{
    DATA_STORAGE_SIZE, DS_COMMAND, DsCommand, INDEX_LIST, PARAMETER_CHECKSUM, STATE_PROPERTY, State,
};
use iol_types::{DATA_STORAGE, DeviceId, Key};
use std::alloc::Global;
use std::marker::Model;

/// The EventCode by which a device requests an upload, DS_UPLOAD_REQ (IO-Link V1.1, EventCodes).
pub const DS_UPLOAD_REQUEST: u16 = 0xFF91;

/// A simulated device with Data Storage: at most 70 parameters, each under a key that is not
/// reserved and with at most 232 octets. A contract sees the record `Device` of `specs/Device.antt`.
#[derive(Drop)]
pub struct SimDevice {
    vendor: u16,
    device: DeviceId,
    revision: u8,
    isdu: bool,
    parameters: Parameters,
    state: State,
    flag: bool,
    event: bool,
}

impl Model for SimDevice {
    ghost use Rattle.iol_sim.specs.Device.{Device};

    ghost Value = { Device };

    ghost view = { λ d. record {
      vendor = d.vendor;
      device = d.device;
      revision = d.revision;
      isdu = d.isdu;
      parameters = d.parameters;
      state = d.state;
      flag = d.flag;
      event = d.event;
    } };
}

impl SimDevice {
    ghost use Rattle.iol_sim.specs.Device.{Answers, respond, page_of, property_octet, object_read, read_of, after_command, commanded};
    ghost use Rattle.iol_sim.specs.Device.{object_written, value_written, write_of, change_of, raised, told, after_told, lost_device};

    /// Creates a device with these numbers and no parameters: inactive, with no flag and no event.
    pub fn new(alloc: Global, vendor: u16, device: DeviceId, revision: u8, isdu: bool) -> SimDevice
        ensures { result ≡ record {
          vendor = vendor;
          device = device;
          revision = revision;
          isdu = isdu;
          parameters = [];
          state = state.Inactive;
          flag = false;
          event = false;
        } }
    {
        SimDevice {
            vendor,
            device,
            revision,
            isdu,
            parameters: Parameters::new(alloc),
            state: State::Inactive,
            flag: false,
            event: false,
        }
    }

    /// Returns the device with DS_UPLOAD_FLAG set.
    pub fn with_flag(self) -> SimDevice
        ensures { result ≡ record self { flag = true } }
    {
        let mut device = self;
        device.flag = true;
        device
    }

    /// Returns the device with its Data Storage locked.
    pub fn locked(self) -> SimDevice
        ensures { result ≡ record self { state = state.Locked } }
    {
        let mut device = self;
        device.state = State::Locked;
        device
    }

    /// Adds a parameter after the others.
    ///
    /// # Errors
    /// The first cause, in the order of [`DeviceFault`]; the device is then unchanged. `Memory` occurs
    /// only if no other cause applies.
    pub fn add(&mut self, key: Key, octets: &[u8]) -> Result<(), DeviceFault>
        ensures added { OnOk result ((add_fault self.old.parameters key octets.now ≡ None)
            × (self.new ≡ record self.old { parameters = self.old.parameters ++ (key, octets.now) ∷ [] })) }
        ensures kept { OnErr result (self.new ≡ self.old) }
        ensures cause { IfErr result (λ fault. (add_fault self.old.parameters key octets.now ≡ Some fault)
            ⊎ ((add_fault self.old.parameters key octets.now ≡ None) × (fault ≡ DeviceFault.Memory))) }
    {
        self.parameters.add(key, octets)
    }

    /// The octets of Direct Parameter page 1.
    pub fn page(&self) -> [u8; PAGE_OCTETS]
        ensures { result ≡ page_of self.now }
    {
        let isdu = if self.isdu { 0x01 } else { 0x00 };
        let [high, low] = self.vendor.to_be_bytes();
        let [_, first, second, third] = self.device.number().to_be_bytes();
        [
            0x00,
            0x00,
            0x17,
            isdu,
            self.revision,
            0x00,
            0x00,
            high,
            low,
            first,
            second,
            third,
            0x00,
            0x00,
            0x00,
            0x00,
        ]
    }

    /// The number of parameters, at most 70.
    pub fn count(&self) -> usize
        ensures count { result ≡ length self.now.parameters }
        ensures parameters { AreParameters self.now.parameters }
    {
        self.parameters.len()
    }

    /// The state of its Data Storage.
    pub fn state(&self) -> State
        ensures { result ≡ self.now.state }
    {
        self.state
    }

    /// DS_UPLOAD_FLAG.
    pub fn flag(&self) -> bool
        ensures { result ≡ self.now.flag }
    {
        self.flag
    }

    /// The octets of a parameter, or `None` if the device does not have it.
    pub fn parameter(&self, key: Key) -> Option<&[u8]>
        ensures { option_copied result ≡ data_at self.now.parameters key }
    {
        self.parameters.get(key)
    }

    // The octet of State_Property.
    fn property(&self) -> u8
        ensures { result ≡ property_octet self.now }
    {
        let state = match self.state {
            State::Inactive => 0,
            State::Upload => 2,
            State::Download => 4,
            State::Locked => 6,
        };
        if self.flag { state + 128 } else { state }
    }

    // Reads the object or the parameter with this key.
    fn read(&self, key: Key) -> Result<ArrayVec<u8, DATA_OCTETS>, Refusal>
        ensures octets { IfOk result (λ octets. read_of self.now key ≡ Ok octets.items) }
        ensures refusal { IfErr result (λ refusal. read_of self.now key ≡ Err refusal) }
    {
        if key.index == DATA_STORAGE {
            return self.read_object(key.subindex);
        }
        match self.parameters.get(key) {
            Some(octets) => Ok(data_of(octets)),
            None => Err(Refusal::NoIndex),
        }
    }

    // Reads the Data Storage object at this subindex.
    fn read_object(&self, subindex: u8) -> Result<ArrayVec<u8, DATA_OCTETS>, Refusal>
        ensures octets { IfOk result (λ octets. object_read self.now subindex ≡ Ok octets.items) }
        ensures refusal { IfErr result (λ refusal. object_read self.now subindex ≡ Err refusal) }
    {
        match subindex {
            DS_COMMAND => Err(Refusal::AccessDenied),
            STATE_PROPERTY => Ok(data_of(&[self.property()])),
            DATA_STORAGE_SIZE => Ok(data_of(&self.parameters.size().to_be_bytes())),
            PARAMETER_CHECKSUM => Ok(data_of(&self.parameters.checksum().to_be_bytes())),
            INDEX_LIST => Ok(self.parameters.index_list()),
            _ => Err(Refusal::NoSubindex),
        }
    }

    // Writes the object or the parameter with this key.
    fn write(&mut self, key: Key, octets: &[u8]) -> Result<(), Refusal>
        ensures written { OnOk result (write_of self.old key octets.now ≡ Ok self.new) }
        ensures refusal { IfErr result (λ refusal. write_of self.old key octets.now ≡ Err refusal) }
        ensures kept { OnErr result (self.new ≡ self.old) }
    {
        if key.index == DATA_STORAGE {
            self.write_object(key.subindex, octets)
        } else {
            self.write_parameter(key, octets)
        }
    }

    // Writes the Data Storage object at this subindex.
    fn write_object(&mut self, subindex: u8, octets: &[u8]) -> Result<(), Refusal>
        ensures written { OnOk result (object_written self.old subindex octets.now ≡ Ok self.new) }
        ensures refusal { IfErr result (λ refusal. object_written self.old subindex octets.now ≡ Err refusal) }
        ensures kept { OnErr result (self.new ≡ self.old) }
    {
        match subindex {
            DS_COMMAND => self.command(octets),
            STATE_PROPERTY..=INDEX_LIST => Err(Refusal::AccessDenied),
            _ => Err(Refusal::NoSubindex),
        }
    }

    // Carries out the DS_Command in these octets.
    fn command(&mut self, octets: &[u8]) -> Result<(), Refusal>
        ensures written { OnOk result (commanded self.old octets.now ≡ Ok self.new) }
        ensures refusal { IfErr result (λ refusal. commanded self.old octets.now ≡ Err refusal) }
        ensures kept { OnErr result (self.new ≡ self.old) }
    {
        if self.state == State::Locked {
            return Err(Refusal::AccessDenied);
        }
        match command_in(octets) {
            Some(command) => {
                self.follow(command);
                Ok(())
            }
            None => Err(Refusal::OutOfRange),
        }
    }

    fn follow(&mut self, command: DsCommand)
        ensures { self.new ≡ after_command self.old command }
    {
        match command {
            DsCommand::UploadStart => self.state = State::Upload,
            DsCommand::DownloadStart => self.state = State::Download,
            DsCommand::UploadEnd | DsCommand::DownloadEnd => {
                self.state = State::Inactive;
                self.flag = false;
            }
            DsCommand::Break => self.state = State::Inactive,
        }
    }

    // Writes a parameter.
    fn write_parameter(&mut self, key: Key, octets: &[u8]) -> Result<(), Refusal>
        ensures written { OnOk result (value_written self.old key octets.now ≡ Ok self.new) }
        ensures refusal { IfErr result (λ refusal. value_written self.old key octets.now ≡ Err refusal) }
        ensures kept { OnErr result (self.new ≡ self.old) }
    {
        let Some(present) = self.parameters.get(key) else {
            return Err(Refusal::NoIndex);
        };
        let count = present.len();
        if octets.len() > count {
            return Err(Refusal::TooLong);
        }
        if octets.len() < count {
            return Err(Refusal::TooShort);
        }
        self.parameters.write(key, octets);
        Ok(())
    }

    /// Answers a request.
    pub fn respond(&mut self, request: &Request) -> Answer
        ensures answer { result ≡ (respond self.old request.now).0 }
        ensures device { self.new ≡ (respond self.old request.now).1 }
    {
        match request {
            Request::Read { index, subindex } => read_answer(self.read(Key {
                index: *index,
                subindex: *subindex,
            })),
            Request::Write {
                index,
                subindex,
                octets,
            } => {
                let key = Key {
                    index: *index,
                    subindex: *subindex,
                };
                write_response(self.write(key, octets.as_slice()))
            }
        }
    }

    /// Answers octets: the octets of the answer to a request, or the octet 00 if the octets are not a
    /// request.
    pub fn answer(&mut self, request: &[u8]) -> ArrayVec<u8, ISDU_OCTETS>
        ensures { Answers self.old request.now result.items self.new }
    {
        match read_request(request) {
            Ok(request) => write_answer(&self.respond(&request)),
            Err(_) => no_service(),
        }
    }

    /// Gives a parameter another value of the same length at the device itself. The device then
    /// requests an upload: its flag is set, and its event is pending.
    ///
    /// # Errors
    /// `NoIndex`, `TooLong` or `TooShort`; the device is then unchanged.
    pub fn change(&mut self, key: Key, octets: &[u8]) -> Result<(), Refusal>
        ensures changed { OnOk result (change_of self.old key octets.now ≡ Ok self.new) }
        ensures refusal { IfErr result (λ refusal. change_of self.old key octets.now ≡ Err refusal) }
        ensures kept { OnErr result (self.new ≡ self.old) }
    {
        self.write_parameter(key, octets)?;
        self.raise();
        Ok(())
    }

    /// Makes the device request an upload: its flag is set, and its event is pending.
    pub fn raise(&mut self)
        ensures { self.new ≡ raised self.old }
    {
        self.flag = true;
        self.event = true;
    }

    /// Takes the pending event and returns its EventCode, or `None` if no event is pending.
    pub fn take_event(&mut self) -> Option<u16>
        ensures event { result ≡ told self.old }
        ensures told { self.new ≡ after_told self.old }
    {
        let pending = self.event;
        self.event = false;
        if pending {
            Some(DS_UPLOAD_REQUEST)
        } else {
            None
        }
    }

    /// Marks the device as lost: its Data Storage is inactive unless it is locked, and a pending event
    /// is dropped. Its parameters and its flag stay.
    pub fn lose(&mut self)
        ensures { self.new ≡ lost_device self.old }
    {
        if self.state != State::Locked {
            self.state = State::Inactive;
        }
        self.event = false;
    }
}
