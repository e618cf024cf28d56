//! State_Property: the state of the Data Storage of a device, and whether it requests an upload.
ghost use Rattle.std.specs.Prelude.{◌≡◌};
ghost use Rattle.iol_transfer.specs.Property.{property_of};

use std::marker::Model;

/// The state of the Data Storage of a device (IO-Link V1.1, Data Storage object, State_Property, bits 1 and
/// 2).
#[derive(Clone, Copy, Debug, PartialEq, Eq)]
pub enum State {
    /// Inactive, 0.
    Inactive,
    /// Upload, 1.
    Upload,
    /// Download, 2.
    Download,
    /// Data Storage locked, 3.
    Locked,
}

/// The contents of State_Property (IO-Link V1.1, Data Storage object). A contract sees the record
/// `PropertyValue` of `specs/Property.antt`.
#[derive(Clone, Copy)]
pub struct StateProperty {
    state: State,
    flag: bool,
}

impl Model for StateProperty {
    ghost use Rattle.iol_transfer.specs.Property.{PropertyValue};

    ghost Value = { PropertyValue };

    ghost view = { λ p. record { state = p.state; flag = p.flag } };

    ghost inverse = { λ v. record { state = v.state; flag = v.flag } };
}

impl StateProperty {
    /// Reads the octet of State_Property. Every octet can be read; bits 0 and 3 to 6 are ignored.
    pub fn read(octet: u8) -> StateProperty
        ensures { result ≡ property_of octet }
    {
        let state = match octet / 2 % 4 {
            0 => State::Inactive,
            1 => State::Upload,
            2 => State::Download,
            _ => State::Locked,
        };
        StateProperty {
            state,
            flag: octet / 128 == 1,
        }
    }

    /// The state of the Data Storage.
    pub fn state(&self) -> State
        ensures { result ≡ self.now.state }
    {
        self.state
    }

    /// DS_UPLOAD_FLAG: the device requests an upload of its parameters.
    pub fn flag(&self) -> bool
        ensures { result ≡ self.now.flag }
    {
        self.flag
    }
}
