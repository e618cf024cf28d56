//! Numbers of devices.
ghost use Rattle.std.specs.Prelude.{◌≡◌, ◌↔◌, IsSome, IfSome};
ghost use Rattle.iol_types.specs.Numbers.{IsDeviceNumber};

use std::marker::Model;

/// The number of DeviceIDs: a DeviceID has three octets.
pub const DEVICE_NUMBERS: u32 = 0x100_0000;

/// A DeviceID, below 2^24 (IO-Link V1.1, Direct Parameter page 1, addresses 0x09 to 0x0B).
#[derive(Clone, Copy, Debug, PartialEq, Eq)]
pub struct DeviceId {
    number: u32,
}

impl Model for DeviceId {
    ghost use Rattle.std.specs.Prelude.{ℕ};
    ghost use Rattle.iol_types.specs.Numbers.{IsDeviceNumber};

    ghost Value = { ℕ };

    ghost view = { λ d. d.number };

    ghost invariant = { λ d. IsDeviceNumber d.number };

    ghost inverse = { λ n. record { number = n } };
}

impl DeviceId {
    /// The DeviceID with this number, or `None` if it is 2^24 or more.
    pub fn new(number: u32) -> Option<DeviceId>
        ensures range { IsSome result ↔ IsDeviceNumber number }
        ensures number { IfSome result (λ device. device ≡ number) }
    {
        if number < DEVICE_NUMBERS {
            Some(DeviceId { number })
        } else {
            None
        }
    }

    /// The number, below 2^24.
    pub fn number(self) -> u32
        ensures number { result ≡ self }
        ensures range { IsDeviceNumber self }
    {
        self.number
    }
}
