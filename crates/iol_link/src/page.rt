//! Direct Parameter page 1.
ghost use Rattle.std.specs.Prelude.{◌≡◌};
ghost use Rattle.iol_link.specs.Page.{page_of, number_of, min_cycle_tenths};

use crate::link::PAGE_OCTETS;
use iol_types::DeviceId;
use std::marker::Model;

// The addresses of the octets that are read from the page (IO-Link V1.1, Direct Parameter page 1). A number of
// several octets begins with the most significant.
const MIN_CYCLE_TIME: usize = 0x02;

const M_SEQUENCE_CAPABILITY: usize = 0x03;

const REVISION_ID: usize = 0x04;

const VENDOR_ID: usize = 0x07;

const DEVICE_ID: usize = 0x09;

/// The contents of Direct Parameter page 1 of a device (IO-Link V1.1, Direct Parameter page 1). A contract sees the
/// record `PageValue` of `specs/Page.antt`.
#[derive(Clone, Copy, PartialEq, Eq)]
pub struct Page {
    vendor: u16,
    device: DeviceId,
    revision: u8,
    min_cycle_time: u8,
    has_isdu: bool,
}

impl Model for Page {
    ghost use Rattle.iol_link.specs.Page.{PageValue};

    ghost Value = { PageValue };

    ghost view = { λ p. record {
      vendor = p.vendor;
      device = p.device;
      revision = p.revision;
      min_cycle_time = p.min_cycle_time;
      has_isdu = p.has_isdu;
    } };

    ghost inverse = { λ v. record {
      vendor = v.vendor;
      device = v.device;
      revision = v.revision;
      min_cycle_time = v.min_cycle_time;
      has_isdu = v.has_isdu;
    } };
}

impl Page {
    /// Reads the octets of the page. Every page can be read.
    pub fn read(octets: &[u8; PAGE_OCTETS]) -> Page
        ensures { result ≡ page_of octets.now }
    {
        Page {
            vendor: u16::from_be_bytes([octets[VENDOR_ID], octets[VENDOR_ID + 1]]),
            device: device_of([
                octets[DEVICE_ID],
                octets[DEVICE_ID + 1],
                octets[DEVICE_ID + 2],
            ]),
            revision: octets[REVISION_ID],
            min_cycle_time: octets[MIN_CYCLE_TIME],
            has_isdu: octets[M_SEQUENCE_CAPABILITY] % 2 == 1,
        }
    }

    /// The VendorID.
    pub fn vendor(&self) -> u16
        ensures { result ≡ self.now.vendor }
    {
        self.vendor
    }

    /// The DeviceID.
    pub fn device(&self) -> DeviceId
        ensures { result ≡ self.now.device }
    {
        self.device
    }

    /// The RevisionID: major in bits 4 to 7, minor in bits 0 to 3; 0x10 is V1.0, 0x11 is V1.1.
    pub fn revision(&self) -> u8
        ensures { result ≡ self.now.revision }
    {
        self.revision
    }

    /// MinCycleTime in tenths of a millisecond, or `None` if its time base is reserved.
    pub fn min_cycle_tenths(&self) -> Option<u32>
        ensures { result ≡ min_cycle_tenths self.now.min_cycle_time }
    {
        let multiplier = u32::from(self.min_cycle_time % 64);
        match self.min_cycle_time / 64 {
            0 => Some(multiplier),
            1 => Some(64 + 4 * multiplier),
            2 => Some(320 + 16 * multiplier),
            _ => None,
        }
    }

    /// Whether the device supports ISDUs.
    pub fn has_isdu(&self) -> bool
        ensures { result ≡ self.now.has_isdu }
    {
        self.has_isdu
    }
}

// The DeviceID with these octets.
fn device_of(octets: [u8; 3]) -> DeviceId
    ensures { result ≡ number_of octets }
{
    DeviceId::new(u32::from_be_bytes([0, octets[0], octets[1], octets[2]])).unwrap()
}
