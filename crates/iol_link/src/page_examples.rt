//! A page, its MinCycleTime, and devices that a port rejects, worked out by the check, which rejects a number that is
//! wrong in both a definition and the code.

ghost use Rattle.std.specs.Prelude.{◌≡◌, [], ◌∷◌, map, Some, None, true, false};
ghost use Rattle.iol_link.specs.Page.{page_of, min_cycle_tenths};
ghost use Rattle.iol_link.specs.Examples.{example_page, faults_of};

use crate::link::PAGE_OCTETS;
use crate::validation::IdentFault;

/// A page: MinCycleTime 17, ISDU, V1.1, VendorID 01F4, DeviceID 00ABCD.
pub const EXAMPLE_PAGE: [u8; PAGE_OCTETS] = [
    0x00, 0x00, 0x17, 0x01, 0x11, 0x00, 0x00, 0x01, 0xF4, 0x00, 0xAB, 0xCD, 0x00, 0x00, 0x00, 0x00,
];

/// The values on the page: vendor 500, device 43981, V1.1, 23 tenths of a millisecond, ISDU.
pub fn the_page()
    ensures vendor { (page_of EXAMPLE_PAGE).vendor ≡ 500 }
    ensures device { (page_of EXAMPLE_PAGE).device ≡ 43981 }
    ensures revision { (page_of EXAMPLE_PAGE).revision ≡ 17 }
    ensures cycle { min_cycle_tenths (page_of EXAMPLE_PAGE).min_cycle_time ≡ Some 23 }
    ensures isdu { (page_of EXAMPLE_PAGE).has_isdu ≡ true }
{}

/// Each octet of the page is read at its own address, and only bit 0 of M-sequence Capability is used.
pub fn addresses()
    ensures in_order { page_of (0 ∷ 1 ∷ 2 ∷ 3 ∷ 4 ∷ 5 ∷ 6 ∷ 7 ∷ 8 ∷ 9 ∷ 10 ∷ 11 ∷ 12 ∷ 13 ∷ 14 ∷ 15 ∷ [])
        ≡ record { vendor = 0x0708; device = 0x090A0B; revision = 0x04; min_cycle_time = 0x02; has_isdu = true } }
    ensures capability_fe { page_of (0 ∷ 0 ∷ 0 ∷ 0xFE ∷ 0 ∷ 0 ∷ 0 ∷ 0 ∷ 0 ∷ 0 ∷ 0 ∷ 0 ∷ 0 ∷ 0 ∷ 0 ∷ 0 ∷ [])
        ≡ record { vendor = 0; device = 0; revision = 0; min_cycle_time = 0; has_isdu = false } }
{}

/// MinCycleTime in each time base, and in the reserved one.
pub fn min_cycle_times()
    ensures first { map min_cycle_tenths (0x00 ∷ 0x03 ∷ 0x3F ∷ []) ≡ Some 0 ∷ Some 3 ∷ Some 63 ∷ [] }
    ensures second { map min_cycle_tenths (0x40 ∷ 0x44 ∷ 0x7F ∷ []) ≡ Some 64 ∷ Some 80 ∷ Some 316 ∷ [] }
    ensures third { map min_cycle_tenths (0x80 ∷ 0x9E ∷ 0xBF ∷ []) ≡ Some 320 ∷ Some 800 ∷ Some 1328 ∷ [] }
    ensures reserved { map min_cycle_tenths (0xC0 ∷ 0xFF ∷ []) ≡ None ∷ None ∷ [] }
{}

/// The faults of devices under the validations 0 to 4, if vendor 500 and device 43981 are configured: for the page
/// above, and for pages with one fault.
pub fn one_fault()
    ensures wanted { faults_of (page_of EXAMPLE_PAGE) ≡ None ∷ None ∷ None ∷ None ∷ None ∷ [] }
    ensures vendor { faults_of (record (example_page 0x11 true) { vendor = 501 })
        ≡ None ∷ Some IdentFault.Vendor ∷ Some IdentFault.Vendor ∷ Some IdentFault.Vendor ∷ Some IdentFault.Vendor ∷ [] }
    ensures lower_vendor { faults_of (record (example_page 0x11 true) { vendor = 499 })
        ≡ None ∷ Some IdentFault.Vendor ∷ Some IdentFault.Vendor ∷ Some IdentFault.Vendor ∷ Some IdentFault.Vendor ∷ [] }
    ensures device { faults_of (record (example_page 0x11 true) { device = 43982 })
        ≡ None ∷ Some IdentFault.Device ∷ Some IdentFault.Device ∷ Some IdentFault.Device ∷ Some IdentFault.Device ∷ [] }
    ensures lower_device { faults_of (record (example_page 0x11 true) { device = 43980 })
        ≡ None ∷ Some IdentFault.Device ∷ Some IdentFault.Device ∷ Some IdentFault.Device ∷ Some IdentFault.Device ∷ [] }
    ensures revision { faults_of (example_page 0x10 true)
        ≡ None ∷ None ∷ Some IdentFault.Revision ∷ Some IdentFault.Revision ∷ Some IdentFault.Revision ∷ [] }
    ensures isdu { faults_of (example_page 0x11 false)
        ≡ None ∷ None ∷ None ∷ Some IdentFault.NoIsdu ∷ Some IdentFault.NoIsdu ∷ [] }
    ensures later_revision { faults_of (example_page 0x12 true) ≡ None ∷ None ∷ None ∷ None ∷ None ∷ [] }
{}

/// If there are several faults, the first is named, in this order: the vendor, the device, the revision, ISDU.
pub fn several_faults()
    ensures all { faults_of (record { vendor = 501; device = 43982; revision = 0x10; min_cycle_time = 0; has_isdu = false })
        ≡ None ∷ Some IdentFault.Vendor ∷ Some IdentFault.Vendor ∷ Some IdentFault.Vendor ∷ Some IdentFault.Vendor ∷ [] }
    ensures from_the_device { faults_of (record { vendor = 500; device = 43982; revision = 0x10; min_cycle_time = 0; has_isdu = false })
        ≡ None ∷ Some IdentFault.Device ∷ Some IdentFault.Device ∷ Some IdentFault.Device ∷ Some IdentFault.Device ∷ [] }
    ensures vendor_and_isdu { faults_of (record (example_page 0x11 false) { vendor = 501 })
        ≡ None ∷ Some IdentFault.Vendor ∷ Some IdentFault.Vendor ∷ Some IdentFault.Vendor ∷ Some IdentFault.Vendor ∷ [] }
    ensures from_the_revision { faults_of (example_page 0x10 false)
        ≡ None ∷ None ∷ Some IdentFault.Revision ∷ Some IdentFault.Revision ∷ Some IdentFault.Revision ∷ [] }
{}
