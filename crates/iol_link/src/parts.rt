//! The parts of an ISDU (IO-Link V1.1, ISDU), in the order of their octets:
//!
//! - I-Service in bits 4 to 7 and Length in bits 0 to 3. Length counts all octets, from 2 to 15.
//! - ExtLength, only if Length is 1: it counts all octets, from 17 to 238.
//! - What the service carries: an address, data, or two codes.
//! - CHKPDU, which makes the XOR of all octets 0.

ghost use Rattle.std.specs.Prelude.{◌≡◌, ◌+◌, ◌++◌, ◌≤◌, ◌<◌, ℕ, length, IfOk, IfErr, Ok, Err, IsTrue};
ghost use Rattle.iol_link.specs.Service.{carries};
ghost use Rattle.iol_link.specs.Isdu.{xor_of, Begins, IsIsduOf};
ghost use Rattle.iol_link.specs.Faults.{is_reserved, has_reserved_ext_length, is_counted};
ghost use Rattle.iol_link.specs.Reading.{service_in, carried_in, enclosed};

use crate::faults::IsduFault;
use crate::service::Service;
use arrayvec::ArrayVec;

/// The most octets that an ISDU can have, which is also the most that ExtLength can count.
pub const ISDU_OCTETS: usize = 238;

// The most octets that can be carried: 3 of address and 232 of data.
const CARRIED_OCTETS: usize = 235;

// The most octets that Length can count.
const LARGEST_LENGTH: usize = 15;

// The fewest octets that ExtLength can count.
const SMALLEST_EXT_LENGTH: u8 = 17;

// The single octet of Device busy: I-Service 0 with Length 1.
pub(crate) const DEVICE_BUSY: u8 = 0x01;

// The XOR of all octets.
fn xor(octets: &[u8]) -> u8
    ensures { result ≡ xor_of octets.now }
{
    octets.iter().fold(0, |all, octet| all ^ *octet)
}

// The service that the octets begin with, or the first fault of their header: `Empty`, `Reserved`,
// or `WrongService` for I-Service 0.
#[tactic(auto, unfolding(crate::specs::Reading::service_in))]
pub(crate) fn service_in(octets: &[u8]) -> Result<Service, IsduFault>
    ensures { result ≡ service_in octets.now }
{
    if octets.is_empty() {
        return Err(IsduFault::Empty);
    }
    if is_reserved(octets) {
        return Err(IsduFault::Reserved);
    }
    Service::of_code(octets[0] / 16).ok_or(IsduFault::WrongService)
}

// Whether the first two octets have a value that the standard reserves.
fn is_reserved(octets: &[u8]) -> bool
    requires { 0 < length octets.now }
    ensures { result ≡ is_reserved octets.now }
{
    let code = octets[0] / 16;
    let length = octets[0] % 16;
    if code == 0 {
        return length > 1;
    }
    Service::of_code(code).is_none()
        || length == 0
        || (length == 1 && has_reserved_ext_length(octets))
}

fn has_reserved_ext_length(octets: &[u8]) -> bool
    ensures { result ≡ has_reserved_ext_length octets.now }
{
    octets.len() > 1 && (octets[1] < SMALLEST_EXT_LENGTH || usize::from(octets[1]) > ISDU_OCTETS)
}

// The octets that an ISDU of this service carries, or the fault found after the header: `Length` or
// `Check`.
#[tactic(auto, unfolding(crate::specs::Reading::carried_in))]
pub(crate) fn carried_in(service: Service, octets: &[u8]) -> Result<&[u8], IsduFault>
    requires { service_in octets.now ≡ Ok service }
    ensures ok { IfOk result (λ carried. carried_in service octets.now ≡ Ok carried.now) }
    ensures carries { IfOk result (λ carried. IsTrue (carries service (length carried.now))) }
    ensures err { IfErr result (λ fault. carried_in service octets.now ≡ Err fault) }
{
    if !is_counted(octets) {
        return Err(IsduFault::Length);
    }
    let carried = enclosed(octets);
    if !service.carries(carried.len()) {
        return Err(IsduFault::Length);
    }
    if xor(octets) != 0 {
        return Err(IsduFault::Check);
    }
    Ok(carried)
}

// The octets between the length and CHKPDU.
fn enclosed(octets: &[u8]) -> &[u8]
    requires { 1 < length octets.now }
    ensures { result.now ≡ enclosed octets.now }
{
    if octets.len() <= LARGEST_LENGTH {
        &octets[1..octets.len() - 1]
    } else {
        &octets[2..octets.len() - 1]
    }
}

// Whether the number of octets is the one that they state.
fn is_counted(octets: &[u8]) -> bool
    requires { 0 < length octets.now }
    ensures { result ≡ is_counted octets.now }
{
    if octets[0] % 16 == 1 {
        octets.len() > 1 && usize::from(octets[1]) == octets.len()
    } else {
        usize::from(octets[0] % 16) == octets.len()
    }
}

// The ISDU of a service that carries an address and values.
pub(crate) fn isdu(service: Service, address: &[u8], values: &[u8]) -> ArrayVec<u8, ISDU_OCTETS>
    requires { length address.now + length values.now ≤ CARRIED_OCTETS }
    ensures { IsIsduOf result.items service (address.now ++ values.now) }
{
    let mut octets = header(service, address.len() + values.len());
    octets.try_extend_from_slice(address).unwrap();
    octets.try_extend_from_slice(values).unwrap();
    octets.push(xor(octets.as_slice()));
    octets
}

// The header of an ISDU that carries this number of octets.
fn header(service: Service, carried: usize) -> ArrayVec<u8, ISDU_OCTETS>
    requires { carried ≤ CARRIED_OCTETS }
    ensures { Begins service (length result.items + carried + 1) result.items }
{
    let mut header = ArrayVec::new();
    if carried + 2 <= LARGEST_LENGTH {
        header.push(16 * service.code() + (carried + 2) as u8);
    } else {
        header.push(16 * service.code() + 1);
        header.push((carried + 3) as u8);
    }
    header
}
