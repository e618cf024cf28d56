//! Octets are read as messages.

ghost use Rattle.std.specs.Prelude.{◌≡◌, ◌≤◌, ℕ, length, Ok, IfOk, IsTrue};
ghost use Rattle.std.specs.Result.{result_err};
ghost use Rattle.iol_link.specs.Isdu.{IsRequest, IsAnswer};
ghost use Rattle.iol_link.specs.Faults.{request_fault, answer_fault};
ghost use Rattle.iol_link.specs.Service.{carries};
ghost use Rattle.iol_link.specs.Reading.{request_of, answer_of, request_with, answer_with};
ghost use Rattle.iol_link.specs.declared.messages.Request.{Request};
ghost use Rattle.iol_link.specs.declared.messages.Answer.{Answer};
ghost use Rattle.iol_link.specs.declared.service.Service.TheVariants as service;

use crate::faults::IsduFault;
use crate::messages::{Answer, DATA_OCTETS, Request};
use crate::parts::{DEVICE_BUSY, carried_in, service_in};
use crate::service::{Access, IndexForm, Service, Sign};
use arrayvec::ArrayVec;

/// Reads the octets of one request, in any index form (IO-Link V1.1, ISDU).
///
/// The faults are checked in the order of `IsduFault`, and the first one is returned.
pub fn read_request(octets: &[u8]) -> Result<Request, IsduFault>
    ensures found { IfOk result (IsRequest octets.now) }
    ensures only { (request : Request) → IsRequest octets.now request → result ≡ Ok request }
    ensures fault { result_err result ≡ request_fault octets.now }
{
    parse_request(octets)
}

/// Reads the octets of one answer (IO-Link V1.1, ISDU).
///
/// The faults are checked in the order of `IsduFault`, and the first one is returned.
pub fn read_answer(octets: &[u8]) -> Result<Answer, IsduFault>
    ensures found { IfOk result (IsAnswer octets.now) }
    ensures only { (answer : Answer) → IsAnswer octets.now answer → result ≡ Ok answer }
    ensures fault { result_err result ≡ answer_fault octets.now }
{
    parse_answer(octets)
}

#[tactic(auto, unfolding(crate::specs::Reading::request_of))]
fn parse_request(octets: &[u8]) -> Result<Request, IsduFault>
    ensures { result ≡ request_of octets.now }
{
    let service = service_in(octets)?;
    let Service::Request(access, form) = service else {
        return Err(IsduFault::WrongService);
    };
    let carried = carried_in(service, octets)?;
    Ok(request_with(access, form, carried))
}

#[tactic(auto, unfolding(crate::specs::Reading::answer_of))]
fn parse_answer(octets: &[u8]) -> Result<Answer, IsduFault>
    ensures { result ≡ answer_of octets.now }
{
    match octets {
        [DEVICE_BUSY] => return Ok(Answer::Busy),
        [DEVICE_BUSY, ..] => return Err(IsduFault::Length),
        _ => {}
    }
    let service = service_in(octets)?;
    let Service::Response(access, sign) = service else {
        return Err(IsduFault::WrongService);
    };
    let carried = carried_in(service, octets)?;
    Ok(answer_with(access, sign, carried))
}

fn request_with(access: Access, form: IndexForm, carried: &[u8]) -> Request
    requires { IsTrue (carries (service.Request access form) (length carried.now)) }
    ensures { result ≡ request_with access form carried.now }
{
    let index = form.index(carried);
    let subindex = form.subindex(carried);
    match access {
        Access::Read => Request::Read { index, subindex },
        Access::Write => Request::Write {
            index,
            subindex,
            octets: data_of(&carried[form.address_count()..]),
        },
    }
}

fn answer_with(access: Access, sign: Sign, carried: &[u8]) -> Answer
    requires { IsTrue (carries (service.Response access sign) (length carried.now)) }
    ensures { result ≡ answer_with access sign carried.now }
{
    match (access, sign) {
        (Access::Read, Sign::Plus) => Answer::ReadOk(data_of(carried)),
        (Access::Write, Sign::Plus) => Answer::WriteOk,
        (Access::Read, Sign::Minus) => Answer::ReadFault {
            error: carried[0],
            additional: carried[1],
        },
        (Access::Write, Sign::Minus) => Answer::WriteFault {
            error: carried[0],
            additional: carried[1],
        },
    }
}

fn data_of(octets: &[u8]) -> ArrayVec<u8, DATA_OCTETS>
    requires { length octets.now ≤ DATA_OCTETS }
    ensures { result.items ≡ octets.now }
{
    let mut data = ArrayVec::new();
    data.try_extend_from_slice(octets).unwrap();
    data
}
