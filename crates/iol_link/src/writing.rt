//! Messages are written as octets.

ghost use Rattle.std.specs.Prelude.{◌≡◌, ◌≤◌, ◌∷◌, [], ◌++◌, length};
ghost use Rattle.iol_link.specs.Isdu.{IsShortestRequest, IsAnswer, IsIsduOf};
ghost use Rattle.iol_link.specs.Service.{address, shortest_form};
ghost use Rattle.iol_link.specs.declared.service.Service.TheVariants as service;

use crate::messages::{Answer, DATA_OCTETS, Request};
use crate::parts::{DEVICE_BUSY, ISDU_OCTETS, isdu};
use crate::service::{Access, IndexForm, Service, Sign};
use arrayvec::ArrayVec;

/// The octets of a request, in the shortest index form (IO-Link V1.1, ISDU): 3 to 238 octets.
pub fn write_request(request: &Request) -> ArrayVec<u8, ISDU_OCTETS>
    ensures { IsShortestRequest result.items request.now }
{
    match request {
        Request::Read { index, subindex } => shortest_request(Access::Read, *index, *subindex, &[]),
        Request::Write {
            index,
            subindex,
            octets,
        } => shortest_request(Access::Write, *index, *subindex, octets.as_slice()),
    }
}

/// The octets of an answer (IO-Link V1.1, ISDU): 1 to 235 octets.
pub fn write_answer(answer: &Answer) -> ArrayVec<u8, ISDU_OCTETS>
    ensures { IsAnswer result.items answer.now }
{
    match answer {
        Answer::ReadOk(octets) => {
            isdu(
                Service::Response(Access::Read, Sign::Plus),
                &[],
                octets.as_slice(),
            )
        }
        Answer::ReadFault { error, additional } => isdu(
            Service::Response(Access::Read, Sign::Minus),
            &[],
            &[*error, *additional],
        ),
        Answer::WriteOk => isdu(Service::Response(Access::Write, Sign::Plus), &[], &[]),
        Answer::WriteFault { error, additional } => isdu(
            Service::Response(Access::Write, Sign::Minus),
            &[],
            &[*error, *additional],
        ),
        Answer::Busy => device_busy(),
    }
}

// The single octet of Device busy.
fn device_busy() -> ArrayVec<u8, ISDU_OCTETS>
    ensures { result.items ≡ DEVICE_BUSY ∷ [] }
{
    let mut octets = ArrayVec::new();
    octets.push(DEVICE_BUSY);
    octets
}

// The shortest form that fits this index and subindex.
fn shortest_form(index: u16, subindex: u8) -> IndexForm
    ensures { result ≡ shortest_form index subindex }
{
    if index > 255 {
        IndexForm::Index16Subindex
    } else if subindex != 0 {
        IndexForm::Index8Subindex
    } else {
        IndexForm::Index8
    }
}

// The request in its shortest form.
fn shortest_request(
    access: Access,
    index: u16,
    subindex: u8,
    values: &[u8],
) -> ArrayVec<u8, ISDU_OCTETS>
    requires { length values.now ≤ DATA_OCTETS }
    ensures { let form = shortest_form index subindex in
        let carried = address form index subindex ++ values.now in
        IsIsduOf result.items (service.Request access form) carried }
{
    let form = shortest_form(index, subindex);
    let service = Service::Request(access, form);
    let [high, low] = index.to_be_bytes();
    match form {
        IndexForm::Index8 => isdu(service, &[low], values),
        IndexForm::Index8Subindex => isdu(service, &[low, subindex], values),
        IndexForm::Index16Subindex => isdu(service, &[high, low, subindex], values),
    }
}
