//! The services of ISDUs and the index forms of requests (IO-Link V1.1, ISDU: I-Service).

ghost use Rattle.std.specs.Prelude.{◌≡◌, ◌≤◌, ◌<◌, ℕ, length};
ghost use Rattle.iol_link.specs.Service.{code_of, service_at, carries, address_count};
ghost use Rattle.iol_link.specs.Reading.{index_in, subindex_in};

use crate::messages::DATA_OCTETS;

// The kind of access to an object that a request makes.
#[derive(Clone, Copy)]
pub(crate) enum Access {
    Read,
    Write,
}

// The forms in which a request gives an Index and a Subindex. A form without a Subindex means
// Subindex 0.
#[derive(Clone, Copy)]
pub(crate) enum IndexForm {
    Index8,
    Index8Subindex,
    Index16Subindex,
}

// The sign of a response: the request was carried out (+) or refused (-).
#[derive(Clone, Copy)]
pub(crate) enum Sign {
    Plus,
    Minus,
}

// The services whose ISDU ends in CHKPDU.
#[derive(Clone, Copy)]
pub(crate) enum Service {
    Request(Access, IndexForm),
    Response(Access, Sign),
}

impl Service {
    // The service with this I-Service, 0 to 15, or `None` if the I-Service is reserved or No
    // Service.
    #[tactic(auto, unfolding(crate::specs::Service::service_at))]
    pub(crate) fn of_code(code: u8) -> Option<Service>
        ensures { result ≡ service_at code }
    {
        match code {
            1 => Some(Service::Request(Access::Write, IndexForm::Index8)),
            2 => Some(Service::Request(Access::Write, IndexForm::Index8Subindex)),
            3 => Some(Service::Request(Access::Write, IndexForm::Index16Subindex)),
            4 => Some(Service::Response(Access::Write, Sign::Minus)),
            5 => Some(Service::Response(Access::Write, Sign::Plus)),
            9 => Some(Service::Request(Access::Read, IndexForm::Index8)),
            10 => Some(Service::Request(Access::Read, IndexForm::Index8Subindex)),
            11 => Some(Service::Request(Access::Read, IndexForm::Index16Subindex)),
            12 => Some(Service::Response(Access::Read, Sign::Minus)),
            13 => Some(Service::Response(Access::Read, Sign::Plus)),
            _ => None,
        }
    }

    // The I-Service of a service.
    pub(crate) fn code(self) -> u8
        ensures code { result ≡ code_of self }
        ensures within { result < 16 }
    {
        match self {
            Service::Request(Access::Write, IndexForm::Index8) => 1,
            Service::Request(Access::Write, IndexForm::Index8Subindex) => 2,
            Service::Request(Access::Write, IndexForm::Index16Subindex) => 3,
            Service::Response(Access::Write, Sign::Minus) => 4,
            Service::Response(Access::Write, Sign::Plus) => 5,
            Service::Request(Access::Read, IndexForm::Index8) => 9,
            Service::Request(Access::Read, IndexForm::Index8Subindex) => 10,
            Service::Request(Access::Read, IndexForm::Index16Subindex) => 11,
            Service::Response(Access::Read, Sign::Minus) => 12,
            Service::Response(Access::Read, Sign::Plus) => 13,
        }
    }

    // Whether an ISDU of this service may carry this number of octets between its length and
    // CHKPDU.
    pub(crate) fn carries(self, count: usize) -> bool
        ensures { result ≡ carries self count }
    {
        match self {
            Service::Request(Access::Read, form) => count == form.address_count(),
            Service::Request(Access::Write, form) => {
                count >= form.address_count() && count <= form.address_count() + DATA_OCTETS
            }
            Service::Response(Access::Read, Sign::Plus) => count <= DATA_OCTETS,
            Service::Response(Access::Write, Sign::Plus) => count == 0,
            Service::Response(_, Sign::Minus) => count == 2,
        }
    }
}

impl IndexForm {
    // The number of octets of an address in this form.
    pub(crate) fn address_count(self) -> usize
        ensures address { result ≡ address_count self }
        ensures within { result ≤ 3 }
    {
        match self {
            IndexForm::Index8 => 1,
            IndexForm::Index8Subindex => 2,
            IndexForm::Index16Subindex => 3,
        }
    }

    // The Index of an address in this form.
    pub(crate) fn index(self, address: &[u8]) -> u16
        requires { address_count self ≤ length address.now }
        ensures { result ≡ index_in self address.now }
    {
        match self {
            IndexForm::Index8 | IndexForm::Index8Subindex => u16::from(address[0]),
            IndexForm::Index16Subindex => u16::from_be_bytes([address[0], address[1]]),
        }
    }

    // The Subindex of an address in this form.
    pub(crate) fn subindex(self, address: &[u8]) -> u8
        requires { address_count self ≤ length address.now }
        ensures { result ≡ subindex_in self address.now }
    {
        match self {
            IndexForm::Index8 => 0,
            IndexForm::Index8Subindex => address[1],
            IndexForm::Index16Subindex => address[2],
        }
    }
}
