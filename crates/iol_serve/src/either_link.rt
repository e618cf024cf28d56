//! A link of one of two kinds, since ports of one master may have drivers or simulated devices.

use arrayvec::ArrayVec;
use iol_link::{DeviceLink, ISDU_OCTETS, Lost, PAGE_OCTETS};

/// A link of one of two kinds.
#[derive(Drop)]
pub enum EitherLink<A: DeviceLink, B: DeviceLink> {
    First(A),
    Second(B),
}

impl<A: DeviceLink, B: DeviceLink> DeviceLink for EitherLink<A, B> {
    ghost use Rattle.iol_serve.specs.EitherLink.{number_of, steps_of};

    ghost number = { number_of A.number B.number };

    ghost device = { number_of A.device B.device };

    ghost steps = { steps_of A.steps B.steps };

    fn connection(&self) -> u64 {
        match self {
            EitherLink::First(link) => link.connection(),
            EitherLink::Second(link) => link.connection(),
        }
    }

    fn take_event(&mut self) -> Option<u16> {
        match self {
            EitherLink::First(link) => link.take_event(),
            EitherLink::Second(link) => link.take_event(),
        }
    }

    fn read_page(&mut self) -> Result<[u8; PAGE_OCTETS], Lost> {
        match self {
            EitherLink::First(link) => link.read_page(),
            EitherLink::Second(link) => link.read_page(),
        }
    }

    fn exchange(&mut self, request: &[u8]) -> Result<ArrayVec<u8, ISDU_OCTETS>, Lost> {
        match self {
            EitherLink::First(link) => link.exchange(request),
            EitherLink::Second(link) => link.exchange(request),
        }
    }
}
