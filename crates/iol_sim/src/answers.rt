//! The commands that a simulated device reads in written octets, and its answers.

ghost use Rattle.std.specs.Prelude.{◌≡◌, ◌≤◌, Ok, Err, length, OnOk, IfOk, IfErr};
ghost use Rattle.iol_link.specs.declared.messages.TheConstants.{DATA_OCTETS};
ghost use Rattle.iol_link.specs.declared.messages.Answer.TheVariants as answer;
ghost use Rattle.iol_sim.specs.Refusal.{code_of};
ghost use Rattle.iol_sim.specs.Device.{command_in, read_answer, no_service};

use crate::refusal::{DEVICE_APPLICATION_ERROR, Refusal};
use arrayvec::ArrayVec;
use iol_link::{Answer, DATA_OCTETS, ISDU_OCTETS};
use iol_transfer::DsCommand;

// The DS_Command in written octets, or `None` if they are not one.
pub(crate) fn command_in(octets: &[u8]) -> Option<DsCommand>
    ensures { result ≡ command_in octets.now }
{
    match octets {
        [octet] => DsCommand::from_octet(*octet),
        _ => None,
    }
}

// The answer to a read.
pub(crate) fn read_answer(read: Result<ArrayVec<u8, DATA_OCTETS>, Refusal>) -> Answer
    ensures octets { IfOk read (λ octets. result ≡ read_answer (Ok octets.items)) }
    ensures refusal { IfErr read (λ refusal. result ≡ read_answer (Err refusal)) }
{
    match read {
        Ok(octets) => Answer::ReadOk(octets),
        Err(refusal) => Answer::ReadFault {
            error: DEVICE_APPLICATION_ERROR,
            additional: refusal.code(),
        },
    }
}

// The answer to a write.
pub(crate) fn write_response(written: Result<(), Refusal>) -> Answer
    ensures done { OnOk written (result ≡ answer.WriteOk) }
    ensures refusal { IfErr written (λ refusal. result
        ≡ answer.WriteFault DEVICE_APPLICATION_ERROR (code_of refusal)) }
{
    match written {
        Ok(()) => Answer::WriteOk,
        Err(refusal) => Answer::WriteFault {
            error: DEVICE_APPLICATION_ERROR,
            additional: refusal.code(),
        },
    }
}

// No Service, the octet 00 alone.
pub(crate) fn no_service() -> ArrayVec<u8, ISDU_OCTETS>
    ensures { result.items ≡ no_service }
{
    let mut octets = ArrayVec::new();
    octets.push(0x00);
    octets
}

// The data of a message with these octets.
pub(crate) fn data_of(octets: &[u8]) -> ArrayVec<u8, DATA_OCTETS>
    requires { length octets.now ≤ DATA_OCTETS }
    ensures { result.items ≡ octets.now }
{
    let mut data = ArrayVec::new();
    data.try_extend_from_slice(octets).unwrap();
    data
}
