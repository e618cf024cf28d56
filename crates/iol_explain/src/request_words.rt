//! The words for a request (docs/FORMATS.md, "Explained runs").
ghost use Rattle.std.specs.Prelude.{◌≡◌};
ghost use Rattle.iol_link.specs.Reading.{request_of};
ghost use Rattle.iol_explain.specs.Requests.{asked_by, command_name, isdu_fault_words};

use crate::object::{Object, ObjectPlace, object_of};
use crate::octets::{OctetWords, command_in};
use iol_link::{IsduFault, Request, read_request};
use iol_transfer::DsCommand;
use std::fmt;

// The object that a request reads or writes, or that its octets are malformed.
#[derive(Clone, Copy)]
pub(crate) enum Asked {
    Read(Object),
    Write(Object),
    Malformed,
}

// Reads octets as a request, or returns their fault.
fn request_in(octets: &[u8]) -> Result<Request, IsduFault>
    ensures { result ≡ request_of octets.now }
{
    read_request(octets)
}

// Returns the object that these octets read or write as a request, or that they are malformed.
pub(crate) fn asked_by(octets: &[u8]) -> Asked
    ensures { result ≡ asked_by (request_of octets.now) }
{
    match request_in(octets) {
        Ok(Request::Read { index, subindex }) => Asked::Read(object_of(index, subindex)),
        Ok(
            Request::Write {
                index,
                subindex,
                ..
            },
        ) => Asked::Write(object_of(index, subindex)),
        Err(_) => Asked::Malformed,
    }
}

// The octets of a request, in words.
#[derive(Drop)]
pub(crate) struct RequestWords<'a>(pub(crate) &'a [u8]);

impl fmt::Display for RequestWords<'_> {
    ghost use Rattle.std.specs.Prelude.{Some};
    ghost use Rattle.iol_link.specs.Reading.{request_of};
    ghost use Rattle.iol_explain.specs.Requests.{request_words};

    ghost output = { λ words. Some (request_words (request_of words.0.now)) };

    fn fmt<W: fmt::Write>(&self, f: &mut fmt::Formatter<W>) -> fmt::Result {
        match request_in(self.0) {
            Ok(Request::Read { index, subindex }) => {
                write!(f, "reads {}", ObjectPlace(object_of(index, subindex)))
            }
            Ok(
                Request::Write {
                    index,
                    subindex,
                    octets,
                },
            ) => {
                let object = object_of(index, subindex);
                let octets = octets.as_slice();
                write!(
                    f,
                    "writes {}{}",
                    ObjectPlace(object),
                    Written { object, octets }
                )
            }
            Err(fault) => write!(f, "malformed, {}", isdu_fault_words(fault)),
        }
    }
}

// What is written to an object, in words.
#[derive(Drop)]
struct Written<'a> {
    object: Object,
    octets: &'a [u8],
}

impl fmt::Display for Written<'_> {
    ghost use Rattle.std.specs.Prelude.{Some};
    ghost use Rattle.iol_explain.specs.Requests.{written_words};

    ghost output = { λ written. Some (written_words written.object written.octets.now) };

    fn fmt<W: fmt::Write>(&self, f: &mut fmt::Formatter<W>) -> fmt::Result {
        match self.object {
            Object::Command => match command_in(self.octets) {
                Some(command) => write!(f, " {}", command_name(command)),
                None => write!(f, ", no command:{}", OctetWords(self.octets)),
            },
            _ => write!(f, ":{}", OctetWords(self.octets)),
        }
    }
}

// Returns the name of a command to the Data Storage of a device.
fn command_name(command: DsCommand) -> &'static str
    ensures { result.now ≡ command_name command }
{
    match command {
        DsCommand::UploadStart => "DS_UploadStart",
        DsCommand::UploadEnd => "DS_UploadEnd",
        DsCommand::DownloadStart => "DS_DownloadStart",
        DsCommand::DownloadEnd => "DS_DownloadEnd",
        DsCommand::Break => "DS_Break",
    }
}

// Returns the words for the check of the codec that octets fail.
pub(crate) fn isdu_fault_words(fault: IsduFault) -> &'static str
    ensures { result.now ≡ isdu_fault_words fault }
{
    match fault {
        IsduFault::Empty => "Empty: there is no octet",
        IsduFault::Reserved =>
            "Reserved: the first octets have a reserved I-Service, Length or ExtLength",
        IsduFault::WrongService =>
            "WrongService: the first octet has a service that is not to come here",
        IsduFault::Length =>
            "Length: there are not as many octets as are stated, or as the service carries",
        IsduFault::Check => "Check: the last octet, CHKPDU, does not make the XOR of all octets 00",
    }
}
