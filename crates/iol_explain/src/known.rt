//! What was reported of a port, by which its decision is explained.
ghost use Rattle.std.specs.Prelude.{◌≡◌};
ghost use Rattle.iol_link.specs.Reading.{answer_of, request_of};
ghost use Rattle.iol_core.specs.Telling.{work_told};
ghost use Rattle.iol_port.specs.Telling.{status_told};
ghost use Rattle.iol_explain.specs.Known.{blank, attended, heard, read_known, row_known, started};
ghost use Rattle.iol_explain.specs.Requests.{asked_by};

use crate::answer_words::answer_in;
use crate::object::Object;
use crate::octets::{four_octets, one_octet};
use crate::request_words::{Asked, asked_by};
use iol_engine::ToldWork;
use iol_link::Answer;
use iol_port::PortStatus;
use iol_texts::{Row, row_of};
use iol_transfer::StateProperty;
use iol_types::Validation;

// What was reported of a port so far: its work, and what it has read of its device since it began to look at
// it.
#[derive(Clone, Copy)]
pub(crate) struct Known {
    validation: Validation,
    // the checksum of the stored set
    stored: Option<u32>,
    property: Option<u8>,
    checksum: Option<u32>,
}

impl Known {
    // Returns what is known when nothing was reported.
    pub(crate) fn blank() -> Known
        ensures { result ≡ blank }
    {
        Known {
            validation: Validation::NoCheck,
            stored: None,
            property: None,
            checksum: None,
        }
    }

    // Adds the work that the port was given.
    pub(crate) fn attended(self, work: &ToldWork) -> Known
        ensures { result ≡ attended self (work_told work.now) }
    {
        Known {
            validation: work.validation(),
            stored: work.checksum(),
            property: self.property,
            checksum: self.checksum,
        }
    }

    // Adds what the port has read: it has sent these octets, and its device has answered those.
    pub(crate) fn heard(self, request: &[u8], answer: &[u8]) -> Known
        ensures { result ≡ heard self (asked_by (request_of request.now)) (answer_of answer.now) }
    {
        match answer_in(answer) {
            Ok(Answer::ReadOk(octets)) => self.read(asked_by(request), octets.as_slice()),
            _ => self,
        }
    }

    // Adds the octets that were read of State_Property or Parameter_Checksum, if the request was to read one of them.
    fn read(self, asked: Asked, octets: &[u8]) -> Known
        ensures { result ≡ read_known self asked octets.now }
    {
        match asked {
            Asked::Read(Object::StateProperty) => Known {
                validation: self.validation,
                stored: self.stored,
                property: one_octet(octets),
                checksum: self.checksum,
            },
            Asked::Read(Object::Checksum) => Known {
                validation: self.validation,
                stored: self.stored,
                property: self.property,
                checksum: four_octets(octets),
            },
            _ => self,
        }
    }

    // Takes another status of the port. What was read of a device counts up to the transfer that it leads to.
    pub(crate) fn started(self, status: PortStatus) -> Known
        ensures { result ≡ started self (status_told status) }
    {
        match status {
            PortStatus::Starting
            | PortStatus::Lost
            | PortStatus::Uploading
            | PortStatus::Downloading => self.unread(),
            _ => self,
        }
    }

    // Forgets what was read of a device.
    fn unread(self) -> Known
        ensures { result ≡ record self { property = blank.property; checksum = blank.checksum } }
    {
        Known {
            validation: self.validation,
            stored: self.stored,
            property: None,
            checksum: None,
        }
    }

    // Returns the line of the table of decisions that applies to the port, if what it depends on is known.
    pub(crate) fn row(self) -> Option<Row>
        ensures { result ≡ row_known self }
    {
        if !matches!(
            self.validation,
            Validation::BackupAndRestore | Validation::Restore
        ) {
            return Some(Row::NotKept);
        }
        match (self.property, self.checksum) {
            (Some(octet), Some(checksum)) => {
                let property = StateProperty::read(octet);
                let state = property.state();
                let flag = property.flag();
                Some(row_of(self.validation, state, flag, checksum, self.stored))
            }
            _ => None,
        }
    }
}
