//! Commands to the Data Storage of a device.
ghost use Rattle.std.specs.Prelude.{◌≡◌};
ghost use Rattle.iol_transfer.specs.Command.{ds_command_octet, ds_command_of, commanded};

use crate::object::DS_COMMAND;
use arrayvec::ArrayVec;
use iol_link::Request;
use iol_types::DATA_STORAGE;

/// A command of the master to the Data Storage of a device (IO-Link V1.1, Data Storage object,
/// DS_Command).
#[derive(Clone, Copy)]
pub enum DsCommand {
    /// DS_UploadStart, octet 1.
    UploadStart,
    /// DS_UploadEnd, octet 2.
    UploadEnd,
    /// DS_DownloadStart, octet 3.
    DownloadStart,
    /// DS_DownloadEnd, octet 4.
    DownloadEnd,
    /// DS_Break, octet 5.
    Break,
}

impl DsCommand {
    /// The command with this octet, or `None` for 0 and for octets above 5.
    pub fn from_octet(octet: u8) -> Option<DsCommand>
        ensures { result ≡ ds_command_of octet }
    {
        match octet {
            1 => Some(DsCommand::UploadStart),
            2 => Some(DsCommand::UploadEnd),
            3 => Some(DsCommand::DownloadStart),
            4 => Some(DsCommand::DownloadEnd),
            5 => Some(DsCommand::Break),
            _ => None,
        }
    }

    /// The octet of the command, 1 to 5.
    pub fn to_octet(self) -> u8
        ensures { result ≡ ds_command_octet self }
    {
        match self {
            DsCommand::UploadStart => 1,
            DsCommand::UploadEnd => 2,
            DsCommand::DownloadStart => 3,
            DsCommand::DownloadEnd => 4,
            DsCommand::Break => 5,
        }
    }

    /// The request that writes the command to the Data Storage of a device.
    pub fn request(self) -> Request
        ensures { result ≡ commanded self }
    {
        let mut octets = ArrayVec::new();
        octets.push(self.to_octet());
        Request::Write {
            index: DATA_STORAGE,
            subindex: DS_COMMAND,
            octets,
        }
    }
}
