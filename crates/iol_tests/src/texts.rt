//! The texts of faults, for which the program has names and words of its own.

use iol_core::{DownloadFault, PermitFault};
use iol_link::IsduFault;
use iol_port::{PortFault, StoringFault};
use iol_transfer::TransferFault;
use iol_types::{AddFault, CommandFault};
use std::alloc::Global;
use std::fmt;
use std::process::Abort;

const OF_PORTS: [(PortFault, &str); 23] = [
    (PortFault::Isdu(IsduFault::Empty), "no octet"),
    (
        PortFault::Isdu(IsduFault::Reserved),
        "a reserved I-Service or length",
    ),
    (PortFault::Isdu(IsduFault::WrongService), "another service"),
    (
        PortFault::Isdu(IsduFault::Length),
        "a wrong count of octets",
    ),
    (PortFault::Isdu(IsduFault::Check), "a wrong CHKPDU"),
    (
        PortFault::Transfer(TransferFault::Refused {
            error: 0x80,
            additional: 0x0C,
        }),
        "refused by the device with 80 0C",
    ),
    (
        PortFault::Transfer(TransferFault::Unexpected),
        "an answer to something else",
    ),
    (
        PortFault::Transfer(TransferFault::Size),
        "a parameter set of more than 4096 octets",
    ),
    (
        PortFault::Transfer(TransferFault::List),
        "an index list that cannot be followed",
    ),
    (
        PortFault::Transfer(TransferFault::Busy),
        "a device that stays busy",
    ),
    (PortFault::Transfer(TransferFault::Memory), "out of memory"),
    (
        PortFault::Permit(PermitFault::Stopped),
        "the master has stopped",
    ),
    (
        PortFault::Permit(PermitFault::NotAllowed),
        "the port stores no parameter set",
    ),
    (
        PortFault::Permit(PermitFault::WrongDevice),
        "the port is configured for another device",
    ),
    (
        PortFault::Permit(PermitFault::Taken),
        "the port has a permit",
    ),
    (
        PortFault::Download(DownloadFault::NotAllowed),
        "the port has no parameter set to restore",
    ),
    (
        PortFault::Download(DownloadFault::Empty),
        "no parameter set is stored for the port",
    ),
    (
        PortFault::Download(DownloadFault::WrongDevice),
        "the port is configured for another device",
    ),
    (
        PortFault::Download(DownloadFault::Taken),
        "the port has a permit",
    ),
    (
        PortFault::Download(DownloadFault::Same),
        "the device has the parameter set",
    ),
    (PortFault::Download(DownloadFault::Memory), "out of memory"),
    (
        PortFault::Storing(StoringFault::Stopped),
        "the master has stopped",
    ),
    (
        PortFault::Storing(StoringFault::Exhausted),
        "no number is left",
    ),
];

const OF_SETS: [(AddFault, &str); 5] = [
    (AddFault::ReservedKey, "a reserved Index"),
    (
        AddFault::EntryTooLong,
        "a parameter of more than 232 octets",
    ),
    (AddFault::Duplicate, "a parameter that is there already"),
    (AddFault::SetTooLarge, "a set of more than 4096 octets"),
    (AddFault::Memory, "out of memory"),
];

const OF_COMMANDS: [(CommandFault, &str); 6] = [
    (CommandFault::UnknownPort, "no such port"),
    (
        CommandFault::RevisionSpent,
        "the port has no further revision",
    ),
    (CommandFault::NotAllowed, "the port stores no parameter set"),
    (CommandFault::StaleRevision, "the port was configured since"),
    (
        CommandFault::WrongDevice,
        "the parameter set of another device",
    ),
    (
        CommandFault::NoPrevious,
        "the port has no previous parameter set",
    ),
];

// Returns whether each fault has the text beside it.
fn have_texts<T: fmt::Display, R: Abort>(rt: &R, alloc: Global, faults: &[(T, &str)]) -> bool {
    for (fault, text) in faults {
        let told = fault.to_string(alloc).expect(rt, "memory");
        if told.as_str() != *text {
            return false;
        }
    }
    true
}

#[test]
fn each_fault_has_its_text(rt: HostRuntime) {
    assert!(rt; have_texts(&rt, rt.alloc(), &OF_PORTS));
    assert!(rt; have_texts(&rt, rt.alloc(), &OF_SETS));
    assert!(rt; have_texts(&rt, rt.alloc(), &OF_COMMANDS));
}
