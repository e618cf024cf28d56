//! Worked examples of names, words and lines, evaluated by the check: they catch a text that is wrong both in a definition and in
//! the code.
ghost use Rattle.std.specs.Prelude.{◌≡◌, [], ◌∷◌, ◌++◌, map, replicate, codes, true, false, Some, None};
ghost use Rattle.iol_types.specs.declared.command.CommandFault.TheVariants as fault;
ghost use Rattle.iol_types.specs.Examples.{example_config, example_port, renewed_port, port_of};
ghost use Rattle.iol_link.specs.declared.validation.IdentFault.TheVariants as ident;
ghost use Rattle.iol_core.specs.Statuses as trace;
ghost use Rattle.iol_texts.specs.ErrorTypes.{error_name};
ghost use Rattle.iol_texts.specs.Failures.{failure_words, mismatch_words};
ghost use Rattle.iol_texts.specs.Recovered.{entry_line, port_line, port_text, recovered_text};
ghost use Rattle.iol_texts.specs.Refusals.{refusal_words};
ghost use Rattle.iol_texts.specs.Rows.{row_of, row_words};
ghost use Rattle.iol_texts.specs.Statuses.{status_words};
ghost use Rattle.iol_texts.specs.Texts.{refusal_name, status_text};

use crate::row::Row;
use iol_transfer::State;
use iol_types::Validation;

/// The ErrorCode and AdditionalCode of a refusal: two digits each, upper case.
pub fn refused_by_a_device()
    ensures low { status_text (trace.Failed (trace.Refused 0x00 0x05)) ≡ codes "failed Refused 00 05" }
    ensures high { status_text (trace.Failed (trace.Refused 0x80 0xAF)) ≡ codes "failed Refused 80 AF" }
{}

/// The other failures.
pub fn failures()
    ensures of_a_transfer { map (λ failure. status_text (trace.Failed failure))
        (trace.Unexpected ∷ trace.Size ∷ trace.List ∷ trace.Busy ∷ trace.Memory ∷ [])
        ≡ codes "failed Unexpected" ∷ codes "failed Size" ∷ codes "failed List" ∷ codes "failed Busy" ∷ codes "failed Memory" ∷ [] }
    ensures of_an_isdu { map (λ failure. status_text (trace.Failed failure))
        (trace.Empty ∷ trace.Reserved ∷ trace.WrongService ∷ trace.Length ∷ trace.Check ∷ [])
        ≡ codes "failed Empty" ∷ codes "failed Reserved" ∷ codes "failed WrongService" ∷ codes "failed Length" ∷ codes "failed Check" ∷ [] }
    ensures of_the_core { map (λ failure. status_text (trace.Failed failure))
        (trace.Stopped ∷ trace.NotAllowed ∷ trace.WrongDevice ∷ trace.Taken ∷ trace.Same ∷ trace.Exhausted ∷ trace.NoSet ∷ [])
        ≡ codes "failed Stopped" ∷ codes "failed NotAllowed" ∷ codes "failed WrongDevice" ∷ codes "failed Taken" ∷ codes "failed Same"
        ∷ codes "failed Exhausted" ∷ codes "failed Empty" ∷ [] }
{}

/// The statuses of a port that has not failed.
pub fn statuses()
    ensures settled { map status_text (trace.Off ∷ trace.Lost ∷ trace.Ready ∷ trace.ReadyLocked ∷ trace.ReadyEmpty ∷ [])
        ≡ codes "off" ∷ codes "lost" ∷ codes "ready" ∷ codes "ready locked" ∷ codes "ready empty" ∷ [] }
    ensures busy { map status_text (trace.Starting ∷ trace.Uploading ∷ trace.Storing ∷ trace.Downloading ∷ [])
        ≡ codes "starting" ∷ codes "uploading" ∷ codes "storing" ∷ codes "downloading" ∷ [] }
    ensures mismatches { map (λ fault. status_text (trace.Mismatch fault)) (ident.Vendor ∷ ident.Device ∷ ident.Revision ∷ ident.NoIsdu
        ∷ [])
        ≡ codes "mismatch vendor" ∷ codes "mismatch device" ∷ codes "mismatch revision" ∷ codes "mismatch isdu" ∷ [] }
{}

/// Why a command is refused.
pub fn refusals()
    ensures of_a_command { map (λ cause. refusal_name (trace.Command cause))
        (fault.UnknownPort ∷ fault.RevisionSpent ∷ fault.NotAllowed ∷ fault.StaleRevision ∷ fault.WrongDevice ∷ fault.NoPrevious ∷ [])
        ≡ codes "UnknownPort" ∷ codes "RevisionSpent" ∷ codes "NotAllowed" ∷ codes "StaleRevision" ∷ codes "WrongDevice"
        ∷ codes "NoPrevious" ∷ [] }
    ensures of_the_core { map refusal_name (trace.Stopped ∷ trace.QueueFull ∷ trace.Exhausted ∷ [])
        ≡ codes "Stopped" ∷ codes "QueueFull" ∷ codes "Exhausted" ∷ [] }
{}

/// A parameter with octets, and one without.
pub fn entries()
    ensures octets { entry_line (record { index = 0x0040; subindex = 0x00 }, 0x0A ∷ 0x64 ∷ []) ≡ codes "entry 0040.00 0A64\n" }
    ensures no_octets { entry_line (record { index = 0x12AB; subindex = 0xFF }, []) ≡ codes "entry 12AB.FF\n" }
{}

/// The line of a port with a set, and that of one without.
pub fn port_lines()
    ensures set { port_line 1 example_port ≡ codes "port 1 revision 1 mode 1 validation 3 vendor 01F4 device 00ABCD set "
        ++ codes "2 entries 11 octets checksum 0000024F under 1 3 01F4 00ABCD\n" }
    ensures no_set { port_line 2 (port_of example_config 7)
        ≡ codes "port 2 revision 7 mode 1 validation 3 vendor 01F4 device 00ABCD set none\n" }
    ensures label { port_line 1 (port_of (record example_config { label = codes "Pump 3" }) 2)
        ≡ codes "port 1 revision 2 mode 1 validation 3 vendor 01F4 device 00ABCD label \"Pump 3\" set none\n" }
{}

/// A state of two ports: the parameters of a port come after its own line.
pub fn states()
    ensures { recovered_text 10 (example_port ∷ port_of example_config 7 ∷ []) ≡ codes "recovered 10\n" ++ port_line 1 example_port
        ++ codes "entry 0040.00 0A64\nentry 0041.01 7F\n" ++ port_line 2 (port_of example_config 7) }
{}

/// The lines of a port with a previous set, which comes after the parameters of the present one.
pub fn previous_sets()
    ensures { port_text 1 renewed_port ≡ codes "port 1 revision 1 mode 1 validation 3 vendor 01F4 device 00ABCD set "
        ++ codes "2 entries 11 octets checksum 00000252 under 1 3 01F4 00ABCD\nentry 0040.00 0A64\nentry 0041.01 80\n"
        ++ codes "previous 2 entries 11 octets checksum 0000024F under 1 3 01F4 00ABCD\nentry 0040.00 0A64\nentry 0041.01 7F\n" }
{}

/// The ErrorTypes that the standard names, one that it leaves to vendors, and others.
pub fn error_types()
    ensures named { map (λ additional. error_name 0x80 additional) (0x00 ∷ 0x11 ∷ 0x12 ∷ 0x20 ∷ 0x21 ∷ 0x22 ∷ 0x23 ∷ 0x30
        ∷ 0x31 ∷ 0x32 ∷ 0x33 ∷ 0x34 ∷ 0x35 ∷ 0x36 ∷ 0x40 ∷ 0x41 ∷ 0x82 ∷ [])
        ≡ codes ", device application error"
        ∷ codes ", Index not available"
        ∷ codes ", Subindex not available"
        ∷ codes ", service temporarily not available"
        ∷ codes ", service temporarily not available, local control"
        ∷ codes ", service temporarily not available, device control"
        ∷ codes ", access denied"
        ∷ codes ", parameter value out of range"
        ∷ codes ", parameter value above limit"
        ∷ codes ", parameter value below limit"
        ∷ codes ", parameter length overrun"
        ∷ codes ", parameter length underrun"
        ∷ codes ", function not available"
        ∷ codes ", function temporarily not available"
        ∷ codes ", invalid parameter set"
        ∷ codes ", inconsistent parameter set"
        ∷ codes ", application not ready" ∷ [] }
    ensures of_a_vendor { error_name 0x81 0x05 ≡ codes ", vendor specific" }
    ensures others { (error_name 0x80 0x37 ≡ []) × (error_name 0x10 0x00 ≡ []) }
{}

/// Why a command is refused, and what to do.
pub fn words_of_refusals()
    ensures of_a_command { map (λ cause. refusal_words (trace.Command cause)) (fault.UnknownPort ∷ fault.RevisionSpent
        ∷ fault.NotAllowed ∷ fault.StaleRevision ∷ fault.WrongDevice ∷ fault.NoPrevious ∷ [])
        ≡ codes "the master has no port of this number: name one that it has"
        ∷ codes "the port has had its last revision: format a new disk"
        ∷ codes "the port is not IOL_MANUAL with validation 03: configure it so"
        ∷ codes "the port was configured meanwhile: nothing is to be done, the port begins again"
        ∷ codes "the port is configured for another device: configure it for this one"
        ∷ codes "the port has no previous set: nothing is exchanged" ∷ [] }
    ensures of_the_core { map (refusal_words) (trace.Stopped ∷ trace.QueueFull ∷ trace.Exhausted ∷ [])
        ≡ codes "a disk call has failed, and nothing more is taken: replace the disk, and start the master anew"
        ∷ codes "64 commands wait for the disk: ask again once some are acknowledged"
        ∷ codes "no command number is left: format a new disk" ∷ [] }
{}

/// Why a device is not the one that its port requires, and what to do.
pub fn words_of_mismatches()
    ensures { map (mismatch_words) (ident.Vendor ∷ ident.Device ∷ ident.Revision ∷ ident.NoIsdu ∷ [])
        ≡ codes "another VendorID than is configured: connect the configured device, or configure this one"
        ∷ codes "another DeviceID than is configured: connect the configured device, or configure this one"
        ∷ codes "a RevisionID below 11, V1.1: connect a device of V1.1, or configure validation 00 or 01"
        ∷ codes "the device supports no ISDUs: connect one that does, or configure validation 00 to 02" ∷ [] }
{}

/// Why a port has failed, and what to do.
pub fn words_of_failures()
    ensures refused { failure_words (trace.Refused 0x80 0x23)
        ≡ codes "the device refused a request, ErrorCode 80 23, access denied: see its manual, and connect it again" }
    ensures of_a_transfer { map (failure_words) (trace.Unexpected ∷ trace.Size ∷ trace.List ∷ trace.Busy ∷ trace.Memory ∷ [])
        ≡ codes "the device answered something else than was asked: check the device, and connect it again"
        ∷ codes "the device's set counts over 4,096 octets: configure the port with validation 00 to 02"
        ∷ codes "the device's Index_List cannot be followed: check the device's Data Storage, and connect it again"
        ∷ codes "the device was busy sixteen times in a row: wait until it is idle, and connect it again"
        ∷ codes "out of memory: give the master more, and connect the device again" ∷ [] }
    ensures of_an_isdu { map (failure_words) (trace.Empty ∷ trace.Reserved ∷ trace.WrongService ∷ trace.Length ∷ trace.Check ∷ [])
        ≡ codes "the answer has no octet: check the cable, and connect the device again"
        ∷ codes "the answer has a reserved I-Service or length: check the cable, and connect the device again"
        ∷ codes "the answer is of another service: check the cable, and connect the device again"
        ∷ codes "the answer has a wrong count of octets: check the cable, and connect the device again"
        ∷ codes "the answer has a wrong CHKPDU: check the cable, and connect the device again" ∷ [] }
    ensures of_the_core { map (failure_words) (trace.Stopped ∷ trace.NotAllowed ∷ trace.WrongDevice ∷ trace.Taken ∷ trace.Same
        ∷ trace.Exhausted ∷ trace.NoSet ∷ [])
        ≡ codes "a disk call has failed, and nothing more is stored: replace the disk, and start the master anew"
        ∷ codes "the port keeps no set, or was configured meanwhile: configure IOL_MANUAL with validation 03 or 04"
        ∷ codes "the port or its set is for another device: configure the port for this one"
        ∷ codes "a transfer of the port is not yet done: connect the device again later"
        ∷ codes "the device has the stored set already: connect it again"
        ∷ codes "no command number is left: format a new disk"
        ∷ codes "no set is stored for the port any more: connect the device again" ∷ [] }
{}

/// The statuses of a port whose decision is not known.
pub fn words_of_statuses()
    ensures { map (status_words None) (trace.Off ∷ trace.Lost ∷ trace.Starting ∷ trace.Ready ∷ trace.ReadyLocked
        ∷ trace.ReadyEmpty ∷ trace.Uploading ∷ trace.Storing ∷ trace.Downloading ∷ [])
        ≡ codes "the port is not IOL_MANUAL: no device is looked after"
        ∷ codes "no device answers: check the cable, and connect a device"
        ∷ codes "the port looks at its device"
        ∷ codes "the transfer is done: device and stored set are the same"
        ∷ codes "the device's Data Storage is locked: nothing is done"
        ∷ codes "no set is stored: nothing is done"
        ∷ codes "the device's parameters are read and stored"
        ∷ codes "the device's parameters are read: the set waits for the disk"
        ∷ codes "the stored set is written to the device" ∷ [] }
{}

/// Each line of the table of decisions, and its words.
pub fn rows()
    ensures not_kept { map (λ validation. row_of validation State.Locked true 1 (Some 2)) (Validation.NoCheck
        ∷ Validation.TypeCompatibleV10 ∷ Validation.TypeCompatibleV11 ∷ [])
        ≡ replicate 3 Row.NotKept }
    ensures locked { map (λ validation. row_of validation State.Locked true 1 None) (Validation.BackupAndRestore
        ∷ Validation.Restore ∷ [])
        ≡ replicate 2 Row.Locked }
    ensures backup_and_restore { row_of Validation.BackupAndRestore State.Inactive false 1 None
        ∷ row_of Validation.BackupAndRestore State.Inactive true 1 None
        ∷ row_of Validation.BackupAndRestore State.Upload true 1 (Some 1)
        ∷ row_of Validation.BackupAndRestore State.Inactive false 1 (Some 1)
        ∷ row_of Validation.BackupAndRestore State.Download false 1 (Some 2)
        ∷ [] ≡ Row.NothingStored ∷ Row.NothingStored ∷ Row.FlagSet ∷ Row.SameSet ∷ Row.OtherSet ∷ [] }
    ensures restore { row_of Validation.Restore State.Inactive true 1 None ∷ row_of Validation.Restore State.Inactive true 1 (Some 1)
        ∷ row_of Validation.Restore State.Inactive true 1 (Some 2) ∷ []
        ≡ Row.NothingToRestore ∷ Row.SameRestored ∷ Row.OtherRestored ∷ [] }
    ensures words { map (row_words) (Row.NotKept ∷ Row.Locked ∷ Row.NothingStored ∷ Row.FlagSet ∷ Row.SameSet ∷ Row.OtherSet
        ∷ Row.NothingToRestore ∷ Row.SameRestored ∷ Row.OtherRestored ∷ [])
        ≡ codes "validation 00 to 02: nothing is done"
        ∷ codes "validation 03 or 04, the device's Data Storage is locked: nothing is done"
        ∷ codes "validation 03, no set is stored: the device's parameters are read and stored"
        ∷ codes "validation 03, a set is stored, DS_UPLOAD_FLAG is set: the device's parameters are read and stored"
        ∷ codes "validation 03, DS_UPLOAD_FLAG is clear, Parameter_Checksum is that of the set: nothing is done"
        ∷ codes "validation 03, DS_UPLOAD_FLAG is clear, Parameter_Checksum is another: the set is written to the device"
        ∷ codes "validation 04, no set is stored: nothing is done"
        ∷ codes "validation 04, Parameter_Checksum is that of the set: nothing is done"
        ∷ codes "validation 04, Parameter_Checksum is another: the set is written to the device" ∷ [] }
{}
