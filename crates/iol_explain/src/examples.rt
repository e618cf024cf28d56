//! Worked examples of the words and lines of explained runs, which the check computes. A text that is wrong both in a definition
//! and in the code is refused here.
ghost use Rattle.std.specs.Prelude.{◌≡◌, [], ◌∷◌, ◌++◌, map, replicate, codes, true, false, Some, None};
ghost use Rattle.iol_types.specs.Command.{Clear};
ghost use Rattle.iol_link.specs.Page.{page_of};
ghost use Rattle.iol_link.specs.Reading.{answer_of, request_of};
ghost use Rattle.iol_journal.specs.Examples.{two_by_four, older_standing_of};
ghost use Rattle.iol_journal.specs.Layout.{layout_of};
ghost use Rattle.iol_core.specs.Events as event;
ghost use Rattle.iol_core.specs.Statuses as trace;
ghost use Rattle.iol_explain.specs.Answers.{answer_words};
ghost use Rattle.iol_explain.specs.DiskLines.{between, call_line, calls_before, of_run};
ghost use Rattle.iol_explain.specs.EventLines.{event_lines};
ghost use Rattle.iol_explain.specs.Known.{blank, started};
ghost use Rattle.iol_explain.specs.Pages.{page_words};
ghost use Rattle.iol_explain.specs.Places.{place_at, place_text};
ghost use Rattle.iol_explain.specs.Requests.{asked_by, request_words};
ghost use Rattle.iol_explain.specs.Telling.{known_after, known_at, ports_after};
ghost use Rattle.iol_explain.specs.Values.{value_words};

use crate::object::Object;
use crate::told_disk::ToldCall;

/// Requests to read the parts of the Data Storage object, and to read parameters.
pub fn reads()
    ensures state_property { request_words (request_of (0xA4 ∷ 0x03 ∷ 0x02 ∷ 0xA5 ∷ []))
        ≡ codes "reads Index 3, Subindex 2: State_Property" }
    ensures size { request_words (request_of (0xA4 ∷ 0x03 ∷ 0x03 ∷ 0xA4 ∷ [])) ≡ codes "reads Index 3, Subindex 3: Data_Storage_Size" }
    ensures checksum { request_words (request_of (0xA4 ∷ 0x03 ∷ 0x04 ∷ 0xA3 ∷ []))
        ≡ codes "reads Index 3, Subindex 4: Parameter_Checksum" }
    ensures index_list { request_words (request_of (0xA4 ∷ 0x03 ∷ 0x05 ∷ 0xA2 ∷ [])) ≡ codes "reads Index 3, Subindex 5: Index_List" }
    ensures unnamed { request_words (request_of (0xA4 ∷ 0x03 ∷ 0x09 ∷ 0xAE ∷ [])) ≡ codes "reads Index 3, Subindex 9" }
    ensures parameter { request_words (request_of (0x93 ∷ 0x40 ∷ 0xD3 ∷ [])) ≡ codes "reads parameter 0040.00" }
    ensures long_index { request_words (request_of (0xB5 ∷ 0x12 ∷ 0x34 ∷ 0x05 ∷ 0x96 ∷ [])) ≡ codes "reads parameter 1234.05" }
{}

/// Commands to the Data Storage of a device, and octets that are no command.
pub fn commands()
    ensures upload_start { request_words (request_of (0x25 ∷ 0x03 ∷ 0x01 ∷ 0x01 ∷ 0x26 ∷ []))
        ≡ codes "writes Index 3, Subindex 1: DS_Command DS_UploadStart" }
    ensures upload_end { request_words (request_of (0x25 ∷ 0x03 ∷ 0x01 ∷ 0x02 ∷ 0x25 ∷ []))
        ≡ codes "writes Index 3, Subindex 1: DS_Command DS_UploadEnd" }
    ensures download_start { request_words (request_of (0x25 ∷ 0x03 ∷ 0x01 ∷ 0x03 ∷ 0x24 ∷ []))
        ≡ codes "writes Index 3, Subindex 1: DS_Command DS_DownloadStart" }
    ensures download_end { request_words (request_of (0x25 ∷ 0x03 ∷ 0x01 ∷ 0x04 ∷ 0x23 ∷ []))
        ≡ codes "writes Index 3, Subindex 1: DS_Command DS_DownloadEnd" }
    ensures break_off { request_words (request_of (0x25 ∷ 0x03 ∷ 0x01 ∷ 0x05 ∷ 0x22 ∷ []))
        ≡ codes "writes Index 3, Subindex 1: DS_Command DS_Break" }
    ensures none { request_words (request_of (0x25 ∷ 0x03 ∷ 0x01 ∷ 0x06 ∷ 0x21 ∷ []))
        ≡ codes "writes Index 3, Subindex 1: DS_Command, no command: 06" }
    ensures no_octet { request_words (request_of (0x24 ∷ 0x03 ∷ 0x01 ∷ 0x26 ∷ []))
        ≡ codes "writes Index 3, Subindex 1: DS_Command, no command: no octet" }
    ensures two_octets { request_words (request_of (0x26 ∷ 0x03 ∷ 0x01 ∷ 0x01 ∷ 0x02 ∷ 0x27 ∷ []))
        ≡ codes "writes Index 3, Subindex 1: DS_Command, no command: 01 02" }
{}

/// Requests to write a parameter, with octets and with none, and to write State_Property.
pub fn writes()
    ensures parameter { request_words (request_of (0x15 ∷ 0x40 ∷ 0x0A ∷ 0x64 ∷ 0x3B ∷ [])) ≡ codes "writes parameter 0040.00: 0A 64" }
    ensures no_octet { request_words (request_of (0x13 ∷ 0x40 ∷ 0x53 ∷ [])) ≡ codes "writes parameter 0040.00: no octet" }
    ensures state_property { request_words (request_of (0x25 ∷ 0x03 ∷ 0x02 ∷ 0x80 ∷ 0xA4 ∷ []))
        ≡ codes "writes Index 3, Subindex 2: State_Property: 80" }
{}

/// Octets that are no request, and the check that they fail.
pub fn malformed_requests()
    ensures empty { request_words (request_of []) ≡ codes "malformed, Empty: there is no octet" }
    ensures reserved { request_words (request_of (0x90 ∷ 0x40 ∷ 0xD0 ∷ []))
        ≡ codes "malformed, Reserved: the first octets have a reserved I-Service, Length or ExtLength" }
    ensures service { request_words (request_of (0xD2 ∷ 0xD2 ∷ []))
        ≡ codes "malformed, WrongService: the first octet has a service that is not to come here" }
    ensures length { request_words (request_of (0x94 ∷ 0x40 ∷ 0xD4 ∷ []))
        ≡ codes "malformed, Length: there are not as many octets as are stated, or as the service carries" }
    ensures check { request_words (request_of (0x93 ∷ 0x40 ∷ 0xD2 ∷ []))
        ≡ codes "malformed, Check: the last octet, CHKPDU, does not make the XOR of all octets 00" }
{}

/// Answers to what was asked.
pub fn answers()
    ensures state_property { answer_words (asked_by (request_of (0xA4 ∷ 0x03 ∷ 0x02 ∷ 0xA5 ∷ []))) (answer_of (0xD3 ∷ 0x80 ∷ 0x53 ∷ []))
        ≡ codes "State_Property: DS_UPLOAD_FLAG set, state inactive" }
    ensures size { answer_words (asked_by (request_of (0xA4 ∷ 0x03 ∷ 0x03 ∷ 0xA4 ∷ [])))
        (answer_of (0xD6 ∷ 0x00 ∷ 0x00 ∷ 0x00 ∷ 0x0B ∷ 0xDD ∷ []))
        ≡ codes "Data_Storage_Size: 11 octets" }
    ensures checksum { answer_words (asked_by (request_of (0xA4 ∷ 0x03 ∷ 0x04 ∷ 0xA3 ∷ [])))
        (answer_of (0xD6 ∷ 0x00 ∷ 0x00 ∷ 0x02 ∷ 0x4F ∷ 0x9B ∷ []))
        ≡ codes "Parameter_Checksum: 0000024F" }
    ensures index_list { answer_words (asked_by (request_of (0xA4 ∷ 0x03 ∷ 0x05 ∷ 0xA2 ∷ [])))
        (answer_of (0xDA ∷ 0x00 ∷ 0x40 ∷ 0x00 ∷ 0x00 ∷ 0x41 ∷ 0x01 ∷ 0x00 ∷ 0x00 ∷ 0xDA ∷ []))
        ≡ codes "Index_List: 0040.00, 0041.01, end" }
    ensures parameter { answer_words (asked_by (request_of (0x93 ∷ 0x40 ∷ 0xD3 ∷ []))) (answer_of (0xD4 ∷ 0x0A ∷ 0x64 ∷ 0xBA ∷ []))
        ≡ codes "parameter 0040.00: 0A 64" }
    ensures written { answer_words (asked_by (request_of (0x25 ∷ 0x03 ∷ 0x01 ∷ 0x01 ∷ 0x26 ∷ []))) (answer_of (0x52 ∷ 0x52 ∷ []))
        ≡ codes "written" }
    ensures read_refused { answer_words (asked_by (request_of (0x93 ∷ 0x40 ∷ 0xD3 ∷ []))) (answer_of (0xC4 ∷ 0x80 ∷ 0x11 ∷ 0x55 ∷ []))
        ≡ codes "refused: ErrorCode 80 11, Index not available" }
    ensures write_refused { answer_words (asked_by (request_of (0x15 ∷ 0x40 ∷ 0x0A ∷ 0x64 ∷ 0x3B ∷ [])))
        (answer_of (0x44 ∷ 0x80 ∷ 0x33 ∷ 0xF7 ∷ []))
        ≡ codes "refused: ErrorCode 80 33, parameter length overrun" }
    ensures busy { answer_words (asked_by (request_of (0x93 ∷ 0x40 ∷ 0xD3 ∷ []))) (answer_of (0x01 ∷ []))
        ≡ codes "Device busy: the device has no answer yet" }
{}

/// Answers to something else than was asked, and octets that are no answer.
pub fn other_answers()
    ensures written { answer_words (asked_by (request_of (0x93 ∷ 0x40 ∷ 0xD3 ∷ []))) (answer_of (0x52 ∷ 0x52 ∷ []))
        ≡ codes "an answer to something else than was asked" }
    ensures write_refused { answer_words (asked_by (request_of (0x93 ∷ 0x40 ∷ 0xD3 ∷ []))) (answer_of (0x44 ∷ 0x80 ∷ 0x11 ∷ 0xD5 ∷ []))
        ≡ codes "an answer to something else than was asked" }
    ensures read { answer_words (asked_by (request_of (0x25 ∷ 0x03 ∷ 0x01 ∷ 0x01 ∷ 0x26 ∷ [])))
        (answer_of (0xD4 ∷ 0x0A ∷ 0x64 ∷ 0xBA ∷ []))
        ≡ codes "an answer to something else than was asked" }
    ensures read_refused { answer_words (asked_by (request_of (0x25 ∷ 0x03 ∷ 0x01 ∷ 0x01 ∷ 0x26 ∷ [])))
        (answer_of (0xC4 ∷ 0x80 ∷ 0x11 ∷ 0x55 ∷ []))
        ≡ codes "an answer to something else than was asked" }
    ensures empty { answer_words (asked_by (request_of (0x93 ∷ 0x40 ∷ 0xD3 ∷ []))) (answer_of [])
        ≡ codes "malformed, Empty: there is no octet" }
    ensures service { answer_words (asked_by (request_of (0x93 ∷ 0x40 ∷ 0xD3 ∷ []))) (answer_of (0x93 ∷ 0x40 ∷ 0xD3 ∷ []))
        ≡ codes "malformed, WrongService: the first octet has a service that is not to come here" }
    ensures check { answer_words (asked_by (request_of (0x93 ∷ 0x40 ∷ 0xD3 ∷ []))) (answer_of (0xD4 ∷ 0x0A ∷ 0x64 ∷ 0xBB ∷ []))
        ≡ codes "malformed, Check: the last octet, CHKPDU, does not make the XOR of all octets 00" }
{}

/// Values read from the Data Storage object: the states besides inactive, values of a wrong length, DS_Command, and a Subindex
/// that the standard does not name.
pub fn values()
    ensures upload { value_words Object.StateProperty (0x02 ∷ []) ≡ codes "State_Property: DS_UPLOAD_FLAG clear, state upload" }
    ensures download { value_words Object.StateProperty (0x04 ∷ []) ≡ codes "State_Property: DS_UPLOAD_FLAG clear, state download" }
    ensures locked { value_words Object.StateProperty (0x86 ∷ [])
        ≡ codes "State_Property: DS_UPLOAD_FLAG set, state Data Storage locked" }
    ensures property_of_two { value_words Object.StateProperty (0x80 ∷ 0x00 ∷ []) ≡ codes "State_Property, not one octet: 80 00" }
    ensures size_of_none { value_words Object.Size [] ≡ codes "Data_Storage_Size, not four octets: no octet" }
    ensures checksum_of_three { value_words Object.Checksum (0x00 ∷ 0x02 ∷ 0x4F ∷ [])
        ≡ codes "Parameter_Checksum, not four octets: 00 02 4F" }
    ensures command { value_words Object.Command (0x05 ∷ []) ≡ codes "DS_Command: 05" }
    ensures unnamed { value_words (Object.Unnamed 9) (0x01 ∷ []) ≡ codes "Subindex 9: 01" }
{}

/// Lists with no key and with a further list, a list that breaks off, and one that names a reserved Index.
pub fn lists()
    ensures no_key { value_words Object.IndexList (0x00 ∷ 0x00 ∷ []) ≡ codes "Index_List: end" }
    ensures further_list { value_words Object.IndexList (0x00 ∷ 0x40 ∷ 0x00 ∷ 0x12 ∷ 0x00 ∷ [])
        ≡ codes "Index_List: 0040.00, next list at Index 1200" }
    ensures broken_off { value_words Object.IndexList (0x00 ∷ 0x40 ∷ 0x00 ∷ 0x00 ∷ []) ≡ codes "Index_List: it breaks off" }
    ensures reserved { value_words Object.IndexList (0x00 ∷ 0x03 ∷ 0x01 ∷ 0x00 ∷ 0x00 ∷ [])
        ≡ codes "Index_List: it names a reserved Index" }
{}

/// Pages of a device that supports ISDUs, and of one that does not.
pub fn pages()
    ensures known { page_words (page_of (0x00 ∷ 0x00 ∷ 0x17 ∷ 0x01 ∷ 0x11 ∷ 0x00 ∷ 0x00 ∷ 0x01 ∷ 0xF4 ∷ 0x00 ∷ 0xAB ∷ 0xCD
        ∷ 0x00 ∷ 0x00 ∷ 0x00 ∷ 0x00 ∷ []))
        ≡ codes "VendorID 01F4, DeviceID 00ABCD, RevisionID 11, ISDUs supported" }
    ensures unknown { page_words (page_of (0x00 ∷ 0x00 ∷ 0x17 ∷ 0x00 ∷ 0x10 ∷ 0x00 ∷ 0x00 ∷ 0xFF ∷ 0xFF ∷ 0xFF ∷ 0xFF ∷ 0xFF
        ∷ 0x00 ∷ 0x00 ∷ 0x00 ∷ 0x00 ∷ []))
        ≡ codes "VendorID FFFF, DeviceID FFFFFF, RevisionID 10, ISDUs not supported" }
{}

/// The contents of the sectors of a disk with 2 ports and 4 slots, of which an area keeps three, and of some sectors of one in
/// version 1.
pub fn places()
    ensures area_a { map (λ sector. place_text (place_at (layout_of two_by_four) sector)) (0 ∷ 1 ∷ 2 ∷ 3 ∷ 4 ∷ 20
        ∷ 21 ∷ 37 ∷ 38 ∷ 39 ∷ 54 ∷ 55 ∷ 88 ∷ 89 ∷ [])
        ≡ codes "geometry"
        ∷ codes "gate of the disk"
        ∷ codes "gate of area A"
        ∷ codes "header of area A"
        ∷ codes "record of port 1 in area A"
        ∷ codes "record of port 1 in area A"
        ∷ codes "record of port 2 in area A"
        ∷ codes "record of port 2 in area A"
        ∷ codes "gate of slot 1 in area A"
        ∷ codes "body of slot 1 in area A"
        ∷ codes "body of slot 1 in area A"
        ∷ codes "gate of slot 2 in area A"
        ∷ codes "body of slot 3 in area A"
        ∷ codes "behind the slots of area A" ∷ [] }
    ensures area_b { map (λ sector. place_text (place_at (layout_of two_by_four) sector)) (90 ∷ 91 ∷ 92 ∷ 125 ∷ 126
        ∷ 176 ∷ 177 ∷ 178 ∷ [])
        ≡ codes "gate of area B"
        ∷ codes "header of area B"
        ∷ codes "record of port 1 in area B"
        ∷ codes "record of port 2 in area B"
        ∷ codes "gate of slot 1 in area B"
        ∷ codes "body of slot 3 in area B"
        ∷ codes "behind the slots of area B"
        ∷ codes "behind the journal" ∷ [] }
    ensures older { map (λ sector. place_text (place_at (older_standing_of 0 0).layout sector)) (12 ∷ 13 ∷ 22 ∷ 89 ∷ [])
        ≡ codes "record of port 1 in area A"
        ∷ codes "record of port 2 in area A"
        ∷ codes "gate of slot 1 in area A"
        ∷ codes "body of slot 4 in area A" ∷ [] }
{}

/// The lines of disk calls.
pub fn disk_calls()
    ensures open { call_line two_by_four (ToldCall.Write 38 true) ≡ codes "disk write sector 38, gate of slot 1 in area A, open\n" }
    ensures closed { call_line two_by_four (ToldCall.Write 90 false) ≡ codes "disk write sector 90, gate of area B, closed\n" }
    ensures body { call_line two_by_four (ToldCall.Write 39 true) ≡ codes "disk write sector 39, body of slot 1 in area A\n" }
    ensures sync { call_line two_by_four ToldCall.Sync ≡ codes "disk sync\n" }
{}

/// The calls of a run are those after the first sync, which is the recovery's. The calls between two indexes are cut out of
/// them, and the calls before an event are counted.
pub fn calls()
    ensures of_run { of_run (ToldCall.Sync ∷ ToldCall.Write 23 false ∷ ToldCall.Sync ∷ []) ≡ ToldCall.Write 23 false ∷ ToldCall.Sync ∷ [] }
    ensures between { between (ToldCall.Sync ∷ ToldCall.Write 23 false ∷ ToldCall.Sync ∷ []) 1 2 ≡ ToldCall.Write 23 false ∷ [] }
    ensures before { map (calls_before (0 ∷ 0 ∷ 2 ∷ 5 ∷ []) 0) (0 ∷ 1 ∷ 2 ∷ 4 ∷ 5 ∷ []) ≡ 2 ∷ 2 ∷ 3 ∷ 3 ∷ 4 ∷ [] }
    ensures since { map (calls_before (0 ∷ 0 ∷ 2 ∷ 5 ∷ []) 3) (0 ∷ 4 ∷ 5 ∷ 6 ∷ []) ≡ 3 ∷ 3 ∷ 4 ∷ 4 ∷ [] }
{}

/// What is known of ports. What one port reads is known of that port alone, until it starts to look at its device again, loses
/// it, or transfers parameters.
pub fn knowledge()
    ensures read { known_after blank (event.Exchange 17 0 (0xA4 ∷ 0x03 ∷ 0x02 ∷ 0xA5 ∷ []) (0xD3 ∷ 0x80 ∷ 0x53 ∷ []))
        ≡ record blank { property = Some 0x80 } }
    ensures its_own { map (known_at (ports_after (replicate 33 blank)
        (event.Exchange 17 0 (0xA4 ∷ 0x03 ∷ 0x02 ∷ 0xA5 ∷ []) (0xD3 ∷ 0x80 ∷ 0x53 ∷ [])))) (1 ∷ 17 ∷ 32 ∷ [])
        ≡ blank ∷ record blank { property = Some 0x80 } ∷ blank ∷ [] }
    ensures forgotten { map (started (record blank { property = Some 0x80; checksum = Some 7 }))
        (trace.Starting ∷ trace.Lost ∷ trace.Uploading ∷ trace.Downloading ∷ []) ≡ replicate 4 blank }
    ensures kept { started (record blank { property = Some 0x80 }) trace.Ready ≡ record blank { property = Some 0x80 } }
{}

/// The lines of single events.
pub fn events()
    ensures accepted { event_lines blank (event.Accepted 1 (Clear 2)) ≡ codes "accepted 1  # waits for the disk\n" }
    ensures refused { event_lines blank (event.Refused trace.QueueFull)
        ≡ codes "refused QueueFull  # 64 commands wait for the disk: ask again once some are acknowledged\n" }
    ensures page { event_lines blank (event.Page 1 0 (0x00 ∷ 0x00 ∷ 0x17 ∷ 0x01 ∷ 0x11 ∷ 0x00 ∷ 0x00 ∷ 0x01 ∷ 0xF4 ∷ 0x00
        ∷ 0xAB ∷ 0xCD ∷ 0x00 ∷ 0x00 ∷ 0x00 ∷ 0x00 ∷ []))
        ≡ codes "port 1 page 00 00 17 01 11 00 00 01 F4 00 AB CD 00 00 00 00"
        ++ codes "  # VendorID 01F4, DeviceID 00ABCD, RevisionID 11, ISDUs supported\n" }
    ensures exchange { event_lines blank (event.Exchange 1 0 (0xA4 ∷ 0x03 ∷ 0x02 ∷ 0xA5 ∷ []) (0xD3 ∷ 0x80 ∷ 0x53 ∷ []))
        ≡ codes "port 1 > A4 03 02 A5  # reads Index 3, Subindex 2: State_Property\n"
        ++ codes "port 1 < D3 80 53  # State_Property: DS_UPLOAD_FLAG set, state inactive\n" }
    ensures lost_at_a_request { event_lines blank (event.Lost 32 4 (Some (0x93 ∷ 0x40 ∷ 0xD3 ∷ [])))
        ≡ codes "port 32 > 93 40 D3  # reads parameter 0040.00\n"
        ++ codes "port 32 lost  # no device answers: check the cable, and connect a device\n" }
    ensures status { event_lines blank (event.Changed 1 trace.Ready) ≡ codes "port 1 ready  # validation 00 to 02: nothing is done\n" }
    ensures acknowledged { event_lines blank (event.Acknowledged 12) ≡ codes "acknowledged 12  # all commands up to 12 are durable\n" }
    ensures failed { event_lines blank event.DiskFailed
        ≡ codes "disk failed  # the disk call before this line failed: nothing more is written\n" }
{}
