//! A simulated device, worked out by the check, which rejects a number that is wrong in both a definition and the code.
//! The tests read the same octets.

ghost use Rattle.std.specs.Prelude.{◌≡◌, ℕ, List, [], ◌∷◌, map, replicate, Some, None, Ok, Err, true, false};
ghost use Rattle.iol_types.specs.DataSet.{octets_of};
ghost use Rattle.iol_types.specs.declared.key.TheConstants.{DATA_STORAGE};
ghost use Rattle.iol_link.specs.declared.messages.Request.TheVariants as request;
ghost use Rattle.iol_link.specs.declared.messages.Answer.TheVariants as answer;
ghost use Rattle.iol_link.specs.Link.{last_connection};
ghost use Rattle.iol_sim.specs.Parameters.{add_fault, checksum_of};
ghost use Rattle.iol_sim.specs.Refusal.{code_of};
ghost use Rattle.iol_sim.specs.Device.{page_of, property_octet, object_read, object_written, read_of, write_of, respond, Device, Answers};
ghost use Rattle.iol_sim.specs.Device.{commanded, raised, change_of, told, after_told, lost_device};
ghost use Rattle.iol_sim.specs.SimLink.{visit_of, after_answer, has_answer, present, after_loss};
ghost use Rattle.iol_sim.specs.Script.{lost};
ghost use Rattle.iol_sim.specs.Examples.{example_device, in_state, key, with_first, alike, link_at, script_at};
ghost use Rattle.iol_transfer.specs.declared.property.State.TheVariants as state;

use crate::device::DS_UPLOAD_REQUEST;
use crate::parameters::{DeviceFault, MOST_PARAMETERS};
use crate::refusal::{DEVICE_APPLICATION_ERROR, Refusal};

/// The codes of refusals, the EventCode, and the most parameters.
pub fn numbers()
    ensures error { DEVICE_APPLICATION_ERROR ≡ 0x80 }
    ensures refusals { map code_of (Refusal.NoIndex ∷ Refusal.NoSubindex ∷ Refusal.AccessDenied ∷ Refusal.OutOfRange
        ∷ Refusal.TooLong ∷ Refusal.TooShort ∷ []) ≡ 0x11 ∷ 0x12 ∷ 0x23 ∷ 0x30 ∷ 0x33 ∷ 0x34 ∷ [] }
    ensures event { DS_UPLOAD_REQUEST ≡ 0xFF91 }
    ensures parameters { MOST_PARAMETERS ≡ 70 }
{}

/// The page, the size and the checksum of the device with the parameters 0040.00 = 0A 64 and 0041.01 = 7F.
pub fn the_device()
    ensures page { page_of example_device ≡ 0x00 ∷ 0x00 ∷ 0x17 ∷ 0x01 ∷ 0x11 ∷ 0x00 ∷ 0x00 ∷ 0x01 ∷ 0xF4
        ∷ 0x00 ∷ 0xAB ∷ 0xCD ∷ 0x00 ∷ 0x00 ∷ 0x00 ∷ 0x00 ∷ [] }
    ensures no_isdu { page_of (record example_device { isdu = false }) ≡ 0x00 ∷ 0x00 ∷ 0x17 ∷ 0x00 ∷ 0x11 ∷ 0x00
        ∷ 0x00 ∷ 0x01 ∷ 0xF4 ∷ 0x00 ∷ 0xAB ∷ 0xCD ∷ 0x00 ∷ 0x00 ∷ 0x00 ∷ 0x00 ∷ [] }
    ensures size { octets_of example_device.parameters ≡ 0x0B }
    ensures checksum { checksum_of example_device.parameters ≡ 0x24F }
{}

/// The values that are read from its Data Storage object.
pub fn the_object()
    ensures size { object_read example_device 3 ≡ Ok (0x00 ∷ 0x00 ∷ 0x00 ∷ 0x0B ∷ []) }
    ensures checksum { object_read example_device 4 ≡ Ok (0x00 ∷ 0x00 ∷ 0x02 ∷ 0x4F ∷ []) }
    ensures list { object_read example_device 5
        ≡ Ok (0x00 ∷ 0x40 ∷ 0x00 ∷ 0x00 ∷ 0x41 ∷ 0x01 ∷ 0x00 ∷ 0x00 ∷ []) }
    ensures command { object_read example_device 1 ≡ Err Refusal.AccessDenied }
    ensures none { map (object_read example_device) (0 ∷ 6 ∷ 255 ∷ [])
        ≡ Err Refusal.NoSubindex ∷ Err Refusal.NoSubindex ∷ Err Refusal.NoSubindex ∷ [] }
    ensures state { object_read (in_state state.Locked true) 2 ≡ Ok (0x86 ∷ []) }
{}

/// State_Property in each state, without the flag and with it.
pub fn properties()
    ensures states { map (λ state. property_octet (in_state state false))
        (state.Inactive ∷ state.Upload ∷ state.Download ∷ state.Locked ∷ []) ≡ 0x00 ∷ 0x02 ∷ 0x04 ∷ 0x06 ∷ [] }
    ensures flags { map (λ state. property_octet (in_state state true))
        (state.Inactive ∷ state.Upload ∷ state.Download ∷ state.Locked ∷ []) ≡ 0x80 ∷ 0x82 ∷ 0x84 ∷ 0x86 ∷ [] }
{}

/// A lost device keeps its parameters, its flag and the state Locked, but no other state and no event.
pub fn lost_devices()
    ensures states { map (λ state. (lost_device (in_state state true)).state)
        (state.Inactive ∷ state.Upload ∷ state.Download ∷ state.Locked ∷ [])
        ≡ state.Inactive ∷ state.Inactive ∷ state.Inactive ∷ state.Locked ∷ [] }
    ensures flags { map (λ flag. lost_device (in_state state.Upload flag)) (false ∷ true ∷ [])
        ≡ in_state state.Inactive false ∷ in_state state.Inactive true ∷ [] }
    ensures event { lost_device (raised example_device) ≡ in_state state.Inactive true }
{}

/// The effect of each DS_Command, from 01 to 05, on a device: both ends clear the flag, and DS_Break leaves it.
pub fn commands()
    ensures upload { map (λ octet. commanded (in_state state.Upload true) (octet ∷ [])) (0x01 ∷ 0x02 ∷ 0x05 ∷ [])
        ≡ Ok (in_state state.Upload true) ∷ Ok (in_state state.Inactive false) ∷ Ok (in_state state.Inactive true) ∷ [] }
    ensures download { map (λ octet. commanded (in_state state.Download true) (octet ∷ [])) (0x03 ∷ 0x04 ∷ 0x05 ∷ [])
        ≡ Ok (in_state state.Download true) ∷ Ok (in_state state.Inactive false) ∷ Ok (in_state state.Inactive true) ∷ [] }
    ensures begin { map (λ octet. commanded (in_state state.Inactive true) (octet ∷ [])) (0x01 ∷ 0x03 ∷ [])
        ≡ Ok (in_state state.Upload true) ∷ Ok (in_state state.Download true) ∷ [] }
    ensures unknown { map (λ octet. commanded example_device (octet ∷ [])) (0x00 ∷ 0x06 ∷ 0xFF ∷ [])
        ≡ Err Refusal.OutOfRange ∷ Err Refusal.OutOfRange ∷ Err Refusal.OutOfRange ∷ [] }
    ensures count { map (commanded example_device) ([] ∷ (0x01 ∷ 0x01 ∷ []) ∷ [])
        ≡ Err Refusal.OutOfRange ∷ Err Refusal.OutOfRange ∷ [] }
{}

/// A device checks that it is locked before it checks the command: if locked, it refuses every command, known or not.
pub fn locked_devices()
    ensures known { map (λ octet. commanded (in_state state.Locked true) (octet ∷ [])) (0x01 ∷ 0x02 ∷ 0x05 ∷ [])
        ≡ Err Refusal.AccessDenied ∷ Err Refusal.AccessDenied ∷ Err Refusal.AccessDenied ∷ [] }
    ensures unknown { map (commanded (in_state state.Locked true)) ([] ∷ (0x00 ∷ []) ∷ (0x01 ∷ 0x01 ∷ []) ∷ [])
        ≡ Err Refusal.AccessDenied ∷ Err Refusal.AccessDenied ∷ Err Refusal.AccessDenied ∷ [] }
{}

/// DS_Command is the only part of the Data Storage object that can be written.
pub fn writes_of_the_object()
    ensures command { object_written example_device 1 (0x01 ∷ []) ≡ Ok (in_state state.Upload false) }
    ensures read_only { map (λ subindex. object_written example_device subindex (0x01 ∷ [])) (2 ∷ 3 ∷ 4 ∷ 5 ∷ [])
        ≡ Err Refusal.AccessDenied ∷ Err Refusal.AccessDenied ∷ Err Refusal.AccessDenied ∷ Err Refusal.AccessDenied ∷ [] }
    ensures none { map (λ subindex. object_written example_device subindex (0x01 ∷ [])) (0 ∷ 6 ∷ 255 ∷ [])
        ≡ Err Refusal.NoSubindex ∷ Err Refusal.NoSubindex ∷ Err Refusal.NoSubindex ∷ [] }
    ensures locked { object_written (in_state state.Locked false) 2 (0x01 ∷ []) ≡ Err Refusal.AccessDenied }
{}

/// A parameter is read and written with exactly the octets that it has, and no other key is known.
pub fn values()
    ensures read { map (read_of example_device) (key 0x0040 0 ∷ key 0x0041 1 ∷ []) ≡ Ok (0x0A ∷ 0x64 ∷ []) ∷ Ok (0x7F ∷ []) ∷ [] }
    ensures unread { map (read_of example_device) (key 0x0040 1 ∷ key 0x0041 0 ∷ key 0x0002 0 ∷ [])
        ≡ Err Refusal.NoIndex ∷ Err Refusal.NoIndex ∷ Err Refusal.NoIndex ∷ [] }
    ensures written { write_of example_device (key 0x0040 0) (0x01 ∷ 0x02 ∷ []) ≡ Ok (with_first (0x01 ∷ 0x02 ∷ [])) }
    ensures long { write_of example_device (key 0x0040 0) (0x01 ∷ 0x02 ∷ 0x03 ∷ []) ≡ Err Refusal.TooLong }
    ensures short { map (write_of example_device (key 0x0040 0)) ([] ∷ (0x01 ∷ []) ∷ [])
        ≡ Err Refusal.TooShort ∷ Err Refusal.TooShort ∷ [] }
    ensures unknown { map (λ key. write_of example_device key (0x01 ∷ [])) (key 0x0042 1 ∷ key 0x0041 0 ∷ key 0x0000 0 ∷ [])
        ≡ Err Refusal.NoIndex ∷ Err Refusal.NoIndex ∷ Err Refusal.NoIndex ∷ [] }
    ensures object { write_of example_device (key DATA_STORAGE 1) (0x03 ∷ []) ≡ Ok (in_state state.Download false) }
{}

/// The answer to a request, if it is carried out and if it is refused.
pub fn answers()
    ensures read { respond example_device (request.Read 0x0041 1) ≡ (answer.ReadOk (record { items = 0x7F ∷ [] }), example_device) }
    ensures read_refused { respond example_device (request.Read 0x0042 0) ≡ (answer.ReadFault 0x80 0x11, example_device) }
    ensures written { respond example_device (request.Write 0x0003 1 (record { items = 0x03 ∷ [] }))
        ≡ (answer.WriteOk, in_state state.Download false) }
    ensures write_refused { respond example_device (request.Write 0x0040 0 (record { items = 0x01 ∷ [] }))
        ≡ (answer.WriteFault 0x80 0x34, example_device) }
    ensures no_request { (answer : List ℕ) (new : Device) → Answers example_device [] answer new → answer ≡ 0x00 ∷ [] }
{}

/// A change at the device itself, also at a locked one, sets the flag and raises the event FF91, which is reported once.
pub fn changes()
    ensures changed { change_of example_device (key 0x0040 0) (0x01 ∷ 0x02 ∷ []) ≡ Ok (raised (with_first (0x01 ∷ 0x02 ∷ []))) }
    ensures flag { (raised example_device).flag ≡ true }
    ensures told { map told (raised example_device ∷ example_device ∷ []) ≡ Some 0xFF91 ∷ None ∷ [] }
    ensures then { after_told (raised example_device) ≡ in_state state.Inactive true }
    ensures refused { map (change_of example_device (key 0x0041 1)) ([] ∷ (0x01 ∷ 0x02 ∷ []) ∷ [])
        ≡ Err Refusal.TooShort ∷ Err Refusal.TooLong ∷ [] }
    ensures unknown { change_of example_device (key 0x0003 1) (0x01 ∷ []) ≡ Err Refusal.NoIndex }
    ensures locked { change_of (in_state state.Locked false) (key 0x0041 1) (0x7F ∷ []) ≡ Ok (raised (in_state state.Locked false)) }
{}

/// A checksum above 2^31 is kept, and one of 2^32 or more wraps: 255 times the places 1 to 4,640, and 1 to 16,240.
pub fn checksums()
    ensures stays { checksum_of (alike 20 (replicate 232 0xFF)) ≡ 0xA3A6C4F0 }
    ensures wraps { checksum_of (alike 70 (replicate 232 0xFF)) ≡ 0xD46BEFC8 }
{}

/// The reason why a parameter is not added to others: the first cause.
pub fn added_parameters()
    ensures reserved { map (λ index. add_fault [] (key index 9) (replicate 233 0x00)) (0x0000 ∷ 0x0002 ∷ 0x0003 ∷ [])
        ≡ Some DeviceFault.ReservedKey ∷ Some DeviceFault.ReservedKey ∷ Some DeviceFault.ReservedKey ∷ [] }
    ensures long { map (λ count. add_fault [] (key 1 0) (replicate count 0x00)) (0 ∷ 232 ∷ 233 ∷ [])
        ≡ None ∷ None ∷ Some DeviceFault.TooLong ∷ [] }
    ensures duplicate { map (λ key. add_fault example_device.parameters key []) (key 0x0040 0 ∷ key 0x0040 1 ∷ [])
        ≡ Some DeviceFault.Duplicate ∷ None ∷ [] }
    ensures many { map (λ count. add_fault (alike count []) (key 2000 0) []) (69 ∷ 70 ∷ []) ≡ None ∷ Some DeviceFault.TooMany ∷ [] }
    ensures order { map (add_fault (alike 70 []) (key 1 0)) ([] ∷ replicate 233 0x00 ∷ [])
        ≡ Some DeviceFault.Duplicate ∷ Some DeviceFault.TooLong ∷ [] }
{}

/// A visit with two answers is over after two, and its event comes after the number of answers that it says.
pub fn visits()
    ensures at_once { (visit_of example_device (Some 2) (Some 0)).device.event ≡ true }
    ensures later { (visit_of example_device (Some 2) (Some 1)).device.event ≡ false }
    ensures then { (after_answer (visit_of example_device (Some 2) (Some 1)) example_device).device.event ≡ true }
    ensures left { (after_answer (visit_of example_device (Some 2) None) example_device).answers ≡ Some 1 }
    ensures over { map (λ answers. has_answer (visit_of example_device answers None)) (Some 0 ∷ Some 1 ∷ None ∷ [])
        ≡ false ∷ true ∷ true ∷ [] }
    ensures once { (after_answer (visit_of example_device None (Some 0)) example_device).device.event ≡ false }
{}

/// A loss increments the connection and makes the next device present, if there is one. On the last connection there is
/// none.
pub fn connections()
    ensures counted { map (λ place. (after_loss (link_at place 7)).connection) (0 ∷ 1 ∷ []) ≡ 8 ∷ 8 ∷ [] }
    ensures next { map (λ place. (after_loss (link_at place 7)).place) (0 ∷ 1 ∷ []) ≡ 1 ∷ 1 ∷ [] }
    ensures there { map (λ place. present (link_at place 7)) (0 ∷ 1 ∷ []) ≡ Some (visit_of example_device None None) ∷ None ∷ [] }
    ensures last { after_loss (link_at 0 last_connection) ≡ link_at 0 last_connection }
    ensures gone { present (link_at 0 last_connection) ≡ None }
    ensures greatest { last_connection ≡ 18446744073709551615 }
{}

/// A loss increments the connection of a link with given answers, up to the last one, and drops its page and its events.
pub fn script_connections()
    ensures counted { lost (script_at 7) ≡ record (script_at 8) { page = None; events = [] } }
    ensures last { map (λ number. (lost (script_at number)).connection) (0 ∷ 18446744073709551614 ∷ 18446744073709551615 ∷ [])
        ≡ 1 ∷ 18446744073709551615 ∷ 18446744073709551615 ∷ [] }
{}
