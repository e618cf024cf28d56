//! Worked examples of what scripts say, evaluated by the check: they catch a number that is wrong both in a definition and
//! in the code.

ghost use Rattle.std.specs.Prelude.{◌≡◌, pos, negsuc, true, false, [], ◌∷◌, map, replicate, codes, Some, None};
ghost use Rattle.toml.specs.Data.{integer, string, member, no_members};
ghost use Rattle.iol_disk.specs.declared.fault.DiskFault.TheVariants as disk_call;
ghost use Rattle.iol_disk.specs.declared.pick.Pick.TheVariants as pick;
ghost use Rattle.iol_script.specs.Number.{octet_of, calls_of, times_of, port_in, vendor_in, device_in};
ghost use Rattle.iol_script.specs.Parameter.{key_of, octets_in};
ghost use Rattle.iol_script.specs.Step.{change_of_kind, clear_in, label_or_none};
ghost use Rattle.iol_script.specs.Parameters.{of_device};
ghost use Rattle.iol_script.specs.Fail.{kind_of, call_in};
ghost use Rattle.iol_script.specs.Stop.{keep_of};
ghost use Rattle.iol_script.specs.Script.{IsText, said_in, is_port_of, fits_ports};
ghost use Rattle.iol_script.specs.Examples.{numbers, empty_at, empty_from, said_at, blanks, example_script, example_text, full_script};
ghost use Rattle.iol_script.specs.Examples.{full_text, live_script, live_text};
ghost use Rattle.iol_script.specs.LiveScript.{change_by, live_in};
ghost use Rattle.iol_script.specs.declared.step.Step.TheVariants.{Port, Flush, Drain};
ghost use Rattle.iol_types.specs.declared.command.Change.TheVariants as change;

use crate::device::USUAL_REVISION;

/// `times` is 1 to 10,000, or 1 if it is missing.
pub fn times()
    ensures absent { times_of None ≡ Some 1 }
    ensures said { map (λ number. times_of (Some (integer number))) (negsuc 0 ∷ pos 0 ∷ pos 1 ∷ pos 10000 ∷ pos 10001 ∷ [])
        ≡ None ∷ None ∷ Some 1 ∷ Some 10000 ∷ None ∷ [] }
{}

/// `revision` is 0 to 255, or 17 if it is missing.
pub fn revisions()
    ensures absent { octet_of USUAL_REVISION None ≡ Some 0x11 }
    ensures said { map (λ number. octet_of USUAL_REVISION (Some (integer number))) (negsuc 0 ∷ pos 0 ∷ pos 255 ∷ pos 256 ∷ [])
        ≡ None ∷ Some 0 ∷ Some 255 ∷ None ∷ [] }
{}

/// A number of calls is 0 to 2^63 - 1. If `answers` is missing, a device answers all calls.
pub fn calls()
    ensures absent { calls_of None ≡ Some None }
    ensures said { map (λ number. calls_of (Some (integer number))) (negsuc 0 ∷ pos 0 ∷ pos 9223372036854775807 ∷ [])
        ≡ None ∷ Some (Some 0) ∷ Some (Some 9223372036854775807) ∷ [] }
{}

/// A port number is 1 to 32, a VendorID 0 to 65,535, and a DeviceID 0 to 16,777,215.
pub fn identities()
    ensures ports { map (λ number. port_in (said_at (codes "port") number)) (negsuc 0 ∷ pos 0 ∷ pos 1 ∷ pos 32 ∷ pos 33 ∷ [])
        ≡ None ∷ None ∷ Some 1 ∷ Some 32 ∷ None ∷ [] }
    ensures vendors { map (λ number. vendor_in (said_at (codes "vendor") number)) (negsuc 0 ∷ pos 0 ∷ pos 65535 ∷ pos 65536 ∷ [])
        ≡ None ∷ Some 0 ∷ Some 65535 ∷ None ∷ [] }
    ensures devices { map (λ number. device_in (said_at (codes "device") number)) (negsuc 0 ∷ pos 0 ∷ pos 16777215 ∷ pos 16777216 ∷ [])
        ≡ None ∷ Some 0 ∷ Some 16777215 ∷ None ∷ [] }
    ensures missing { map vendor_in (said_at (codes "device") (pos 1) ∷ said_at (codes "Vendor") (pos 1) ∷ []) ≡ None ∷ None ∷ [] }
{}

/// A stop keeps what one of four words says.
pub fn words_of_a_stop()
    ensures words { map keep_of (codes "old" ∷ codes "new" ∷ codes "zero" ∷ codes "pattern" ∷ [])
        ≡ Some pick.Old ∷ Some pick.New ∷ Some pick.Zero ∷ Some pick.Pattern ∷ [] }
    ensures others { map keep_of (codes "" ∷ codes "Old" ∷ codes "news" ∷ codes "zer" ∷ []) ≡ None ∷ None ∷ None ∷ None ∷ [] }
{}

/// A failing call is one of three words, a space, and a number of 1 to 1,000,000 without sign or leading zero.
pub fn failing_calls()
    ensures words { map kind_of (codes "read" ∷ codes "write" ∷ codes "sync" ∷ codes "Read" ∷ codes "" ∷ [])
        ≡ Some disk_call.Read ∷ Some disk_call.Write ∷ Some disk_call.Sync ∷ None ∷ None ∷ [] }
    ensures least { call_in (codes "read 1") ≡ Some (record { kind = disk_call.Read; number = 1 }) }
    ensures greatest { call_in (codes "sync 1000000") ≡ Some (record { kind = disk_call.Sync; number = 1000000 }) }
    ensures outside { map call_in (codes "write 0" ∷ codes "write 1000001" ∷ codes "write -1" ∷ []) ≡ None ∷ None ∷ None ∷ [] }
    ensures spelled { map call_in (codes "write 01" ∷ codes "write +1" ∷ codes "write 1_0" ∷ codes "write 0x1" ∷ [])
        ≡ None ∷ None ∷ None ∷ None ∷ [] }
    ensures spaced { map call_in (codes "write" ∷ codes "write1" ∷ codes "write  1" ∷ codes "write 1 " ∷ codes " write 1" ∷ [])
        ≡ None ∷ None ∷ None ∷ None ∷ None ∷ [] }
{}

/// A key is an Index of two octets, other than 0000, 0002 and 0003, and a Subindex of one octet.
pub fn keys()
    ensures least { key_of (numbers (pos 1 ∷ pos 0 ∷ [])) ≡ Some (record { index = 1; subindex = 0 }) }
    ensures greatest { key_of (numbers (pos 65535 ∷ pos 255 ∷ [])) ≡ Some (record { index = 65535; subindex = 255 }) }
    ensures above { map key_of (numbers (pos 65536 ∷ pos 0 ∷ []) ∷ numbers (pos 1 ∷ pos 256 ∷ []) ∷ []) ≡ None ∷ None ∷ [] }
    ensures below { map key_of (numbers (negsuc 0 ∷ pos 0 ∷ []) ∷ numbers (pos 1 ∷ negsuc 0 ∷ []) ∷ []) ≡ None ∷ None ∷ [] }
    ensures count { map key_of (numbers [] ∷ numbers (pos 1 ∷ []) ∷ numbers (pos 1 ∷ pos 0 ∷ pos 0 ∷ []) ∷ [])
        ≡ None ∷ None ∷ None ∷ [] }
    ensures reserved { map key_of (numbers (pos 0 ∷ pos 0 ∷ []) ∷ numbers (pos 2 ∷ pos 0 ∷ []) ∷ numbers (pos 3 ∷ pos 5 ∷ []) ∷ [])
        ≡ None ∷ None ∷ None ∷ [] }
{}

/// Octets are written as pairs of hexadecimal digits of either case; there may be none.
pub fn octets()
    ensures cases { octets_in (codes "0A64fFbC") ≡ Some (0x0A ∷ 0x64 ∷ 0xFF ∷ 0xBC ∷ []) }
    ensures none { octets_in [] ≡ Some [] }
    ensures odd { octets_in (codes "0A6") ≡ None }
    ensures space { octets_in (codes "0A 64") ≡ None }
    ensures letter { octets_in (codes "0G") ≡ None }
{}

/// A value has 0 to 232 octets.
pub fn lengths()
    ensures longest { octets_in (replicate 464 48) ≡ Some (replicate 232 0x00) }
    ensures longer { octets_in (replicate 466 48) ≡ None }
{}

/// A device has 0 to 70 parameters.
pub fn counts()
    ensures none { of_device [] ≡ Some [] }
    ensures most { of_device (empty_from 64 70) ≡ Some (empty_from 64 70) }
    ensures more { of_device (empty_from 64 71) ≡ None }
{}

/// A device has each key at most once; keys that differ in one number are two keys.
pub fn distinct_keys()
    ensures twice { of_device (empty_at 64 0 ∷ empty_at 65 0 ∷ empty_at 64 0 ∷ []) ≡ None }
    ensures near { of_device (empty_at 64 0 ∷ empty_at 65 0 ∷ empty_at 64 1 ∷ [])
        ≡ Some (empty_at 64 0 ∷ empty_at 65 0 ∷ empty_at 64 1 ∷ []) }
{}

/// The ports of a script are 1 to `ports`; if `ports` is 0 or less, there are none.
pub fn ports()
    ensures two { map (is_port_of (pos 2)) (1 ∷ 2 ∷ 3 ∷ []) ≡ true ∷ true ∷ false ∷ [] }
    ensures none { is_port_of (pos 0) 1 ≡ false }
    ensures negative { is_port_of (negsuc 1) 1 ≡ false }
    ensures script { fits_ports example_script ≡ true }
    ensures fewer { fits_ports (record example_script { ports = pos 0 }) ≡ false }
    ensures steps { fits_ports (record example_script { ports = pos 0; devices = [] }) ≡ false }
{}

/// A label is a text of 0 to 32 printable octets without a quotation mark. A missing label is empty; no other type is a label.
pub fn labels()
    ensures texts { map (λ text. label_or_none (Some (string text))) ([] ∷ codes "Pump 3" ∷ replicate 32 65 ∷ [])
        ≡ Some [] ∷ Some (codes "Pump 3") ∷ Some (replicate 32 65) ∷ [] }
    ensures refused { map (λ text. label_or_none (Some (string text))) (replicate 33 65 ∷ codes "\"" ∷ (31 ∷ []) ∷ (127 ∷ []) ∷ [])
        ≡ None ∷ None ∷ None ∷ None ∷ [] }
    ensures missing { label_or_none None ≡ Some [] }
    ensures no_text { label_or_none (Some (integer (pos 7))) ≡ None }
    ensures of_a_clear { clear_in (member (codes "label") (string []) (member (codes "port") (integer (pos 1)) no_members)) ≡ None }
{}

/// A whole script, with a device and steps of its port and of the flusher.
pub fn a_script()
    ensures { said_in example_text ≡ Some example_script }
{}

/// A whole script, in which each key of a device and of a step has a value other than its default.
pub fn a_full_script()
    ensures { said_in full_text ≡ Some full_script }
{}

/// A whole script for a master that runs in threads: its numbers and its failing call are not read, and may be missing.
pub fn a_live_script()
    ensures said { live_in live_text ≡ Some live_script }
    ensures no_numbers { live_in (codes "step = [{ do = \"clear\", port = 2 }]\n")
        ≡ Some (record { devices = []; changes = change.Clear 2 ∷ [] }) }
    ensures no_key { live_in (codes "port = 2\n") ≡ None }
{}

/// A client's commands that name only a port are of two kinds. A configuration needs more keys, and a kind is spelled in one way.
pub fn changes_of_a_port()
    ensures { map (λ kind. change_of_kind kind (said_at (codes "port") (pos 2)))
        (codes "clear" ∷ codes "rollback" ∷ codes "configure" ∷ codes "Clear" ∷ codes "port" ∷ [])
        ≡ Some (change.Clear 2) ∷ Some (change.Rollback 2) ∷ None ∷ None ∷ None ∷ [] }
{}

/// A step of a port or of the flusher, a drain and a stop are not steps of a client.
pub fn steps_of_no_client()
    ensures steps { map change_by (Port 1 1 ∷ Flush 1 ∷ Drain ∷ []) ≡ None ∷ None ∷ None ∷ [] }
    ensures stop { live_in (codes "step = [{ do = \"stop\", keep = \"new\" }]\n") ≡ None }
    ensures drain { live_in (codes "step = [{ do = \"clear\", port = 2 }, { do = \"drain\" }]\n") ≡ None }
{}

/// A script may have 65,536 octets, but not one more.
pub fn text_lengths()
    ensures longest { IsText (blanks 65536) }
    ensures longer { IsText (blanks 65537) → ⊥ }
{}
