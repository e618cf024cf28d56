//! Facts with values from the standard and the crate's formats, computed by the proof check: a number that is
//! wrong both in a definition and in the code is refused here.

ghost use Rattle.std.specs.Prelude.{◌≡◌, ℕ, [], ◌∷◌, ◌++◌, length, map, replicate, codes, true, false};
ghost use Rattle.iol_types.specs.Numbers.{IsPortNumber, IsDeviceNumber};
ghost use Rattle.iol_types.specs.Config.{mode_octet, mode_of, validation_octet, validation_of, IsConfig};
ghost use Rattle.iol_types.specs.Config.{may_store_set, may_keep_set, keeps_set};
ghost use Rattle.iol_types.specs.Label.{is_label_octet, is_label};
ghost use Rattle.iol_types.specs.Command.{Configure, Clear, Store, Rollback, IsCommand, command_of, port_asked, set_in};
ghost use Rattle.iol_types.specs.DataSet.{IsEntry, AreEntries, IsSet, octets_of, data_at, add_fault};
ghost use Rattle.iol_types.specs.Parts.{parts_of};
ghost use Rattle.iol_types.specs.State.{IsPort, empty_state, port_numbered, may_have, may_stand, check, apply, after, legal};
ghost use Rattle.iol_types.specs.Examples.{example_config, example_set, sevens, nearly_full, example_stored};
ghost use Rattle.iol_types.specs.Examples.{example_port, newer_stored, renewed_port, port_of, one_port};
ghost use Rattle.iol_types.specs.declared.config.PortConfig.{PortConfig};
ghost use Rattle.iol_types.specs.Key.{IsKey, is_reserved};
ghost use Rattle.iol_types.specs.declared.key.TheConstants.{DIRECT_PARAMETER_PAGE, SYSTEM_COMMAND, DATA_STORAGE};
ghost use Rattle.iol_types.specs.declared.data_set.TheConstants.{MOST_ENTRY_OCTETS, ENTRY_HEAD_OCTETS, MOST_SET_OCTETS};
ghost use Rattle.iol_types.specs.declared.parts.TheConstants.{PART_OCTETS};
ghost use Rattle.iol_types.specs.declared.port_id.TheConstants.{PORTS};

use crate::command::{Change, CommandFault};
use crate::config::{PortMode, Validation};
use crate::set_builder::AddFault;

/// A port has a number from 1 to 32.
pub fn port_numbers()
    ensures ports { PORTS ≡ 32 }
    ensures first { IsPortNumber 1 }
    ensures last { IsPortNumber 32 }
    ensures below { ¬ IsPortNumber 0 }
    ensures above { ¬ IsPortNumber 33 }
{}

/// A DeviceID is below 2^24.
pub fn device_numbers()
    ensures first { IsDeviceNumber 0 }
    ensures last { IsDeviceNumber 16777215 }
    ensures above { ¬ IsDeviceNumber 16777216 }
{}

/// The octets of DEACTIVATED, IOL_MANUAL, IOL_AUTOSTART, DI_C/Q and DO_C/Q are 0 to 4.
pub fn modes()
    ensures written { map mode_octet (PortMode.Deactivated ∷ PortMode.IolManual
        ∷ PortMode.IolAutostart ∷ PortMode.DigitalInput ∷ PortMode.DigitalOutput ∷ [])
        ≡ 0 ∷ 1 ∷ 2 ∷ 3 ∷ 4 ∷ [] }
    ensures read { map mode_of (0 ∷ 1 ∷ 2 ∷ 3 ∷ 4 ∷ [])
        ≡ map Some (PortMode.Deactivated ∷ PortMode.IolManual ∷ PortMode.IolAutostart
        ∷ PortMode.DigitalInput ∷ PortMode.DigitalOutput ∷ []) }
    ensures above { mode_of 5 ≡ None }
{}

/// The octets of the validations are 0 for no check, 1 for type compatible V1.0, 2 for type compatible V1.1, 3 for
/// V1.1 with Backup and Restore, and 4 for V1.1 with Restore.
pub fn validations()
    ensures written { map validation_octet (Validation.NoCheck ∷ Validation.TypeCompatibleV10
        ∷ Validation.TypeCompatibleV11 ∷ Validation.BackupAndRestore ∷ Validation.Restore ∷ [])
        ≡ 0 ∷ 1 ∷ 2 ∷ 3 ∷ 4 ∷ [] }
    ensures read { map validation_of (0 ∷ 1 ∷ 2 ∷ 3 ∷ 4 ∷ [])
        ≡ map Some (Validation.NoCheck ∷ Validation.TypeCompatibleV10
        ∷ Validation.TypeCompatibleV11 ∷ Validation.BackupAndRestore ∷ Validation.Restore ∷ []) }
    ensures above { validation_of 5 ≡ None }
{}

/// A port at revision 2^64 - 1 accepts no configuration; one at 2^64 - 2 accepts one more.
pub fn last_revisions()
    ensures spent { (old new : PortConfig) → check (one_port old 18446744073709551615) (Configure 1 new)
        ≡ Some CommandFault.RevisionSpent }
    ensures passes { (old new : PortConfig)
        → check (one_port old 18446744073709551614) (Configure 1 new) ≡ None }
    ensures next { (old new : PortConfig) → apply (one_port old 18446744073709551614) (Configure 1 new)
        ≡ one_port new 18446744073709551615 }
{}

/// A VendorID has two octets, an Index two, and a Subindex one.
pub fn ranges()
    ensures config { IsConfig (record example_config { vendor = 65535; device = 16777215; label = replicate 32 126 }) }
    ensures vendor { ¬ IsConfig (record example_config { vendor = 65536 }) }
    ensures device { ¬ IsConfig (record example_config { device = 16777216 }) }
    ensures label { ¬ IsConfig (record example_config { label = replicate 33 126 }) }
    ensures key { IsKey (record { index = 65535; subindex = 255 }) }
    ensures index { ¬ IsKey (record { index = 65536; subindex = 0 }) }
    ensures subindex { ¬ IsKey (record { index = 64; subindex = 256 }) }
{}

/// A label has 0 to 32 octets, each from 20 to 7E except 22.
pub fn what_is_a_label()
    ensures labels { map is_label ([] ∷ codes "P" ∷ codes "Pump 3" ∷ codes "\\ & < ~" ∷ replicate 32 32 ∷ [])
        ≡ true ∷ true ∷ true ∷ true ∷ true ∷ [] }
    ensures too_long { is_label (replicate 33 32) ≡ false }
    ensures octets { map is_label_octet (0x1F ∷ 0x20 ∷ 0x21 ∷ 0x22 ∷ 0x23 ∷ 0x7E ∷ 0x7F ∷ 0xFF ∷ [])
        ≡ false ∷ true ∷ true ∷ false ∷ true ∷ true ∷ false ∷ false ∷ [] }
    ensures last { is_label (codes "Pump \"") ≡ false }
{}

/// Of the five modes, only IOL_MANUAL may store a set or have one. Of the five validations, only Backup and
/// Restore may store one; that and Restore may have one.
pub fn rights_to_a_set()
    ensures modes_store { map (λ mode. may_store_set (record example_config { mode = mode })) (PortMode.Deactivated
        ∷ PortMode.IolManual ∷ PortMode.IolAutostart ∷ PortMode.DigitalInput ∷ PortMode.DigitalOutput ∷ [])
        ≡ false ∷ true ∷ false ∷ false ∷ false ∷ [] }
    ensures modes_keep { map (λ mode. may_keep_set (record example_config { mode = mode })) (PortMode.Deactivated
        ∷ PortMode.IolManual ∷ PortMode.IolAutostart ∷ PortMode.DigitalInput ∷ PortMode.DigitalOutput ∷ [])
        ≡ false ∷ true ∷ false ∷ false ∷ false ∷ [] }
    ensures validations_store { map (λ validation. may_store_set (record example_config { validation = validation }))
        (Validation.NoCheck ∷ Validation.TypeCompatibleV10 ∷ Validation.TypeCompatibleV11
        ∷ Validation.BackupAndRestore ∷ Validation.Restore ∷ []) ≡ false ∷ false ∷ false ∷ true ∷ false ∷ [] }
    ensures validations_keep { map (λ validation. may_keep_set (record example_config { validation = validation }))
        (Validation.NoCheck ∷ Validation.TypeCompatibleV10 ∷ Validation.TypeCompatibleV11
        ∷ Validation.BackupAndRestore ∷ Validation.Restore ∷ []) ≡ false ∷ false ∷ false ∷ true ∷ true ∷ [] }
{}

/// A parameter set stays when the validation changes from Backup and Restore to Restore or back, and under the
/// same configuration. It does not stay under another vendor, device or mode, or if the new validation does not
/// restore.
pub fn sets_kept()
    ensures to_restore { keeps_set example_config (record example_config { validation = Validation.Restore }) ≡ true }
    ensures from_restore { keeps_set (record example_config { validation = Validation.Restore }) example_config ≡ true }
    ensures again { keeps_set example_config example_config ≡ true }
    ensures without_restore { keeps_set (record example_config { validation = Validation.Restore })
        (record example_config { validation = Validation.TypeCompatibleV11 }) ≡ false }
    ensures without_check { keeps_set example_config (record example_config { validation = Validation.NoCheck }) ≡ false }
    ensures another_vendor { keeps_set example_config (record example_config { vendor = 501 }) ≡ false }
    ensures another_device { keeps_set example_config (record example_config { device = 43982 }) ≡ false }
    ensures another_mode { keeps_set example_config (record example_config { mode = PortMode.IolAutostart }) ≡ false }
    ensures another_label { keeps_set example_config (record example_config { label = codes "Pump 3" }) ≡ true }
{}

/// A set does not stay if the old configuration may not have one.
pub fn sets_not_kept_from()
    ensures validation { keeps_set (record example_config { validation = Validation.TypeCompatibleV11 }) example_config ≡ false }
    ensures mode { keeps_set (record example_config { mode = PortMode.IolAutostart }) example_config ≡ false }
{}

/// A port may have a set that was taken under a configuration with Backup and Restore for the set's device, if the
/// set stays when this configuration is replaced by the present one. Each of these alone refuses it: a set of
/// another vendor or device, a set taken under Restore, another vendor in the present configuration.
pub fn rights_to_what_is_stored()
    ensures same { may_have example_config example_stored ≡ true }
    ensures restore { may_have (record example_config { validation = Validation.Restore }) example_stored ≡ true }
    ensures vendor { may_have example_config (record example_stored { set = record example_set { vendor = 501 } }) ≡ false }
    ensures device { may_have example_config (record example_stored { set = record example_set { device = 43982 } }) ≡ false }
    ensures recorded { may_have example_config
        (record example_stored { recorded = record example_config { validation = Validation.Restore } }) ≡ false }
    ensures since { may_have (record example_config { vendor = 501 }) example_stored ≡ false }
{}

/// A port may have two sets, one or none, but no previous set without a present one; each set is judged by itself.
pub fn what_may_stand()
    ensures counts { may_stand example_config None None ∷ may_stand example_config None (Some example_stored)
        ∷ may_stand example_config (Some example_stored) None ∷ may_stand example_config (Some newer_stored) (Some example_stored) ∷ []
        ≡ true ∷ false ∷ true ∷ true ∷ [] }
    ensures present { may_stand (record example_config { vendor = 501 }) (Some example_stored) None ≡ false }
    ensures previous { may_stand example_config (Some newer_stored)
        (Some (record example_stored { recorded = record example_config { validation = Validation.Restore } })) ≡ false }
    ensures before { may_stand example_config
        (Some (record newer_stored { recorded = record example_config { validation = Validation.Restore } })) (Some example_stored)
        ≡ false }
{}

/// The ports of a new master are DEACTIVATED, and ports are numbered from 1.
pub fn new_ports()
    ensures empty { empty_state 2 ≡ replicate 2
        (port_of (record { mode = PortMode.Deactivated; validation = Validation.NoCheck; vendor = 0; device = 0; label = [] }) 0) }
    ensures first { port_numbered (example_port ∷ port_of example_config 2 ∷ []) 1 ≡ Some example_port }
    ensures second { port_numbered (example_port ∷ port_of example_config 2 ∷ []) 2 ≡ Some (port_of example_config 2) }
    ensures none_before { port_numbered (example_port ∷ []) 0 ≡ None }
    ensures none_after { port_numbered (example_port ∷ []) 2 ≡ None }
{}

/// A command for a port that the master does not have is refused; a Clear of an existing port passes, with a set
/// or without.
pub fn unknown_ports()
    ensures configure { check (example_port ∷ []) (Configure 2 example_config) ≡ Some CommandFault.UnknownPort }
    ensures clear { check (example_port ∷ []) (Clear 2) ≡ Some CommandFault.UnknownPort }
    ensures store { check (example_port ∷ []) (Store 2 1 example_set) ≡ Some CommandFault.UnknownPort }
    ensures rollback { check (renewed_port ∷ []) (Rollback 2) ≡ Some CommandFault.UnknownPort }
    ensures cleared { check (example_port ∷ []) (Clear 1) ≡ None }
    ensures blank { check (empty_state 1) (Clear 1) ≡ None }
{}

/// Configure gives a port the configuration and the next revision. Its sets stay, each with the configuration that
/// it was taken under, if the port keeps them, and are deleted otherwise. The other port stays as it is.
pub fn ports_configured()
    ensures kept { apply (example_port ∷ []) (Configure 1 (record example_config { validation = Validation.Restore }))
        ≡ record (port_of (record example_config { validation = Validation.Restore }) 2) { stored = Some example_stored } ∷ [] }
    // The set keeps the label under which it was taken.
    ensures called { apply (example_port ∷ []) (Configure 1 (record example_config { label = codes "Pump 3" }))
        ≡ record (port_of (record example_config { label = codes "Pump 3" }) 2) { stored = Some example_stored } ∷ [] }
    ensures deleted { apply (example_port ∷ []) (Configure 1 (record example_config { vendor = 501 }))
        ≡ one_port (record example_config { vendor = 501 }) 2 }
    ensures both_kept { apply (renewed_port ∷ []) (Configure 1 (record example_config { validation = Validation.Restore }))
        ≡ record renewed_port { config = record example_config { validation = Validation.Restore }; revision = 2 } ∷ [] }
    ensures both_again { apply (renewed_port ∷ []) (Configure 1 example_config) ≡ record renewed_port { revision = 2 } ∷ [] }
    ensures both_back { apply (record renewed_port { config = record example_config { validation = Validation.Restore } } ∷ [])
        (Configure 1 example_config) ≡ record renewed_port { revision = 2 } ∷ [] }
    ensures both_called { apply (renewed_port ∷ []) (Configure 1 (record example_config { label = codes "Pump 3" }))
        ≡ record renewed_port { config = record example_config { label = codes "Pump 3" }; revision = 2 } ∷ [] }
    ensures both_deleted { apply (renewed_port ∷ []) (Configure 1 (record example_config { validation = Validation.NoCheck }))
        ≡ one_port (record example_config { validation = Validation.NoCheck }) 2 }
    ensures one_of_two { apply (example_port ∷ example_port ∷ []) (Configure 2 (record example_config { device = 1 }))
        ≡ example_port ∷ one_port (record example_config { device = 1 }) 2 }
{}

/// Clear deletes the sets of its port, and leaves its configuration, its revision and the other port unchanged.
pub fn ports_cleared()
    ensures cleared { apply (example_port ∷ []) (Clear 1) ≡ one_port example_config 1 }
    ensures both { apply (renewed_port ∷ []) (Clear 1) ≡ one_port example_config 1 }
    ensures none { apply (one_port example_config 7) (Clear 1) ≡ one_port example_config 7 }
    ensures one_of_two { apply (example_port ∷ example_port ∷ []) (Clear 2) ≡ example_port ∷ one_port example_config 1 }
{}

/// A set is stored under IOL_MANUAL with Backup and Restore, at the port's revision, for its device; if several
/// causes hold, the first is reported.
pub fn sets_stored()
    ensures passes { check (one_port example_config 1) (Store 1 1 example_set) ≡ None }
    ensures not_allowed { check (one_port (record example_config { validation = Validation.Restore }) 2) (Store 1 1 example_set)
        ≡ Some CommandFault.NotAllowed }
    ensures another_mode { check (one_port (record example_config { mode = PortMode.IolAutostart }) 1) (Store 1 1 example_set)
        ≡ Some CommandFault.NotAllowed }
    ensures stale { check (one_port (record example_config { vendor = 501 }) 2) (Store 1 1 example_set) ≡ Some CommandFault.StaleRevision }
    ensures ahead { check (one_port example_config 1) (Store 1 2 example_set) ≡ Some CommandFault.StaleRevision }
    ensures wrong_vendor { check (one_port (record example_config { vendor = 501 }) 1) (Store 1 1 example_set)
        ≡ Some CommandFault.WrongDevice }
    ensures wrong_device { check (one_port (record example_config { device = 1 }) 1) (Store 1 1 example_set)
        ≡ Some CommandFault.WrongDevice }
{}

/// A stored set is recorded with the port's present configuration. The set stored before it becomes the previous
/// one, and the one before that is deleted. Neither the port's revision nor the other port changes.
pub fn sets_in_place()
    ensures first { apply (one_port example_config 1) (Store 1 1 example_set)
        ≡ record (port_of example_config 1) { stored = Some (record { set = example_set; recorded = example_config }) } ∷ [] }
    ensures again { apply (example_port ∷ []) (Store 1 1 newer_stored.set) ≡ renewed_port ∷ [] }
    ensures same_again { apply (renewed_port ∷ []) (Store 1 1 newer_stored.set)
        ≡ record example_port { stored = Some newer_stored; previous = Some newer_stored } ∷ [] }
    ensures once_more { apply (renewed_port ∷ []) (Store 1 1 (record example_set { checksum = 592 }))
        ≡ record example_port {
          stored = Some (record { set = record example_set { checksum = 592 }; recorded = example_config });
          previous = Some newer_stored;
        } ∷ [] }
    // A set keeps the label under which it was taken.
    ensures called { apply (record example_port { config = record example_config { label = codes "Pump 3" } } ∷ [])
        (Store 1 1 newer_stored.set)
        ≡ record example_port {
          config = record example_config { label = codes "Pump 3" };
          stored = Some (record newer_stored { recorded = record example_config { label = codes "Pump 3" } });
          previous = Some example_stored;
        } ∷ [] }
    ensures one_of_two { apply (port_of example_config 1 ∷ port_of example_config 1 ∷ []) (Store 2 1 example_set)
        ≡ port_of example_config 1 ∷ example_port ∷ [] }
{}

/// Rollback exchanges the two sets of its port, and leaves its configuration, its revision and the other port
/// unchanged; a second Rollback restores the sets. Without a previous set it is refused.
pub fn sets_exchanged()
    ensures passes { check (renewed_port ∷ []) (Rollback 1) ≡ None }
    ensures exchanged { apply (renewed_port ∷ []) (Rollback 1)
        ≡ record example_port { stored = Some example_stored; previous = Some newer_stored } ∷ [] }
    ensures twice { after (renewed_port ∷ []) (Rollback 1 ∷ Rollback 1 ∷ []) ≡ renewed_port ∷ [] }
    ensures one_of_two { apply (renewed_port ∷ renewed_port ∷ []) (Rollback 2)
        ≡ renewed_port ∷ record example_port { stored = Some example_stored; previous = Some newer_stored } ∷ [] }
    ensures one_set { check (example_port ∷ []) (Rollback 1) ≡ Some CommandFault.NoPrevious }
    ensures no_set { check (empty_state 1) (Rollback 1) ≡ Some CommandFault.NoPrevious }
    ensures cleared { check (apply (renewed_port ∷ []) (Clear 1)) (Rollback 1) ≡ Some CommandFault.NoPrevious }
    ensures last_revision { check (record renewed_port { revision = 18446744073709551615 } ∷ []) (Rollback 1) ≡ None }
    ensures under_restore { check (record renewed_port { config = record example_config { validation = Validation.Restore } } ∷ [])
        (Rollback 1) ≡ None }
    // Each set keeps the configuration that it was taken under.
    ensures with_labels { apply (record renewed_port {
      stored = Some (record newer_stored { recorded = record example_config { label = codes "Pump 3" } });
    } ∷ []) (Rollback 1)
        ≡ record example_port {
          stored = Some example_stored;
          previous = Some (record newer_stored { recorded = record example_config { label = codes "Pump 3" } });
        } ∷ [] }
{}

/// Each command is judged in the state that the commands before it leave.
pub fn commands_in_a_row()
    ensures legal { legal (empty_state 1) (Configure 1 example_config ∷ Store 1 1 example_set ∷ []) ≡ true }
    ensures later { legal (empty_state 1) (Store 1 1 example_set ∷ Configure 1 example_config ∷ []) ≡ false }
    ensures state { after (empty_state 1) (Configure 1 example_config ∷ Store 1 1 example_set ∷ []) ≡ example_port ∷ [] }
    ensures cleared { after (empty_state 1) (Configure 1 example_config ∷ Store 1 1 example_set ∷ Clear 1 ∷ [])
        ≡ one_port example_config 1 }
    ensures stored_twice { after (empty_state 1) (Configure 1 example_config ∷ Store 1 1 example_set ∷ Store 1 1 newer_stored.set ∷ [])
        ≡ renewed_port ∷ [] }
    ensures rolled_back { legal (empty_state 1)
        (Configure 1 example_config ∷ Store 1 1 example_set ∷ Store 1 1 newer_stored.set ∷ Rollback 1 ∷ []) ≡ true }
    ensures one_store { legal (empty_state 1) (Configure 1 example_config ∷ Store 1 1 example_set ∷ Rollback 1 ∷ []) ≡ false }
{}

/// A change becomes the command of the same kind, and only a Store carries a set.
pub fn words_of_commands()
    ensures configure { (config : PortConfig) → command_of (Change.Configure 1 config) ≡ Configure 1 config }
    ensures clear { command_of (Change.Clear 1) ≡ Clear 1 }
    ensures rollback { command_of (Change.Rollback 1) ≡ Rollback 1 }
    ensures ports { map port_asked (Change.Configure 1 example_config ∷ Change.Clear 2 ∷ Change.Rollback 3 ∷ []) ≡ 1 ∷ 2 ∷ 3 ∷ [] }
    ensures sets { map set_in (Configure 1 example_config ∷ Clear 1 ∷ Store 1 1 example_set ∷ Rollback 1 ∷ [])
        ≡ None ∷ None ∷ Some example_set ∷ None ∷ [] }
{}

/// The example set counts 11 octets. A reserved Index is refused before a length, and a length before a duplicate
/// key.
pub fn entries_added()
    ensures octets { octets_of example_set.entries ≡ 11 }
    ensures reserved { add_fault example_set.entries (record { index = 3; subindex = 1 }) (replicate 233 0) ≡ Some AddFault.ReservedKey }
    ensures too_long { add_fault example_set.entries (record { index = 64; subindex = 0 }) (replicate 233 0) ≡ Some AddFault.EntryTooLong }
    ensures duplicate { add_fault example_set.entries (record { index = 64; subindex = 0 }) [] ≡ Some AddFault.Duplicate }
    ensures another { add_fault example_set.entries (record { index = 64; subindex = 1 }) (replicate 232 0) ≡ None }
{}

/// Entries count at most 4,096 octets; a duplicate key is reported before a set that is too large.
pub fn full_sets()
    ensures octets { octets_of nearly_full ≡ 4012 }
    ensures fits { add_fault nearly_full (record { index = 65; subindex = 0 }) (replicate 80 0) ≡ None }
    ensures too_large { add_fault nearly_full (record { index = 65; subindex = 0 }) (replicate 81 0) ≡ Some AddFault.SetTooLarge }
    ensures duplicate { add_fault nearly_full (record { index = 64; subindex = 0 }) (replicate 81 0) ≡ Some AddFault.Duplicate }
{}

/// All values of a set are in range: an entry has at most 232 octets, and no key is reserved or occurs twice.
pub fn what_is_a_set()
    ensures set { IsSet example_set }
    ensures longest { IsEntry (record { index = 64; subindex = 0 }, replicate 232 0) }
    ensures too_long { ¬ IsEntry (record { index = 64; subindex = 0 }, replicate 233 0) }
    ensures reserved { ¬ IsEntry (record { index = 3; subindex = 0 }, []) }
    ensures too_large { ¬ AreEntries (nearly_full ++ (record { index = 65; subindex = 0 }, replicate 81 0) ∷ []) }
    ensures twice { ¬ AreEntries ((record { index = 65; subindex = 0 }, []) ∷ (record { index = 65; subindex = 0 }, []) ∷ []) }
    ensures vendor { ¬ IsSet (record example_set { vendor = 65536 }) }
    ensures device { ¬ IsSet (record example_set { device = 16777216 }) }
    ensures checksum { ¬ IsSet (record example_set { checksum = 4294967296 }) }
{}

/// A command names a port from 1 to 32, and its set is a valid one; a port may have the sets that are stored for
/// it.
pub fn what_is_a_command()
    ensures configure { IsCommand (Configure 32 example_config) }
    ensures clear { ¬ IsCommand (Clear 33) }
    ensures store { ¬ IsCommand (Store 1 18446744073709551616 example_set) }
    ensures rollback { IsCommand (Rollback 32) }
    ensures no_rollback { ¬ IsCommand (Rollback 33) }
    ensures port { IsPort example_port }
    ensures without_right { ¬ IsPort (record example_port { config = record example_config { vendor = 501 } }) }
    ensures previous_alone { ¬ IsPort (record example_port { stored = None; previous = Some example_stored }) }
{}

/// A look-up finds the octets of the entry with exactly this Index and Subindex.
pub fn octets_by_key()
    ensures first { data_at example_set.entries (record { index = 64; subindex = 0 }) ≡ Some (10 ∷ 100 ∷ []) }
    ensures second { data_at example_set.entries (record { index = 65; subindex = 1 }) ≡ Some (127 ∷ []) }
    ensures another_subindex { data_at example_set.entries (record { index = 64; subindex = 1 }) ≡ None }
    ensures another_index { data_at example_set.entries (record { index = 66; subindex = 1 }) ≡ None }
{}

/// The Indexes that no set holds: Direct Parameter page 1, the System Command, the Data Storage object.
pub fn reserved_indexes()
    ensures page { DIRECT_PARAMETER_PAGE ≡ 0 }
    ensures command { SYSTEM_COMMAND ≡ 2 }
    ensures storage { DATA_STORAGE ≡ 3 }
    ensures reserved { map (λ index. is_reserved (record { index = index; subindex = 9 })) (0 ∷ 1 ∷ 2 ∷ 3 ∷ 4 ∷ [])
        ≡ true ∷ false ∷ true ∷ true ∷ false ∷ [] }
{}

/// The limits of sets.
pub fn set_limits()
    ensures entry { MOST_ENTRY_OCTETS ≡ 232 }
    ensures head { ENTRY_HEAD_OCTETS ≡ 4 }
    ensures set { MOST_SET_OCTETS ≡ 4096 }
{}

/// A part has at most 512 octets of whole entries: after two entries of 232 octets, one of 36 fits, and one of 37
/// begins another part.
pub fn whole_entries()
    ensures limit { PART_OCTETS ≡ 512 }
    ensures none { parts_of [] ≡ [] }
    ensures spelled { parts_of example_set.entries
        ≡ (0 ∷ 64 ∷ 0 ∷ 2 ∷ 10 ∷ 100 ∷ 0 ∷ 65 ∷ 1 ∷ 1 ∷ 127 ∷ []) ∷ [] }
    ensures fits { map length (parts_of (replicate 2 (sevens 232) ++ sevens 36 ∷ [])) ≡ 512 ∷ [] }
    ensures begins { map length (parts_of (replicate 2 (sevens 232) ++ sevens 37 ∷ [])) ≡ 472 ∷ 41 ∷ [] }
{}

/// A set with 17 entries of 232 octets and one of 80 counts 4,096. Its entries fill nine parts: eight of 472
/// octets, and one of 320.
pub fn nine_parts()
    ensures counted { octets_of (nearly_full ++ sevens 80 ∷ []) ≡ 4096 }
    ensures parts { map length (parts_of (nearly_full ++ sevens 80 ∷ [])) ≡ replicate 8 472 ++ 320 ∷ [] }
{}
