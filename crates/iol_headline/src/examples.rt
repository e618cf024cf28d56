//! A worked example: port 1 backs up its sensor, which breaks, and restores the replacement. It is proved that each law holds of this
//! trace, and that a wrong trace breaks it. No trace breaks the law of stored sets, as it follows from what commands do. For that law
//! it is proved that it does not allow a port to have sets that no command stored.

ghost use Rattle.std.specs.Prelude.{◌⊎◌, [], ◌∷◌, ◌++◌, Some, None};
ghost use Rattle.iol_link.specs.declared.validation.IdentFault.TheVariants.{Device};
ghost use Rattle.iol_types.specs.Command.{Configure, Store};
ghost use Rattle.iol_types.specs.Examples.{renewed_port, newer_stored, example_stored};
ghost use Rattle.iol_types.specs.State.{empty_state};
ghost use Rattle.iol_core.specs.Events.{Accepted, Exchange, Lost, Attended, Changed, stamped};
ghost use Rattle.iol_core.specs.Statuses.{Off, Ready, Uploading, Downloading, Mismatch};
ghost use Rattle.iol_headline.specs.Decisions.{DecidedFirst};
ghost use Rattle.iol_headline.specs.Downloads.{DownloadsOnly, CommandsOnly};
ghost use Rattle.iol_headline.specs.DurableEnds.{DurableThenEnd};
ghost use Rattle.iol_headline.specs.Examples.{
  example_config,
  example_work,
  example_set,
  configured,
  flagged,
  uploaded,
  filed,
  stored,
  ended,
  replaced,
  restoring,
  half_restored,
  restored,
  reconfigured,
  other_device,
  restore_config,
  recorded_later,
};
ghost use Rattle.iol_headline.specs.Settled.{SettledRight};
ghost use Rattle.iol_headline.specs.StoredSets.{HasSet, HadSet, WasStored};
ghost use Rattle.iol_headline.specs.WholeSets.{WholeSets};
ghost use Rattle.iol_headline.specs.Works.{TellsWork};

/// Port 1 gets its configuration and no checksum, as no set is durable. Its sensor asks for a backup, so an upload begins.
pub fn a_backup_begins()
    ensures work { TellsWork 0 (empty_state 2) (stamped 7 configured) (Attended 1 (example_work None)) }
    ensures decided { DecidedFirst (stamped 7 flagged) (Changed 1 Uploading) }
{}

/// The set that is accepted is the one that was uploaded.
pub fn a_set_is_whole()
    ensures { WholeSets (stamped 7 uploaded) (Accepted 2 (Store 1 1 (example_set 0x7F))) }
{}

/// A port has its stored set, and the previous one. A set comes from a Store among the commands, and a port that was never configured
/// has none.
pub fn sets_of_a_port()
    ensures present { HasSet renewed_port newer_stored }
    ensures previous { HasSet renewed_port example_stored }
    ensures stored { WasStored (empty_state 1)
        (Configure 1 example_stored.recorded ∷ Store 1 1 example_stored.set ∷ Store 1 1 newer_stored.set ∷ []) 1 example_stored }
    ensures not_there { ¬ HadSet (empty_state 1) 1 example_stored }
{}

/// DS_UploadEnd is sent to the sensor once the set is acknowledged. Then the port is ready.
pub fn a_backup_ends()
    ensures end { DurableThenEnd 0 (stamped 7 stored)
        (Exchange 1 0 (0x25 ∷ 0x03 ∷ 0x01 ∷ 0x02 ∷ 0x25 ∷ []) (0x52 ∷ 0x52 ∷ [])) }
    ensures command { CommandsOnly (stamped 7 stored)
        (Exchange 1 0 (0x25 ∷ 0x03 ∷ 0x01 ∷ 0x02 ∷ 0x25 ∷ []) (0x52 ∷ 0x52 ∷ [])) }
    ensures ready { SettledRight (stamped 7 ended) (Changed 1 Ready) }
{}

/// The replacement has another checksum than the durable set, so the set is downloaded. Then the port is ready.
pub fn a_replacement_is_restored()
    ensures work { TellsWork 0 (empty_state 2) (stamped 7 ended) (Attended 1 (example_work (Some 0x024F))) }
    ensures decided { DecidedFirst (stamped 7 replaced) (Changed 1 Downloading) }
    ensures first { DownloadsOnly 0 (empty_state 2) (stamped 7 restoring)
        (Exchange 1 1 (0x15 ∷ 0x40 ∷ 0x0A ∷ 0x64 ∷ 0x3B ∷ []) (0x52 ∷ 0x52 ∷ [])) }
    ensures second { DownloadsOnly 0 (empty_state 2) (stamped 7 half_restored)
        (Exchange 1 1 (0x25 ∷ 0x41 ∷ 0x01 ∷ 0x7F ∷ 0x1A ∷ []) (0x52 ∷ 0x52 ∷ [])) }
    ensures ready { SettledRight (stamped 7 restored) (Changed 1 Ready) }
{}

/// A set must not be accepted with another value than the sensor's answer.
pub fn a_changed_value_is_refused()
    ensures { WholeSets (stamped 7 uploaded) (Accepted 2 (Store 1 1 (example_set 0x7E))) → ⊥ }
{}

/// DS_UploadEnd must not be sent to the sensor before the set is acknowledged.
pub fn an_early_end_is_refused()
    ensures { DurableThenEnd 0 (stamped 7 filed)
        (Exchange 1 0 (0x25 ∷ 0x03 ∷ 0x01 ∷ 0x02 ∷ 0x25 ∷ []) (0x52 ∷ 0x52 ∷ [])) → ⊥ }
{}

/// A value that the durable set does not have must not be written to the replacement.
pub fn another_value_is_refused()
    ensures { DownloadsOnly 0 (empty_state 2) (stamped 7 restoring)
        (Exchange 1 1 (0x15 ∷ 0x40 ∷ 0x0A ∷ 0x65 ∷ 0x3A ∷ []) (0x52 ∷ 0x52 ∷ [])) → ⊥ }
{}

/// The factory values of a replacement must not be uploaded in place of the durable set.
pub fn a_blank_upload_is_refused()
    ensures { DecidedFirst (stamped 7 replaced) (Changed 1 Uploading) → ⊥ }
{}

/// After a backup the port must not be given work without a checksum, as a set is durable.
pub fn a_forgotten_set_is_refused()
    ensures { TellsWork 0 (empty_state 2) (stamped 7 ended) (Attended 1 (example_work None)) → ⊥ }
{}

/// The port must not be given the checksum of a set that is not acknowledged.
pub fn an_unacknowledged_set_is_refused()
    ensures { TellsWork 0 (empty_state 2) (stamped 7 filed) (Attended 1 (example_work (Some 0x024F))) → ⊥ }
{}

/// The port must not be given its first revision once its second configuration is accepted.
pub fn an_old_revision_is_refused()
    ensures { TellsWork 0 (empty_state 2) (stamped 7 reconfigured) (Attended 1 (example_work None)) → ⊥ }
{}

/// The octet of DS_UploadEnd must not be written to State_Property, at Subindex 2 of the Data Storage object.
pub fn another_subindex_is_refused()
    ensures { CommandsOnly (stamped 7 stored)
        (Exchange 1 0 (0x25 ∷ 0x03 ∷ 0x02 ∷ 0x02 ∷ 0x26 ∷ []) (0x52 ∷ 0x52 ∷ [])) → ⊥ }
{}

/// The octet 06, which is no command, must not be written to DS_Command.
pub fn an_unknown_command_is_refused()
    ensures { CommandsOnly (stamped 7 stored)
        (Exchange 1 0 (0x25 ∷ 0x03 ∷ 0x01 ∷ 0x06 ∷ 0x21 ∷ []) (0x52 ∷ 0x52 ∷ [])) → ⊥ }
{}

/// A port that can become `ready`, as its work is IOL_MANUAL and its device fits, must not become `off` or a mismatch.
pub fn another_status_is_refused()
    ensures off { SettledRight (stamped 7 ended) (Changed 1 Off) → ⊥ }
    ensures mismatch { SettledRight (stamped 7 ended) (Changed 1 (Mismatch Device)) → ⊥ }
{}

/// Another device of the vendor is a mismatch, and the port is not `ready` with it.
pub fn another_device_is_not_ready()
    ensures mismatch { SettledRight (stamped 7 other_device) (Changed 1 (Mismatch Device)) }
    ensures ready { SettledRight (stamped 7 other_device) (Changed 1 Ready) → ⊥ }
{}

/// A port whose device is lost must not become `ready` by the page that was read before the loss.
pub fn a_lost_device_is_not_ready()
    ensures { SettledRight (stamped 7 (ended ++ Lost 1 0 None ∷ [])) (Changed 1 Ready) → ⊥ }
{}

/// A port that has become `ready` must not become `ready` again before the core has given it its work again.
pub fn settling_twice_is_refused()
    ensures { SettledRight (stamped 7 (ended ++ Changed 1 Ready ∷ [])) (Changed 1 Ready) → ⊥ }
{}

/// If a port had no set at the start and another set is stored, the law does not allow the port to have this one.
pub fn a_set_that_was_not_stored_is_refused()
    ensures { (HadSet (empty_state 1) 1 example_stored ⊎ WasStored (empty_state 1)
        (Configure 1 example_stored.recorded ∷ Store 1 1 newer_stored.set ∷ []) 1 example_stored) → ⊥ }
{}

/// The law does not allow one port to have the set of another.
pub fn a_set_of_another_port_is_refused()
    ensures { (HadSet (empty_state 2) 1 example_stored ⊎ WasStored (empty_state 2)
        (Configure 2 example_stored.recorded ∷ Store 2 1 example_stored.set ∷ []) 1 example_stored) → ⊥ }
{}

/// If a port is configured after its set was stored, the law does not allow the port to have the set as if it had been taken under
/// the later configuration.
pub fn a_later_configuration_is_refused()
    ensures { (HadSet (empty_state 1) 1 recorded_later ⊎ WasStored (empty_state 1)
        (Configure 1 example_config ∷ Store 1 1 (example_set 0x7F) ∷ Configure 1 restore_config ∷ []) 1 recorded_later) → ⊥ }
{}
