//! Worked examples of a core, against which its definitions are checked: the prover computes each of these.

ghost use Rattle.std.specs.Prelude.{◌≡◌, ◌-◌, ◌^◌, [], ◌∷◌, replicate, true, false, Some, None};
ghost use Rattle.std.specs.Option.{option_map};
ghost use Rattle.iol_types.specs.Command.{Configure, Clear, Rollback};
ghost use Rattle.iol_types.specs.Examples.{example_config, example_port, renewed_port, one_port};
ghost use Rattle.iol_types.specs.State.{Stored, exchanged};
ghost use Rattle.iol_types.specs.declared.command.CommandFault.TheVariants.{UnknownPort, NoPrevious};
ghost use Rattle.iol_journal.specs.Numbers.{LAST_NUMBER};
ghost use Rattle.iol_core.specs.Batches.{has_batch, acknowledged};
ghost use Rattle.iol_core.specs.Core.{with_permit, live_number};
ghost use Rattle.iol_core.specs.Downloads.{durable_set, download_fault};
ghost use Rattle.iol_core.specs.Examples.{core_with, blank_core, core_with_set, configure_one, configure_with, grant_at};
ghost use Rattle.iol_core.specs.Permits.{is_out};
ghost use Rattle.iol_core.specs.Ports.{work_at, view_at};
ghost use Rattle.iol_core.specs.Submit.{submit_fault, stopped_by, ticket_state};
ghost use Rattle.iol_core.specs.Uploads.{upload_fault};
ghost use Rattle.iol_core.specs.declared.core_value.TheConstants.{QUEUE_COMMANDS};
ghost use Rattle.iol_core.specs.declared.download.DownloadFault.TheVariants as download;
ghost use Rattle.iol_core.specs.declared.permit.Grant.TheVariants.{Upload, Download};
ghost use Rattle.iol_core.specs.declared.stop.StopCause.TheVariants.{Closed, DiskFailed, OutOfMemory};
ghost use Rattle.iol_core.specs.declared.ticket.SubmitFault.TheVariants.{Stopped, Command, QueueFull, Exhausted};
ghost use Rattle.iol_core.specs.declared.ticket.TicketState.TheVariants.{Waiting, Durable, Unsure};
ghost use Rattle.iol_core.specs.declared.upload.PermitFault.TheVariants as permit;

use iol_types::Validation;

/// At most 64 commands wait, and numbers go to 2^62.
pub fn bounds()
    ensures queue { QUEUE_COMMANDS ≡ 64 }
    ensures number { LAST_NUMBER ≡ 2 ^ 62 }
{}

/// A command for an existing port is accepted after one that waits; the last number is then 8.
pub fn a_submit()
    ensures there { submit_fault (blank_core (configure_one ∷ [])) (Clear 1) ≡ None }
    ensures not_there { submit_fault (blank_core []) (Clear 2) ≡ Some (Command UnknownPort) }
    ensures number { live_number (blank_core (configure_one ∷ [])) ≡ 8 }
    ensures durable { ticket_state (blank_core (configure_one ∷ [])) 7 ≡ Durable }
    ensures waiting { ticket_state (blank_core (configure_one ∷ [])) 8 ≡ Waiting }
{}

/// A command is refused for the first cause that applies: the core has stopped, the command does not pass, 64 wait, or the last
/// number is 2^62.
pub fn a_submit_that_is_refused()
    ensures stopped { submit_fault (record (blank_core []) { stopped = Some Closed }) (Clear 2) ≡ Some Stopped }
    ensures not_there { submit_fault (blank_core (replicate 64 (Clear 1))) (Clear 2) ≡ Some (Command UnknownPort) }
    ensures room { submit_fault (blank_core (replicate 63 (Clear 1))) (Clear 1) ≡ None }
    ensures full { submit_fault (blank_core (replicate 64 (Clear 1))) (Clear 1) ≡ Some QueueFull }
    ensures no_previous { submit_fault (core_with_set []) (Rollback 1) ≡ Some (Command NoPrevious) }
    ensures one_of_two { submit_fault (core_with (renewed_port ∷ []) (Clear 1 ∷ []) None) (Rollback 1) ≡ Some (Command NoPrevious) }
    ensures previous { submit_fault (core_with (renewed_port ∷ []) (Rollback 1 ∷ []) None) (Rollback 1) ≡ None }
    ensures last { submit_fault (record (blank_core []) { number = 2 ^ 62 - 1 }) (Clear 1) ≡ None }
    ensures exhausted { submit_fault (record (blank_core []) { number = 2 ^ 62 }) (Clear 1) ≡ Some Exhausted }
{}

/// Waiting commands may still be written if the master is shut down; once the disk has failed, or memory ran out at the end,
/// their fate is unsure. A failed disk stays the cause, and running out of memory stays the cause if the core is closed
/// afterwards.
pub fn a_core_that_stopped()
    ensures waiting { ticket_state (record (blank_core (configure_one ∷ [])) { stopped = Some Closed }) 8 ≡ Waiting }
    ensures unsure { ticket_state (record (blank_core (configure_one ∷ [])) { stopped = Some DiskFailed }) 8 ≡ Unsure }
    ensures durable { ticket_state (record (blank_core []) { stopped = Some DiskFailed }) 7 ≡ Durable }
    ensures closed { stopped_by None Closed ≡ Closed }
    ensures failed { stopped_by (Some Closed) DiskFailed ≡ DiskFailed }
    ensures last_word { stopped_by (Some DiskFailed) Closed ≡ DiskFailed }
    ensures unsure_without_memory { ticket_state (record (blank_core (configure_one ∷ [])) { stopped = Some OutOfMemory }) 8 ≡ Unsure }
    ensures out_of_memory { stopped_by (Some Closed) OutOfMemory ≡ OutOfMemory }
    ensures stays_out_of_memory { stopped_by (Some OutOfMemory) Closed ≡ OutOfMemory }
    ensures fails_out_of_memory { stopped_by (Some OutOfMemory) DiskFailed ≡ DiskFailed }
    ensures stays_failed { stopped_by (Some DiskFailed) OutOfMemory ≡ DiskFailed }
{}

/// There is a batch if a command waits, none is in flight, and the core still writes. After the batch is acknowledged, its
/// commands are in the durable state and the others wait.
pub fn a_batch_of_a_core()
    ensures nothing { has_batch (blank_core []) ≡ false }
    ensures there { has_batch (blank_core (configure_one ∷ [])) ≡ true }
    ensures in_flight { has_batch (record (blank_core (configure_one ∷ [])) { flight = 1 }) ≡ false }
    ensures closed { has_batch (record (blank_core (configure_one ∷ [])) { stopped = Some Closed }) ≡ true }
    ensures failed { has_batch (record (blank_core (configure_one ∷ [])) { stopped = Some DiskFailed }) ≡ false }
    ensures out_of_memory { has_batch (record (blank_core (configure_one ∷ [])) { stopped = Some OutOfMemory }) ≡ false }
    ensures acknowledged { acknowledged (record (blank_core (configure_one ∷ Clear 1 ∷ [])) { flight = 1 }) []
        ≡ record (core_with (one_port example_config 1) (Clear 1 ∷ []) None) { number = 8 } }
{}

/// A port works with its live configuration and revision, and the checksum of its durable set; a client sees the durable
/// port and its number.
pub fn a_port_of_a_core()
    ensures work { work_at (core_with_set (configure_with Validation.NoCheck ∷ [])) 1 ≡ Some (record {
      config = record example_config { validation = Validation.NoCheck };
      revision = 2;
      checksum = Some 591;
    }) }
    ensures no_set { work_at (blank_core (configure_one ∷ [])) 1
        ≡ Some (record { config = example_config; revision = 1; checksum = None }) }
    ensures no_port { work_at (blank_core []) 2 ≡ None }
    ensures view { view_at (core_with_set (Clear 1 ∷ [])) 1 ≡ Some (record { port = example_port; number = 7 }) }
    ensures no_view { view_at (core_with_set []) 2 ≡ None }
{}

/// A port that was never configured gets no permit to upload; after a waiting Configure it gets one, for its device only and one
/// at a time.
pub fn a_permit_to_upload()
    ensures blank { upload_fault (blank_core []) 1 500 43981 ≡ Some permit.NotAllowed }
    ensures waits { upload_fault (blank_core (configure_one ∷ [])) 1 500 43981 ≡ None }
    ensures no_port { upload_fault (blank_core (configure_one ∷ [])) 2 500 43981 ≡ Some permit.NotAllowed }
    ensures restore { upload_fault (blank_core (configure_with Validation.Restore ∷ [])) 1 500 43981 ≡ Some permit.NotAllowed }
    ensures stopped { upload_fault (record (blank_core []) { stopped = Some Closed }) 1 500 43981 ≡ Some permit.Stopped }
    ensures vendor { upload_fault (blank_core (configure_one ∷ [])) 1 501 43981 ≡ Some permit.WrongDevice }
    ensures device { upload_fault (blank_core (configure_one ∷ [])) 1 500 43982 ≡ Some permit.WrongDevice }
    ensures taken { upload_fault (with_permit (blank_core (configure_one ∷ [])) 1 (Some (Upload (grant_at 1)))) 1 500 43981
        ≡ Some permit.Taken }
    ensures out { is_out (with_permit (blank_core []) 1 (Some (Upload (grant_at 1)))) (grant_at 1) ≡ true }
    ensures another { is_out (with_permit (blank_core []) 1 (Some (Upload (grant_at 1)))) (grant_at 2) ≡ false }
{}

/// The durable set is downloaded to its device, unless the device has the same checksum or a Clear waits.
pub fn a_permit_to_download()
    ensures given { download_fault (core_with_set []) 1 500 43981 590 ≡ None }
    ensures same { download_fault (core_with_set []) 1 500 43981 591 ≡ Some download.Same }
    ensures vendor { download_fault (core_with_set []) 1 501 43981 591 ≡ Some download.WrongDevice }
    ensures other { download_fault (core_with_set []) 1 500 43982 591 ≡ Some download.WrongDevice }
    ensures taken { download_fault (with_permit (core_with_set []) 1 (Some Download)) 1 500 43981 591 ≡ Some download.Taken }
    ensures no_port { download_fault (core_with_set []) 2 500 43981 590 ≡ Some download.NotAllowed }
    ensures not_durable { download_fault (blank_core (configure_one ∷ [])) 1 500 43981 590 ≡ Some download.Empty }
    ensures restore { download_fault (core_with_set (configure_with Validation.Restore ∷ [])) 1 500 43981 590 ≡ None }
    ensures cleared { download_fault (core_with_set (Clear 1 ∷ [])) 1 500 43981 590 ≡ Some download.Empty }
    ensures blank { download_fault (blank_core []) 1 500 43981 590 ≡ Some download.NotAllowed }
{}

/// The set that a port attends to and downloads is the present one. A waiting Rollback changes it only once it is acknowledged.
pub fn the_present_set()
    ensures attended { work_at (core_with (renewed_port ∷ []) (Rollback 1 ∷ []) None) 1
        ≡ Some (record { revision = 1; config = example_config; checksum = Some 594 }) }
    ensures same { download_fault (core_with (renewed_port ∷ []) (Rollback 1 ∷ []) None) 1 500 43981 594 ≡ Some download.Same }
    ensures other { download_fault (core_with (renewed_port ∷ []) (Rollback 1 ∷ []) None) 1 500 43981 591 ≡ None }
    ensures set { option_map (λ (stored : Stored). stored.set.checksum) (durable_set (core_with (renewed_port ∷ []) [] None) 1)
        ≡ Some 594 }
    ensures acknowledged { acknowledged (record (core_with (renewed_port ∷ []) (Rollback 1 ∷ []) None) { flight = 1 }) []
        ≡ record (core_with (exchanged renewed_port ∷ []) [] None) { number = 8 } }
    ensures same_then { download_fault (core_with (exchanged renewed_port ∷ []) [] None) 1 500 43981 591 ≡ Some download.Same }
{}
