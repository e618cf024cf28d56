//! Examples of ports with values from outside the code, which check the definitions. Each is proved by computing.

ghost use Rattle.std.specs.Prelude.{◌≡◌, ℕ, [], ◌∷◌, map, replicate, true, false, Some, None, Ok, Err};
ghost use Rattle.iol_types.specs.Examples.{example_config, example_set};
ghost use Rattle.iol_types.specs.declared.config.PortMode.TheVariants as mode;
ghost use Rattle.iol_types.specs.declared.config.Validation.TheVariants as validation;
ghost use Rattle.iol_link.specs.declared.faults.IsduFault.TheVariants as isdu;
ghost use Rattle.iol_link.specs.declared.messages.Answer.TheVariants as answer;
ghost use Rattle.iol_link.specs.declared.messages.Request.TheVariants as request;
ghost use Rattle.iol_transfer.specs.declared.property.State.TheVariants as state;
ghost use Rattle.iol_link.specs.Examples.{example_page};
ghost use Rattle.iol_link.specs.declared.validation.IdentFault.TheVariants as ident;
ghost use Rattle.iol_transfer.specs.Download.{begun_download};
ghost use Rattle.iol_transfer.specs.Exchanges.{carried};
ghost use Rattle.iol_transfer.specs.Machine.{begun};
ghost use Rattle.iol_transfer.specs.declared.fault.TransferFault.TheVariants as transfer;
ghost use Rattle.iol_transfer.specs.declared.repeats.TheConstants.{MOST_REQUESTS};
ghost use Rattle.iol_core.specs.Statuses as trace;
ghost use Rattle.iol_core.specs.declared.ticket.TicketState.TheVariants as ticket;
ghost use Rattle.iol_core.specs.declared.upload.FinishFault.TheVariants as finish;
ghost use Rattle.iol_core.specs.declared.upload.PermitFault.TheVariants as permit;
ghost use Rattle.iol_core.specs.declared.download.DownloadFault.TheVariants as download;
ghost use Rattle.iol_port.specs.Answers.{state_read, checksum_read, upload_ended, sent, downloaded};
ghost use Rattle.iol_port.specs.Answers.{upload_answered, failed, GoesOn, Done, Ends};
ghost use Rattle.iol_port.specs.Calls.{Attend, BeginUpload};
ghost use Rattle.iol_port.specs.Decision.{decide};
ghost use Rattle.iol_port.specs.Examples.{fitting_page, flagged, example_work, example_found, example_grant, example_machine};
ghost use Rattle.iol_port.specs.Heard.{fed, noted, lost, resumed, confirmed, judged};
ghost use Rattle.iol_port.specs.Heard.{first_stage, upload_begun, download_begun, upload_finished, ticket_told, page_heard};
ghost use Rattle.iol_port.specs.Stage.{Settled, Paging, Attending, BeginningUpload, BeginningDownload, Exchanging, Uploading, Filing};
ghost use Rattle.iol_port.specs.Stage.{Filed, Storing, Downloading, Breaking, Returning, Returned, Start, To};
ghost use Rattle.iol_port.specs.Faults.{read_fault, write_fault};
ghost use Rattle.iol_port.specs.Status.{status_of};
ghost use Rattle.iol_port.specs.Telling.{failure_told};
ghost use Rattle.iol_port.specs.Wanted.{ThePage, AnswerTo, ReplyTo, wanted};
ghost use Rattle.iol_port.specs.declared.action.Input.TheVariants as input;
ghost use Rattle.iol_port.specs.declared.call.Reply.TheVariants as reply;
ghost use Rattle.iol_port.specs.declared.action.TheConstants.{UPLOAD_REQUEST};
ghost use Rattle.iol_port.specs.declared.decision.Decision.TheVariants as decision;
ghost use Rattle.iol_port.specs.declared.fault.PortFault.TheVariants as fault;
ghost use Rattle.iol_port.specs.declared.fault.StoringFault.TheVariants as unstored;
ghost use Rattle.iol_port.specs.declared.stage.AttendFor.TheVariants as attend;
ghost use Rattle.iol_port.specs.declared.stage.ExchangeFor.TheVariants as exchange;
ghost use Rattle.iol_port.specs.declared.stage.Held.TheVariants as held;
ghost use Rattle.iol_port.specs.declared.stage.PageFor.TheVariants as page;
ghost use Rattle.iol_port.specs.declared.stage.Rest.TheVariants as rest;
ghost use Rattle.iol_port.specs.declared.stage.Transfer.TheVariants as kind;
ghost use Rattle.iol_port.specs.declared.status.PortStatus.TheVariants as status;

/// Validations up to Type compatible keep no parameters, and a locked Data Storage is left alone.
pub fn nothing_to_do()
    ensures no_check { decide validation.NoCheck state.Locked true 7 None ≡ decision.Ready }
    ensures compatible_v10 { decide validation.TypeCompatibleV10 state.Locked true 7 (Some 8) ≡ decision.Ready }
    ensures compatible { decide validation.TypeCompatibleV11 state.Inactive true 7 (Some 8) ≡ decision.Ready }
    ensures locked { decide validation.BackupAndRestore state.Locked true 7 None ≡ decision.ReadyLocked }
    ensures locked_asked { decide validation.BackupAndRestore state.Locked true 7 (Some 591) ≡ decision.ReadyLocked }
    ensures locked_no_set { decide validation.Restore state.Locked false 7 None ≡ decision.ReadyLocked }
    ensures locked_restore { decide validation.Restore state.Locked false 7 (Some 8) ≡ decision.ReadyLocked }
{}

/// Under Backup and Restore an upload is made if no set is durable or the device asks for it. Otherwise the set is downloaded,
/// unless the device has it.
pub fn backup_and_restore()
    ensures no_set { decide validation.BackupAndRestore state.Inactive false 7 None ≡ decision.Upload }
    ensures no_set_asked { decide validation.BackupAndRestore state.Inactive true 7 None ≡ decision.Upload }
    ensures asked { decide validation.BackupAndRestore state.Inactive true 7 (Some 7) ≡ decision.Upload }
    ensures asked_of_another { decide validation.BackupAndRestore state.Inactive true 7 (Some 591) ≡ decision.Upload }
    ensures equal { decide validation.BackupAndRestore state.Inactive false 7 (Some 7) ≡ decision.Ready }
    ensures blank { decide validation.BackupAndRestore state.Inactive false 0 (Some 591) ≡ decision.Download }
    ensures another { decide validation.BackupAndRestore state.Inactive false 7 (Some 591) ≡ decision.Download }
    ensures in_an_upload { decide validation.BackupAndRestore state.Upload false 7 (Some 591) ≡ decision.Download }
    ensures in_a_download { decide validation.BackupAndRestore state.Download false 7 (Some 7) ≡ decision.Ready }
{}

/// Under Restore the set is downloaded, unless the device has it or there is none. No upload is ever made.
pub fn restore()
    ensures no_set { decide validation.Restore state.Inactive true 7 None ≡ decision.ReadyEmpty }
    ensures equal { decide validation.Restore state.Inactive true 7 (Some 7) ≡ decision.Ready }
    ensures differs { decide validation.Restore state.Inactive true 7 (Some 8) ≡ decision.Download }
    ensures no_set_unasked { decide validation.Restore state.Inactive false 7 None ≡ decision.ReadyEmpty }
    ensures equal_unasked { decide validation.Restore state.Inactive false 7 (Some 7) ≡ decision.Ready }
    ensures differs_unasked { decide validation.Restore state.Inactive false 7 (Some 8) ≡ decision.Download }
{}

/// The requests outside a transfer read State_Property at 3.2 and Parameter_Checksum at 3.4, and write 02 and 05 to 3.1.
pub fn requests()
    ensures state { wanted 1 (Exchanging (exchange.ReadingState (example_found None) 16)) ≡ AnswerTo (request.Read 3 2) }
    ensures sum { wanted 1 (Exchanging (exchange.ReadingChecksum (example_found None) flagged 16))
        ≡ AnswerTo (request.Read 3 4) }
    ensures end { wanted 1 (Exchanging (exchange.EndingUpload fitting_page 16)) ≡ AnswerTo (request.Write 3 1 (carried (2 ∷ []))) }
    ensures stopping { wanted 1 (Exchanging (exchange.Stopping true)) ≡ AnswerTo (request.Write 3 1 (carried (5 ∷ []))) }
    ensures yielding { wanted 1 (Exchanging exchange.Yielding) ≡ AnswerTo (request.Write 3 1 (carried (5 ∷ []))) }
    ensures breaking { wanted 1 (Breaking (held.Upload example_grant) (fault.Transfer transfer.Size))
        ≡ AnswerTo (request.Write 3 1 (carried (5 ∷ []))) }
    ensures permit { wanted 1 (BeginningUpload (example_found None)) ≡ ReplyTo (BeginUpload 1 500 43981 3) }
{}

/// The sixteenth answer Device busy in a row is a fault.
pub fn a_busy_device()
    ensures most { MOST_REQUESTS ≡ 16 }
    ensures fifteenth { state_read (example_found None) 2 (Ok answer.Busy) ≡ Exchanging (exchange.ReadingState (example_found None) 1) }
    ensures sixteenth { state_read (example_found None) 1 (Ok answer.Busy) ≡ failed (fault.Transfer transfer.Busy) }
{}

/// State_Property 80 is inactive with the flag set. Two octets are no State_Property, and three are no checksum.
pub fn what_is_read()
    ensures state { state_read (example_found None) 16 (Ok (answer.ReadOk (carried (0x80 ∷ []))))
        ≡ Exchanging (exchange.ReadingChecksum (example_found None) flagged 16) }
    ensures two { state_read (example_found None) 16 (Ok (answer.ReadOk (carried (0x80 ∷ 0x00 ∷ []))))
        ≡ failed (fault.Transfer transfer.Unexpected) }
    ensures refused { state_read (example_found None) 16 (Ok (answer.ReadFault 0x80 0x11))
        ≡ failed (fault.Transfer (transfer.Refused 0x80 0x11)) }
    ensures sum { checksum_read (example_found None) flagged 16 (Ok (answer.ReadOk (carried (0 ∷ 0 ∷ 2 ∷ 0x4F ∷ []))))
        ≡ Attending (attend.Confirming (example_found None) flagged 591) }
    ensures three { checksum_read (example_found None) flagged 16 (Ok (answer.ReadOk (carried (0 ∷ 2 ∷ 0x4F ∷ []))))
        ≡ failed (fault.Transfer transfer.Unexpected) }
{}

/// Event FF91 is the request for an upload. It makes a woken port start, which otherwise compares its device's page first.
pub fn a_request_for_an_upload()
    ensures code { UPLOAD_REQUEST ≡ 0xFF91 }
    ensures kept { (noted (example_machine false (Settled rest.Off)) 0xFF91).upload_requested ≡ true }
    ensures dropped { (noted (example_machine false (Settled rest.Off)) 0xFF90).upload_requested ≡ false }
    ensures starts { fed (example_machine true (Attending (attend.Waking (rest.Ready fitting_page))))
        (input.Reply (reply.Attended (Some (example_work None))))
        ≡ example_machine false (Paging (page.Identifying (example_work None))) }
    ensures looks { fed (example_machine false (Attending (attend.Waking (rest.Ready fitting_page))))
        (input.Reply (reply.Attended (Some (example_work None))))
        ≡ example_machine false (Paging (page.Comparing (example_work None) (rest.Ready fitting_page))) }
    ensures same { page_heard (page.Comparing (example_work None) (rest.Ready fitting_page)) 3 fitting_page
        ≡ To (Settled (rest.Ready fitting_page)) }
    ensures another { page_heard (page.Comparing (example_work None) (rest.Ready fitting_page)) 3 (example_page 0x12 true)
        ≡ Start (example_work None) }
    ensures others { map (page_heard (page.Comparing (example_work None) (rest.Ready fitting_page)) 3)
        (record fitting_page { vendor = 501 } ∷ record fitting_page { device = 43980 }
        ∷ record fitting_page { min_cycle_time = 24 } ∷ example_page 0x11 false ∷ []) ≡ replicate 4 (Start (example_work None)) }
{}

/// DS_UploadEnd is sent once the set is durable. DS_Break is sent, with no permit held, if the core does not take the set or
/// cannot say whether it is durable.
pub fn the_end_of_an_upload()
    ensures waiting { status_of (ticket_told 2 fitting_page ticket.Waiting) ≡ status.Storing }
    ensures durable { ticket_told 2 fitting_page ticket.Durable ≡ Exchanging (exchange.EndingUpload fitting_page 16) }
    ensures unsure { ticket_told 2 fitting_page ticket.Unsure ≡ Exchanging (exchange.Stopping true) }
    ensures stopped { upload_finished fitting_page (Err finish.Stopped) ≡ Exchanging (exchange.Stopping false) }
    ensures changed { upload_finished fitting_page (Err finish.ConfigChanged) ≡ Exchanging exchange.Yielding }
    ensures fails { fed (example_machine false (Exchanging (exchange.Stopping true))) (input.Octets (carried (0x52 ∷ 0x52 ∷ [])))
        ≡ example_machine false (failed (fault.Storing unstored.Stopped)) }
{}

/// The status is `Lost` at once, even if a permit is still to be returned.
pub fn a_loss()
    ensures held { lost (Breaking (held.Upload example_grant) (fault.Transfer transfer.Size))
        ≡ Returning (held.Upload example_grant) rest.Lost }
    ensures without_a_permit { map lost (Paging (page.Identifying (example_work None))
        ∷ Exchanging (exchange.ReadingState (example_found None) 16) ∷ [])
        ≡ replicate 2 (Settled rest.Lost) }
    ensures upload { lost (Uploading example_grant fitting_page (begun 500 43981)) ≡ Returning (held.Upload example_grant) rest.Lost }
    ensures download { lost (Downloading 1 fitting_page (begun_download example_set)) ≡ Returning (held.Download 1) rest.Lost }
    ensures status { status_of (Returning (held.Upload example_grant) rest.Lost) ≡ status.Lost }
    ensures other { status_of (Returning (held.Upload example_grant) (rest.Failed (fault.Transfer transfer.Size))) ≡ status.Uploading }
{}

/// The status at each stage.
pub fn statuses()
    ensures settled { map (λ own. status_of (Settled own)) (rest.Off ∷ rest.Lost ∷ rest.Failed (fault.Transfer transfer.Size)
        ∷ rest.Ready fitting_page ∷ rest.ReadyLocked fitting_page ∷ rest.ReadyEmpty fitting_page
        ∷ rest.Mismatch ident.Vendor fitting_page ∷ [])
        ≡ status.Off ∷ status.Lost ∷ status.Failed (fault.Transfer transfer.Size) ∷ status.Ready ∷ status.ReadyLocked
        ∷ status.ReadyEmpty ∷ status.Mismatch ident.Vendor ∷ [] }
    ensures woken { map status_of (Attending (attend.Waking (rest.Failed (fault.Transfer transfer.Size)))
        ∷ Paging (page.Comparing (example_work None) (rest.ReadyLocked fitting_page)) ∷ [])
        ≡ status.Failed (fault.Transfer transfer.Size) ∷ status.ReadyLocked ∷ [] }
    ensures starting { map status_of (Paging (page.Identifying (example_work None))
        ∷ Exchanging (exchange.ReadingState (example_found None) 16)
        ∷ Exchanging (exchange.ReadingChecksum (example_found None) flagged 16)
        ∷ Attending (attend.Confirming (example_found None) flagged 591)
        ∷ BeginningUpload (example_found None) ∷ BeginningDownload (example_found (Some 7)) 591 ∷ []) ≡ replicate 6 status.Starting }
    ensures uploading { map status_of (Uploading example_grant fitting_page (begun 500 43981)
        ∷ Filing example_grant fitting_page example_set ∷ Filed fitting_page ∷ Exchanging (exchange.Stopping false)
        ∷ Exchanging exchange.Yielding ∷ Attending attend.Restarting ∷ Breaking (held.Upload example_grant) (fault.Transfer transfer.Size)
        ∷ Returned kind.Upload (rest.Failed (fault.Transfer transfer.Size)) ∷ []) ≡ replicate 8 status.Uploading }
    ensures storing { map status_of (Storing 2 fitting_page ∷ Exchanging (exchange.EndingUpload fitting_page 16)
        ∷ Exchanging (exchange.Stopping true) ∷ []) ≡ replicate 3 status.Storing }
    ensures downloading { map status_of (Downloading 1 fitting_page (begun_download example_set)
        ∷ Breaking (held.Download 1) (fault.Transfer transfer.Busy) ∷ Returning (held.Download 1) (rest.Ready fitting_page)
        ∷ Returned kind.Download (rest.Failed (fault.Transfer transfer.Busy)) ∷ []) ≡ replicate 4 status.Downloading }
{}

/// Each fault of a port is told in a trace by this name, and each answer that is not the expected one is this fault.
pub fn names_of_faults()
    ensures isdu { map (λ why. failure_told (fault.Isdu why)) (isdu.Empty ∷ isdu.Reserved ∷ isdu.WrongService
        ∷ isdu.Length ∷ isdu.Check ∷ [])
        ≡ trace.Empty ∷ trace.Reserved ∷ trace.WrongService ∷ trace.Length ∷ trace.Check ∷ [] }
    ensures transfer { map (λ why. failure_told (fault.Transfer why)) (transfer.Refused 0x80 0x11 ∷ transfer.Unexpected
        ∷ transfer.Size ∷ transfer.List ∷ transfer.Busy ∷ transfer.Memory ∷ [])
        ≡ trace.Refused 0x80 0x11 ∷ trace.Unexpected ∷ trace.Size ∷ trace.List ∷ trace.Busy ∷ trace.Memory ∷ [] }
    ensures upload { map (λ why. failure_told (fault.Permit why)) (permit.Stopped ∷ permit.NotAllowed ∷ permit.WrongDevice
        ∷ permit.Taken ∷ [])
        ≡ trace.Stopped ∷ trace.NotAllowed ∷ trace.WrongDevice ∷ trace.Taken ∷ [] }
    ensures download { map (λ why. failure_told (fault.Download why)) (download.NotAllowed ∷ download.Empty ∷ download.WrongDevice
        ∷ download.Taken ∷ download.Same ∷ download.Memory ∷ [])
        ≡ trace.NotAllowed ∷ trace.NoSet ∷ trace.WrongDevice ∷ trace.Taken ∷ trace.Same ∷ trace.Memory ∷ [] }
    ensures storing { map (λ why. failure_told (fault.Storing why)) (unstored.Stopped ∷ unstored.Exhausted ∷ [])
        ≡ trace.Stopped ∷ trace.Exhausted ∷ [] }
    ensures read { map read_fault (Err isdu.Check ∷ Ok answer.Busy ∷ Ok (answer.ReadFault 0x80 0x11)
        ∷ Ok (answer.WriteFault 0x80 0x11) ∷ Ok answer.WriteOk ∷ [])
        ≡ fault.Isdu isdu.Check ∷ fault.Transfer transfer.Busy ∷ fault.Transfer (transfer.Refused 0x80 0x11)
        ∷ fault.Transfer transfer.Unexpected ∷ fault.Transfer transfer.Unexpected ∷ [] }
    ensures write { map write_fault (Err isdu.Check ∷ Ok answer.Busy ∷ Ok (answer.WriteFault 0x80 0x11)
        ∷ Ok (answer.ReadFault 0x80 0x11) ∷ Ok (answer.ReadOk (carried [])) ∷ [])
        ≡ fault.Isdu isdu.Check ∷ fault.Transfer transfer.Busy ∷ fault.Transfer (transfer.Refused 0x80 0x11)
        ∷ fault.Transfer transfer.Unexpected ∷ fault.Transfer transfer.Unexpected ∷ [] }
{}

/// A woken port stays off if it was off, starts if its device was lost or it had failed, and otherwise reads the page.
pub fn a_woken_port()
    ensures off { resumed rest.Off (example_work None) ≡ To (Settled rest.Off) }
    ensures starts { map (λ own. resumed own (example_work None)) (rest.Lost ∷ rest.Failed (fault.Transfer transfer.Size) ∷ [])
        ≡ replicate 2 (Start (example_work None)) }
    ensures mismatch { resumed (rest.Mismatch ident.Vendor fitting_page) (example_work None)
        ≡ To (Paging (page.Comparing (example_work None) (rest.Mismatch ident.Vendor fitting_page))) }
    ensures not_manual { map (λ mode. first_stage (record (example_work None) { config = record example_config { mode = mode } }))
        (mode.Deactivated ∷ mode.IolAutostart ∷ mode.DigitalInput ∷ mode.DigitalOutput ∷ []) ≡ replicate 4 (Settled rest.Off) }
    ensures manual { first_stage (example_work None) ≡ Paging (page.Identifying (example_work None)) }
{}

/// A device that does not fit is a mismatch. One that fits is ready under validations up to Type compatible; otherwise its
/// Data Storage is read.
pub fn an_identified_device()
    ensures mismatch { judged (example_work None) 3 fitting_page (Some ident.Device) ≡ Settled (rest.Mismatch ident.Device fitting_page) }
    ensures ready { map (λ asks. judged (record (example_work None) { config = record example_config { validation = asks } })
        3 fitting_page None)
        (validation.NoCheck ∷ validation.TypeCompatibleV10 ∷ validation.TypeCompatibleV11 ∷ [])
        ≡ replicate 3 (Settled (rest.Ready fitting_page)) }
    ensures read { judged (example_work None) 3 fitting_page None ≡ Exchanging (exchange.ReadingState (example_found None) 16) }
    ensures another_revision { confirmed (example_found None) flagged 591 (record (example_work None) { revision = 2 })
        ≡ Start (record (example_work None) { revision = 2 }) }
    ensures same_revision { confirmed (example_found None) (record { state = state.Inactive; flag = false }) 591 (example_work None)
        ≡ To (BeginningUpload (example_found None)) }
{}

/// A refused permit fails the port without DS_Break, and a fault of a running transfer sends DS_Break.
pub fn refused_permits_and_broken_transfers()
    ensures upload { upload_begun fitting_page (Err permit.Taken) ≡ failed (fault.Permit permit.Taken) }
    ensures download { download_begun fitting_page (Err download.Same) ≡ failed (fault.Download download.Same) }
    ensures no_answer { upload_answered example_grant fitting_page (begun 500 43981) (Err isdu.Check)
        ≡ Breaking (held.Upload example_grant) (fault.Isdu isdu.Check) }
    ensures refused { upload_answered example_grant fitting_page (begun 500 43981) (Ok (answer.WriteFault 0x80 0x23))
        ≡ Breaking (held.Upload example_grant) (fault.Transfer (transfer.Refused 0x80 0x23)) }
    ensures download_refused { downloaded 1 fitting_page (sent (begun_download example_set) (answer.WriteFault 0x80 0x23))
        ≡ Breaking (held.Download 1) (fault.Transfer (transfer.Refused 0x80 0x23)) }
    ensures download_done { downloaded 1 fitting_page Done ≡ Returning (held.Download 1) (rest.Ready fitting_page) }
{}

/// A download sends its request again after the fifteenth Device busy in a row, and fails at the sixteenth. DS_UploadEnd
/// does the same.
pub fn a_device_that_stays_busy()
    ensures fifteenth { sent (record (begun_download example_set) { busy = 14 }) answer.Busy
        ≡ GoesOn (record (begun_download example_set) { busy = 15 }) }
    ensures sixteenth { sent (record (begun_download example_set) { busy = 15 }) answer.Busy ≡ Ends transfer.Busy }
    ensures ended { upload_ended fitting_page 16 (Ok answer.WriteOk) ≡ Settled (rest.Ready fitting_page) }
    ensures end_refused { upload_ended fitting_page 16 (Ok (answer.WriteFault 0x80 0x23))
        ≡ failed (fault.Transfer (transfer.Refused 0x80 0x23)) }
    ensures end_fifteenth { upload_ended fitting_page 2 (Ok answer.Busy) ≡ Exchanging (exchange.EndingUpload fitting_page 1) }
    ensures end_sixteenth { upload_ended fitting_page 1 (Ok answer.Busy) ≡ failed (fault.Transfer transfer.Busy) }
{}
