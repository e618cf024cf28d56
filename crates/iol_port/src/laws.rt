//! Laws of the machines of ports: what the history of a machine says about its transfers. No code calls them.
//! Proofs of other crates cite them from files of `proofs`: most from `PortLaws` and `SettlingLaws`, under the same names, and
//! the law of permits from `Holding` and `Releasing`. The laws of decisions are in `Deciding`, of a settled port's page in
//! `Comparing`, of failed transfers in `BreakingOff`, and of ready ports in `Restoring`.

ghost use Rattle.std.specs.Prelude.{◌≡◌, ◌⊎◌, ◌↔◌, ℕ, Bool, true, false, List, ◌∷◌, Option, Some, None, Err};
ghost use Rattle.arrayvec.specs.ArrayVec.{ArrayVec};
ghost use Rattle.iol_front.specs.Fronts.{Start};
ghost use Rattle.iol_core.specs.Core.{CoreView, IsCore, permit_at};
ghost use Rattle.iol_types.specs.Config.{restores, backs_up};
ghost use Rattle.iol_types.specs.DataSet.{SetValue};
ghost use Rattle.iol_types.specs.declared.config.Validation.{Validation};
ghost use Rattle.iol_link.specs.Page.{PageValue, page_of};
ghost use Rattle.iol_link.specs.declared.messages.Request.{Request};
ghost use Rattle.iol_transfer.specs.declared.command.DsCommand.TheVariants as command;
ghost use Rattle.iol_transfer.specs.declared.property.State.{State};
ghost use Rattle.iol_transfer.specs.declared.property.State.TheVariants as state;
ghost use Rattle.iol_transfer.specs.Asked.{IsNext};
ghost use Rattle.iol_transfer.specs.Download.{IsSending};
ghost use Rattle.iol_transfer.specs.Command.{commanded};
ghost use Rattle.iol_transfer.specs.Exchanges.{Exchange};
ghost use Rattle.iol_transfer.specs.Upload.{IsFinished};
ghost use Rattle.iol_core.specs.declared.permit.UploadGrant.{UploadGrant};
ghost use Rattle.iol_core.specs.declared.port.Work.{Work};
ghost use Rattle.iol_core.specs.declared.ticket.TicketState.TheVariants as ticket;
ghost use Rattle.iol_core.specs.declared.upload.FinishFault.TheVariants as finish;
ghost use Rattle.iol_port.specs.Calls.{Call, BeginUpload, FinishUpload, BeginDownload, Replies};
ghost use Rattle.iol_port.specs.Decision.{decide};
ghost use Rattle.iol_port.specs.Ending.{ended};
ghost use Rattle.iol_port.specs.Permits.{HasOut, IsOfLink};
ghost use Rattle.iol_port.specs.Heard.{Fits, fed, started, at_stage};
ghost use Rattle.iol_port.specs.History.{Happening, Did, Happens, HasLed, ComesOf};
ghost use Rattle.iol_port.specs.Laws.{HasUploaded, HasDownloaded, IsDurable, IsDecided, IsJudged, IsLostWith, IsRestored, IsSoDecided};
ghost use Rattle.iol_port.specs.Laws.{held_by, page_at};
ghost use Rattle.iol_port.specs.Stage.{Stage, PortValue, IsStage, Settled, Attending, Returning};
ghost use Rattle.iol_port.specs.Status.{status_of};
ghost use Rattle.iol_port.specs.Wanted.{Wanted, ThePage, AnswerTo, ReplyTo, wanted, after_action, return_of};
ghost use Rattle.iol_port.specs.declared.action.Input.{Input};
ghost use Rattle.iol_port.specs.declared.action.Input.TheVariants as input;
ghost use Rattle.iol_port.specs.declared.call.Reply.{Reply};
ghost use Rattle.iol_port.specs.declared.call.Reply.TheVariants as reply;
ghost use Rattle.iol_port.specs.declared.decision.Decision.TheVariants as decision;
ghost use Rattle.iol_port.specs.declared.fault.PortFault.{PortFault};
ghost use Rattle.iol_port.specs.declared.stage.AttendFor.TheVariants as attend;
ghost use Rattle.iol_port.specs.declared.stage.FoundDevice.{FoundDevice};
ghost use Rattle.iol_port.specs.declared.stage.Held.{Held};
ghost use Rattle.iol_port.specs.declared.stage.Held.TheVariants as held;
ghost use Rattle.iol_port.specs.declared.stage.Rest.{Rest};
ghost use Rattle.iol_port.specs.declared.stage.Rest.TheVariants as rest;

/// Any outcome of what a machine wants may be fed to it.
pub fn what_comes_fits()
    ensures { (port : ℕ) (history : List Happening) (value : PortValue) (heard : Input) → HasLed port history value → IsStage value.stage
        → ComesOf (wanted value.port value.stage) heard → Fits (after_action value.stage) heard }
{}

/// When each decision is taken. An upload is made if the validation backs up, the device's Data Storage is not locked, and no
/// set is stored or the device asks for it. A download is made if the validation restores, the Data Storage is not locked, the
/// stored checksum is not the device's, and the device has not asked for an upload that it would get. Nothing is done if the
/// validation does not restore, if the device has the stored checksum and gets no upload, if the Data Storage is locked, or if
/// no set is stored and the validation does not back up.
pub fn what_is_decided()
    ensures upload { (validation : Validation) (at : State) (flag : Bool) (checksum : ℕ) (stored : Option ℕ)
        → (decide validation at flag checksum stored ≡ decision.Upload)
        ↔ ((backs_up validation ≡ true) × (at ≡ state.Locked → ⊥) × ((stored ≡ None) ⊎ (flag ≡ true))) }
    ensures download { (validation : Validation) (at : State) (flag : Bool) (checksum : ℕ) (stored : Option ℕ)
        → (decide validation at flag checksum stored ≡ decision.Download)
        ↔ ((restores validation ≡ true) × (at ≡ state.Locked → ⊥) × (backs_up validation ≡ true → flag ≡ false)
        × ((other : ℕ) × (stored ≡ Some other) × (other ≡ checksum → ⊥))) }
    ensures ready { (validation : Validation) (at : State) (flag : Bool) (checksum : ℕ) (stored : Option ℕ)
        → (decide validation at flag checksum stored ≡ decision.Ready)
        ↔ ((restores validation ≡ false)
        ⊎ ((at ≡ state.Locked → ⊥) × (backs_up validation ≡ true → flag ≡ false) × (stored ≡ Some checksum))) }
    ensures locked { (validation : Validation) (at : State) (flag : Bool) (checksum : ℕ) (stored : Option ℕ)
        → (decide validation at flag checksum stored ≡ decision.ReadyLocked) ↔ ((restores validation ≡ true) × (at ≡ state.Locked)) }
    ensures empty { (validation : Validation) (at : State) (flag : Bool) (checksum : ℕ) (stored : Option ℕ)
        → (decide validation at flag checksum stored ≡ decision.ReadyEmpty)
        ↔ ((restores validation ≡ true) × (backs_up validation ≡ false) × (at ≡ state.Locked → ⊥) × (stored ≡ None)) }
{}

/// A port asks for a permit to upload only after it found and examined the device on its connection and decided on an upload.
/// The call has the numbers of the device's page and that connection.
pub fn an_upload_is_decided()
    ensures { (port : ℕ) (history : List Happening) (value : PortValue) (asks vendor device connection : ℕ) → HasLed port history value
        → wanted value.port value.stage ≡ ReplyTo (BeginUpload asks vendor device connection)
        → (found : FoundDevice) × (checksum : ℕ) × IsDecided decision.Upload found checksum history
        × (BeginUpload asks vendor device connection ≡ BeginUpload port found.page.vendor found.page.device found.connection) }
{}

/// A port asks for a permit to download only after it found and examined the device on its connection and decided on a
/// download. The call has the numbers of the device's page and the checksum that the device has.
pub fn a_download_is_decided()
    ensures { (port : ℕ) (history : List Happening) (value : PortValue) (asks vendor device checksum : ℕ) → HasLed port history value
        → wanted value.port value.stage ≡ ReplyTo (BeginDownload asks vendor device checksum)
        → (found : FoundDevice) × IsDecided decision.Download found checksum history
        × (BeginDownload asks vendor device checksum ≡ BeginDownload port found.page.vendor found.page.device checksum) }
{}

/// While a permit to upload is held, each request is the next one of an upload since the permit was given, or DS_Break.
pub fn an_upload_sends_its_requests()
    ensures { (port : ℕ) (history : List Happening) (value : PortValue) (grant : UploadGrant) (request : Request)
        → HasLed port history value
        → held_by value.stage ≡ Some (held.Upload grant) → wanted value.port value.stage ≡ AnswerTo request
        → (request ≡ commanded command.Break)
        ⊎ ((conversation : List Exchange) × HasUploaded port grant conversation history × IsNext conversation request) }
{}

/// A set is filed only if the exchanges since its permit was given are a finished upload of it.
pub fn a_set_is_filed_whole()
    ensures { (port : ℕ) (history : List Happening) (value : PortValue) (grant : UploadGrant) (set : SetValue) → HasLed port history value
        → wanted value.port value.stage ≡ ReplyTo (FinishUpload grant set)
        → (conversation : List Exchange) × HasUploaded port grant conversation history
        × IsFinished grant.vendor grant.device conversation set }
{}

/// While a permit to download is held, each request is the next one of a download of the set that came with it, or DS_Break.
pub fn a_download_sends_its_set()
    ensures { (port : ℕ) (history : List Happening) (value : PortValue) (permit : ℕ) (request : Request) → HasLed port history value
        → held_by value.stage ≡ Some (held.Download permit) → wanted value.port value.stage ≡ AnswerTo request
        → (request ≡ commanded command.Break)
        ⊎ ((set : SetValue) × (conversation : List Exchange) × (busy : ℕ) × HasDownloaded port set conversation history
        × IsSending set conversation request busy) }
{}

/// DS_UploadEnd is sent only after a finished upload was filed and the core has reported its set as durable.
pub fn an_upload_ends_once_durable()
    ensures { (port : ℕ) (history : List Happening) (value : PortValue) → HasLed port history value
        → wanted value.port value.stage ≡ AnswerTo (commanded command.UploadEnd) → IsDurable port history }
{}

/// After a loss a machine keeps only the permit that it held, and only to return it. Then it is settled as lost, and when it
/// is woken it starts with any work that the core returns.
pub fn a_loss_keeps_nothing()
    ensures lost { (old new : PortValue) (wants : Wanted) → Happens old (Did wants input.Lost) new
        → IsLostWith (held_by old.stage) new.stage }
    ensures returns { (port : ℕ) (holder : Held) → wanted port (Returning holder rest.Lost) ≡ ReplyTo (return_of holder) }
    ensures starts { (value : PortValue) (work : Work)
        → fed (at_stage value (Attending (attend.Waking rest.Lost))) (input.Reply (reply.Attended (Some work))) ≡ started value work }
{}

/// A port that settles with a new status has the reason for it. It is off if the core has said that the port is not there or
/// not IOL_MANUAL, a mismatch if the device's page has that fault, and ready if the page fits the configuration.
pub fn a_port_settles_for_its_reason()
    ensures { (port : ℕ) (history : List Happening) (old new : PortValue) (latest : Happening) (own : Rest) → HasLed port history old
        → Happens old latest new → new.stage ≡ Settled own → (status_of old.stage ≡ status_of new.stage → ⊥)
        → IsJudged own (latest ∷ history) }
{}

/// A port becomes ready only in one of four cases. Its page was read, and nothing is to be restored. The device was found and
/// examined, and the decision was `Ready`. A permit to download is returned, and since it was given the set that came with it
/// was written whole, each request answered (+). The device answered (+) to DS_UploadEnd, and what it uploaded is durable. A
/// port becomes `ReadyLocked` or `ReadyEmpty` only by that decision. So no port becomes ready by a download or a DS_UploadEnd
/// that its device refused, nor if a download was decided and not made.
pub fn a_ready_port_has_its_set()
    ensures ready { (port : ℕ) (history : List Happening) (old new : PortValue) (latest : Happening) (page : PageValue)
        → HasLed port history old
        → Happens old latest new → new.stage ≡ Settled (rest.Ready page) → (status_of old.stage ≡ status_of new.stage → ⊥)
        → IsRestored port page (latest ∷ history) }
    ensures locked { (port : ℕ) (history : List Happening) (old new : PortValue) (latest : Happening) (page : PageValue)
        → HasLed port history old
        → Happens old latest new → new.stage ≡ Settled (rest.ReadyLocked page) → (status_of old.stage ≡ status_of new.stage → ⊥)
        → IsSoDecided decision.ReadyLocked page (latest ∷ history) }
    ensures empty { (port : ℕ) (history : List Happening) (old new : PortValue) (latest : Happening) (page : PageValue)
        → HasLed port history old
        → Happens old latest new → new.stage ≡ Settled (rest.ReadyEmpty page) → (status_of old.stage ≡ status_of new.stage → ⊥)
        → IsSoDecided decision.ReadyEmpty page (latest ∷ history) }
{}

/// A port that settles after reading a page is off, or keeps the page that was read, in every field: VendorID, DeviceID,
/// RevisionID, MinCycleTime, and whether ISDU is supported. So a settled port stays as it was only if the device that it
/// finds has the page that the port keeps.
pub fn a_settled_port_keeps_its_page()
    ensures { (connection : ℕ) (octets : List ℕ) (old new : PortValue) (own : Rest)
        → Happens old (Did ThePage (input.Page connection octets)) new
        → new.stage ≡ Settled own → (own ≡ rest.Off) ⊎ (page_at own ≡ Some (page_of octets)) }
{}

/// A machine returns the permit of a failed transfer only after it sent DS_Break to the device and got an answer, while it held
/// the permit. A failed upload whose permit the core took with the set also sends DS_Break next. That happens if nothing more is
/// stored, the port was configured again, or the core cannot say whether the set is durable.
pub fn a_failed_transfer_is_broken_off()
    ensures returns { (old new : PortValue) (wants : Wanted) (heard : Input) (holder : Held) (why : PortFault)
        → Happens old (Did wants heard) new
        → new.stage ≡ Returning holder (rest.Failed why)
        → (held_by old.stage ≡ Some holder) × (wants ≡ AnswerTo (commanded command.Break))
        × ((octets : ArrayVec ℕ) × (heard ≡ input.Octets octets)) }
    ensures stopped { (old new : PortValue) (wants : Wanted)
        → Happens old (Did wants (input.Reply (reply.FinishedUpload (Err finish.Stopped)))) new
        → wanted new.port new.stage ≡ AnswerTo (commanded command.Break) }
    ensures changed { (old new : PortValue) (wants : Wanted)
        → Happens old (Did wants (input.Reply (reply.FinishedUpload (Err finish.ConfigChanged)))) new
        → wanted new.port new.stage ≡ AnswerTo (commanded command.Break) }
    ensures unsure { (old new : PortValue) (wants : Wanted) → Happens old (Did wants (input.Reply (reply.Ticket ticket.Unsure))) new
        → wanted new.port new.stage ≡ AnswerTo (commanded command.Break) }
{}

/// The permit that the core has given for a port is the one that its machine holds, and there is none if it holds none. Events
/// and answers of the link do not change the held permit. A call of the core gives or takes it, and the end of the machine
/// returns it.
pub fn a_permit_is_held_or_spent()
    ensures link { (port : ℕ) (history : List Happening) (old new : PortValue) (wants : Wanted) (heard : Input) → HasLed port history old
        → IsOfLink heard
        → Happens old (Did wants heard) new → held_by new.stage ≡ held_by old.stage }
    ensures calls { (start : Start) (before after : CoreView) (port : ℕ) (history : List Happening) (old new : PortValue) (call : Call)
        (heard : Reply)
        → IsCore start before → HasLed port history old → HasOut before port (held_by old.stage)
        → Happens old (Did (ReplyTo call) (input.Reply heard)) new → Replies call before after heard
        → HasOut after port (held_by new.stage) }
    ensures end { (core : CoreView) (port : ℕ) (stage : Stage) → HasOut core port (held_by stage)
        → permit_at (ended core stage) port ≡ None }
{}
