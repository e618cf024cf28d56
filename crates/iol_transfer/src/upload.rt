//! An upload: the conversation that reads a parameter set from a device.
ghost use Rattle.std.specs.Prelude.{IfOk, ◌≡◌, ℕ, List, [], ◌∷◌, ◌++◌, not};
ghost use Rattle.iol_types.specs.DataSet.{SetValue, IsSet};
ghost use Rattle.iol_link.specs.declared.messages.Answer.TheVariants as answer;
ghost use Rattle.iol_transfer.specs.Exchanges.{Exchange, carried};
ghost use Rattle.iol_transfer.specs.Upload.{IsFinished};
ghost use Rattle.iol_transfer.specs.Machine.{Machine, after_refusal};
ghost use Rattle.iol_transfer.specs.Fields.{IsOutcome, IfWhole};

use crate::command::DsCommand;
use crate::fault::TransferFault;
use crate::object::{DATA_STORAGE_SIZE, PARAMETER_CHECKSUM};
use crate::repeats::Repeats;
use crate::stage::{UploadStage, list_read, number, size_read, value_read};
use iol_link::{Answer, Request};
use iol_types::{DATA_STORAGE, DataSet, DeviceId, SetBuilder};
use std::alloc::Global;
use std::marker::Model;

/// The most index lists that an upload reads.
pub const MOST_LISTS: u8 = 16;

/// The effect of an answer on an upload.
#[derive(Drop)]
pub enum UploadStep {
    /// It continues with the next request.
    More,
    /// It has ended with one whole set.
    Whole(DataSet),
    /// It has ended without a set.
    Fault(TransferFault),
}

/// An upload in progress. A contract sees the record `Machine` of `specs/Machine.antt`, and says what it means for the
/// exchanges since the upload began.
#[derive(Drop)]
pub struct Upload {
    alloc: Global,
    vendor: u16,
    device: DeviceId,
    repeats: Repeats,
    stage: UploadStage,
}

impl Model for Upload {
    ghost use Rattle.iol_transfer.specs.Machine.{Machine};

    ghost Value = { Machine };

    ghost use Rattle.iol_transfer.specs.Fields.{machine_of, IsStage};

    ghost view = { machine_of };

    ghost invariant = { λ u. IsStage u.stage };
}

impl Upload {
    ghost use Rattle.iol_transfer.specs.Asked.{IsNext, IsShort, EndsIn, is_write};
    ghost use Rattle.iol_transfer.specs.Machine.{asked, answered, step, after_read, after_write, after_busy, after_checksum, IsSinceBegin};
    ghost use Rattle.iol_transfer.specs.Fields.{IsStage, IfMore, IfFault, IsWholeOrMemory, GoesOn};

    /// Begins an upload from a device with these numbers. It allocates memory for its keys and values.
    pub fn begin(alloc: Global, vendor: u16, device: DeviceId) -> Upload
        ensures { IsSinceBegin vendor device [] result }
    {
        Upload {
            alloc,
            vendor,
            device,
            repeats: Repeats::none(),
            stage: UploadStage::Starting,
        }
    }

    /// The request to send: the next one in the order of an upload, given the answers so far.
    pub fn next(&self) -> Request
        ensures asked { result ≡ asked self.now }
        ensures order { (vendor device : ℕ) (conversation : List Exchange) → IsSinceBegin vendor device conversation self.now
            → IsNext conversation result }
    {
        self.request()
    }

    /// Takes the answer to the request that was next. An upload that has ended must not be given more answers; its next
    /// request then has no meaning.
    ///
    /// `Whole` is returned exactly if the exchanges since [`begin`](Upload::begin) are a finished upload of that set, unless
    /// memory ran out.
    ///
    /// # Errors
    /// The step `Fault` is returned only for its cause, as [`TransferFault`] says; `Memory` only if there were keys or a value
    /// to keep.
    pub fn feed(&mut self, answer: Answer) -> UploadStep
        ensures step { IsOutcome self.old answer result self.new (step self.old answer) }
        ensures more { IfMore result ((vendor device : ℕ) (conversation : List Exchange) → IsSinceBegin vendor device conversation self.old
            → IsSinceBegin vendor device (conversation ++ answered self.old answer ∷ []) self.new) }
        ensures whole { IfWhole result (λ set. (vendor device : ℕ) (conversation : List Exchange)
            → IsSinceBegin vendor device conversation self.old
            → IsFinished vendor device (conversation ++ answered self.old answer ∷ []) set) }
        ensures only { (vendor device : ℕ) (conversation : List Exchange) (set : SetValue)
            → IsSinceBegin vendor device conversation self.old
            → IsFinished vendor device (conversation ++ answered self.old answer ∷ []) set → IsWholeOrMemory result set }
        ensures fault { IfFault result (λ why. (vendor device : ℕ) (conversation : List Exchange)
            → IsSinceBegin vendor device conversation self.old
            → EndsIn conversation answer why) }
    {
        self.take(answer)
    }

    // Builds the request that is sent next.
    fn request(&self) -> Request
        ensures { result ≡ asked self.now }
    {
        match &self.stage {
            UploadStage::Starting => DsCommand::UploadStart.request(),
            UploadStage::Sizing => Request::Read {
                index: DATA_STORAGE,
                subindex: DATA_STORAGE_SIZE,
            },
            UploadStage::Listing {
                index,
                subindex,
                ..
            } => Request::Read {
                index: *index,
                subindex: *subindex,
            },
            UploadStage::Reading { keys, place, .. } => match keys.get(*place) {
                Some(key) => Request::Read {
                    index: key.index,
                    subindex: key.subindex,
                },
                None => Request::Read {
                    index: DATA_STORAGE,
                    subindex: PARAMETER_CHECKSUM,
                },
            },
        }
    }

    // Takes an answer.
    fn take(&mut self, answer: Answer) -> UploadStep
        ensures step { IsOutcome self.old answer result self.new (step self.old answer) }
        ensures set { IfWhole result IsSet }
        ensures short { IsShort answer }
    {
        match answer {
            Answer::Busy => self.wait(),
            Answer::ReadOk(octets) => self.read(octets.as_slice()),
            Answer::WriteOk => self.written(),
            Answer::ReadFault { error, additional } => refused(!self.writes(), error, additional),
            Answer::WriteFault { error, additional } => refused(self.writes(), error, additional),
        }
    }

    // Whether the next request is a write.
    fn writes(&self) -> bool
        ensures { result ≡ is_write self.now.asks }
    {
        matches!(&self.stage, UploadStage::Starting)
    }

    // The step after Device busy.
    fn wait(&mut self) -> UploadStep
        ensures step { IsOutcome self.old answer.Busy result self.new (after_busy self.old) }
        ensures set { IfWhole result IsSet }
    {
        match self.repeats.again() {
            Ok(()) => UploadStep::More,
            Err(fault) => UploadStep::Fault(fault),
        }
    }

    // The step after a write was answered (+).
    fn written(&mut self) -> UploadStep
        ensures step { IsOutcome self.old answer.WriteOk result self.new (after_write self.old self.old.asks) }
        ensures set { IfWhole result IsSet }
    {
        if !self.writes() {
            return UploadStep::Fault(TransferFault::Unexpected);
        }
        self.stage = UploadStage::Sizing;
        self.repeats = Repeats::none();
        UploadStep::More
    }

    // The step after octets were read.
    fn read(&mut self, octets: &[u8]) -> UploadStep
        ensures step { IsOutcome self.old (answer.ReadOk (carried octets.now)) result self.new
            (after_read self.old self.old.asks octets.now) }
        ensures set { IfWhole result IsSet }
    {
        match std::mem::replace(&mut self.stage, UploadStage::Starting) {
            UploadStage::Starting => UploadStep::Fault(TransferFault::Unexpected),
            UploadStage::Sizing => self.go_on(size_read(self.alloc, octets)),
            UploadStage::Listing {
                index,
                subindex,
                lists,
                keys,
            } => self.go_on(list_read(self.alloc, index, subindex, lists, keys, octets)),
            UploadStage::Reading {
                keys,
                place,
                entries,
            } => {
                if place < keys.len() {
                    self.go_on(value_read(keys, place, entries, octets))
                } else {
                    self.end(entries, octets)
                }
            }
        }
    }

    // Continues with this stage.
    fn go_on(&mut self, next: Result<UploadStage, TransferFault>) -> UploadStep
        requires { IfOk next IsStage }
        ensures { GoesOn self.old next result self.new }
    {
        match next {
            Ok(stage) => {
                self.stage = stage;
                self.repeats = Repeats::none();
                UploadStep::More
            }
            Err(fault) => UploadStep::Fault(fault),
        }
    }

    // Ends with the set of these entries, if the octets are a checksum.
    fn end(&mut self, entries: SetBuilder, octets: &[u8]) -> UploadStep
        ensures step { IsOutcome self.old (answer.ReadOk (carried octets.now)) result self.new
            (after_checksum self.old entries octets.now) }
        ensures set { IfWhole result IsSet }
    {
        match number(octets) {
            Ok(checksum) => UploadStep::Whole(entries.finish(self.vendor, self.device, checksum)),
            Err(fault) => UploadStep::Fault(fault),
        }
    }
}

// The step after an answer (-), which belongs to the requested service or to the other.
fn refused(right: bool, error: u8, additional: u8) -> UploadStep
    ensures step { (old new : Machine) (answer : Answer) → IsOutcome old answer result new (after_refusal right error additional) }
    ensures set { IfWhole result IsSet }
{
    if right {
        UploadStep::Fault(TransferFault::Refused { error, additional })
    } else {
        UploadStep::Fault(TransferFault::Unexpected)
    }
}
