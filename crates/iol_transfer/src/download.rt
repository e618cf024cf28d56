//! A download: the conversation that writes a parameter set to a device.
ghost use Rattle.std.specs.Prelude.{◌≡◌, ◌≤◌, ℕ, List, [], ◌∷◌, ◌++◌, length, drop};
ghost use Rattle.iol_types.specs.DataSet.{SetValue};
ghost use Rattle.iol_link.specs.declared.messages.TheConstants.{DATA_OCTETS};
ghost use Rattle.iol_transfer.specs.Exchanges.{Exchange};
ghost use Rattle.iol_transfer.specs.Download.{entry_written};

use crate::command::DsCommand;
use crate::fault::TransferFault;
use crate::repeats::Repeats;
use arrayvec::ArrayVec;
use iol_link::{Answer, DATA_OCTETS, Request};
use iol_types::{DataSet, Key};
use std::marker::Model;
use std::sync::Arc;

/// The effect of an answer on a download.
#[derive(Drop)]
pub enum DownloadStep {
    /// It continues with the next request.
    More,
    /// It has ended: the device has the whole set.
    Whole,
    /// It has ended before the device had the whole set.
    Fault(TransferFault),
}

// The next request of a download.
#[derive(Drop)]
enum Progress {
    // DS_DownloadStart.
    Starting,
    // The entry at this place; after the last entry, DS_DownloadEnd.
    Writing { place: usize },
}

/// A download in progress. It allocates no memory. A contract sees the record `Sender` of `specs/Download.antt`, and says
/// what it means for the exchanges since the download began.
#[derive(Drop)]
pub struct Download {
    set: Arc<DataSet>,
    repeats: Repeats,
    progress: Progress,
}

impl Model for Download {
    ghost use Rattle.iol_transfer.specs.Download.{Sender};

    ghost Value = { Sender };

    ghost use Rattle.iol_transfer.specs.Download.{sender_of};

    ghost view = { sender_of };
}

impl Download {
    ghost use Rattle.iol_transfer.specs.Download.{IsDownload, IsSending, DownloadEndsIn, begun_download, sent_by, writing, answered_to};
    ghost use Rattle.iol_transfer.specs.Download.{IsDownloading, IsDownloadStep, IfGoesOn, IfDone, IfEnds};

    /// Begins a download of this set.
    pub fn begin(set: Arc<DataSet>) -> Download
        ensures begun { result ≡ begun_download set.value }
        ensures since { IsDownloading set.value [] result }
    {
        Download {
            set,
            repeats: Repeats::none(),
            progress: Progress::Starting,
        }
    }

    /// The request to send: the next one in the order of a download of the set, after each earlier one was answered (+).
    pub fn next(&self) -> Request
        ensures sent { result ≡ sent_by self.now.sends }
        ensures order { (set : SetValue) (conversation : List Exchange) → IsDownloading set conversation self.now
            → IsSending set conversation result self.now.busy }
    {
        self.request()
    }

    /// Takes the answer to the request that was next. A download that has ended must not be given more answers; its next
    /// request then has no meaning.
    ///
    /// `Whole` is returned exactly if DS_DownloadEnd was answered (+): the exchanges since [`begin`](Download::begin) are
    /// then a whole download of the set.
    ///
    /// # Errors
    /// The step `Fault` is returned only for its cause, and is `Refused`, `Unexpected` or `Busy`.
    pub fn feed(&mut self, answer: Answer) -> DownloadStep
        ensures step { IsDownloadStep self.old answer result self.new }
        ensures more { IfGoesOn result ((set : SetValue) (conversation : List Exchange) → IsDownloading set conversation self.old
            → IsDownloading set (conversation ++ answered_to self.old answer ∷ []) self.new) }
        ensures whole { IfDone result ((set : SetValue) (conversation : List Exchange) → IsDownloading set conversation self.old
            → IsDownload set (conversation ++ answered_to self.old answer ∷ [])) }
        ensures only { (set : SetValue) (conversation : List Exchange) → IsDownloading set conversation self.old
            → IsDownload set (conversation ++ answered_to self.old answer ∷ []) → result ≡ DownloadStep.Whole }
        ensures fault { IfEnds result (λ why. (set : SetValue) (conversation : List Exchange) → IsDownloading set conversation self.old
            → DownloadEndsIn set conversation answer why) }
    {
        self.take(answer)
    }

    // Builds the request that is sent next.
    fn request(&self) -> Request
        ensures { result ≡ sent_by self.now.sends }
    {
        match &self.progress {
            Progress::Starting => DsCommand::DownloadStart.request(),
            Progress::Writing { place } => match self.set.entry(*place) {
                Some((key, octets)) => write(key, octets),
                None => DsCommand::DownloadEnd.request(),
            },
        }
    }

    // Takes an answer.
    fn take(&mut self, answer: Answer) -> DownloadStep
        ensures { IsDownloadStep self.old answer result self.new }
    {
        match answer {
            Answer::Busy => match self.repeats.again() {
                Ok(()) => DownloadStep::More,
                Err(fault) => DownloadStep::Fault(fault),
            },
            Answer::WriteOk => self.written(),
            Answer::WriteFault { error, additional } => {
                DownloadStep::Fault(TransferFault::Refused { error, additional })
            }
            Answer::ReadOk(_) => DownloadStep::Fault(TransferFault::Unexpected),
            Answer::ReadFault { .. } => DownloadStep::Fault(TransferFault::Unexpected),
        }
    }

    // The step after an answer (+).
    fn written(&mut self) -> DownloadStep
        ensures { IsDownloadStep self.old Answer.WriteOk result self.new }
    {
        match self.progress {
            Progress::Starting => self.go_on(0),
            Progress::Writing { place } => {
                if place < self.set.len() {
                    self.go_on(place + 1)
                } else {
                    DownloadStep::Whole
                }
            }
        }
    }

    // Continues with the entry at this place.
    fn go_on(&mut self, place: usize) -> DownloadStep
        ensures step { result ≡ DownloadStep.More }
        ensures sender { self.new ≡ record { set = self.old.set; sends = writing (drop place self.old.set.entries); busy = 0 } }
    {
        self.progress = Progress::Writing { place };
        self.repeats = Repeats::none();
        DownloadStep::More
    }
}

// The request that writes a parameter.
fn write(key: Key, octets: &[u8]) -> Request
    requires { length octets.now ≤ DATA_OCTETS }
    ensures { result ≡ entry_written (key, octets.now) }
{
    let mut data = ArrayVec::new();
    let _ = data.try_extend_from_slice(octets);
    Request::Write {
        index: key.index,
        subindex: key.subindex,
        octets: data,
    }
}
