//! The calls that a client makes in a thread of its own, and their answers.

use crossbeam_channel::{Receiver, Sender};
use iol_front::Name;
use iol_master::{CallFault, Client, ReadFault, Receipt, WatchFault};
use iol_port::PortStatus;
use iol_types::{DeviceId, Label, PortConfig, PortId, PortMode, Validation};
use std::alloc::Global;
use std::sync::Wait;
use std::{fmt, thread};

// The DeviceID that the examples use.
const SENSOR: u32 = 0xABCD;

/// A client, with the channels for its answers, for its receipts, and for the receipts of other clients.
#[derive(Drop)]
pub(crate) struct Asking<F: Name> {
    pub(crate) number: usize,
    pub(crate) client: Client<F>,
    pub(crate) told: Sender<ClientAnswer, Global>,
    pub(crate) granted: Sender<Receipt<F>, Global>,
    pub(crate) receipts: Receiver<Receipt<F>, Global>,
}

/// The answer to a client, with the client's number.
#[derive(Clone, Copy)]
pub(crate) struct ClientAnswer {
    client: usize,
    answer: CallResult,
}

#[derive(Clone, Copy)]
enum CallResult {
    Receipt(u64),
    Met(u64),
    Read {
        number: u64,
        revision: u64,
        device: u32,
    },
    Status(PortStatus),
    NoReceipt(CallFault),
    Unread(ReadFault),
    Unwatched(WatchFault),
}

impl fmt::Display for ClientAnswer {
    fn fmt<W: fmt::Write>(&self, f: &mut fmt::Formatter<W>) -> fmt::Result {
        write!(f, "{} ", self.client)?;
        match self.answer {
            CallResult::Receipt(number) => write!(f, "receipt {number}"),
            CallResult::Met(number) => write!(f, "met {number}"),
            CallResult::Read {
                number,
                revision,
                device,
            } => write!(f, "read {number} revision {revision} device {device}"),
            CallResult::Status(status) => write!(f, "status {status:?}"),
            CallResult::NoReceipt(fault) => write!(f, "{fault}"),
            CallResult::Unread(fault) => write!(f, "{fault}"),
            CallResult::Unwatched(fault) => write!(f, "{fault}"),
        }
    }
}

impl<F: Name> Asking<F> {
    /// Makes the calls of a word, one after another.
    pub(crate) fn ask_all<R: Wait>(mut self, rt: &R, word: &str) {
        for (place, call) in word.as_bytes().chunks(2).enumerate() {
            if let [what, digit] = call
                && let Some(port) = PortId::new(digit.wrapping_sub(b'0'))
            {
                self.ask(rt, place, *what, port);
            }
        }
    }

    // Makes one call, which has this place in its word.
    fn ask<R: Wait>(&mut self, rt: &R, place: usize, what: u8, port: PortId) {
        match what {
            b'c' => {
                let answer = self.client.clear(rt, port);
                self.tell_call(rt, answer);
            }
            b'f' => self.configure(rt, port, u32::try_from(place).unwrap_or(0)),
            b's' => self.configure(rt, port, SENSOR),
            b'm' => self.meet(rt),
            b'n' => self.wait(rt, port),
            b't' => self.look(rt, port),
            b'w' => self.watch(rt, port),
            _ => self.read(rt, port),
        }
    }

    // Configures a port for the device with this number.
    fn configure<R: Wait>(&mut self, rt: &R, port: PortId, device: u32) {
        if let Some(config) = config_for(device) {
            let answer = self.client.configure(rt, port, config);
            self.tell_call(rt, answer);
        }
    }

    fn tell_call<R: Wait>(&mut self, rt: &R, answer: Result<Receipt<F>, CallFault>) {
        match answer {
            Ok(receipt) => {
                self.tell(rt, CallResult::Receipt(receipt.number));
                let _ = self.granted.send(rt, receipt);
            }
            Err(fault) => self.tell(rt, CallResult::NoReceipt(fault)),
        }
    }

    // Waits for another client's receipt, and meets it.
    fn meet<R: Wait>(&mut self, rt: &R) {
        if let Ok(mut receipt) = self.receipts.recv(rt) {
            self.client.meet(&mut receipt.pass);
            self.tell(rt, CallResult::Met(receipt.number));
        }
    }

    // Reads a port. After a fault other than `UnknownPort` it reads again.
    fn read<R: Wait>(&mut self, rt: &R, port: PortId) {
        for _ in rt.forever() {
            match self.client.read(rt, port) {
                Ok(view) => {
                    let read = CallResult::Read {
                        number: view.number,
                        revision: view.port.revision(),
                        device: view.port.config().device.number(),
                    };
                    return self.tell(rt, read);
                }
                Err(fault) => {
                    self.tell(rt, CallResult::Unread(fault));
                    if fault == ReadFault::UnknownPort {
                        return;
                    }
                }
            }
            thread::yield_now();
        }
    }

    // Reports the status of a port.
    fn look<R: Wait>(&mut self, rt: &R, port: PortId) {
        match self.client.status(rt, port) {
            Some(status) => self.tell(rt, CallResult::Status(status)),
            None => self.tell(rt, CallResult::Unwatched(WatchFault::UnknownPort)),
        }
    }

    // Reports the next status of a port that is off.
    fn wait<R: Wait>(&mut self, rt: &R, port: PortId) {
        match self.client.watch(rt, port, PortStatus::Off) {
            Ok(status) => self.tell(rt, CallResult::Status(status)),
            Err(fault) => self.tell(rt, CallResult::Unwatched(fault)),
        }
    }

    // Watches a port until it has settled with its device, and then reports its status. It continues to watch a port
    // that is off.
    fn watch<R: Wait>(&mut self, rt: &R, port: PortId) {
        let mut last = PortStatus::Off;
        for _ in rt.forever() {
            match self.client.watch(rt, port, last) {
                Ok(status) if is_settled(status) => return self.tell(
                    rt,
                    CallResult::Status(status),
                ),
                Ok(status) => last = status,
                Err(fault) => return self.tell(rt, CallResult::Unwatched(fault)),
            }
        }
    }

    fn tell<R: Wait>(&mut self, rt: &R, answer: CallResult) {
        let client = self.number;
        let _ = self.told.send(rt, ClientAnswer { client, answer });
    }
}

// Returns whether a port has done all that it has to do with its device.
fn is_settled(status: PortStatus) -> bool {
    match status {
        PortStatus::Ready | PortStatus::ReadyLocked | PortStatus::ReadyEmpty => true,
        PortStatus::Mismatch(_) | PortStatus::Failed(_) => true,
        PortStatus::Off | PortStatus::Lost | PortStatus::Starting => false,
        PortStatus::Uploading | PortStatus::Storing | PortStatus::Downloading => false,
    }
}

// Returns the configuration for the device with this number, whose parameters are kept.
fn config_for(device: u32) -> Option<PortConfig> {
    Some(PortConfig {
        mode: PortMode::IolManual,
        validation: Validation::BackupAndRestore,
        vendor: 500,
        device: DeviceId::new(device)?,
        label: Label::empty(),
    })
}
