//! Messages outside a transfer.

ghost use Rattle.std.specs.Prelude.{◌≡◌};
ghost use Rattle.iol_link.specs.Reading.{answer_of};
ghost use Rattle.iol_port.specs.Answers.{exchanged, state_read, checksum_read, upload_ended, failed, again};
ghost use Rattle.iol_port.specs.Stage.{IsStage, Exchanging, Breaking};
ghost use Rattle.iol_port.specs.View.{stage_of};

use crate::attending::attend;
use crate::fault::{PortFault, StoringFault};
use crate::stage::{AttendFor, AwaitsAnswer, ExchangeFor, FoundDevice, Held, Rest, Stage};
use iol_link::{Answer, IsduFault, Page, read_answer};
use iol_transfer::{MOST_REQUESTS, StateProperty, TransferFault};

// Reads octets as an answer, or returns their fault.
pub(crate) fn answer_in(octets: &[u8]) -> Result<Answer, IsduFault>
    ensures { result ≡ answer_of octets.now }
{
    read_answer(octets)
}

// Settles the port as failed.
pub(crate) fn fail(fault: PortFault) -> Stage
    ensures stage { stage_of result ≡ failed fault }
    ensures holds { IsStage (stage_of result) }
{
    Stage::Settled(Rest::Failed(fault))
}

// Sends a message outside a transfer, whose answer the port then awaits.
pub(crate) fn send(what: ExchangeFor) -> Stage
    ensures stage { stage_of result ≡ Exchanging what }
    ensures holds { IsStage (stage_of result) }
{
    Stage::Answer(AwaitsAnswer::Exchanging(what))
}

// Breaks a transfer off with DS_Break. The permit is returned after that.
pub(crate) fn break_off(held: Held, fault: PortFault) -> Stage
    ensures stage { stage_of result ≡ Breaking held fault }
    ensures holds { IsStage (stage_of result) }
{
    Stage::Answer(AwaitsAnswer::Breaking(held, fault))
}

// Sends a request to a busy device again, or fails if it was sent too often.
fn again(left: u8, next: ExchangeFor) -> Stage
    ensures stage { stage_of result ≡ again left next }
    ensures holds { IsStage (stage_of result) }
{
    if 1 < left {
        send(next)
    } else {
        fail(PortFault::Transfer(TransferFault::Busy))
    }
}

// Takes the device's answer to a message outside a transfer.
pub(crate) fn exchange(what: ExchangeFor, answer: Result<Answer, IsduFault>) -> Stage
    ensures stage { stage_of result ≡ exchanged what answer }
    ensures holds { IsStage (stage_of result) }
{
    match what {
        ExchangeFor::ReadingState { found, left } => read_state(found, left, answer),
        ExchangeFor::ReadingChecksum {
            found,
            property,
            left,
        } => read_checksum(found, property, left, answer),
        ExchangeFor::EndingUpload { page, left } => end_upload(page, left, answer),
        ExchangeFor::Stopping { .. } => fail(PortFault::Storing(StoringFault::Stopped)),
        ExchangeFor::Yielding => attend(AttendFor::Restarting),
    }
}

// Takes the answer to the read of State_Property.
fn read_state(found: FoundDevice, left: u8, answer: Result<Answer, IsduFault>) -> Stage
    ensures stage { stage_of result ≡ state_read found left answer }
    ensures holds { IsStage (stage_of result) }
{
    match answer {
        Ok(Answer::ReadOk(octets)) => match octets.as_slice() {
            [octet] => send(ExchangeFor::ReadingChecksum {
                found,
                property: StateProperty::read(*octet),
                left: MOST_REQUESTS,
            }),
            _ => fail(PortFault::Transfer(TransferFault::Unexpected)),
        },
        Ok(Answer::Busy) => again(
            left,
            ExchangeFor::ReadingState {
                found,
                left: left.saturating_sub(1),
            },
        ),
        other => fail(PortFault::of_read(other)),
    }
}

// Takes the answer to the read of Parameter_Checksum.
fn read_checksum(
    found: FoundDevice,
    property: StateProperty,
    left: u8,
    answer: Result<Answer, IsduFault>,
) -> Stage
    ensures stage { stage_of result ≡ checksum_read found property left answer }
    ensures holds { IsStage (stage_of result) }
{
    match answer {
        Ok(Answer::ReadOk(octets)) => match octets.as_slice() {
            [first, second, third, fourth] => attend(AttendFor::Confirming {
                found,
                property,
                checksum: u32::from_be_bytes([*first, *second, *third, *fourth]),
            }),
            _ => fail(PortFault::Transfer(TransferFault::Unexpected)),
        },
        Ok(Answer::Busy) => again(
            left,
            ExchangeFor::ReadingChecksum {
                found,
                property,
                left: left.saturating_sub(1),
            },
        ),
        other => fail(PortFault::of_read(other)),
    }
}

// Takes the answer to DS_UploadEnd.
fn end_upload(page: Page, left: u8, answer: Result<Answer, IsduFault>) -> Stage
    ensures stage { stage_of result ≡ upload_ended page left answer }
    ensures holds { IsStage (stage_of result) }
{
    match answer {
        Ok(Answer::WriteOk) => Stage::Settled(Rest::Ready(page)),
        Ok(Answer::Busy) => again(
            left,
            ExchangeFor::EndingUpload {
                page,
                left: left.saturating_sub(1),
            },
        ),
        other => fail(PortFault::of_write(other)),
    }
}
