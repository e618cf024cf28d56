//! Makes lines out of the octets of a transport.

ghost use Rattle.std.specs.Prelude.{◌≡◌, ◌∷◌, ◌++◌, ◌⊎◌, ◌-◌, ◌^◌, List, [], ℕ, length, OnOk, OnErr, IfOk};
ghost use Rattle.iol_wire.specs.Transport.{TransportCall, Missing, Run, send_call};
ghost use Rattle.iol_wire.specs.Hearing.{Connects, IsRest, IsWhole, SkipsRest, BreaksLine, ended, received};

use crate::reading::LINE_OCTETS;
use crate::transport::{Opening, Position, Transport, TransportFault};
use crate::writing::LINE_FEED;
use arrayvec::ArrayVec;

/// The octets stopped, or were too many, before their line ended.
#[derive(Clone, Copy, Debug, Drop)]
pub(crate) struct Unended;

/// A transport, and the place in a line where its next octets begin.
#[derive(Drop)]
pub(crate) struct LineStream<T: Transport> {
    transport: T,
    position: Position,
}

impl<T: Transport> LineStream<T> {
    pub(crate) fn new(transport: T) -> LineStream<T>
        ensures transport { result.transport ≡ transport }
        ensures position { result.position ≡ Position.LineStart }
    {
        LineStream {
            transport,
            position: Position::LineStart,
        }
    }

    pub(crate) fn into_transport(self) -> T
        ensures { result ≡ self.transport }
    {
        let LineStream {
            transport,
            position: _,
        } = self;
        transport
    }

    // Begins a request. If the connection was opened again, its octets begin where the transport
    // says.
    pub(crate) fn connect(&mut self) -> Result<(), TransportFault>
        ensures connected { OnOk result ((opening : TransportCall) × Connects self.old.position opening self.new.position
            × Run T.moves self.old.transport (opening ∷ []) self.new.transport) }
        ensures missing { OnErr result (Run T.moves self.old.transport (Missing ∷ []) self.new.transport) }
        ensures same { OnErr result (self.new.position ≡ self.old.position) }
    {
        match self.transport.connect()? {
            Opening::Stayed => {}
            Opening::Anew(position) => self.position = position,
        }
        Ok(())
    }

    pub(crate) fn send(&mut self, octets: &[u8]) -> Result<(), TransportFault>
        ensures sent { Run T.moves self.old.transport (send_call octets.now result ∷ []) self.new.transport }
        ensures same { self.new.position ≡ self.old.position }
    {
        self.transport.send(octets)
    }

    // Drops the rest of a line, if the next octets begin within one.
    pub(crate) fn skip_rest(&mut self) -> Result<(), Unended>
        ensures dropped { OnOk result ((dropped : List ℕ) × IsRest self.old.position dropped
            × Run T.moves self.old.transport (received dropped) self.new.transport) }
        ensures at_start { OnOk result (self.new.position ≡ Position.LineStart) }
        ensures unended { OnErr result ((calls : List TransportCall) × SkipsRest self.old.position calls self.new.position
            × Run T.moves self.old.transport calls self.new.transport) }
    {
        if self.position == Position::LineStart {
            return Ok(());
        }
        for _ in 0..u64::MAX {
            match self.transport.receive() {
                Ok(LINE_FEED) => {
                    self.position = Position::LineStart;
                    return Ok(());
                }
                Ok(_) => {}
                Err(_) => return Err(Unended),
            }
        }
        Err(Unended)
    }

    // Reads the next line and returns it without its line feed.
    pub(crate) fn next_line(&mut self) -> Result<ArrayVec<u8, LINE_OCTETS>, Unended>
        requires { self.old.position ≡ Position.LineStart }
        ensures line { IfOk result (λ line. IsWhole line.items
            × Run T.moves self.old.transport (received (ended line.items)) self.new.transport) }
        ensures at_start { OnOk result (self.new.position ≡ Position.LineStart) }
        ensures unended { OnErr result ((part : List ℕ) × (ending : List TransportCall) × BreaksLine part ending self.new.position
            × Run T.moves self.old.transport (received part ++ ending) self.new.transport) }
    {
        let mut line = ArrayVec::new();
        for _ in 0..=LINE_OCTETS {
            match self.transport.receive() {
                Ok(LINE_FEED) => {
                    self.position = Position::LineStart;
                    return Ok(line);
                }
                Ok(octet) => {
                    self.position = Position::WithinLine;
                    if line.is_full() {
                        return Err(Unended);
                    }
                    line.push(octet);
                }
                Err(_) => return Err(Unended),
            }
        }
        Err(Unended)
    }
}
