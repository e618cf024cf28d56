//! Limits and conversations of the standard (IO-Link V1.1, Data Storage object), worked out by the check, which rejects a
//! number that is wrong in both a definition and the code.

ghost use Rattle.std.specs.Prelude.{◌≡◌, ℕ, List, [], ◌∷◌, map, replicate};
ghost use Rattle.arrayvec.specs.ArrayVec.{ArrayVec};
ghost use Rattle.iol_types.specs.DataSet.{Entry, SetValue};
ghost use Rattle.iol_types.specs.declared.key.Key.{Key};
ghost use Rattle.iol_link.specs.declared.messages.Request.TheVariants as request;
ghost use Rattle.iol_link.specs.declared.messages.Answer.TheVariants as answer;
ghost use Rattle.iol_transfer.specs.Exchanges.{Exchange, carried};
ghost use Rattle.iol_transfer.specs.Upload.{IsFinished};
ghost use Rattle.iol_transfer.specs.Asked.{Start, Size, IndexList, Value, Checksum, request_of};
ghost use Rattle.iol_transfer.specs.Download.{order_of};
ghost use Rattle.iol_transfer.specs.Examples.{example_upload};
ghost use Rattle.iol_transfer.specs.Machine.{More, Whole, Fault, step};
ghost use Rattle.iol_transfer.specs.declared.fault.TransferFault.TheVariants as fault;
ghost use Rattle.iol_transfer.specs.declared.repeats.TheConstants.{MOST_REQUESTS};
ghost use Rattle.iol_transfer.specs.declared.upload.TheConstants.{MOST_LISTS};

/// A request is sent at most sixteen times, and at most sixteen lists are read.
pub fn limits()
    ensures requests { MOST_REQUESTS ≡ 16 }
    ensures lists { MOST_LISTS ≡ 16 }
{}

/// The requests of an upload to the Data Storage object: a write of 01 to Subindex 1, and reads of Subindexes 3 and 4.
pub fn requests_of_an_upload()
    ensures start { request_of Start ≡ request.Write 3 1 (carried (0x01 ∷ [])) }
    ensures size { request_of Size ≡ request.Read 3 3 }
    ensures checksum { (entries : List Entry) → request_of (Checksum entries) ≡ request.Read 3 4 }
{}

/// The requests of a download of two parameters: a write of 03 to Subindex 1, a write of each parameter in order, and a
/// write of 04.
pub fn requests_of_a_download()
    ensures { order_of (record {
      entries = (record { index = 0x0040; subindex = 0x00 }, 0x0A ∷ 0x64 ∷ []) ∷
          (record { index = 0x0041; subindex = 0x01 }, 0x7F ∷ []) ∷ [];
      vendor = 0x01F4;
      device = 0x00ABCD;
      checksum = 0x024F;
    })
        ≡ request.Write 3 1 (carried (0x03 ∷ [])) ∷ request.Write 0x0040 0x00 (carried (0x0A ∷ 0x64 ∷ []))
        ∷ request.Write 0x0041 0x01 (carried (0x7F ∷ [])) ∷ request.Write 3 1 (carried (0x04 ∷ [])) ∷ [] }
{}

/// A finished upload of two parameters, whose start was answered Device busy once.
pub fn a_finished_upload()
    ensures { IsFinished 0x01F4 0x00ABCD
        (record { request = request.Write 3 1 (carried (0x01 ∷ [])); answer = answer.Busy }
        ∷ record { request = request.Write 3 1 (carried (0x01 ∷ [])); answer = answer.WriteOk }
        ∷ record { request = request.Read 3 3; answer = answer.ReadOk (carried (0x00 ∷ 0x00 ∷ 0x00 ∷ 0x0B ∷ [])) }
        ∷ record {
          request = request.Read 3 5;
          answer = answer.ReadOk
              (carried (0x00 ∷ 0x40 ∷ 0x00 ∷ 0x00 ∷ 0x41 ∷ 0x01 ∷ 0x00 ∷ 0x00 ∷ []));
        }
        ∷ record { request = request.Read 0x0040 0x00; answer = answer.ReadOk (carried (0x0A ∷ 0x64 ∷ [])) }
        ∷ record { request = request.Read 0x0041 0x01; answer = answer.ReadOk (carried (0x7F ∷ [])) }
        ∷ record { request = request.Read 3 4; answer = answer.ReadOk (carried (0x00 ∷ 0x00 ∷ 0x02 ∷ 0x4F ∷ [])) } ∷ [])
        (record {
          entries = (record { index = 0x0040; subindex = 0x00 }, 0x0A ∷ 0x64 ∷ []) ∷
              (record { index = 0x0041; subindex = 0x01 }, 0x7F ∷ []) ∷ [];
          vendor = 0x01F4;
          device = 0x00ABCD;
          checksum = 0x024F;
        }) }
{}

/// The sixteenth Device busy in a row ends an upload, and the fifteenth does not.
pub fn a_busy_device()
    ensures fifteenth { step (example_upload Start 14) answer.Busy ≡ More (example_upload Start 15) }
    ensures sixteenth { step (example_upload Start 15) answer.Busy ≡ Fault fault.Busy }
{}

/// A declared size has four octets and is at most 4,096; a checksum has four octets.
pub fn numbers()
    ensures most { step (example_upload Size 0) (answer.ReadOk (carried (0x00 ∷ 0x00 ∷ 0x10 ∷ 0x00 ∷ [])))
        ≡ More (example_upload (IndexList 3 5 0 []) 0) }
    ensures over { step (example_upload Size 0) (answer.ReadOk (carried (0x00 ∷ 0x00 ∷ 0x10 ∷ 0x01 ∷ []))) ≡ Fault fault.Size }
    ensures first_octet { step (example_upload Size 0) (answer.ReadOk (carried (0x01 ∷ 0x00 ∷ 0x00 ∷ 0x00 ∷ []))) ≡ Fault fault.Size }
    ensures three { step (example_upload Size 0) (answer.ReadOk (carried (0x00 ∷ 0x00 ∷ 0x0B ∷ []))) ≡ Fault fault.Unexpected }
    ensures sum { step (example_upload (Checksum []) 0) (answer.ReadOk (carried (0x00 ∷ 0x00 ∷ 0x02 ∷ 0x4F ∷ [])))
        ≡ Whole (record { entries = []; vendor = 500; device = 43981; checksum = 591 }) }
    ensures sum_of_five { step (example_upload (Checksum []) 0) (answer.ReadOk (carried (0x00 ∷ 0x00 ∷ 0x00 ∷ 0x02 ∷ 0x4F ∷ [])))
        ≡ Fault fault.Unexpected }
{}

/// The fifteenth list may name another, and the sixteenth may not; a list that cannot be read is a fault.
pub fn lists()
    ensures fifteenth { step (example_upload (IndexList 0x1200 0 14 []) 0) (answer.ReadOk (carried (0x00 ∷ 0x40 ∷ 0x00 ∷ 0x12 ∷ 0x01 ∷ [])))
        ≡ More (example_upload (IndexList 0x1201 0 15 (record { index = 0x0040; subindex = 0 } ∷ [])) 0) }
    ensures sixteenth { step (example_upload (IndexList 0x1201 0 15 []) 0) (answer.ReadOk (carried (0x00 ∷ 0x40 ∷ 0x00 ∷ 0x12 ∷ 0x02 ∷ [])))
        ≡ Fault fault.List }
    ensures last { step (example_upload (IndexList 0x1201 0 15 []) 0) (answer.ReadOk (carried (0x00 ∷ 0x00 ∷ [])))
        ≡ More (example_upload (Checksum []) 0) }
    ensures unread { map (λ octets. step (example_upload (IndexList 3 5 0 []) 0) (answer.ReadOk (carried octets)))
        ((0x00 ∷ []) ∷ (0x00 ∷ 0x02 ∷ []) ∷ (0x00 ∷ 0x03 ∷ 0x01 ∷ 0x00 ∷ 0x00 ∷ []) ∷ []) ≡ replicate 3 (Fault fault.List) }
{}

/// The device refuses the request, or its answer belongs to another service.
pub fn other_answers()
    ensures write { step (example_upload Start 0) (answer.WriteFault 0x80 0x23) ≡ Fault (fault.Refused 0x80 0x23) }
    ensures read { (key : Key) → step (example_upload (Value [] key []) 0) (answer.ReadFault 0x80 0x11) ≡ Fault (fault.Refused 0x80 0x11) }
    ensures to_a_write { map (step (example_upload Start 0)) (answer.ReadOk (carried []) ∷ answer.ReadFault 0x80 0x11 ∷ [])
        ≡ replicate 2 (Fault fault.Unexpected) }
    ensures to_a_read { map (step (example_upload Size 0)) (answer.WriteOk ∷ answer.WriteFault 0x80 0x11 ∷ [])
        ≡ replicate 2 (Fault fault.Unexpected) }
{}
