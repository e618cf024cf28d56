//! ISDUs with octets of the standard (IO-Link V1.1, ISDU), worked out by the check, which rejects an octet that is wrong in
//! both a definition and the code.

ghost use Rattle.std.specs.Prelude.{◌≡◌, ℕ, List, [], ◌∷◌, ◌++◌, length, map, replicate, take};
ghost use Rattle.arrayvec.specs.ArrayVec.{ArrayVec};
ghost use Rattle.iol_link.specs.Service.{code_of, service_at};
ghost use Rattle.iol_link.specs.Isdu.{IsAnswer, IsRequest, IsShortestRequest};
ghost use Rattle.iol_link.specs.Faults.{request_fault, answer_fault};
ghost use Rattle.iol_link.specs.declared.messages.TheConstants.{DATA_OCTETS};
ghost use Rattle.iol_link.specs.declared.parts.TheConstants.{ISDU_OCTETS};

use crate::faults::IsduFault;
use crate::messages::{Answer, Request};
use crate::service::{Access, IndexForm, Service, Sign};

/// The I-Service of each service. 0, 6, 7, 8, E and F belong to no service.
#[tactic(auto, unfolding(crate::specs::Service::service_at))]
pub fn services()
    ensures writes { map (λ form. code_of (Service.Request Access.Write form))
        (IndexForm.Index8 ∷ IndexForm.Index8Subindex ∷ IndexForm.Index16Subindex ∷ [])
        ≡ 0x1 ∷ 0x2 ∷ 0x3 ∷ [] }
    ensures reads { map (λ form. code_of (Service.Request Access.Read form))
        (IndexForm.Index8 ∷ IndexForm.Index8Subindex ∷ IndexForm.Index16Subindex ∷ [])
        ≡ 0x9 ∷ 0xA ∷ 0xB ∷ [] }
    ensures written { map (λ sign. code_of (Service.Response Access.Write sign))
        (Sign.Minus ∷ Sign.Plus ∷ []) ≡ 0x4 ∷ 0x5 ∷ [] }
    ensures read { map (λ sign. code_of (Service.Response Access.Read sign))
        (Sign.Minus ∷ Sign.Plus ∷ []) ≡ 0xC ∷ 0xD ∷ [] }
    ensures none { map service_at (0x0 ∷ 0x6 ∷ 0x7 ∷ 0x8 ∷ 0xE ∷ 0xF ∷ []) ≡ replicate 6 None }
{}

/// The shortest requests for Index 0010, 00FF and 0100, Subindex 0.
pub fn shortest_read_requests()
    ensures index_16 { IsShortestRequest (0x93 ∷ 0x10 ∷ 0x83 ∷ []) (Request.Read 0x0010 0) }
    ensures index_255 { IsShortestRequest (0x93 ∷ 0xFF ∷ 0x6C ∷ []) (Request.Read 0x00FF 0) }
    ensures index_256 { IsShortestRequest (0xB5 ∷ 0x01 ∷ 0x00 ∷ 0x00 ∷ 0xB4 ∷ []) (Request.Read 0x0100 0) }
{}

/// The longer requests for Index 0010, Subindex 0.
pub fn longer_read_requests()
    ensures with_subindex { IsRequest (0xA4 ∷ 0x10 ∷ 0x00 ∷ 0xB4 ∷ []) (Request.Read 0x0010 0) }
    ensures with_16_bits { IsRequest (0xB5 ∷ 0x00 ∷ 0x10 ∷ 0x00 ∷ 0xA5 ∷ []) (Request.Read 0x0010 0) }
{}

/// Requests with Subindex 01, for Index 0010 and 0100.
pub fn read_requests_with_a_subindex()
    ensures index_16 { IsShortestRequest (0xA4 ∷ 0x10 ∷ 0x01 ∷ 0xB5 ∷ []) (Request.Read 0x0010 1) }
    ensures index_256 { IsShortestRequest (0xB5 ∷ 0x01 ∷ 0x00 ∷ 0x01 ∷ 0xB5 ∷ []) (Request.Read 0x0100 1) }
{}

/// Requests that write 0A, in each index form.
pub fn write_requests()
    ensures index_16 { IsShortestRequest (0x14 ∷ 0x10 ∷ 0x0A ∷ 0x0E ∷ [])
        (Request.Write 0x0010 0 (record { items = 0x0A ∷ [] })) }
    ensures with_subindex { IsShortestRequest (0x25 ∷ 0x10 ∷ 0x01 ∷ 0x0A ∷ 0x3E ∷ [])
        (Request.Write 0x0010 1 (record { items = 0x0A ∷ [] })) }
    ensures index_256 { IsShortestRequest (0x36 ∷ 0x01 ∷ 0x00 ∷ 0x01 ∷ 0x0A ∷ 0x3C ∷ [])
        (Request.Write 0x0100 1 (record { items = 0x0A ∷ [] })) }
{}

/// The longest ISDU has 238 octets, and a message has at most 232 data octets.
pub fn limits()
    ensures octets { ISDU_OCTETS ≡ 238 }
    ensures data_octets { DATA_OCTETS ≡ 232 }
{}

/// Positive answers to a read, with no data, with 0A 64, and with 13, 14 and 232 zeros.
pub fn positive_answers()
    ensures no_data { IsAnswer (0xD2 ∷ 0xD2 ∷ []) (Answer.ReadOk (record { items = [] })) }
    ensures of_2 { IsAnswer (0xD4 ∷ 0x0A ∷ 0x64 ∷ 0xBA ∷ [])
        (Answer.ReadOk (record { items = 0x0A ∷ 0x64 ∷ [] })) }
    ensures of_13 { IsAnswer (0xDF ∷ (replicate 13 0x00 ++ 0xDF ∷ []))
        (Answer.ReadOk (record { items = replicate 13 0x00 })) }
    ensures of_14 { IsAnswer (0xD1 ∷ 0x11 ∷ (replicate 14 0x00 ++ 0xC0 ∷ []))
        (Answer.ReadOk (record { items = replicate 14 0x00 })) }
    ensures of_232 { IsAnswer (0xD1 ∷ 0xEB ∷ (replicate 232 0x00 ++ 0x3A ∷ []))
        (Answer.ReadOk (record { items = replicate 232 0x00 })) }
{}

/// The first octets of each positive answer to a read, with 13, 14 and 232 data octets.
pub fn beginnings()
    ensures of_13 { (octets : List ℕ) (values : ArrayVec ℕ) → length values.items ≡ 13
        → IsAnswer octets (Answer.ReadOk values) → take 1 octets ≡ 0xDF ∷ [] }
    ensures of_14 { (octets : List ℕ) (values : ArrayVec ℕ) → length values.items ≡ 14
        → IsAnswer octets (Answer.ReadOk values) → take 2 octets ≡ 0xD1 ∷ 0x11 ∷ [] }
    ensures of_232 { (octets : List ℕ) (values : ArrayVec ℕ) → length values.items ≡ 232
        → IsAnswer octets (Answer.ReadOk values) → take 2 octets ≡ 0xD1 ∷ 0xEB ∷ [] }
{}

/// The longest request: it writes 232 zeros to Index 0100, Subindex 0.
pub fn the_longest_write()
    ensures { IsShortestRequest
        (0x31 ∷ 0xEE ∷ 0x01 ∷ 0x00 ∷ 0x00 ∷ (replicate 232 0x00 ++ 0xDE ∷ []))
        (Request.Write 0x0100 0 (record { items = replicate 232 0x00 })) }
{}

/// The positive answer to a write, negative answers with ErrorCode 80 and AdditionalCode 11, and Device busy.
#[tactic(auto, unfolding(crate::specs::Service::service_at))]
pub fn other_answers()
    ensures written { IsAnswer (0x52 ∷ 0x52 ∷ []) Answer.WriteOk }
    ensures to_a_write { IsAnswer (0x44 ∷ 0x80 ∷ 0x11 ∷ 0xD5 ∷ []) (Answer.WriteFault 0x80 0x11) }
    ensures to_a_read { IsAnswer (0xC4 ∷ 0x80 ∷ 0x11 ∷ 0x55 ∷ []) (Answer.ReadFault 0x80 0x11) }
    ensures busy { IsAnswer (0x01 ∷ []) Answer.Busy }
    ensures no_fault { map answer_fault ((0x44 ∷ 0x80 ∷ 0x11 ∷ 0xD5 ∷ [])
        ∷ (0xC4 ∷ 0x80 ∷ 0x11 ∷ 0x55 ∷ []) ∷ (0x52 ∷ 0x52 ∷ []) ∷ (0x01 ∷ []) ∷ []) ≡ replicate 4 None }
{}

/// Octets that are reserved whatever follows them: I-Service 0 with a Length over 1, an I-Service without a service, Length 0
/// with any service, and ExtLength 0 to 16 and 239 to 255.
#[tactic(auto, unfolding(crate::specs::Service::service_at))]
pub fn reserved_beginnings()
    ensures length_with_0 { (rest : List ℕ) → map (λ first. request_fault (first ∷ rest)) (0x02 ∷ 0x03 ∷ 0x0F ∷ [])
        ≡ replicate 3 (Some IsduFault.Reserved) }
    ensures length_with_0_answer { (rest : List ℕ) → map (λ first. answer_fault (first ∷ rest)) (0x02 ∷ 0x03 ∷ 0x0F ∷ [])
        ≡ replicate 3 (Some IsduFault.Reserved) }
    ensures no_service { (rest : List ℕ) → map (λ first. request_fault (first ∷ rest)) (0x62 ∷ 0x72 ∷ 0x82 ∷ 0xE2 ∷ 0xF2 ∷ [])
        ≡ replicate 5 (Some IsduFault.Reserved) }
    ensures no_service_answer { (rest : List ℕ) → map (λ first. answer_fault (first ∷ rest)) (0x62 ∷ 0x72 ∷ 0x82 ∷ 0xE2 ∷ 0xF2 ∷ [])
        ≡ replicate 5 (Some IsduFault.Reserved) }
    ensures no_length { (rest : List ℕ) → map (λ first. request_fault (first ∷ rest))
        (0x10 ∷ 0x20 ∷ 0x30 ∷ 0x90 ∷ 0xA0 ∷ 0xB0 ∷ []) ≡ replicate 6 (Some IsduFault.Reserved) }
    ensures no_length_answer { (rest : List ℕ) → map (λ first. answer_fault (first ∷ rest))
        (0x40 ∷ 0x50 ∷ 0xC0 ∷ 0xD0 ∷ []) ≡ replicate 4 (Some IsduFault.Reserved) }
    ensures ext_length { (rest : List ℕ) → map (λ extended. request_fault (0x31 ∷ extended ∷ rest))
        (0x00 ∷ 0x0F ∷ 0x10 ∷ 0xEF ∷ 0xFF ∷ []) ≡ replicate 5 (Some IsduFault.Reserved) }
    ensures ext_length_answer { (rest : List ℕ) → map (λ extended. answer_fault (0xD1 ∷ extended ∷ rest))
        (0x00 ∷ 0x0F ∷ 0x10 ∷ 0xEF ∷ 0xFF ∷ []) ≡ replicate 5 (Some IsduFault.Reserved) }
{}

/// Octets of another service: No Service, Device busy, answers read as requests, and requests read as answers.
#[tactic(auto, unfolding(crate::specs::Service::service_at))]
pub fn other_services()
    ensures requests { map request_fault ((0x00 ∷ []) ∷ (0x01 ∷ []) ∷ (0xD2 ∷ 0xD2 ∷ []) ∷ (0x52 ∷ 0x52 ∷ [])
        ∷ (0x44 ∷ 0x80 ∷ 0x11 ∷ 0xD5 ∷ []) ∷ (0xC4 ∷ 0x80 ∷ 0x11 ∷ 0x55 ∷ []) ∷ []) ≡ replicate 6 (Some IsduFault.WrongService) }
    ensures answers { map answer_fault ((0x00 ∷ []) ∷ (0x93 ∷ 0x10 ∷ 0x83 ∷ []) ∷ (0xA4 ∷ 0x10 ∷ 0x01 ∷ 0xB5 ∷ [])
        ∷ (0xB5 ∷ 0x01 ∷ 0x00 ∷ 0x00 ∷ 0xB4 ∷ []) ∷ (0x14 ∷ 0x10 ∷ 0x0A ∷ 0x0E ∷ []) ∷ []) ≡ replicate 5 (Some IsduFault.WrongService) }
{}

/// Requests with a wrong number of octets: ExtLength is missing, the number is not the stated one, an address is incomplete,
/// data follow a read, and a write has 233 data octets.
#[tactic(auto, unfolding(crate::specs::Service::service_at))]
pub fn counts_of_requests()
    ensures stated { map request_fault ((0x91 ∷ []) ∷ (0x94 ∷ 0x10 ∷ 0x84 ∷ []) ∷ (0x93 ∷ 0x10 ∷ 0x00 ∷ 0x83 ∷ []) ∷ [])
        ≡ replicate 3 (Some IsduFault.Length) }
    ensures read { map request_fault ((0x92 ∷ 0x92 ∷ []) ∷ (0xA3 ∷ 0x10 ∷ 0xB3 ∷ []) ∷ (0xB4 ∷ 0x01 ∷ 0x00 ∷ 0xB5 ∷ [])
        ∷ (0x94 ∷ 0x10 ∷ 0x00 ∷ 0x84 ∷ []) ∷ []) ≡ replicate 4 (Some IsduFault.Length) }
    ensures write { map request_fault ((0x12 ∷ 0x12 ∷ []) ∷ (0x23 ∷ 0x10 ∷ 0x33 ∷ []) ∷ (0x34 ∷ 0x01 ∷ 0x00 ∷ 0x35 ∷ []) ∷ [])
        ≡ replicate 3 (Some IsduFault.Length) }
    ensures of_233_data_octets { (rest : List ℕ) → length rest ≡ 235
        → request_fault (0x11 ∷ 0xED ∷ rest) ≡ Some IsduFault.Length }
{}

/// Answers with a wrong number of octets: ExtLength is missing, the number is not the stated one, data follow a write, a
/// negative answer has one code or three, and a read has 233 or 235 data octets.
#[tactic(auto, unfolding(crate::specs::Service::service_at))]
pub fn counts_of_answers()
    ensures stated { map answer_fault ((0xD1 ∷ []) ∷ (0xD3 ∷ 0xD3 ∷ []) ∷ (0xD2 ∷ 0x00 ∷ 0xD2 ∷ []) ∷ [])
        ≡ replicate 3 (Some IsduFault.Length) }
    ensures carried { map answer_fault ((0x53 ∷ 0x00 ∷ 0x53 ∷ []) ∷ (0x43 ∷ 0x80 ∷ 0xC3 ∷ []) ∷ (0xC3 ∷ 0x80 ∷ 0x43 ∷ [])
        ∷ (0x45 ∷ 0x80 ∷ 0x11 ∷ 0x00 ∷ 0xD4 ∷ []) ∷ (0xC5 ∷ 0x80 ∷ 0x11 ∷ 0x00 ∷ 0x54 ∷ []) ∷ []) ≡ replicate 5 (Some IsduFault.Length) }
    ensures more_than_busy { answer_fault (0x01 ∷ 0x01 ∷ []) ≡ Some IsduFault.Length }
    ensures of_233_data_octets { (rest : List ℕ) → length rest ≡ 234
        → answer_fault (0xD1 ∷ 0xEC ∷ rest) ≡ Some IsduFault.Length }
    ensures of_235_data_octets { (rest : List ℕ) → length rest ≡ 236
        → answer_fault (0xD1 ∷ 0xEE ∷ rest) ≡ Some IsduFault.Length }
{}

/// If there are several faults, the first is named, in this order: no octet, a reserved value, another service, the number of
/// octets, CHKPDU.
#[tactic(auto, unfolding(crate::specs::Service::service_at))]
pub fn orders_of_faults()
    ensures empty { answer_fault [] ≡ Some IsduFault.Empty }
    ensures empty_request { request_fault [] ≡ Some IsduFault.Empty }
    ensures reserved { answer_fault (0x91 ∷ 0x10 ∷ []) ≡ Some IsduFault.Reserved }
    ensures reserved_request { request_fault (0xD1 ∷ 0x10 ∷ []) ≡ Some IsduFault.Reserved }
    ensures service { answer_fault (0x93 ∷ []) ≡ Some IsduFault.WrongService }
    ensures service_request { request_fault (0xD3 ∷ []) ≡ Some IsduFault.WrongService }
    ensures counted { answer_fault (0x44 ∷ 0x80 ∷ 0x11 ∷ []) ≡ Some IsduFault.Length }
    ensures counted_request { request_fault (0x93 ∷ 0x10 ∷ []) ≡ Some IsduFault.Length }
    ensures check { answer_fault (0x44 ∷ 0x80 ∷ 0x11 ∷ 0xD4 ∷ []) ≡ Some IsduFault.Check }
    ensures check_request { request_fault (0x93 ∷ 0x10 ∷ 0x82 ∷ []) ≡ Some IsduFault.Check }
{}
