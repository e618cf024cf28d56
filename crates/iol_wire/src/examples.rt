//! Lines of a driver and of requests, and their effect on a link, worked out by the check.

ghost use Rattle.std.specs.Prelude.{◌≡◌, ℕ, List, [], ◌∷◌, ◌++◌, codes, flat_map, length, map, replicate};
ghost use Rattle.iol_wire.specs.Lines.{meaning};
ghost use Rattle.iol_wire.specs.Events.{kept};
ghost use Rattle.iol_wire.specs.Hearing.{Passes, Fails, IsRest, position_after};
ghost use Rattle.iol_wire.specs.Requests.{Page, Isdu, FitsLine, request_line};
ghost use Rattle.iol_wire.specs.Wire.{lost, octets_of};
ghost use Rattle.iol_wire.specs.declared.events.TheConstants.{KEPT_EVENTS};
ghost use Rattle.iol_wire.specs.declared.reading.TheConstants.{LINE_OCTETS};
ghost use Rattle.iol_wire.specs.declared.writing.TheConstants.{REQUEST_LINE_OCTETS};

use crate::line::{Line, Reply};
use crate::transport::Position;

/// An event has its EventCode as four hexadecimal digits of either case.
pub fn events()
    ensures upper { meaning (codes "event 8C40") ≡ Line.Event 0x8C40 }
    ensures lower { meaning (codes "event ff91") ≡ Line.Event 0xFF91 }
    ensures refused { map meaning (codes "event" ∷ codes "event 8C4" ∷ codes "event 8C400" ∷ codes "event 8C4G"
        ∷ codes "event 8C40 1" ∷ codes "Event 8C40" ∷ codes "event +C40" ∷ []) ≡ replicate 7 Line.Malformed }
{}

/// A page has 16 octets; 15 or 17 are refused.
pub fn pages()
    ensures of_16 { meaning (codes "1 page 00 01 03 13 00 00 11 02 0A 00 10 20 00 00 00 00") ≡ Line.Answer 1
        (Reply.Page (0x00 ∷ 0x01 ∷ 0x03 ∷ 0x13 ∷ 0x00 ∷ 0x00 ∷ 0x11 ∷ 0x02 ∷ 0x0A ∷ 0x00 ∷ 0x10 ∷ 0x20 ∷ replicate 4 0x00)) }
    ensures of_15 { meaning (codes "1 page 00 01 03 13 00 00 11 02 0A 00 10 20 00 00 00") ≡ Line.Malformed }
    ensures of_17 { meaning (codes "1 page 00 01 03 13 00 00 11 02 0A 00 10 20 00 00 00 00 00") ≡ Line.Malformed }
    ensures of_none { meaning (codes "1 page") ≡ Line.Malformed }
{}

/// An answer to an ISDU request has 0 to 238 octets, each with two digits of either case.
pub fn isdus()
    ensures of_4 { meaning (codes "2 isdu D4 0a 64 Ba") ≡ Line.Answer 2
        (Reply.Isdu (record { items = 0xD4 ∷ 0x0A ∷ 0x64 ∷ 0xBA ∷ [] })) }
    ensures of_none { meaning (codes "2 isdu") ≡ Line.Answer 2 (Reply.Isdu (record { items = [] })) }
    ensures of_238 { meaning (codes "2 isdu" ++ flat_map {X = ℕ} (λ _. codes " FF") (replicate 238 0))
        ≡ Line.Answer 2 (Reply.Isdu (record { items = replicate 238 0xFF })) }
    ensures of_239 { meaning (codes "2 isdu" ++ flat_map {X = ℕ} (λ _. codes " FF") (replicate 239 0)) ≡ Line.Malformed }
    ensures refused { map meaning (codes "2 isdu D" ∷ codes "2 isdu D40A" ∷ codes "2 isdu D40" ∷ codes "2 isdu G0"
        ∷ codes "2 isdu 0x" ∷ codes "2 isdu D4,0A" ∷ codes "2 isdu +4" ∷ []) ≡ replicate 7 Line.Malformed }
{}

/// A loss is this word alone.
pub fn losses()
    ensures lost { meaning (codes "3 lost") ≡ Line.Answer 3 Reply.Lost }
    ensures refused { map meaning (codes "3 lost 00" ∷ codes "3 Lost" ∷ codes "lost" ∷ codes "lost 3" ∷ [])
        ≡ replicate 4 Line.Malformed }
{}

/// A number is written in decimal digits and is below 2^64. 0 is older than each request.
pub fn numbers()
    ensures zero { meaning (codes "0 lost") ≡ Line.Answer 0 Reply.Lost }
    ensures leading_zeros { meaning (codes "007 lost") ≡ Line.Answer 7 Reply.Lost }
    ensures largest { meaning (codes "18446744073709551615 lost") ≡ Line.Answer 18446744073709551615 Reply.Lost }
    ensures refused { map meaning (codes "18446744073709551616 lost" ∷ codes "99999999999999999999 lost" ∷ codes "+7 lost"
        ∷ codes "-7 lost" ∷ codes "7A lost" ∷ codes "0x7 lost" ∷ []) ≡ replicate 6 Line.Malformed }
{}

/// There may be several blanks in a row, and also blanks before the first word and after the last. A carriage return at the
/// end is dropped.
pub fn blanks()
    ensures several { meaning (codes "   4    lost  ") ≡ Line.Answer 4 Reply.Lost }
    ensures with_return { meaning (codes "4 lost\r") ≡ Line.Answer 4 Reply.Lost }
    ensures blank_before_return { meaning (codes "4 lost \r") ≡ Line.Answer 4 Reply.Lost }
    ensures refused { map meaning (codes "4 lost\r\r" ∷ codes "4 lost\r " ∷ codes "4\tlost" ∷ codes "4lost" ∷ [])
        ≡ replicate 4 Line.Malformed }
{}

/// Lines without words, of one word, and of words without a meaning.
pub fn malformed_lines()
    ensures empty { map meaning ([] ∷ codes " " ∷ codes "\r" ∷ []) ≡ replicate 3 Line.Malformed }
    ensures one_word { map meaning (codes "5" ∷ codes "page" ∷ codes "event" ∷ []) ≡ replicate 3 Line.Malformed }
    ensures unknown { map meaning (codes "5 reset" ∷ codes "hello driver" ∷ codes "5 5 lost" ∷ codes "5 isdus 00" ∷ [])
        ≡ replicate 4 Line.Malformed }
    ensures no_ascii { meaning (0x35 ∷ 0x20 ∷ 0xC3 ∷ 0xA9 ∷ []) ≡ Line.Malformed }
{}

/// A request has a number without leading zeros, octets of upper case with one blank before each, and a line feed.
pub fn requests()
    ensures page { request_line 1 Page ≡ codes "1 page\n" }
    ensures isdu { request_line 20 (Isdu (0x93 ∷ 0x0A ∷ 0xBF ∷ [])) ≡ codes "20 isdu 93 0A BF\n" }
    ensures no_octet { request_line 3 (Isdu []) ≡ codes "3 isdu\n" }
    ensures largest { request_line 18446744073709551615 Page ≡ codes "18446744073709551615 page\n" }
{}

/// A line has at most 800 octets, and the longest request, with its line feed, 740.
pub fn longest_lines()
    ensures line { LINE_OCTETS ≡ 800 }
    ensures request { REQUEST_LINE_OCTETS ≡ 740 }
    ensures reached { length (request_line 18446744073709551615 (Isdu (replicate 238 0x00))) ≡ REQUEST_LINE_OCTETS }
{}

/// After the request with number 5, events and answers with numbers 0 to 4 are passed over. At an answer with number 6 and at
/// a malformed line the device is lost. An answer with number 5 does neither.
pub fn older_and_newer_answers()
    ensures event { Passes 5 (Line.Event 0x8C40) }
    ensures older { Passes 5 (Line.Answer 4 Reply.Lost) × Passes 5 (Line.Answer 0 Reply.Lost) }
    ensures newer { Fails 5 (Line.Answer 6 Reply.Lost) }
    ensures malformed { Fails 5 Line.Malformed }
    ensures own_passes { Passes 5 (Line.Answer 5 Reply.Lost) → ⊥ }
    ensures own_fails { Fails 5 (Line.Answer 5 Reply.Lost) → ⊥ }
    ensures newer_passes { Passes 5 (Line.Answer 6 Reply.Lost) → ⊥ }
    ensures malformed_passes { Passes 5 Line.Malformed → ⊥ }
{}

/// An answer of another kind than the request, and a loss, give no octets.
pub fn kinds_of_answers()
    ensures page { octets_of Page (Some (Reply.Page (replicate 16 0x02))) ≡ Some (replicate 16 0x02) }
    ensures isdu { octets_of (Isdu (0x93 ∷ [])) (Some (Reply.Isdu (record { items = 0x01 ∷ [] }))) ≡ Some (0x01 ∷ []) }
    ensures isdu_for_page { octets_of Page (Some (Reply.Isdu (record { items = replicate 16 0x02 }))) ≡ None }
    ensures page_for_isdu { octets_of (Isdu []) (Some (Reply.Page (replicate 16 0x02))) ≡ None }
    ensures lost { octets_of Page (Some Reply.Lost) ≡ None }
    ensures lost_isdu { octets_of (Isdu []) (Some Reply.Lost) ≡ None }
    ensures no_answer { octets_of Page None ≡ None }
{}

/// Sixteen events are kept, oldest first, and further ones are dropped.
pub fn kept_events()
    ensures limit { KEPT_EVENTS ≡ 16 }
    ensures in_order { kept (1 ∷ []) (2 ∷ 3 ∷ []) ≡ 1 ∷ 2 ∷ 3 ∷ [] }
    ensures sixteenth { kept (replicate 15 7) (8 ∷ 9 ∷ []) ≡ replicate 15 7 ++ 8 ∷ [] }
    ensures further { kept (replicate 16 7) (8 ∷ []) ≡ replicate 16 7 }
{}

/// A loss begins the next connection, without the events of the previous one. The number of the last request stays.
pub fn a_loss()
    ensures { lost (record { position = Position.LineStart; number = 7; connection = 3; events = 1 ∷ 2 ∷ [] })
        ≡ record { position = Position.LineStart; number = 7; connection = 4; events = [] } }
{}

/// At the start of a line nothing is dropped. Within a line, its rest is dropped, up to the line feed and no further.
pub fn rests_of_lines()
    ensures at_start { IsRest Position.LineStart [] }
    ensures line_at_start { IsRest Position.LineStart (codes "00\n") → ⊥ }
    ensures within { IsRest Position.WithinLine (codes "\n") }
    ensures nothing_within { IsRest Position.WithinLine [] → ⊥ }
    ensures after_none { position_after [] ≡ Position.LineStart }
    ensures after_one { position_after (codes "1") ≡ Position.WithinLine }
{}

/// An ISDU of 238 octets fits a line, and one of 239 does not.
pub fn longest_isdus()
    ensures of_238 { FitsLine (Isdu (replicate 238 0x00)) }
    ensures of_239 { FitsLine (Isdu (replicate 239 0x00)) → ⊥ }
{}
