//! Writes the lines of requests.

ghost use Rattle.std.specs.Prelude.{◌≡◌, ◌≤◌, ◌<◌, ◌+◌, ◌*◌, ◌++◌, length, flat_map, slice_index, codes, IsTrue, IfSome, IsSome};
ghost use Rattle.std.specs.Prelude.{◌↔◌, decimal};
ghost use Rattle.arrayvec.specs.ArrayVec.{array_vec_len};
ghost use Rattle.iol_wire.specs.Requests.{request_line, asked_of, asked_words, octet_word, hexadecimal_digit, FitsLine};

use crate::words::BLANK;
use arrayvec::ArrayVec;
use iol_link::ISDU_OCTETS;
use itoa::Buffer;

/// The most octets of the line of a request, with its line feed: a number of 20 digits, ` isdu`,
/// 238 octets of three characters each, and the line feed.
pub const REQUEST_LINE_OCTETS: usize = 20 + 5 + 3 * ISDU_OCTETS + 1;

/// The octet that ends a line, an ASCII line feed.
pub(crate) const LINE_FEED: u8 = b'\n';

/// The request that a driver is sent.
#[derive(Clone, Copy, Debug)]
pub enum Request<'a> {
    /// Reads Direct Parameter page 1.
    Page,
    /// Sends these octets of an ISDU request and asks for the answer.
    Isdu(&'a [u8]),
}

/// Returns the line of a request with this number, with its line feed; `None` for an ISDU of more
/// than 238 octets.
pub fn request_line(number: u64, request: Request<'_>) -> Option<ArrayVec<u8, REQUEST_LINE_OCTETS>>
    ensures spelled { IfSome result (λ line. line.items ≡ request_line number (asked_of request.entry)) }
    ensures fits { IsSome result ↔ FitsLine (asked_of request.entry) }
{
    if !fits_line(request) {
        return None;
    }
    let mut line = ArrayVec::new();
    let mut buffer = Buffer::new();
    write(&mut line, buffer.format(number).as_bytes());
    write_asked(&mut line, request);
    line.push(LINE_FEED);
    Some(line)
}

fn fits_line(request: Request<'_>) -> bool
    ensures { IsTrue result ↔ FitsLine (asked_of request.entry) }
{
    match request {
        Request::Page => true,
        Request::Isdu(octets) => octets.len() <= ISDU_OCTETS,
    }
}

// Writes the request after its number, and leaves space for the line feed.
fn write_asked(line: &mut ArrayVec<u8, REQUEST_LINE_OCTETS>, request: Request<'_>)
    requires number { array_vec_len line.old ≤ 20 }
    requires fits { FitsLine (asked_of request) }
    ensures written { line.new.items ≡ line.old.items ++ asked_words (asked_of request.entry) }
    ensures place { array_vec_len line.new < REQUEST_LINE_OCTETS }
{
    match request {
        Request::Page => write(line, b" page"),
        Request::Isdu(octets) => {
            write(line, b" isdu");
            write_octets(line, octets);
        }
    }
}

fn write(line: &mut ArrayVec<u8, REQUEST_LINE_OCTETS>, octets: &[u8])
    requires { array_vec_len line.old + length octets.now ≤ REQUEST_LINE_OCTETS }
    ensures written { line.new.items ≡ line.old.items ++ octets.now }
    ensures count { array_vec_len line.new ≡ array_vec_len line.old + length octets.now }
{
    for octet in octets {
        line.push(*octet);
    }
}

// Writes each octet as a blank and a word of two digits.
fn write_octets(line: &mut ArrayVec<u8, REQUEST_LINE_OCTETS>, octets: &[u8])
    requires { array_vec_len line.old + 3 * length octets.now ≤ REQUEST_LINE_OCTETS }
    ensures written { line.new.items ≡ line.old.items ++ flat_map octet_word octets.now }
    ensures count { array_vec_len line.new ≡ array_vec_len line.old + 3 * length octets.now }
{
    for octet in octets {
        line.push(BLANK);
        line.push(hexadecimal_digit(*octet / 16));
        line.push(hexadecimal_digit(*octet % 16));
    }
}

fn hexadecimal_digit(value: u8) -> u8
    requires { value < 16 }
    ensures { result ≡ hexadecimal_digit value }
{
    b"0123456789ABCDEF"[usize::from(value)]
}
