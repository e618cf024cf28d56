//! ISDUs, compared with those of a plain reader over whole ranges of octets. That reader is made of the standard's
//! tables, apart from the crate's own.

use arrayvec::ArrayVec;
use iol_link::{ISDU_OCTETS, IsduFault, read_answer, read_request, write_answer, write_request};
use std::process::Abort;

const REQUEST: u8 = 1;

const ANSWER: u8 = 2;

// For each I-Service: which of both it is, and the least and the most octets between the length and CHKPDU.
const SERVICES: [(u8, usize, usize); 16] = [
    (0, 0, 0),
    (REQUEST, 1, 233),
    (REQUEST, 2, 234),
    (REQUEST, 3, 235),
    (ANSWER, 2, 2),
    (ANSWER, 0, 0),
    (0, 0, 0),
    (0, 0, 0),
    (0, 0, 0),
    (REQUEST, 1, 1),
    (REQUEST, 2, 2),
    (REQUEST, 3, 3),
    (ANSWER, 2, 2),
    (ANSWER, 0, 232),
    (0, 0, 0),
    (0, 0, 0),
];

// Returns what is wrong with octets that are read as a request or as an answer.
fn plain_fault(octets: &[u8], expected: u8) -> Option<IsduFault> {
    let Some(first) = octets.first() else {
        return Some(IsduFault::Empty);
    };
    if expected == ANSWER && *first == 1 {
        return if octets.len() > 1 {
            Some(IsduFault::Length)
        } else {
            None
        };
    }
    let code = first >> 4;
    let length = first & 0x0F;
    let (service, least, most) = SERVICES[usize::from(code)];
    let reserved = match (code, length) {
        (0, _) => length > 1,
        (_, 0) => true,
        (_, 1) => service == 0 || matches!(octets.get(1), Some(0..=16 | 239..=255)),
        _ => service == 0,
    };
    if reserved {
        return Some(IsduFault::Reserved);
    }
    if service != expected {
        return Some(IsduFault::WrongService);
    }
    let (header, stated) = match (length, octets.get(1)) {
        (1, None) => return Some(IsduFault::Length),
        (1, Some(extended)) => (2, *extended),
        _ => (1, length),
    };
    if octets.len() != usize::from(stated) || octets.len() <= header {
        return Some(IsduFault::Length);
    }
    let carried = octets.len() - 1 - header;
    if carried < least || most < carried {
        return Some(IsduFault::Length);
    }
    let mut sum = 0;
    for octet in octets {
        sum ^= *octet;
    }
    if sum == 0 {
        None
    } else {
        Some(IsduFault::Check)
    }
}

// Writes the request that is read of octets.
fn request_again(octets: &[u8]) -> Result<ArrayVec<u8, ISDU_OCTETS>, IsduFault> {
    Ok(write_request(&read_request(octets)?))
}

// Writes the answer that is read of octets.
fn answer_again(octets: &[u8]) -> Result<ArrayVec<u8, ISDU_OCTETS>, IsduFault> {
    Ok(write_answer(&read_answer(octets)?))
}

// Returns whether octets have the fault that the plain reader finds, or it finds none and they are written again
// unchanged.
fn is_plain(
    octets: &[u8],
    expected: u8,
    again: &Result<ArrayVec<u8, ISDU_OCTETS>, IsduFault>,
) -> bool {
    let plain = plain_fault(octets, expected);
    match again {
        Ok(written) => plain.is_none() && written.as_slice() == octets,
        Err(fault) => plain == Some(*fault),
    }
}

// Asserts that octets have the fault that the plain reader finds, or that what is read of them is written again
// unchanged.
fn assert_plain(rt: &impl Abort, octets: &[u8]) {
    let asked = is_plain(octets, REQUEST, &request_again(octets));
    let answered = is_plain(octets, ANSWER, &answer_again(octets));
    assert!(rt; asked && answered, "{octets:?}");
}

// Makes a list of `count` octets that begins with these two, and whose XOR is `wrong`.
fn octets_of(first: u8, second: u8, count: usize, wrong: u8) -> ArrayVec<u8, 240> {
    let mut octets = ArrayVec::new();
    let mut sum = wrong;
    for place in 0..count {
        let octet = match place {
            0 => first,
            1 => second,
            _ if count - place == 1 => sum,
            _ => (place % 251) as u8,
        };
        sum ^= octet;
        let _ = octets.try_push(octet);
    }
    octets
}

// The octets are all of up to two; and at the borders of lengths those with each first octet, with each length beside the
// right one.
#[test]
fn octets_are_read_as_a_plain_reader_reads_them(rt: HostRuntime) {
    assert_plain(&rt, &[]);
    for first in 0..=255 {
        assert_plain(&rt, &[first]);
        for second in 0..=255 {
            assert_plain(&rt, &[first, second]);
        }
    }
    let borders = [
        12, 13, 14, 15, 16, 17, 18, 231, 232, 233, 234, 235, 236, 237, 238, 239, 240,
    ];
    for count in borders {
        for first in 0..=255 {
            for wrong in [0, 1] {
                for stated in [count - 1, count, count + 1] {
                    let octets = octets_of(first, stated, usize::from(count), wrong);
                    assert_plain(&rt, octets.as_slice());
                }
            }
        }
    }
}
