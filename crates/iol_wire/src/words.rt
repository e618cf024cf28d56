//! The words of a line.

ghost use Rattle.std.specs.Prelude.{◌≡◌, ◌≢◌, ◌∷◌, ◌<◌, ◌≤◌, [], length, position, slice_index, MatchOption, IfSome};
ghost use Rattle.iol_wire.specs.Words.{is_blank, words};

/// The octet between words, an ASCII blank.
pub(crate) const BLANK: u8 = b' ';

// The first word of octets, and the octets after it and its blank; `None` if there is no word.
pub(crate) fn first_word(octets: &[u8]) -> Option<(&[u8], &[u8])>
    ensures words { MatchOption result (words octets.now ≡ [])
        (λ cut. words octets.now ≡ cut.0.now ∷ words cut.1.now) }
    ensures shorter { IfSome result (λ cut. length cut.1.now < length octets.now) }
{
    let from_word = without_blanks(octets);
    if from_word.is_empty() {
        return None;
    }
    Some(cut_at_blank(from_word))
}

// The octets from the first one that is not a blank.
fn without_blanks(octets: &[u8]) -> &[u8]
    ensures words { words result.now ≡ words octets.now }
    ensures shorter { length result.now ≤ length octets.now }
    ensures begins { 0 < length result.now → slice_index result.now 0 ≢ BLANK }
{
    let mut rest = octets;
    while let Some((first, more)) = rest.split_first() {
        if *first != BLANK {
            return rest;
        }
        rest = more;
    }
    rest
}

// The octets before the first blank, and those after it.
fn cut_at_blank(octets: &[u8]) -> (&[u8], &[u8])
    requires some { 0 < length octets.now }
    requires begins { slice_index octets.now 0 ≢ BLANK }
    ensures words { words octets.now ≡ result.0.now ∷ words result.1.now }
    ensures shorter { length result.1.now < length octets.now }
{
    match first_blank(octets) {
        Some(end) => (&octets[..end], &octets[end + 1..]),
        None => (octets, &[]),
    }
}

fn first_blank(octets: &[u8]) -> Option<usize>
    ensures { result ≡ position is_blank octets.now }
{
    octets.iter().position(|octet| *octet == BLANK)
}
