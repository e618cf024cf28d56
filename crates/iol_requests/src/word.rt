//! Words of a line that are shown in a mistake.

use arrayvec::ArrayString;

/// The greatest number of octets of a word that are shown.
pub const MOST_SHOWN: usize = 32;

/// A word of a line as it is shown: at most 32 octets of ASCII, each from 21 to 7E. Other characters are shown as `?`, and
/// a word of more than 30 characters ends in `..`.
pub type Word = ArrayString<MOST_SHOWN>;

// Returns the word as it is shown.
pub(crate) fn shown(word: &str) -> Word {
    let mut text = Word::new();
    for character in word.chars() {
        if MOST_SHOWN < text.len() + 3 {
            let _ = text.try_push_str("..");
            break;
        }
        let _ = text.try_push(printed(character));
    }
    text
}

// Returns a character as it is printed.
fn printed(character: char) -> char {
    if character.is_ascii_graphic() {
        character
    } else {
        '?'
    }
}
