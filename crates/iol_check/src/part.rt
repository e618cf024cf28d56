//! Parts of a text.

// A part of a text: the number of its first octet, and that of the octet after its last one.
#[derive(Clone, Copy)]
pub(crate) struct Part {
    pub(crate) start: usize,
    pub(crate) end: usize,
}

impl Part {
    // Returns the part of a text between the beginnings of `first` and `behind`, two of its suffixes.
    pub(crate) fn between(text: &str, first: &str, behind: &str) -> Part {
        Part {
            start: text.len().saturating_sub(first.len()),
            end: text.len().saturating_sub(behind.len()),
        }
    }

    // Returns the part without octets at this place.
    pub(crate) fn empty(at: usize) -> Part {
        Part { start: at, end: at }
    }

    // Returns the octets of the part in a text, without white space at the end.
    pub(crate) fn of(self, text: &str) -> &str {
        text.get(self.start..self.end).unwrap_or("").trim_end()
    }

    // Returns the text after the bracket with which the part begins, up to the end of the text, or `None` if it begins otherwise.
    pub(crate) fn inside(self, text: &str, bracket: char) -> Option<&str> {
        text.get(self.start..)?.strip_prefix(bracket)
    }
}
