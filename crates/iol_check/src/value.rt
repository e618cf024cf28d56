//! Finds where a value of a script ends.

use toml_parser::bytes::byte_at;

// Returns the number of octets of the value at the beginning of a text, which is TOML: up to the comma, bracket, comment or end
// of line that ends it, without the white space before that.
pub(crate) fn value_octets(text: &str) -> usize {
    let octets = text.as_bytes();
    let mut walk = Walk::new();
    for at in 0..octets.len() {
        walk = walk.step(octets, at);
        if walk.mode == Mode::Behind {
            break;
        }
    }
    walk.end
}

// The part of a value that a walk is in.
#[derive(Clone, Copy, PartialEq, Eq)]
enum Mode {
    // A part without quotes.
    Bare,
    Comment,
    // A text between quotes of this kind, on one line.
    Line(u8),
    // A text between three quotes of this kind.
    Lines(u8),
    // The text after the value.
    Behind,
}

// A walk over a value, octet by octet.
#[derive(Clone, Copy)]
struct Walk {
    mode: Mode,
    // The number of open brackets.
    depth: usize,
    // The number of next octets to skip.
    skip: usize,
    // The number of octets of the value so far.
    end: usize,
}

impl Walk {
    fn new() -> Walk {
        Walk {
            mode: Mode::Bare,
            depth: 0,
            skip: 0,
            end: 0,
        }
    }

    // Returns the walk after the octet at this place.
    fn step(self, octets: &[u8], at: usize) -> Walk {
        if self.skip != 0 {
            return self.over(self.skip.saturating_sub(1));
        }
        match self.mode {
            Mode::Bare => self.step_bare(octets, at),
            Mode::Comment => self.step_comment(byte_at(octets, at)),
            Mode::Line(quote) => self.step_line(byte_at(octets, at), quote, at),
            Mode::Lines(quote) => self.step_lines(octets, at, quote),
            Mode::Behind => self,
        }
    }

    fn step_bare(self, octets: &[u8], at: usize) -> Walk {
        let octet = byte_at(octets, at);
        match octet {
            b'"' | b'\'' => self.opened(octets, at, octet),
            b'[' | b'{' => self.up_to(at, 1).below(self.depth.saturating_add(1)),
            b']' | b'}' | b',' | b'\n' | b'#' if self.depth == 0 => self.within(Mode::Behind),
            b']' | b'}' => self.up_to(at, 1).below(self.depth.saturating_sub(1)),
            b'#' => self.within(Mode::Comment),
            b' ' | b'\t' | b'\r' | b'\n' => self,
            _ => self.up_to(at, 1),
        }
    }

    fn step_comment(self, octet: u8) -> Walk {
        if octet == b'\n' {
            self.within(Mode::Bare)
        } else {
            self
        }
    }

    fn step_line(self, octet: u8, quote: u8, at: usize) -> Walk {
        if octet == quote {
            self.within(Mode::Bare).up_to(at, 1)
        } else {
            self.escaped(octet, quote)
        }
    }

    // Takes a step in a text between three quotes. Such a text may have up to two quotes in a row, also right before the three
    // that end it.
    fn step_lines(self, octets: &[u8], at: usize, quote: u8) -> Walk {
        let quotes = quotes_at(octets, at, quote);
        if 3 <= quotes {
            let behind = self.within(Mode::Bare).up_to(at, quotes);
            behind.over(quotes.saturating_sub(1))
        } else {
            self.escaped(byte_at(octets, at), quote)
        }
    }

    // Takes a step over an octet of a text. Between double quotes, the octet after a backslash is not read as a quote.
    fn escaped(self, octet: u8, quote: u8) -> Walk {
        if octet == b'\\' && quote == b'"' {
            self.over(1)
        } else {
            self
        }
    }

    // Begins a text, which opens with one quote or with three.
    fn opened(self, octets: &[u8], at: usize, quote: u8) -> Walk {
        if 3 <= quotes_at(octets, at, quote) {
            self.within(Mode::Lines(quote)).over(2)
        } else {
            self.within(Mode::Line(quote))
        }
    }

    fn within(self, mode: Mode) -> Walk {
        Walk { mode, ..self }
    }

    // Sets the number of open brackets.
    fn below(self, depth: usize) -> Walk {
        Walk { depth, ..self }
    }

    // Sets the number of next octets to skip.
    fn over(self, skip: usize) -> Walk {
        Walk { skip, ..self }
    }

    // Extends the value up to this place and by `octets` octets from there.
    fn up_to(self, at: usize, octets: usize) -> Walk {
        Walk {
            end: at.saturating_add(octets),
            ..self
        }
    }
}

// Returns the number of quotes of this kind in a row from this place on.
fn quotes_at(octets: &[u8], at: usize, quote: u8) -> usize {
    let mut count = 0usize;
    for octet in octets.get(at..).unwrap_or(&[]) {
        if *octet != quote {
            break;
        }
        count = count.saturating_add(1);
    }
    count
}
