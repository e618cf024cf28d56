//! The name of a script, as the title of its picture shows it.

use crate::escaped::write_escaped;
use std::fmt;

// The largest number of characters of a name that are shown. Two dots follow if it has more.
const MOST: usize = 60;

// The last part of the path of a script.
#[derive(Clone, Copy)]
pub(crate) struct Name<'a>(&'a str);

impl<'a> Name<'a> {
    pub(crate) fn of(path: &'a str) -> Name<'a> {
        match path.rsplit_once('/') {
            Some((_, name)) => Name(name),
            None => Name(path),
        }
    }
}

impl fmt::Display for Name<'_> {
    fn fmt<W: fmt::Write>(&self, f: &mut fmt::Formatter<W>) -> fmt::Result {
        for (place, character) in self.0.chars().enumerate() {
            if place == MOST {
                return f.write_str("..");
            }
            write_escaped(f, character)?;
        }
        Ok(())
    }
}
