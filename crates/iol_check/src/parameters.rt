//! The mistakes of the keys and values of a device.

use crate::entry::{Entry, Form};
use crate::judge::Judge;
use crate::keys::Key;
use crate::line::{write_at, write_found};
use crate::part::Part;
use crate::tables::values_of;
use crate::trial::are_parameters;
use iol_script::MOST_PARAMETERS;
use std::alloc::{AllocError, Global};

// What each of the keys and each of the values may be.
const EACH_KEY: &str = "[Index, Subindex], 1 to 65,535 but 2 and 3, and 0 to 255\n";

const EACH_VALUE: &str = "two hexadecimal digits for each octet, 232 octets at most\n";

// A key and a value that a device may have.
const USUAL_KEY: &str = "[64, 0]";

const USUAL_VALUE: &str = "\"\"";

// The keys of a device that are right so far, with the same number of values.
#[derive(Drop)]
struct Kept {
    count: usize,
    keys: String,
    values: String,
}

impl Kept {
    fn new(alloc: Global) -> Kept {
        Kept {
            count: 0,
            keys: String::new(alloc),
            values: String::new(alloc),
        }
    }

    // Keeps a key if the device may have it in addition to those that are kept. Returns whether it was kept.
    fn keeps(&mut self, alloc: Global, key: &str) -> Result<bool, AllocError> {
        let keys = format!(in alloc; "{}{key}", self.keys.as_str())?;
        let values = format!(in alloc; "{}{USUAL_VALUE}", self.values.as_str())?;
        if !are_parameters(alloc, keys.as_str(), values.as_str())? {
            return Ok(false);
        }
        self.count = self.count.saturating_add(1);
        self.keys = keys;
        self.keys.push_str(", ")?;
        self.values = values;
        self.values.push_str(", ")?;
        Ok(true)
    }
}

impl Judge<'_> {
    // Writes the mistakes of the keys of a device: that there are no values for them, those keys that are not valid or are
    // there twice, and those over the largest number that it may have.
    pub(crate) fn write_wrong_keys(
        &self,
        entry: Entry,
        lines: &mut String,
    ) -> Result<(), AllocError> {
        if self.entry_at(entry.table, Key::Values).is_none() {
            self.write_unlike_counts(entry, lines)?;
        }
        let mut kept = Kept::new(self.alloc);
        for key in values_of(self.alloc, self.text, entry.value)? {
            self.write_wrong_key(key, &mut kept, lines)?;
        }
        Ok(())
    }

    // Writes what is wrong with one of the keys.
    fn write_wrong_key(
        &self,
        key: Part,
        kept: &mut Kept,
        lines: &mut String,
    ) -> Result<(), AllocError> {
        let said = key.of(self.text);
        if !are_parameters(self.alloc, said, USUAL_VALUE)? {
            write_found(lines, self.text, key.start, Key::Keys.name(), key)?;
            return lines.push_str(EACH_KEY);
        }
        if kept.keeps(self.alloc, said)? {
            return Ok(());
        }
        write_found(lines, self.text, key.start, Key::Keys.name(), key)?;
        if kept.count == MOST_PARAMETERS {
            writeln!(lines, "{MOST_PARAMETERS} keys at most")
        } else {
            lines.push_str("each key once\n")
        }
    }

    // Writes the mistakes of the values of a device: those that are not valid, and that their number is not that of its keys.
    pub(crate) fn write_wrong_values(
        &self,
        entry: Entry,
        lines: &mut String,
    ) -> Result<(), AllocError> {
        self.write_unlike_counts(entry, lines)?;
        for value in values_of(self.alloc, self.text, entry.value)? {
            self.write_wrong_value(value, lines)?;
        }
        Ok(())
    }

    // Writes that a value is not valid, if it is not.
    fn write_wrong_value(&self, value: Part, lines: &mut String) -> Result<(), AllocError> {
        if are_parameters(self.alloc, USUAL_KEY, value.of(self.text))? {
            return Ok(());
        }
        write_found(lines, self.text, value.start, Key::Values.name(), value)?;
        lines.push_str(EACH_VALUE)
    }

    // Writes that the device of an entry has different numbers of keys and values, if each is an array or missing.
    fn write_unlike_counts(&self, entry: Entry, lines: &mut String) -> Result<(), AllocError> {
        let keys = self.count_at(entry.table, Key::Keys)?;
        let values = self.count_at(entry.table, Key::Values)?;
        match (keys, values) {
            (Some(keys), Some(values)) if keys != values => {
                write_at(lines, self.text, entry.name.start, "keys and values")?;
                writeln!(lines, ": {keys} and {values}: as many of both")
            }
            _ => Ok(()),
        }
    }

    // Returns the number of values of the array at a key of a table: 0 if the key is missing, and `None` if its value is not an array.
    fn count_at(&self, table: usize, key: Key) -> Result<Option<usize>, AllocError> {
        match self.entry_at(table, key) {
            None => Ok(Some(0)),
            Some(entry) if entry.form == Form::Value && self.is_array(entry.value) => {
                Ok(Some(values_of(self.alloc, self.text, entry.value)?.len()))
            }
            Some(_) => Ok(None),
        }
    }
}
