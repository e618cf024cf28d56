//! The mistakes of tables and keys, in the order of the text.

use crate::entry::{Entry, Form, Role};
use crate::keys::{KEYS, Key};
use crate::line::{write_at, write_found, write_said};
use crate::nearest::write_unknown;
use crate::part::Part;
use crate::reading::entries_of;
use crate::rules::{Kind, May, STEPS};
use crate::trial::{MOST_SLOTS, is_right, least_slots, ports_by};
use iol_types::PORTS;
use std::alloc::{AllocError, Global};
use toml::Value;

// A text, and what is needed to find its mistakes.
#[derive(Drop)]
pub(crate) struct Judge<'t> {
    pub(crate) alloc: Global,
    pub(crate) text: &'t str,
    pub(crate) entries: Vec<Entry>,
    // The number of ports of the script, or `None` if it has no valid number.
    ports: Option<i64>,
}

impl<'t> Judge<'t> {
    pub(crate) fn new(alloc: Global, text: &'t str) -> Result<Judge<'t>, AllocError> {
        let entries = entries_of(alloc, text)?;
        let ports = ports_by(alloc, ports_value(&entries).of(text))?;
        Ok(Judge {
            alloc,
            text,
            entries,
            ports,
        })
    }

    // Writes a line for each mistake.
    pub(crate) fn write_mistakes(&self, lines: &mut String) -> Result<(), AllocError> {
        for (number, entry) in self.entries.iter().enumerate() {
            self.write_of_entry(number, *entry, lines)?;
        }
        Ok(())
    }

    // Writes the mistakes of the entry with this number.
    fn write_of_entry(
        &self,
        number: usize,
        entry: Entry,
        lines: &mut String,
    ) -> Result<(), AllocError> {
        match entry.form {
            Form::Table => self.write_missing(entry, lines),
            Form::NoTable => self.write_no_table(entry, lines),
            Form::Value | Form::Subtable if self.stands_before(number, entry) => {
                write_said(lines, self.text, entry, "stands twice")
            }
            Form::Value | Form::Subtable => self.write_of_key(entry, lines),
        }
    }

    // Writes the keys that a table needs and does not have.
    fn write_missing(&self, table: Entry, lines: &mut String) -> Result<(), AllocError> {
        match self.kind_of(table)? {
            Some(kind) => self.write_missing_keys(kind, table, lines),
            // If the table has `do`, the mistake is there, and nothing is missing.
            None => self.write_missing_key(Key::Do, May::Words(STEPS), table, lines),
        }
    }

    fn write_missing_keys(
        &self,
        kind: Kind,
        table: Entry,
        lines: &mut String,
    ) -> Result<(), AllocError> {
        for key in KEYS {
            if let Some(may) = needed(kind, key) {
                self.write_missing_key(key, may, table, lines)?;
            }
        }
        Ok(())
    }

    // Writes that a key is missing, if it is.
    fn write_missing_key(
        &self,
        key: Key,
        may: May,
        table: Entry,
        lines: &mut String,
    ) -> Result<(), AllocError> {
        if self.entry_at(table.table, key).is_some() {
            return Ok(());
        }
        write_at(lines, self.text, table.name.start, key.name())?;
        lines.push_str(": missing: ")?;
        self.write_may(may, lines)
    }

    // Writes that a value in an array of tables is not a table.
    fn write_no_table(&self, entry: Entry, lines: &mut String) -> Result<(), AllocError> {
        let key = match entry.role {
            Role::Step => Key::Step,
            _ => Key::Device,
        };
        write_found(lines, self.text, entry.name.start, key.name(), entry.value)?;
        lines.push_str("a table\n")
    }

    // Writes the mistakes of a key.
    fn write_of_key(&self, entry: Entry, lines: &mut String) -> Result<(), AllocError> {
        let kind = self.kind_of(entry)?;
        match (kind, entry.key) {
            (Some(kind), Some(key)) => self.write_of_known(kind, key, entry, lines),
            (None, Some(Key::Do)) => self.write_wrong(entry, May::Words(STEPS), lines),
            // What is allowed at a key of an unknown step is not known.
            (None, Some(_)) => Ok(()),
            (kind, None) => self.write_unknown_key(kind, entry, lines),
        }
    }

    fn write_unknown_key(
        &self,
        kind: Option<Kind>,
        entry: Entry,
        lines: &mut String,
    ) -> Result<(), AllocError> {
        let name = entry.name.of(self.text);
        write_at(lines, self.text, entry.name.start, name)?;
        write_unknown(self.alloc, lines, kind, entry.word(self.text))
    }

    // Writes the mistakes of a known key in a table of this kind.
    fn write_of_known(
        &self,
        kind: Kind,
        key: Key,
        entry: Entry,
        lines: &mut String,
    ) -> Result<(), AllocError> {
        let Some(rule) = kind.rule(key) else {
            return self.write_unknown_key(Some(kind), entry, lines);
        };
        if self.is_right(kind, key, entry)? {
            self.write_of_right(kind, key, entry, lines)
        } else {
            self.write_wrong(entry, rule.may, lines)
        }
    }

    // Returns whether a value is right at its key. The values of an array are checked one by one, and so are its tables.
    fn is_right(&self, kind: Kind, key: Key, entry: Entry) -> Result<bool, AllocError> {
        if entry.form == Form::Subtable {
            return Ok(false);
        }
        if has_array(kind, key) {
            return Ok(self.is_array(entry.value));
        }
        let ports = match kind {
            Kind::Script => self.fewest_ports(),
            _ => self.most_ports(),
        };
        is_right(self.alloc, ports, kind, key, entry.value.of(self.text))
    }

    // Returns the number of ports of the script, or the largest number that it may have if it has no valid one.
    fn most_ports(&self) -> i64 {
        self.ports.unwrap_or(i64::from(PORTS))
    }

    // Returns the number of ports by which the script's slots are checked. If it has no valid one, this is 1, which needs the
    // fewest slots.
    fn fewest_ports(&self) -> i64 {
        self.ports.unwrap_or(1)
    }

    // Writes the mistakes of a value that is right by itself.
    fn write_of_right(
        &self,
        kind: Kind,
        key: Key,
        entry: Entry,
        lines: &mut String,
    ) -> Result<(), AllocError> {
        match key {
            Key::Keys => self.write_wrong_keys(entry, lines),
            Key::Values => self.write_wrong_values(entry, lines),
            Key::Do if kind == Kind::Stop && !self.is_last_step(entry) => {
                self.write_wrong(entry, May::Words("the last step alone"), lines)
            }
            _ => Ok(()),
        }
    }

    // Writes that a value is not allowed at its key.
    fn write_wrong(&self, entry: Entry, may: May, lines: &mut String) -> Result<(), AllocError> {
        let name = entry.name.of(self.text);
        write_found(lines, self.text, entry.name.start, name, entry.value)?;
        self.write_may(may, lines)
    }

    // Writes what is allowed at a key, and the end of the line.
    fn write_may(&self, may: May, lines: &mut String) -> Result<(), AllocError> {
        match may {
            May::Words(words) => writeln!(lines, "{words}"),
            May::OfPorts => {
                let ports = self.most_ports();
                writeln!(lines, "1 to {ports}")
            }
            May::ForPorts => self.write_slots(lines),
        }
    }

    // Writes how many slots the script may have, which depends on its ports.
    fn write_slots(&self, lines: &mut String) -> Result<(), AllocError> {
        let least = least_slots(self.alloc, self.fewest_ports())?;
        write!(lines, "{least} to {MOST_SLOTS}")?;
        match self.ports {
            Some(1) => lines.push_str(" for 1 port\n"),
            Some(ports) => writeln!(lines, " for {ports} ports"),
            None => lines.push('\n'),
        }
    }

    pub(crate) fn is_array(&self, value: Part) -> bool {
        value.inside(self.text, '[').is_some()
    }

    // Returns the kind of the table of an entry, or `None` for an unknown step.
    fn kind_of(&self, entry: Entry) -> Result<Option<Kind>, AllocError> {
        match entry.role {
            Role::Script => Ok(Some(Kind::Script)),
            Role::Device => Ok(Some(Kind::Device)),
            Role::Step => match self.entry_at(entry.table, Key::Do) {
                Some(named) => step_named(self.alloc, named.value.of(self.text)),
                None => Ok(None),
            },
        }
    }

    // Returns the first entry of a table with this key.
    pub(crate) fn entry_at(&self, table: usize, key: Key) -> Option<Entry> {
        for entry in self.entries.as_slice().get(table..).unwrap_or(&[]) {
            if entry.table == table && entry.key == Some(key) {
                return Some(*entry);
            }
        }
        None
    }

    // Returns whether the table of the entry with this number has the same key before it.
    fn stands_before(&self, number: usize, entry: Entry) -> bool {
        for other in self
            .entries
            .as_slice()
            .get(entry.table..number)
            .unwrap_or(&[])
        {
            let is_beside = other.table == entry.table && other.form == Form::Value;
            if is_beside && entry.form == Form::Value && self.is_same_key(*other, entry) {
                return true;
            }
        }
        false
    }

    // Returns whether two entries have the same key. Unknown keys are the same if they are spelled the same.
    fn is_same_key(&self, one: Entry, other: Entry) -> bool {
        match (one.key, other.key) {
            (Some(key), Some(other)) => key == other,
            (None, None) => one.name.of(self.text) == other.name.of(self.text),
            _ => false,
        }
    }

    // Returns whether no step follows the step of an entry.
    fn is_last_step(&self, entry: Entry) -> bool {
        for other in self.entries.as_slice().get(entry.table..).unwrap_or(&[]) {
            if other.role == Role::Step && other.table != entry.table {
                return false;
            }
        }
        true
    }
}

// Returns what is allowed at a key, if a table of this kind needs that key.
fn needed(kind: Kind, key: Key) -> Option<May> {
    let rule = kind.rule(key)?;
    if rule.needed.is_some() {
        Some(rule.may)
    } else {
        None
    }
}

// Returns whether the value of a key is an array.
fn has_array(kind: Kind, key: Key) -> bool {
    match kind {
        Kind::Script => matches!(key, Key::Device | Key::Step),
        Kind::Device => matches!(key, Key::Keys | Key::Values),
        _ => false,
    }
}

// Returns the step that is named by a value as it is in the text.
fn step_named(alloc: Global, value: &str) -> Result<Option<Kind>, AllocError> {
    match Value::from_str(alloc, value) {
        Ok(value) => Ok(step_of(&value)),
        Err(error) if error.is_memory() => Err(AllocError),
        Err(_) => Ok(None),
    }
}

fn step_of(value: &Value) -> Option<Kind> {
    Kind::of_step(value.as_str()?)
}

// Returns the value at `ports`, or an empty part if there is none.
fn ports_value(entries: &[Entry]) -> Part {
    for entry in entries {
        let is_ports = entry.role == Role::Script && entry.key == Some(Key::Ports);
        if is_ports && entry.form == Form::Value {
            return entry.value;
        }
    }
    Part::empty(0)
}
