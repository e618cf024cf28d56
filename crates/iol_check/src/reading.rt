//! Finds the tables of a text, and their keys and values.

use crate::entry::{Entry, Form, Role};
use crate::keys::Key;
use crate::pair::{Pair, Path, pair_at, path_at};
use crate::part::Part;
use crate::tables::read_tables;
use std::alloc::{AllocError, Global};
use toml_parser::text::{skip_blank, skip_ws};

// The entries that were found so far.
#[derive(Drop)]
pub(crate) struct EntriesRead {
    entries: Vec<Entry>,
    // The role of the last table that began.
    role: Role,
    // The number of the entry with which that table began.
    table: usize,
    // Whether keys belong to that table. Otherwise they belong to a table below it or elsewhere, and are skipped.
    is_open: bool,
}

impl EntriesRead {
    // Begins with the table of the whole script.
    fn new(alloc: Global) -> Result<EntriesRead, AllocError> {
        let mut found = EntriesRead {
            entries: Vec::new(alloc),
            role: Role::Script,
            table: 0,
            is_open: true,
        };
        found.begin(Role::Script, 0)?;
        Ok(found)
    }

    // Begins a table at an octet of the text.
    pub(crate) fn begin(&mut self, role: Role, at: usize) -> Result<(), AllocError> {
        self.role = role;
        self.table = self.entries.len();
        self.is_open = true;
        self.add(Form::Table, None, Part::empty(at), Part::empty(at))
    }

    // Continues with the keys of the script.
    pub(crate) fn resume(&mut self) {
        self.role = Role::Script;
        self.table = 0;
        self.is_open = true;
    }

    // Adds an entry of the last table.
    fn add(
        &mut self,
        form: Form,
        key: Option<Key>,
        name: Part,
        value: Part,
    ) -> Result<(), AllocError> {
        let (role, table) = (self.role, self.table);
        self.entries.push(Entry {
            form,
            role,
            table,
            key,
            name,
            value,
        })?;
        Ok(())
    }

    // Adds a value of an array of tables that is not a table.
    pub(crate) fn add_no_table(&mut self, role: Role, value: Part) -> Result<(), AllocError> {
        self.entries.push(Entry {
            form: Form::NoTable,
            role,
            table: 0,
            key: None,
            name: Part::empty(value.start),
            value,
        })?;
        Ok(())
    }

    // Adds a key with its value, unless keys are skipped.
    pub(crate) fn add_pair(&mut self, pair: Pair) -> Result<(), AllocError> {
        match (self.is_open, pair.path) {
            (false, _) => Ok(()),
            (true, Path::One(key)) => self.add(Form::Value, key, pair.name, pair.value),
            (true, Path::More(key, _)) => self.add(Form::Subtable, key, pair.name, pair.value),
        }
    }

    // Adds the header of a table of an array.
    fn add_array_header(&mut self, path: Path, name: Part) -> Result<(), AllocError> {
        match array_role(path) {
            Some(role) if self.has_array(role) => self.add_of_script(Form::Value, path, name),
            Some(role) => self.begin(role, name.start),
            None => self.add_header(path, name),
        }
    }

    // Adds the header of any other table, which is below the last table or below the script.
    fn add_header(&mut self, path: Path, name: Part) -> Result<(), AllocError> {
        match path {
            Path::More(first, second) if Role::of_array(first) == Some(self.role) => {
                self.add(Form::Subtable, second, name, Part::empty(name.end))?;
                self.is_open = false;
                Ok(())
            }
            _ => self.add_of_script(Form::Subtable, path, name),
        }
    }

    // Adds a header at a key of the script that may not have one.
    fn add_of_script(&mut self, form: Form, path: Path, name: Part) -> Result<(), AllocError> {
        let key = first_key(path);
        self.entries.push(Entry {
            form,
            role: Role::Script,
            table: 0,
            key,
            name,
            value: Part::empty(name.end),
        })?;
        self.is_open = false;
        Ok(())
    }

    // Returns whether a key of the script has tables of this role as its value.
    fn has_array(&self, role: Role) -> bool {
        for entry in &self.entries {
            let is_array = entry.role == Role::Script && entry.form == Form::Value;
            if is_array && Role::of_array(entry.key) == Some(role) {
                return true;
            }
        }
        false
    }

    // Returns the role of the tables in the value of a key, if that key has an array of tables.
    fn array_at(&self, pair: Pair) -> Option<Role> {
        if self.is_open && self.role == Role::Script {
            array_role(pair.path)
        } else {
            None
        }
    }

    fn into_entries(self) -> Vec<Entry> {
        let EntriesRead {
            entries,
            role: _,
            table: _,
            is_open: _,
        } = self;
        entries
    }
}

fn array_role(path: Path) -> Option<Role> {
    match path {
        Path::One(key) => Role::of_array(key),
        Path::More(_, _) => None,
    }
}

fn first_key(path: Path) -> Option<Key> {
    match path {
        Path::One(key) => key,
        Path::More(key, _) => key,
    }
}

// Returns the entries of a text, in its order. The list ends where the text cannot be read further.
pub(crate) fn entries_of(alloc: Global, text: &str) -> Result<Vec<Entry>, AllocError> {
    let mut found = EntriesRead::new(alloc)?;
    let mut rest = text.strip_prefix('\u{FEFF}').unwrap_or(text);
    // Each turn reads at least one octet.
    for _turn in 0..text.len() {
        match read_line(alloc, text, skip_blank(rest, true), &mut found)? {
            Some(behind) => rest = behind,
            None => break,
        }
    }
    Ok(found.into_entries())
}

// Reads a header, or a key with its value, and returns the text after it, or `None` if there is neither.
fn read_line<'t>(
    alloc: Global,
    text: &'t str,
    line: &'t str,
    found: &mut EntriesRead,
) -> Result<Option<&'t str>, AllocError> {
    if let Some(inside) = line.strip_prefix("[[") {
        let Some((path, name, behind)) = header_at(alloc, text, line, inside, "]]")? else {
            return Ok(None);
        };
        found.add_array_header(path, name)?;
        Ok(Some(behind))
    } else if let Some(inside) = line.strip_prefix('[') {
        let Some((path, name, behind)) = header_at(alloc, text, line, inside, "]")? else {
            return Ok(None);
        };
        found.add_header(path, name)?;
        Ok(Some(behind))
    } else {
        read_pair(alloc, text, line, found)
    }
}

// Returns the keys of a header, the header as it is in the text, and the text after its closing brackets.
fn header_at<'t>(
    alloc: Global,
    text: &str,
    line: &str,
    inside: &'t str,
    closing: &str,
) -> Result<Option<(Path, Part, &'t str)>, AllocError> {
    let Some((path, end)) = path_at(alloc, skip_ws(inside))? else {
        return Ok(None);
    };
    match end.strip_prefix(closing) {
        Some(behind) => Ok(Some((path, Part::between(text, line, behind), behind))),
        None => Ok(None),
    }
}

// Reads a key with its value, and the tables in that value if it is an array of tables.
fn read_pair<'t>(
    alloc: Global,
    text: &'t str,
    line: &'t str,
    found: &mut EntriesRead,
) -> Result<Option<&'t str>, AllocError> {
    let Some((pair, behind)) = pair_at(alloc, text, line)? else {
        return Ok(None);
    };
    found.add_pair(pair)?;
    if let Some(role) = found.array_at(pair) {
        read_tables(alloc, text, role, pair.value, found)?;
    }
    Ok(Some(behind))
}
