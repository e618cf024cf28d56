//! The entries that are found in the text of a script.

use crate::keys::Key;
use crate::part::Part;

// The role of a table.
#[derive(Clone, Copy, PartialEq, Eq)]
pub(crate) enum Role {
    Script,
    Device,
    Step,
}

impl Role {
    // Returns the role of the tables in the array at a key of the script.
    pub(crate) fn of_array(key: Option<Key>) -> Option<Role> {
        match key {
            Some(Key::Device) => Some(Role::Device),
            Some(Key::Step) => Some(Role::Step),
            _ => None,
        }
    }
}

// The form of an entry.
#[derive(Clone, Copy, PartialEq, Eq)]
pub(crate) enum Form {
    // The beginning of a table.
    Table,
    // A value of an array of tables that is not a table.
    NoTable,
    // A key with a value.
    Value,
    // A key with a table, which a header or dots between keys make.
    Subtable,
}

// An entry: one thing that is found in a text.
#[derive(Clone, Copy)]
pub(crate) struct Entry {
    pub(crate) form: Form,
    // The role of the table that it is in.
    pub(crate) role: Role,
    // The number of the entry with which that table begins. It is different for each table.
    pub(crate) table: usize,
    // The key, if it is a known one.
    pub(crate) key: Option<Key>,
    // The key or the header as it is in the text. For a `Table` and a `NoTable` it is empty, at the place where they begin.
    pub(crate) name: Part,
    // The value as it is in the text, or empty if there is none.
    pub(crate) value: Part,
}

impl Entry {
    // Returns the word of its key alone. For a header below a table, this is the key after that of the table.
    pub(crate) fn word(self, text: &str) -> &str {
        let name = self.name.of(text);
        let keys = name.trim_start_matches('[').trim_end_matches(']');
        if self.role != Role::Script && keys.len() != name.len() {
            before_dot(after_dot(keys))
        } else {
            before_dot(keys)
        }
    }
}

fn before_dot(keys: &str) -> &str {
    match keys.split_once('.') {
        Some((first, _)) => first,
        None => keys,
    }
}

fn after_dot(keys: &str) -> &str {
    match keys.split_once('.') {
        Some((_, below)) => below,
        None => keys,
    }
}
