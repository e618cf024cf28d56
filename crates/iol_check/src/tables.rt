//! Finds the values of an array, and reads those that are tables.

use crate::entry::Role;
use crate::pair::pair_at;
use crate::part::Part;
use crate::reading::EntriesRead;
use crate::value::value_octets;
use std::alloc::{AllocError, Global};
use toml_parser::text::skip_blank;

// Reads the tables of an array. A value that is not an array has none.
pub(crate) fn read_tables(
    alloc: Global,
    text: &str,
    role: Role,
    array: Part,
    found: &mut EntriesRead,
) -> Result<(), AllocError> {
    for value in values_of(alloc, text, array)? {
        match value.inside(text, '{') {
            Some(inside) => {
                found.begin(role, value.start)?;
                read_pairs(alloc, text, inside, found)?;
            }
            None => found.add_no_table(role, value)?,
        }
    }
    found.resume();
    Ok(())
}

// Reads the keys of a table between braces, with their values.
fn read_pairs(
    alloc: Global,
    text: &str,
    inside: &str,
    found: &mut EntriesRead,
) -> Result<(), AllocError> {
    let mut rest = inside;
    for _turn in 0..text.len() {
        let Some((pair, behind)) = pair_at(alloc, text, next_in(rest))? else {
            break;
        };
        found.add_pair(pair)?;
        rest = behind;
    }
    Ok(())
}

// Returns the values of an array. A value that is not an array has none.
pub(crate) fn values_of(alloc: Global, text: &str, array: Part) -> Result<Vec<Part>, AllocError> {
    let mut values = Vec::new(alloc);
    let mut rest = array.inside(text, '[').unwrap_or("");
    for _turn in 0..text.len() {
        let Some((value, behind)) = value_at(text, next_in(rest)) else {
            break;
        };
        values.push(value)?;
        rest = behind;
    }
    Ok(values)
}

// Returns the value at `start`, a suffix of `text`, and the text after it, or `None` at a closing
// bracket.
fn value_at<'t>(text: &str, start: &'t str) -> Option<(Part, &'t str)> {
    let octets = value_octets(start);
    if octets == 0 {
        return None;
    }
    let (_, behind) = start.split_at_checked(octets)?;
    Some((Part::between(text, start, behind), behind))
}

// Skips a comma, if there is one, and the blanks around it.
fn next_in(rest: &str) -> &str {
    let rest = skip_blank(rest, true);
    match rest.strip_prefix(',') {
        Some(behind) => skip_blank(behind, true),
        None => rest,
    }
}
