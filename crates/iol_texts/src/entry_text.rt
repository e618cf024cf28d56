//! The text of the parameters of a set (docs/FORMATS.md, "Texts").
ghost use Rattle.std.specs.Prelude.{◌≡◌, [], slice_get};
ghost use Rattle.std.specs.Fmt.{WritesOnOk};
ghost use Rattle.std.specs.List.{flat_map};
ghost use Rattle.std.specs.Option.{option_map_or};
ghost use Rattle.iol_texts.specs.Recovered.{octets_text, entry_line};

use iol_types::{DataSet, Key};
use std::fmt;

// Writes the lines of the parameters of a set.
pub(crate) fn write_entries<W: fmt::Write>(f: &mut fmt::Formatter<W>, set: &DataSet) -> fmt::Result
    ensures { WritesOnOk W.write_str_gives f.old result (flat_map entry_line set.now.entries) f.new }
{
    for place in 0..set.len() {
        write_entry_at(f, set, place)?;
    }
    Ok(())
}

// Writes the line of the parameter at a place, if there is one.
fn write_entry_at<W: fmt::Write>(
    f: &mut fmt::Formatter<W>,
    set: &DataSet,
    place: usize,
) -> fmt::Result
    ensures { WritesOnOk W.write_str_gives f.old result (option_map_or entry_line (slice_get set.now.entries place) []) f.new }
{
    match set.entry(place) {
        Some((key, octets)) => write_entry(f, key, octets),
        None => Ok(()),
    }
}

// Writes the line of a parameter.
fn write_entry<W: fmt::Write>(f: &mut fmt::Formatter<W>, key: Key, octets: &[u8]) -> fmt::Result
    ensures { WritesOnOk W.write_str_gives f.old result (entry_line (key, octets.now)) f.new }
{
    write!(f, "entry {:04X}.{:02X}", key.index, key.subindex)?;
    write_octets(f, octets)?;
    f.write_str("\n")
}

// Writes a space and the octets, or nothing if there are none.
fn write_octets<W: fmt::Write>(f: &mut fmt::Formatter<W>, octets: &[u8]) -> fmt::Result
    ensures { WritesOnOk W.write_str_gives f.old result (octets_text octets.now) f.new }
{
    if !octets.is_empty() {
        f.write_str(" ")?;
    }
    for octet in octets {
        write!(f, "{octet:02X}")?;
    }
    Ok(())
}
