//! The words for an Index_List (docs/FORMATS.md, "Index list").
ghost use Rattle.std.specs.Fmt.{WritesOnOk};
ghost use Rattle.iol_explain.specs.Values.{keys_text, listing_words, next_text};

use crate::hexadecimal::{FourDigits, KeyText};
use iol_transfer::{ListFault, Next, read_index_list};
use iol_types::Key;
use std::alloc::Global;
use std::fmt;

// The octets of an Index_List, in words. Reading them needs memory for the keys.
#[derive(Drop)]
pub(crate) struct ListWords<'a> {
    pub(crate) alloc: Global,
    pub(crate) octets: &'a [u8],
}

impl fmt::Display for ListWords<'_> {
    ghost use Rattle.std.specs.Prelude.{Some};
    ghost use Rattle.iol_transfer.specs.List.{reading_of};
    ghost use Rattle.iol_explain.specs.Values.{list_words};

    ghost output = { λ words. Some (list_words (reading_of words.octets.now)) };

    fn fmt<W: fmt::Write>(&self, f: &mut fmt::Formatter<W>) -> fmt::Result {
        match read_index_list(self.alloc, self.octets) {
            Ok(listed) => write_listing(f, &listed.0, listed.1),
            Err(ListFault::Truncated) => f.write_str("Index_List: it breaks off"),
            Err(ListFault::ReservedKey) => f.write_str("Index_List: it names a reserved Index"),
            Err(ListFault::Memory) => Err(fmt::Error),
        }
    }
}

// Writes the keys of a list, and what is next.
fn write_listing<W: fmt::Write>(f: &mut fmt::Formatter<W>, keys: &[Key], next: Next) -> fmt::Result
    ensures { WritesOnOk W.write_str_gives f.old result (listing_words keys.now next) f.new }
{
    f.write_str("Index_List: ")?;
    write_keys(f, keys)?;
    write_next(f, next)
}

// Writes what is next after a list.
fn write_next<W: fmt::Write>(f: &mut fmt::Formatter<W>, next: Next) -> fmt::Result
    ensures { WritesOnOk W.write_str_gives f.old result (next_text next) f.new }
{
    match next {
        Next::End => f.write_str("end"),
        Next::List(index) => write!(f, "next list at Index {}", FourDigits(index)),
    }
}

// Writes keys, each with a comma after it.
fn write_keys<W: fmt::Write>(f: &mut fmt::Formatter<W>, keys: &[Key]) -> fmt::Result
    ensures { WritesOnOk W.write_str_gives f.old result (keys_text keys.now) f.new }
{
    for key in keys {
        write!(f, "{}, ", KeyText(*key))?;
    }
    Ok(())
}
