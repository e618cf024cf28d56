//! The words for Direct Parameter page 1 (docs/FORMATS.md, "Identification page").
ghost use Rattle.std.specs.Prelude.{◌≡◌};
ghost use Rattle.std.specs.Fmt.{WritesOnOk};
ghost use Rattle.iol_explain.specs.Pages.{isdu_text, page_words};

use crate::hexadecimal::{FourDigits, SixDigits, TwoDigits};
use iol_link::{PAGE_OCTETS, Page};
use std::fmt;

// The words for what the octets of a page say of a device.
#[derive(Drop)]
pub(crate) struct PageWords<'a>(pub(crate) &'a [u8; PAGE_OCTETS]);

impl fmt::Display for PageWords<'_> {
    ghost use Rattle.std.specs.Prelude.{Some};
    ghost use Rattle.iol_link.specs.Page.{page_of};
    ghost use Rattle.iol_explain.specs.Pages.{page_words};

    ghost output = { λ words. Some (page_words (page_of words.0.now)) };

    fn fmt<W: fmt::Write>(&self, f: &mut fmt::Formatter<W>) -> fmt::Result {
        write_page(f, Page::read(self.0))
    }
}

// Writes what a page says of a device.
fn write_page<W: fmt::Write>(f: &mut fmt::Formatter<W>, page: Page) -> fmt::Result
    ensures { WritesOnOk W.write_str_gives f.old result (page_words page) f.new }
{
    let vendor = FourDigits(page.vendor());
    let device = SixDigits(page.device());
    let revision = TwoDigits(page.revision());
    let isdu = isdu_text(page.has_isdu());
    write!(f, "VendorID {vendor}, DeviceID {device}, ")?;
    write!(f, "RevisionID {revision}, {isdu}")
}

// Returns whether the device supports ISDUs, in words.
fn isdu_text(has_isdu: bool) -> &'static str
    ensures { result.now ≡ isdu_text has_isdu }
{
    if has_isdu {
        "ISDUs supported"
    } else {
        "ISDUs not supported"
    }
}
