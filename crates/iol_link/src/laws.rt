//! Laws of links. No code calls them.

ghost use Rattle.std.specs.Prelude.{List, ◌++◌};
ghost use Rattle.iol_link.specs.Link.{Answered, Run};

use crate::link::DeviceLink;

/// If one run of a link begins where another ended, both together are one run.
pub fn runs_join<L: DeviceLink>()
    ensures { (first middle last : L) (early late : List Answered)
        → Run L.number L.steps first early middle → Run L.number L.steps middle late last
        → Run L.number L.steps first (early ++ late) last }
{}
