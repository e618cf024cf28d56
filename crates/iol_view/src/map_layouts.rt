//! The layouts of a disk's areas: each area is mapped in the version that its own header names.
ghost use Rattle.std.specs.Prelude.{◌≡◌};
ghost use Rattle.iol_journal.specs.Layout.{total};

use iol_disk::SECTOR_OCTETS;
use iol_journal::Header;
use iol_journal::survey::Layout;
use iol_record::Version;

// The layouts of the areas of one geometry, in each version.
#[derive(Clone, Copy)]
pub(crate) struct Layouts {
    // The layout in version 1, by which sector 0 is checked.
    pub older: Layout,
    // The layout in version 2, or in version 1 too if an area keeps no slot in version 2.
    pub newest: Layout,
    ghost same_size: { total newest ≡ total older },
}

impl Layouts {
    ghost use Rattle.std.specs.Prelude.{Some, None, IfSome, IfNone};
    ghost use Rattle.iol_journal.specs.Geometry.{Geometry, geometry_of};
    ghost use Rattle.iol_view.specs.Map.{AreLayoutsOf, layout_in};

    // Returns the layouts of the numbers in sector 0, or `None` if it has no geometry.
    #[tactic(auto, using(crate::proofs::Layouts::newest_total, crate::proofs::Layouts::whole, crate::proofs::Layouts::numbers_of))]
    pub(crate) fn read(octets: &[u8; SECTOR_OCTETS]) -> Option<Layouts>
        ensures some { IfSome result (λ layouts. (g : Geometry) × (geometry_of octets.now ≡ Some g) × AreLayoutsOf g layouts) }
        ensures none { IfNone result (geometry_of octets.now ≡ None) }
    {
        let older = Layout::read(octets)?;
        match older.geometry() {
            Some(geometry) => {
                let newest = geometry.layout();
                Some(Layouts { older, newest })
            }
            None => {
                let newest = older;
                Some(Layouts { older, newest })
            }
        }
    }

    // Returns the layout of an area with this header.
    //
    // A header that names no version was torn by a power stop. Its area was being written then, and areas are written in the
    // newest version.
    pub(crate) fn of(&self, header: Header) -> Layout
        ensures version { result ≡ layout_in header.version self.now }
        ensures size { total result ≡ total self.now.older }
    {
        match header.version {
            Some(Version::One) => self.older,
            Some(Version::Two) | None => self.newest,
        }
    }
}
