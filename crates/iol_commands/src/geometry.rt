//! The geometry that the numbers of a script give.
ghost use Rattle.std.specs.Prelude.{◌≡◌, pos, IfSome, IfNone};
ghost use Rattle.iol_journal.specs.Geometry.{IsGeometry};
ghost use Rattle.iol_commands.specs.Geometry.{HasGeometry};

use iol_journal::Geometry;

// Returns the geometry with `ports`, 1 to 32, and `slots` in each area: more than 8/17 of the ports, rounded up, and at most 256.
pub fn geometry_of(ports: i64, slots: i64) -> Option<Geometry>
    ensures some { IfSome result (λ geometry. (ports ≡ pos geometry.ports) × (slots ≡ pos geometry.slots) × IsGeometry geometry) }
    ensures none { IfNone result (HasGeometry ports slots → ⊥) }
{
    Geometry::new(u16::try_from(ports).ok()?, u16::try_from(slots).ok()?)
}
