//! What the flash of a caller holds, which only contracts see.

/// What the sectors of a flash held when it was opened, and whether the caller reports truly: what it hands in is what the flash
/// holds, and a call that it reports as made was made. A value of this type has no octets.
pub trait Flash {
    ghost use Rattle.std.specs.Prelude.{Bool};
    ghost use Rattle.iol_disk.specs.Content.{Image};

    /// The octets of each sector when the flash was opened.
    ghost image: { Image };

    /// Whether the caller reports truly.
    ghost truthful: { Bool };
}

/// A flash of which nothing is known.
pub struct UnknownFlash;

impl Flash for UnknownFlash {
    ghost use Rattle.std.specs.Prelude.{false, []};

    ghost image = { λ _. [] };

    ghost truthful = { false };
}
