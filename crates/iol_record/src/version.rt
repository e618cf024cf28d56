//! The versions of a disk's layout, which determine how records are spelled.

ghost use Rattle.std.specs.Prelude.{◌≡◌};
ghost use Rattle.iol_record.specs.Record.{newest, is_newest};

/// The version of the layout that a record is in (docs/FORMATS.md, "Records").
#[derive(Clone, Copy)]
pub enum Version {
    /// A configuration has only its numbers, without a label, and a port ends with its stored set; there is no
    /// Rollback.
    One,
    /// The label of each configuration follows its numbers, a port ends with its previous set, and a command may be a
    /// Rollback.
    Two,
}

impl Version {
    /// The version that is written.
    pub fn newest() -> Version
        ensures { result ≡ newest }
    {
        Version::Two
    }

    /// Whether this is the version that is written.
    pub fn is_newest(self) -> bool
        ensures { result ≡ is_newest self }
    {
        matches!(self, Version::Two)
    }
}
