//! One of the two areas of a disk.

ghost use Rattle.std.specs.Prelude.{◌≡◌};

/// One of the two areas of a disk. The open one with the greater epoch is in use.
#[derive(Clone, Copy)]
pub enum Area {
    A,
    B,
}

impl Area {
    ghost use Rattle.iol_layout.specs.Layout.{other};

    /// Returns the other area.
    pub fn other(self) -> Area
        ensures { result ≡ other self }
    {
        match self {
            Area::A => Area::B,
            Area::B => Area::A,
        }
    }
}
