//! Worked values from docs/FORMATS.md that the check computes: they catch a number that is wrong both in a definition
//! and in the code.

ghost use Rattle.std.specs.Prelude.{◌≡◌, [], ◌∷◌};
ghost use Rattle.iol_disk.specs.Calls.{write, sync};
ghost use Rattle.iol_layout.specs.Examples.{two_by_four};
ghost use Rattle.iol_layout.specs.Geometry.{geometry_octets};
ghost use Rattle.iol_layout.specs.Header.{header_octets};
ghost use Rattle.iol_disk.specs.Gate.{open_gate, closed_gate};
ghost use Rattle.iol_record.specs.declared.examples.TheConstants.{BLANK_RECORD, BLANK_RECORD_OF_TWO};
ghost use Rattle.iol_record.specs.declared.version.Version.TheVariants.{One, Two};
ghost use Rattle.iol_layout.specs.Octets.{padded};
ghost use Rattle.iol_journal.specs.Orders.{format_calls};

/// The disk calls of a format for a geometry of 2 ports and 4 slots: everything else comes before the gate of the disk.
pub fn a_format()
    ensures { format_calls Two two_by_four ≡ sync ∷ write 0 (geometry_octets two_by_four) ∷ write 2 open_gate ∷ write 90 closed_gate
        ∷ write 38 closed_gate ∷ write 55 closed_gate ∷ write 72 closed_gate
        ∷ write 3 (header_octets Two 1 0) ∷ write 91 (header_octets Two 0 0)
        ∷ write 4 (padded BLANK_RECORD_OF_TWO) ∷ write 21 (padded BLANK_RECORD_OF_TWO)
        ∷ sync ∷ write 1 open_gate ∷ sync ∷ [] }
{}

/// The same format in version 1, with four slots in each area and smaller records.
pub fn a_format_of_one()
    ensures { format_calls One two_by_four ≡ sync ∷ write 0 (geometry_octets two_by_four) ∷ write 2 open_gate ∷ write 90 closed_gate
        ∷ write 22 closed_gate ∷ write 39 closed_gate ∷ write 56 closed_gate ∷ write 73 closed_gate
        ∷ write 3 (header_octets One 1 0) ∷ write 91 (header_octets One 0 0)
        ∷ write 4 (padded BLANK_RECORD) ∷ write 13 (padded BLANK_RECORD)
        ∷ sync ∷ write 1 open_gate ∷ sync ∷ [] }
{}
