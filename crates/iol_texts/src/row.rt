//! The lines of the table by which a port decides what is done with its device's parameters (docs/FORMATS.md, "What is done
//! with a device's parameters").
ghost use Rattle.std.specs.Prelude.{◌≡◌};
ghost use Rattle.iol_port.specs.Decision.{decide};
ghost use Rattle.iol_texts.specs.Rows.{decision_of, row_of, row_words, same_or_other};

use iol_transfer::State;
use iol_types::Validation;

/// A line of the table.
#[derive(Clone, Copy)]
pub enum Row {
    /// Validation 00 to 02.
    NotKept,
    /// Validation 03 or 04, and the device's Data Storage is locked.
    Locked,
    /// Validation 03, and no set is stored.
    NothingStored,
    /// Validation 03, and DS_UPLOAD_FLAG is set.
    FlagSet,
    /// Validation 03, and Parameter_Checksum is that of the set.
    SameSet,
    /// Validation 03, and Parameter_Checksum is another.
    OtherSet,
    /// Validation 04, and no set is stored.
    NothingToRestore,
    /// Validation 04, and Parameter_Checksum is that of the set.
    SameRestored,
    /// Validation 04, and Parameter_Checksum is another.
    OtherRestored,
}

/// The line of the table that applies.
pub fn row_of(
    validation: Validation,
    state: State,
    flag: bool,
    checksum: u32,
    stored: Option<u32>,
) -> Row
    ensures row { result ≡ row_of validation state flag checksum stored }
    // Its decision is the one that a port makes.
    ensures decides { decision_of result ≡ decide validation state flag checksum stored }
{
    let backs_up = matches!(validation, Validation::BackupAndRestore);
    if !backs_up && !matches!(validation, Validation::Restore) {
        return Row::NotKept;
    }
    if matches!(state, State::Locked) {
        return Row::Locked;
    }
    match stored {
        None if backs_up => Row::NothingStored,
        None => Row::NothingToRestore,
        Some(_) if backs_up && flag => Row::FlagSet,
        Some(stored) => same_or_other(backs_up, stored == checksum),
    }
}

// The line that applies if the flag does not matter, by whether the device has the stored set.
fn same_or_other(backs_up: bool, is_same: bool) -> Row
    ensures { result ≡ same_or_other backs_up is_same }
{
    if backs_up {
        if is_same { Row::SameSet } else { Row::OtherSet }
    } else if is_same {
        Row::SameRestored
    } else {
        Row::OtherRestored
    }
}

// The words for a line.
pub(crate) fn row_words(row: Row) -> &'static str
    ensures { result.now ≡ row_words row }
{
    match row {
        Row::NotKept => "validation 00 to 02: nothing is done",
        Row::Locked => "validation 03 or 04, the device's Data Storage is locked: nothing is done",
        Row::NothingStored =>
            "validation 03, no set is stored: the device's parameters are read and stored",
        Row::FlagSet =>
            "validation 03, a set is stored, DS_UPLOAD_FLAG is set: the device's parameters are read and stored",
        Row::SameSet =>
            "validation 03, DS_UPLOAD_FLAG is clear, Parameter_Checksum is that of the set: nothing is done",
        Row::OtherSet =>
            "validation 03, DS_UPLOAD_FLAG is clear, Parameter_Checksum is another: the set is written to the device",
        Row::NothingToRestore => "validation 04, no set is stored: nothing is done",
        Row::SameRestored =>
            "validation 04, Parameter_Checksum is that of the set: nothing is done",
        Row::OtherRestored =>
            "validation 04, Parameter_Checksum is another: the set is written to the device",
    }
}
