//! The objects that requests name in a device (IO-Link V1.1, Data Storage object).
ghost use Rattle.std.specs.Prelude.{◌≡◌};
ghost use Rattle.iol_explain.specs.Objects.{object_of};

use crate::hexadecimal::KeyText;
use iol_transfer::{
    DATA_STORAGE, DATA_STORAGE_SIZE, DS_COMMAND, INDEX_LIST, PARAMETER_CHECKSUM, STATE_PROPERTY,
};
use iol_types::Key;
use std::fmt;

// The object that an Index and a Subindex name.
#[derive(Clone, Copy)]
pub(crate) enum Object {
    Parameter(Key),
    Command,
    StateProperty,
    Size,
    Checksum,
    IndexList,
    // a Subindex of the Data Storage object that the standard does not name
    Unnamed(u8),
}

// Returns the object that this Index and Subindex name.
pub(crate) fn object_of(index: u16, subindex: u8) -> Object
    ensures { result ≡ object_of index subindex }
{
    if index != DATA_STORAGE {
        return Object::Parameter(Key { index, subindex });
    }
    match subindex {
        DS_COMMAND => Object::Command,
        STATE_PROPERTY => Object::StateProperty,
        DATA_STORAGE_SIZE => Object::Size,
        PARAMETER_CHECKSUM => Object::Checksum,
        INDEX_LIST => Object::IndexList,
        other => Object::Unnamed(other),
    }
}

// Writes the name of an object.
impl fmt::Display for Object {
    ghost use Rattle.std.specs.Prelude.{Some};
    ghost use Rattle.iol_explain.specs.Objects.{object_name};

    ghost output = { λ object. Some (object_name object) };

    fn fmt<W: fmt::Write>(&self, f: &mut fmt::Formatter<W>) -> fmt::Result {
        match *self {
            Object::Parameter(key) => write!(f, "parameter {}", KeyText(key)),
            Object::Command => f.write_str("DS_Command"),
            Object::StateProperty => f.write_str("State_Property"),
            Object::Size => f.write_str("Data_Storage_Size"),
            Object::Checksum => f.write_str("Parameter_Checksum"),
            Object::IndexList => f.write_str("Index_List"),
            Object::Unnamed(subindex) => write!(f, "Subindex {subindex}"),
        }
    }
}

// An object, with its Index and Subindex.
#[derive(Clone, Copy)]
pub(crate) struct ObjectPlace(pub(crate) Object);

impl fmt::Display for ObjectPlace {
    ghost use Rattle.std.specs.Prelude.{Some};
    ghost use Rattle.iol_explain.specs.Objects.{object_place};

    ghost output = { λ place. Some (object_place place.0) };

    fn fmt<W: fmt::Write>(&self, f: &mut fmt::Formatter<W>) -> fmt::Result {
        match self.0 {
            Object::Parameter(key) => write!(f, "parameter {}", KeyText(key)),
            Object::Command => f.write_str("Index 3, Subindex 1: DS_Command"),
            Object::StateProperty => f.write_str("Index 3, Subindex 2: State_Property"),
            Object::Size => f.write_str("Index 3, Subindex 3: Data_Storage_Size"),
            Object::Checksum => f.write_str("Index 3, Subindex 4: Parameter_Checksum"),
            Object::IndexList => f.write_str("Index 3, Subindex 5: Index_List"),
            Object::Unnamed(subindex) => write!(f, "Index 3, Subindex {subindex}"),
        }
    }
}
