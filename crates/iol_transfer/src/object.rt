//! The subindexes of the Data Storage object (IO-Link V1.1, Data Storage object).

/// The Subindex of DS_Command, which is written.
pub const DS_COMMAND: u8 = 1;
/// The Subindex of State_Property.
pub const STATE_PROPERTY: u8 = 2;
/// The Subindex of Data_Storage_Size.
pub const DATA_STORAGE_SIZE: u8 = 3;
/// The Subindex of Parameter_Checksum.
pub const PARAMETER_CHECKSUM: u8 = 4;
/// The Subindex of Index_List.
pub const INDEX_LIST: u8 = 5;
