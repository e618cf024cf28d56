//! Data storage of a device: which parameters a master is to keep for it, and the transfers that read and write them.
//!
//! The Data Storage object, Index 0x0003, comes first. The octet of State_Property comes in, and its state and flag go out. The
//! octets of Index_List come in, and the keys of the parameters go out, each once and in order, with the Index of a further list,
//! if any; or the first fault. Commands and lists go out as octets. Only reading a list takes memory, for its keys.
//!
//! A transfer is a conversation that reads a parameter set from a device, or writes one to it. It is asked for the next request,
//! which its caller sends, and is given the answer. An [`Upload`] ends with one whole [`DataSet`](iol_types::DataSet), or with
//! none; a [`Download`] sends the set that it was given and nothing else, and takes no memory. Each ends at the first answer that
//! does not fit, with a [`TransferFault`].
//!
//! Modules in reading order:
//! - `object` (the subindexes), `command`, `property` (State_Property), `list` (what Index_List says, and its faults), `reading`,
//!   `writing`, `index_examples` (octets worked out);
//! - `fault`, `repeats` (requests that are answered Device busy), `upload`, `stage` (how far an upload is), `download`, `examples`
//!   (conversations, worked out). `specs/Upload.antt` and `specs/Download.antt` say what a finished upload and a download are, as
//!   lists of exchanges; `specs/Asked.antt` says what is asked next, and why a transfer ends.
#![tactic(auto)]

mod command;
mod download;
pub mod examples;
mod fault;
pub mod index_examples;
mod list;
mod object;
mod property;
mod reading;
mod repeats;
mod stage;
mod upload;
mod writing;

pub use command::DsCommand;
pub use download::{Download, DownloadStep};
pub use fault::TransferFault;
pub use iol_types::DATA_STORAGE;
pub use list::{ListFault, MOST_LISTED_KEYS, Next};
pub use object::{DATA_STORAGE_SIZE, DS_COMMAND, INDEX_LIST, PARAMETER_CHECKSUM, STATE_PROPERTY};
pub use property::{State, StateProperty};
pub use reading::{keep_key, read_index_list};
pub use repeats::MOST_REQUESTS;
pub use upload::{MOST_LISTS, Upload, UploadStep};
pub use writing::write_index_list;
