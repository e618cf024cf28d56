//! Files that report their length.

ghost use Rattle.std.specs.Prelude.{ℕ, IfOk};

use std::fs::File;
use std::io::{self, Seek, SeekFrom};
use std::os::unix::fs::FileTypeExt;

/// A file that reports its length.
pub trait FileLength {
    /// The file may report this number of octets. Nothing is claimed of a real file.
    ghost tells: { Self → ℕ → Type 0 };

    /// The number of octets in the file.
    ///
    /// # Errors
    /// Fails if the system cannot report the length.
    fn length(&self) -> io::Result<u64>
        ensures told { IfOk result (λ octets. tells self.now octets) };
}

impl FileLength for File {
    ghost tells = { λ _ _. Unit {0} };

    fn length(&self) -> io::Result<u64> {
        let metadata = self.metadata()?;
        if metadata.file_type().is_block_device() {
            // The length of a block device is not in its metadata. No read or write uses the position.
            let mut file = self;
            return file.seek(SeekFrom::End(0));
        }
        Ok(metadata.len())
    }
}
