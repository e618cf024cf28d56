//! Where a record ends, by its lengths alone.

use crate::fault::RecordFault;
use crate::reader::Reader;
use crate::version::Version;
use iol_types::ENTRY_HEAD_OCTETS;

/// Whether these octets end within the record of a port at their front, judged by its lengths. Only some fields are
/// checked for their ranges, which keeps this fast: a caller that reads a record from sectors calls it first, and then
/// decodes the record once.
pub fn port_goes_on(version: Version, octets: &[u8]) -> bool {
    Reader::new(octets).pass_port(version) == Err(RecordFault::Short)
}

impl<'a> Reader<'a> {
    // Skips the record of a port.
    fn pass_port(&mut self, version: Version) -> Result<(), RecordFault> {
        let _config = self.config(version)?;
        let _revision = self.revision()?;
        self.pass_stored(version)?;
        match version {
            Version::One => Ok(()),
            Version::Two => self.pass_stored(version),
        }
    }

    // Skips the flag of a set of a port, and the set if there is one.
    fn pass_stored(&mut self, version: Version) -> Result<(), RecordFault> {
        if !self.has_set()? {
            return Ok(());
        }
        let _recorded = self.config(version)?;
        let head = self.set_head()?;
        for _ in 0..head.count {
            self.pass_entry()?;
        }
        Ok(())
    }

    // Skips an entry.
    fn pass_entry(&mut self) -> Result<(), RecordFault> {
        let [_, _, _, length] = self.front::<ENTRY_HEAD_OCTETS>()?;
        let _octets = self.octets(usize::from(length))?;
        Ok(())
    }
}
