//! Readers of sets, commands and ports, each from the front of the octets that are left.
ghost use Rattle.std.specs.Prelude.{◌≡◌, ◌∷◌, ◌++◌, [], Ok, IfErr, IfOk, OnOk, IfSome, IsOk, min};
ghost use Rattle.std.specs.Option.{option_map};
ghost use Rattle.iol_types.specs.Command.{value_of};
ghost use Rattle.iol_types.specs.DataSet.{Entry};
ghost use Rattle.iol_types.specs.Port.{stored_of};
ghost use Rattle.iol_record.specs.Reading.{Reads, ReadsOrMemory, IsReadFault, entry_at, entries_at, flagged_at, flagged_begun_at};
ghost use Rattle.iol_record.specs.Reading.{set_head_at, set_at, set_begun_at, arguments_at, begun_after, command_at, store_begun_at};
ghost use Rattle.iol_record.specs.Reading.{previous_at, previous_begun_at, both, sets_begun_at, port_record_at, port_begun_at};
ghost use Rattle.iol_record.specs.declared.reader.Tag.TheVariants as tag;
ghost use Rattle.iol_record.specs.declared.version.Version.TheVariants.{One};

use crate::fault::RecordFault;
use crate::reader::{Reader, Tag};
use crate::version::Version;
use iol_types::{Command, DataSet, DeviceId, ENTRY_HEAD_OCTETS, PortState, SetBuilder, StoredSet};
use std::alloc::Global;
use std::sync::Arc;

// The numbers in front of the entries of a set.
#[derive(Drop)]
pub(crate) struct SetHead {
    pub vendor: u16,
    pub device: DeviceId,
    pub checksum: u32,
    pub count: u16,
}

// The sets of a port, before it is checked whether the port may have them.
#[derive(Drop)]
struct PortSets {
    stored: Option<StoredSet>,
    previous: Option<StoredSet>,
}

impl<'a> Reader<'a> {
    // Reads an entry and appends it to the others. Space is reserved for `left` entries, this one included, or for
    // fewer if the octets that are left cannot hold that many.
    #[tactic(auto, unfolding(crate::specs::Reading::entry_at))]
    fn entry(&mut self, others: &mut SetBuilder, left: u16) -> Result<(), RecordFault>
        ensures read { OnOk result ((entry : Entry) × (entry_at others.old self.old ≡ Ok (entry, self.new))
            × (others.new ≡ others.old ++ entry ∷ [])) }
        ensures fault { IfErr result (λ fault. IsReadFault (entry_at others.old self.old) fault (entry_at others.old self.old)) }
    {
        let index = self.index()?;
        let key = self.key(index, others)?;
        let count = self.length(others)?;
        let octets = self.octets(count)?;
        let room = usize::from(left).min(1 + self.len() / ENTRY_HEAD_OCTETS);
        match others.append(key, octets, room) {
            Ok(()) => Ok(()),
            Err(_) => Err(RecordFault::Memory),
        }
    }

    // Reads `count` entries.
    fn entries(&mut self, alloc: Global, count: u16) -> Result<SetBuilder, RecordFault>
        ensures read { ReadsOrMemory (λ entries. (entries, self.new)) (entries_at (min 1 count) [] self.old) result
            (entries_at count [] self.old) }
        ensures begun { OnOk result (IsOk (entries_at (min 1 count) [] self.old)) }
    {
        let mut entries = SetBuilder::new(alloc);
        for done in 0..count {
            self.entry(&mut entries, count - done)?;
        }
        Ok(entries)
    }

    // The numbers in front of the entries of a set.
    #[tactic(auto, unfolding(crate::specs::Reading::set_head_at))]
    pub(crate) fn set_head(&mut self) -> Result<SetHead, RecordFault>
        ensures { Reads (λ head. (head, self.new)) result (set_head_at self.old) }
    {
        Ok(SetHead {
            vendor: self.vendor()?,
            device: self.device()?,
            checksum: self.checksum()?,
            count: self.count()?,
        })
    }

    // Reads a set.
    #[tactic(auto, unfolding(crate::specs::Reading::set_at, crate::specs::Reading::set_begun_at, crate::specs::Reading::set_head_at))]
    fn set(&mut self, alloc: Global) -> Result<Arc<DataSet>, RecordFault>
        ensures read { ReadsOrMemory (λ set. (set.value, self.new)) (set_begun_at self.old) result (set_at self.old) }
        ensures begun { OnOk result (IsOk (set_begun_at self.old)) }
    {
        let head = self.set_head()?;
        let entries = self.entries(alloc, head.count)?;
        match Arc::new(
            alloc,
            entries.finish(head.vendor, head.device, head.checksum),
        ) {
            Ok(set) => Ok(set),
            Err(_) => Err(RecordFault::Memory),
        }
    }

    // Reads what follows the tag of a Store.
    #[tactic(auto, unfolding(crate::specs::Reading::arguments_at, crate::specs::Reading::begun_after))]
    fn store(&mut self, alloc: Global) -> Result<Command, RecordFault>
        // A Store is spelled the same in every version.
        ensures { ReadsOrMemory (λ command. (value_of command, self.new)) (begun_after tag.Store self.old) result
            (arguments_at One tag.Store self.old) }
    {
        Ok(Command::Store {
            port: self.port()?,
            revision: self.revision()?,
            set: self.set(alloc)?,
        })
    }

    // Reads the record of a command.
    #[tactic(auto, unfolding(crate::specs::Reading::command_at, crate::specs::Reading::store_begun_at, crate::specs::Reading::arguments_at, crate::specs::Reading::begun_after, crate::specs::Reading::config_at))]
    pub(crate) fn command(
        &mut self,
        alloc: Global,
        version: Version,
    ) -> Result<Command, RecordFault>
        ensures { ReadsOrMemory (λ command. (value_of command, self.new)) (store_begun_at version self.old) result
            (command_at version self.old) }
    {
        match self.tag(version)? {
            Tag::Configure => Ok(Command::Configure {
                port: self.port()?,
                config: self.config(version)?,
            }),
            Tag::Clear => Ok(Command::Clear { port: self.port()? }),
            Tag::Store => self.store(alloc),
            Tag::Rollback => Ok(Command::Rollback { port: self.port()? }),
        }
    }

    // Reads the flag of a set of a port, and the set if there is one.
    #[tactic(auto, unfolding(crate::specs::Reading::stored_at, crate::specs::Reading::stored_begun_at, crate::specs::Reading::config_at))]
    fn stored(&mut self, alloc: Global, version: Version) -> Result<Option<StoredSet>, RecordFault>
        ensures read { ReadsOrMemory (λ stored. (option_map stored_of stored, self.new))
            (flagged_begun_at version self.old) result (flagged_at version self.old) }
        ensures begun { IfOk result (λ stored.
            IfSome (option_map stored_of stored) (λ _. IsOk (flagged_begun_at version self.old))) }
    {
        if !self.has_set()? {
            return Ok(None);
        }
        Ok(Some(StoredSet {
            recorded: self.config(version)?,
            set: self.set(alloc)?,
        }))
    }

    // Reads the previous set of a port, which version 1 does not have.
    #[tactic(auto, unfolding(crate::specs::Reading::previous_at, crate::specs::Reading::previous_begun_at))]
    fn previous(
        &mut self,
        alloc: Global,
        version: Version,
    ) -> Result<Option<StoredSet>, RecordFault>
        ensures { ReadsOrMemory (λ stored. (option_map stored_of stored, self.new)) (previous_begun_at version self.old) result
            (previous_at version self.old) }
    {
        match version {
            Version::One => Ok(None),
            Version::Two => self.stored(alloc, version),
        }
    }

    // Reads the stored set of a port, and the previous one.
    fn sets(&mut self, alloc: Global, version: Version) -> Result<PortSets, RecordFault>
        ensures { ReadsOrMemory (λ sets. ((option_map stored_of sets.stored, option_map stored_of sets.previous), self.new))
            (sets_begun_at version self.old) result (both (flagged_at version) (previous_at version) self.old) }
    {
        Ok(PortSets {
            stored: self.stored(alloc, version)?,
            previous: self.previous(alloc, version)?,
        })
    }

    // Reads the record of a port.
    #[tactic(auto, unfolding(crate::specs::Reading::port_record_at, crate::specs::Reading::port_parts_at, crate::specs::Reading::port_begun_at, crate::specs::Reading::config_at))]
    pub(crate) fn port_state(
        &mut self,
        alloc: Global,
        version: Version,
    ) -> Result<PortState, RecordFault>
        ensures { ReadsOrMemory (λ port. (port, self.new)) (port_begun_at version self.old) result
            (port_record_at version self.old) }
    {
        let config = self.config(version)?;
        let revision = self.revision()?;
        let sets = self.sets(alloc, version)?;
        PortState::new(config, revision, sets.stored, sets.previous).ok_or(RecordFault::BadField)
    }
}
