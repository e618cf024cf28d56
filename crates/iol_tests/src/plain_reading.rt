//! The meaning of a disk's image, read as docs/FORMATS.md says ("Disk layout", "Recovery"), sector by sector. It shares no code
//! with a recovery but the codec of the records of commands and ports.

ghost use Rattle.std.specs.Prelude.{◌<◌, ◌≤◌, ◌^◌};

use iol_disk::SECTOR_OCTETS;
use iol_journal::RecoverCause;
use iol_record::{Version, decode_command, decode_port};
use iol_types::{MasterState, PortId, PortState};
use std::alloc::Global;

const OPEN: [u8; 8] = [0xA5, 0x5A, 0xA5, 0x5A, 0xA5, 0x5A, 0xA5, 0x5A];

// An open area: where it begins, and its header, with the octet that names its version.
#[derive(Clone, Copy)]
struct Open {
    begin: usize,
    epoch: u64,
    base: u64,
    name: u64,
}

// The area in use, with its version, the sectors of a port's record and the slots that it has there.
#[derive(Clone, Copy)]
struct Used {
    begin: usize,
    epoch: u64,
    base: u64,
    version: Version,
    port_sectors: usize,
    slots: usize,
    ghost wide: { port_sectors ≤ 17 },
}

impl Used {
    // Returns the first sector of a port's record.
    fn port_at(self, place: u8) -> usize {
        self.begin
            .saturating_add(2 + self.port_sectors * usize::from(place))
    }
}

// An image, with the number of ports and of slots from its first sector.
#[derive(Clone, Copy)]
struct Plain<'a> {
    image: &'a [[u8; SECTOR_OCTETS]],
    ports: u8,
    slots: u16,
    ghost few_ports: { ports ≤ 32 },
}

fn damaged(sector: usize) -> RecoverCause {
    RecoverCause::Damaged { sector }
}

// Returns the octets of a sector, or none if there is no such sector.
fn sector(image: &[[u8; SECTOR_OCTETS]], place: usize) -> &[u8] {
    match image.get(place) {
        Some(octets) => octets,
        None => &[],
    }
}

fn is_open(image: &[[u8; SECTOR_OCTETS]], gate: usize) -> bool {
    sector(image, gate).starts_with(&OPEN)
}

// Returns the number in `count` octets from a place on, the most significant first.
fn number_at(octets: &[u8], place: usize, count: usize) -> u64 {
    let mut number = 0;
    for octet in octets.iter().skip(place).take(count) {
        number = (number << 8) | u64::from(*octet);
    }
    number
}

// Returns the octets of sectors from a place on. In a body it leaves out the gates between them.
fn gathered(
    alloc: Global,
    image: &[[u8; SECTOR_OCTETS]],
    first: usize,
    count: usize,
    is_body: bool,
) -> Result<Vec<u8>, RecoverCause> {
    let mut octets = Vec::new(alloc);
    for j in 0..count {
        let gates = if is_body { j / 16 } else { 0 };
        let place = first.saturating_add(j).saturating_add(gates);
        octets.extend_from_slice(sector(image, place))?;
    }
    Ok(octets)
}

impl<'a> Plain<'a> {
    // Returns the number of sectors of an area in both versions: its gate, its header, nine for each port, and seventeen for
    // each slot.
    fn area(self) -> usize
        ensures { result < 2 ^ 21 }
    {
        2 + 9 * usize::from(self.ports) + 17 * usize::from(self.slots)
    }

    fn of(image: &'a [[u8; SECTOR_OCTETS]]) -> Result<Plain<'a>, RecoverCause> {
        if !is_open(image, 1) {
            return Err(RecoverCause::NotFormatted);
        }
        let first = sector(image, 0);
        let is_marked = first.starts_with(&[0x49, 0x4F, 0x4C, 0x53, 0x01]);
        let (Ok(ports), Ok(slots)) = (
            u8::try_from(number_at(first, 5, 1)),
            u16::try_from(number_at(first, 6, 2)),
        ) else {
            return Err(damaged(0));
        };
        if !is_marked || number_at(first, 8, 2) != 16 || ports == 0 || 32 < ports {
            return Err(damaged(0));
        }
        let plain = Plain {
            image,
            ports,
            slots,
        };
        if !(1..=256).contains(&slots) || image.len() < 2 + 2 * plain.area() {
            return Err(damaged(0));
        }
        if slots <= plain.given_up() {
            return Err(RecoverCause::TooSmall);
        }
        Ok(plain)
    }

    // Returns the number of slots that an area gives up in version 2, for 8 more sectors of each port.
    fn given_up(self) -> u16
        ensures { result ≤ 16 }
    {
        (8 * u16::from(self.ports) + 16) / 17
    }

    fn open(self, begin: usize) -> Option<Open> {
        if !is_open(self.image, begin) {
            return None;
        }
        let header = sector(self.image, begin.saturating_add(1));
        Some(Open {
            begin,
            epoch: number_at(header, 0, 8),
            base: number_at(header, 8, 8),
            name: number_at(header, 16, 1),
        })
    }

    // Returns the open area with the greatest epoch.
    fn in_use(self) -> Result<Used, RecoverCause> {
        let b = 2 + self.area();
        let used = match (self.open(2), self.open(b)) {
            (None, None) => return Err(damaged(2)),
            (Some(x), Some(y)) if x.epoch == y.epoch => return Err(damaged(b + 1)),
            (Some(x), Some(y)) if x.epoch > y.epoch => x,
            (_, Some(y)) => y,
            (Some(x), None) => x,
        };
        let is_first = used.name == 0;
        let ahead = if is_first { 1 } else { 2 };
        let is_named = is_first || used.name == 2;
        if !is_named || used.epoch == 0 || used.base > 1 << 62 || used.epoch > used.base + ahead {
            return Err(damaged(used.begin.saturating_add(1)));
        }
        let given_up = if is_first { 0 } else { self.given_up() };
        Ok(Used {
            begin: used.begin,
            epoch: used.epoch,
            base: used.base,
            version: if is_first { Version::One } else { Version::Two },
            port_sectors: if is_first { 9 } else { 17 },
            slots: usize::from(self.slots.saturating_sub(given_up)),
        })
    }

    // Returns the port whose record begins at a sector.
    fn port(self, alloc: Global, used: Used, first: usize) -> Result<PortState, RecoverCause> {
        let octets = gathered(alloc, self.image, first, used.port_sectors, false)?;
        match decode_port(alloc, used.version, &octets) {
            Ok((port, _)) => Ok(port),
            Err(_) => Err(damaged(first)),
        }
    }

    // Puts the port at a place of an area into a state.
    fn put_port(
        self,
        alloc: Global,
        used: Used,
        place: u8,
        state: &mut MasterState,
    ) -> Result<(), RecoverCause> {
        let first = used.port_at(place);
        let port = PortId::new(place.saturating_add(1)).ok_or(damaged(first))?;
        let read = self.port(alloc, used, first)?;
        if state.port(port).is_some() {
            state.set_port(port, read);
        }
        Ok(())
    }

    fn state(self, alloc: Global, used: Used) -> Result<MasterState, RecoverCause> {
        let mut state = MasterState::new(alloc, self.ports)?;
        for place in 0..self.ports {
            self.put_port(alloc, used, place, &mut state)?;
        }
        Ok(state)
    }

    // Returns the number after the batches of an area's slots, up to the first head place whose gate is closed.
    fn replayed(
        self,
        alloc: Global,
        used: Used,
        state: &mut MasterState,
    ) -> Result<u64, RecoverCause> {
        let mut number = used.base;
        let mut slot = 0;
        for _ in 0..used.slots {
            let gate = self.gate(used, slot);
            if used.slots <= slot || !is_open(self.image, gate) {
                break;
            }
            let body = gate.saturating_add(1);
            let octets = number_at(sector(self.image, body), 18, 4) as usize;
            let span = octets.saturating_add(22).div_ceil(8192);
            if used.slots - slot < span {
                return Err(damaged(body));
            }
            number = self.batch_at(alloc, used, body, 16 * span, number, state)?;
            slot += span;
        }
        Ok(number)
    }

    // Applies the commands of a body of `sectors` sectors, gates left out, and returns the number of the last.
    fn batch_at(
        self,
        alloc: Global,
        used: Used,
        body: usize,
        sectors: usize,
        number: u64,
        state: &mut MasterState,
    ) -> Result<u64, RecoverCause> {
        let octets = gathered(alloc, self.image, body, sectors, true)?;
        batch(alloc, &octets, used, number, state).ok_or(damaged(body))
    }

    // Returns the gate of a slot of an area.
    fn gate(self, used: Used, slot: usize) -> usize {
        let ports = 2 + used.port_sectors * usize::from(self.ports);
        used.begin
            .saturating_add(ports)
            .saturating_add(slot.saturating_mul(17))
    }
}

// Returns the number of the last command of a body of `count` commands, if its header says that it follows this number.
fn last_of(body: &[u8], used: Used, number: u64, count: u64) -> Option<u64> {
    let last = number.checked_add(count)?;
    let is_fit = number_at(body, 0, 8) == used.epoch
        && number.checked_add(1) == Some(number_at(body, 8, 8))
        && (1..=64).contains(&count)
        && last <= 1 << 62;
    if is_fit { Some(last) } else { None }
}

// Applies the first command, and returns the number of octets of its record.
fn applied(
    alloc: Global,
    version: Version,
    octets: &[u8],
    state: &mut MasterState,
) -> Option<usize> {
    let (command, read) = decode_command(alloc, version, octets).ok()?;
    state.check(&command).ok()?;
    state.apply(command);
    Some(read)
}

// Applies the commands of a body, and returns the number of the last.
fn batch(
    alloc: Global,
    body: &[u8],
    used: Used,
    number: u64,
    state: &mut MasterState,
) -> Option<u64> {
    let count = number_at(body, 16, 2);
    let last = last_of(body, used, number, count)?;
    let end = (number_at(body, 18, 4) as usize).checked_add(22)?;
    let mut rest = body.get(22..end)?;
    for _ in 0..count {
        let read = applied(alloc, used.version, rest, state)?;
        rest = rest.get(read..)?;
    }
    if rest.is_empty() { Some(last) } else { None }
}

/// Returns the number of the last command that an image means, or the first cause why it means nothing.
pub fn plain_meaning(alloc: Global, image: &[[u8; SECTOR_OCTETS]]) -> Result<u64, RecoverCause> {
    let plain = Plain::of(image)?;
    let used = plain.in_use()?;
    let mut state = plain.state(alloc, used)?;
    plain.replayed(alloc, used, &mut state)
}
