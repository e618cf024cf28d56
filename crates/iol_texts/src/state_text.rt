//! The text of a state that was recovered (docs/FORMATS.md, "Texts").
ghost use Rattle.std.specs.Prelude.{◌≡◌, []};
ghost use Rattle.std.specs.Fmt.{WritesOnOk};
ghost use Rattle.std.specs.Option.{option_map_or};
ghost use Rattle.iol_types.specs.Numbers.{IsPortNumber};
ghost use Rattle.iol_types.specs.State.{port_numbered};
ghost use Rattle.iol_texts.specs.Recovered.{entry_lines, previous_lines, port_line, port_text, port_lines, recovered_text};

use crate::entry_text::write_entries;
use iol_types::{Label, MasterState, PortConfig, PortId, PortState, StoredSet};
use std::fmt;

// The number of commands that were recovered, and the state after them.
#[derive(Drop)]
pub struct Recovered {
    pub number: u64,
    pub state: MasterState,
}

impl fmt::Display for Recovered {
    ghost use Rattle.std.specs.Prelude.{Some};
    ghost use Rattle.iol_texts.specs.Recovered.{recovered_text};

    ghost output = { λ recovered. Some (recovered_text recovered.number recovered.state) };

    fn fmt<W: fmt::Write>(&self, f: &mut fmt::Formatter<W>) -> fmt::Result {
        write_recovered(f, self.number, &self.state)
    }
}

// Writes the line with the number of commands, and below it the lines of the state after them.
fn write_recovered<W: fmt::Write>(
    f: &mut fmt::Formatter<W>,
    number: u64,
    state: &MasterState,
) -> fmt::Result
    ensures { WritesOnOk W.write_str_gives f.old result (recovered_text number state.now) f.new }
{
    writeln!(f, "recovered {number}")?;
    write_ports(f, state)
}

// Writes the lines of all ports of a state.
fn write_ports<W: fmt::Write>(f: &mut fmt::Formatter<W>, state: &MasterState) -> fmt::Result
    ensures { WritesOnOk W.write_str_gives f.old result (port_lines 1 state.now) f.new }
{
    for number in 1..=state.ports() {
        write_port_numbered(f, state, number)?;
    }
    Ok(())
}

// Writes the lines of the port with this number, 1 to 32, if it exists.
fn write_port_numbered<W: fmt::Write>(
    f: &mut fmt::Formatter<W>,
    state: &MasterState,
    number: u8,
) -> fmt::Result
    requires { IsPortNumber number }
    ensures { WritesOnOk W.write_str_gives f.old result (option_map_or (port_text number) (port_numbered state.now number) []) f.new }
{
    match PortId::new(number) {
        Some(number) => write_port(f, state, number),
        None => Ok(()),
    }
}

// Writes the lines of the port with this number, if it exists.
fn write_port<W: fmt::Write>(
    f: &mut fmt::Formatter<W>,
    state: &MasterState,
    number: PortId,
) -> fmt::Result
    ensures { WritesOnOk W.write_str_gives f.old result (option_map_or (port_text number) (port_numbered state.now number) []) f.new }
{
    match state.port(number) {
        Some(state) => write!(
            f,
            "{}",
            PortText {
                port: number,
                state
            }
        ),
        None => Ok(()),
    }
}

/// A port with its number, as `show` prints it: its line, a line for each parameter of its set, and the lines of its previous set.
#[derive(Clone, Copy)]
pub struct PortText<'a> {
    /// Its number.
    pub port: PortId,
    /// Its durable state.
    pub state: &'a PortState,
}

impl fmt::Display for PortText<'_> {
    ghost use Rattle.std.specs.Prelude.{Some};
    ghost use Rattle.iol_texts.specs.Recovered.{port_text};

    ghost output = { λ text. Some (port_text text.port text.state.now) };

    fn fmt<W: fmt::Write>(&self, f: &mut fmt::Formatter<W>) -> fmt::Result {
        write_port_line(f, self.port.number(), self.state)?;
        write_stored(f, self.state)?;
        write_previous(f, self.state)
    }
}

// Writes the line of a port.
fn write_port_line<W: fmt::Write>(
    f: &mut fmt::Formatter<W>,
    number: u8,
    port: &PortState,
) -> fmt::Result
    ensures { WritesOnOk W.write_str_gives f.old result (port_line number port.now) f.new }
{
    let config = port.config();
    write!(f, "port {number} revision {} ", port.revision())?;
    write!(f, "{}{}", Named(config), Called(&config.label))?;
    writeln!(f, " set {}", SetText(port.stored()))
}

// Writes the lines of the parameters of a port's stored set, if it has one.
fn write_stored<W: fmt::Write>(f: &mut fmt::Formatter<W>, port: &PortState) -> fmt::Result
    ensures { WritesOnOk W.write_str_gives f.old result (option_map_or entry_lines port.now.stored []) f.new }
{
    match port.stored() {
        Some(stored) => write_entries(f, &stored.set),
        None => Ok(()),
    }
}

// Writes the lines of the previous set of a port, if it has one.
fn write_previous<W: fmt::Write>(f: &mut fmt::Formatter<W>, port: &PortState) -> fmt::Result
    ensures { WritesOnOk W.write_str_gives f.old result (option_map_or previous_lines port.now.previous []) f.new }
{
    match port.previous() {
        Some(previous) => {
            writeln!(f, "previous {}", SetText(Some(previous)))?;
            write_entries(f, &previous.set)
        }
        None => Ok(()),
    }
}

// A configuration, each number after its name.
#[derive(Drop)]
struct Named(PortConfig);

impl fmt::Display for Named {
    ghost use Rattle.std.specs.Prelude.{Some};
    ghost use Rattle.iol_texts.specs.Recovered.{config_text};

    ghost output = { λ named. Some (config_text named.0) };

    fn fmt<W: fmt::Write>(&self, f: &mut fmt::Formatter<W>) -> fmt::Result {
        let config = &self.0;
        let mode = config.mode.to_octet();
        let validation = config.validation.to_octet();
        let vendor = config.vendor;
        let device = config.device.number();
        write!(f, "mode {mode} validation {validation} ")?;
        write!(f, "vendor {vendor:04X} device {device:06X}")
    }
}

// The label of a port, or nothing if it is empty.
#[derive(Drop)]
struct Called<'a>(&'a Label);

impl fmt::Display for Called<'_> {
    ghost use Rattle.std.specs.Prelude.{Some};
    ghost use Rattle.iol_texts.specs.Recovered.{label_text};

    ghost output = { λ called. Some (label_text called.0.now) };

    fn fmt<W: fmt::Write>(&self, f: &mut fmt::Formatter<W>) -> fmt::Result {
        if self.0.is_empty() {
            return Ok(());
        }
        write!(f, " label \"{}\"", self.0)
    }
}

// The text about a parameter set of a port, which may have none.
#[derive(Drop)]
struct SetText<'a>(Option<&'a StoredSet>);

impl fmt::Display for SetText<'_> {
    ghost use Rattle.std.specs.Prelude.{Some};
    ghost use Rattle.std.specs.Option.{option_map};
    ghost use Rattle.iol_types.specs.Port.{stored_of};
    ghost use Rattle.iol_texts.specs.Recovered.{set_text};

    ghost output = { λ text. Some (set_text (option_map (λ stored. stored_of stored.now) text.0)) };

    fn fmt<W: fmt::Write>(&self, f: &mut fmt::Formatter<W>) -> fmt::Result {
        let Some(stored) = self.0 else {
            return f.write_str("none");
        };
        let (entries, octets) = (stored.set.len(), stored.set.octets());
        let checksum = stored.set.checksum();
        let config = &stored.recorded;
        let mode = config.mode.to_octet();
        let validation = config.validation.to_octet();
        let vendor = config.vendor;
        let device = config.device.number();
        write!(
            f,
            "{entries} entries {octets} octets checksum {checksum:08X} "
        )?;
        write!(f, "under {mode} {validation} {vendor:04X} {device:06X}")
    }
}
