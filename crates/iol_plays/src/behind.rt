//! A client in a thread of its own, its receipt, and what another client reads after it.

ghost use Rattle.std.specs.Prelude.{◌≡◌, ◌≤◌, IfOk};

use anyhow::{Context, bail};
use iol_core::View;
use iol_front::Name;
use iol_master::{Client, ReadFault, Receipt};
use iol_types::{Change, DeviceId, Label, PortConfig, PortId, PortMode, Validation};
use std::marker::Model;
use std::sync::Wait;
use std::thread;
use std::thread::{JoinHandle, Threads};

/// A receipt of a client: its command has the receipt's number in the list that its pass has seen. A contract sees the
/// number.
#[derive(Drop)]
pub(crate) struct Granted<F: Name> {
    receipt: Receipt<F>,
}

impl<F: Name> Model for Granted<F> {
    ghost use Rattle.std.specs.Prelude.{ℕ};
    ghost use Rattle.iol_types.specs.Command.{command_of};
    ghost use Rattle.iol_master.specs.Receipts.{StandsAt};

    ghost Value = { ℕ };

    ghost view = { λ g. g.receipt.number };

    ghost invariant = { λ g. StandsAt F.front.start g.receipt.pass g.receipt.number (command_of g.receipt.command) };
}

impl<F: Name> Granted<F> {
    /// Returns the port that was configured.
    pub(crate) fn port(&self) -> PortId {
        self.receipt.command.port()
    }
}

// Returns the configuration of a port for a sensor whose parameters are kept.
fn config() -> anyhow::Result<PortConfig> {
    Ok(PortConfig {
        mode: PortMode::IolManual,
        validation: Validation::BackupAndRestore,
        vendor: 500,
        device: DeviceId::new(43981).context("no DeviceID")?,
        label: Label::empty(),
    })
}

/// Starts a thread in which a client configures the port with this number. The thread returns the client's receipt, if it
/// gets one.
pub(crate) fn configuring<F: Name + 'static, R: Threads + Wait + Copy + Send + 'static>(
    rt: &R,
    client: Client<F>,
    number: u8,
) -> anyhow::Result<JoinHandle<Option<Granted<F>>>> {
    let port = PortId::new(number).context("no port")?;
    let config = config()?;
    let rt = *rt;
    let Ok(started) = thread::spawn(&rt, move || configure(&rt, client, port, config)) else {
        bail!("no thread")
    };
    Ok(started)
}

fn configure<F: Name, R: Wait>(
    rt: &R,
    mut client: Client<F>,
    port: PortId,
    config: PortConfig,
) -> Option<Granted<F>> {
    match client.configure(rt, port, config) {
        Ok(receipt) => Some(Granted { receipt }),
        Err(_) => None,
    }
}

/// Has a client meet a receipt and then read a port. Returns the state after the receipt's command, or a later one.
pub(crate) fn read_behind<F: Name, R: Wait>(
    rt: &R,
    client: &mut Client<F>,
    granted: &mut Granted<F>,
    port: PortId,
) -> Result<View, ReadFault>
    ensures same { granted.new ≡ granted.old }
    ensures behind { IfOk result (λ view. granted.old ≤ view.number) }
{
    client.meet(&mut granted.receipt.pass);
    client.read(rt, port)
}
