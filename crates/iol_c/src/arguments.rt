//! The arguments that C hands over.

ghost use Rattle.std.specs.Prelude.{◌≡◌, ◌≤◌, length};
ghost use Rattle.iol_c.specs.Asks.{port_of};
ghost use Rattle.iol_c.specs.Filled.{filled};

use iol_types::PortId;

/// Returns the port with this number, if it is 1 to 32.
pub(crate) fn port_of(number: u8) -> Option<PortId>
    ensures { result ≡ port_of number }
{
    PortId::new(number)
}

/// Returns these octets, followed by zeros.
pub(crate) fn filled<const COUNT: usize>(octets: &[u8]) -> [u8; COUNT]
    requires short { length octets.now ≤ COUNT }
    ensures filled { result ≡ filled COUNT octets.now }
{
    let mut all = [0; COUNT];
    all[..octets.len()].copy_from_slice(octets);
    all
}
