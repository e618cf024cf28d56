//! Numbers of ports.
ghost use Rattle.std.specs.Prelude.{◌≡◌, ◌+◌, ◌<◌, ◌↔◌, IsSome, IfSome};
ghost use Rattle.iol_types.specs.Numbers.{IsPortNumber};

use std::marker::Model;

/// The maximum number of ports of a master; they are numbered from 1.
pub const PORTS: u8 = 32;

/// The number of a port, 1 to 32.
#[derive(Clone, Copy, Debug, PartialEq, Eq)]
pub struct PortId {
    number: u8,
}

impl Model for PortId {
    ghost use Rattle.std.specs.Prelude.{ℕ};
    ghost use Rattle.iol_types.specs.Numbers.{IsPortNumber};

    ghost Value = { ℕ };

    ghost view = { λ p. p.number };

    ghost invariant = { λ p. IsPortNumber p.number };

    ghost inverse = { λ n. record { number = n } };
}

impl PortId {
    /// The port with this number, or `None` if it is not 1 to 32.
    pub fn new(number: u8) -> Option<PortId>
        ensures range { IsSome result ↔ IsPortNumber number }
        ensures number { IfSome result (λ port. port ≡ number) }
    {
        if 1 <= number && number <= PORTS {
            Some(PortId { number })
        } else {
            None
        }
    }

    /// The number, 1 to 32.
    pub fn number(self) -> u8
        ensures number { result ≡ self }
        ensures range { IsPortNumber self }
    {
        self.number
    }

    /// The place of the port in a list of all ports, from 0.
    pub fn place(self) -> usize
        ensures place { result + 1 ≡ self }
        ensures range { IsPortNumber self }
    {
        usize::from(self.number) - 1
    }
}
