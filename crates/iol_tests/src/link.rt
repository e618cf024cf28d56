//! A link of which nothing is claimed.

use arrayvec::ArrayVec;
use iol_link::{DeviceLink, ISDU_OCTETS, Lost, PAGE_OCTETS, runs_join};

// A link of which nothing is claimed: it has no device.
#[derive(Drop)]
struct Unplugged {
    connection: u64,
}

impl Unplugged {
    ghost use Rattle.std.specs.Prelude.{◌≡◌, ◌+◌, min};
    ghost use Rattle.iol_link.specs.Link.{last_connection};

    fn lose(&mut self) -> Lost
        ensures { self.new.connection ≡ min (self.old.connection + 1) last_connection }
    {
        self.connection = self.connection.saturating_add(1);
        Lost
    }
}

impl DeviceLink for Unplugged {
    ghost number = { λ link. link.connection };

    ghost device = { λ link. link.connection };

    ghost steps = { λ _ _ _ _. Unit {0} };

    fn connection(&self) -> u64 {
        self.connection
    }

    fn take_event(&mut self) -> Option<u16> {
        None
    }

    fn read_page(&mut self) -> Result<[u8; PAGE_OCTETS], Lost> {
        Err(self.lose())
    }

    fn exchange(&mut self, _request: &[u8]) -> Result<ArrayVec<u8, ISDU_OCTETS>, Lost> {
        Err(self.lose())
    }
}

#[test]
fn each_loss_begins_a_connection_up_to_the_last(rt: HostRuntime) {
    let mut link = Unplugged {
        connection: 18446744073709551613,
    };
    let _ = link.take_event();
    let silent = link.connection();
    let _ = link.read_page();
    let unread = link.connection();
    let _ = link.exchange(&[0x93, 0x10, 0x83]);
    let unanswered = link.connection();
    let _ = link.read_page();
    let places = [silent, unread, unanswered, link.connection()];
    assert!(rt;
        places
            == [
                18446744073709551613,
                18446744073709551614,
                18446744073709551615,
                18446744073709551615
            ]
    );
    runs_join::<Unplugged>();
}
