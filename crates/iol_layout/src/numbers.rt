//! Reads numbers from octets.

ghost use Rattle.std.specs.Prelude.{◌≡◌, ◌+◌, ◌≤◌, length, take, drop};

// Returns the `N` octets of a number at `place`.
pub(crate) fn array_at<const N: usize>(octets: &[u8], place: usize) -> [u8; N]
    requires { place + N ≤ length octets.now }
    ensures { result ≡ take N (drop place octets.now) }
{
    let mut array = [0; N];
    array.copy_from_slice(&octets[place..place + N]);
    array
}
