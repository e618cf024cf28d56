//! An Index_List is written as octets.
ghost use Rattle.std.specs.Prelude.{◌≡◌, ◌≤◌, ℕ, length, All, false, Ok};
ghost use Rattle.std.specs.List.{IsDistinct};
ghost use Rattle.iol_types.specs.Key.{same_key, is_reserved};
ghost use Rattle.iol_transfer.specs.List.{reading_of, list_octets, CanFollow};
ghost use Rattle.iol_transfer.specs.declared.list.TheConstants.{MOST_LISTED_KEYS};

use crate::list::{MOST_LISTED_KEYS, Next};
use arrayvec::ArrayVec;
use iol_link::DATA_OCTETS;
use iol_types::Key;

/// The octets of an Index_List with these keys and what follows them. A reader finds every key only if the keys are
/// distinct.
pub fn write_index_list(keys: &[Key], next: Next) -> ArrayVec<u8, DATA_OCTETS>
    requires count { length keys.now ≤ MOST_LISTED_KEYS }
    requires free { All (λ key. is_reserved key ≡ false) keys.now }
    ensures octets { result.items ≡ list_octets keys.now next }
    ensures read_back { IsDistinct same_key keys.now → CanFollow next
        → reading_of result.items ≡ Ok (keys.now, next) }
{
    let mut octets = ArrayVec::new();
    for key in keys {
        let [high, low] = key.index.to_be_bytes();
        octets
            .try_extend_from_slice(&[high, low, key.subindex])
            .unwrap();
    }
    let index = match next {
        Next::End => 0,
        Next::List(index) => index,
    };
    octets.try_extend_from_slice(&index.to_be_bytes()).unwrap();
    octets
}
