//! The constants and connection numbers of links, worked out.

ghost use Rattle.std.specs.Prelude.{◌≡◌, ℕ, List, [], ◌∷◌, map};
ghost use Rattle.iol_link.specs.Link.{NoEvent, Event, Octets, Gone, connection_after, last_connection};
ghost use Rattle.iol_link.specs.declared.link.TheConstants.{PAGE_OCTETS};

/// The last connection of a link has the number 2^64 - 1.
pub fn the_last_connection()
    ensures { last_connection ≡ 18446744073709551615 }
{}

/// Direct Parameter page 1 has 16 octets.
pub fn octets_of_a_page()
    ensures { PAGE_OCTETS ≡ 16 }
{}

/// A loss begins the next connection, except after the last; any other answer keeps the connection.
pub fn connections()
    ensures lost { map (λ number. connection_after number Gone) (0 ∷ 7 ∷ last_connection ∷ []) ≡ 1 ∷ 8 ∷ last_connection ∷ [] }
    ensures answered { (octets : List ℕ) → map (connection_after 7) (NoEvent ∷ Event 0xFF91 ∷ Octets octets ∷ []) ≡ 7 ∷ 7 ∷ 7 ∷ [] }
{}
