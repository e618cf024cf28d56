//! Laws of ISDUs. No code calls them.

ghost use Rattle.std.specs.Prelude.{◌≡◌, ℕ, List, [], ◌++◌};
ghost use Rattle.iol_link.specs.Isdu.{IsIsdu};

/// No ISDU is a proper prefix of another: if an ISDU begins with another one, nothing follows that
/// one.
pub fn no_isdu_begins_another()
    ensures { (octets rest : List ℕ) → IsIsdu octets → IsIsdu (octets ++ rest) → rest ≡ [] }
{}
