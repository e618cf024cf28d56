//! Laws of words, which no code calls.

ghost use Rattle.std.specs.Prelude.{◌≡◌, ◌≢◌, ◌∷◌, ◌++◌, ℕ, List, Ok, codes};
ghost use Rattle.iol_link.specs.Reading.{request_of};
ghost use Rattle.iol_link.specs.declared.messages.Request.{Request};
ghost use Rattle.iol_link.specs.declared.faults.IsduFault.{IsduFault};
ghost use Rattle.iol_explain.specs.Requests.{AreOctets, isdu_fault_words, request_words};

/// If one octet of a request is changed, its words say which check it fails.
pub fn a_changed_octet_is_malformed()
    ensures { (before behind : List ℕ) (octet other : ℕ) (request : Request) → AreOctets (before ++ octet ∷ behind)
        → AreOctets (before ++ other ∷ behind) → request_of (before ++ octet ∷ behind) ≡ Ok request → other ≢ octet → (fault : IsduFault)
        × (request_words (request_of (before ++ other ∷ behind)) ≡ codes "malformed, " ++ isdu_fault_words fault) }
{}
