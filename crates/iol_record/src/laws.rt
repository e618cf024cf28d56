//! A law of records, which no code calls.

ghost use Rattle.std.specs.Prelude.{◌≡◌, ◌++◌, ℕ, List, []};
ghost use Rattle.iol_types.specs.Command.{CommandValue};
ghost use Rattle.iol_types.specs.State.{Port};
ghost use Rattle.iol_record.specs.Record.{IsCommandRecord, IsPortRecord};
ghost use Rattle.iol_record.specs.declared.version.Version.{Version};

/// In a version, no command's record is a prefix of another command's, and no port's record is a prefix of another
/// port's.
pub fn no_record_begins_another()
    ensures command { (version : Version) (front rest : List ℕ) (one two : CommandValue)
        → IsCommandRecord version front one → IsCommandRecord version (front ++ rest) two
        → (one ≡ two) × (rest ≡ []) }
    ensures port { (version : Version) (front rest : List ℕ) (one two : Port)
        → IsPortRecord version front one → IsPortRecord version (front ++ rest) two
        → (one ≡ two) × (rest ≡ []) }
{}
