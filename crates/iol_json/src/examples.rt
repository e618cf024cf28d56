//! Examples of states as JSON: the prover computes each of them.

ghost use Rattle.std.specs.Prelude.{◌≡◌, [], ◌∷◌, ◌++◌, codes, Some};
ghost use Rattle.serde_json.specs.Data.{string, object, member, no_members};
ghost use Rattle.serde_json.specs.Read.{read};
ghost use Rattle.iol_types.specs.Examples.{example_config, example_port, example_stored, renewed_port, port_of};
ghost use Rattle.iol_types.specs.declared.port_state.TheConstants.{LAST_REVISION};
ghost use Rattle.iol_json.specs.Json.{whole, entry_data, port_data, state_data};

/// A text that reads as a state of two ports: one with a stored set, and one without.
pub fn a_state()
    ensures { read (codes "{\"recovered\": 4, \"ports\": [{\"port\": 1, \"revision\": 1, "
        ++ codes "\"configuration\": {\"mode\": 1, \"validation\": 3, \"vendor\": 500, \"device\": 43981, \"label\": \"\"}, \"set\": "
        ++ codes "{\"checksum\": 591, \"octets\": 11, "
        ++ codes "\"under\": {\"mode\": 1, \"validation\": 3, \"vendor\": 500, \"device\": 43981, \"label\": \"\"}, "
        ++ codes "\"entries\": [{\"index\": 64, \"subindex\": 0, \"data\": \"0A64\"}, "
        ++ codes "{\"index\": 65, \"subindex\": 1, \"data\": \"7F\"}]}, \"previous\": null}, "
        ++ codes "{\"port\": 2, \"revision\": 7, "
        ++ codes "\"configuration\": {\"mode\": 1, \"validation\": 3, \"vendor\": 500, \"device\": 43981, \"label\": \"\"}, "
        ++ codes "\"set\": null, \"previous\": null}]}")
        ≡ Some (state_data 4 (example_port ∷ port_of example_config 7 ∷ [])) }
{}

/// A port whose set was taken under another label than its own, and a reverse solidus, which JSON writes as two.
pub fn labels()
    ensures { read (codes "{\"port\": 1, \"revision\": 1, "
        ++ codes "\"configuration\": {\"mode\": 1, \"validation\": 3, \"vendor\": 500, \"device\": 43981, \"label\": \"A\\\\B & <C>\"}, "
        ++ codes "\"set\": {\"checksum\": 591, \"octets\": 11, "
        ++ codes "\"under\": {\"mode\": 1, \"validation\": 3, \"vendor\": 500, \"device\": 43981, \"label\": \"Pump 3\"}, "
        ++ codes "\"entries\": [{\"index\": 64, \"subindex\": 0, \"data\": \"0A64\"}, "
        ++ codes "{\"index\": 65, \"subindex\": 1, \"data\": \"7F\"}]}, \"previous\": null}")
        ≡ Some (port_data 1 (record example_port {
          config = record example_config { label = codes "A\\B & <C>" };
          stored = Some (record example_stored { recorded = record example_config { label = codes "Pump 3" } });
        })) }
{}

/// A port with a previous set.
pub fn previous_sets()
    ensures { read (codes "{\"port\": 1, \"revision\": 1, "
        ++ codes "\"configuration\": {\"mode\": 1, \"validation\": 3, \"vendor\": 500, \"device\": 43981, \"label\": \"\"}, "
        ++ codes "\"set\": {\"checksum\": 594, \"octets\": 11, "
        ++ codes "\"under\": {\"mode\": 1, \"validation\": 3, \"vendor\": 500, \"device\": 43981, \"label\": \"\"}, "
        ++ codes "\"entries\": [{\"index\": 64, \"subindex\": 0, \"data\": \"0A64\"}, "
        ++ codes "{\"index\": 65, \"subindex\": 1, \"data\": \"80\"}]}, "
        ++ codes "\"previous\": {\"checksum\": 591, \"octets\": 11, "
        ++ codes "\"under\": {\"mode\": 1, \"validation\": 3, \"vendor\": 500, \"device\": 43981, \"label\": \"\"}, "
        ++ codes "\"entries\": [{\"index\": 64, \"subindex\": 0, \"data\": \"0A64\"}, "
        ++ codes "{\"index\": 65, \"subindex\": 1, \"data\": \"7F\"}]}}")
        ≡ Some (port_data 1 renewed_port) }
{}

/// A parameter without octets has an empty text, and the last revision is written in full.
pub fn ends_of_ranges()
    ensures no_octets { entry_data (record { index = 0x12AB; subindex = 0xFF }, [])
        ≡ object (member (codes "data") (string [])
        (member (codes "index") (whole 4779) (member (codes "subindex") (whole 255) no_members))) }
    ensures digits { entry_data (record { index = 1; subindex = 0 }, 0x00 ∷ 0x09 ∷ 0xAF ∷ 0xFF ∷ [])
        ≡ object (member (codes "data") (string (codes "0009AFFF"))
        (member (codes "index") (whole 1) (member (codes "subindex") (whole 0) no_members))) }
    ensures last_revision { read (codes "18446744073709551615") ≡ Some (whole LAST_REVISION) }
{}
