//! Worked examples of the requests of lines, evaluated by the check: they catch a word or a range that is wrong both in a
//! definition and in the code.

ghost use Rattle.std.specs.Prelude.{◌≡◌, [], ◌∷◌, ◌++◌, true, false, map, codes, Some, None};
ghost use Rattle.iol_types.specs.declared.command.Change.TheVariants as change;
ghost use Rattle.json.specs.Json.{null, boolean, number, string, object, no_members};
ghost use Rattle.iol_requests.specs.Id.{id_number, id_text};
ghost use Rattle.iol_requests.specs.Json.{asked_in_json, id_of, id_in_json};
ghost use Rattle.iol_requests.specs.Words.{asked_in_words, document_of, verb_in};
ghost use Rattle.iol_requests.specs.Line.{IsText, text_of, is_nothing, spelling_of};
ghost use Rattle.iol_requests.specs.Examples.{configure_first, plain, blanks};
ghost use Rattle.iol_requests.specs.declared.line.Spelling.TheVariants.{Words, Json};
ghost use Rattle.iol_requests.specs.declared.request.Request.TheVariants.{Ask, Read, Status, Help, Quit};
ghost use Rattle.iol_requests.specs.declared.verb.Verb.TheVariants as verb;

/// A configuration in words: with a label, without one, with hexadecimal numbers and tabs, and in another order.
pub fn configures()
    ensures labelled { asked_in_words (codes "configure port=1 mode=1 validation=3 vendor=500 device=43981 label=\"Pump 3\"")
        ≡ Some (configure_first (codes "Pump 3")) }
    ensures unlabelled { asked_in_words (codes "configure port=1 mode=1 validation=3 vendor=500 device=43981")
        ≡ Some (configure_first []) }
    ensures spelled { asked_in_words (codes "configure\tdevice=0xABCD  vendor=0x1F4\tvalidation=3 mode=1 label='A\"' port=1") ≡ None }
    ensures another { asked_in_words (codes "configure\tdevice=0xABCD  vendor=0x1F4\tvalidation=3 mode=1 label='A B' port=1 ")
        ≡ Some (configure_first (codes "A B")) }
{}

/// The other verbs in words.
pub fn other_verbs()
    ensures clear { asked_in_words (codes "clear port=1") ≡ Some (Ask (change.Clear 1)) }
    ensures rollback { asked_in_words (codes "rollback port=32") ≡ Some (Ask (change.Rollback 32)) }
    ensures read { asked_in_words (codes "read port=2") ≡ Some (Read 2) }
    ensures status { asked_in_words (codes "status") ≡ Some (Status None) }
    ensures status_of { asked_in_words (codes "status port=3") ≡ Some (Status (Some 3)) }
    ensures help { asked_in_words (codes "help") ≡ Some Help }
    ensures quit { asked_in_words (codes "quit ") ≡ Some Quit }
{}

/// The TOML document of a request in words.
pub fn documents()
    ensures pairs { document_of verb.Clear (codes "port=1") ≡ codes "do = \"clear\"\nport=1" }
    ensures blanks { document_of verb.Help (codes "a \t'b c'\t\"d e\"") ≡ codes "do = \"help\"\na\n\n'b c'\n\"d e\"" }
    ensures marks { document_of verb.Help (codes "\"it's a\" 'b\" c' d") ≡ codes "do = \"help\"\n\"it's a\"\n'b\" c'\nd" }
{}

/// A verb is exactly one of seven words.
pub fn verbs()
    ensures words { map (λ text. verb_in (codes text))
        ("configure a" ∷ "clear\tb" ∷ "rollback" ∷ "read" ∷ "status" ∷ "help" ∷ "quit" ∷ [])
        ≡ Some verb.Configure ∷ Some verb.Clear ∷ Some verb.Rollback ∷ Some verb.Read ∷ Some verb.Status ∷ Some verb.Help
        ∷ Some verb.Quit ∷ [] }
    ensures others { map (λ text. verb_in (codes text)) ("" ∷ " help" ∷ "Help" ∷ "helps" ∷ "hel" ∷ "help\"#" ∷ "\\u0068elp" ∷ [])
        ≡ None ∷ None ∷ None ∷ None ∷ None ∷ None ∷ None ∷ [] }
{}

/// Texts that are no request in words: a port that no master has, a key that is missing, unknown or repeated, and a value of
/// another type or out of its range.
pub fn refused()
    ensures ports { map (λ text. asked_in_words (codes text)) ("clear port=0" ∷ "clear port=33" ∷ "read port=33" ∷ "status port=0" ∷ [])
        ≡ None ∷ None ∷ None ∷ None ∷ [] }
    ensures missing { map (λ text. asked_in_words (codes text))
        ("clear" ∷ "rollback" ∷ "read" ∷ "configure port=1 mode=1 validation=3 vendor=500" ∷ [])
        ≡ None ∷ None ∷ None ∷ None ∷ [] }
    ensures unknown { map (λ text. asked_in_words (codes text))
        ("clear prot=1" ∷ "clear port=1 mode=1" ∷ "read port=1 id=3" ∷ "help port=1" ∷ "quit now=1" ∷ [])
        ≡ None ∷ None ∷ None ∷ None ∷ None ∷ [] }
    ensures twice { map (λ text. asked_in_words (codes text)) ("clear port=1 port=1" ∷ "clear port=1 do=\"clear\"" ∷ [])
        ≡ None ∷ None ∷ [] }
    ensures values { map (λ text. asked_in_words (codes text))
        ("clear port=\"1\"" ∷ "clear port=1.0" ∷ "clear port=-1" ∷ "clear port=one" ∷ "clear port = 1" ∷ [])
        ≡ None ∷ None ∷ None ∷ None ∷ None ∷ [] }
{}

/// Lines that are neither a request nor a mistake.
pub fn nothing()
    ensures nothing { map is_nothing ([] ∷ codes " " ∷ codes "\t \t" ∷ codes "#" ∷ codes "# clear port=1" ∷ [])
        ≡ true ∷ true ∷ true ∷ true ∷ true ∷ [] }
    ensures something { map is_nothing (codes "quit" ∷ codes " #" ∷ codes "." ∷ []) ≡ false ∷ false ∷ false ∷ [] }
{}

/// A carriage return at the end of a line is dropped, and a line that begins with a brace is JSON.
pub fn texts()
    ensures returns { map text_of (codes "quit\r" ∷ codes "quit" ∷ codes "quit\r\r" ∷ codes "\r" ∷ [] ∷ [])
        ≡ codes "quit" ∷ codes "quit" ∷ codes "quit\r" ∷ [] ∷ [] ∷ [] }
    ensures spellings { map spelling_of (codes "{}" ∷ codes " {}" ∷ codes "help" ∷ [] ∷ []) ≡ Json ∷ Words ∷ Words ∷ Words ∷ [] }
{}

/// A line has at most 4,096 octets.
pub fn lengths()
    ensures longest { IsText (blanks 4096) }
    ensures longer { IsText (blanks 4097) → ⊥ }
{}

/// A configuration in JSON, with a number and with a text as its id.
pub fn configures_in_json()
    ensures number { asked_in_json (codes "{\"id\": 7, \"do\": \"configure\", \"port\": 1, \"mode\": 1, \"validation\": 3, "
        ++ codes "\"vendor\": 500, \"device\": 43981, \"label\": \"Pump 3\"}")
        ≡ Some (record { id = Some (id_number 7); request = configure_first (codes "Pump 3") }) }
    ensures text { asked_in_json (codes "{\"device\":43981,\"vendor\":500,\"validation\":3,\"mode\":1,"
        ++ codes "\"port\":1,\"do\":\"configure\",\"id\":\"a b\"}")
        ≡ Some (record { id = Some (id_text (codes "a b")); request = configure_first [] }) }
{}

/// The other verbs in JSON.
pub fn other_verbs_in_json()
    ensures clear { asked_in_json (codes "{\"do\": \"clear\", \"port\": 1}") ≡ plain (Ask (change.Clear 1)) }
    ensures rollback { asked_in_json (codes "{\"port\": 32, \"do\": \"rollback\"}") ≡ plain (Ask (change.Rollback 32)) }
    ensures read { asked_in_json (codes "{\"do\": \"read\", \"port\": 2}") ≡ plain (Read 2) }
    ensures status { asked_in_json (codes "{\"do\": \"status\"}") ≡ plain (Status None) }
    ensures status_of { asked_in_json (codes "{\"do\": \"status\", \"port\": 3}") ≡ plain (Status (Some 3)) }
    ensures help { asked_in_json (codes "{\"do\": \"help\"}") ≡ plain Help }
    ensures quit { asked_in_json (codes "{ \"do\" : \"quit\" }") ≡ plain Quit }
{}

/// Texts that are no request in JSON: no object, a key that is repeated, missing or unknown, and a value of another type or out
/// of its range.
pub fn refused_in_json()
    ensures objects { map (λ text. asked_in_json (codes text))
        ("{}" ∷ "{" ∷ "[1]" ∷ "{\"do\": \"help\"} {}" ∷ [])
        ≡ None ∷ None ∷ None ∷ None ∷ [] }
    ensures twice { asked_in_json (codes "{\"do\": \"clear\", \"port\": 1, \"port\": 1}") ≡ None }
    ensures escaped { asked_in_json (codes "{\"do\": \"help\", \"d\\u006f\": \"help\"}") ≡ None }
    ensures missing { map (λ text. asked_in_json (codes text)) ("{\"do\": \"clear\"}" ∷ "{\"port\": 1}" ∷ []) ≡ None ∷ None ∷ [] }
    ensures unknown { map (λ text. asked_in_json (codes text))
        ("{\"do\": \"clear\", \"prt\": 1}" ∷ "{\"do\": \"help\", \"port\": 1}" ∷ [])
        ≡ None ∷ None ∷ [] }
    ensures values { map (λ text. asked_in_json (codes text))
        ("{\"do\": \"clear\", \"port\": 33}" ∷ "{\"do\": \"clear\", \"port\": \"1\"}" ∷ "{\"do\": \"clear\", \"port\": 1.0}"
        ∷ "{\"do\": \"clear\", \"port\": null}" ∷ "{\"do\": true}" ∷ [])
        ≡ None ∷ None ∷ None ∷ None ∷ None ∷ [] }
{}

/// An id is 0 to 2^63 - 1, or a text of at most 64 octets. It is returned even if the rest of its object is wrong.
pub fn ids()
    ensures numbers { map (λ digits. id_of (number (codes digits)))
        ("0" ∷ "9223372036854775807" ∷ "9223372036854775808" ∷ "-1" ∷ "1.0" ∷ "1e3" ∷ [])
        ≡ Some (id_number 0) ∷ Some (id_number 9223372036854775807) ∷ None ∷ None ∷ None ∷ None ∷ [] }
    ensures longest { id_of (string (blanks 64)) ≡ Some (id_text (blanks 64)) }
    ensures longer { id_of (string (blanks 65)) ≡ None }
    ensures others { map id_of (null ∷ boolean true ∷ object no_members ∷ []) ≡ None ∷ None ∷ None ∷ [] }
    ensures kept { map (λ text. id_in_json (codes text))
        ("{\"id\": 3, \"do\": \"xyz\"}" ∷ "{\"id\": -3, \"do\": \"help\"}" ∷ "{\"id\": 3" ∷ [])
        ≡ Some (id_number 3) ∷ None ∷ None ∷ [] }
{}
