//! Examples of the lines of a map, computed by the prover: if a text is wrong in a definition and in the code alike, its example
//! fails.
ghost use Rattle.std.specs.Prelude.{◌≡◌, ℕ, [], ◌∷◌, ◌++◌, map, codes, Some, None};
ghost use Rattle.iol_record.specs.declared.version.Version.TheVariants.{One, Two};
ghost use Rattle.iol_journal.specs.Area.TheVariants.{A, B};
ghost use Rattle.iol_journal.specs.Examples.{header_with};
ghost use Rattle.iol_view.specs.Map.{first_reach, next_reach};
ghost use Rattle.iol_view.specs.Map.{area_text, map_text, mapped_text, outcome_text, part_text, slot_text, span_text, standing_of};
ghost use Rattle.iol_view.specs.declared.map_front.Standing.TheVariants as stands;
ghost use Rattle.iol_view.specs.declared.map_lines.Part.TheVariants as part;
ghost use Rattle.iol_view.specs.declared.map_outcome.Outcome.TheVariants as ending;
ghost use Rattle.iol_view.specs.declared.map_slots.Reach.TheVariants as reach;

/// The words for one number, and for several.
pub fn spans()
    ensures one { span_text (codes "slot") (record { first = 5; last = 5 }) ≡ codes "slot 5" }
    ensures several { span_text (codes "slot") (record { first = 5; last = 256 }) ≡ codes "slots 5 to 256" }
{}

/// The outcomes of a recovery.
pub fn outcomes()
    ensures { map outcome_text (ending.Recovered 3 ∷ ending.NotFormatted ∷ ending.TooSmall ∷ ending.Damaged 39 ∷ [])
        ≡ codes "recovered 3" ∷ codes "not recovered: the disk is not formatted" ∷ codes "not recovered: the disk is too small"
        ∷ codes "not recovered: damaged at sector 39" ∷ [] }
{}

/// The parts of a disk that lines show.
pub fn parts()
    ensures areas { map (λ p. part_text p (record { first = 0; last = 0 })) (part.Alone ∷ part.AreaA ∷ part.AreaB ∷ [])
        ≡ [] ∷ codes "area A, " ∷ codes "area B, " ∷ [] }
    ensures ports { part_text part.Port (record { first = 2; last = 32 }) ≡ codes "  ports 2 to 32, " }
    ensures slot { part_text part.Slot (record { first = 1; last = 1 }) ≡ codes "  slot 1, " }
    ensures unused { part_text part.Unused (record { first = 0; last = 0 }) ≡ codes "  " }
{}

/// The words for an area that is in use, for one that is older, for one that is open while no area is in use, and for one that
/// is closed.
pub fn areas()
    ensures in_use { area_text stands.InUse (header_with Two 2 4)
        ≡ codes "gate open, epoch 2, base 4, version 2, in use: open, greatest epoch" }
    ensures older { area_text stands.Older (header_with One 1 0) ≡ codes "gate open, epoch 1, base 0, version 1, not in use: older" }
    ensures undecided { area_text stands.Undecided (record { epoch = 0; base = 9; version = None })
        ≡ codes "gate open, epoch 0, base 9, no version, not in use: no area is" }
    ensures closed { area_text stands.Closed (header_with Two 0 0) ≡ codes "gate closed, epoch 0, base 0, version 2, not in use: closed" }
    ensures chosen { standing_of B (Some (record { area = B; header = header_with Two 2 4 })) ≡ stands.InUse }
    ensures other { standing_of A (Some (record { area = B; header = header_with Two 2 4 })) ≡ stands.Older }
    ensures none { standing_of A None ≡ stands.Undecided }
{}

/// How far a recovery gets in the slots of an area: at the first slot, and after a closed gate.
pub fn reaches()
    ensures first { map first_reach (stands.InUse ∷ stands.Older ∷ stands.Undecided ∷ stands.Closed ∷ [])
        ≡ reach.Next ∷ reach.Idle ∷ reach.Idle ∷ reach.Idle ∷ [] }
    ensures behind { map (λ r. next_reach r None) (reach.Next ∷ reach.Behind ∷ reach.Idle ∷ [])
        ≡ reach.Behind ∷ reach.Behind ∷ reach.Idle ∷ [] }
{}

/// The words for slots whose gate is closed: the first of an area that is in use, one after it, and one of the other area.
pub fn closed_slots()
    ensures { map (slot_text 1 None) (reach.Next ∷ reach.Behind ∷ reach.Idle ∷ [])
        ≡ codes "gate closed, the first: slots behind it are not read" ∷ codes "gate closed" ∷ codes "gate closed" ∷ [] }
{}

/// Slots whose gate is open: with several commands, with one of another epoch, after a closed gate, and with a head that
/// gives no numbers.
pub fn open_slots()
    ensures several { slot_text 1 (Some (record { epoch = 1; first = 1; count = 3; octets = 34 })) reach.Next
        ≡ codes "commands 1 to 3, 34 octets" }
    ensures one { slot_text 2 (Some (record { epoch = 1; first = 7; count = 1; octets = 10 })) reach.Idle
        ≡ codes "command 7, 10 octets, epoch 1" }
    ensures behind { slot_text 1 (Some (record { epoch = 1; first = 1; count = 3; octets = 34 })) reach.Behind
        ≡ codes "gate open behind a closed one: not read" }
    ensures empty { slot_text 0 (Some (record { epoch = 0; first = 0; count = 0; octets = 0 })) reach.Next
        ≡ codes "first command 0, count 0, 0 octets" }
{}

/// The head of a map, and what is printed for a picture.
pub fn heads()
    ensures head { map_text 178 (ending.Recovered 3) [] ≡ codes "sectors 178\nrecovered 3\n" }
    ensures picture { mapped_text 178 ≡ codes "mapped 178 sectors\n" }
{}
