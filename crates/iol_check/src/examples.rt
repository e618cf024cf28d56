//! Examples of the lines of scripts that can be run, computed by the prover: if a text is wrong in a definition and in the
//! code alike, its example fails.
ghost use Rattle.std.specs.Prelude.{◌≡◌, pos, negsuc, [], ◌∷◌, map, codes};
ghost use Rattle.iol_script.specs.Examples.{example_script, full_script};
ghost use Rattle.iol_check.specs.Fine.{count_of, counted, counts_line, fine_line};

/// A word has an s unless its count is 1.
pub fn counts()
    ensures words { map (counted (codes "slot")) (0 ∷ 1 ∷ 2 ∷ 256 ∷ [])
        ≡ codes "0 slots" ∷ codes "1 slot" ∷ codes "2 slots" ∷ codes "256 slots" ∷ [] }
    ensures numbers { map count_of (negsuc 0 ∷ pos 0 ∷ pos 32 ∷ []) ≡ 0 ∷ 0 ∷ 32 ∷ [] }
{}

/// The lines for some numbers of ports, slots, devices and steps.
pub fn lines()
    ensures several { counts_line 2 4 2 7 ≡ codes "fine: 2 ports, 4 slots, 2 devices, 7 steps\n" }
    ensures single { counts_line 1 1 1 1 ≡ codes "fine: 1 port, 1 slot, 1 device, 1 step\n" }
{}

/// The lines of whole scripts. A stop is not counted as a step.
pub fn scripts()
    ensures least { fine_line (record example_script { ports = pos 1; slots = pos 2; devices = []; steps = [] })
        ≡ codes "fine: 1 port, 2 slots, 0 devices, 0 steps\n" }
    ensures example { fine_line example_script ≡ codes "fine: 2 ports, 4 slots, 1 device, 2 steps\n" }
    ensures full { fine_line full_script ≡ codes "fine: 3 ports, 5 slots, 1 device, 5 steps\n" }
{}
