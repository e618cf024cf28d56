//! Worked examples of what is printed of a running master: the prover computes each of these. They catch a text that is wrong
//! both in a definition and in the code.
ghost use Rattle.std.specs.Prelude.{◌≡◌, true, false, [], ◌∷◌, codes};
ghost use Rattle.iol_texts.specs.Recovered.{recovered_text};
ghost use Rattle.iol_types.specs.declared.command.Change.TheVariants.{Clear, Rollback};
ghost use Rattle.iol_live.specs.Asked.{changes_of};
ghost use Rattle.iol_live.specs.Lived.{fits, lived_text};
ghost use Rattle.iol_script.specs.declared.device.Device.{Device};

/// The number of receipts is above the state.
pub fn receipts()
    ensures { lived_text 3 (recovered_text 4 []) ≡ codes "receipts 3\nrecovered 4\n" }
{}

/// A device fits at the last port, but not after it.
pub fn last_ports()
    ensures last { (device : Device) → device.port ≡ 2 → fits 2 (device ∷ []) ≡ true }
    ensures behind { (device : Device) → device.port ≡ 3 → fits 2 (device ∷ []) ≡ false }
{}

/// A port has its own changes, in their order.
pub fn of_a_port()
    ensures { changes_of 2 (Clear 2 ∷ Clear 1 ∷ Rollback 2 ∷ Rollback 1 ∷ []) ≡ Clear 2 ∷ Rollback 2 ∷ [] }
{}
