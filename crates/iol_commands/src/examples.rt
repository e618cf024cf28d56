//! Worked examples of lines of a trace and of faults, evaluated by the check: they catch a text that is wrong both in a definition
//! and in the code.
ghost use Rattle.std.specs.Prelude.{◌≡◌, [], ◌∷◌, map, codes, Some, None};
ghost use Rattle.iol_types.specs.Command.{Clear};
ghost use Rattle.iol_core.specs.Events as event;
ghost use Rattle.iol_core.specs.Statuses as trace;
ghost use Rattle.iol_commands.specs.Fault.{fault_line};
ghost use Rattle.iol_commands.specs.Lines.{event_text, lines_of, report_text};
ghost use Rattle.iol_commands.specs.declared.fault.Fault.TheVariants.{NotFormatted, AlreadyFormatted, TooSmall, Damaged, Disk};
ghost use Rattle.iol_commands.specs.declared.fault.Fault.TheVariants.{Memory, Words, InUse, Thread, Call, Fit, Drivers, Script, Geometry};

/// The lines of single events.
pub fn events()
    ensures accepted { event_text (event.Accepted 1 (Clear 2)) ≡ codes "accepted 1\n" }
    ensures refused { event_text (event.Refused trace.QueueFull) ≡ codes "refused QueueFull\n" }
    ensures page { event_text (event.Page 1 0 (0x00 ∷ 0x17 ∷ 0xAB ∷ [])) ≡ codes "port 1 page 00 17 AB\n" }
    ensures exchange { event_text (event.Exchange 2 0 (0x94 ∷ 0x03 ∷ []) (0xD6 ∷ 0x20 ∷ [])) ≡ codes "port 2 > 94 03\nport 2 < D6 20\n" }
    ensures lost_at_a_request { event_text (event.Lost 32 4 (Some (0x10 ∷ []))) ≡ codes "port 32 > 10\nport 32 lost\n" }
    ensures lost_at_the_page { event_text (event.Lost 32 4 None) ≡ codes "port 32 lost\n" }
    ensures acknowledged { event_text (event.Acknowledged 12) ≡ codes "acknowledged 12\n" }
    ensures failed { event_text event.DiskFailed ≡ codes "disk failed\n" }
{}

/// A loss is printed once: the status after it has no line of its own, but that of another port has one.
pub fn losses()
    ensures once { lines_of (event.Lost 1 0 None ∷ event.Changed 1 trace.Lost ∷ []) ≡ codes "port 1 lost\n" }
    ensures of_another_port { lines_of (event.Lost 1 0 None ∷ event.Changed 2 trace.Lost ∷ []) ≡ codes "port 1 lost\nport 2 lost\n" }
    ensures alone { lines_of (event.Changed 1 trace.Starting ∷ event.Changed 1 trace.Lost ∷ [])
        ≡ codes "port 1 starting\nport 1 lost\n" }
{}

/// The text of a run: its events, that the power stopped, and the state that was recovered.
pub fn reports()
    ensures { report_text (event.Acknowledged 1 ∷ []) 1 [] ≡ codes "acknowledged 1\nstopped\nrecovered 1\n" }
{}

/// The lines of faults.
pub fn faults()
    ensures damaged { fault_line (Damaged 40) ≡ codes "error: damaged at sector 40\n" }
    ensures of_a_disk { map fault_line (NotFormatted ∷ AlreadyFormatted ∷ TooSmall ∷ Disk ∷ [])
        ≡ codes "error: the disk is not formatted\n" ∷ codes "error: the disk is already formatted\n"
        ∷ codes "error: the disk is too small\n" ∷ codes "error: the disk failed\n" ∷ [] }
    ensures others { map fault_line (Memory ∷ Words ∷ Script ∷ Geometry ∷ [])
        ≡ codes "error: out of memory\n" ∷ codes "error: a word is not UTF-8\n" ∷ codes "error: the script is not valid\n"
        ∷ codes "error: the geometry is not valid\n" ∷ [] }
    ensures of_a_running_master { map fault_line (InUse ∷ Thread ∷ Call ∷ Fit ∷ Drivers ∷ [])
        ≡ codes "error: the image is in use\n" ∷ codes "error: a thread could not start\n" ∷ codes "error: a call failed\n"
        ∷ codes "error: the script does not fit the image\n" ∷ codes "error: the drivers do not fit the image\n" ∷ [] }
{}
