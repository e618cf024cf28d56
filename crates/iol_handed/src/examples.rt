//! Facts with values, which the prover computes.

ghost use Rattle.std.specs.Prelude.{◌≡◌, ℕ, List, [], ◌∷◌, ◌++◌, Some, None, true, false, length, replicate};
ghost use Rattle.iol_disk.specs.Calls.{sync, write};
ghost use Rattle.iol_disk.specs.Content.{Image, reads};
ghost use Rattle.iol_handed.specs.Log.{content_of, logged, numbers_of};
ghost use Rattle.iol_handed.specs.Notes.{event_kept, left_after};
ghost use Rattle.iol_handed.specs.declared.notes.Attention.TheVariants as attention;

/// Of the events of a device the last one is kept, but a DS_UPLOAD_REQ (FF91) always.
pub fn kept_events()
    ensures first { event_kept None 0x8C00 ≡ Some 0x8C00 }
    ensures last { event_kept (Some 0x8C00) 0x8C10 ≡ Some 0x8C10 }
    ensures upload { event_kept (Some 0xFF91) 0x8C10 ≡ Some 0xFF91 }
    ensures then_upload { event_kept (Some 0x8C00) 0xFF91 ≡ Some 0xFF91 }
{}

/// After a step only a device that is gone calls its port, until the port has heard it or is settled.
pub fn left_after_a_step()
    ensures gone { left_after attention.Gone false ≡ attention.Gone }
    ensures heard { left_after attention.Gone true ≡ attention.None }
    ensures woken { left_after attention.Woken false ≡ attention.None }
    ensures uncalled { left_after attention.None false ≡ attention.None }
{}

/// A log of a write of 512 octets A5 to sector 3, and of a sync after it, has these numbers, and the flash then reads
/// this way.
pub fn a_log()
    ensures written { numbers_of (write 3 (replicate 512 0xA5)) ≡ 4 ∷ replicate 512 0xA5 }
    ensures length { length (numbers_of sync) ≡ 513 }
    ensures reads_so { (image : Image)
        → reads (content_of image (logged sync (logged (write 3 (replicate 512 0xA5)) []))) 3 ≡ replicate 512 0xA5 }
    ensures others { (image : Image)
        → reads (content_of image (logged sync (logged (write 3 (replicate 512 0xA5)) []))) 4 ≡ image 4 }
{}
