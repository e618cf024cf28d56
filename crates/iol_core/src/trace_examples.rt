//! Worked examples of traces: the prover computes each of these.

ghost use Rattle.std.specs.Prelude.{◌≡◌, [], ◌∷◌, ◌++◌, take, Some, None};
ghost use Rattle.iol_link.specs.Link as link;
ghost use Rattle.iol_types.specs.Command.{Clear, Store};
ghost use Rattle.iol_types.specs.DataSet.{SetValue};
ghost use Rattle.iol_core.specs.Events as trace;
ghost use Rattle.iol_core.specs.Events.{Accepted, Acknowledged, Refused, DiskFailed, stamped};
ghost use Rattle.iol_core.specs.Links.{calls_told, without_events};
ghost use Rattle.iol_core.specs.Own.{own, status_shown};
ghost use Rattle.iol_core.specs.Statuses.{QueueFull, Off, Uploading};
ghost use Rattle.iol_core.specs.Words.{accepted, numbers, acked, clock_after, RiseByOne};

/// After number 4, two commands are accepted and one is refused; the first is acknowledged at the clock 9, and then a disk
/// call fails.
pub fn two_commands()
    ensures commands { accepted (stamped 7 (Accepted 5 (Clear 1) ∷ Refused QueueFull ∷ Accepted 6 (Clear 2) ∷ []))
        ≡ Clear 1 ∷ Clear 2 ∷ [] }
    ensures numbers { numbers (stamped 7 (Accepted 5 (Clear 1) ∷ Refused QueueFull ∷ Accepted 6 (Clear 2) ∷ [])) ≡ 5 ∷ 6 ∷ [] }
    ensures rise { RiseByOne 4 (5 ∷ 6 ∷ []) }
    ensures before { acked 4 (stamped 7 (Accepted 5 (Clear 1) ∷ [])) ≡ 4 }
    ensures acknowledged { acked 4 (stamped 9 (Accepted 5 (Clear 1) ∷ Acknowledged 5 ∷ DiskFailed ∷ [])) ≡ 5 }
    ensures clock { clock_after 3 (take 2 (stamped 7 (Accepted 5 (Clear 1) ∷ Acknowledged 5 ∷ DiskFailed ∷ []))) ≡ 7 }
    ensures begun { clock_after 3 [] ≡ 3 }
    ensures last { acked 4 (stamped 7 (Acknowledged 5 ∷ []) ++ stamped 9 (Acknowledged 6 ∷ [])) ≡ 6 }
    ensures latest { clock_after 3 (stamped 7 (Acknowledged 5 ∷ []) ++ stamped 9 (Acknowledged 6 ∷ [])) ≡ 9 }
{}

/// On its first connection port 1 reads a page, exchanges a request and an answer with its device, and then loses it; port 2
/// loses its device at the read of the page.
pub fn the_calls_of_two_links()
    ensures first { calls_told 1 (stamped 7 (trace.Page 1 0 (5 ∷ []) ∷ trace.Exchange 1 0 (6 ∷ []) (7 ∷ []) ∷ trace.Lost 2 0 None
        ∷ trace.Lost 1 0 (Some (8 ∷ [])) ∷ DiskFailed ∷ []))
        ≡ record { connection = 0; call = link.ReadPage; answer = link.Octets (5 ∷ []) }
        ∷ record { connection = 0; call = link.Exchange (6 ∷ []); answer = link.Octets (7 ∷ []) }
        ∷ record { connection = 0; call = link.Exchange (8 ∷ []); answer = link.Gone } ∷ [] }
    ensures second { calls_told 2 (stamped 7 (trace.Page 1 0 (5 ∷ []) ∷ trace.Lost 2 0 None ∷ []))
        ≡ record { connection = 0; call = link.ReadPage; answer = link.Gone } ∷ [] }
    ensures events { without_events (record { connection = 0; call = link.TakeEvent; answer = link.Event 16384 }
        ∷ record { connection = 0; call = link.ReadPage; answer = link.Gone } ∷ [])
        ≡ record { connection = 0; call = link.ReadPage; answer = link.Gone } ∷ [] }
{}

/// Port 1 reads a page, is uploading, and its set is accepted. Commands of clients, acknowledgements and events of another
/// port are not its own.
pub fn the_own_events_of_a_port()
    ensures first { (set : SetValue) → own 1 (stamped 7 (trace.Page 1 0 (5 ∷ []) ∷ trace.Changed 1 Uploading ∷ trace.Lost 2 0 None
        ∷ Accepted 5 (Clear 1) ∷ Accepted 6 (Store 1 3 set) ∷ Acknowledged 6 ∷ []))
        ≡ trace.Page 1 0 (5 ∷ []) ∷ trace.Changed 1 Uploading ∷ Accepted 6 (Store 1 3 set) ∷ [] }
    ensures second { (set : SetValue) → own 2 (stamped 7 (trace.Lost 2 0 None ∷ Accepted 6 (Store 1 3 set) ∷ DiskFailed ∷ []))
        ≡ trace.Lost 2 0 None ∷ [] }
    ensures status { status_shown 1 (stamped 7 (trace.Page 1 0 (5 ∷ []) ∷ trace.Changed 1 Uploading ∷ trace.Changed 2 Off ∷ []))
        ≡ Uploading }
    ensures none { status_shown 2 (stamped 7 (trace.Page 2 0 (5 ∷ []) ∷ [])) ≡ Off }
{}
