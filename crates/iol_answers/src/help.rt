//! The list of all requests, for people.
ghost use Rattle.std.specs.Prelude.{◌≡◌, map};
ghost use Rattle.iol_answers.specs.Help.{help_texts};

// The number of requests in the list.
pub(crate) const REQUESTS: usize = 7;

// Each request with its keys, and what it does.
pub(crate) fn help_texts() -> [&'static str; REQUESTS]
    ensures { map (λ text. text.now) result ≡ help_texts }
{
    [
        "configure port=1..32 mode=0..4 validation=0..4 vendor=0..65535 device=0..16777215 [label=\"TEXT\"] # configures the port",
        "clear port=1..32 # deletes the parameter set of the port, and the previous one",
        "rollback port=1..32 # exchanges the parameter set of the port and the previous one",
        "read port=1..32 # shows the configuration of the port and its parameter sets, as they are durable",
        "status [port=1..32] # shows the status of each port, or of one",
        "help # shows these lines",
        "quit # ends the master, once what waits is written",
    ]
}
