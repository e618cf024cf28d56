//! The verbs of requests.
ghost use Rattle.std.specs.Prelude.{◌≡◌};
ghost use Rattle.iol_requests.specs.Verb.{verb_name, verb_of};

use std::fmt;

/// The kind of a request, in one word.
#[derive(Clone, Copy, Debug, PartialEq, Eq)]
pub enum Verb {
    /// Gives a port a configuration.
    Configure,
    /// Deletes the parameter sets of a port.
    Clear,
    /// Exchanges the parameter set of a port and its previous one.
    Rollback,
    /// Reads what a port keeps.
    Read,
    /// Asks for the status of one port or of each port.
    Status,
    /// Lists the requests.
    Help,
    /// Ends the master.
    Quit,
}

// All verbs, in the order in which they are listed.
pub(crate) const VERBS: [Verb; 7] = [
    Verb::Configure,
    Verb::Clear,
    Verb::Rollback,
    Verb::Read,
    Verb::Status,
    Verb::Help,
    Verb::Quit,
];

impl Verb {
    /// Returns the word of the verb.
    pub fn name(self) -> &'static str
        ensures { result.now ≡ verb_name self }
    {
        match self {
            Verb::Configure => "configure",
            Verb::Clear => "clear",
            Verb::Rollback => "rollback",
            Verb::Read => "read",
            Verb::Status => "status",
            Verb::Help => "help",
            Verb::Quit => "quit",
        }
    }

    // Returns the verb that has this word, if there is one.
    pub(crate) fn named(word: &[u8]) -> Option<Verb>
        ensures { result ≡ verb_of word.now }
    {
        VERBS
            .iter()
            .copied()
            .find(|verb| verb.name().as_bytes() == word)
    }
}

/// It is printed as its word.
impl fmt::Display for Verb {
    ghost use Rattle.std.specs.Prelude.{Some};
    ghost use Rattle.iol_requests.specs.Verb.{verb_name};

    ghost output = { λ verb. Some (verb_name verb) };

    fn fmt<W: fmt::Write>(&self, f: &mut fmt::Formatter<W>) -> fmt::Result {
        f.write_str(self.name())
    }
}
