//! The line of a port's status.

use crate::report::PortReport;
use iol_texts::{StatusText, StatusWords};
use std::fmt;

// The line of a port: its status, and its words.
impl fmt::Display for PortReport {
    ghost use Rattle.std.specs.Prelude.{Some};
    ghost use Rattle.iol_answers.specs.AnswerLines.{report_line};

    ghost output = { λ report. Some (report_line report) };

    fn fmt<W: fmt::Write>(&self, f: &mut fmt::Formatter<W>) -> fmt::Result {
        let words = StatusWords {
            status: self.status,
            row: None,
        };
        writeln!(
            f,
            "port {} {} # {words}",
            self.port.number(),
            StatusText(self.status)
        )
    }
}
