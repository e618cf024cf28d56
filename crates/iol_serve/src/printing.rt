//! The texts that a serving master prints, by one thread.

use crate::hearing::Heard;
use crate::spelling::{Spelled, event_line};
use crossbeam_channel::{Receiver, Sender};
use iol_answers::{Event, RequestAnswer};
use iol_requests::Spelling;
use std::alloc::{AllocError, Global};
use std::io::{self, Write};
use std::sync::Wait;
use std::thread;
use std::time::{Clock, Duration};

// The most texts that wait to be printed.
const MOST_TEXTS: usize = 64;

// The most tries to make a text for which there is no memory, and the wait after each: a second in all.
const MOST_TRIES: u32 = 100;

const WAIT_MILLISECONDS: u64 = 10;

const PROMPT: &[u8] = b"> ";

/// Whether all texts were printed.
#[derive(Clone, Copy, Debug, PartialEq, Eq)]
pub enum Printed {
    Whole,
    /// Printing failed, and then the master was ended.
    Broken,
}

/// Whether a prompt is printed, for a person at a terminal.
#[derive(Clone, Copy, Debug, PartialEq, Eq)]
pub enum Prompt {
    Shown,
    Absent,
}

/// A text to print.
#[derive(Drop)]
pub(crate) enum Text {
    // It has whole lines.
    Lines(String),
    // It is the last line.
    Last(String),
    // It has no line: only the prompt is printed, if one is shown.
    Blank,
    // There was no memory for an answer.
    OutOfMemory,
}

impl Text {
    fn as_bytes(&self) -> &[u8] {
        match self {
            Text::Lines(text) | Text::Last(text) => text.as_bytes(),
            Text::Blank => b"",
            Text::OutOfMemory => b"refused Memory # out of memory for an answer\n",
        }
    }

    // Returns whether a prompt is printed after the text.
    fn is_prompted(&self) -> bool {
        !matches!(self, Text::Last(_))
    }
}

/// A sender of texts to print. Each thread has its own.
#[derive(Drop)]
pub(crate) struct Printer {
    texts: Sender<Text, Global>,
}

/// The printing thread's part: it receives the texts of all printers.
#[derive(Drop)]
pub(crate) struct PrintingThread {
    texts: Receiver<Text, Global>,
    prompt: Prompt,
}

// Makes a printer, and the part that prints its texts.
pub(crate) fn printing(
    alloc: Global,
    prompt: Prompt,
) -> Result<(Printer, PrintingThread), AllocError> {
    let Ok((texts, heard)) = crossbeam_channel::bounded(alloc, MOST_TEXTS) else {
        return Err(AllocError);
    };
    let thread = PrintingThread {
        texts: heard,
        prompt,
    };
    Ok((Printer { texts }, thread))
}

impl Printer {
    // Makes one more printer, for another thread.
    pub(crate) fn another(&self) -> Result<Printer, AllocError> {
        Ok(Printer {
            texts: self.texts.clone()?,
        })
    }

    // Prints an answer. If memory stays out for a second, prints a line that needs none instead.
    pub(crate) fn answer<R: Wait + Clock>(
        &self,
        rt: &R,
        alloc: Global,
        spelled: &Spelled,
        answer: &RequestAnswer<'_>,
    ) {
        for _ in 0..MOST_TRIES {
            if let Ok(text) = spelled.lines(alloc, answer) {
                return self.print(rt, Text::Lines(text));
            }
            thread::sleep(rt, Duration::from_millis(WAIT_MILLISECONDS));
        }
        self.print(rt, Text::OutOfMemory);
    }

    // Prints an event, if there is memory for its text.
    pub(crate) fn event<R: Wait>(&self, rt: &R, alloc: Global, spelling: Spelling, event: &Event) {
        if let Ok(text) = event_line(alloc, spelling, event) {
            self.print(rt, Text::Lines(text));
        }
    }

    // Prints the last event, if there is memory for its text.
    pub(crate) fn last_event<R: Wait>(
        &self,
        rt: &R,
        alloc: Global,
        spelling: Spelling,
        event: &Event,
    ) {
        if let Ok(text) = event_line(alloc, spelling, event) {
            self.print(rt, Text::Last(text));
        }
    }

    // Prints the prompt again, if one is shown.
    pub(crate) fn blank<R: Wait>(&self, rt: &R) {
        self.print(rt, Text::Blank);
    }

    // Sends a text to be printed. Once a write has failed, nobody takes texts any more.
    fn print<R: Wait>(&self, rt: &R, text: Text) {
        let _ = self.texts.send(rt, text);
    }
}

impl PrintingThread {
    // Prints texts as they come, until all printers have ended or a write has failed. After a failed write it takes no more texts, and
    // only then reports the failure. So no printer waits, not even for the thread that receives that report.
    pub(crate) fn run<W: Write + Drop, R: Wait>(
        self,
        rt: &R,
        mut out: W,
        hearer: &Sender<Heard, Global>,
    ) -> Printed {
        let PrintingThread { texts, prompt } = self;
        let printed = print_all(rt, &texts, prompt, &mut out);
        drop(texts);
        if printed == Printed::Broken {
            let _ = hearer.send(rt, Heard::PrintingFailed);
        }
        printed
    }
}

// Prints texts as they come, until all printers have ended or a write has failed.
fn print_all<W: Write, R: Wait>(
    rt: &R,
    texts: &Receiver<Text, Global>,
    prompt: Prompt,
    out: &mut W,
) -> Printed {
    for text in texts.iter(rt) {
        let written = match prompt {
            Prompt::Absent => write(out, &text),
            Prompt::Shown => write_prompted(out, &text),
        };
        if written.is_err() {
            return Printed::Broken;
        }
    }
    Printed::Whole
}

// Writes a text in one write, if the system takes it whole.
fn write<W: Write>(out: &mut W, text: &Text) -> io::Result<()> {
    out.write_all(text.as_bytes())?;
    out.flush()
}

// Writes a text over the prompt, and the prompt after it.
fn write_prompted<W: Write>(out: &mut W, text: &Text) -> io::Result<()> {
    out.write_all(b"\r")?;
    out.write_all(text.as_bytes())?;
    if text.is_prompted() {
        out.write_all(PROMPT)?;
    }
    out.flush()
}
