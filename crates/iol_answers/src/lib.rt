//! The lines that a serving master prints: answers to requests, and events.
//!
//! Takes an answer or an event, and returns its text, in words or as a JSON object on one line. This crate has no thread, no disk
//! and no input: its caller reads the requests, passes them to the master, and prints these lines.
//!
//! Modules in reading order:
//! - `answer`, `refusal`, `report`, `request_id` and `event` have the types of what is printed.
//! - `help` has the list of all requests.
//! - `answer_text`, `event_text` and `report_text` have the lines in words.
//! - `answer_object`, `event_object` and `report_object` have the objects, and `json_line` the line of one.
//! - `examples` has an example of each kind of line.
//!
//! The lines in words are defined in `specs/AnswerLines.antt` and `specs/EventLines.antt`, the objects in
//! `specs/Objects.antt` (docs/FORMATS.md, "Lines of a serving master").
#![tactic(auto)]

mod answer;
mod answer_object;
mod answer_text;
mod event;
mod event_object;
mod event_text;
pub mod examples;
mod help;
mod json_line;
mod refusal;
mod report;
mod report_object;
mod report_text;
mod request_id;

pub use answer::RequestAnswer;
pub use answer_object::answer_json;
pub use answer_text::answer_words;
pub use event::Event;
pub use event_object::event_json;
pub use event_text::event_words;
pub use refusal::Refusal;
pub use report::PortReport;
pub use request_id::RequestId;
