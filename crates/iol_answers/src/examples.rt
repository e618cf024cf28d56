//! An example of each kind of line, computed by the prover: if a text is wrong in a definition and in the code alike, its example
//! fails.
ghost use Rattle.std.specs.Prelude.{◌≡◌, ℕ, [], ◌∷◌, ◌++◌, map, codes, Some, None};
ghost use Rattle.serde_json.specs.Written.{compact_text};
ghost use Rattle.iol_types.specs.Examples.{example_config, port_of, renewed_port};
ghost use Rattle.iol_types.specs.declared.command.CommandFault.TheVariants as command;
ghost use Rattle.iol_core.specs.declared.ticket.SubmitFault.TheVariants as submit;
ghost use Rattle.iol_link.specs.declared.validation.IdentFault.TheVariants as ident;
ghost use Rattle.iol_transfer.specs.declared.fault.TransferFault.TheVariants as transfer;
ghost use Rattle.iol_port.specs.declared.fault.PortFault.TheVariants as port;
ghost use Rattle.iol_port.specs.declared.status.PortStatus.TheVariants as status;
ghost use Rattle.iol_answers.specs.AnswerLines.{answer_lines};
ghost use Rattle.iol_answers.specs.EventLines.{event_line};
ghost use Rattle.iol_answers.specs.Objects.{answer_data, event_data};
ghost use Rattle.iol_answers.specs.Refusals.{name_of, words_of};
ghost use Rattle.iol_answers.specs.declared.answer.RequestAnswer.TheVariants as answer;
ghost use Rattle.iol_answers.specs.declared.event.Event.TheVariants as event;
ghost use Rattle.iol_answers.specs.declared.refusal.Refusal.TheVariants as refusal;
ghost use Rattle.iol_answers.specs.declared.request_id.RequestId.TheVariants as id;

use crate::report::PortReport;
use iol_types::PortState;

/// A receipt, for a request without an id and for one whose id is a number.
pub fn receipts()
    ensures words { answer_lines (answer.Receipt 7) ≡ codes "receipt 7\n" }
    ensures last { answer_lines (answer.Receipt 4611686018427387904) ≡ codes "receipt 4611686018427387904\n" }
    ensures no_id { compact_text (answer_data None (answer.Receipt 7)) ≡ codes "{\"receipt\":7}" }
    ensures number { compact_text (answer_data (Some (id.Number 3)) (answer.Receipt 7)) ≡ codes "{\"id\":3,\"receipt\":7}" }
{}

/// An id that is a text, in which a quotation mark is written as two octets.
pub fn texts_as_ids(text: &str)
    ensures { text.now ≡ codes "pump \"3\"" → compact_text (answer_data (Some (id.Text text.entry)) (answer.Receipt 7))
        ≡ codes "{\"id\":\"pump \\\"3\\\"\",\"receipt\":7}" }
{}

/// Refusals by the core.
pub fn refusals()
    ensures words { answer_lines (answer.Refused (refusal.Submit submit.QueueFull))
        ≡ codes "refused QueueFull # 64 commands wait for the disk: ask again once some are acknowledged\n" }
    ensures json { compact_text (answer_data (Some (id.Number 3)) (answer.Refused (refusal.Submit submit.QueueFull)))
        ≡ codes "{\"id\":3,\"refused\":\"QueueFull\","
        ++ codes "\"words\":\"64 commands wait for the disk: ask again once some are acknowledged\"}" }
    ensures of_a_command { answer_lines (answer.Refused (refusal.Submit (submit.Command command.NoPrevious)))
        ≡ codes "refused NoPrevious # the port has no previous set: nothing is exchanged\n" }
    ensures stopped { answer_lines (answer.Refused (refusal.Submit submit.Stopped))
        ≡ codes "refused Stopped # a disk call has failed, and nothing more is taken: replace the disk, and start the master anew\n" }
{}

/// Refusals that are not by the core.
pub fn other_refusals()
    ensures names { map name_of (refusal.Memory ∷ refusal.Unsure ∷ refusal.Unwritten ∷ refusal.UnknownPort ∷ refusal.Behind ∷ [])
        ≡ codes "Memory" ∷ codes "Unsure" ∷ codes "Unwritten" ∷ codes "UnknownPort" ∷ codes "Behind" ∷ [] }
    ensures words { map words_of (refusal.Memory ∷ refusal.Unsure ∷ refusal.Unwritten ∷ refusal.UnknownPort ∷ refusal.Behind ∷ [])
        ≡ codes "out of memory, nothing was asked for: ask again"
        ∷ codes "the disk failed before it was known to be durable: after a recovery it may be there or not"
        ∷ codes "out of memory to write it: it is written once memory is there, if that is before the master ends"
        ∷ codes "the master has no port of this number: name one that it has"
        ∷ codes "what is durable is not yet read as far as this client has seen: ask again" ∷ [] }
    ensures line { answer_lines (answer.Refused refusal.Memory)
        ≡ codes "refused Memory # out of memory, nothing was asked for: ask again\n" }
{}

/// Ports that were read: one with a set and a previous one, and one without.
pub fn ports(state: &PortState)
    ensures words { state.now ≡ renewed_port → answer_lines (answer.Port 3 state.entry)
        ≡ codes "port 3 revision 1 mode 1 validation 3 vendor 01F4 device 00ABCD set "
        ++ codes "2 entries 11 octets checksum 00000252 under 1 3 01F4 00ABCD\nentry 0040.00 0A64\nentry 0041.01 80\n"
        ++ codes "previous 2 entries 11 octets checksum 0000024F under 1 3 01F4 00ABCD\nentry 0040.00 0A64\nentry 0041.01 7F\n" }
    ensures json { state.now ≡ port_of example_config 7 → compact_text (answer_data (Some (id.Number 3)) (answer.Port 2 state.entry))
        ≡ codes "{\"id\":3,\"port\":{\"configuration\":{\"device\":43981,\"label\":\"\",\"mode\":1,\"validation\":3,\"vendor\":500},"
        ++ codes "\"port\":2,\"previous\":null,\"revision\":7,\"set\":null}}" }
{}

/// The statuses of two ports.
pub fn statuses(reports: &[PortReport])
    ensures words { reports.now ≡ record { port = 3; status = status.Mismatch ident.Device } ∷ record { port = 32; status = status.Lost }
        ∷ [] → answer_lines (answer.Statuses reports.entry)
        ≡ codes "port 3 mismatch device # another DeviceID than is configured: connect the configured device, or configure this one\n"
        ++ codes "port 32 lost # no device answers: check the cable, and connect a device\n" }
    ensures json { reports.now ≡ record { port = 3; status = status.Mismatch ident.Device } ∷ record { port = 32; status = status.Lost }
        ∷ [] → compact_text (answer_data (Some (id.Number 3)) (answer.Statuses reports.entry))
        ≡ codes "{\"id\":3,\"statuses\":[{\"port\":3,\"status\":\"mismatch device\","
        ++ codes "\"words\":\"another DeviceID than is configured: connect the configured device, or configure this one\"},"
        ++ codes "{\"port\":32,\"status\":\"lost\",\"words\":\"no device answers: check the cable, and connect a device\"}]}" }
    ensures no_port { reports.now ≡ [] → compact_text (answer_data None (answer.Statuses reports.entry)) ≡ codes "{\"statuses\":[]}" }
{}

/// A line that is no request. In JSON a line feed within the text is written as two octets.
pub fn wrong_lines(mistake: &str)
    ensures words { mistake.now ≡ codes "missing: device" → answer_lines (answer.Wrong mistake.entry) ≡ codes "wrong: missing: device\n" }
    ensures json { mistake.now ≡ codes "missing: device" → compact_text (answer_data (Some (id.Number 3)) (answer.Wrong mistake.entry))
        ≡ codes "{\"id\":3,\"wrong\":\"missing: device\"}" }
    ensures escaped { mistake.now ≡ codes "not JSON: \n" → compact_text (answer_data None (answer.Wrong mistake.entry))
        ≡ codes "{\"wrong\":\"not JSON: \\n\"}" }
{}

/// The list of all requests.
pub fn help()
    ensures words { answer_lines answer.Help
        ≡ codes "configure port=1..32 mode=0..4 validation=0..4 vendor=0..65535 device=0..16777215 [label=\"TEXT\"] "
        ++ codes "# configures the port\n"
        ++ codes "clear port=1..32 # deletes the parameter set of the port, and the previous one\n"
        ++ codes "rollback port=1..32 # exchanges the parameter set of the port and the previous one\n"
        ++ codes "read port=1..32 # shows the configuration of the port and its parameter sets, as they are durable\n"
        ++ codes "status [port=1..32] # shows the status of each port, or of one\n"
        ++ codes "help # shows these lines\nquit # ends the master, once what waits is written\n" }
    ensures json { compact_text (answer_data (Some (id.Number 3)) answer.Help)
        ≡ codes "{\"help\":[\"configure port=1..32 mode=0..4 validation=0..4 vendor=0..65535 device=0..16777215 [label=\\\"TEXT\\\"] "
        ++ codes "# configures the port\","
        ++ codes "\"clear port=1..32 # deletes the parameter set of the port, and the previous one\","
        ++ codes "\"rollback port=1..32 # exchanges the parameter set of the port and the previous one\","
        ++ codes "\"read port=1..32 # shows the configuration of the port and its parameter sets, as they are durable\","
        ++ codes "\"status [port=1..32] # shows the status of each port, or of one\","
        ++ codes "\"help # shows these lines\",\"quit # ends the master, once what waits is written\"],\"id\":3}" }
{}

/// The event that a master serves: one port or several, no command, one or several.
pub fn serving()
    ensures words { map event_line (event.Serving 8 12 ∷ event.Serving 1 1 ∷ event.Serving 32 0 ∷ [])
        ≡ codes "serving 8 ports after 12 commands\n" ∷ codes "serving 1 port after 1 command\n"
        ∷ codes "serving 32 ports after 0 commands\n" ∷ [] }
    ensures json { compact_text (event_data (event.Serving 8 12)) ≡ codes "{\"commands\":12,\"event\":\"serving\",\"ports\":8}" }
{}

/// The event that the status of a port has changed.
pub fn changed_statuses()
    ensures words { map event_line (event.Status 1 status.Ready ∷ event.Status 1 (status.Failed (port.Transfer transfer.Busy)) ∷ [])
        ≡ codes "port 1 ready # the transfer is done: device and stored set are the same\n"
        ∷ codes "port 1 failed Busy # the device was busy sixteen times in a row: wait until it is idle, and connect it again\n" ∷ [] }
    ensures json { compact_text (event_data (event.Status 1 status.Ready))
        ≡ codes "{\"event\":\"status\",\"port\":1,\"status\":\"ready\","
        ++ codes "\"words\":\"the transfer is done: device and stored set are the same\"}" }
{}

/// The events that more commands are durable, and that the master has ended.
pub fn numbers()
    ensures words { map event_line (event.Durable 8 ∷ event.Ended 9 ∷ []) ≡ codes "durable 8\n" ∷ codes "ended 9\n" ∷ [] }
    ensures durable { compact_text (event_data (event.Durable 8)) ≡ codes "{\"event\":\"durable\",\"number\":8}" }
    ensures ended { compact_text (event_data (event.Ended 9)) ≡ codes "{\"event\":\"ended\",\"number\":9}" }
{}
