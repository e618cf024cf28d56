//! Requests, and how they are read from tables.
ghost use Rattle.std.specs.Prelude.{◌≡◌};
ghost use Rattle.toml.specs.View.{table_view};
ghost use Rattle.iol_requests.specs.declared.request.Request.{Request};
ghost use Rattle.iol_requests.specs.Request.{alone_in, read_in, request_by, request_in, status_in, verb_at};

use crate::verb::Verb;
use iol_script::{change_in, has_only_keys, port_in, text_at, value_at};
use iol_types::{Change, PortId};
use toml::Table;

/// A request to a master.
#[derive(Clone, Copy, Debug, PartialEq, Eq)]
pub enum Request {
    /// Changes a port.
    Ask(Change),
    /// Reads what a port keeps.
    Read(PortId),
    /// Asks for the status of this port, or of each port.
    Status(Option<PortId>),
    /// Lists the requests.
    Help,
    /// Ends the master.
    Quit,
}

// Returns the request of a table, by its verb at the key `do`.
pub(crate) fn request_in(table: &Table) -> Option<Request>
    ensures { result ≡ request_in (table_view table.now) }
{
    request_by(verb_at(table)?, table)
}

// Returns the verb of a table.
pub(crate) fn verb_at(table: &Table) -> Option<Verb>
    ensures { result ≡ verb_at (table_view table.now) }
{
    Verb::named(text_at(table, "do")?.as_bytes())
}

fn request_by(verb: Verb, table: &Table) -> Option<Request>
    ensures { result ≡ request_by verb (table_view table.now) }
{
    match verb {
        Verb::Configure | Verb::Clear | Verb::Rollback => Some(Request::Ask(change_in(table)?)),
        Verb::Read => read_in(table),
        Verb::Status => status_in(table),
        Verb::Help => alone_in(Request::Help, table),
        Verb::Quit => alone_in(Request::Quit, table),
    }
}

fn read_in(table: &Table) -> Option<Request>
    ensures { result ≡ read_in (table_view table.now) }
{
    if !has_only_keys(table, &["do", "port"]) {
        return None;
    }
    Some(Request::Read(port_in(table)?))
}

fn status_in(table: &Table) -> Option<Request>
    ensures { result ≡ status_in (table_view table.now) }
{
    if !has_only_keys(table, &["do", "port"]) {
        return None;
    }
    match value_at(table, "port") {
        Some(_) => Some(Request::Status(Some(port_in(table)?))),
        None => Some(Request::Status(None)),
    }
}

fn alone_in(request: Request, table: &Table) -> Option<Request>
    ensures { result ≡ alone_in request (table_view table.now) }
{
    if has_only_keys(table, &["do"]) {
        Some(request)
    } else {
        None
    }
}
