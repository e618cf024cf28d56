//! A link with given answers.

ghost use Rattle.std.specs.Prelude.{◌≡◌, ◌≤◌, [], Some, None, length, map, IfOk};

use arrayvec::ArrayVec;
use iol_link::{DeviceLink, ISDU_OCTETS, Lost, PAGE_OCTETS};
use std::alloc::{AllocError, Global};
use std::marker::Model;

/// A link that answers exchanges with given octets, in order; after the last of them, every exchange
/// is `Lost`. A request of more than 238 octets, which is no ISDU, is `Lost` too. It may be given a
/// page, which can be read until the device is lost, and events, which are reported in order until
/// the device is lost. Without a page, reading it is `Lost`.
#[derive(Drop)]
pub struct ScriptLink {
    answers: Vec<ArrayVec<u8, ISDU_OCTETS>>,
    requests: Vec<ArrayVec<u8, ISDU_OCTETS>>,
    page: Option<[u8; PAGE_OCTETS]>,
    events: Vec<u16>,
    connection: u64,
}

impl Model for ScriptLink {
    ghost use Rattle.std.specs.Prelude.{◌≤◌, map, drop, vec_len, vec_capacity};
    ghost use Rattle.iol_sim.specs.Script.{Script};

    ghost Value = { Script };

    ghost view = { λ s. record {
      left = map (λ octets. octets.items) (drop (vec_len s.requests) s.answers.items);
      requests = map (λ octets. octets.items) s.requests.items;
      page = s.page;
      events = s.events.items;
      connection = s.connection;
    } };

    ghost invariant = { λ s. (vec_len s.requests ≤ vec_len s.answers)
        × (vec_len s.answers ≤ vec_capacity s.requests) };
}

impl ScriptLink {
    ghost use Rattle.iol_sim.specs.Script.{lost};

    /// Creates a link with these answers, no page and no events, on connection 0. Memory for the
    /// requests that it will answer is allocated here.
    ///
    /// # Errors
    /// `AllocError` if it is out of memory.
    pub fn new(alloc: Global, answers: Vec<ArrayVec<u8, ISDU_OCTETS>>) -> Result<Self, AllocError>
        ensures { let left = map (λ octets. octets.items) answers.items in
            IfOk result (λ link. link ≡ record {
              left = left;
              requests = [];
              page = None;
              events = [];
              connection = 0;
            }) }
    {
        let requests = Vec::with_capacity(alloc, answers.len())?;
        Ok(ScriptLink {
            answers,
            requests,
            page: None,
            events: Vec::new(alloc),
            connection: 0,
        })
    }

    /// Returns the link with this page, which can be read until the device is lost.
    pub fn with_page(self, page: [u8; PAGE_OCTETS]) -> Self
        ensures { result ≡ record self { page = Some page } }
    {
        let mut link = self;
        link.page = Some(page);
        link
    }

    /// Returns the link with these events, which are reported in order until the device is lost.
    pub fn with_events(self, events: Vec<u16>) -> Self
        ensures { result ≡ record self { events = events.items } }
    {
        let mut link = self;
        link.events = events;
        link
    }

    /// The requests that were answered, in their order.
    pub fn requests(&self) -> &[ArrayVec<u8, ISDU_OCTETS>]
        ensures { map (λ octets. octets.items) result.now ≡ self.now.requests }
    {
        self.requests.as_slice()
    }

    fn lose(&mut self) -> Lost
        ensures { self.new ≡ lost self.old }
    {
        self.page = None;
        self.events.clear();
        self.connection = self.connection.saturating_add(1);
        Lost
    }
}

impl DeviceLink for ScriptLink {
    ghost use Rattle.iol_sim.specs.Script.{ScriptStep};

    ghost number = { λ script. script.connection };

    ghost device = { λ script. script.connection };

    ghost steps = { ScriptStep };

    fn connection(&self) -> u64 {
        self.connection
    }

    fn take_event(&mut self) -> Option<u16> {
        if self.connection == u64::MAX || self.events.is_empty() {
            return None;
        }
        Some(self.events.remove(0))
    }

    fn read_page(&mut self) -> Result<[u8; PAGE_OCTETS], Lost> {
        match self.page {
            Some(page) if self.connection < u64::MAX => Ok(page),
            _ => Err(self.lose()),
        }
    }

    fn exchange(&mut self, request: &[u8]) -> Result<ArrayVec<u8, ISDU_OCTETS>, Lost> {
        match self.answers.get(self.requests.len()) {
            Some(answer) if request.len() <= ISDU_OCTETS && self.connection < u64::MAX => {
                let answer = copied(answer.as_slice());
                self.requests.push_reserved(copied(request));
                Ok(answer)
            }
            _ => Err(self.lose()),
        }
    }
}

fn copied(octets: &[u8]) -> ArrayVec<u8, ISDU_OCTETS>
    requires { length octets.now ≤ ISDU_OCTETS }
    ensures { result.items ≡ octets.now }
{
    let mut same = ArrayVec::new();
    same.try_extend_from_slice(octets).unwrap();
    same
}
