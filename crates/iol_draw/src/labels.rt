//! The labels of a script's ports.

use iol_script::Step;
use iol_types::{Change, Label, PORTS, PortId};

// The number of port numbers, including 0, which no port has.
pub(crate) const NUMBERS: usize = PORTS as usize + 1;

// The labels of a script's ports, by their numbers.
#[derive(Clone, Copy)]
pub(crate) struct Labels {
    labels: [Label; NUMBERS],
}

impl Labels {
    // Takes the label of each port from its last configuration among these steps; it is empty if there is none.
    pub(crate) fn of(steps: &[Step]) -> Labels {
        let mut labels = [Label::empty(); NUMBERS];
        for step in steps {
            if let Step::Ask(Change::Configure { port, config }) = step {
                labels[usize::from(port.number())] = config.label;
            }
        }
        Labels { labels }
    }

    // Returns the label of a port.
    pub(crate) fn of_port(&self, port: PortId) -> Label {
        self.labels[usize::from(port.number())]
    }

    // Returns the number of letters of the longest label, 0 to 32.
    pub(crate) fn longest(&self) -> usize {
        let mut longest = 0;
        for label in &self.labels {
            longest = label.len().max(longest);
        }
        longest
    }
}
