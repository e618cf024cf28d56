//! Checks the published commands of a master once its threads have ended.

ghost use Rattle.std.specs.Prelude.{◌≡◌, ◌≤◌, ◌+◌, ◌-◌, length, take, IsTrue};
ghost use Rattle.iol_headline.specs.Lists.{IsLawfulList};
ghost use Rattle.iol_journal.specs.Journals.{JournalView};
ghost use Rattle.iol_master.specs.Endings.{IsEnding};
ghost use Rattle.iol_master.specs.Settled.{IsSettled};

use crate::client::Shared;
use crate::ending::Ending;
use iol_disk::SectorDisk;
use iol_front::{Name, Pass, Publisher};
use std::sync::Wait;

// Returns the ending of a master. A closed one becomes `Unwritten` unless all that its flusher has published is acknowledged.
pub(crate) fn settle<D: SectorDisk, F: Name, R: Wait>(
    rt: &R,
    shared: &Shared<F>,
    mut pass: Pass<F>,
    ending: Ending<D, F>,
) -> Ending<D, F>
    ensures ending { (first : JournalView D) → IsEnding D.disk F.front.start first ending → IsEnding D.disk F.front.start first result }
    ensures settled { IsSettled F.front.start result }
{
    match ending {
        Ending::Closed(journal, mut publisher) => {
            if is_acknowledged(rt, shared, &mut pass, &mut publisher) {
                Ending::Closed(journal, publisher)
            } else {
                Ending::Unwritten(journal, publisher)
            }
        }
        other => other,
    }
}

// Returns whether all that is published is acknowledged. If so, a lawful trace has accepted it.
fn is_acknowledged<F: Name, R: Wait>(
    rt: &R,
    shared: &Shared<F>,
    pass: &mut Pass<F>,
    publisher: &mut Publisher<F>,
) -> bool
    ensures same { publisher.new ≡ publisher.old }
    ensures lawful { IsTrue result → IsLawfulList F.front.start (F.front.start.number + length publisher.new) publisher.new }
{
    let number = acknowledged(rt, shared, pass);
    publisher.covers(pass);
    number == publisher.number()
}

// Returns the number of the last durable command. The pass has then seen all of them.
fn acknowledged<F: Name, R: Wait>(rt: &R, shared: &Shared<F>, pass: &mut Pass<F>) -> u64
    ensures lawful { IsLawfulList F.front.start result (take (result - F.front.start.number) pass.new) }
    ensures number { result ≤ F.front.start.number + length pass.new }
{
    shared.guarded.lock(rt).meet(pass)
}
