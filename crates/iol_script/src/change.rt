//! The change that one table requests, for readers of single requests.
ghost use Rattle.std.specs.Prelude.{◌≡◌};
ghost use Rattle.toml.specs.View.{table_view};
ghost use Rattle.iol_script.specs.LiveScript.{change_in};

use crate::step::Step;
use crate::steps::change_by;
use iol_types::Change;
use toml::Table;

/// Returns the change that a table requests. The table has the keys of a step `configure`, `clear` or `rollback` of a script,
/// with `do`, and no other. Returns `None` if the table is no such step.
pub fn change_in(table: &Table) -> Option<Change>
    ensures { result ≡ change_in (table_view table.now) }
{
    change_by(Step::in_table(table)?)
}
