//! Adds the members of an object, one after another.
ghost use Rattle.std.specs.Prelude.{◌≡◌, IfOk};
ghost use Rattle.serde_json.specs.Data.{put as with_member};
ghost use Rattle.serde_json.specs.View.{view, members_view};

use serde_json::{Map, Value, put};
use std::alloc::{AllocError, Global};

/// Adds a member with this name to the members. It replaces one with the same name.
pub fn with(
    alloc: Global,
    members: Map<String, Value>,
    name: &str,
    value: Value,
) -> Result<Map<String, Value>, AllocError>
    ensures { IfOk result (λ with. members_view with.entries ≡ with_member name.now (view value) (members_view members.entries)) }
{
    let mut members = members;
    put(&mut members, alloc, name, value)?;
    Ok(members)
}
