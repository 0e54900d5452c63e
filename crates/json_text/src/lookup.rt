//! Members of JSON objects by their names.
ghost use Rattle.std.specs.Prelude.{◌≡◌};
ghost use Rattle.serde_json.specs.View.{view};
ghost use Rattle.json_text.specs.Members.{member_of, inner_of, seen};

use serde_json::Value;

/// The member of that name. One that is null counts as absent, and a value that is no object has none.
pub fn member<'v>(value: &'v Value, name: &str) -> Option<&'v Value>
    ensures { seen result ≡ member_of name.now (view value.now) }
{
    match value.get(name) {
        Some(Value::Null) => None,
        found => found,
    }
}

/// The member of that name of a value that may be absent.
pub fn inner<'v>(found: Option<&'v Value>, name: &str) -> Option<&'v Value>
    ensures { seen result ≡ inner_of name.now (seen found.entry) }
{
    member(found?, name)
}
