//! Texts, numbers, lists and objects of JSON.
ghost use Rattle.std.specs.Prelude.{◌≡◌, map, IfOk};
ghost use Rattle.serde_json.specs.Data.{object};
ghost use Rattle.serde_json.specs.View.{view, members_view};
ghost use Rattle.list_json.specs.JsonValues.{text_data, number_data, list_data, named};

use serde_json::{Map, Value, put};
use set_model::Memory;
use std::alloc::Global;

/// The members of an object, in the order of their keys.
pub(crate) type Members = Map<String, Value>;

/// Bytes as a string. U+FFFD takes the place of bytes that are no UTF-8.
pub(crate) fn text_json(alloc: Global, bytes: &[u8]) -> Result<Value, Memory>
    ensures { IfOk result (λ v. view v ≡ text_data bytes.now) }
{
    Ok(Value::String(String::from_utf8_lossy(alloc, bytes)?))
}

/// A number.
pub(crate) fn number_json(n: u64) -> Value
    ensures { view result ≡ number_data n }
{
    Value::from(n)
}

/// Values as a list.
pub(crate) fn list_json(values: Vec<Value>) -> Value
    ensures { view result ≡ list_data (map view values.items) }
{
    Value::Array(values)
}

/// Members as an object.
pub(crate) fn object_json(members: Members) -> Value
    ensures { view result ≡ object (members_view members.entries) }
{
    Value::Object(members)
}

/// An object whose one member has this key.
pub(crate) fn named_json(alloc: Global, key: &str, value: Value) -> Result<Value, Memory>
    ensures { IfOk result (λ v. view v ≡ named key.now (view value)) }
{
    let mut members = Members::new(alloc);
    put(&mut members, alloc, key, value)?;
    Ok(object_json(members))
}
