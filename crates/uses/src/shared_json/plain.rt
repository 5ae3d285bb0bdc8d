//! Conversion from and to the values of `serde_json`.
ghost use Rattle.std.specs.Prelude.{◌≡◌, IfOk};
ghost use Rattle.serde_json.specs.View as plain;
ghost use Rattle.uses.specs.Json.{view};

use super::Value;
use maps::TreeMap;
use sequence::Sequence;
use serde_json::Value as Plain;
use servo_arc::Arc;
use std::alloc::{AllocError, Global};
use std::collections::BTreeMap;

impl Value {
    /// Converts a value of `serde_json`. O(n); texts are moved.
    ///
    /// # Errors
    ///
    /// `AllocError` if there is no memory. The value is then dropped.
    pub fn from_plain(alloc: Global, value: Plain) -> Result<Value, AllocError>
        ensures { IfOk result (λ v. view v ≡ plain.view value) }
    {
        match value {
            Plain::Null => Ok(Value::Null),
            Plain::Bool(is) => Ok(Value::Bool(is)),
            Plain::Number(number) => Ok(Value::Number(number)),
            Plain::String(text) => Ok(Value::Text(Arc::try_new(alloc, text)?)),
            Plain::Array(items) => {
                let mut shared = Vec::with_capacity(alloc, items.len())?;
                for item in items {
                    shared.push(Value::from_plain(alloc, item)?)?;
                }
                Ok(Value::List(Sequence::from_items(alloc, shared)?))
            }
            Plain::Object(members) => {
                let mut shared = Vec::with_capacity(alloc, members.len())?;
                for (name, member) in members {
                    let name = Arc::try_new(alloc, name)?;
                    shared.push((name, Value::from_plain(alloc, member)?))?;
                }
                Ok(Value::Map(TreeMap::from_items(alloc, shared)?))
            }
        }
    }

    /// Converts the value to one of `serde_json`, with a copy of each text. O(n log n).
    ///
    /// # Errors
    ///
    /// `AllocError` if there is no memory.
    #[tactic(auto, using(crate::proofs::JsonSeen::puts_in))]
    pub fn to_plain(&self, alloc: Global) -> Result<Plain, AllocError>
        ensures { IfOk result (λ v. plain.view v ≡ view self.now) }
    {
        match self {
            Value::Null => Ok(Plain::Null),
            Value::Bool(is) => Ok(Plain::Bool(*is)),
            Value::Number(number) => Ok(Plain::Number(*number)),
            Value::Text(text) => Ok(Plain::String(String::from_str(alloc, text.as_str())?)),
            Value::List(items) => {
                let mut copies = Vec::with_capacity(alloc, items.len())?;
                for item in items {
                    copies.push(item.to_plain(alloc)?)?;
                }
                Ok(Plain::Array(copies))
            }
            Value::Map(members) => {
                // For the proof: its clause says that the names ascend.
                let _ = members.nth(0);
                let mut copies = BTreeMap::new(alloc);
                for (name, member) in members {
                    let name = String::from_str(alloc, name.as_str())?;
                    drop(copies.insert(name, member.to_plain(alloc)?)?);
                }
                Ok(Plain::Object(copies))
            }
        }
    }
}
