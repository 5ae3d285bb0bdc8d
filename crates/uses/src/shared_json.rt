//! A JSON value whose versions (snapshots) share: a clone takes O(1), and an edit copies only nodes on its path. Its
//! meaning is that of `serde_json`, whose names its contracts use.
ghost use Rattle.std.specs.Prelude.{◌≡◌};

pub mod ending;
pub mod path;
pub mod plain;
pub mod text;

use maps::TreeMap;
use sequence::Sequence;
use serde_json::Number;
use servo_arc::Arc;
use std::alloc::AllocError;

/// A JSON value, which shares its lists, objects and texts with its clones.
#[derive(Drop, Debug, PartialEq)]
pub enum Value {
    Null,
    Bool(bool),
    Number(Number),
    Text(Arc<String>),
    List(Sequence<Value>),
    Map(TreeMap<Arc<String>, Value>),
}

/// Makes a version (snapshot) in O(1). It is written by hand, because the calls of lists and maps require a contract
/// which says that a clone equals the original.
impl Clone for Value {
    ghost is_clone = { λ a b. b ≡ a };

    fn clone(&self) -> Result<Value, AllocError> {
        match self {
            Value::Null => Ok(Value::Null),
            Value::Bool(is) => Ok(Value::Bool(*is)),
            Value::Number(number) => Ok(Value::Number(*number)),
            Value::Text(text) => Ok(Value::Text(text.clone()?)),
            Value::List(items) => Ok(Value::List(items.clone()?)),
            Value::Map(members) => Ok(Value::Map(members.clone()?)),
        }
    }
}
