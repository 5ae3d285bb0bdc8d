//! A type that holds itself in lists and maps whose versions share their nodes.
ghost use Rattle.std.specs.Prelude.{◌≡◌, ◌≤◌, ◌^◌, ◌++◌, ◌∷◌, [], IfNone, IfSome, OnErr, OnOk};
ghost use Rattle.std.specs.Ordering.{nat_cmp};
ghost use Rattle.maps.specs.Maps.{with_entry};
ghost use Rattle.uses.specs.Versions.{values_in};

use maps::TreeMap;
use sequence::Sequence;
use std::alloc::{AllocError, Global};

/// A value that may hold values.
#[derive(Drop, Debug, PartialEq, Eq, PartialOrd, Ord, Hash)]
pub enum Value {
    Null,
    Number(u64),
    List(Sequence<Value>),
    Map(TreeMap<u64, Value>),
}

/// Makes a version (snapshot) in O(1). It is written by hand, because the calls of lists and maps require a contract
/// which says that a clone equals the original.
impl Clone for Value {
    ghost is_clone = { λ a b. b ≡ a };

    fn clone(&self) -> Result<Value, AllocError> {
        match self {
            Value::Null => Ok(Value::Null),
            Value::Number(number) => Ok(Value::Number(*number)),
            Value::List(items) => Ok(Value::List(items.clone()?)),
            Value::Map(entries) => Ok(Value::Map(entries.clone()?)),
        }
    }
}

/// Appends an item to the list. Other versions keep theirs.
pub fn append_item(list: &mut Sequence<Value>, alloc: Global, item: Value) -> Result<(), AllocError>
    ensures added { OnOk result (list.new ≡ list.old ++ item ∷ []) }
    ensures refused { OnErr result (list.new ≡ list.old) }
{
    list.push(alloc, item)
}

/// Inserts an item under a key of the map. Other versions keep theirs.
pub fn insert_item(
    map: &mut TreeMap<u64, Value>,
    alloc: Global,
    key: u64,
    item: Value,
) -> Result<(), AllocError>
    ensures inserted { OnOk result (map.new ≡ with_entry nat_cmp key item map.old) }
    ensures refused { OnErr result (map.new ≡ map.old) }
{
    map.insert(alloc, key, item)?;
    Ok(())
}

/// Returns the number of values, with this one and all that it holds, or `None` if a `u64` cannot hold the number.
pub fn count(value: &Value) -> Option<u64>
    ensures counted { IfSome result (λ number. number ≡ values_in value.now) }
    ensures too_many { IfNone result (2 ^ 64 ≤ values_in value.now) }
{
    let mut number = 1u64;
    match value {
        Value::Null | Value::Number(_) => {}
        Value::List(items) => {
            for item in items {
                number = number.checked_add(count(item)?)?;
            }
        }
        Value::Map(entries) => {
            for (_, child) in entries {
                number = number.checked_add(count(child)?)?;
            }
        }
    }
    Some(number)
}
