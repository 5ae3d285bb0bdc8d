//! Reading and writing the value at the end of a path.
ghost use Rattle.std.specs.Prelude.{◌≡◌, ◌↔◌, Err, IfOk, None, OnErr, OnOk, Some};
ghost use Rattle.std.specs.Option.{option_copied};
ghost use Rattle.uses.specs.JsonPaths.{at, with_at};

use super::Value;
use maps::TreeMap;
use sequence::{PlaceError, Sequence};
use servo_arc::Arc;
use std::alloc::Global;

/// A step down a path.
#[derive(Drop, Debug, PartialEq, Eq)]
pub enum Step {
    /// To the item at that index.
    Item(usize),
    /// To the member with that name.
    Member(Arc<String>),
}

impl Value {
    /// Returns the value at the end of the path, or `None`. O(log n) for each list of n items, and for each object of n
    /// members on the path.
    pub fn at(&self, path: &[Step]) -> Option<&Value>
        ensures { option_copied result ≡ at path.now self.now }
    {
        match (path, self) {
            ([], _) => Some(self),
            ([Step::Item(index), rest @ ..], Value::List(items)) => items.get(*index)?.at(rest),
            ([Step::Member(name), rest @ ..], Value::Map(members)) => members.get(name)?.at(rest),
            _ => None,
        }
    }

    /// Replaces the value at the end of the path: `value.set(alloc, &path, new)?`. The nodes on the path are copied,
    /// O(log n) for each list of n items, and for each object of n members. All else stays shared.
    ///
    /// # Errors
    ///
    /// `NoPlace` if there is none, and `Memory`. The value stays as it was.
    pub fn set(&mut self, alloc: Global, path: &[Step], value: Value) -> Result<(), PlaceError>
        ensures set { OnOk result (Some self.new ≡ with_at path.now value self.old) }
        ensures no_place { (result ≡ Err PlaceError.NoPlace) ↔ (at path.now self.old ≡ None) }
        ensures refused { OnErr result (self.new ≡ self.old) }
    {
        if self.at(path).is_none() {
            return Err(PlaceError::NoPlace);
        }
        *self = self.with(alloc, path, value)?;
        Ok(())
    }

    // Returns a version with `new` in place of the value at the end of the path.
    fn with(&self, alloc: Global, path: &[Step], new: Value) -> Result<Value, PlaceError>
        ensures made { IfOk result (λ made. Some made ≡ with_at path.now new self.now) }
        ensures no_place { result ≡ Err PlaceError.NoPlace → at path.now self.now ≡ None }
    {
        match (path, self) {
            ([], _) => Ok(new),
            ([Step::Item(index), rest @ ..], Value::List(items)) => {
                let old = items.get(*index).ok_or(PlaceError::NoPlace)?;
                let item = old.with(alloc, rest, new)?;
                let mut items: Sequence<Value> = items.clone()?;
                items.set(alloc, *index, item)?;
                Ok(Value::List(items))
            }
            ([Step::Member(name), rest @ ..], Value::Map(members)) => {
                let old = members.get(name).ok_or(PlaceError::NoPlace)?;
                let member = old.with(alloc, rest, new)?;
                let mut members: TreeMap<Arc<String>, Value> = members.clone()?;
                members.insert(alloc, name.clone()?, member)?;
                Ok(Value::Map(members))
            }
            _ => Err(PlaceError::NoPlace),
        }
    }
}
