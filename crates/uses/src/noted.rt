//! A list and a vector that change together, with one error type for both.
ghost use Rattle.std.specs.Prelude.{◌≡◌, ◌≤◌, ◌↔◌, ◌∷◌, ◌++◌, [], Err, OnErr, OnOk, length, slice_set};

use cow_table::{CowTable, PlaceError};
use std::alloc::Global;

/// Sets an item, and notes its place. A refused `push` becomes the error by `?`, and the clause knows which. After an
/// error nothing is noted, but the item may be set.
pub fn set_and_note(
    list: &mut CowTable<u32>,
    places: &mut Vec<usize>,
    alloc: Global,
    i: usize,
    value: u32,
) -> Result<(), PlaceError>
    ensures set { OnOk result (list.new ≡ slice_set list.old i value) }
    ensures noted { OnOk result (places.new.items ≡ places.old.items ++ i ∷ []) }
    ensures not_noted { OnErr result (places.new.items ≡ places.old.items) }
    ensures no_place { (result ≡ Err PlaceError.NoPlace) ↔ (length list.old ≤ i) }
{
    list.set(alloc, i, value)?;
    places.push(i)?;
    Ok(())
}
