//! A caller that reads a map after a call whose contract states the whole map. It names the lemmas for what it reads.
ghost use Rattle.std.specs.Prelude.{◌≡◌, Some, IfOk, OnOk};
ghost use Rattle.std.specs.Ordering.{nat_cmp};
ghost use Rattle.maps.specs.Maps.{with_entry};

use maps::TreeMap;
use std::alloc::{AllocError, Global};

/// Sets the value under a key.
pub fn set(
    map: &mut TreeMap<u64, u64>,
    alloc: Global,
    key: u64,
    value: u64,
) -> Result<(), AllocError>
    ensures { OnOk result (map.new ≡ with_entry nat_cmp key value map.old) }
{
    map.insert(alloc, key, value)?;
    Ok(())
}

/// Sets the value under a key, and returns what is read after that.
#[tactic(auto, using(maps::proofs::Inserted::numbers))]
pub fn set_and_read(
    map: &mut TreeMap<u64, u64>,
    alloc: Global,
    key: u64,
    value: u64,
) -> Result<Option<u64>, AllocError>
    ensures { IfOk result (λ read. read ≡ Some value) }
{
    set(map, alloc, key, value)?;
    Ok(map.get(&key).copied())
}
