//! `map[&key]`.
ghost use Rattle.std.specs.Prelude.{◌≡◌, Some};
ghost use Rattle.std.specs.List.{IsAmong};
ghost use Rattle.std.specs.Map.{values_of};
ghost use Rattle.std.specs.Option.{IsSome};
ghost use Rattle.maps.specs.Maps.{lookup};

use crate::entries::Entries;
use std::ops::Index;

/// Returns the value under `key`, which has to be in the map: `map[&key]`. O(log n).
impl<K: Ord, V> Index<&K> for Entries<K, V> {
    type Output = V;

    ghost can_index = { λ map key. IsSome (lookup K.cmp key.now map) };

    ghost index_gives = { λ map key value. (lookup K.cmp key.now map ≡ Some value) × IsAmong (values_of map) value };

    fn index(&self, key: &K) -> &V {
        self.get(key).unwrap()
    }
}
