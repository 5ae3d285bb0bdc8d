//! The entries that are nearest to a key.
ghost use Rattle.std.specs.Prelude.{◌≡◌, ◌-◌, IfSome, slice_get, take};
ghost use Rattle.std.specs.List.{IsAmong};
ghost use Rattle.std.specs.Map.{values_of};
ghost use Rattle.std.specs.Option.{option_copied};
ghost use Rattle.maps.specs.Bounds.{rank_with_by};
ghost use Rattle.maps.specs.Maps.{rank_by};

use crate::entries::Entries;
use crate::query::Query;

impl<K: Ord, V> Entries<K, V> {
    /// Returns the entry with the least key at or above `key`, or `None`: `map.get_next(&key)`. O(log n).
    pub fn get_next<Q: Query<K>>(&self, key: Q) -> Option<&(K, V)>
        ensures entry { option_copied result ≡ slice_get self.now (rank_by (Q.order key) self.now) }
        ensures member { IfSome result (λ e. IsAmong (values_of self.now) e.now.1) }
    {
        self.nth(self.rank(key))
    }

    /// Returns the entry with the greatest key at or below `key`, or `None`: `map.get_prev(&key)`. O(log n).
    #[tactic(auto, using(crate::proofs::Ranges::get_front))]
    pub fn get_prev<Q: Query<K>>(&self, key: Q) -> Option<&(K, V)>
        ensures entry { let count = rank_with_by (Q.order key) self.now in
            option_copied result ≡ slice_get (take count self.now) (count - 1) }
        ensures member { IfSome result (λ e. IsAmong (values_of self.now) e.now.1) }
    {
        self.nth(self.rank_with(key).checked_sub(1)?)
    }
}
