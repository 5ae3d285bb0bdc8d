//! Whether entries are in ascending order of their keys.
ghost use Rattle.std.specs.Prelude.{IsTrue};
ghost use Rattle.maps.specs.Maps.{IsRising};

// Returns `true` if the keys are strictly ascending.
pub(crate) fn rises<K: Ord, V>(items: &[(K, V)]) -> bool
    ensures { IsTrue result → IsRising K.cmp items.now }
{
    items.is_sorted_by(|entry, next| entry.0.cmp(&next.0).is_lt())
}
