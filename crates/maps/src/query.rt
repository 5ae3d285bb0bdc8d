//! Forms of a key by which a map is searched.
ghost use Rattle.std.specs.Prelude.{◌≡◌};
ghost use Rattle.std.specs.Cmp.Lexicographic.{nat_list_cmp_total, slice_cmp};
ghost use Rattle.std.specs.declared.cmp.Ordering.{Ordering};
ghost use Rattle.std.specs.Ordering.{nat_cmp};
ghost use Rattle.std.specs.String.{string_bytes};
ghost use Rattle.maps.specs.Queries.{IsForm, key_form, part_form};

use handles::arc::Arc;
use std::cmp::Ordering;

/// A form in which a caller has a key before it is a `K`: a `&K`, or a `&str` for an `Arc<String>`, as in
/// `map.get("elm")`.
///
/// Implement `Query` for a type of your own to search by a part of the keys. A query is compared in place of a key, so
/// it must compare with the keys as some key would, and `is_form` is the proof of that. The `Query` of `interner` is
/// another trait: a value there is found by a hash and `==`, and here by an order.
pub trait Query<K: Ord>: Copy {
    // How the query compares with each key.
    ghost order: { Self → K → Ordering };

    /// Compares the query with `key`.
    fn order(&self, key: &K) -> Ordering
        ensures { result ≡ order self.now key.now };

    // The query compares with the keys as a key could.
    ghost is_form: { (query : Self) → IsForm K.cmp (order query) };
}

impl<K: Ord> Query<K> for &K {
    ghost order = { λ query. K.cmp query.now };

    ghost is_form = { λ query. key_form K.total query.now };

    #[inline]
    fn order(&self, key: &K) -> Ordering {
        (*self).cmp(key)
    }
}

impl Query<Arc<String>> for &str {
    ghost order = { λ query key. slice_cmp nat_cmp query.now (string_bytes key) };

    ghost is_form = { λ query. part_form string_bytes (slice_cmp nat_cmp) nat_list_cmp_total query.now };

    #[inline]
    fn order(&self, key: &Arc<String>) -> Ordering {
        compared(*self, key.as_str())
    }
}

// Has one lifetime for both texts: `cmp` is proved only for two texts of one lifetime.
#[inline]
fn compared<'a>(text: &'a str, other: &'a str) -> Ordering
    ensures { result ≡ slice_cmp nat_cmp text.now other.now }
{
    text.cmp(&other)
}
