//! Queries, by which an interner finds a value.
ghost use Rattle.std.specs.Prelude.{◌≡◌, Bool, IfOk, IsTrue, List};
ghost use Rattle.std.proofs.Common.{ap};
ghost use Rattle.std.specs.Cmp.Lexicographic.{bytes_decides, lists_equiv, nat_list_eq_equiv, pointwise};
ghost use Rattle.std.specs.Hash as fed;
ghost use Rattle.std.specs.Hash.{items_Alike};
ghost use Rattle.std.specs.Str.{bytes_eq};
ghost use Rattle.std.specs.String.{string_bytes};
ghost use Rattle.interner.specs.Queries.{IsFormOf};

use handles::arc::Arc;
use std::alloc::{AllocError, Global};
use std::hash::Hash;

/// A borrowed form of a value, by which the value is found: a `&T`, a `&str` for a `String`, a `&[T]` for a `Vec<T>`,
/// a `(&H, &[T])` for a `HeaderSlice<H, T>`, as `interner.find("text")`.
///
/// Implement it for a type of your own to find values by their borrowed parts. The query is hashed and compared in
/// place of the value, so it must do both as the value does: `is_form` requires the proof. The `Query` of the crate
/// `maps` is another trait, by which a key is found in an order, without a hash.
pub trait Query<T: Eq + Hash>: Copy + Hash {
    // The values for which the query stands.
    ghost stands_for: { Self → T → Bool };

    /// Returns `true` if the query stands for the value: `query.stands_for(&value)`.
    fn stands_for(&self, value: &T) -> bool
        ensures { result ≡ stands_for self.now value.now };

    // The query is a form of each value for which it stands, so all these values are equal by `==`.
    ghost is_form: { (query : Self) (value : T) → IsTrue (stands_for query value)
        → IsFormOf T.eq (stands_for query) (Self.hash_input query) (T.hash_input value) value };
}

/// A query that can make a value for which it stands: `interner.intern_by(alloc, "text")?`. A field that only `make`
/// reads need not be hashed or compared.
pub trait Make<T: Eq + Hash>: Query<T> {
    // The value that the query makes where these are the values.
    ghost makes: { Self → List T → T → Type 0 };

    /// Makes the block of a value for which the query stands, when the interner has none:
    /// `query.make(alloc, values)?`. The interner keeps that block.
    fn make(self, alloc: Global, values: &[Arc<T>]) -> Result<Arc<T>, AllocError>
        ensures stands { IfOk result (λ value. IsTrue (Self.stands_for self value)) }
        ensures made { IfOk result (makes self values.now) };
}

impl<T: Eq + Hash> Query<T> for &T {
    ghost stands_for = { λ query. T.eq query.now };

    ghost is_form = { λ query value same. record {
      hashed = T.respects_eq query.now value same;
      equal = λ other. T.Eq.laws.congr query.now value other same;
    } };

    #[inline]
    fn stands_for(&self, value: &T) -> bool {
        **self == *value
    }
}

impl Query<String> for &str {
    ghost stands_for = { λ query value. bytes_eq query.now (string_bytes value) };

    ghost is_form = { λ query value same. record {
      hashed = ap fed.str ((bytes_decides query.now (string_bytes value)).0 same);
      equal = λ other. nat_list_eq_equiv.congr query.now (string_bytes value) (string_bytes other) same;
    } };

    fn stands_for(&self, value: &String) -> bool {
        *self == value.as_str()
    }
}

impl Make<String> for &str {
    ghost makes = { λ query _ value. string_bytes value ≡ query.now };

    fn make(self, alloc: Global, _values: &[Arc<String>]) -> Result<Arc<String>, AllocError> {
        Ok(Arc::try_new(alloc, String::from_str(alloc, self)?)?)
    }
}

impl<T: Eq + Hash> Query<Vec<T>> for &[T] {
    ghost stands_for = { λ query value. pointwise T.eq query.now value.items };

    ghost is_form = { λ query value same. record {
      hashed = (items_Alike (record { fed = T.respects_eq })).fed query.now value.items same;
      equal = λ other. (lists_equiv T.Eq.laws).congr query.now value.items other.items same;
    } };

    fn stands_for(&self, value: &Vec<T>) -> bool {
        *self == value.as_slice()
    }
}

impl<T: Eq + Hash + Copy> Make<Vec<T>> for &[T] {
    ghost makes = { λ query _ value. value.items ≡ query.now };

    fn make(self, alloc: Global, _values: &[Arc<Vec<T>>]) -> Result<Arc<Vec<T>>, AllocError> {
        Ok(Arc::try_new(alloc, Vec::from_slice(alloc, self)?)?)
    }
}
