//! The separator keys in the branches of a map.
ghost use Rattle.maps.specs.Nodes.{key_of};

use sequence::{Label, NewLabel};
use std::alloc::AllocError;

/// The separator key that a branch keeps of the first entry under each child. It is a parameter of `Tree` and `Iter`:
/// `sequence::Iter<'a, (K, V), Key<K>>`.
#[derive(Clone, Drop)]
pub struct Key<K> {
    pub(crate) key: K,
}

impl<K, V> Label<(K, V)> for Key<K> {
    ghost label_of = { key_of };
}

impl<K: Clone, V> NewLabel<(K, V)> for Key<K> {
    fn new(entry: &(K, V)) -> Result<Key<K>, AllocError> {
        Ok(Key {
            key: entry.0.clone()?,
        })
    }
}
