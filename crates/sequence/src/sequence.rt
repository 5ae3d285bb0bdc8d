//! A list with access by index, whose versions (snapshots) share their nodes. A type may hold itself in it.
//
// The checker rejects a type that holds itself in a `LabelledSequence`, because its nodes are a recursive type. It does
// not look behind a raw pointer. So these structs are laid out as those of a `LabelledSequence`, with raw pointers, and
// own what a `LabelledSequence` in their place owns.
ghost use Rattle.std.specs.Prelude.{◌≡◌, []};
ghost use types.Logic.{sem};

mod compare;
mod parts;

use crate::labelled::LabelledSequence;
use std::alloc::AllocError;
use std::marker::{Move, Owns};
use std::mem;
use std::ops::{Deref, DerefMut};

#[derive(Drop)]
struct Handle<T> {
    block: *const T,
}

#[derive(Drop)]
struct Arc<T> {
    handle: Handle<T>,
}

#[derive(Drop)]
struct Tree<T> {
    root: Arc<T>,
}

/// A list with access by index (a balanced tree). A clone is a version: a snapshot that shares all nodes with the
/// original.
///
/// A change of one version is seen in no other. `clone` takes O(1); `get`, `insert`, `remove`, `split_off` and `append`
/// take O(log n). A type may hold itself in a list: `enum Value { Number(u64), List(Sequence<Value>) }`.
///
/// ```
/// let mut front: Sequence<Arc<String>> = lines.clone()?;
/// let mut all = front.split_off(alloc, number)?;
/// all.append(alloc, front)?;
/// ```
///
/// A `Sequence<T>` dereferences to a [`LabelledSequence<T>`](LabelledSequence), which has most of its calls: all that
/// neither take a list by value nor return one.
///
/// Dropping a list recurses to the depth of the tree, which is at most 65.
pub struct Sequence<T> {
    root: Option<Tree<T>>,
    len: usize,
}

impl<T> Owns for Sequence<T> {
    ghost use Rattle.std.specs.Prelude.{List};
    ghost use Rattle.sequence.specs.Laid.Owned.{list_lent};

    ghost Value = { List T };

    ghost shr_at = { λ l p κ. list_lent T.row l p κ };
}

impl<T> Move for Sequence<T> {
    ghost use Rattle.sequence.specs.Laid.Owned.{list_row};

    ghost own_val = { λ l vs. (list_row T.row).own_val l vs };
}

unsafe impl<T: Send + Sync> Send for Sequence<T> {}

unsafe impl<T: Send + Sync> Sync for Sequence<T> {}

impl<T> Sequence<T> {
    /// Creates an empty list, with no allocation: `let mut list = Sequence::new();`.
    pub fn new() -> Sequence<T>
        ensures { result ≡ [] }
    {
        Sequence { root: None, len: 0 }
    }
}

impl<T: Drop> Sequence<T> {
    fn of(list: LabelledSequence<T>) -> Sequence<T>
        ensures { result ≡ list }
    {
        let mut sequence = Sequence::new();
        *sequence.deref_mut() = list;
        sequence
    }

    fn into_labelled(mut self) -> LabelledSequence<T>
        ensures { result ≡ self }
    {
        mem::replace(self.deref_mut(), LabelledSequence::empty())
    }
}

/// Lends the list as one that may have labels. It has the same items.
impl<T> Deref for Sequence<T> {
    type Target = LabelledSequence<T>;

    ghost deref_gives = { λ sequence list. list ≡ sequence };

    fn deref(&self) -> &LabelledSequence<T>
        ensures { result.now ≡ self.now }
    {
        unsafe { &*(self as *const Sequence<T> as *const LabelledSequence<T>) }
    }
}

impl<T> DerefMut for Sequence<T> {
    ghost use Rattle.sequence.specs.Laid.Lending.{LendsList};

    ghost deref_mut_gives = { λ sequence list. list ≡ sequence };

    fn deref_mut(&mut self) -> &mut LabelledSequence<T>
        ensures* writes_back { sem 𝓛 (LendsList T.row self.entry result) }
        ensures value { result.now ≡ self.old }
    {
        unsafe { &mut *(self as *mut Sequence<T> as *mut LabelledSequence<T>) }
    }
}

impl<T: Drop> Drop for Sequence<T> {
    fn drop(mut self) {
        drop(mem::replace(self.deref_mut(), LabelledSequence::empty()));
        // They own no list now.
        let Sequence { root: _, len: _ } = self;
    }
}

/// Makes a version (snapshot) by one increment of a count, with no copy and no allocation:
/// `let old: Sequence<u64> = list.clone()?;`. O(1).
///
/// # Errors
///
/// `AllocError` when the `clone` of an `Arc` fails: the count is at its limit, or too many attempts lost to other
/// threads. A lack of memory is no reason.
impl<T: Drop> Clone for Sequence<T> {
    ghost is_clone = { λ a b. b ≡ a };

    fn clone(&self) -> Result<Sequence<T>, AllocError> {
        Ok(Sequence::of(self.deref().clone()?))
    }
}

/// Creates an empty list, as `Sequence::new` does.
impl<T> Default for Sequence<T> {
    ghost is_default = { λ list. list ≡ [] };

    fn default() -> Sequence<T> {
        Sequence::new()
    }
}
