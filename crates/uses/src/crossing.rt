//! Handles that cross threads. A handle of any kind is `Send` and `Sync` if its values are both.
ghost use Rattle.std.specs.Prelude.{◌≡◌, IfOk, IfErr, length};

use crate::recursive::by_arc::Node;
use crate::recursive::by_other_handles::{Borrowing, FirstOfUnion, HeaderTree, Token, Unique};
use crate::recursive::by_static::Linked;
use maps::Stack;
use servo_arc::{Arc, ArcBorrow, HeaderSlice, RawArc, StaticArc, ThinArc, ThinArcUnion, UniqueArc};
use std::alloc::Global;
use std::thread::{Threads, join};

fn crosses_threads<T: Send + Sync>() {}

/// Compiles only if each kind of handle is `Send` and `Sync`.
pub fn all_handles_cross_threads() {
    crosses_threads::<Arc<u64>>();
    crosses_threads::<RawArc<u64>>();
    crosses_threads::<UniqueArc<u64>>();
    crosses_threads::<ThinArc<u8, u64>>();
    crosses_threads::<HeaderSlice<u8, u64>>();
    crosses_threads::<ThinArcUnion<u8, u32, u32, u64>>();
    crosses_threads::<ArcBorrow<'_, u32>>();
    crosses_threads::<StaticArc<'_, u64>>();
}

/// Compiles only if a type that holds itself is `Send` and `Sync`, one type for each kind of handle.
pub fn all_recursive_types_cross_threads() {
    crosses_threads::<Node>();
    crosses_threads::<Unique>();
    crosses_threads::<Token>();
    crosses_threads::<FirstOfUnion>();
    crosses_threads::<HeaderTree>();
    crosses_threads::<Borrowing<'static>>();
    crosses_threads::<Linked>();
}

/// Asks in another thread, which borrows the handle, whether it is the only one.
pub fn is_unique_elsewhere(rt: &impl Threads, handle: &Arc<u32>) -> bool {
    join(rt, || handle.is_unique(), || ()).0
}

/// Drops the handle in another thread, to which it moves. Returns `true` if it was the last.
pub fn end_elsewhere(rt: &impl Threads, handle: Arc<u32>) -> bool {
    join(rt, move || Arc::into_inner(handle).is_some(), || ()).0
}

/// Returns a handle that another thread creates and sends back.
pub fn made_elsewhere(rt: &impl Threads, alloc: Global, value: u32) -> Result<Arc<u32>, u32>
    ensures made { IfOk result (λ a. a ≡ value) }
    ensures refused { IfErr result (λ x. x ≡ value) }
{
    join(rt, move || Arc::new(alloc, value), || ()).0
}

/// Returns the number of items of a stack, counted by another thread, which borrows the stack.
pub fn len_elsewhere(rt: &impl Threads, stack: &Stack<u32>) -> usize
    ensures { result ≡ length stack.now }
{
    join(rt, || stack.len(), || ()).0
}
