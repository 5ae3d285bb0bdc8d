//! A change along a path, by a recursion through `make_mut`: nodes that nobody else shares are written in place. The
//! recursion needs no measure of its own, since the checker sees that it descends the chain.
ghost use Rattle.std.specs.Prelude.{◌≡◌, ◌<◌, OnErr, OnOk, length, slice_set};
ghost use Rattle.uses.specs.Chains.{values};

use servo_arc::Arc;
use std::alloc::{AllocError, Global};

/// A linked list of numbers.
#[derive(Drop)]
pub struct Chain {
    pub value: u32,
    pub next: Option<Arc<Chain>>,
}

/// Written by hand, so that the contract of `clone` says that the clone equals the original, as `set` needs.
impl Clone for Chain {
    ghost is_clone = { λ a b. b ≡ a };

    fn clone(&self) -> Result<Chain, AllocError> {
        let next = match &self.next {
            None => None,
            Some(next) => Some(next.clone()?),
        };
        Ok(Chain {
            value: self.value,
            next,
        })
    }
}

/// Sets the value at `index`. Shared nodes on the path are copied, and all nodes behind `index` stay shared. O(index).
///
/// # Errors
///
/// `AllocError` if there is no memory for a copy, or if the `clone` of an `Arc` fails. The chain reads as before.
pub fn set(
    chain: &mut Arc<Chain>,
    alloc: Global,
    index: usize,
    value: u32,
) -> Result<(), AllocError>
    requires { index < length (values chain.old) }
    ensures set { OnOk result (values chain.new ≡ slice_set (values chain.old) index value) }
    ensures refused { OnErr result (chain.new ≡ chain.old) }
{
    let node = Arc::make_mut(chain, alloc)?;
    if index == 0 {
        node.value = value;
        return Ok(());
    }
    match &mut node.next {
        None => unreachable!(),
        Some(next) => set(next, alloc, index - 1, value),
    }
}
