//! Recursive functions over types without a model. A contract reads one level of such a value by `out-Node`, and the
//! whole value by a fold.
ghost use Rattle.std.specs.Prelude.{◌≡◌, ◌∷◌, [], ◌<◌, ◌^◌, length, Some, IfOk};
ghost use Rattle.uses.specs.Walks.{borrowed_values, first_headers, holds, token_values, union_values};
ghost use Rattle.uses.specs.Walks.{unique_values, values, with_last};
ghost use Rattle.uses.specs.declared.recursive.by_arc.Node.{out-Node};

use super::by_arc::{Node, Tree};
use super::by_other_handles::{Borrowing, FirstOfUnion, HeaderTree, Token, Unique};
use servo_arc::{Arc, ArcUnionBorrow};
use std::alloc::{AllocError, Global};

/// Creates a node in front of `next`, which stays shared.
pub fn push(alloc: Global, value: u32, next: &Arc<Node>) -> Result<Arc<Node>, AllocError>
    ensures level { IfOk result (λ node. (out-Node node).next ≡ Some next.now) }
    ensures whole { IfOk result (λ node. values node ≡ value ∷ values next.now) }
{
    let next = Some(next.clone()?);
    Ok(Arc::try_new(alloc, Node { value, next })?)
}

/// Returns the number of nodes from this one on.
pub fn len(node: &Node) -> usize
    requires { length (values node.now) < 2 ^ 64 }
    ensures { result ≡ length (values node.now) }
{
    match &node.next {
        None => 1,
        Some(next) => len(next) + 1,
    }
}

/// Returns `true` if the key is anywhere in the tree.
pub fn contains(tree: &Tree, key: u32) -> bool
    ensures { result ≡ holds key tree.now }
{
    if tree.key == key {
        return true;
    }
    if let Some(left) = &tree.left {
        if contains(left, key) {
            return true;
        }
    }
    match &tree.right {
        None => false,
        Some(right) => contains(right, key),
    }
}

/// Sets the last value.
pub fn set_last(unique: &mut Unique, value: u32)
    ensures { unique_values unique.new ≡ with_last value (unique_values unique.old) }
{
    match &mut unique.next {
        None => unique.value = value,
        Some(next) => set_last(next, value),
    }
}

/// Returns the number of headers from this tree down, by the first child of each.
pub fn first_depth(tree: &HeaderTree) -> usize
    requires { length (first_headers tree.now) < 2 ^ 64 }
    ensures { result ≡ length (first_headers tree.now) }
{
    match tree.kids.slice().first() {
        None => 1,
        Some(kid) => first_depth(kid) + 1,
    }
}

/// Returns the number of values from this raw handle on.
pub fn token_len(token: &Token) -> usize
    requires { length (token_values token.now) < 2 ^ 64 }
    ensures { result ≡ length (token_values token.now) }
{
    match &token.next {
        None => 1,
        Some(next) => token_len(next.value()) + 1,
    }
}

/// Returns the number of values on the path, with the number at its end.
pub fn union_len(union: &FirstOfUnion) -> usize
    requires { length (union_values union.now) < 2 ^ 64 }
    ensures { result ≡ length (union_values union.now) }
{
    match union.next.borrow() {
        ArcUnionBorrow::First(next) => union_len(next.get()) + 1,
        ArcUnionBorrow::Second(_) => 2,
    }
}

/// Returns the number of values on the path through borrows.
pub fn borrowed_len(borrowing: &Borrowing<'_>) -> usize
    requires { length (borrowed_values borrowing.now) < 2 ^ 64 }
    ensures { result ≡ length (borrowed_values borrowing.now) }
{
    match &borrowing.next {
        None => 1,
        Some(next) => borrowed_len(next.get()) + 1,
    }
}
