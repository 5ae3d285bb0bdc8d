//! The nodes of a stack.
ghost use Rattle.std.specs.Prelude.{◌≡◌, ◌∷◌, [], ◌↔◌, IfSome, None};

use handles::arc::Arc;
use std::alloc::AllocError;
use std::marker::Model;

/// The nodes of a stack. Their own drop recurses from node to node, so a `Stack` drops them in a loop.
#[cycle(links)]
#[derive(Drop)]
pub(crate) struct Links<T> {
    pub(crate) first: Option<Arc<Node<T>>>,
    pub(crate) len: usize,
}

#[cycle(links)]
#[derive(Drop)]
pub(crate) struct Node<T> {
    pub(crate) value: T,
    pub(crate) rest: Links<T>,
}

impl<T> Model for Links<T> {
    ghost use Rattle.std.specs.Prelude.{◌≡◌, List, length};

    ghost Value = { List T };

    ghost use Rattle.maps.specs.Stacks.{items};

    ghost view = { λ l. items l.first };

    ghost invariant = { λ l. l.len ≡ length (items l.first) };

    ghost size = { length };

    ghost use Rattle.maps.specs.StackFalls.{depth_le-length-items};

    ghost size_decreases = { λ l h. depth_le-length-items l.first l.len };
}

impl<T: Drop> Clone for Links<T> {
    ghost is_clone = { λ a b. b ≡ a };

    fn clone(&self) -> Result<Links<T>, AllocError> {
        let first = match &self.first {
            None => None,
            Some(node) => Some(node.clone()?),
        };
        Ok(Links {
            first,
            len: self.len,
        })
    }
}

impl<T> Links<T> {
    pub(crate) fn new() -> Links<T>
        ensures { result ≡ [] }
    {
        Links {
            first: None,
            len: 0,
        }
    }

    pub(crate) fn split_first(&self) -> Option<(&T, &Links<T>)>
        ensures none { (result ≡ None) ↔ (self.now ≡ []) }
        ensures some { IfSome result (λ parts. self.now ≡ parts.0.now ∷ parts.1.now) }
    {
        let node = self.first.as_ref()?;
        Some((&node.value, &node.rest))
    }
}
