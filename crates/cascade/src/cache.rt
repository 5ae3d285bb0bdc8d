//! `StyleCache`: each path of sources has one node in a rule tree, and each node has one style.
ghost use Rattle.std.specs.Prelude.{◌≡◌, ◌<◌, IfOk, OnErr, Some, length};
ghost use Rattle.cascade.specs.Cascade.{cascaded, initial, style_of};
ghost use Rattle.cascade.specs.RuleTree.{IsBefore, AreComputed, lent, style_at};

use crate::element::Element;
use crate::initial::Initial;
use crate::node::{Child, LentSource, RuleNode, style_of_node};
use crate::style::Style;
use interner::{InternError, Interner, Symbol};
use servo_arc::Arc;
use std::alloc::{AllocError, Global};
use std::hash::{BuildHasher, BuildHasherDefault, FoldHasher};

/// A rule tree with the style of each node: `cache.style(alloc, &element)?`.
///
/// Elements with one path of sources share one node and one style. The style of a node is computed once, from the
/// style of its parent, when the node is added. So elements whose paths begin alike share the groups of properties
/// that the rest of their paths does not declare.
///
/// `S` makes the hash of a node: use `RandomState` if the rules come from a stranger.
#[derive(Drop)]
pub struct StyleCache<S: BuildHasher = BuildHasherDefault<FoldHasher>> {
    root: Arc<Style>,
    nodes: Interner<RuleNode, S>,
    ghost initial: { root ≡ initial },
    ghost computed: { AreComputed root nodes },
}

impl StyleCache<BuildHasherDefault<FoldHasher>> {
    /// Creates a cache that has only the root: `StyleCache::new(alloc, initial)?`.
    ///
    /// # Errors
    ///
    /// Returns `AllocError` if the style of the root cannot be allocated.
    pub fn new(alloc: Global, initial: Initial) -> Result<StyleCache, AllocError> {
        StyleCache::with_hasher(alloc, initial, BuildHasherDefault::new())
    }
}

impl<S: BuildHasher> StyleCache<S> {
    /// Creates a cache that has only the root, with a hasher of your choice:
    /// `StyleCache::with_hasher(alloc, initial, hasher)?`.
    ///
    /// # Errors
    ///
    /// Returns `AllocError` if the style of the root cannot be allocated.
    pub fn with_hasher(
        alloc: Global,
        initial: Initial,
        hasher: S,
    ) -> Result<StyleCache<S>, AllocError>
    where
        S: Drop,
    {
        Ok(StyleCache {
            root: Arc::try_new(alloc, initial.style())?,
            nodes: Interner::with_hasher(alloc, hasher),
        })
    }

    /// Returns the style of the element, which all elements of its path share: `cache.style(alloc, &element)?`. O(n)
    /// on average in the length of the path.
    ///
    /// # Errors
    ///
    /// Returns the errors of `Interner::intern_by`, or `Memory` if a handle cannot be cloned. The nodes that were
    /// added stay.
    pub fn style(&mut self, alloc: Global, element: &Element) -> Result<Arc<Style>, InternError>
        ensures { IfOk result (λ style. style ≡ style_of element.now) }
    {
        let node = self.node(alloc, element)?;
        Ok(style_of_node(&self.root, self.nodes.values(), node).clone()?)
    }

    // Returns the node at which the path of the element ends.
    fn node(&mut self, alloc: Global, element: &Element) -> Result<Option<Symbol>, InternError>
        ensures { IfOk result (λ node. style_at self.new.root self.new.nodes node ≡ style_of element.now) }
    {
        let mut node = None;
        let rules = element.rules.slice();
        for rule in rules {
            node = Some(self.child(alloc, node, LentSource::OfRule(rule))?);
        }
        match &element.inline {
            None => Ok(node),
            Some(inline) => Ok(Some(self.child(alloc, node, LentSource::OfInline(inline))?)),
        }
    }

    // Returns the node of the source under that parent, and adds the node if it is not there.
    fn child(
        &mut self,
        alloc: Global,
        parent: Option<Symbol>,
        source: LentSource<'_>,
    ) -> Result<Symbol, InternError>
        requires { IsBefore parent (length self.old.nodes) }
        ensures there { IfOk result (λ node. node < length self.new.nodes) }
        ensures style { IfOk result (λ node. style_at self.new.root self.new.nodes (Some node)
            ≡ cascaded (style_at self.old.root self.old.nodes parent) (lent source.entry)) }
        ensures refused { OnErr result (self.new.nodes ≡ self.old.nodes) }
    {
        let child = Child {
            parent,
            source,
            root: &self.root,
        };
        let symbol = self.nodes.intern_by(alloc, &child)?;
        Ok(symbol)
    }
}
