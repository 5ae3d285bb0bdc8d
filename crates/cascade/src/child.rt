//! How an interner finds a node by its parent and a borrowed source, and makes a node.
ghost use Rattle.std.specs.Prelude.{◌≡◌};
ghost use Rattle.cascade.specs.Children.{is_child, is_form};
ghost use Rattle.cascade.specs.RuleTree.{made_of};

use crate::node::{Child, RuleNode, style_of_node};
use interner::{Make, Query};
use servo_arc::Arc;
use std::alloc::{AllocError, Global};

impl Query<RuleNode> for &Child<'_> {
    ghost stands_for = { λ child. is_child child.now };

    ghost is_form = { λ child. is_form child.now };

    #[inline]
    fn stands_for(&self, node: &RuleNode) -> bool {
        self.parent == node.parent && self.source.equals(&node.source)
    }
}

impl Make<RuleNode> for &Child<'_> {
    ghost makes = { λ child nodes node. node ≡ made_of child.now nodes };

    fn make(self, alloc: Global, nodes: &[Arc<RuleNode>]) -> Result<Arc<RuleNode>, AllocError> {
        let source = self.source.handle()?;
        let style = style_of_node(self.root, nodes, self.parent).cascade(alloc, &source)?;
        let node = RuleNode {
            parent: self.parent,
            source,
            style: Arc::try_new(alloc, style)?,
        };
        Ok(Arc::try_new(alloc, node)?)
    }
}
