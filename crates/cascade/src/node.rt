//! The nodes of a rule tree, and the queries that find them.
ghost use Rattle.std.specs.Prelude.{◌≡◌, IfOk};
ghost use Rattle.cascade.specs.RuleTree.{lent, style_at};

use crate::source::{Inline, Rule, Source};
use crate::style::Style;
use interner::Symbol;
use servo_arc::{Arc, ArcUnion, ArcUnionBorrow};
use std::alloc::AllocError;

/// A node of the rule tree: a source under its parent, which is a node or the root, with the style that both make.
/// Nodes are compared by parent and source alone.
#[derive(Drop)]
#[derive_where(PartialEq, Eq, Hash)]
pub struct RuleNode {
    pub parent: Option<Symbol>,
    pub source: Source,
    #[derive_where(skip(EqHashOrd))]
    pub style: Arc<Style>,
}

/// A borrowed source, as `LentSource::OfRule(rule)`: to look a node up, no handle is cloned.
#[derive(Clone, Copy, PartialEq, Eq, Hash)]
pub enum LentSource<'a> {
    OfRule(&'a Arc<Rule>),
    OfInline(&'a Arc<Inline>),
}

/// The query for a node, of which an interner also makes the node: `Child { parent, source, root: &self.root }`. The
/// style of the root is neither hashed nor compared.
#[derive(Clone, Copy)]
#[derive_where(PartialEq, Eq, Hash)]
pub struct Child<'a> {
    pub parent: Option<Symbol>,
    pub source: LentSource<'a>,
    #[derive_where(skip(EqHashOrd))]
    pub root: &'a Arc<Style>,
}

impl LentSource<'_> {
    // Clones the handle of the source.
    pub(crate) fn handle(&self) -> Result<Source, AllocError>
        ensures { IfOk result (λ source. source ≡ lent self.now) }
    {
        match self {
            LentSource::OfRule(rule) => Ok(ArcUnion::from_first((**rule).clone()?)),
            LentSource::OfInline(inline) => Ok(ArcUnion::from_second((**inline).clone()?)),
        }
    }

    pub(crate) fn equals(&self, source: &Source) -> bool
        ensures { result ≡ ⟦<Source as PartialEq>⟧.eq (lent self.now) source.now }
    {
        match (self, source.borrow()) {
            (LentSource::OfRule(a), ArcUnionBorrow::First(b)) => ***a == *b.get(),
            (LentSource::OfInline(a), ArcUnionBorrow::Second(b)) => ***a == *b.get(),
            _ => false,
        }
    }
}

/// Returns the style of a node, or of the root.
pub(crate) fn style_of_node<'a>(
    root: &'a Arc<Style>,
    nodes: &'a [Arc<RuleNode>],
    node: Option<Symbol>,
) -> &'a Arc<Style>
    ensures { result.now ≡ style_at root.now nodes.now node }
{
    match node {
        None => root,
        Some(symbol) => match nodes.get(symbol.index()) {
            None => root,
            Some(node) => &node.style,
        },
    }
}
