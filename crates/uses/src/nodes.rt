//! Interned header slices, found by their parts, and a value for each of them.
ghost use Rattle.std.specs.Prelude.{◌≡◌, ◌++◌, ◌∷◌, ◌⊎◌, [], IfOk, Some, map, slice_get};
ghost use Rattle.servo_arc.specs.HeaderSlice.{HeaderAndItems};
ghost use Rattle.uses.specs.Nodes.{line_count};

use interner::{InternError, InternMap, Interner, Symbol};
use servo_arc::{Arc, HeaderSlice};
use std::alloc::Global;

/// The kind of a node of a syntax tree.
#[derive(Clone, Copy, Debug, PartialEq, Eq, Hash)]
pub enum Kind {
    Sum,
    Call,
}

/// A child of a node, as its symbol.
#[derive(Clone, Copy, Debug, PartialEq, Eq, Hash)]
pub enum Child {
    Node(Symbol),
    Name(Symbol),
}

/// The symbol of the node of that kind with these children. The node is made if it is not there.
pub fn node(
    nodes: &mut Interner<HeaderSlice<Kind, Child>>,
    alloc: Global,
    kind: Kind,
    children: &[Child],
) -> Result<Symbol, InternError>
    ensures node { IfOk result (λ symbol.
        slice_get nodes.new symbol ≡ Some (record { header = kind; items = children.now })) }
    ensures others { IfOk result (λ _. (nodes.new ≡ nodes.old)
        ⊎ (nodes.new ≡ nodes.old ++ record { header = kind; items = children.now } ∷ [])) }
{
    if let Some(symbol) = nodes.find((&kind, children)) {
        return Ok(symbol);
    }
    let node = Arc::from_header_and_slice(alloc, kind, children)?;
    let symbol = nodes.intern_arc(node)?;
    Ok(symbol)
}

/// The number of lines of each text, computed once for equal texts.
#[derive(Drop)]
pub struct LineCounts {
    counts: InternMap<HeaderSlice<(), u8>, usize>,
    ghost counted: { counts.values ≡ map line_count counts.keys },
}

impl LineCounts {
    /// Creates an empty cache.
    pub fn new(alloc: Global) -> LineCounts {
        LineCounts {
            counts: InternMap::new(alloc),
        }
    }

    /// How many lines end in the text.
    pub fn count(&mut self, alloc: Global, text: &str) -> Result<usize, InternError>
        ensures { IfOk result (λ count. count ≡ line_count (record { header = tt; items = text.now })) }
    {
        let text = text.as_bytes();
        if let Some(count) = self.counts.find_value((&(), text)) {
            return Ok(*count);
        }
        let count = text.iter().filter(|byte| **byte == b'\n').count();
        let key = Arc::from_header_and_slice(alloc, (), text)?;
        self.counts.get_or_insert(key, count)?;
        Ok(count)
    }
}
