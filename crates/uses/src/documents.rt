//! A document with undo: a tree of named parts. An edit makes a version (snapshot), which shares all parts that the
//! edit left alone.
ghost use Rattle.std.specs.Prelude.{◌≡◌, ◌↔◌, ◌∷◌, ◌++◌, [], Err, None, Some, IfOk, OnErr, OnOk, insert, map};
ghost use Rattle.cascade.specs.Cascade.{style_of};
ghost use Rattle.uses.specs.Documents.{edited, renamed, restyled};
ghost use Rattle.rose_undo.specs.Roses.{branch, children, preorder, root, values_below};

use cascade::{Element, Inline, Style, StyleCache};
use interner::InternError;
use rose_undo::{PlaceError, Rose, Undo};
use servo_arc::Arc;
use std::alloc::{AllocError, Global};

/// A node of a document. The name is text behind an `Arc`: a clone has the same text, by contract, and allocates
/// nothing.
#[derive(Drop)]
pub struct Part {
    pub name: Arc<String>,
    pub element: Element,
}

/// Clones the handles of the name and of what declares the style. Fails when the `clone` of an `Arc` does.
impl Clone for Part {
    ghost is_clone = { λ a b. b ≡ a };

    fn clone(&self) -> Result<Part, AllocError> {
        Ok(Part {
            name: self.name.clone()?,
            element: self.element.clone()?,
        })
    }
}

/// A document with its earlier versions, for undo.
pub type Document = Undo<Rose<Part>>;

/// An edit of the part at the end of a path.
#[derive(Drop)]
pub enum Edit {
    Rename(Arc<String>),
    /// Replaces the block of declarations that the part itself has.
    Restyle(Arc<Inline>),
    /// Inserts a part with all below it, at that index among the children.
    Insert(usize, Rose<Part>),
    /// Removes the child at that index, with all below it.
    Remove(usize),
}

/// Edits the document at the end of the path, and keeps the version before for undo.
///
/// # Errors
///
/// `NoPlace` if the path or the index leaves the tree, and `Memory`. The document is unchanged.
pub fn apply(
    document: &mut Document,
    alloc: Global,
    path: &[usize],
    edit: Edit,
) -> Result<(), PlaceError>
    ensures edited { OnOk result (
        Some document.new.current ≡ edited edit path.now document.old.current) }
    ensures kept { OnOk result (
        document.new.before ≡ document.old.before ++ document.old.current ∷ []) }
    ensures none_undone { OnOk result (document.new.undone ≡ []) }
    ensures refused { OnErr result (document.new ≡ document.old) }
    ensures no_place { (result ≡ Err PlaceError.NoPlace)
        ↔ (edited edit path.now document.old.current ≡ None) }
{
    let next = edited(alloc, document.current(), path, edit)?;
    document.change(next)?;
    Ok(())
}

fn edited(
    alloc: Global,
    tree: &Rose<Part>,
    path: &[usize],
    edit: Edit,
) -> Result<Rose<Part>, PlaceError>
    ensures made { IfOk result (λ new. Some new ≡ edited edit path.now tree.now) }
    ensures no_place { (result ≡ Err PlaceError.NoPlace) ↔ (edited edit path.now tree.now ≡ None) }
{
    match edit {
        Edit::Rename(name) => renamed(alloc, tree, path, name),
        Edit::Restyle(inline) => restyled(alloc, tree, path, inline),
        Edit::Insert(index, child) => tree.with_inserted(alloc, path, index, child),
        Edit::Remove(index) => tree.without(alloc, path, index),
    }
}

#[tactic(auto, using(rose_undo::proofs::Roses::setting))]
fn renamed(
    alloc: Global,
    tree: &Rose<Part>,
    path: &[usize],
    name: Arc<String>,
) -> Result<Rose<Part>, PlaceError>
    ensures made { IfOk result (λ new. Some new ≡ renamed name path.now tree.now) }
    ensures no_place { (result ≡ Err PlaceError.NoPlace) ↔ (renamed name path.now tree.now ≡ None) }
{
    let place = tree.at(path).ok_or(PlaceError::NoPlace)?;
    let element = place.value().element.clone()?;
    tree.with_value(alloc, path, Part { name, element })
}

#[tactic(auto, using(rose_undo::proofs::Roses::setting))]
fn restyled(
    alloc: Global,
    tree: &Rose<Part>,
    path: &[usize],
    inline: Arc<Inline>,
) -> Result<Rose<Part>, PlaceError>
    ensures made { IfOk result (λ new. Some new ≡ restyled inline path.now tree.now) }
    ensures no_place { (result ≡ Err PlaceError.NoPlace) ↔ (restyled inline path.now tree.now ≡ None) }
{
    let place = tree.at(path).ok_or(PlaceError::NoPlace)?;
    let part = place.value();
    let name = part.name.clone()?;
    let element = part.element.with_inline(inline)?;
    tree.with_value(alloc, path, Part { name, element })
}

/// The document with one more part right below its root, which gets that number. The parts from there on get the next.
#[tactic(auto, using(rose_undo::proofs::Branches::below))]
pub fn with_part(
    tree: &Rose<Part>,
    alloc: Global,
    number: usize,
    part: Part,
) -> Result<Rose<Part>, PlaceError>
    ensures parts { IfOk result (λ new. values_below new ≡ insert (values_below tree.now) number part) }
    ensures stays { IfOk result (λ new. root new ≡ root tree.now) }
    ensures below { IfOk result (λ new. children new ≡ insert (children tree.now) number (branch part [])) }
{
    let part = Rose::leaf(alloc, part)?;
    tree.with_inserted(alloc, &[], number, part)
}

/// Returns the styles of all parts in preorder. A part that no edit has touched keeps its style, from the cache.
pub fn styles(
    cache: &mut StyleCache,
    alloc: Global,
    tree: &Rose<Part>,
) -> Result<Vec<Arc<Style>>, InternError>
    ensures { IfOk result (λ styles.
        styles.items ≡ map (λ part. style_of part.element) (preorder tree.now)) }
{
    let values = tree.values(alloc)?;
    let parts = values.as_slice();
    let mut styles = Vec::new(alloc);
    for part in parts {
        let style = cache.style(alloc, &part.element)?;
        styles.push(style)?;
    }
    Ok(styles)
}
