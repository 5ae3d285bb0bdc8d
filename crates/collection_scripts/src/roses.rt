//! Calls of an `Undo` of a `Rose`, which starts as a tree of the value 0. A change makes the next version (snapshot). A
//! PATH, the last numbers of a line, has the index of a child for each step down:
//!
//!     set V PATH                replaces the value at the path
//!     insert V I PATH           inserts a leaf with that value at the index I
//!     remove I PATH             removes the child at the index I
//!     put PATH                  replaces the tree at the path by a clone of the whole tree
//!     add V PATH                adds to the value at the path twice, in one new version
//!     undo; redo; forget N      the calls of `Undo`
//!     versions                  how many can be undone, and how many can be redone
//!     values; paths             all values; all paths with their values
//!     at PATH                   the value at the path
//!     shared PATH               is the node at the path the same one as in the version before?
use crate::call::{Call, Collection, tell};
use crate::sequences::add;
use rose_undo::{PlaceError, Rose, Undo};
use std::alloc::Global;
use std::io;
use std::io::Print;
use testing::counted::Counted;

type Tree<'a> = Rose<Counted<'a>>;

impl<'a> Collection<'a> for Undo<Tree<'a>> {
    fn answer<R: Print + AllocGlobal>(&mut self, rt: &R, call: &Call<'a>) -> io::Result<()> {
        match call.word {
            "undo" => tell(rt, self.undo()),
            "redo" => tell(rt, self.redo()),
            "forget" => tell(rt, self.forget(call.numbers[0])),
            "versions" => {
                let back = (self.before().len(), self.can_undo());
                tell(rt, (back, (self.undone().len(), self.can_redo())))
            }
            "at" => tell(rt, self.current().at(call.path(0)).map(Rose::value)),
            "values" => match self.current().values(rt.alloc()) {
                Ok(values) => tell(rt, values.as_slice()),
                Err(refused) => tell(rt, refused),
            },
            "paths" => match self.current().paths(rt.alloc()) {
                Ok(paths) => tell(rt, paths.as_slice()),
                Err(refused) => tell(rt, refused),
            },
            "shared" => tell(rt, is_shared(self, call.path(0))),
            _ => match changed(rt.alloc(), self.current(), call) {
                Some(made) => tell(rt, change(self, made)),
                None => tell(rt, "no such call"),
            }
        }
    }
}

fn change<'a>(
    versions: &mut Undo<Tree<'a>>,
    made: Result<Tree<'a>, PlaceError>,
) -> Result<(), PlaceError> {
    Ok(versions.change(made?)?)
}

// The tree that a call makes, or `None` for an unknown call.
fn changed<'a>(
    alloc: Global,
    tree: &Tree<'a>,
    call: &Call<'a>,
) -> Option<Result<Tree<'a>, PlaceError>> {
    let [value, index, ..] = call.numbers;
    Some(match call.word {
        "set" => tree.with_value(alloc, call.path(1), call.item(value)),
        "insert" => with_leaf(alloc, tree, call),
        "put" => with_itself(alloc, tree, call.path(0)),
        "remove" => tree.without(alloc, call.path(1), value),
        "add" => with_added(alloc, tree, call),
        _ => return None,
    })
}

fn with_leaf<'a>(alloc: Global, tree: &Tree<'a>, call: &Call<'a>) -> Result<Tree<'a>, PlaceError> {
    let leaf = Rose::leaf(alloc, call.item(call.numbers[0]))?;
    tree.with_inserted(alloc, call.path(2), call.numbers[1], leaf)
}

fn with_itself<'a>(alloc: Global, tree: &Tree<'a>, path: &[usize]) -> Result<Tree<'a>, PlaceError> {
    tree.with_tree(alloc, path, tree.clone()?)
}

// Adds twice in place: only the first time copies the nodes that the version before shares. If the first time fails,
// the clone still shares its root with that version, and the error is returned.
fn with_added<'a>(alloc: Global, tree: &Tree<'a>, call: &Call<'a>) -> Result<Tree<'a>, PlaceError> {
    let mut made = tree.clone()?;
    for _ in 0..2u8 {
        let added = made.modify(alloc, call.path(1), |item| add(item, call.numbers[0]));
        if let Err(refusal) = added
            && Rose::ptr_eq(&made, tree)
        {
            return Err(refusal);
        }
    }
    Ok(made)
}

// Whether the version before has the same node at the path.
fn is_shared(versions: &Undo<Tree<'_>>, path: &[usize]) -> Option<bool> {
    let before = versions.before().last()?;
    Some(Rose::ptr_eq(before.at(path)?, versions.current().at(path)?))
}
