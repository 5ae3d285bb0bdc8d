//! A document and a buffer whose edits are undone, and trees that end. The contracts say what each edit returns, but
//! not that it succeeds while there is memory, nor that the handles in it are dropped.
use crate::made::{arc_of, text_of};
use cascade::{Declaration, Element, Initial, Inline, StyleCache};
use rose_undo::{Rose, Undo};
use servo_arc::Arc;
use std::process::Abort;
use std::thread::Builder;
use testing::counted::{Counted, Tally};
use testing::{SMALL_STACK, again, holds, ok, same};
use uses::buffer::{insert_line, turned};
use uses::documents::{Edit, Part, apply, styles, with_part};

fn part(rt: &(impl Abort + AllocGlobal), name: &Arc<String>) -> Part {
    let element = ok!(rt, Element::of_rules(rt.alloc(), Vec::new(rt.alloc())));
    let name = again!(rt, name);
    Part { name, element }
}

fn leaf(rt: &(impl Abort + AllocGlobal), name: &Arc<String>) -> Rose<Part> {
    ok!(rt, Rose::leaf(rt.alloc(), part(rt, name)))
}

fn large(rt: &(impl Abort + AllocGlobal)) -> Arc<Inline> {
    let declarations = Arc::from_header_and_slice(rt.alloc(), (), &[Declaration::FontSize(40)]);
    let declarations = ok!(rt, declarations);
    arc_of(rt, Inline { declarations })
}

// Each name and each style ends with the last version that has it, and with the cache.
#[test]
fn edits_are_undone_and_done_again(rt: HostRuntime) {
    let (alloc, large) = (rt.alloc(), large(&rt));
    let names = ["page", "title", "text", "body"].map(|text| text_of(&rt, text));
    let [page, title, text, body] = &names;
    let mut document = Undo::new(alloc, leaf(&rt, page));
    let edits = vec![in alloc;
        (&[][..], Edit::Insert(0, leaf(&rt, title))),
        (&[][..], Edit::Insert(1, leaf(&rt, text))),
        (&[1][..], Edit::Rename(again!(&rt, body))),
        (&[1][..], Edit::Restyle(again!(&rt, &large))),
        (&[][..], Edit::Remove(0)),
    ];
    for (path, edit) in ok!(&rt, edits) {
        ok!(&rt, apply(&mut document, alloc, path, edit));
    }
    let moved = [document.undo(), document.undo(), document.redo()];
    same!(&rt, moved.map(Result::ok), [Some(true); 3]);
    let mut cache = ok!(&rt, StyleCache::new(alloc, ok!(&rt, Initial::new(alloc))));
    ok!(&rt, styles(&mut cache, alloc, document.current()));
    holds!(&rt, !names.iter().any(|name| name.is_unique()));
    drop((document, cache));
    holds!(&rt, names.iter().all(|name| name.is_unique()));
    holds!(&rt, large.is_unique());
}

#[test]
fn lines_and_parts_end_with_what_has_them(rt: HostRuntime) {
    let (alloc, name) = (rt.alloc(), text_of(&rt, "name"));
    let mut buffer = Undo::new(alloc, Default::default());
    ok!(&rt, insert_line(&mut buffer, alloc, 0, again!(&rt, &name)));
    let turned = ok!(&rt, turned(buffer.current(), alloc, 1));
    let (page, part) = (leaf(&rt, &name), part(&rt, &name));
    let longer = ok!(&rt, with_part(&page, alloc, 0, part));
    holds!(&rt, buffer == buffer && !name.is_unique());
    drop((buffer, turned, page, longer));
    holds!(&rt, name.is_unique());
}

#[test]
fn a_deep_tree_ends_on_a_small_stack(rt: HostRuntime) {
    let alloc = rt.alloc();
    let mut tree = ok!(&rt, Rose::leaf(alloc, 0u64));
    for value in 1..=100_000 {
        let low = ok!(&rt, vec![in alloc; tree]);
        tree = ok!(&rt, Rose::with_children(alloc, value, low));
    }
    let small = Builder::new().stack_size(SMALL_STACK);
    ok!(&rt, small.spawn(&rt, move || tree.end(alloc))).join(&rt);
}

// Nodes that another version (snapshot) shares stay, and each value is dropped with its last tree.
#[test]
fn an_end_leaves_what_others_share(rt: HostRuntime) {
    let tally = Tally::new();
    let leaf = |value: u64| ok!(&rt, Rose::leaf(rt.alloc(), Counted::new(&tally, value)));
    let low = ok!(&rt, vec![in rt.alloc(); leaf(1), leaf(2)]);
    let old = Rose::with_children(rt.alloc(), Counted::new(&tally, 0), low);
    let old = ok!(&rt, old);
    let new = ok!(&rt, old.without(rt.alloc(), &[], 0));
    let made = (tally.copies(), tally.drops());
    old.end(rt.alloc());
    let left = tally.drops();
    new.end(rt.alloc());
    same!(&rt, (made, left, tally.drops()), ((1, 0), 2, 4));
}
