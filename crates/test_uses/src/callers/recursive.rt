//! Types that hold themselves: what they derive, and their versions (snapshots).
use crate::made::arc_of;
use servo_arc::Arc;
use std::cmp::Ordering;
use std::collections::{BTreeMap, HashSet};
use std::process::Abort;
use testing::{again, holds, ok, same};
use uses::recursive::by_collections::{Value, insert};
use uses::recursive::by_other_handles::HeaderTree;
use uses::recursive::by_versions::{Value as Nested, append_item, count, insert_item};

fn tree(rt: &(impl Abort + AllocGlobal), header: u32, below: Vec<HeaderTree>) -> HeaderTree {
    let kids = ok!(rt, Arc::from_header_and_vec(rt.alloc(), header, below));
    HeaderTree { kids }
}

fn above(rt: &(impl Abort + AllocGlobal), low: u32) -> HeaderTree {
    let low = tree(rt, low, Vec::new(rt.alloc()));
    tree(rt, 1, ok!(rt, vec![in rt.alloc(); low]))
}

#[test]
fn trees_of_slices_are_ordered_and_hashed(rt: HostRuntime) {
    let (two, three) = (above(&rt, 2), above(&rt, 3));
    holds!(
        &rt,
        two < three && two.cmp(&above(&rt, 2)) == Ordering::Equal
    );
    let mut trees = HashSet::new(rt.alloc());
    ok!(&rt, trees.insert(two));
    holds!(
        &rt,
        trees.contains(&above(&rt, 2)) && !trees.contains(&three)
    );
}

#[test]
fn an_insert_leaves_no_handle_behind(rt: HostRuntime) {
    let mut map = arc_of(&rt, BTreeMap::new(rt.alloc()));
    let old = again!(&rt, map);
    ok!(&rt, insert(&mut map, rt.alloc(), 1, Value::Number(2)));
    same!(&rt, [old.is_unique(), map.is_unique()], [true; 2]);
}

// A list in a map in a list.
#[test]
fn a_nested_list_is_counted(rt: HostRuntime) {
    let (alloc, mut list) = (rt.alloc(), Default::default());
    ok!(&rt, append_item(&mut list, alloc, Nested::Number(1)));
    let (inner, mut map) = (Nested::List(again!(&rt, list)), Default::default());
    ok!(&rt, insert_item(&mut map, alloc, 7, inner));
    ok!(&rt, append_item(&mut list, alloc, Nested::Map(map)));
    same!(&rt, count(&Nested::List(list)), Some(5));
}
