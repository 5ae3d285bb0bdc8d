//! Maps whose keys are handles: which of two equal keys is kept, that each is dropped, and that text finds them.
use crate::made::{arc_of, ask};
use maps::TreeMap;
use servo_arc::Arc;
use std::ops::Bound;
use std::process::Abort;
use testing::counted::{Counted, Tally};
use testing::{again, holds, ok, same};

type Handles = TreeMap<Arc<u64>, Arc<u64>>;

// More keys than a leaf has room for.
fn handles(rt: &(impl Abort + AllocGlobal)) -> Vec<Arc<u64>> {
    let mut handles = Vec::new(rt.alloc());
    for value in 0..200 {
        ok!(rt, handles.push(arc_of(rt, value)));
    }
    handles
}

// `diff` returns a key of both maps as the older map has it.
fn compare(rt: &(impl Abort + AllocGlobal), map: &Handles) {
    let key = arc_of(rt, 7);
    let newer = ok!(rt, vec![in rt.alloc(); (again!(rt, &key), arc_of(rt, 8))]);
    let newer = ok!(rt, TreeMap::from_items(rt.alloc(), newer));
    let changes = ok!(rt, map.diff(rt.alloc(), &newer));
    let is_old = changes.iter().all(|change| !Arc::ptr_eq(change.0, &key));
    holds!(rt, is_old && map.keys().eq(map.values()));
}

// In the end the handles of the test are the only ones.
#[test]
fn keys_and_values_end_with_their_map(rt: HostRuntime) {
    let (alloc, handles) = (rt.alloc(), handles(&rt));
    let mut entries = Vec::new(alloc);
    for handle in handles.iter().chain(&handles) {
        let entry = (again!(&rt, handle), again!(&rt, handle));
        ok!(&rt, entries.push(entry));
    }
    let mut map = ok!(&rt, TreeMap::from_items(alloc, entries));
    let other = again!(&rt, &map);
    ok!(&rt, map.append(alloc, &other));
    compare(&rt, &map);
    ask(&rt, &map);
    for (number, key) in handles.iter().enumerate() {
        drop(ok!(&rt, map.insert(alloc, again!(&rt, key), again!(&rt, key))));
        match number % 4 {
            0 => ok!(&rt, map.alter(alloc, again!(&rt, key), |_| None)),
            1 => {}
            _ => drop(ok!(&rt, map.remove(alloc, key))),
        }
    }
    let mut asked = 0u64;
    let retained = map.retain(alloc, |key, _| {
        asked = asked.wrapping_add(1);
        **key < 100
    });
    same!(&rt, (retained, asked), (Ok(()), 50));
    map.clear();
    drop((map, other));
    holds!(&rt, handles.iter().all(|handle| handle.is_unique()));
}

fn map_of(rt: &(impl Abort + AllocGlobal), handles: &[Arc<u64>]) -> Handles {
    let mut map = TreeMap::new();
    for handle in handles {
        let (key, value) = (again!(rt, handle), again!(rt, handle));
        drop(ok!(rt, map.insert(rt.alloc(), key, value)));
    }
    map
}

// What a pop, a cut or a join of maps takes out, leaves and drops ends once. The first cut leaves one key in the first
// leaf: the rest is joined with the other leaves, whose first one then gets another separator key.
#[test]
fn keys_end_by_pops_and_cuts(rt: HostRuntime) {
    let (alloc, handles) = (rt.alloc(), handles(&rt));
    let mut low = map_of(&rt, &handles);
    let mut map = ok!(&rt, low.split_off(alloc, &arc_of(&rt, 1)));
    let old = again!(&rt, &map);
    for _ in 0..70 {
        drop(ok!(&rt, map.pop_first(alloc)));
        drop(ok!(&rt, map.pop_last(alloc)));
    }
    let high = ok!(&rt, map.split_off(alloc, &arc_of(&rt, 100)));
    let both = ok!(&rt, old.intersection(alloc, &high));
    let rest = ok!(&rt, old.difference(alloc, &high));
    let joined = ok!(&rt, high.union(alloc, &map));
    drop((low, map, old, high, both, rest, joined));
    holds!(&rt, handles.iter().all(|handle| handle.is_unique()));
}

// `alter` gives the change a clone of the value, and drops the value itself when the change returns another one.
#[test]
fn an_altered_value_ends(rt: HostRuntime) {
    let (alloc, tally) = (rt.alloc(), Tally::new());
    let mut map = TreeMap::new();
    drop(ok!(&rt, map.insert(alloc, 1u64, Counted::new(&tally, 5))));
    let next = Counted::new(&tally, 6);
    ok!(&rt, map.alter(alloc, 1, |_| Some(next)));
    same!(&rt, tally.read(), (1, 2));
}

#[test]
fn text_is_asked_as_it_is(rt: HostRuntime) {
    let (alloc, mut map) = (rt.alloc(), TreeMap::new());
    let elm = arc_of(&rt, ok!(&rt, String::from_str(alloc, "elm")));
    drop(ok!(&rt, map.insert(alloc, elm, 2u32)));
    let behind = map.range_by(Bound::Excluded("ash"), Bound::Unbounded);
    let found = (behind.len(), map.get("elm"), map.get_key_value("elm"));
    same!(&rt, found, (1, Some(&2), map.last()));
    holds!(&rt, map.contains_key("elm"));
    same!(&rt, ok!(&rt, map.remove(alloc, "elm")), Some(2));
}
