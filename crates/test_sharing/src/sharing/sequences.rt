//! What changes of a sequence copy, and how wide its leaves are.
use sequence::Sequence;
use std::alloc::{AllocError, Global};
use testing::counted::{Counted, Tally, counted_items};
use testing::{again, holds, ok, same, same_at};

fn sequence_of<'a>(
    alloc: Global,
    tally: &'a Tally,
    len: u64,
) -> Result<Sequence<Counted<'a>>, AllocError> {
    Sequence::from_items(alloc, counted_items(alloc, tally, len).ok_or(AllocError)?)
}

// `replace` copies the leaf of six, `swap` the leaf and an item, `retain` what it keeps, and `truncate` none. A
// `retain` of all changes no node.
#[test]
fn a_change_copies_no_more_than_it_has_to(rt: HostRuntime) {
    let (alloc, tally) = (rt.alloc(), Tally::new());
    let mut list = ok!(&rt, sequence_of(alloc, &tally, 5));
    let more = ok!(&rt, vec![in alloc; Counted::new(&tally, 9)]);
    ok!(&rt, list.extend(alloc, more));
    let other = ok!(&rt, sequence_of(alloc, &tally, 3));
    drop(ok!(&rt, list.replace(alloc, 1..4, other)));
    ok!(&rt, list.swap(alloc, 0, 5));
    let mut asked = 0u64;
    let retained = list.retain(alloc, |counted| {
        asked = asked.wrapping_add(1);
        counted.value != 2
    });
    same!(&rt, (retained, asked), (Ok(()), 6));
    let before = again!(&rt, &list);
    ok!(&rt, list.retain(alloc, |_| true));
    holds!(&rt, Sequence::ptr_eq(&list, &before));
    drop(before);
    ok!(&rt, list.truncate(alloc, 4));
    list.clear();
    same!(&rt, (tally.copies(), tally.living(9)), (23, 0));
}

// A leaf has room for 128 numbers of 8 bytes, and one more begins a second leaf under a branch.
static DEPTHS: [(usize, Option<u8>); 4] = [(0, None), (1, Some(1)), (128, Some(1)), (129, Some(2))];

#[test]
fn a_leaf_of_numbers_is_wide(rt: HostRuntime) {
    for (len, expected) in &DEPTHS {
        let mut list = Sequence::new();
        for number in 0..*len {
            ok!(&rt, list.push(rt.alloc(), number));
        }
        same_at!(&rt, *len, list.tree().map(|tree| tree.depth()), *expected);
    }
}
