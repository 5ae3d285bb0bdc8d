//! Which stacks share their first node, that their items are dropped, how stacks are printed, and the drop of a long
//! stack: a recursive drop would overflow the call stack.
use crate::made::{arc_of, ask};
use maps::Stack;
use sequence::Sequence;
use std::alloc::{AllocError, Global};
use std::process::Abort;
use std::sync::atomic::AtomicU64;
use std::sync::atomic::Ordering::SeqCst;
use std::thread;
use std::thread::Builder;
use testing::counted::{Counted, Tally};
use testing::{SMALL_STACK, again, holds, ok, same};

fn stack_of(alloc: Global) -> Result<Stack<u64>, AllocError> {
    Stack::from_items(alloc, Vec::from_array(alloc, [1, 2, 3])?)
}

#[test]
fn stacks_are_told_apart(rt: HostRuntime) {
    let stack = ok!(&rt, stack_of(rt.alloc()));
    let longer = ok!(&rt, stack.push(rt.alloc(), 9));
    let are_one = [
        Stack::ptr_eq(&stack, &again!(&rt, &stack)),
        Stack::ptr_eq(&stack, &ok!(&rt, longer.rest())),
        Stack::ptr_eq(&stack, &ok!(&rt, stack_of(rt.alloc()))),
        Stack::ptr_eq(&stack, &longer),
    ];
    same!(&rt, are_one, [true, true, false, false]);
    holds!(&rt, stack.last() == Some(&3) && Stack::default() < stack);
    let found = ok!(&rt, format!(in rt.alloc(); "{longer:2?} {longer:#?}"));
    let text = "[ 9,  1,  2,  3] [\n    9,\n    1,\n    2,\n    3,\n]";
    same!(&rt, found.as_str(), text);
}

// A node that a read made static would never be dropped.
#[test]
fn items_end_with_their_stack(rt: HostRuntime) {
    let (alloc, handle) = (rt.alloc(), arc_of(&rt, 7u64));
    let handles = vec![in alloc; again!(&rt, &handle), again!(&rt, &handle)];
    let handles = ok!(&rt, handles);
    let tree = ok!(&rt, Sequence::from_items(alloc, again!(&rt, &handles)));
    ask(&rt, &tree);
    let stack = ok!(&rt, Stack::from_items(alloc, handles));
    ask(&rt, &stack);
    holds!(&rt, tree.contains(&tree[1]));
    holds!(&rt, stack.first() == tree.first());
    let rest = ok!(&rt, stack.rest());
    drop((tree, stack, rest));
    holds!(&rt, handle.is_unique());
}

const MANY: u64 = 1_000_000;

#[test]
fn a_million_nodes_end_on_a_small_stack(rt: HostRuntime) {
    let mut stack = Stack::new();
    for value in 0..MANY {
        stack = ok!(&rt, stack.push(rt.alloc(), value));
    }
    let small = Builder::new().stack_size(SMALL_STACK);
    ok!(&rt, small.spawn(&rt, move || drop(stack))).join(&rt);
}

const ROUNDS: u32 = 20;

const NODES: u64 = 20_000;

fn long_stack<'a>(rt: &(impl Abort + AllocGlobal), tally: &'a Tally) -> Stack<Counted<'a>> {
    let mut stack = Stack::new();
    for value in 0..NODES {
        stack = ok!(rt, stack.push(rt.alloc(), Counted::new(tally, value)));
    }
    stack
}

const MOST_TURNS: u64 = 100_000_000;

// Drops the version once all four threads have arrived.
fn end(rt: &impl Abort, here: &AtomicU64, stack: Stack<Counted<'_>>) {
    here.fetch_add(1, SeqCst);
    for turn in 0..=MOST_TURNS {
        assert!(rt; turn < MOST_TURNS, "another thread did not come");
        if here.fetch_add(0, SeqCst) >= 4 {
            break;
        }
    }
    drop(stack);
}

// The thread that drops its version last has to drop the nodes, and no thread knows that before.
#[test]
fn four_threads_end_one_long_stack(rt: HostRuntime) {
    for _ in 0..ROUNDS {
        let (tally, here) = (Tally::new(), AtomicU64::new(0));
        let (stack, mut versions) = (long_stack(&rt, &tally), Vec::new(rt.alloc()));
        for _ in 0..3 {
            ok!(&rt, versions.push(again!(&rt, &stack)));
        }
        ok!(&rt, versions.push(stack));
        let ended = thread::map_vec(&rt, versions, &|stack| end(&rt, &here, stack));
        ok!(&rt, ended);
        same!(&rt, tally.drops(), NODES);
    }
}
