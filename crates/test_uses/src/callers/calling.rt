//! The callers of the documentation, called: that they succeed while there is memory, what they share, and on which
//! threads they run. Their contracts say what they return.
use crate::made::{arc_of, text_of};
use cow_table::CowTable;
use interner::Interner;
use maps::{Stack, TreeMap};
use rose_undo::Rose;
use servo_arc::Arc;
use std::sync::RwLock;
use testing::{again, holds, ok, same};
use uses::accounts::{close_first, close_last, total_between, withdraw};
use uses::bank::transfer;
use uses::copies::{Labels, labels_again, numbers_again};
use uses::crossing::{
    all_handles_cross_threads, all_recursive_types_cross_threads, end_elsewhere,
    is_unique_elsewhere, len_elsewhere, made_elsewhere,
};
use uses::dynamic::{Codec, encoded, shared};
use uses::edits::{Article, two_titles};
use uses::names::{is_named, shared_name};
use uses::nodes::{Child, Kind, LineCounts, node};
use uses::noted::set_and_note;
use uses::published::{Limits, latest, replace};
use uses::read_back::set_and_read;
use uses::recursive::by_arc::Node;
use uses::recursive::by_static::in_front;
use uses::recursive::walks::push;
use uses::symbols::are_equal;
use uses::text_style::{
    plain_and_bold, plain_style, properties, properties_of, put_under, rule_of, size_of, style_or,
    styled,
};
use uses::tree_total::total;
use uses::two_threads::look_in_two_threads;
use uses::two_versions::{before_and_after, two_stacks};

#[test]
fn styles_and_rules_are_shared(rt: HostRuntime) {
    let (plain, bold) = ok!(&rt, plain_and_bold(rt.alloc(), 12));
    same!(&rt, [plain.is_unique(), bold.is_unique()], [true; 2]);
    let default = ok!(&rt, plain_style(rt.alloc(), 7)).into_static();
    same!(&rt, size_of(style_or(None, default).borrow_arc()), 7);
    let style = ok!(&rt, Arc::unwrap_or_clone(plain));
    ok!(&rt, styled(rt.alloc(), style, ['a', 'b'].into_iter(), 2));
    let numbers = ok!(&rt, vec![in rt.alloc(); 4, 5]);
    let mut list = ok!(&rt, properties_of(rt.alloc(), 7, numbers));
    let other = again!(&rt, &list);
    let was_put = put_under(&mut list, 8);
    drop(other);
    same!(&rt, [was_put, put_under(&mut list, 9)], [false, true]);
    ok!(&rt, properties(rt.alloc(), rule_of(&list), &[1, 2, 3]));
}

// A reader keeps the version (snapshot) that it took.
#[test]
fn limits_are_replaced(rt: HostRuntime) {
    let limits = RwLock::new(arc_of(&rt, Limits { low: 1, high: 2 }));
    let old = ok!(&rt, latest(&rt, &limits));
    replace(&rt, &limits, arc_of(&rt, Limits { low: 3, high: 4 }));
    let new = ok!(&rt, latest(&rt, &limits));
    let seen = (old.low, new.low, old.is_unique());
    same!(&rt, seen, (1, 3, true));
}

#[test]
fn copies_share_what_is_behind_handles(rt: HostRuntime) {
    let (alloc, body) = (rt.alloc(), arc_of(&rt, 7u32));
    let document = arc_of(&rt, Article { title: 1, body });
    let (old, new) = ok!(&rt, two_titles(alloc, document, 2));
    holds!(&rt, Arc::ptr_eq(&old.body, &new.body));
    let labels = Labels {
        text: text_of(&rt, ""),
        numbers: ok!(&rt, Arc::from_header_and_slice(alloc, 7, &[1])),
    };
    let copy = ok!(&rt, labels_again(&labels));
    holds!(&rt, Arc::ptr_eq(&labels.text, &copy.text));
    holds!(&rt, Arc::ptr_eq(&labels.numbers, &copy.numbers));
    drop(copy);
    holds!(&rt, labels.text.is_unique());
}

// A handle that another thread makes, is lent and is given, and a stack that is lent.
#[test]
fn a_handle_crosses_threads(rt: HostRuntime) {
    let a = ok!(&rt, made_elsewhere(&rt, rt.alloc(), 7));
    let b = again!(&rt, &a);
    let shared = (is_unique_elsewhere(&rt, &a), end_elsewhere(&rt, b));
    let alone = (is_unique_elsewhere(&rt, &a), end_elsewhere(&rt, a));
    same!(&rt, (shared, alone), ((false, false), (true, true)));
    let stack = ok!(&rt, Stack::new().push(rt.alloc(), 7));
    same!(&rt, len_elsewhere(&rt, &stack), 1);
    all_handles_cross_threads();
    all_recursive_types_cross_threads();
    ok!(&rt, look_in_two_threads(&rt, rt.alloc(), &[0, 1]));
}

#[test]
fn lists_and_nodes_are_made(rt: HostRuntime) {
    let alloc = rt.alloc();
    let numbers = ok!(&rt, vec![in alloc; 4, 5]);
    let numbers = ok!(&rt, numbers_again(&numbers));
    let mut list = ok!(&rt, CowTable::from_items(alloc, numbers, 2));
    let mut places = Vec::new(alloc);
    ok!(&rt, set_and_note(&mut list, &mut places, alloc, 1, 9));
    ok!(&rt, two_stacks(alloc));
    let last = ok!(&rt, in_front(alloc, 7, None));
    ok!(&rt, in_front(alloc, 8, Some(last)));
    let (value, next) = (7, None);
    ok!(&rt, push(alloc, 8, &arc_of(&rt, Node { value, next })));
    let (first, second) = ok!(&rt, shared_name(alloc, 7, "größe"));
    holds!(&rt, is_named(&first, "größe") && *second.header() == 7);
    let below = ok!(&rt, vec![in alloc; ok!(&rt, Rose::leaf(alloc, 2u64))]);
    let tree = ok!(&rt, Rose::with_children(alloc, 1, below));
    same!(&rt, total(&tree), 3);
}

#[test]
fn values_and_nodes_are_interned(rt: HostRuntime) {
    let (alloc, mut nodes) = (rt.alloc(), Interner::new(rt.alloc()));
    ok!(&rt, are_equal(&mut Interner::new(alloc), alloc, 7u64, 9));
    let leaf = ok!(&rt, node(&mut nodes, alloc, Kind::Sum, &[]));
    let children = [Child::Node(leaf), Child::Name(leaf)];
    ok!(&rt, node(&mut nodes, alloc, Kind::Call, &children));
    ok!(&rt, LineCounts::new(alloc).count(alloc, "a\nb\n"));
}

#[derive(Drop)]
struct Same;

impl Codec for Same {
    ghost coded = { λ _ number. number };

    fn encode(&self, number: u8) -> u8 {
        number
    }
}

#[test]
fn a_boxed_value_is_shared(rt: HostRuntime) {
    let codec = ok!(&rt, Box::new(rt.alloc(), Same));
    let codec = ok!(&rt, shared(rt.alloc(), codec));
    same!(&rt, encoded(&codec, 3), 3);
}

// Contracts let `withdraw` take nothing, and let a close pay nothing.
#[test]
fn accounts_are_changed_and_closed(rt: HostRuntime) {
    let alloc = rt.alloc();
    let balances = ok!(&rt, vec![in alloc; (1, 5), (2, 6), (3, 7), (4, u64::MAX)]);
    let mut bank = ok!(&rt, TreeMap::from_items(alloc, balances));
    ok!(&rt, before_and_after(alloc, &mut bank, 3, 8));
    ok!(&rt, set_and_read(&mut bank, alloc, 3, 7));
    ok!(&rt, transfer(&mut bank, alloc, 1, 2, 1));
    same!(&rt, total_between(&bank, 1, 4), Some(18));
    same!(&rt, withdraw(&mut bank, alloc, 1, 1), Ok(true));
    same!(&rt, withdraw(&mut bank, alloc, 2, 7), Ok(true));
    let paid = [close_first(&mut bank, alloc), close_last(&mut bank, alloc)];
    same!(&rt, paid, [Ok(3), Ok(u64::MAX)]);
    same!(&rt, (bank.len(), bank.first()), (1, Some(&(3, 7))));
}
