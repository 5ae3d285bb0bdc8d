//! The texts of `Debug` and `Display`.
use crate::made::{arc_of, check_debug};
use cow_table::CowTable;
use servo_arc::{Arc, ArcUnion, BuildError, StaticArc, ThinStr, UniqueArc};
use std::alloc::AllocError;
use std::fmt::{Debug, Display};
use std::process::Abort;
use testing::{holds, ok, same};

type Numbers = ArcUnion<u32, u32>;

fn check_display<T: Display>(rt: &(impl Abort + AllocGlobal), value: &T, text: &str) {
    let found = format!(in rt.alloc(); "{value} {value:04}");
    same!(rt, ok!(rt, found).as_str(), text);
}

// The width and the line breaks of a format reach the value.
fn check_flags<T: Debug>(rt: &(impl Abort + AllocGlobal), value: &T, text: &str) {
    let found = format!(in rt.alloc(); "{value:5?} {value:#?}");
    same!(rt, ok!(rt, found).as_str(), text);
}

#[test]
fn handles_have_their_texts(rt: HostRuntime) {
    let seven = arc_of(&rt, 7u32);
    check_display(&rt, &seven, "7 0007");
    check_debug(&rt, &seven, "7");
    check_debug(&rt, &seven.borrow_arc(), "ArcBorrow(7)");
    let text = "ArcBorrow(    7) ArcBorrow(\n    7,\n)";
    check_flags(&rt, &seven.borrow_arc(), text);
    let unique = ok!(&rt, UniqueArc::new(rt.alloc(), 8u32));
    check_display(&rt, &unique, "8 0008");
    let pair = Arc::from_header_and_slice(rt.alloc(), 100u8, &[5u8, 6]);
    let pair = ok!(&rt, pair);
    check_debug(&rt, &*pair, "HeaderSlice { header: 100, slice: [5, 6] }");
    let text = "HeaderSlice { header:   100, slice: [    5,     6] } \
        HeaderSlice {\n    header: 100,\n    slice: [\n        5,\n        6,\n    ],\n}";
    check_flags(&rt, &*pair, text);
    let name = ok!(&rt, ThinStr::from_header_and_str(rt.alloc(), 7u8, "ab"));
    check_debug(&rt, &name, "ThinStr { header: 7, text: \"ab\" }");
    same!(
        &rt,
        ok!(&rt, format!(in rt.alloc(); "{name}{name:>4}")).as_str(),
        "ab  ab"
    );
    let kept = ok!(&rt, StaticArc::new(rt.alloc(), 9u32));
    check_display(&rt, &kept, "9 0009");
}

#[test]
fn values_are_printed_as_is_asked(rt: HostRuntime) {
    let text = "Some(    7) Some(\n    7,\n)";
    check_flags(&rt, &arc_of(&rt, Some(7u32)), text);
    check_flags(&rt, &ok!(&rt, UniqueArc::new(rt.alloc(), Some(7u32))), text);
    check_flags(&rt, &ok!(&rt, StaticArc::new(rt.alloc(), Some(7u32))), text);
    let items = ok!(&rt, vec![in rt.alloc(); 7u32]);
    let table = ok!(&rt, CowTable::from_items(rt.alloc(), items, 1));
    check_flags(&rt, &table, "[    7] [\n    7,\n]");
}

#[test]
fn unions_have_their_texts(rt: HostRuntime) {
    let first = Numbers::from_first(arc_of(&rt, 7));
    check_debug(&rt, &first, "First(ArcBorrow(7))");
    let text = "First(ArcBorrow(    7)) First(\n    ArcBorrow(\n        7,\n    ),\n)";
    check_flags(&rt, &first, text);
    let second = Numbers::from_second(arc_of(&rt, 7));
    check_debug(&rt, &second, "Second(ArcBorrow(7))");
    check_debug(&rt, &second.borrow(), "Second(ArcBorrow(7))");
}

#[test]
fn refusals_have_their_texts(rt: HostRuntime) {
    let alloc = rt.alloc();
    let only = ok!(&rt, Arc::new_with_limit(alloc, 7u32, 1));
    let full = ok!(&rt, Arc::clone(&only, &rt).err().ok_or(AllocError));
    let text = format!(in alloc;
        "{full}, {full:?}, {}, {}, {}",
        BuildError::from(AllocError),
        BuildError::OverReported,
        BuildError::UnderReported,
    );
    same!(
        &rt,
        ok!(&rt, text).as_str(),
        "the handle limit is reached, Full, out of memory, ExactSizeIterator over-reported length, \
         ExactSizeIterator under-reported length",
    );
    holds!(&rt, Arc::clone(&only, &rt).err() == Some(full));
}
