//! What no clause says of a table of unions: that commands are served if memory is ample, and
//! which of two allowed replies comes when.
use crate::made::arc_of;
use servo_arc::ArcUnion;
use servo_arc::table::Reply::{Done, Empty, Is, NoSlot};
use servo_arc::table::{Reply, UnionCommand as Command, UnionTable};
use std::process::Abort;
use testing::{again, ok, same, served};

/// Runs commands on empty slots. Each gets the reply beside it.
fn check(
    rt: &(impl Abort + AllocGlobal),
    slots: usize,
    (commands, replies): (Vec<Command<u32, u32>>, &[Reply]),
) {
    let mut table = ok!(rt, UnionTable::new(rt.alloc(), slots));
    let found = ok!(rt, table.run(rt.alloc(), commands));
    same!(rt, found.as_slice(), replies);
}

#[test]
fn a_shared_first_gives_way_to_a_second_and_a_union_to_itself(rt: HostRuntime) {
    let rows = served!(&rt;
        Command::First(0, 7) => Done, Command::Clone(0, 1) => Done, Command::PtrEq(0, 1) => Is(true),
        Command::ReadFirst(1, 7) => Is(true), Command::ReadSecond(1, 7) => Is(false),
        Command::IsSecond(0) => Is(false), Command::Second(1, 7) => Done, Command::Same(0, 1) => Is(false),
        Command::PtrEq(0, 1) => Is(false), Command::Drop(0) => Done, Command::IsFirst(0) => Empty,
        Command::IsFirst(2) => NoSlot, Command::Second(0, 6) => Done, Command::Clone(0, 0) => Done,
        Command::PtrEq(0, 0) => Is(true), Command::Same(0, 0) => Is(true), Command::ReadSecond(0, 6) => Is(true),
        Command::First(0, 6) => Done, Command::IsFirst(0) => Is(true));
    check(&rt, 2, rows);
}

#[test]
fn a_union_is_put(rt: HostRuntime) {
    let mut table: UnionTable<u32, u32> = ok!(&rt, UnionTable::new(rt.alloc(), 1));
    let union = ArcUnion::from_first(arc_of(&rt, 7));
    let block = arc_of(&rt, 8);
    let first = ArcUnion::from_first(again!(&rt, &block));
    let was_put = table.put(0, first).is_ok();
    let there = table.put(0, again!(&rt, &union)).is_ok();
    let past_the_last = table.put(1, union).is_ok();
    let seen = (there, past_the_last, table.get(0).is_some());
    same!(&rt, seen, (true, false, true));
    same!(&rt, [was_put, block.is_unique()], [true; 2]);
}
